// Masks of axes: bit i stands for axis i.
ghost use Rattle.std.specs.Prelude.{◌≡◌, ◌<◌, length};
ghost use Rattle.model.specs.planning.Job.{set_bits};
ghost use Rattle.model.specs.planning.Words as Words;

// The number of axes: the number of ones in the mask.
pub fn axis_count(mask: u32) -> usize
    requires { mask < 64 }
    ensures { result ≡ length (set_bits mask) }
{
    u32::count_ones(mask) as usize
}

// Whether a mask names an axis and none above axis 5. Refusal 1 where it does
// not, of words and of typed values.
pub fn mask_allowed(mask: u32) -> bool
    ensures { result ≡ Words.good_mask mask }
{
    if mask == 0 {
        return false;
    }
    mask <= 63
}
