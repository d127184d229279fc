// Numbers as text. Each function writes its text into `out` from the index `at` on,
// and returns the index after it.
ghost use Rattle.whole.specs.Lists.{Room, Written};
ghost use Rattle.text.specs.Printed.{decimal, labelled};

// A number has at most 20 digits, so the calls go at most 20 deep.
pub(crate) fn put_number(out: &mut [u8], at: usize, x: u64) -> usize
    requires { Room out.old at (decimal x) }
    ensures { Written out.old at (decimal x) out.new result }
{
    if x < 10 {
        out[at] = 48 + x as u8;
        return at + 1;
    }
    let last = put_number(out, at, x / 10);
    out[last] = 48 + (x % 10) as u8;
    last + 1
}

// A number after a label.
pub(crate) fn put_labelled(out: &mut [u8], at: usize, label: &[u8], x: u64) -> usize
    requires { Room out.old at (labelled label.now x) }
    ensures { Written out.old at (labelled label.now x) out.new result }
{
    let next = at + label.len();
    out[at..next].copy_from_slice(label);
    put_number(out, next, x)
}
