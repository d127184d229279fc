// The job words of input bytes (docs/METHOD.md, section 6).
ghost use Rattle.std.specs.Prelude.{◌≡◌, ◌*◌, ◌<◌, length, take, drop};
ghost use Rattle.whole.specs.Lists.{WrittenAtStart};
ghost use Rattle.model.specs.calls.Bytes.{words_of};
ghost use Rattle.text.specs.Words.{first_word};

// The word at an index, or a word of kind 0 where bytes are lacking.
fn word(bytes: &[u8], at: usize) -> u32
    requires { at < length bytes.now }
    ensures { result ≡ first_word (drop at bytes.now) }
{
    if at + 4 <= bytes.len() {
        return u32::from_le_bytes([bytes[at], bytes[at + 1], bytes[at + 2], bytes[at + 3]]);
    }
    0
}

// Puts the job words of the bytes at the start of `words`, and returns how many there are. No more
// bytes are read than `words` has entries for.
pub fn words_of(bytes: &[u8], words: &mut [u32]) -> usize
    ensures { WrittenAtStart words.old
        (words_of (take (4 * length words.old) bytes.now))
        words.new result }
{
    let count = bytes.len().div_ceil(4).min(words.len());
    for i in 0..count {
        words[i] = word(bytes, 4 * i);
    }
    count
}
