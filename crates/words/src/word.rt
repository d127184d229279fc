// One word: its kind is its top four bits, its payload the other 28 (docs/METHOD.md, section 6).
ghost use Rattle.std.specs.Prelude.{◌^◌, ◌<◌, ◌≡◌, length};
ghost use Rattle.whole.specs.Ranges.{Is};
ghost use Rattle.words.specs.ByIndex.{payload_at, signed_at, is_kind, is_end, skip_optional, run_end};

use model::{END_WORD, Refusal};

// The number of payloads, of 28 bits.
pub const PAYLOADS: u32 = 1 << 28;

// Whether there is a word at an index and it is of a kind: its top four bits.
#[tactic(auto, unfolding(crate::specs::ByIndex::is_kind))]
pub fn is_kind(words: &[u32], at: usize, due: u32) -> bool
    ensures { result ≡ is_kind words.now at due }
{
    at < words.len() && words[at] / PAYLOADS == due
}

// The low 28 bits of a word.
pub fn payload(words: &[u32], at: usize) -> u32
    requires { at < length words.now }
    ensures { result ≡ payload_at words.now at }
{
    words[at] % PAYLOADS
}

// The low 28 bits of a word in two's complement.
pub fn signed_payload(words: &[u32], at: usize) -> i64
    requires { at < length words.now }
    ensures { Is (2 ^ 27) result (signed_at words.now at) }
{
    let bits = payload(words, at);
    if bits < PAYLOADS / 2 {
        return bits as i64;
    }
    bits as i64 - PAYLOADS as i64
}

// Whether the word at an index is the end word.
#[tactic(auto, using(crate::proofs::Reader::there))]
pub fn is_end(words: &[u32], at: usize) -> bool
    ensures { result ≡ is_end words.now at }
{
    is_kind(words, at, END_WORD) && payload(words, at) == 0
}

// The index after a word that may stand at an index: the next where that word is of a kind, else
// the same.
#[tactic(auto, using(crate::proofs::Reader::there))]
pub fn skip_optional(words: &[u32], at: usize, kind: u32) -> usize
    ensures { result ≡ skip_optional words.now at kind }
{
    if is_kind(words, at, kind) { at + 1 } else { at }
}

// The index after `count` words from `at` on, of the kinds `first`, `first` + 1, ..; or refusal 2
// of the first that is not of the kind due there.
// Kinds are plain numbers: a run counts them up, and an enum would be turned into one and back.
pub fn run_end(words: &[u32], at: usize, first: u32, count: usize) -> Result<usize, Refusal>
    requires { (at < 4096) × (first < 16) × (count < 16) }
    ensures { result ≡ run_end words.now at first count }
{
    for i in 0..count {
        if !is_kind(words, at + i, first + i as u32) {
            return Err(Refusal::Word(at + i));
        }
    }
    Ok(at + count)
}
