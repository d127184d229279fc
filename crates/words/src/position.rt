// Positions of one word or two, and refusal 14 (docs/METHOD.md, 6.3).
ghost use Rattle.std.specs.Prelude.{◌+◌, ◌^◌, ◌<◌, ◌≡◌, length};
ghost use Rattle.whole.specs.Ranges.{Is};
ghost use Rattle.model.specs.planning.Words as Words;
ghost use Rattle.words.specs.ByIndex.{long_at, position_at, skip_optional, is_bad_long, bad_long_in};

use crate::word::{PAYLOADS, is_kind, payload, signed_payload};
use model::LONG_WORD;

// The position whose words begin at an index: one word, or a word of kind 14 and another.
#[tactic(auto, using(crate::proofs::Twos::back), unfolding(crate::specs::ByIndex::position_at))]
pub fn position_at(words: &[u32], at: usize) -> i64
    requires { skip_optional words.now at 14 < length words.now }
    ensures { result ≡ position_at words.now at }
{
    if is_kind(words, at, LONG_WORD) {
        return long_position(words, at);
    }
    signed_payload(words, at)
}

// The position of two words: the first one's signed payload times 2^28, plus the second one's
// payload.
fn long_position(words: &[u32], at: usize) -> i64
    requires { at + 1 < length words.now }
    ensures { Is (2 ^ 56) result (long_at words.now at) }
{
    let high = signed_payload(words, at);
    let low = payload(words, at + 1);
    PAYLOADS as i64 * high + low as i64
}

// Refusal 14: the word is of kind 14, and its payload is outside -64 to 63 or a
// single word holds the position.
#[tactic(auto, unfolding(crate::specs::ByIndex::is_bad_long))]
fn is_bad_long(words: &[u32], at: usize) -> bool
    requires { at + 1 < length words.now }
    ensures { result ≡ is_bad_long words.now at }
{
    if !is_kind(words, at, LONG_WORD) {
        return false;
    }
    let high = signed_payload(words, at);
    if !between(-64, 63, high) {
        return true;
    }
    let position = long_position(words, at);
    between(-134217728, 134217727, position)
}

// The index of the first word that refusal 14 names, of the words before the one at `end`.
pub fn first_bad_long(words: &[u32], end: usize) -> Option<usize>
    requires { end < length words.now }
    ensures { result ≡ bad_long_in words.now end 0 }
{
    for i in 0..end {
        if is_bad_long(words, i) {
            return Some(i);
        }
    }
    None
}

// Whether a number is from `low` to `high`.
fn between(low: i64, high: i64, z: i64) -> bool
    ensures { result ≡ Words.between low high z }
{
    (low..=high).contains(&z)
}
