// The converter of old jobs (docs/METHOD.md, 8.3). A fixed target must be at rest; an old
// job may have one that flies. Where its arrival is asked for, the converter turns each
// such target into a moving one of acceleration 0 at that tick: the same job by the old
// rules, and one that planning takes.
//
// The way of a job:
//     convert           words::decode       refusals 1, 2 and 14
//                       admission::check    3, 4, 5, 15, 6, 16, and 17 where the least arrival is
//                                           sought
//                       write_converted     10, or the converted words
#![tactic(auto)]

ghost use Rattle.std.specs.Prelude.{◌≡◌, ◌<◌, ◌≤◌, length};
ghost use Rattle.whole.specs.Lists.{over, Room, Written};
ghost use Rattle.model.specs.planning.Refusals.{last_tick};
ghost use Rattle.model.specs.calls.Converter.{converted, written};
ghost use Rattle.converter.specs.Pieces.{flying_at, piece_at, needed_for};
ghost use Rattle.converter.specs.Promise.{Converts, Answers, conversion_answer};

use admission::Purpose;
use model::{Answer, MOVING_WORD, Refusal, TARGET_VELOCITY_WORD};

// The word of an acceleration of 0.
const NO_ACCELERATION: u32 = MOVING_WORD << 28;

// The word of tick 0.
const TICK_0: u32 = (MOVING_WORD + 1) << 28;

// Writes the converted words of a job at the start of the lent ones. Words that are not the
// velocity of a fixed target that flies are copied; such a one is followed by an acceleration of 0
// and the asked arrival as tick.
// Answers back number 0 with the number of words written as place, and later lent words stay; or,
// with every lent word as it was, the first of refusals 1, 2, 14, 3, 4, 5, 15, 6, 16 and 17 with
// its place, 17 only where the least arrival is sought; or 10 with the number of words needed as
// place. Mask and arrival are 0. Whether the asked arrival can be reached is not looked at.
pub fn convert(words: &[u32], lent: &mut [u32]) -> Answer
    ensures { Converts words.now lent.old result lent.new }
{
    match convert_in(words, lent) {
        Ok(count) => Answer {
            number: 0,
            place: count,
            mask: 0,
            arrival: 0,
        },
        Err(refusal) => Answer::from(refusal),
    }
}

// The number of words written, or the refusal.
fn convert_in(words: &[u32], lent: &mut [u32]) -> Result<usize, Refusal>
    ensures { Converts words.now lent.old (conversion_answer result) lent.new }
{
    match words::decode(words) {
        Ok(job) => {
            admission::check(
                job.mask,
                job.asked,
                job.axes,
                job.windows,
                Purpose::Converting,
            )?;
            write_converted(words, job.asked, lent)
        }
        Err(refusal) => Err(refusal),
    }
}

// ---- refusal 10, or the converted words

fn write_converted(words: &[u32], asked: u32, lent: &mut [u32]) -> Result<usize, Refusal>
    requires { asked ≤ last_tick }
    ensures { Answers (written (converted asked words.now) lent.old) (conversion_answer result) lent.new }
{
    let needed = words_needed(words);
    if lent.len() < needed {
        return Err(Refusal::ListShort(needed));
    }
    put_words(words, asked, lent);
    Ok(needed)
}

// The number of converted words: three for each velocity of a fixed target that
// flies, one for each other word.
fn words_needed(words: &[u32]) -> usize
    ensures { result ≡ needed_for words.now }
{
    let mut needed: usize = 0;
    for i in 0..words.len() {
        needed += piece_length(words, i);
    }
    needed
}

fn piece_length(words: &[u32], i: usize) -> usize
    requires { i < length words.now }
    ensures value { result ≡ length (piece_at words.now 0 i) }
    ensures upper_bound { result ≤ 3 }
{
    if is_flying(words, i) { 3 } else { 1 }
}

// Writes the converted words at the start of the lent ones.
fn put_words(words: &[u32], asked: u32, lent: &mut [u32])
    requires asked_le_last_tick { asked ≤ last_tick }
    requires words_in_bounds { length (converted asked words.now) ≤ length lent.old }
    ensures { lent.new ≡ over lent.old 0 (converted asked words.now) }
{
    let mut at: usize = 0;
    for i in 0..words.len() {
        at = put_word(words, i, asked, lent, at);
    }
}

// Writes what becomes of one word, from an index of the lent words on, and
// gives back the index after it.
fn put_word(words: &[u32], i: usize, asked: u32, lent: &mut [u32], at: usize) -> usize
    requires i_in_bounds { i < length words.now }
    requires asked_le_last_tick { asked ≤ last_tick }
    requires room { Room lent.old at (piece_at words.now asked i) }
    ensures { Written lent.old at (piece_at words.now asked i) lent.new result }
{
    let flying = is_flying(words, i);
    lent[at] = words[i];
    if flying {
        lent[at + 1] = NO_ACCELERATION;
        lent[at + 2] = TICK_0 + asked;
        return at + 3;
    }
    at + 1
}

// Whether a word is the velocity of a fixed target that flies: of kind 10, not 0, and
// with no acceleration after it.
fn is_flying(words: &[u32], i: usize) -> bool
    requires { i < length words.now }
    ensures { result ≡ flying_at words.now i }
{
    words::is_kind(words, i, TARGET_VELOCITY_WORD)
        && words::payload(words, i) != 0
        && !words::is_kind(words, i + 1, MOVING_WORD)
}
