// The words of one axis (docs/METHOD.md, section 6).
ghost use Rattle.std.specs.Prelude.{◌+◌, ◌<◌, ◌≤◌, ◌≡◌, length, drop};
ghost use Rattle.model.specs.planning.Words as Words;
ghost use Rattle.words.specs.ByIndex.{skip_optional, rest_at, state_at, sway_at, axis_at, axis_reading};

use crate::position::position_at;
use crate::word::{is_kind, payload, run_end, signed_payload, skip_optional};
use model::{
    Axis, LONG_WORD, MOVING_WORD, Refusal, RestPoint, SECOND_SWAY_WORD, START_WORD, State,
    TARGET_WORD, Target, Weight,
};

// The axis whose words begin at an index, and the index after them, or refusal 2. They are eight of
// kinds 3 to 10, and for a moving target two more, of kinds 11 and 12. A word of kind 14 may stand
// before those of kinds 3 and 9, and one of kind 13 after that of kind 8.
pub fn read_axis(words: &[u32], at: usize) -> Result<(Axis, usize), Refusal>
    requires { at < 1000 }
    ensures { result ≡ axis_reading (Words.axis at (drop at words.now)) }
{
    let start = skip_optional(words, at, LONG_WORD);
    let sway_at = run_end(words, start, START_WORD, 6)?;
    let target_at = skip_optional(words, sway_at, SECOND_SWAY_WORD);
    let target = skip_optional(words, target_at, LONG_WORD);
    let fixed_end = run_end(words, target, TARGET_WORD, 2)?;
    if !is_kind(words, fixed_end, MOVING_WORD) {
        let point = rest_point(words, target_at);
        return Ok((axis_to(words, at, Target::Fixed(point)), fixed_end));
    }
    let moving_end = run_end(words, fixed_end, MOVING_WORD, 2)?;
    let state = state_at(words, target_at);
    Ok((axis_to(words, at, Target::Moving(state)), moving_end))
}

// The axis whose words begin at an index, with a target.
#[tactic(auto, unfolding(crate::specs::ByIndex::axis_at))]
fn axis_to(words: &[u32], at: usize, target: Target) -> Axis
    requires { skip_optional words.now at 14 + 6 ≤ length words.now }
    ensures { result ≡ axis_at words.now at target }
{
    let start = rest_point(words, at);
    let first = skip_optional(words, at, LONG_WORD);
    let speed_limit = payload(words, first + 2);
    let acceleration_limit = payload(words, first + 3);
    let half_period = payload(words, first + 4);
    let second_weight = payload(words, first + 5);
    let second_sway = second_sway(words, first + 6);
    Axis {
        start,
        speed_limit,
        acceleration_limit,
        half_period,
        second_weight: Weight::Given(second_weight),
        second_sway,
        target,
    }
}

// The second sway whose word may stand at an index.
#[tactic(auto, using(crate::proofs::Reader::there), unfolding(crate::specs::ByIndex::sway_at))]
fn second_sway(words: &[u32], at: usize) -> Option<u32>
    ensures { result ≡ sway_at words.now at }
{
    if is_kind(words, at, SECOND_SWAY_WORD) {
        Some(payload(words, at))
    } else {
        None
    }
}

// The position and velocity whose words begin at an index.
#[tactic(auto, using(crate::proofs::Twos::back), unfolding(crate::specs::ByIndex::rest_at))]
fn rest_point(words: &[u32], at: usize) -> RestPoint
    requires { skip_optional words.now at 14 + 2 ≤ length words.now }
    ensures { result ≡ rest_at words.now at }
{
    let first = skip_optional(words, at, LONG_WORD);
    let position = position_at(words, at);
    let velocity = signed_payload(words, first + 1);
    RestPoint { position, velocity }
}

// The position, velocity, acceleration and tick whose words begin at an index.
#[tactic(auto, using(crate::proofs::Twos::back), unfolding(crate::specs::ByIndex::state_at))]
fn state_at(words: &[u32], at: usize) -> State
    requires { skip_optional words.now at 14 + 4 ≤ length words.now }
    ensures { result ≡ state_at words.now at }
{
    let first = skip_optional(words, at, LONG_WORD);
    let position = position_at(words, at);
    let velocity = signed_payload(words, first + 1);
    let acceleration = signed_payload(words, first + 2);
    let tick = signed_payload(words, first + 3);
    State {
        position,
        velocity,
        acceleration,
        tick,
    }
}
