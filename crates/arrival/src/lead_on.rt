// The axes of a mask lead each other on, to the least tick that all of them reach.
ghost use Rattle.std.specs.Prelude.{◌≡◌, suc, ◌%◌, ◌<◌, ◌≤◌};
ghost use Rattle.model.specs.planning.Job.{set_axes};
ghost use Rattle.model.specs.planning.Refusals.{Passed, AllPassed, last_tick};
ghost use Rattle.model.specs.planning.Outcome.{all_reach};
ghost use Rattle.whole.specs.Candidates.{Next};
ghost use Rattle.reach.specs.Halving.{Loses};
ghost use Rattle.arrival.specs.Arrivals.{reached_by};

use model::{AXES, Axis};

// The least tick from `first` to the last that every axis of the mask reaches, or one past the
// last. Each axis in turn leads on to the next candidate that it does not rule out. Those before
// the one that led on last are asked again: an axis that reached an earlier tick and does not reach
// this one reaches no later one.
pub fn least_reached(mask: u32, axes: [Axis; AXES], first: u32, last: u32) -> u32
    requires all_passed { AllPassed (set_axes 0 mask axes) }
    requires first_bound { first ≤ suc last }
    requires last_le_last_tick { last ≤ last_tick }
    ensures { Next (all_reach (set_axes 0 mask axes)) first last result }
{
    let mut n = first;
    let mut bits = mask;
    let mut again: usize = 0;
    for (number, axis) in axes.iter().enumerate() {
        let next = next_for(bits, *axis, n, last);
        if last < next {
            return next;
        }
        if n < next {
            again = number;
        }
        n = next;
        bits /= 2;
    }
    let mut left = mask;
    for axis in &axes[..again] {
        if drops_out(left, *axis, n) {
            return last + 1;
        }
        left /= 2;
    }
    n
}

// The least arrival from k to the last that an axis reaches, or one past the last, where the
// lowest of the bits names it; else k.
fn next_for(bits: u32, axis: Axis, k: u32, last: u32) -> u32
    requires passed { bits % 2 ≡ 1 → Passed axis }
    requires k_bound { k ≤ suc last }
    requires last_le_last_tick { last ≤ last_tick }
    ensures { Next (reached_by bits axis) k last result }
{
    if bits % 2 == 1 {
        reach::next_reached(axis, k, last)
    } else {
        k
    }
}

// Whether the lowest of the bits names the axis and the axis, which reaches an earlier
// tick, does not reach this one.
#[tactic(auto, using(crate::proofs::Leading::loses_named, crate::proofs::Leading::loses_unnamed))]
fn drops_out(bits: u32, axis: Axis, tick: u32) -> bool
    requires passed { bits % 2 ≡ 1 → Passed axis }
    requires tick_le_last_tick { tick ≤ last_tick }
    ensures { Loses (reached_by bits axis) tick result }
{
    bits % 2 == 1 && reach::loses(axis, tick)
}
