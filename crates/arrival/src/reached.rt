// Which axes of a mask reach a tick.
ghost use Rattle.std.specs.Prelude.{◌≡◌, ◌%◌, ◌≤◌};
ghost use Rattle.model.specs.planning.Job.{set_axes, mask_where};
ghost use Rattle.model.specs.planning.Refusals.{Passed, AllPassed, last_tick};
ghost use Rattle.model.specs.planning.Outcome.{all_reach};
ghost use Rattle.arrival.specs.Arrivals.{cannot_arrive, missed_by};

use model::{AXES, Axis, LAST_TICK};

// Whether every axis of the mask reaches a tick.
#[inline(never)] // inlined, it leaves its copy of the axes, 576 bytes, on the stack of a search
#[tactic(auto, using(crate::proofs::Reaching::missed))]
pub fn all_reach(mask: u32, axes: [Axis; AXES], tick: u32) -> bool
    requires all_passed { AllPassed (set_axes 0 mask axes) }
    requires tick_le_last_tick { tick ≤ last_tick }
    ensures { result ≡ all_reach (set_axes 0 mask axes) tick }
{
    let mut bits = mask;
    for axis in &axes {
        if misses(bits, *axis, tick) {
            return false;
        }
        bits /= 2;
    }
    true
}

// Whether the lowest of the bits names the axis and the axis does not reach the tick.
#[tactic(auto, unfolding(crate::specs::Arrivals::missed_by))]
pub fn misses(bits: u32, axis: Axis, tick: u32) -> bool
    requires passed { bits % 2 ≡ 1 → Passed axis }
    requires tick_le_last_tick { tick ≤ last_tick }
    ensures { result ≡ missed_by bits axis tick }
{
    bits % 2 == 1 && !reach::reaches(axis, tick)
}

// The mask of those axes of a mask that do not reach the asked arrival or, where 0 is asked, any.
pub fn unable_axes(mask: u32, axes: [Axis; AXES], asked: u32) -> u32
    requires all_passed { AllPassed (set_axes 0 mask axes) }
    requires asked_le_last_tick { asked ≤ last_tick }
    ensures { result ≡ mask_where (cannot_arrive asked) (set_axes 0 mask axes) }
{
    let mut unable: u32 = 0;
    let mut bit: u32 = 1;
    let mut bits = mask;
    for axis in &axes {
        if bits % 2 == 1 && cannot_arrive(*axis, asked) {
            unable += bit;
        }
        bit *= 2;
        bits /= 2;
    }
    unable
}

// Whether an axis does not reach the asked arrival or, where 0 is asked, any from 1 to 4,096.
#[tactic(auto, using(crate::proofs::Unable::misses_all, crate::proofs::Unable::misses_asked))]
fn cannot_arrive(axis: Axis, asked: u32) -> bool
    requires passed { Passed axis }
    requires asked_le_last_tick { asked ≤ last_tick }
    ensures { result ≡ cannot_arrive asked axis }
{
    if asked == 0 {
        !reach::reaches_some(axis, LAST_TICK)
    } else {
        !reach::reaches(axis, asked)
    }
}
