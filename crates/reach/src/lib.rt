// Whether an axis reaches an arrival, and which it reaches next
// (docs/METHOD.md, section 3, rule 4, and 3.10).
#![tactic(auto)]

mod approach;

ghost use Rattle.std.specs.Prelude.{suc, ◌^◌, ◌<◌, ◌≤◌, max, true, false, ◌≡◌};
ghost use Rattle.whole.specs.Ranges.{Within, Is};
ghost use Rattle.model.specs.planning.Quantities.{delay, accelerates};
ghost use Rattle.model.specs.planning.Motion.{reachable};
ghost use Rattle.model.specs.planning.Refusals.{last_tick, Passed};
ghost use Rattle.whole.specs.Candidates.{Next};
ghost use Rattle.reach.specs.Drift.{drift_of, drift, speed_of};
ghost use Rattle.reach.specs.Halving.{LastPassing, ReachesSome, Loses};

use approach::{Approach, ticks_within};
use model::{Axis, FINE_STEPS, Target};

// Whether the axis can arrive at tick n.
pub fn reaches(x: Axis, n: u32) -> bool
    requires passed { Passed x }
    requires n_le_last_tick { n ≤ last_tick }
    ensures { result ≡ reachable x n }
{
    let delay = motion::delay_of(x);
    if n <= delay {
        return false;
    }
    let landing = motion::landing_at(x, n);
    let limit = motion::limit_on_grid(x, x.speed_limit);
    if landing.velocity.unsigned_abs() > limit {
        return false;
    }
    let arrived = motion::arrival_velocity(landing, delay);
    if arrived.unsigned_abs() > limit {
        return false;
    }
    let p = motion::profile_of(x, n, landing);
    envelopes::makes(p, motion::displacement(x, landing))
}

// ---- whether it reaches any

// The last arrival from n to the last at which the target is not too fast: where
// one of them is reached, it is.
fn last_slow(x: Axis, n: u32, last: u32) -> u32
    requires passed { Passed x }
    requires x_bound { delay x < n }
    requires n_le_last { n ≤ last }
    requires last_le_last_tick { last ≤ last_tick }
    ensures { LastPassing (reachable x) n last result }
{
    let delay = motion::delay_of(x);
    let landing = motion::landing_at(x, n);
    let limit = motion::limit_on_grid(x, x.speed_limit);
    let arrived = motion::arrival_velocity(landing, delay);
    n + ticks_within(limit, arrived, landing.acceleration, last - n)
}

// Whether the axis can arrive at some tick up to the last: at the last of those at
// which its target is slow enough.
fn reaches_while_slow(x: Axis, last: u32) -> bool
    requires passed { Passed x }
    requires last_le_last_tick { last ≤ last_tick }
    ensures { ReachesSome (reachable x) last result }
{
    let delay = motion::delay_of(x);
    delay < last && reaches(x, last_slow(x, delay + 1, last))
}

// The same of any axis: at the last tick, where its target does not accelerate.
pub fn reaches_some(x: Axis, last: u32) -> bool
    requires passed { Passed x }
    requires le_last { 1 ≤ last }
    requires last_le_last_tick { last ≤ last_tick }
    ensures { ReachesSome (reachable x) last result }
{
    if motion::accelerates(x.target) {
        return reaches_while_slow(x, last);
    }
    next_reached(x, last, last) == last
}

// Whether the axis, where it reaches a tick up to n, does not reach n: only a target that
// accelerates can be too fast by then.
pub fn loses(x: Axis, n: u32) -> bool
    requires passed { Passed x }
    requires n_le_last_tick { n ≤ last_tick }
    ensures { Loses (reachable x) n result }
{
    motion::accelerates(x.target) && !reaches(x, n)
}

// ---- the next arrival

// The first arrival from n on that is after the delay.
fn first_after(n: u32, delay: u32) -> u32
    requires { delay ≤ 512 }
    ensures { result ≡ max n (suc delay) }
{
    n.max(delay + 1)
}

// By how much the required sum changes from one arrival to the next, where the target does
// not accelerate, in fine steps.
fn drift_of(target: Target) -> i64
    requires { Within (2 ^ 20) (speed_of target) }
    ensures { Is (2 ^ 28) result (drift_of target) }
{
    match target {
        Target::Fixed(_) => 0,
        Target::Moving(m) => FINE_STEPS * m.velocity,
    }
}

// The same in grid steps.
fn drift(x: Axis) -> i64
    requires { Within (2 ^ 20) (speed_of x.target) }
    ensures { Is (2 ^ 36) result (drift x) }
{
    motion::grid_steps(x) * drift_of(x.target)
}

// The least arrival from n to the last that the axis reaches, or one past the last, where the
// target does not accelerate: arrivals that surely fall short are passed over, and then the sums of
// the envelopes are carried from one arrival to the next.
fn next_steady(x: Axis, n: u32, last: u32) -> u32
    requires passed { Passed x }
    requires target_value { accelerates x.target ≡ false }
    requires n_bound { n ≤ suc last }
    requires last_le_last_tick { last ≤ last_tick }
    ensures { Next (reachable x) n last result }
{
    let delay = motion::delay_of(x);
    let first = first_after(n, delay);
    if last < first {
        return last + 1;
    }
    let landing = motion::landing_at(x, first);
    let p = motion::profile_of(x, first, landing);
    let sum = profile::required(p, motion::displacement(x, landing));
    let ticks = envelopes::next_feasible(p, sum, drift(x), (last - delay) as u64);
    ticks as u32 + delay
}

// The same where the target accelerates: by halving.
fn next_by_halving(x: Axis, n: u32, last: u32) -> u32
    requires passed { Passed x }
    requires target_value { accelerates x.target ≡ true }
    requires n_bound { n ≤ suc last }
    requires last_le_last_tick { last ≤ last_tick }
    ensures { Next (reachable x) n last result }
{
    let delay = motion::delay_of(x);
    let first = first_after(n, delay);
    if last < first {
        return last + 1;
    }
    first + Approach::new(x, first).next_later(last - first)
}

// The least arrival from n to the last that the axis reaches, or one past the last.
pub fn next_reached(x: Axis, n: u32, last: u32) -> u32
    requires passed { Passed x }
    requires n_bound { n ≤ suc last }
    requires last_le_last_tick { last ≤ last_tick }
    ensures { Next (reachable x) n last result }
{
    if motion::accelerates(x.target) {
        return next_by_halving(x, n, last);
    }
    next_steady(x, n, last)
}
