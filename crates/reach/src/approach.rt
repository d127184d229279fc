// An axis whose target accelerates, from one arrival on: what does not change from arrival to
// arrival is worked out once, and the arrivals are halved down to the first that it reaches.
ghost use Rattle.std.specs.Prelude.{◌+◌, ◌-◌, ◌^◌, ◌≤◌, ◌<◌, true, ◌≡◌, nat_abs};
ghost use Rattle.whole.specs.Ranges.{Within, Is};
ghost use Rattle.whole.specs.Candidates.{Next};
ghost use Rattle.model.specs.planning.Quantities.{accelerates, delay};
ghost use Rattle.model.specs.planning.Refusals.{last_tick, Passed};
ghost use Rattle.reach.specs.Halving.{room_toward, TicksWithin};
ghost use Rattle.reach.specs.Approaches.{end_later, arrived_later, travel_later, profile_later, reaches_later};
ghost use Rattle.reach.specs.Approaches.{ApproachRanged, Approaches, ApproachIs};

use model::Axis;
use profile::Profile;

// The leg to the first arrival: its limits, ends, displacement and ticks. With each arrival the
// velocity of its end changes by as much.
// `ApproachRanged` is no ghost field: `Approaches`, which names the struct, would stay a clause.
#[derive(Clone, Copy)]
pub struct Approach {
    pub speed_limit: u64,
    pub acceleration_limit: u64,
    pub start: i64,
    pub end: i64,
    pub change: i64,
    pub travel: i64,
    pub ticks: u64,
    pub delay: u32,
}

impl Approach {
    // The approach of an axis from arrival n on, to the last.
    pub fn new(x: Axis, n: u32) -> Self
        requires passed { Passed x }
        requires target_value { accelerates x.target ≡ true }
        requires n_le_last_tick { n ≤ last_tick }
        requires x_bound { delay x < n }
        ensures { ApproachIs x n result }
    {
        let landing = motion::landing_at(x, n);
        Approach {
            speed_limit: motion::limit_on_grid(x, x.speed_limit),
            acceleration_limit: motion::limit_on_grid(x, x.acceleration_limit),
            start: motion::start_velocity(x),
            end: landing.velocity,
            change: landing.acceleration,
            travel: motion::displacement(x, landing),
            ticks: motion::landing_tick(x, n) as u64,
            delay: motion::delay_of(x),
        }
    }

    // The velocity of the leg's end, i arrivals later.
    fn end_later(self, i: u32) -> i64
        requires approach_ranged { ApproachRanged self }
        requires i_bound { i ≤ 4096 }
        ensures { Is (2 ^ 48) result (end_later self i) }
    {
        self.end + i as i64 * self.change
    }

    // The velocity at the arrival itself.
    fn arrived_later(self, i: u32) -> i64
        requires approach_ranged { ApproachRanged self }
        requires i_bound { i ≤ 4096 }
        ensures { Is (2 ^ 49) result (arrived_later self i) }
    {
        self.end_later(i) + self.delay as i64 * self.change
    }

    // The leg's displacement.
    fn travel_later(self, i: u32) -> i64
        requires approach_ranged { ApproachRanged self }
        requires i_bound { i ≤ 4096 }
        ensures { Is (2 ^ 62) result (travel_later self i) }
    {
        let later = i as i64;
        self.travel + later * (2 * self.end + later * self.change)
    }

    // The leg, where its end is slow enough.
    fn profile_later(self, i: u32) -> Profile
        requires approach_ranged { ApproachRanged self }
        requires few { self.ticks + i ≤ 4096 }
        requires slow { nat_abs (end_later self i) ≤ self.speed_limit }
        ensures { result ≡ profile_later self i }
    {
        Profile {
            speed_limit: self.speed_limit,
            acceleration_limit: self.acceleration_limit,
            start: self.start,
            end: self.end_later(i),
            ticks: self.ticks + i as u64,
        }
    }

    // Whether the arrival that is i later than the first is reached.
    fn reaches_later(self, i: u32, most: u32) -> bool
        requires approaches { Approaches self most }
        requires i_le_most { i ≤ most }
        ensures { result ≡ reaches_later self i }
    {
        if self.end_later(i).unsigned_abs() > self.speed_limit {
            return false;
        }
        if self.arrived_later(i).unsigned_abs() > self.speed_limit {
            return false;
        }
        envelopes::makes(self.profile_later(i), self.travel_later(i))
    }

    // The first arrival of those to the last that is reached, or one past the last: none is, unless
    // the last at which the target is slow enough is.
    pub fn next_later(self, last: u32) -> u32
        requires { Approaches self last }
        ensures { Next (reaches_later self) 0 last result }
    {
        if self.reaches_later(0, last) {
            return 0;
        }
        let high = ticks_within(self.speed_limit, self.arrived_later(0), self.change, last);
        if !self.reaches_later(high, last) {
            return last + 1;
        }
        whole::first_passing(|i| self.reaches_later(i as u32, last), 0, high as u64) as u32
    }
}

// ---- the last arrival at which the target is slow enough

// How much may come to a velocity, in the direction of its change, until it is past a limit.
pub fn room_toward(limit: u64, velocity: i64, change: i64) -> i64
    requires limit_bound { limit ≤ 2 ^ 37 }
    requires within { Within (2 ^ 49) velocity }
    ensures { Is (2 ^ 50) result (room_toward limit velocity change) }
{
    let most = limit as i64;
    if change < 0 {
        return most + velocity;
    }
    most - velocity
}

// The last of the ticks 0 to `most` at which a velocity that changes by the same number
// each tick can be within a limit.
pub fn ticks_within(limit: u64, velocity: i64, change: i64, most: u32) -> u32
    requires limit_bound { limit ≤ 2 ^ 37 }
    requires within { Within (2 ^ 49) velocity }
    ensures { TicksWithin limit velocity change most result }
{
    let steps = change.unsigned_abs();
    if steps == 0 {
        return most;
    }
    let room = room_toward(limit, velocity, change);
    if room < 0 {
        return 0;
    }
    let ticks = room as u64 / steps;
    ticks.min(most as u64) as u32
}
