// Whether a displacement can be made, and the cruise and the velocities that make it
// (docs/METHOD.md, section 3, rules 4 and 5). Sums of velocities are taken by an engine, tick by
// tick or from areas; every engine gives one answer (docs/METHOD.md, 3.9).
#![tactic(auto)]

ghost use Rattle.std.specs.Prelude.{◌^◌, ◌≤◌, ◌<◌, true, ◌≡◌};
ghost use Rattle.whole.specs.Ranges.{Within, Is};
ghost use Rattle.model.specs.planning.Leg.{sum_at, required, cruise, feasible};
ghost use Rattle.cruise.specs.Cruise.{climb_step, CruiseIs};
ghost use Rattle.profile.specs.Profiles.{Joinable, sum_between};
ghost use Rattle.regions.specs.Regions.{chosen_regions};

use profile::Profile;
use regions::{CruisePlan, Regions};

// ---- the engines

// How the sum of the velocities at a cruise is taken. What stands on it is written, and proved,
// once for every engine.
pub trait Engine {
    // The sum of the velocities at cruise c over ticks 1 to p.ticks - 1.
    fn sum_at(p: Profile, c: i64) -> i64
        requires joinable { Joinable p }
        requires within { Within p.speed_limit c }
        ensures { Is (2 ^ 60) result (sum_at p c) };
}

// Tick by tick, as the definition has it.
#[derive(Clone, Copy)]
pub struct Ticks;

impl Engine for Ticks {
    fn sum_at(p: Profile, c: i64) -> i64 {
        // The cruise is in range, since the profile's speed limit is.
        let _ = &p.speed_limit;
        profile::sum_at(p, c)
    }
}

// From the areas under the velocities, with no tick visited.
#[derive(Clone, Copy)]
pub struct Areas;

impl Engine for Areas {
    fn sum_at(p: Profile, c: i64) -> i64 {
        areas::area_at(p, c)
    }
}

// A profile whose ends can be joined, and the sum that is required of its velocities.
#[derive(Clone, Copy)]
struct Required {
    profile: Profile,
    sum: i64,
    ghost joinable: { Joinable profile },
    ghost within: { Within (2 ^ 61) sum },
}

impl Required {
    // Of a displacement, given in half steps.
    fn of(p: Profile, displacement: i64) -> Required
        requires joinable { Joinable p }
        requires within { Within (2 ^ 60) displacement }
        ensures profile { result.profile ≡ p }
        ensures sum { result.sum ≡ required p displacement }
    {
        Required {
            profile: p,
            sum: profile::required(p, displacement),
        }
    }

    // Whether the sum is between the sums of the two envelopes, which are the sums at the
    // lowest and at the highest cruise.
    fn sum_between<E: Engine>(&self) -> bool
        ensures { result ≡ sum_between self.now.profile self.now.sum }
    {
        let p = self.profile;
        let lowest = E::sum_at(p, profile::negative(p.speed_limit));
        lowest <= self.sum && self.sum <= E::sum_at(p, profile::signed(p.speed_limit))
    }

    // One step of the climb from cruise c, taken where it keeps to the speed limit and its sum
    // does not exceed the required one.
    fn climb_step<E: Engine>(&self, c: i64, step: u64) -> i64
        requires within { Within self.now.profile.speed_limit c }
        requires step_bound { step ≤ 2 ^ 38 }
        ensures { Is (2 ^ 37) result (climb_step self.now.profile self.now.sum c step) }
    {
        let p = self.profile;
        let limit = profile::signed(p.speed_limit);
        let next = c + profile::signed(step);
        if next <= limit && E::sum_at(p, next) <= self.sum {
            next
        } else {
            c
        }
    }

    // The largest cruise whose sum does not exceed the required one: from the lowest
    // velocity up, by a step for each bit from the highest down.
    fn climb<E: Engine>(&self) -> i64
        ensures is { Is (2 ^ 37) result (cruise self.now.profile self.now.sum) }
        ensures within { Within self.now.profile.speed_limit result }
    {
        let p = self.profile;
        let mut c = profile::negative(p.speed_limit);
        let mut step: u64 = 1 << 39;
        for _bit in (0..39u32).rev() {
            step /= 2;
            c = self.climb_step::<E>(c, step);
        }
        c
    }
}

// ---- rule 4: reach

// Whether some list of velocities makes the displacement, given in half steps.
pub fn feasible_by<E: Engine>(p: Profile, displacement: i64) -> bool
    requires acceleration_limit_nonzero { 0 < p.acceleration_limit }
    requires ticks_nonzero { 0 < p.ticks }
    requires within { Within (2 ^ 60) displacement }
    ensures { result ≡ feasible p displacement }
{
    profile::ends_allowed(p)
        && profile::sum_is_whole(p, displacement)
        && Required::of(p, displacement).sum_between::<E>()
}

// ---- rule 5: cruise and remainder

// The cruise that makes the displacement, given in half steps, and how many ticks are raised by
// one: what the sum at the cruise leaves of the required one.
pub fn cruise_by<E: Engine>(p: Profile, displacement: i64) -> CruisePlan
    requires acceleration_limit_nonzero { 0 < p.acceleration_limit }
    requires ticks_nonzero { 0 < p.ticks }
    requires within { Within (2 ^ 60) displacement }
    requires displacement_value { feasible p displacement ≡ true }
    ensures { CruiseIs p (required p displacement) result }
{
    let required = Required::of(p, displacement);
    let velocity = required.climb::<E>();
    let reached = E::sum_at(p, velocity);
    CruisePlan {
        velocity,
        raised: required.sum.abs_diff(reached),
    }
}

// ---- the velocities chosen

// The velocities that make the displacement, given in half steps.
pub fn chosen(p: Profile, displacement: i64) -> Regions
    requires acceleration_limit_nonzero { 0 < p.acceleration_limit }
    requires ticks_nonzero { 0 < p.ticks }
    requires within { Within (2 ^ 60) displacement }
    requires displacement_value { feasible p displacement ≡ true }
    ensures { result ≡ chosen_regions p (required p displacement) }
{
    regions::regions_of(p, cruise_by::<Areas>(p, displacement))
}
