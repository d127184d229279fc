// Sums of velocities from the areas under their regions, with no tick visited (docs/METHOD.md,
// 3.9): of all ticks at a cruise, of the upper envelope, and of the first ticks of a list.
#![tactic(auto)]

ghost use Rattle.std.specs.Prelude.{◌-◌, ◌*◌, ◌^◌, ◌≤◌, ◌<◌, min, ◌≡◌};
ghost use Rattle.whole.specs.Integers.{sum_to};
ghost use Rattle.whole.specs.Ranges.{Within, Is};
ghost use Rattle.model.specs.planning.Leg.{sum_at};
ghost use Rattle.areas.specs.Areas.{ramp_area, parts_of, area_of, parts_to, fall_area, UpperAreaIs};
ghost use Rattle.profile.specs.Profiles.{Joinable};
ghost use Rattle.regions.specs.Regions.{velocity_in, RegionsRanged};

use profile::Profile;
use regions::{CruisePlan, Regions};

// How many of ticks 1 to the last but one are on the first ramp, level, and on
// the other ramp; each may be none.
#[derive(Clone, Copy)]
pub struct Parts {
    pub rising: u64,
    pub level: u64,
    pub falling: u64,
}

// The sum of the upper envelope over ticks 1 to the last but one, and its parts.
#[derive(Clone, Copy)]
pub struct UpperArea {
    pub sum: i64,
    pub parts: Parts,
}

// ---- a ramp

// The sum of n ticks of a ramp from velocity v, the change being u a tick.
pub fn ramp_area(v: i64, u: i64, n: u64) -> i64
    requires within { Within (2 ^ 46) v }
    requires within_2 { Within (2 ^ 33) u }
    requires n_bound { n ≤ 4096 }
    ensures { Is (3 * 2 ^ 57) result (ramp_area v u n) }
{
    let ticks = n as i64;
    let steps = (n * (n + 1) / 2) as i64;
    ticks * v + steps * u
}

// ---- all ticks

// The parts of the velocities of ticks 1 to r.ticks - 1.
fn parts_of(r: Regions) -> Parts
    requires { 0 < r.ticks }
    ensures { result ≡ parts_of r }
{
    let inner = r.ticks - 1;
    let rising = r.rise.min(inner);
    let falling = r.fall.min(inner - rising);
    Parts {
        rising,
        level: inner - rising - falling,
        falling,
    }
}

// The area under the velocities of ticks 1 to r.ticks - 1, before any is raised: a ramp, a level
// part and a ramp, each of which may be missing.
fn area_of(r: Regions) -> i64
    requires regions_ranged { RegionsRanged r }
    requires ticks_nonzero { 0 < r.ticks }
    ensures { Is (2 ^ 60) result (area_of r) }
{
    let parts = parts_of(r);
    let first = ramp_area(r.start, r.up, parts.rising);
    let last = ramp_area(r.end, r.down, parts.falling);
    first + parts.level as i64 * r.cruise + last
}

// The same sum as `sum_at` gives, with no tick visited.
pub fn area_at(p: Profile, c: i64) -> i64
    requires joinable { Joinable p }
    requires within { Within p.speed_limit c }
    ensures { Is (2 ^ 60) result (sum_at p c) }
{
    // The cruise is in range, since the profile's speed limit is.
    let _ = &p.speed_limit;
    let cruise = CruisePlan {
        velocity: c,
        raised: 0,
    };
    area_of(regions::regions_of(p, cruise))
}

// The area under the upper envelope, which are the velocities at the highest cruise, and its parts.
pub fn upper_area(p: Profile) -> UpperArea
    requires { Joinable p }
    ensures { UpperAreaIs p result }
{
    let cruise = CruisePlan {
        velocity: profile::signed(p.speed_limit),
        raised: 0,
    };
    let r = regions::regions_of(p, cruise);
    UpperArea {
        sum: area_of(r),
        parts: parts_of(r),
    }
}

// ---- the first ticks

// The parts of the velocities of ticks 1 to k.
fn parts_to(r: Regions, k: u64) -> Parts
    requires { k < r.ticks }
    ensures { result ≡ parts_to r k }
{
    let rising = r.rise.min(k);
    let last_level = (r.ticks - 1).saturating_sub(r.fall);
    let level = k.min(last_level).saturating_sub(r.rise);
    Parts {
        rising,
        level,
        falling: k - rising - level,
    }
}

// The area under n ticks of the ramp to the end, of which tick k is the last.
fn fall_area(r: Regions, k: u64, n: u64) -> i64
    requires regions_ranged { RegionsRanged r }
    requires k_lt_ticks { k < r.ticks }
    requires n_bound { n ≤ 4096 }
    ensures { Is (3 * 2 ^ 57) result (fall_area r k n) }
{
    let left = (r.ticks - 1 - k) as i64;
    ramp_area(r.end + left * r.down, r.down, n)
}

// The sum of the velocities of ticks 1 to k, with no tick visited.
pub fn sum_to(r: Regions, k: u64) -> i64
    requires regions_ranged { RegionsRanged r }
    requires k_lt_ticks { k < r.ticks }
    ensures { Is (2 ^ 60) result (sum_to (velocity_in r) k) }
{
    let parts = parts_to(r, k);
    let raised = r.raised.min(parts.level) as i64;
    let first = ramp_area(r.start, r.up, parts.rising);
    let last = fall_area(r, k, parts.falling);
    first + (parts.level as i64 * r.cruise + raised) + last
}
