// The least limit at which a leg can be made (docs/METHOD.md, 8.2): of the two limits of a leg the
// one is as it is, and the least value of the other is found for which the ends can be joined and
// the upper envelope's sum comes up to the required one.
//
// A test takes the area under the upper envelope at one value. Where the area falls short,
// it also says how much each unit more can gain at most, so that every value is passed over
// at which the area still falls short. After ten tests that lead on from below, each
// further one halves what is left.
#![tactic(auto)]

ghost use Rattle.std.specs.Prelude.{suc, ◌-◌, ◌*◌, ◌^◌, ◌≤◌, ◌<◌, ◌≡◌, leb};
ghost use Rattle.model.specs.calls.Raises.{highest};
ghost use Rattle.whole.specs.Candidates.{Next};
ghost use Rattle.areas.specs.Areas.{triangle};
ghost use Rattle.least_limit.specs.Limits.{profile_at, other, limit_in, need, unit, gain_of, enough_with};
ghost use Rattle.least_limit.specs.Limits.{TaskRanged, Allowed, PartsRanged, ProfileFor, FirstAllowed, Leads};
ghost use Rattle.least_limit.specs.Limits.{Led};

use areas::Parts;
use model::Limit;
use profile::Profile;

// What a leg asks of its limits, in grid steps: the velocities of its ends, the greatest speed that
// it has, and the required sum, which only the upper envelope can fall short of. The grid steps in
// a unit; the limits as they are, in units.
#[derive(Clone, Copy)]
pub struct Task {
    pub start: i64,
    pub end: i64,
    pub ticks: u64,
    pub fastest: u64,
    pub sum: i64,
    pub steps: u64,
    pub speed: u64,
    pub acceleration: u64,
}

// The least value of a limit, above the one that it has and up to the last, for which the leg can
// be made; or one past the last.
pub fn least_limit(t: Task, limit: Limit, last: u64) -> u64
    requires task_ranged { TaskRanged t }
    requires t_bound { limit_in limit t ≤ last }
    requires last_bound { last ≤ highest limit }
    ensures { Next (enough_with limit t) (suc (limit_in limit t)) last result }
{
    let after = last + 1;
    if !allows(t, other(limit)) {
        return after;
    }
    let first = first_allowed(t, limit, after);
    least_from(t, limit, first, after)
}

// ---- what the ends ask of a limit: of each of the two another thing, so the limit is passed on

fn other(limit: Limit) -> Limit
    ensures { result ≡ other limit }
{
    match limit {
        Limit::Acceleration => Limit::Speed,
        Limit::Speed => Limit::Acceleration,
    }
}

pub fn limit_in(t: Task, limit: Limit) -> u64
    ensures { result ≡ limit_in limit t }
{
    match limit {
        Limit::Acceleration => t.acceleration,
        Limit::Speed => t.speed,
    }
}

// How much a limit must make in grid steps: by M the change from one end to the
// other, by L the greatest speed.
fn need(t: Task, limit: Limit) -> u64
    requires { TaskRanged t }
    ensures { result ≡ need limit t }
{
    match limit {
        Limit::Acceleration => (t.end - t.start).unsigned_abs(),
        Limit::Speed => t.fastest,
    }
}

// How much of it a unit of the limit makes.
fn unit(t: Task, limit: Limit) -> u64
    requires { TaskRanged t }
    ensures { result ≡ unit limit t }
{
    match limit {
        Limit::Acceleration => t.steps * t.ticks,
        Limit::Speed => t.steps,
    }
}

// Whether a limit as it is allows the ends.
fn allows(t: Task, limit: Limit) -> bool
    requires { TaskRanged t }
    ensures { result ≡ leb (need limit t) (unit limit t * limit_in limit t) }
{
    need(t, limit) <= unit(t, limit) * limit_in(t, limit)
}

// The least value of a limit, above the one that it has, that allows the ends; or
// `after`, where that is not higher.
fn first_allowed(t: Task, limit: Limit, after: u64) -> u64
    requires task_ranged { TaskRanged t }
    requires t_bound { limit_in limit t < after }
    ensures { FirstAllowed limit t after result }
{
    let least = need(t, limit).div_ceil(unit(t, limit));
    let next = limit_in(t, limit) + 1;
    least.max(next).min(after)
}

// ---- one test

// The profile with one limit set.
fn profile_with(t: Task, limit: Limit, value: u64) -> Profile
    requires task_ranged { TaskRanged t }
    requires allowed { Allowed limit t value }
    ensures { ProfileFor limit t value result }
{
    match limit {
        Limit::Acceleration => profile_at(t, t.speed, value),
        Limit::Speed => profile_at(t, value, t.acceleration),
    }
}

fn profile_at(t: Task, speed: u64, acceleration: u64) -> Profile
    requires task_ranged { TaskRanged t }
    requires speed_bound { speed ≤ 1048576 }
    requires fast_enough { t.fastest ≤ t.steps * speed }
    requires acceleration_bound { acceleration ≤ 65536 }
    ensures { result ≡ profile_at t speed acceleration }
{
    Profile {
        speed_limit: t.steps * speed,
        acceleration_limit: t.steps * acceleration,
        start: t.start,
        end: t.end,
        ticks: t.ticks,
    }
}

// 1 + 2 + .. + n.
fn triangle(n: u64) -> u64
    requires { n ≤ 4096 }
    ensures { (result ≡ triangle n) × (result ≤ 2 ^ 24) }
{
    n * (n + 1) / 2
}

// How much of a grid step's raise of a limit the area gains at most: M raises every tick of a ramp
// by as many steps as it is from the end, L every level tick.
fn gain(parts: Parts, limit: Limit) -> u64
    requires { PartsRanged parts }
    ensures { (result ≡ gain_of limit parts) × (result ≤ 2 ^ 25) }
{
    match limit {
        Limit::Acceleration => triangle(parts.rising) + triangle(parts.falling),
        Limit::Speed => parts.level,
    }
}

// The least value at which what is missing at a lower one may have been gained, at so much a unit;
// or `after`, where that is not higher.
fn next_lower_bound(value: u64, missing: u64, gain: u64, after: u64) -> u64
    requires value_lt_after { value < after }
    requires after_bound { after ≤ 2 ^ 32 }
    requires missing_nonzero { 0 < missing }
    requires missing_bound { missing ≤ 2 ^ 62 }
    ensures { Led value missing gain after result }
{
    if gain == 0 {
        return after;
    }
    let next = value + (missing - 1) / gain + 1;
    next.min(after)
}

// The value itself where it is enough; else a higher one, at most `after`, below which none is.
fn lead(t: Task, limit: Limit, value: u64, after: u64) -> u64
    requires task_ranged { TaskRanged t }
    requires allowed { Allowed limit t value }
    requires value_lt_after { value < after }
    requires after_bound { after ≤ 2 ^ 32 }
    ensures { Leads (enough_with limit t) value after result }
{
    let p = profile_with(t, limit, value);
    let area = areas::upper_area(p);
    let sum = t.sum;
    let reached = area.sum;
    if sum <= reached {
        return value;
    }
    let most = t.steps * gain(area.parts, limit);
    next_lower_bound(value, (sum - reached) as u64, most, after)
}

// ---- the search

// The value to test next, of those from `low` on and before `high`: the lowest, and
// after ten tests the middle one.
fn next_tested(low: u64, high: u64, tests: u64) -> u64
    requires low_lt_high { low < high }
    requires high_bound { high ≤ 2 ^ 32 }
    ensures { (low ≤ result) × (result < high) }
{
    if tests < 10 {
        return low;
    }
    (low + high) / 2
}

// The least value from the first on and before `after` that is enough, or `after`. Every value
// below `low` is known to fall short, and `high` to be enough where it is not `after`.
fn least_from(t: Task, limit: Limit, first: u64, after: u64) -> u64
    requires task_ranged { TaskRanged t }
    requires first_nonzero { 0 < first }
    requires first_le_after { first ≤ after }
    requires after_bound { after ≤ suc (highest limit) }
    requires allowed { first < after → Allowed limit t first }
    ensures { Next (enough_with limit t) first (after - 1) result }
{
    let mut low = first;
    let mut high = after;
    let mut tests: u64 = 0;
    // no range: what is left shrinks by what a test says
    while low < high {
        let value = next_tested(low, high, tests);
        tests += 1;
        let next = lead(t, limit, value, high);
        if next == value {
            high = value;
        } else {
            low = next;
        }
    }
    low
}
