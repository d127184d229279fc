// The velocities at a cruise by regions (docs/METHOD.md, section 1): a ramp from the start, a level
// part, a ramp to the end. Where the regions begin and end, and the velocity of a tick by the
// region that it is in.
#![tactic(auto)]

ghost use Rattle.std.specs.Prelude.{◌^◌, ◌≤◌, ◌<◌, true, ◌≡◌};
ghost use Rattle.whole.specs.Ranges.{Within, Is};
ghost use Rattle.profile.specs.Profiles.{ends_allowed};
ghost use Rattle.regions.specs.Regions.{ramp_ticks, ramp_change, meeting_tick, with_ramps, regions_of, velocity_in};
ghost use Rattle.regions.specs.Regions.{RegionsRanged};

use profile::Profile;

// The chosen velocities in three regions: up to tick `rise` they change by `up` a tick from the
// start on; from `fall` ticks before the end on they are `down` further from it for each tick that
// is left; between they are level, the first `raised` of them one above the cruise.
// No ranges as ghost fields: each definition that builds one (`with_ramps`) would take proofs.
#[derive(Clone, Copy)]
pub struct Regions {
    pub start: i64,
    pub rise: u64,
    pub up: i64,
    pub cruise: i64,
    pub raised: u64,
    pub end: i64,
    pub fall: u64,
    pub down: i64,
    pub ticks: u64,
}

// The cruise velocity, and how many ticks are raised by one.
#[derive(Clone, Copy)]
pub struct CruisePlan {
    pub velocity: i64,
    pub raised: u64,
}

// ---- ramps

// How many ticks a ramp from velocity v stays short of c.
fn ramp_ticks(limit: u64, v: i64, c: i64) -> u64
    requires limit_nonzero { 0 < limit }
    requires within { Within (2 ^ 37) v }
    requires within_2 { Within (2 ^ 37) c }
    ensures { (result ≡ ramp_ticks limit v c) × (result ≤ 2 ^ 38) }
{
    if v <= c {
        c.abs_diff(v) / limit
    } else {
        (v.abs_diff(c) - 1) / limit
    }
}

// The change of a tick of it.
fn ramp_change(limit: u64, v: i64, c: i64) -> i64
    requires { limit ≤ 2 ^ 33 }
    ensures { Is (2 ^ 33) result (ramp_change limit v c) }
{
    let change = limit as i64;
    if v <= c { change } else { -change }
}

// How many ticks the ramp from the start has before it meets the one to the
// end, where both stay short of c.
fn meeting_tick(p: Profile, c: i64) -> u64
    requires acceleration_limit_nonzero { 0 < p.acceleration_limit }
    requires p_value { ends_allowed p ≡ true }
    ensures { (result ≡ meeting_tick p c) × (result ≤ p.ticks) }
{
    let apart = profile::change_after(p.acceleration_limit, p.ticks);
    if p.start <= c {
        (p.end - p.start + apart) as u64 / (2 * p.acceleration_limit)
    } else {
        (p.start - p.end + apart) as u64 / (2 * p.acceleration_limit)
    }
}

// ---- regions

// The regions of the velocities at a cruise, with ramps of given lengths.
fn with_ramps(p: Profile, cruise: CruisePlan, rise: u64, fall: u64) -> Regions
    requires within { Within (2 ^ 37) cruise.velocity }
    ensures { result ≡ with_ramps p cruise.velocity cruise.raised rise fall }
{
    let c = cruise.velocity;
    Regions {
        start: p.start,
        rise,
        up: ramp_change(p.acceleration_limit, p.start, c),
        cruise: c,
        raised: cruise.raised,
        end: p.end,
        fall,
        down: ramp_change(p.acceleration_limit, p.end, c),
        ticks: p.ticks,
    }
}

// The regions of the velocities at a cruise. Two ramps with no tick between them end where they
// meet.
pub fn regions_of(p: Profile, cruise: CruisePlan) -> Regions
    requires acceleration_limit_nonzero { 0 < p.acceleration_limit }
    requires p_value { ends_allowed p ≡ true }
    requires within { Within (2 ^ 37) cruise.velocity }
    ensures { result ≡ regions_of p cruise.velocity cruise.raised }
{
    let c = cruise.velocity;
    let rise = ramp_ticks(p.acceleration_limit, p.start, c);
    let fall = ramp_ticks(p.acceleration_limit, p.end, c);
    if p.ticks <= rise + fall {
        let meeting = meeting_tick(p, c);
        with_ramps(p, cruise, meeting, p.ticks - meeting)
    } else {
        with_ramps(p, cruise, rise, fall)
    }
}

// The velocity of a tick before the end.
pub fn velocity_in(r: Regions, k: u64) -> i64
    requires regions_ranged { RegionsRanged r }
    requires k_lt_ticks { k < r.ticks }
    ensures { Is (2 ^ 46) result (velocity_in r k) }
{
    if k <= r.rise {
        r.start + k as i64 * r.up
    } else if r.ticks <= k + r.fall {
        r.end + (r.ticks - k) as i64 * r.down
    } else if k - r.rise <= r.raised {
        r.cruise + 1
    } else {
        r.cruise
    }
}
