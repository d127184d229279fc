// The sums of both envelopes of a leg, carried to the leg that has one tick
// more by a step without a loop.
ghost use Rattle.std.specs.Prelude.{◌*◌, ◌^◌, ◌≤◌, ◌<◌, ◌≡◌, ◌-ℤ◌};
ghost use Rattle.whole.specs.Ranges.{Within, Is};
ghost use Rattle.profile.specs.Profiles.{Joinable};
ghost use Rattle.envelopes.specs.Sums.{peak_of, trough_of, envelope_sums_at, stepped, SumsRanged, within_sums};

use profile::Profile;

// The sums of both envelopes over ticks 1 to the last but one of a leg, and the velocities that
// come to them with one and with two ticks more, before the speed limit is heeded.
#[derive(Clone, Copy)]
pub struct Sums {
    pub lowest: i64,
    pub highest: i64,
    pub trough: i64,
    pub later_trough: i64,
    pub peak: i64,
    pub later_peak: i64,
}

// The velocity that comes to the upper envelope of ramps from `start` and to `end` with one tick
// more, before the speed limit is heeded.
fn peak_of(limit: u64, start: i64, end: i64, ticks: u64) -> i64
    requires limit_nonzero { 0 < limit }
    requires limit_bound { limit ≤ 2 ^ 33 }
    requires within { Within (2 ^ 37) start }
    requires within_2 { Within (2 ^ 37) end }
    requires ticks_bound { ticks ≤ 4097 }
    requires within_3 { Within (limit * ticks) (end -ℤ start) }
    ensures { Is (2 ^ 47) result (peak_of limit start end ticks) }
{
    let way = end - start + profile::change_after(limit, ticks);
    let crossing = way as u64 / (2 * limit);
    let rising = start + profile::change_after(limit, crossing + 1);
    let falling = end + profile::change_after(limit, ticks - crossing);
    rising.min(falling)
}

// The same of the lower envelope.
fn trough_of(limit: u64, start: i64, end: i64, ticks: u64) -> i64
    requires limit_nonzero { 0 < limit }
    requires limit_bound { limit ≤ 2 ^ 33 }
    requires within { Within (2 ^ 37) start }
    requires within_2 { Within (2 ^ 37) end }
    requires ticks_bound { ticks ≤ 4097 }
    requires within_3 { Within (limit * ticks) (end -ℤ start) }
    ensures { Is (2 ^ 47) result (trough_of limit start end ticks) }
{
    -peak_of(limit, -start, -end, ticks)
}

// The envelope sums of a profile, with no tick visited.
pub fn envelope_sums(p: Profile) -> Sums
    requires { Joinable p }
    ensures { result ≡ envelope_sums_at p }
{
    let limit = p.acceleration_limit;
    Sums {
        trough: trough_of(limit, p.start, p.end, p.ticks),
        later_trough: trough_of(limit, p.start, p.end, p.ticks + 1),
        peak: peak_of(limit, p.start, p.end, p.ticks),
        later_peak: peak_of(limit, p.start, p.end, p.ticks + 1),
        lowest: areas::area_at(p, profile::negative(p.speed_limit)),
        highest: areas::area_at(p, profile::signed(p.speed_limit)),
    }
}

// The envelope sums of one tick more, at a speed limit and an acceleration
// limit: no loop and no division.
pub fn step(r: Sums, limit: i64, change: i64) -> Sums
    requires sums_ranged { SumsRanged r }
    requires within { Within (2 ^ 37) limit }
    requires within_2 { Within (2 ^ 33) change }
    ensures { result ≡ stepped limit change r }
{
    Sums {
        lowest: r.lowest + (-limit).max(r.trough),
        highest: r.highest + limit.min(r.peak),
        trough: r.later_trough,
        later_trough: r.trough - change,
        peak: r.later_peak,
        later_peak: r.peak + change,
    }
}

// Whether a sum is between the sums of the two envelopes.
pub fn within_sums(r: Sums, sum: i64) -> bool
    ensures { result ≡ within_sums r sum }
{
    r.lowest <= sum && sum <= r.highest
}
