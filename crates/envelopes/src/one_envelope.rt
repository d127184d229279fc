// Whether a displacement can be made, by one area: only one of the two envelopes can
// fall short of the required sum.
ghost use Rattle.std.specs.Prelude.{◌-◌, ◌^◌, ◌≤◌, ◌<◌, ◌≡◌, true, nat_abs};
ghost use Rattle.std.specs.Int.Signed.{le_z};
ghost use Rattle.whole.specs.Integers.{sum_to};
ghost use Rattle.whole.specs.Ranges.{Within};
ghost use Rattle.model.specs.planning.Leg.{upper, required, sum_is_whole, feasible};
ghost use Rattle.profile.specs.Profiles.{Joinable};

use crate::skips::mirrored;
use profile::Profile;

// Whether the upper envelope's sum comes up to the one that a displacement requires.
fn comes_up(p: Profile, displacement: i64) -> bool
    requires joinable { Joinable p }
    requires within { Within (2 ^ 62) displacement }
    ensures { result ≡ le_z (required p displacement) (sum_to (upper p) (p.ticks - 1)) }
{
    let required = (displacement - p.start - p.end) >> 1;
    required <= areas::upper_area(p).sum
}

// Whether some list of velocities makes a displacement, given in half steps, between ends within
// the speed limit. A displacement that is at least that of the straight line from one end to the
// other is above the lower envelope, and a smaller one is with every sign turned.
pub fn makes(p: Profile, displacement: i64) -> bool
    requires acceleration_limit_nonzero { 0 < p.acceleration_limit }
    requires ticks_nonzero { 0 < p.ticks }
    requires start_bound { nat_abs p.start ≤ p.speed_limit }
    requires end_bound { nat_abs p.end ≤ p.speed_limit }
    requires within { Within (2 ^ 62) displacement }
    requires displacement_value { sum_is_whole p displacement ≡ true }
    ensures { result ≡ feasible p displacement }
{
    if (p.end - p.start).unsigned_abs() > p.acceleration_limit * p.ticks {
        return false;
    }
    let line = (p.ticks as i64) * (p.start + p.end);
    if displacement < line {
        comes_up(mirrored(p), -displacement)
    } else {
        comes_up(p, displacement)
    }
}
