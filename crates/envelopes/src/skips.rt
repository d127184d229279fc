// Numbers of ticks that surely fall short are passed over, by areas that are no smaller than an
// envelope's.
ghost use Rattle.std.specs.Prelude.{◌+◌, ◌^◌, ◌≤◌, ◌<◌, ◌≡◌, true};
ghost use Rattle.whole.specs.Ranges.{Within, Is};
ghost use Rattle.whole.specs.Candidates.{Lasting};
ghost use Rattle.areas.specs.Areas.{split_area};
ghost use Rattle.profile.specs.Profiles.{Joinable};
ghost use Rattle.envelopes.specs.Sums.{between, with_ticks};
ghost use Rattle.envelopes.specs.Skips.{Short, ShortAt, ShortTo, Skips, split_at, turned_about};

use crate::sought::Sought;
use profile::Profile;

// So many ticks are tried by sums before it is asked whether a leg falls short.
pub const STRETCH: u64 = 64;

// Of the numbers of ticks that fall short, the greatest is found but for fewer than these.
const NARROWEST_LEAP: u64 = 8;

// How a leg's ticks are split for an area that is no smaller than its upper envelope's: the
// most on the ramp from the start and on the one to the end, and by how many the first ramp
// has more or fewer of them than the other. However they are split, the area will do; this
// split is nearly the envelope's own.
#[derive(Clone, Copy)]
struct Ramps {
    pub rise: u64,
    pub fall: u64,
    pub ahead: u64,
    pub behind: u64,
    ghost rise_bound: { rise ≤ 4096 },
    ghost fall_bound: { fall ≤ 4096 },
    ghost ahead_bound: { ahead ≤ 4096 },
    ghost behind_bound: { behind ≤ 4096 },
}

// The profile with another number of ticks.
pub fn with_ticks(p: Profile, ticks: u64) -> Profile
    requires { ticks ≤ 4096 }
    ensures { result ≡ with_ticks p ticks }
{
    Profile { ticks, ..p }
}

// The profile with every sign turned: its upper envelope mirrors the lower one.
pub fn mirrored(p: Profile) -> Profile
    ensures { result ≡ turned_about p }
{
    Profile {
        start: -p.start,
        end: -p.end,
        ..p
    }
}

// The ticks of a ramp from a velocity to a limit.
fn ramp_room(limit: i64, v: i64, steep: u64) -> u64
    requires within { Within (2 ^ 37) limit }
    requires within_2 { Within (2 ^ 37) v }
    requires steep_nonzero { 0 < steep }
    ensures { result ≤ 4096 }
{
    ((limit - v).unsigned_abs() / steep).min(4096)
}

fn ramps_of(p: Profile) -> Ramps
    requires acceleration_limit_nonzero { 0 < p.acceleration_limit }
{
    let limit = profile::signed(p.speed_limit);
    let rise = ramp_room(limit, p.start, p.acceleration_limit);
    if p.start == p.end {
        return Ramps {
            rise,
            fall: rise,
            ahead: 0,
            behind: 0,
        };
    }
    let fall = ramp_room(limit, p.end, p.acceleration_limit);
    let lean = ramp_room(p.end, p.start, p.acceleration_limit);
    let (ahead, behind) = if p.start < p.end {
        (lean, 0)
    } else {
        (0, lean)
    };
    Ramps {
        rise,
        fall,
        ahead,
        behind,
    }
}

// The area of a ramp up from the start, a level part at the speed limit and a ramp down to the end.
fn split_area(p: Profile, rising: u64, falling: u64) -> i64
    requires falling_bound { rising + falling < p.ticks }
    ensures { Is (2 ^ 60) result (split_area p (split_at p rising falling)) }
{
    let level = (p.ticks - 1 - rising - falling) as i64;
    let limit = profile::signed(p.speed_limit);
    let steep = profile::signed(p.acceleration_limit);
    let first = areas::ramp_area(p.start, steep, rising);
    let last = areas::ramp_area(p.end, steep, falling);
    first + level * limit + last
}

// Whether the upper envelope of a leg surely has too little for a sum.
fn falls_short(p: Profile, sum: i64, r: Ramps) -> bool
    requires ticks_nonzero { 0 < p.ticks }
    requires within { Within (2 ^ 62) sum }
    ensures { result ≡ true → Short p sum }
{
    let inner = p.ticks - 1;
    let half = (p.ticks + r.ahead).saturating_sub(r.behind) / 2;
    let rising = r.rise.min(half).min(inner);
    let falling = r.fall.min(inner - rising);
    split_area(p, rising, falling) < sum
}

// The same of the leg with t ticks.
fn short_at(p: Profile, sought: Sought, t: u64, r: Ramps) -> bool
    requires t_nonzero { 0 < t }
    requires t_bound { t ≤ 4096 }
    ensures { result ≡ true → ShortAt p sought t }
{
    falls_short(with_ticks(p, t), sought.at(t), r)
}

// One more than a number of ticks that falls short, or the profile's own number.
fn skip_short(p: Profile, sought: Sought, last: u64) -> u64
    requires acceleration_limit_nonzero { 0 < p.acceleration_limit }
    requires ticks_nonzero { 0 < p.ticks }
    requires ticks_bound { p.ticks + 64 ≤ last }
    requires last_bound { last ≤ 4096 }
    ensures { ShortTo p sought last result }
{
    let r = ramps_of(p);
    let far = p.ticks + STRETCH;
    if !short_at(p, sought, far, r) {
        return p.ticks;
    }
    if short_at(p, sought, last, r) {
        return last + 1;
    }
    whole::failing_near(|t| !short_at(p, sought, t, r), far, last, NARROWEST_LEAP) + 1
}

// A number of ticks, from those of a profile on, before which none will do: only one of the
// two envelopes can fall short, the upper one where the sum is at least that of the
// straight line from one end to the other.
pub fn skip_missed(p: Profile, sought: Sought, last: u64) -> u64
    requires joinable { Joinable p }
    requires ticks_le_last { p.ticks ≤ last }
    requires last_bound { last ≤ 4096 }
    requires lasting { Lasting (between sought p) p.ticks }
    ensures { Skips (between sought p) p.ticks last result }
{
    if last < p.ticks + STRETCH {
        return p.ticks;
    }
    let inner = (p.ticks - 1) as i64;
    if inner * (p.start + p.end) <= 2 * sought.at(p.ticks) {
        return skip_short(p, sought, last);
    }
    skip_short(mirrored(p), sought.mirrored(), last)
}
