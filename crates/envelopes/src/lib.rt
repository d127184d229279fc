// Envelope sums (docs/METHOD.md, 3.10): the sums of both envelopes of a leg, carried to the leg
// that has one tick more by a step without a loop; and by them the least number of ticks in
// which a displacement can be made. Numbers of ticks that surely fall short are passed over
// first, by areas that are no smaller than an envelope's. And whether a displacement can be
// made in a number of ticks, by one area.
#![tactic(auto)]

mod one_envelope;
mod skips;
mod sought;
mod sums;

ghost use Rattle.std.specs.Prelude.{◌^◌, ◌≤◌, ◌<◌, ◌≡◌, nat_abs};
ghost use Rattle.whole.specs.Ranges.{Within};
ghost use Rattle.whole.specs.Candidates.{Next, Lasting};
ghost use Rattle.profile.specs.Profiles.{Joinable};
ghost use Rattle.envelopes.specs.Sums.{between, between_at, NearFrom};

pub use one_envelope::makes;
use profile::Profile;
use skips::{STRETCH, skip_missed, with_ticks};
use sought::Sought;
use sums::{envelope_sums, step, within_sums};

// Whether t ticks will do: the sum is between the areas under the two envelopes.
fn will_do(p: Profile, sought: Sought, t: u64) -> bool
    requires joinable { Joinable p }
    requires ticks_le_t { p.ticks ≤ t }
    requires t_bound { t ≤ 4096 }
    ensures { result ≡ between sought p t }
{
    within_sums(envelope_sums(with_ticks(p, t)), sought.at(t))
}

// The least number of ticks, from those of a profile to the last, at which a sum is between the
// sums of the two envelopes; or one past the last. The ends of the profile can be joined, and a
// number of ticks that will do is followed by others that will. The sums are carried over a
// stretch, and the rest is halved.
// `Joinable` stays a clause: a `Profile` also stands for ends that cannot be joined.
fn next_between(p: Profile, sought: Sought, last: u64) -> u64
    requires joinable { Joinable p }
    requires ticks_le_last { p.ticks ≤ last }
    requires last_bound { last ≤ 4096 }
    requires lasting { Lasting (between sought p) p.ticks }
    ensures { Next (between sought p) p.ticks last result }
{
    let speed = profile::signed(p.speed_limit);
    let steep = profile::signed(p.acceleration_limit);
    let stop = (p.ticks + STRETCH).min(last);
    let mut sums = envelope_sums(p);
    for t in p.ticks..=stop {
        if within_sums(sums, sought.at(t)) {
            return t;
        }
        sums = step(sums, speed, steep);
    }
    whole::first_passing(|t| will_do(p, sought, t), stop, last)
}

// The least number of ticks, from those of a profile on, at which its ends are near enough to one
// another.
fn near_tick(p: Profile) -> u64
    requires acceleration_limit_nonzero { 0 < p.acceleration_limit }
    ensures { NearFrom p result }
{
    let way = (p.end - p.start).unsigned_abs();
    let first = (way + (p.acceleration_limit - 1)) / p.acceleration_limit;
    first.max(p.ticks)
}

// ---- the next number of ticks

// The least number of ticks, from those of a profile to the last, at which a sum is between the
// sums of the two envelopes; or one past the last. The ends of the profile can be joined, and a
// number of ticks that will do is followed by others that will.
fn next_lasting(p: Profile, sought: Sought, last: u64) -> u64
    requires joinable { Joinable p }
    requires ticks_le_last { p.ticks ≤ last }
    requires last_bound { last ≤ 4096 }
    requires lasting { Lasting (between sought p) p.ticks }
    ensures { Next (between sought p) p.ticks last result }
{
    let first = skip_missed(p, sought, last);
    if last < first {
        return first;
    }
    next_between(with_ticks(p, first), sought, last)
}

// The same of a sum that changes by `change` a tick, from a profile whose ends may be too far apart
// for its ticks: where a number of ticks will do, so will every greater one.
pub fn next_feasible(p: Profile, sum: i64, change: i64, last: u64) -> u64
    requires acceleration_limit_nonzero { 0 < p.acceleration_limit }
    requires ticks_nonzero { 0 < p.ticks }
    requires start_bound { nat_abs p.start ≤ p.speed_limit }
    requires end_bound { nat_abs p.end ≤ p.speed_limit }
    requires within { Within (2 ^ 61) sum }
    requires within_2 { Within (2 ^ 37) change }
    requires ticks_le_last { p.ticks ≤ last }
    requires last_bound { last ≤ 4096 }
    requires lasting { Lasting (between_at p sum change) p.ticks }
    ensures { Next (between_at p sum change) p.ticks last result }
{
    let first = near_tick(p);
    if last < first {
        return last + 1;
    }
    let sought = Sought {
        sum,
        change,
        ticks: p.ticks,
    };
    next_lasting(with_ticks(p, first), sought, last)
}
