// Runs both engines of `cruise` over legs drawn by a fixed rule: reach, and where a leg
// has it, cruise and remainder. It prints for each engine how many legs have it and a
// checksum of the answers. tests/reference/engines.py computes the same from the method's
// rules 4 and 5 and writes what is expected.
#![tactic(auto)]

ghost use Rattle.std.specs.Prelude.{◌≤◌, ◌<◌};
ghost use Rattle.whole.specs.Ranges.{Within};
ghost use Rattle.engines.specs.Legs.{Drawn};

use cruise::{Areas, Engine, Ticks};
use profile::Profile;
use whole::checksum::{PRIME, added};

// How many legs are drawn.
const LEGS: u64 = 4000;

// A number below a bound, drawn for a leg and a salt.
fn drawn(leg: u64, salt: u64, bound: u64) -> u64
    requires leg_bound { leg ≤ 4000 }
    requires salt_bound { salt < 8 }
    requires bound_nonzero { 0 < bound }
    ensures { result < bound }
{
    let first = (8 * leg + salt + 1) * 48271 % PRIME;
    first * 69621 % PRIME % bound
}

// A number of at most a size, of either sign.
fn drawn_signed(leg: u64, salt: u64, size: u64) -> i64
    requires leg_bound { leg ≤ 4000 }
    requires salt_bound { salt < 8 }
    requires size_bound { size ≤ 1000000 }
    ensures { Within 8388608 result }
{
    drawn(leg, salt, 2 * size + 1) as i64 - size as i64
}

// A leg: up to 60 ticks, limits up to 3,000 and 100, ends within the speed limit.
fn leg(leg: u64) -> Profile
    requires { leg ≤ 4000 }
    ensures { Drawn result }
{
    let speed_limit = 1 + drawn(leg, 0, 3000);
    let start = drawn_signed(leg, 1, speed_limit);
    let end = drawn_signed(leg, 2, speed_limit);
    Profile {
        speed_limit,
        acceleration_limit: 1 + drawn(leg, 3, 100),
        start,
        end,
        ticks: 1 + drawn(leg, 4, 60),
    }
}

// Its displacement in half steps: within what the speed limit allows, and for each seventh
// leg one that leaves no whole sum.
fn displacement(leg: u64, p: Profile) -> i64
    requires leg_bound { leg ≤ 4000 }
    requires drawn { Drawn p }
    ensures { Within 67108864 result }
{
    let sum = drawn_signed(leg, 5, p.speed_limit * p.ticks);
    let even = p.start + p.end + 2 * sum;
    if leg % 7 == 0 { even + 1 } else { even }
}

// The checksum with an engine's answer to a leg: cruise and remainder, or -1 where
// the displacement cannot be made.
fn answered<E: Engine>(p: Profile, d: i64, sum: u64) -> u64
    requires drawn { Drawn p }
    requires within { Within 67108864 d }
    requires sum_bound { sum < 2147483647 }
    ensures { result < 2147483647 }
{
    if cruise::feasible_by::<E>(p, d) {
        let c = cruise::cruise_by::<E>(p, d);
        let with_cruise = added(sum, c.velocity);
        return added(with_cruise, (c.raised % PRIME) as i64);
    }
    added(sum, -1)
}

// The checksum of an engine's answers to all legs.
fn sum_over<E: Engine>() -> u64 {
    let mut sum = 0;
    for i in 0..LEGS {
        let p = leg(i);
        sum = answered::<E>(p, displacement(i, p), sum);
    }
    sum
}

// How many legs can be made by an engine.
fn made_by<E: Engine>() -> u64 {
    let made = (0..LEGS).filter(
        |&i| -> bool
            requires { i < 4000 }
        {
            let p = leg(i);
            cruise::feasible_by::<E>(p, displacement(i, p))
        },
    );
    made.count() as u64
}

fn print<E: Engine>(name: &[u8]) {
    io::write_all(1, name);
    io::print_decimal(1, made_by::<E>());
    io::write_all(1, b" of 4000 legs can be made, sum ");
    io::print_decimal(1, sum_over::<E>());
    io::write_all(1, b"\n");
}

fn main() {
    print::<Ticks>(b"by ticks: ");
    print::<Areas>(b"by areas: ");
}
