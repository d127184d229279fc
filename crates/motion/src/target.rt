// The target of an axis, at any tick (docs/METHOD.md, section 2).
ghost use Rattle.std.specs.Prelude.{◌+◌, ◌^◌, ◌≤◌, ◌≡◌, pos, ◌-ℤ◌};
ghost use Rattle.whole.specs.Ranges.{Is};
ghost use Rattle.model.specs.planning.Quantities.{as_moving, twice_position_at, velocity_at, accelerates};
ghost use Rattle.model.specs.planning.Refusals.{last_tick};
ghost use Rattle.motion.specs.Motions.{StateRanges};

use model::{State, Target};

// Whether a target accelerates: a moving one whose acceleration is not 0.
pub fn accelerates(target: Target) -> bool
    ensures { result ≡ accelerates target }
{
    match target {
        Target::Fixed(_) => false,
        Target::Moving(m) => m.acceleration != 0,
    }
}

// The target as a moving one, for arrival n.
pub fn as_moving(target: Target, n: u32) -> State
    ensures { result ≡ as_moving target n }
{
    match target {
        Target::Fixed(r) => State {
            position: r.position,
            velocity: r.velocity,
            acceleration: 0,
            tick: i64::from(n),
        },
        Target::Moving(m) => m,
    }
}

// Ticks from the target's own tick to tick k.
fn ticks_since(m: State, k: u32) -> i64
    requires state_ranges { StateRanges m }
    requires k_le_last_tick { k ≤ last_tick }
    ensures { Is (2 ^ 13) result (pos k -ℤ m.tick) }
{
    i64::from(k) - m.tick
}

// The target's velocity at tick k.
pub fn velocity_at(m: State, k: u32) -> i64
    requires state_ranges { StateRanges m }
    requires k_le_last_tick { k ≤ last_tick }
    ensures { Is (2 ^ 30) result (velocity_at m (pos k)) }
{
    m.velocity + m.acceleration * ticks_since(m, k)
}

// Twice the target's position at tick k.
pub fn twice_position_at(m: State, k: u32) -> i64
    requires state_ranges { StateRanges m }
    requires k_le_last_tick { k ≤ last_tick }
    ensures { Is (2 ^ 42 + 2 ^ 36) result (twice_position_at m (pos k)) }
{
    let d = ticks_since(m, k);
    2 * m.position + 2 * (m.velocity * d) + m.acceleration * (d * d)
}
