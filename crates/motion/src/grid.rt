// The grid of an axis: how fine its planned motion is.
ghost use Rattle.std.specs.Prelude.{◌*◌, ◌&&◌, ◌≡◌, pos};
ghost use Rattle.whole.specs.Ranges.{Is};
ghost use Rattle.model.specs.planning.Quantities.{fine_steps, accelerates, damped, finer_by, finer};
ghost use Rattle.std.specs.Prelude.{None};

use crate::blend::second_weight;
use crate::target::accelerates;
use model::{Axis, FINE_STEPS};

// Whether the two weights of the blend differ.
fn damped(x: Axis) -> bool
    ensures { result ≡ damped x }
{
    x.half_period != 0 && second_weight(x) != 128
}

// Grid steps in a fine step where the pole has one sway: the grid is finer where the target
// accelerates and the pole is damped.
fn finer_by_target(x: Axis) -> u32
    ensures { result ≡ finer_by None (accelerates x.target && damped x) }
{
    if accelerates(x.target) && damped(x) {
        256
    } else {
        1
    }
}

// Grid steps in a fine step.
pub fn finer(x: Axis) -> u32
    ensures { result ≡ finer x }
{
    match x.second_sway {
        Some(_) => 2,
        None => finer_by_target(x),
    }
}

// The same as a signed number.
pub fn grid_steps(x: Axis) -> i64
    ensures { Is 256 result (pos (finer x)) }
{
    i64::from(finer(x))
}

// A limit in grid steps.
pub fn limit_on_grid(x: Axis, limit: u32) -> u64
    ensures { result ≡ finer x * (fine_steps * limit) }
{
    let steps = u64::from(finer(x));
    steps * (FINE_STEPS as u64 * u64::from(limit))
}
