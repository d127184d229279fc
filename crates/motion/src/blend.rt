// The blend of an axis: its delay and its weights.
ghost use Rattle.std.specs.Prelude.{◌≡◌, pos};
ghost use Rattle.whole.specs.Ranges.{Is};
ghost use Rattle.model.specs.planning.Quantities.{second_weight, sway_delay, second_half_period, delay};
ghost use Rattle.theorems.specs.GivenWeights.{with_weight};
ghost use Rattle.motion.specs.Motions.{measured, Ranges};

use model::{Axis, Weight};

// h₂ of a second sway, 0 where there is none.
pub fn sway_delay(sway: Option<u32>) -> u32
    ensures { result ≡ sway_delay sway }
{
    sway.unwrap_or(0)
}

// h₂.
pub fn second_half_period(x: Axis) -> u32
    ensures { result ≡ second_half_period x }
{
    sway_delay(x.second_sway)
}

// How far the blend looks back: h + h₂.
pub fn delay_of(x: Axis) -> u32
    requires { Ranges x }
    ensures { result ≡ delay x }
{
    x.half_period + second_half_period(x)
}

// B.
pub fn second_weight(x: Axis) -> u32
    ensures { result ≡ second_weight x }
{
    damping::weight_of(x.second_weight)
}

// B as a signed number.
pub fn signed_weight(x: Axis) -> i64
    requires { Ranges x }
    ensures { Is 128 result (pos (second_weight x)) }
{
    i64::from(second_weight(x))
}

// Whether B is to be worked out from damping as measured.
pub fn measured(x: Axis) -> bool
    ensures { result ≡ measured x }
{
    matches!(x.second_weight, Weight::Measured(_))
}

// The same axis with the number B given, so that it is worked out once.
pub fn with_weight(x: Axis) -> Axis
    ensures { result ≡ with_weight x }
{
    Axis {
        second_weight: Weight::Given(second_weight(x)),
        ..x
    }
}
