// What stands where a job gives nothing.
ghost use Rattle.std.specs.Prelude.{◌≡◌};
ghost use Rattle.model.specs.planning.Job.{unset_axis};

use crate::{Axis, RestPoint, Target, Weight};

// What stands where the mask names no axis: zero in every field, and no second sway.
pub fn unset_axis() -> Axis
    ensures { result ≡ unset_axis }
{
    Axis {
        start: RestPoint {
            position: 0,
            velocity: 0,
        },
        speed_limit: 0,
        acceleration_limit: 0,
        half_period: 0,
        second_weight: Weight::Given(0),
        second_sway: None,
        target: Target::Fixed(RestPoint {
            position: 0,
            velocity: 0,
        }),
    }
}
