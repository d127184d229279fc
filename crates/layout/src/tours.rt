// What a tour has besides its stops. Stops and answer are the model's own,
// which have the header's layout.
ghost use Rattle.std.specs.Prelude.{◌≡◌};
ghost use Rattle.layout.specs.Tours.{limits_of, unset_limits, settings_of};

use crate::{named_of, sway_of, weight_of};
use model::{AXES, AxisLimits, TourSettings, Weight};

// The limits and the blend of an axis, laid out as the header's `polgamir_limits`. The damping and
// the second sway are as in an axis.
#[repr(C)]
#[derive(Clone, Copy)]
pub struct PolgamirLimits {
    pub speed_limit: u32,
    pub acceleration_limit: u32,
    pub half_period: u32,
    pub damping_kind: u32,
    pub second_weight: u32,
    pub swing_ratio: f32,
    pub first_peak: f32,
    pub second_peak: f32,
    pub second_sway_given: u32,
    pub second_half_period: u32,
}

// What a tour has besides its stops, laid out as the header's `polgamir_tour`.
#[repr(C)]
#[derive(Clone, Copy)]
pub struct PolgamirTour {
    pub mask: u32,
    pub start: [i64; AXES],
    pub limits: [PolgamirLimits; AXES],
}

impl From<PolgamirLimits> for AxisLimits {
    ghost from_gives = { λ l r. r ≡ limits_of l };

    fn from(l: PolgamirLimits) -> AxisLimits {
        AxisLimits {
            speed_limit: l.speed_limit,
            acceleration_limit: l.acceleration_limit,
            half_period: l.half_period,
            second_weight: weight_of(
                l.damping_kind,
                l.second_weight,
                l.swing_ratio,
                l.first_peak,
                l.second_peak,
            ),
            second_sway: sway_of(l.second_sway_given, l.second_half_period),
        }
    }
}

// What stands where the mask names no axis.
fn unset_limits() -> AxisLimits
    ensures { result ≡ unset_limits }
{
    AxisLimits {
        speed_limit: 0,
        acceleration_limit: 0,
        half_period: 0,
        second_weight: Weight::Given(0),
        second_sway: None,
    }
}

impl From<PolgamirTour> for TourSettings {
    ghost from_gives = { λ c t. t ≡ settings_of c };

    fn from(t: PolgamirTour) -> TourSettings {
        let start = t.start;
        let limits = named_of(t.mask, t.limits, unset_limits());
        TourSettings {
            mask: t.mask,
            start,
            limits,
        }
    }
}
