// The least common tick: the least that every axis of a mask reaches and that fits a window where
// there are some.
ghost use Rattle.std.specs.Prelude.{◌≡◌, true, ◌+◌, ◌-◌, ◌<◌, ◌≤◌};
ghost use Rattle.std.specs.Prelude.{None, Some};
ghost use Rattle.model.specs.planning.Job.{set_axes};
ghost use Rattle.model.specs.planning.Refusals.{AllPassed, last_tick};
ghost use Rattle.model.specs.planning.Windows.{refused13};
ghost use Rattle.model.specs.planning.Outcome.{all_reach, least_from};
ghost use Rattle.arrival.specs.Arrivals.{arrives_in, searched};

use crate::lead_on::least_reached;
use crate::reached::all_reach;
use model::{AXES, Axis, Window, Windows};

// The least tick from `first` on and before `after` that every axis of the mask reaches and that
// fits a window where there are some, or none. It is the least that fits one from the least tick on
// that every axis reaches, or there is none: every axis reaches one run of ticks.
pub fn least_common(
    mask: u32,
    axes: [Axis; AXES],
    windows: Option<Windows>,
    first: u32,
    after: u32,
) -> Option<u32>
    requires all_passed { AllPassed (set_axes 0 mask axes) }
    requires windows_value { refused13 windows ≡ None }
    requires after_bound { after ≤ last_tick + 1 }
    ensures { result ≡ least_from (arrives_in windows (set_axes 0 mask axes)) first (after - first) }
{
    if after <= first {
        return None;
    }
    let n = least_reached(mask, axes, first, after - 1);
    match windows {
        Some(windows) => least_fitting(mask, axes, windows, n, after),
        None => (n < after).then_some(n),
    }
}

// The same from a tick on that every axis reaches, where there are windows: the first tick
// that fits one, or there is none.
fn least_fitting(
    mask: u32,
    axes: [Axis; AXES],
    windows: Windows,
    first: u32,
    after: u32,
) -> Option<u32>
    requires all_passed { AllPassed (set_axes 0 mask axes) }
    requires windows_value { refused13 (Some windows) ≡ None }
    requires le_after { 1 ≤ after }
    requires after_bound { after ≤ last_tick + 1 }
    requires first_le_after { first ≤ after }
    requires first_value { first < after → all_reach (set_axes 0 mask axes) first ≡ true }
    ensures { result ≡ least_from (arrives_in (Some windows) (set_axes 0 mask axes)) first (after - first) }
{
    let tick = least_in(&windows.list[..windows.count], windows.dwell, first, after)?;
    all_reach(mask, axes, tick).then_some(tick)
}

// The least tick from `first` on and before `after` of some windows, or none.
fn least_in(windows: &[Window], dwell: u32, first: u32, after: u32) -> Option<u32>
    requires dwell_bound { dwell ≤ 4096 }
    requires after_bound { after ≤ last_tick + 1 }
    ensures { result ≡ searched (λ n. true) first after dwell windows.now }
{
    for window in windows {
        let from = windows::first_tick(*window, first);
        if from < windows::after_last(*window, dwell, after) {
            return Some(from);
        }
    }
    None
}
