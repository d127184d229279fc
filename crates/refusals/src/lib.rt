// The refusals of axes and of windows (docs/METHOD.md, section 7, numbers 4, 12, 5, 15, 6, 16, 17
// and 13), in checking order. `axis` has those that one axis meets by itself.
#![tactic(auto)]

mod axis;

ghost use Rattle.std.specs.Prelude.{◌≡◌, is_some};
ghost use Rattle.model.specs.planning.Job.{set_axes};
ghost use Rattle.model.specs.planning.Told.{told};
ghost use Rattle.model.specs.planning.Admission.{first_axis};
ghost use Rattle.refusals.specs.Checks.{window_refusal, tests_for, first_refusal, refuses, refused_by};

use axis::{refused, refuses, tests};
use model::{AXES, Axis, AxisTest, Refusal, Windows};

// The first of refusals 4, 12, 5, 15, 6, 16, 17 and 13, or none; 17 only where fixed targets must
// be at rest. Each number is checked over all axes, lowest first, before the next number.
#[tactic(auto, using(crate::proofs::Checks::none_refused))]
pub fn check(
    mask: u32,
    axes: [Axis; AXES],
    windows: Option<Windows>,
    resting: bool,
) -> Result<(), Refusal>
    ensures { told result ≡ first_refusal (tests_for resting) (set_axes 0 mask axes) windows }
{
    // one walk over the axes first: a walk for each test takes 72 ns of a job of one axis for 19
    if !any_refused(mask, &axes, resting) {
        return window_refusal(windows);
    }
    for test in tests(resting) {
        if let Some(axis) = first_axis(*test, mask, &axes) {
            return Err(Refusal::Axis(*test, axis));
        }
    }
    window_refusal(windows)
}

// Whether one of the tests refuses an axis of the mask.
#[tactic(auto, using(crate::proofs::InOrder::axis_passed, crate::proofs::InOrder::axis_unnamed))]
fn any_refused(mask: u32, axes: &[Axis; AXES], resting: bool) -> bool
    ensures { result ≡ is_some (first_axis (refused_by (tests_for resting)) (set_axes 0 mask axes.now)) }
{
    let mut bits = mask;
    for x in axes {
        if bits % 2 == 1 && refused(x, resting) {
            return true;
        }
        bits /= 2;
    }
    false
}

// The first axis of the mask that a test refuses.
#[tactic(auto, using(crate::proofs::InOrder::axis_passed, crate::proofs::InOrder::axis_unnamed))]
fn first_axis(test: AxisTest, mask: u32, axes: &[Axis; AXES]) -> Option<usize>
    ensures { result ≡ first_axis (refuses test) (set_axes 0 mask axes.now) }
{
    let mut bits = mask;
    for (i, x) in axes.iter().enumerate() {
        if bits % 2 == 1 && refuses(test, x) {
            return Some(i);
        }
        bits /= 2;
    }
    None
}

// Refusal 13, or none.
fn window_refusal(windows: Option<Windows>) -> Result<(), Refusal>
    ensures { told result ≡ window_refusal windows }
{
    if let Some(w) = windows {
        if let Some(place) = windows::refused(w) {
            return Err(Refusal::Window(place));
        }
    }
    Ok(())
}
