// Which jobs a call goes on with (docs/METHOD.md, section 7): the first refusal of a job before its
// arrival is looked for, or none; and the weights of its axes, worked out once. The calls for a
// table, rows in parts, raises, searches and conversions all go on from here.
//
// The way of a job, after its words have been read (words::decode, refusals 1, 2 and 14):
//     check           model::mask_allowed    refusal 1
//                     asked_read             the asked arrival as the call reads it, and refusal 3
//                     refusals::check        refusals 4, 12, 5, 15, 6, 16, 17 and 13
// A caller then has the weights worked out where `any_measured` says so: `with_weight` copies the
// axes, which most jobs need not pay for.
#![tactic(auto)]

ghost use Rattle.std.specs.Prelude.{◌≡◌};
ghost use Rattle.model.specs.planning.Job.{set_axes};
ghost use Rattle.model.specs.planning.Admission.{typed, admission};
ghost use Rattle.model.specs.planning.Told.{told};
ghost use Rattle.refusals.specs.Checks.{without_job};
ghost use Rattle.admission.specs.Admitting.{rules_for, asked_read, must_rest, any_measured, named_with_weight};

use model::{AXES, Axis, LAST_TICK, Refusal, Windows};

// What a call admits a job for: planning; a search, which reads 0 for the asked arrival; or
// conversion, where a fixed target may have a velocity unless the least arrival is sought.
#[derive(Clone, Copy)]
pub enum Purpose {
    Planning,
    Searching,
    Converting,
}

impl Purpose {
    // The asked arrival as a call reads it.
    fn asked_read(self, asked: u32) -> u32
        ensures { result ≡ asked_read self asked }
    {
        match self {
            Purpose::Planning | Purpose::Converting => asked,
            Purpose::Searching => 0,
        }
    }

    // Whether fixed targets must be at rest.
    fn must_rest(self, asked: u32) -> bool
        ensures { result ≡ must_rest self asked }
    {
        match self {
            Purpose::Planning | Purpose::Searching => true,
            Purpose::Converting => asked == 0,
        }
    }
}

// The first refusal of a job, by its parts, before its arrival is looked for, or none. Axes that
// the mask does not name are not looked at.
pub fn check(
    mask: u32,
    asked: u32,
    axes: [Axis; AXES],
    windows: Option<Windows>,
    purpose: Purpose,
) -> Result<(), Refusal>
    ensures { told result ≡ without_job (admission (rules_for purpose)
        (typed (record { mask = mask; asked = asked; axes = axes; windows = windows }))) }
{
    if !model::mask_allowed(mask) {
        return Err(Refusal::Mask);
    }
    let read = purpose.asked_read(asked);
    if LAST_TICK < read {
        return Err(Refusal::Asked);
    }
    refusals::check(mask, axes, windows, purpose.must_rest(read))
}

// Whether the number B of an axis that the mask names is to be worked out from damping as
// measured. The other axes are not read.
#[inline(never)] // inlined, its walk copies the axes: 500 instructions more a plan
#[tactic(auto, using(crate::proofs::Weights::measured_later, crate::proofs::Weights::measured_unnamed))]
pub fn any_measured(mask: u32, axes: [Axis; AXES]) -> bool
    ensures { result ≡ any_measured (set_axes 0 mask axes) }
{
    let mut bits = mask;
    for x in &axes {
        if bits % 2 == 1 && motion::measured(*x) {
            return true;
        }
        bits /= 2;
    }
    false
}

// The axes with the number B of each that the mask names given, so that it is worked out once. The
// other axes are not read, and stay.
pub fn with_weight(mask: u32, axes: [Axis; AXES]) -> [Axis; AXES]
    ensures { result ≡ named_with_weight mask axes }
{
    let mut given = axes;
    let mut bits = mask;
    for x in &mut given {
        if bits % 2 == 1 {
            *x = motion::with_weight(*x);
        }
        bits /= 2;
    }
    given
}
