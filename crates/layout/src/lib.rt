// The structs of include/polgamir.h, and what they stand for: C's jobs, tours and settings to the
// model's, the model's answers to C's.
#![tactic(auto)]

pub mod limit_raises;
pub mod row_parts;
pub mod searches;
pub mod tours;

ghost use Rattle.std.specs.Prelude.{◌≡◌};
ghost use Rattle.layout.specs.Jobs.{target_of, weight_from_c, sway_of, axis_from_c, named_of};
ghost use Rattle.layout.specs.Jobs.{windows_of, job_from_c, answer_for_c};

use model::{
    AXES, Answer, Axis, Damping, Job, MAX_WINDOWS, RestPoint, State, Target, Weight, Window,
    Windows,
};

// What a call gives back, laid out as the header's `polgamir_answer`.
#[repr(C)]
#[derive(Clone, Copy)]
pub struct PolgamirAnswer {
    pub number: u32,
    pub mask: u32,
    pub place: usize,
    pub arrival: u32,
}

// An axis, laid out as the header's `polgamir_axis`. The target is fixed where its kind is 0, else
// it moves. The second weight is given where the damping's kind is 0, of a ratio where it is 1,
// else of two peaks. The pole has a second sway where it is given by any number but 0.
#[repr(C)]
#[derive(Clone, Copy)]
pub struct PolgamirAxis {
    pub start_position: i64,
    pub start_velocity: i64,
    pub target_position: i64,
    pub target_velocity: i64,
    pub target_acceleration: i64,
    pub target_tick: i64,
    pub target_kind: u32,
    pub speed_limit: u32,
    pub acceleration_limit: u32,
    pub half_period: u32,
    pub damping_kind: u32,
    pub second_weight: u32,
    pub swing_ratio: f32,
    pub first_peak: f32,
    pub second_peak: f32,
    pub second_sway_given: u32,
    pub second_half_period: u32,
}

// Windows, laid out as the header's `polgamir_windows`. They are given where the first field is
// not 0.
#[repr(C)]
#[derive(Clone, Copy)]
pub struct PolgamirWindows {
    pub given: u32,
    pub dwell: u32,
    pub count: usize,
    pub list: [Window; MAX_WINDOWS],
}

// A job, laid out as the header's `polgamir_job`.
#[repr(C)]
#[derive(Clone, Copy)]
pub struct PolgamirJob {
    pub mask: u32,
    pub asked: u32,
    pub axes: [PolgamirAxis; AXES],
    pub windows: PolgamirWindows,
}

// The planner's answer in the header's layout.
impl From<Answer> for PolgamirAnswer {
    ghost from_gives = { λ r c. answer_for_c c ≡ r };

    fn from(r: Answer) -> PolgamirAnswer {
        PolgamirAnswer {
            number: r.number,
            mask: r.mask,
            place: r.place,
            arrival: r.arrival,
        }
    }
}

// ---- an axis

impl From<PolgamirAxis> for Target {
    ghost from_gives = { λ a t. t ≡ target_of a };

    fn from(a: PolgamirAxis) -> Target {
        match a.target_kind {
            0 => Target::Fixed(RestPoint {
                position: a.target_position,
                velocity: a.target_velocity,
            }),
            _ => Target::Moving(State {
                position: a.target_position,
                velocity: a.target_velocity,
                acceleration: a.target_acceleration,
                tick: a.target_tick,
            }),
        }
    }
}

// The second weight of an axis or of a tour's limits: a kind and the values of each kind stand side
// by side, since that is the header's layout.
fn weight_of(kind: u32, weight: u32, ratio: f32, first: f32, second: f32) -> Weight
    ensures { result ≡ weight_from_c kind weight ratio first second }
{
    match kind {
        0 => Weight::Given(weight),
        1 => Weight::Measured(Damping::Ratio(ratio)),
        _ => Weight::Measured(Damping::Peaks(first, second)),
    }
}

// The second sway of an axis or of a tour's limits, from the two fields of the header's layout.
fn sway_of(given: u32, half_period: u32) -> Option<u32>
    ensures { result ≡ sway_of given half_period }
{
    (given != 0).then_some(half_period)
}

impl From<PolgamirAxis> for Axis {
    ghost from_gives = { λ a r. r ≡ axis_from_c a };

    fn from(a: PolgamirAxis) -> Axis {
        Axis {
            start: RestPoint {
                position: a.start_position,
                velocity: a.start_velocity,
            },
            speed_limit: a.speed_limit,
            acceleration_limit: a.acceleration_limit,
            half_period: a.half_period,
            second_weight: weight_of(
                a.damping_kind,
                a.second_weight,
                a.swing_ratio,
                a.first_peak,
                a.second_peak,
            ),
            second_sway: sway_of(a.second_sway_given, a.second_half_period),
            target: a.into(),
        }
    }
}

// What the entries that the mask names stand for, its lowest bit standing for the first. The others
// are not read, and unset.
fn named_of<T: Copy + Into<U>, U: Copy>(mask: u32, list: [T; AXES], unset: U) -> [U; AXES]
    ensures { (f : _) → ((x y : _) → T.converts x y → y ≡ f x) → result ≡ named_of f unset mask list }
{
    let mut named = [unset; AXES];
    let mut bits = mask;
    // by index: two arrays are walked, and one of them is written
    for i in 0..AXES {
        if bits % 2 == 1 {
            named[i] = list[i].into();
        }
        bits /= 2;
    }
    named
}

// ---- a job

// The windows where they are given. Where they are not, nothing else of them is read.
impl From<PolgamirWindows> for Option<Windows> {
    ghost from_gives = { λ w r. r ≡ windows_of w };

    fn from(w: PolgamirWindows) -> Option<Windows> {
        if w.given == 0 {
            return None;
        }
        let list = w.list;
        Some(Windows {
            dwell: w.dwell,
            count: w.count,
            list,
        })
    }
}

impl From<PolgamirJob> for Job {
    ghost from_gives = { λ c j. j ≡ job_from_c c };

    fn from(job: PolgamirJob) -> Job {
        let axes = named_of(job.mask, job.axes, model::unset_axis());
        Job {
            mask: job.mask,
            asked: job.asked,
            axes,
            windows: job.windows.into(),
        }
    }
}
