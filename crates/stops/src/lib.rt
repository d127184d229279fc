// The stops of a tour by value, the job of each leg, and what a tour promises
// (docs/METHOD.md, 8.1): all of a tour that asks for no answer of the planner.
#![tactic(auto)]

ghost use Rattle.std.specs.Prelude.{◌≡◌, ◌++◌, ◌<◌, ◌≤◌, length, drop};
ghost use Rattle.model.specs.calls.Tour.{leg_axes, leg_job, first_long_dwell};
ghost use Rattle.stops.specs.Rows.{empty_row, with_stop, row_of};
ghost use Rattle.stops.specs.Parts.{leg_axis_at, refused_tour};

use model::{
    AXES, Axis, AxisLimits, Job, LONGEST_DWELL, MAX_STOPS, Refusal, RestPoint, Stop, Target,
    TourAnswer, TourSettings,
};

// ---- the lent row by value

// The stops of a tour by value: how many are lent, and the first 64 of them. Places that no stop is
// stored in have the stop of zeros. The array has its length beside it: there is no heap.
#[derive(Clone, Copy)]
pub struct StopRow {
    pub stops: [Stop; MAX_STOPS],
    pub lent: usize,
}

// The row of so many stops before any of them is stored.
pub fn empty_row(lent: usize) -> StopRow
    ensures { result ≡ empty_row lent }
{
    let none = Stop {
        positions: [0; AXES],
        dwell: 0,
    };
    StopRow {
        stops: [none; MAX_STOPS],
        lent,
    }
}

// The row with a stop at an index; past the 64th there is no place, and the row stays as it is.
pub fn with_stop(mut row: StopRow, index: usize, stop: Stop) -> StopRow
    ensures { result ≡ with_stop row index stop }
{
    if index < MAX_STOPS {
        row.stops[index] = stop;
    }
    row
}

// The stops of a lent row by value: all, or the first 64.
pub fn stop_row(stops: &[Stop]) -> StopRow
    ensures { result ≡ row_of stops.now }
{
    let mut row = empty_row(stops.len());
    let held = stops.len().min(MAX_STOPS);
    write_front(&stops[..held], &mut row.stops);
    row
}

// ---- refusal 11

// The first stop whose dwell is too long.
pub fn first_long_dwell(stops: &[Stop]) -> Option<usize>
    ensures { result ≡ first_long_dwell 0 stops.now }
{
    // a loop: what `position` gives is not known to be the definition's
    for (i, stop) in stops.iter().enumerate() {
        if LONGEST_DWELL < stop.dwell {
            return Some(i);
        }
    }
    None
}

// ---- a leg

// The typed job of a leg, without windows.
pub fn leg_job(settings: TourSettings, here: [i64; AXES], there: [i64; AXES]) -> Job
    ensures { result ≡ leg_job settings here there }
{
    let axes = leg_axes(settings.limits, here, there);
    Job {
        mask: settings.mask,
        asked: 0,
        axes,
        windows: None,
    }
}

// The axes of a leg.
fn leg_axes(limits: [AxisLimits; AXES], here: [i64; AXES], there: [i64; AXES]) -> [Axis; AXES]
    ensures { result ≡ leg_axes limits here there }
{
    let mut axes = [model::unset_axis(); AXES];
    // by index: `array::from_fn` does not tell the proof what its closure holds
    for i in 0..AXES {
        axes[i] = leg_axis(limits, here, there, i);
    }
    axes
}

// Axis i of a leg, from rest to rest.
fn leg_axis(limits: [AxisLimits; AXES], here: [i64; AXES], there: [i64; AXES], i: usize) -> Axis
    requires { i < 6 }
    ensures { result ≡ leg_axis_at limits here there i }
{
    let limit = limits[i];
    Axis {
        start: RestPoint {
            position: here[i],
            velocity: 0,
        },
        speed_limit: limit.speed_limit,
        acceleration_limit: limit.acceleration_limit,
        half_period: limit.half_period,
        second_weight: limit.second_weight,
        second_sway: limit.second_sway,
        target: Target::Fixed(RestPoint {
            position: there[i],
            velocity: 0,
        }),
    }
}

// ---- the legs

// The legs of a tour, where all are made: the tick at which the last stop is left, and the tick at
// which each is reached, counted from the tour's start.
#[derive(Clone, Copy)]
pub struct Legs {
    pub total: u32,
    pub arrivals: [u32; MAX_STOPS],
}

// The first leg that is refused: the stop that it leads to, and why.
#[derive(Clone, Copy)]
pub struct RefusedLeg {
    pub stop: usize,
    pub why: Refusal,
}

// The answer to a tour with a refused leg, whose place is the stop.
impl From<RefusedLeg> for TourAnswer {
    ghost from_gives = { λ leg r. r ≡ refused_tour leg };

    fn from(leg: RefusedLeg) -> TourAnswer {
        TourAnswer {
            number: leg.why.number(),
            place: leg.stop,
            mask: leg.why.mask(),
            arrival: leg.why.arrival(),
            total: 0,
        }
    }
}

// ---- lists

// The items over the front of a list.
pub fn write_front<T: Copy>(items: &[T], list: &mut [T])
    requires { length items.now ≤ length list.old }
    ensures { list.new ≡ items.now ++ drop (length items.now) list.old }
{
    // by index: the library's copy subtracts addresses, which have 32 bits on some processors
    for i in 0..items.len() {
        list[i] = items[i];
    }
}
