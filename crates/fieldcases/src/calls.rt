// Every call, and what it gives back beside the cells that it is lent, printed.
ghost use Rattle.std.specs.Prelude.{◌≤◌, length};

use crate::printing::{
    print_answer, print_part, print_raises, print_search, print_tour, print_words,
};
use model::{AXES, AxisLimits, Job, Stop, TourSettings, Weight};
use stops::StopRow;

// What every lent word holds before a call: DEADBEEF.
const UNCONVERTED: u32 = 3735928559;

// The settings of every tour here: axis 0 from rest at 0, as in case B.
fn settings() -> TourSettings {
    let limits = AxisLimits {
        speed_limit: 10,
        acceleration_limit: 1,
        half_period: 0,
        second_weight: Weight::Given(128),
        second_sway: None,
    };
    TourSettings {
        mask: 1,
        start: [0; 6],
        limits: [limits; 6],
    }
}

// The stops of a tour to a position, to stay there for so many ticks, and back.
fn out_and_back(dwell: u32, position: u32) -> StopRow {
    let out = Stop {
        positions: [position as i64, 0, 0, 0, 0, 0],
        dwell,
    };
    let back = Stop {
        positions: [0; 6],
        dwell: 0,
    };
    stops::with_stop(stops::with_stop(stops::empty_row(2), 0, out), 1, back)
}

// A tour to a position and back: its total and both arrivals.
fn toured(dwell: u32, position: u32) {
    let mut arrivals = [0u32; 2];
    print_tour(tour::tour_of_row(settings(), out_and_back(dwell, position), &mut arrivals));
    print_words(&arrivals);
}

// A conversion into thirteen words, and these.
fn converted(words: &[u32]) {
    let mut list = [UNCONVERTED; 13];
    print_answer(converter::convert(words, &mut list));
    print_words(&list);
}

// The job of the words, or one without axes where they are refused.
fn job_of(words: &[u32]) -> Job {
    match words::decode(words) {
        Ok(job) => job,
        Err(_) => Job {
            mask: 0,
            asked: 0,
            axes: [model::unset_axis(); AXES],
            windows: None,
        },
    }
}

// A call by its number, as a case on standard input has it.
fn by_number(call: u32, words: &[u32], first: u32, second: u32, table: &mut [i64]) {
    match call {
        0 => print_answer(planner::plan_words(words, table)),
        1 => print_answer(planner::plan_words_backwards(words, table)),
        2 => print_part(parts::plan_words_part(words, first, table)),
        3 => print_raises(raises::raises_words(words)),
        4 => print_search(search::search_words(words, first, second)),
        5 => converted(words),
        6 => print_answer(planner::plan_job(job_of(words), table)),
        _ => toured(first, second),
    }
}

// The call of a case with the cells that it is lent. A case is the call, how many cells are lent,
// two numbers that some calls take, the count of the job's words, and these.
pub(crate) fn called(case: &[u32], table: &mut [i64])
    requires { 5 ≤ length case.now }
{
    by_number(case[0], &case[5..case.len()], case[2], case[3], table);
}
