// Planning between servo turns (docs/METHOD.md, 8.4): a search for the common arrival of a job over
// a budget of candidates, which a later call goes on with. specs/Promise.antt says what both calls
// promise of any job, first candidate and budget. No candidate past the budget is looked at.
//
// The way of a job:
//     search_words      words::decode               the refusals of words, then as search_job
//     search_job        admission::check            refusal 1, those of an axis, and 13; the asked
//                                                   arrival is read as 0, so that 3 never comes
//                       first_allowed               refusal 18
//                       admission::with_weight      damping as measured to a number B, where there
//                                                   is any
//                       search_from                 the search
#![tactic(auto)]

ghost use Rattle.std.specs.Prelude.{◌≡◌, ◌+◌, ◌≤◌};
ghost use Rattle.std.specs.Prelude.{None};
ghost use Rattle.model.specs.planning.Job.{set_axes};
ghost use Rattle.model.specs.planning.Refusals.{AllPassed, last_tick};
ghost use Rattle.model.specs.planning.Told.{number_of, place_of};
ghost use Rattle.model.specs.planning.Windows.{refused13};
ghost use Rattle.model.specs.planning.Outcome as Input;
ghost use Rattle.model.specs.calls.Search.{refuse_search, search_answer, search_call, found_tick, first_allowed};
ghost use Rattle.model.specs.calls.Search.{search_from};
ghost use Rattle.arrival.specs.Arrivals.{arrives_in};
ghost use Rattle.search.specs.Promise.{SearchPromise, answer_of};

use admission::Purpose;
use model::{
    AFTER_LAST_TICK, AXES, Axis, Job, Refusal, Report, SearchAnswer, SearchReport, Windows,
};

// Looks for the least tick from the first candidate on, up to 4,096 and within the budget, that
// every axis of the mask reaches and that fits a window where the job brings some. The asked
// arrival and axes that the mask does not name are not looked at. Gives back number 0 with the
// mask, what was found and the number of candidates tried; or the number of the first refusal in
// checking order, with the place that it names: those of `planner::plan_job` up to 13, but for 3,
// and then 18, for a first candidate of 0 or above 4,097.
pub fn search_job(job: Job, first: u32, budget: u32) -> SearchAnswer
    ensures { SearchPromise (Input.typed job) first budget result }
{
    match report_of(job, first, budget) {
        Ok(found) => answered(job.mask, found),
        Err(refusal) => refused(refusal),
    }
}

// The same for a job as words: the refusals of `planner::plan_words` before 8, but for 3, and
// then 18.
pub fn search_words(words: &[u32], first: u32, budget: u32) -> SearchAnswer
    ensures { SearchPromise (Input.words words.now) first budget result }
{
    match words::decode(words) {
        Ok(job) => search_job(job, first, budget),
        Err(wrong) => refused(wrong),
    }
}

// The report of a search of a job, or its first refusal.
fn report_of(job: Job, first: u32, budget: u32) -> Result<SearchReport, Refusal>
    ensures { answer_of job.mask result ≡ search_call (Input.typed job) first budget }
{
    let windows = job.windows;
    let mut given = job.axes;
    admission::check(job.mask, job.asked, given, windows, Purpose::Searching)?;
    if !first_allowed(first) {
        return Err(Refusal::FirstCandidate);
    }
    if admission::any_measured(job.mask, given) {
        let weighed = admission::with_weight(job.mask, given);
        given = weighed;
    }
    Ok(search_from(job.mask, given, windows, first, budget))
}

// Whether a first candidate is allowed: from 1 to 4,097, which leaves none to try.
fn first_allowed(first: u32) -> bool
    ensures { result ≡ first_allowed first }
{
    (1..=AFTER_LAST_TICK).contains(&first)
}

// The least tick from `first` on, up to 4,096 and within the budget, that every axis of the mask
// reaches and that fits a window where there are some, and the number of candidates tried. A budget
// that is used up while a candidate is left is spent.
fn search_from(
    mask: u32,
    axes: [Axis; AXES],
    windows: Option<Windows>,
    first: u32,
    budget: u32,
) -> SearchReport
    requires all_passed { AllPassed (set_axes 0 mask axes) }
    requires windows_value { refused13 windows ≡ None }
    requires le_first { 1 ≤ first }
    requires first_bound { first ≤ last_tick + 1 }
    ensures { result ≡ search_from (arrives_in windows (set_axes 0 mask axes)) first budget }
{
    let left = AFTER_LAST_TICK - first;
    let count = budget.min(left);
    let least = arrival::least_common(mask, axes, windows, first, first + count);
    match least {
        Some(tick) => SearchReport {
            report: Report::Found(tick),
            tried: tick - first + 1,
        },
        None if budget < left => SearchReport {
            report: Report::Spent(first + budget),
            tried: budget,
        },
        None => SearchReport {
            report: Report::Nothing,
            tried: left,
        },
    }
}

// A refusal, as the answer that C's call and docs/BUYERS.md have: nothing was tried.
fn refused(refusal: Refusal) -> SearchAnswer
    ensures { result ≡ refuse_search (number_of refusal) (place_of refusal) }
{
    SearchAnswer {
        number: refusal.number(),
        place: refusal.place(),
        mask: 0,
        arrival: 0,
        report: Report::Nothing,
        tried: 0,
    }
}

// The answer of a search, with the tick found, or 0.
fn answered(mask: u32, found: SearchReport) -> SearchAnswer
    ensures { result ≡ search_answer mask found }
{
    SearchAnswer {
        number: 0,
        place: 0,
        mask,
        arrival: found_tick(found.report),
        report: found.report,
        tried: found.tried,
    }
}

// The tick found, or 0.
fn found_tick(report: Report) -> u32
    ensures { result ≡ found_tick report }
{
    match report {
        Report::Found(tick) => tick,
        Report::Spent(_) | Report::Nothing => 0,
    }
}
