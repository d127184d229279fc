// A tour of stops (docs/METHOD.md, 8.1). The stops go in as a lent row of records, with a
// lent list for their arrivals; an answer comes back. Where its number is 0 the list has
// each stop's arrival in front, counted from the tour's start, and its later entries are as
// they were. Where it is not 0 the whole list is as it was. crates/stops/specs/Promise.antt
// says what the call promises of any tour.
//
// The way of a tour:
//     plan_tour      stops::stop_row            the lent row by value
//     tour_of_row    total_of                   of a tour of one stop or more
//     total_of       stops::first_long_dwell    refusal 11
//                    legs_of                    the legs, each by leg_arrival: their own refusals
//                    stops::write_front         refusal 10, or the arrivals
// A caller in Rattle has no slice of stops to lend: it makes a row by `empty_row` and `with_stop`
// of `stops` and calls `tour_of_row`, which keeps the same promise.
#![tactic(auto)]

ghost use Rattle.std.specs.Prelude.{◌≡◌, [], ◌<◌, ◌≤◌, length, None};
ghost use Rattle.model.specs.calls.Tour.{legs_from, first_long_dwell};
ghost use Rattle.planner.specs.Promise.{Answered};
ghost use Rattle.stops.specs.Promise.{TourPromise};
ghost use Rattle.stops.specs.Rows.{row_stops};
ghost use Rattle.stops.specs.Parts.{LegIs, legs_in};
ghost use Rattle.model.specs.calls.Tour as Tours;
ghost use Rattle.tour.specs.Totals.{TotalIs, accepted_with, refused_for};

use model::{AFTER_LAST_TICK, AXES, Answer, MAX_STOPS, Refusal, Stop, TourAnswer, TourSettings};
use planner::Wanted;
use stops::{Legs, RefusedLeg, StopRow, first_long_dwell, leg_job, stop_row, write_front};

// Plans the legs of a tour, from the start over each stop in order, and writes each
// stop's arrival into the lent list.
pub fn plan_tour(settings: TourSettings, stops: &[Stop], arrivals: &mut [u32]) -> TourAnswer
    ensures { TourPromise settings stops.now arrivals.old result arrivals.new }
{
    let row = stop_row(stops);
    tour_of_row(settings, row, arrivals)
}

// The same for stops by value.
pub fn tour_of_row(settings: TourSettings, row: StopRow, arrivals: &mut [u32]) -> TourAnswer
    ensures { TourPromise settings (row_stops row) arrivals.old result arrivals.new }
{
    if row.lent == 0 {
        return accepted(0, 0);
    }
    match total_of(settings, row, arrivals) {
        Ok(total) => accepted(settings.mask, total),
        Err(refused) => refused,
    }
}

// The tick at which the last stop of a tour of one stop or more is left, with the arrivals in the
// lent list; or the answer for its refusal.
fn total_of(settings: TourSettings, row: StopRow, arrivals: &mut [u32]) -> Result<u32, TourAnswer>
    requires { 0 < row.lent }
    ensures { TotalIs settings row arrivals.old result arrivals.new }
{
    let count = row.lent;
    if MAX_STOPS < count {
        return Err(refused(Refusal::Stop(MAX_STOPS)));
    }
    let stops = &row.stops[..count];
    if let Some(stop) = first_long_dwell(stops) {
        return Err(refused(Refusal::Stop(stop)));
    }
    let legs = legs_of(settings, stops)?;
    if arrivals.len() < count {
        return Err(refused(Refusal::ListShort(count)));
    }
    write_front(&legs.arrivals[..count], arrivals);
    Ok(legs.total)
}

// ---- the legs

// The legs to the stops, each from where the last one ended, after its dwell; or the first of them
// that is refused.
fn legs_of(settings: TourSettings, stops: &[Stop]) -> Result<Legs, RefusedLeg>
    requires few { length stops.now ≤ 64 }
    requires short { first_long_dwell 0 stops.now ≡ None }
    ensures { legs_in settings (length stops.now) result ≡ legs_from settings stops.now 0 settings.start [] }
{
    let mut arrivals = [0u32; MAX_STOPS];
    let mut here = settings.start;
    let mut tick: u32 = 0;
    for (i, stop) in stops.iter().enumerate() {
        let there = stop.positions;
        let ticks = match leg_arrival(settings, here, there) {
            Ok(ticks) => ticks,
            Err(why) => return Err(RefusedLeg { stop: i, why }),
        };
        let arrival = tick + ticks;
        arrivals[i] = arrival;
        tick = arrival + stop.dwell;
        here = there;
    }
    Ok(Legs {
        total: tick,
        arrivals,
    })
}

// The arrival of the leg between two positions, from rest to rest, or why it is refused: that of
// the typed job that seeks its least arrival, with no table lent.
fn leg_arrival(
    settings: TourSettings,
    here: [i64; AXES],
    there: [i64; AXES],
) -> Result<u32, Refusal>
    ensures { LegIs settings here there result }
{
    let job = leg_job(settings, here, there);
    let mut cell = [0i64; 1];
    let planned = planner::plan_job_in(job, Wanted::From(AFTER_LAST_TICK), &mut cell)?;
    Ok(planned.arrival)
}

// The answer to that leg.
pub fn leg_answer(settings: TourSettings, here: [i64; AXES], there: [i64; AXES]) -> Answer
    ensures { Answered (Tours.leg_job settings here there) result }
{
    planner::answer_of(leg_job(settings, here, there))
}

// ---- the answer

// The answer to a tour that is accepted.
fn accepted(mask: u32, total: u32) -> TourAnswer
    ensures { result ≡ accepted_with mask total }
{
    TourAnswer {
        number: 0,
        place: 0,
        mask,
        arrival: 0,
        total,
    }
}

// The answer to a tour that is refused, but not for a leg.
fn refused(why: Refusal) -> TourAnswer
    ensures { result ≡ refused_for why }
{
    TourAnswer {
        number: why.number(),
        place: why.place(),
        mask: why.mask(),
        arrival: why.arrival(),
        total: 0,
    }
}
