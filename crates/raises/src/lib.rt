// The smallest change that makes it (docs/METHOD.md, 8.2): the answer to a job before
// refusal 10 and, where an asked arrival is turned down with 8, the least raise of each
// limit alone for which an axis that the mask names can arrive. specs/Promise.antt says
// what both calls promise of any job.
//
// The way of a job:
//     raises_words    words::decode         refusals 1, 2 and 14, then as raises_job
//     raises_job      planner::answer_of    every other answer
//     raises_for      raises_of             the axes that do not reach the asked arrival
//     raises_of       task_of               what does not depend on the limits, once an axis
//                     least_limit::least_limit   by least_raise, for M and for L, in_order
#![tactic(auto)]

ghost use Rattle.std.specs.Prelude.{◌≡◌, ◌^◌, ◌≤◌, ◌<◌, max, pos, ◌+ℤ◌, ◌*ℤ◌};
ghost use Rattle.std.specs.Prelude.{None, Some};
ghost use Rattle.whole.specs.Ranges.{Within};
ghost use Rattle.model.specs.planning.Job.{set_axes};
ghost use Rattle.model.specs.planning.Quantities.{delay};
ghost use Rattle.model.specs.planning.Refusals.{Passed, AllPassed, last_tick};
ghost use Rattle.model.specs.planning.Outcome as Input;
ghost use Rattle.model.specs.calls.Raises.{highest, in_order, raises_of, raises_from, none_raised};
ghost use Rattle.least_limit.specs.Limits.{TaskRanged};
ghost use Rattle.least_limit.specs.Tasks.{task_with, fastest_of, TaskIs};
ghost use Rattle.raises.specs.Promise.{RaisesPromise};
ghost use Rattle.raises.specs.LeastRaises.{least_raise};

use least_limit::Task;
use model::{AXES, Answer, Axis, AxisRaises, Job, Limit, Raise, RaisesAnswer};
use motion::Landing;

// The answer to a job with no table lent, so that 10 never comes; where its number is 8, with the
// raises of each axis that its mask names, and else with none.
pub fn raises_job(job: Job) -> RaisesAnswer
    ensures { RaisesPromise (Input.typed job) result }
{
    let planned = planner::answer_of(job);
    // by its number: `answer_of`, a call of docs/BUYERS.md, gives an Answer
    if planned.number != 8 {
        return answered(planned, no_raises());
    }
    answered(planned, raises_for(job.mask, job.asked, job.axes))
}

// The same for a job as words.
pub fn raises_words(words: &[u32]) -> RaisesAnswer
    ensures { RaisesPromise (Input.words words.now) result }
{
    match words::decode(words) {
        Ok(job) => raises_job(job),
        Err(refusal) => answered(Answer::from(refusal), no_raises()),
    }
}

// An answer and the raises beside it.
fn answered(planned: Answer, axes: [AxisRaises; AXES]) -> RaisesAnswer
    ensures { result ≡ record { answer = planned; axes = axes } }
{
    RaisesAnswer {
        answer: planned,
        axes,
    }
}

// No raise for any axis.
fn no_raises() -> [AxisRaises; AXES]
    ensures { result ≡ none_raised }
{
    [pair(None, None); AXES]
}

// The raises of each axis of the mask that does not reach the asked arrival, at its number.
fn raises_for(mask: u32, asked: u32, axes: [Axis; AXES]) -> [AxisRaises; AXES]
    requires all_passed { AllPassed (set_axes 0 mask axes) }
    requires asked_le_last_tick { asked ≤ last_tick }
    ensures { result ≡ raises_from asked (set_axes 0 mask axes) none_raised }
{
    let mut raises = no_raises();
    let mut bits = mask;
    // by index: two arrays are walked, and one of them is written
    for number in 0..AXES {
        let axis = axes[number];
        if arrival::misses(bits, axis, asked) {
            raises[number] = raises_of(axis, asked);
        }
        bits /= 2;
    }
    raises
}

// ---- one axis

// The least raises of an axis for tick n. Damping as measured is turned into the number B once.
fn raises_of(x: Axis, n: u32) -> AxisRaises
    requires passed { Passed x }
    requires n_le_last_tick { n ≤ last_tick }
    ensures { result ≡ raises_of x n }
{
    let given = motion::with_weight(x);
    if n <= motion::delay_of(given) {
        return pair(None, None);
    }
    let task = task_of(given, n);
    let m = least_raise(task, Limit::Acceleration);
    let l = least_raise(task, Limit::Speed);
    in_order(m, l)
}

// The raise of M and that of L: the smaller first, M's if they are equal.
fn in_order(m: Option<u32>, l: Option<u32>) -> AxisRaises
    ensures { result ≡ in_order m l }
{
    match (m, l) {
        (None, None) => pair(None, None),
        (Some(a), None) => pair(Some(Raise::AccelerationBy(a)), None),
        (None, Some(v)) => pair(Some(Raise::SpeedBy(v)), None),
        (Some(a), Some(v)) => both(a, v),
    }
}

// The raise a of M and the raise v of L.
fn both(a: u32, v: u32) -> AxisRaises
    ensures { result ≡ in_order (Some a) (Some v) }
{
    let m = Some(Raise::AccelerationBy(a));
    let l = Some(Raise::SpeedBy(v));
    if a <= v { pair(m, l) } else { pair(l, m) }
}

fn pair(first: Option<Raise>, second: Option<Raise>) -> AxisRaises
    ensures { result ≡ record { first = first; second = second } }
{
    AxisRaises { first, second }
}

// ---- one limit

// The least raise of a limit, within its range, that is enough for a task, or none.
fn least_raise(t: Task, limit: Limit) -> Option<u32>
    requires { TaskRanged t }
    ensures { result ≡ least_raise limit t }
{
    let current = least_limit::limit_in(t, limit);
    let most = highest(limit);
    let found = least_limit::least_limit(t, limit, most);
    if most < found {
        return None;
    }
    let by = (found - current) as u32;
    Some(by)
}

// The highest of a limit's range.
fn highest(limit: Limit) -> u64
    ensures { result ≡ highest limit }
{
    match limit {
        Limit::Acceleration => 65536,
        Limit::Speed => 1048576,
    }
}

// ---- what the leg of an arrival asks of the limits

// The task of an axis for tick n. A leg that does not go as far as the straight line
// between the velocities of its ends is taken with every sign turned, so that only the
// upper envelope can fall short.
fn task_of(x: Axis, n: u32) -> Task
    requires passed { Passed x }
    requires n_le_last_tick { n ≤ last_tick }
    requires x_bound { delay x < n }
    ensures { TaskIs x n result }
{
    let landing = motion::landing_at(x, n);
    let start = motion::start_velocity(x);
    let end = landing.velocity;
    let ticks = motion::landing_tick(x, n);
    let travel = motion::displacement(x, landing);
    let fastest = fastest_of(start, landing, motion::delay_of(x));
    let line = (ticks as i64) * (start + end);
    if travel < line {
        return task_with(x, -start, -end, -travel, ticks, fastest);
    }
    task_with(x, start, end, travel, ticks, fastest)
}

// The task of a leg between two velocities that goes so many half steps in so many ticks.
fn task_with(x: Axis, start: i64, end: i64, travel: i64, ticks: u32, fastest: u64) -> Task
    requires within { Within (2 ^ 48) start }
    requires within_2 { Within (2 ^ 48) end }
    requires within_3 { Within (2 ^ 60) travel }
    ensures { result ≡ task_with x start end travel ticks fastest }
{
    let twice = travel - start - end;
    Task {
        start,
        end,
        ticks: ticks as u64,
        fastest,
        sum: twice >> 1,
        steps: motion::finer(x) as u64 * 256,
        speed: x.speed_limit as u64,
        acceleration: x.acceleration_limit as u64,
    }
}

// The greatest speed at the start, at the landing and at the arrival.
fn fastest_of(start: i64, landing: Landing, delay: u32) -> u64
    requires within { Within (2 ^ 47) start }
    requires within_2 { Within (2 ^ 47) landing.velocity }
    requires within_3 { Within (2 ^ 32) landing.acceleration }
    requires delay_bound { delay ≤ 512 }
    ensures { result ≡ fastest_of start landing.velocity (landing.velocity +ℤ pos delay *ℤ landing.acceleration) }
{
    let arrived = motion::arrival_velocity(landing, delay);
    let at_ends = landing.velocity.unsigned_abs().max(arrived.unsigned_abs());
    start.unsigned_abs().max(at_ends)
}
