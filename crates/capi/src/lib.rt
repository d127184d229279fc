// The planner's calls for programs in C and Rust, as include/polgamir.h declares them. Each keeps
// the promise of the planner's call that it makes, whatever it is given. A slice is a pointer and a
// count to C; a struct passes by value, and `layout` says what it stands for.
#![tactic(auto)]

mod limit_raises;
mod row_parts;
mod searches;
mod tours;

ghost use Rattle.std.specs.Prelude.{◌≡◌};
ghost use Rattle.model.specs.declared.Order.TheVariants.{Forwards, Backwards};
ghost use Rattle.model.specs.planning.Outcome as Input;
ghost use Rattle.planner.specs.Promise.{Promise};
ghost use Rattle.converter.specs.Promise.{Converts};
ghost use Rattle.layout.specs.Jobs.{job_from_c, answer_for_c};

use layout::{PolgamirAnswer, PolgamirJob};

// The version of the library, 1,000,000 * major + 1,000 * minor + patch, as the header it belongs
// to says.
#[unsafe(no_mangle)]
pub extern "C" fn polgamir_version() -> u32
    ensures { result ≡ 2000 }
{
    2000
}

// Plans the job that the words hold and writes its rows into the table.
// Gives back number 0 with the job's mask and its arrival; or the number of the first
// refusal, with the place, mask and arrival that it names and 0 for those that it does
// not, and then no cell is written.
#[unsafe(no_mangle)]
pub extern "C" fn polgamir_plan_words(words: &[u32], table: &mut [i64]) -> PolgamirAnswer
    ensures { Promise Forwards (Input.words words.now) table.old
        (answer_for_c result) table.new }
{
    planner::plan_words(words, table).into()
}

// Plans the axes of a job that its mask names and writes their rows into the table. The asked
// arrival is a tick from 1 to 4,096, or 0 for the least that every axis reaches and that fits a
// window where windows are given. The other axes are not looked at. Gives back what the call for
// words gives; its refusals are 1, 3 to 6, 8 to 10, 12, 13, 15, 16 and 17.
#[unsafe(no_mangle)]
pub extern "C" fn polgamir_plan_job(job: PolgamirJob, table: &mut [i64]) -> PolgamirAnswer
    ensures { Promise Forwards (Input.typed (job_from_c job)) table.old (answer_for_c result) table.new }
{
    planner::plan_job(job.into(), table).into()
}

// Writes the converted words of an old job at the start of the lent words: each fixed target that
// flies becomes a moving one at the asked arrival. Gives back number 0 with the number of words
// written as place; or the first of refusals 1, 2, 14, 3, 4, 5, 15, 6, 16, 17 and 10 with its
// place, and then no word is written. Mask and arrival are 0.
#[unsafe(no_mangle)]
pub extern "C" fn polgamir_convert(words: &[u32], lent: &mut [u32]) -> PolgamirAnswer
    ensures { Converts words.now lent.old (answer_for_c result) lent.new }
{
    converter::convert(words, lent).into()
}

// ---- the same calls with the rows backwards

// The answer of `polgamir_plan_words`, and the same rows with the arrival's first and row 0 last.
#[unsafe(no_mangle)]
pub extern "C" fn polgamir_plan_words_backwards(words: &[u32], table: &mut [i64]) -> PolgamirAnswer
    ensures { Promise Backwards (Input.words words.now) table.old
        (answer_for_c result) table.new }
{
    planner::plan_words_backwards(words, table).into()
}

// The answer of `polgamir_plan_job`, and the same rows with the arrival's first and row 0 last.
#[unsafe(no_mangle)]
pub extern "C" fn polgamir_plan_job_backwards(job: PolgamirJob, table: &mut [i64]) -> PolgamirAnswer
    ensures { Promise Backwards (Input.typed (job_from_c job)) table.old (answer_for_c result) table.new }
{
    planner::plan_job_backwards(job.into(), table).into()
}
