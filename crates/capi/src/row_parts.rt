// The calls for rows in parts, as include/polgamir.h declares them.
ghost use Rattle.model.specs.planning.Outcome as Input;
ghost use Rattle.parts.specs.Promise.{PartPromise};
ghost use Rattle.layout.specs.Jobs.{job_from_c};
ghost use Rattle.layout.specs.Parts.{part_of};

use layout::PolgamirJob;
use layout::row_parts::PolgamirPartAnswer;

// Plans a job and writes its rows from a first one on into the table, as many whole
// rows as it holds, up to the arrival's. Gives back the answer of `polgamir_plan_job`
// before 10 and the number of rows written.
#[unsafe(no_mangle)]
pub extern "C" fn polgamir_plan_job_part(
    job: PolgamirJob,
    first: u32,
    table: &mut [i64],
) -> PolgamirPartAnswer
    ensures { PartPromise (Input.typed (job_from_c job)) first table.old (part_of result) table.new }
{
    parts::plan_job_part(job.into(), first, table).into()
}

// The same for a job as words.
#[unsafe(no_mangle)]
pub extern "C" fn polgamir_plan_words_part(
    words: &[u32],
    first: u32,
    table: &mut [i64],
) -> PolgamirPartAnswer
    ensures { PartPromise (Input.words words.now) first table.old (part_of result) table.new }
{
    parts::plan_words_part(words, first, table).into()
}
