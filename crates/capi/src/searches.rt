// The calls for a search with a budget, as include/polgamir.h declares them.
ghost use Rattle.model.specs.planning.Outcome as Input;
ghost use Rattle.layout.specs.Jobs.{job_from_c};
ghost use Rattle.capi.specs.Searches.{SearchReturned};

use layout::PolgamirJob;
use layout::searches::PolgamirSearchAnswer;

// Looks for the least tick from the first candidate on, up to 4,096 and within the budget, that
// every axis of the mask reaches and that fits a window where windows are given. The asked arrival
// is not looked at, and no candidate past the budget is. Gives back number 0 with what was found
// and the number of candidates tried; or the number of the first refusal, with its place: those of
// `polgamir_plan_job` up to 13, but for 3, and then 18.
#[unsafe(no_mangle)]
pub extern "C" fn polgamir_search_job(
    job: PolgamirJob,
    first: u32,
    budget: u32,
) -> PolgamirSearchAnswer
    ensures { SearchReturned (Input.typed (job_from_c job)) first budget result }
{
    search::search_job(job.into(), first, budget).into()
}

// The same for a job as words: the refusals of `polgamir_plan_words` before 8, but for 3, and
// then 18.
#[unsafe(no_mangle)]
pub extern "C" fn polgamir_search_words(
    words: &[u32],
    first: u32,
    budget: u32,
) -> PolgamirSearchAnswer
    ensures { SearchReturned (Input.words words.now) first budget result }
{
    search::search_words(words, first, budget).into()
}
