// The calls for the least raise of a limit that makes an asked arrival, as
// include/polgamir.h declares them.
ghost use Rattle.model.specs.planning.Outcome as Input;
ghost use Rattle.layout.specs.Jobs.{job_from_c};
ghost use Rattle.capi.specs.Raises.{RaisesReturned};

use layout::PolgamirJob;
use layout::limit_raises::PolgamirRaises;

// The answer to the job that the words hold, with no table lent, so that 10 never
// comes; where its number is 8, with the least raise of each limit alone for which an
// axis that the mask names can arrive.
#[unsafe(no_mangle)]
pub extern "C" fn polgamir_raises_words(words: &[u32]) -> PolgamirRaises
    ensures { RaisesReturned (Input.words words.now) result }
{
    raises::raises_words(words).into()
}

// The same for a job of typed values.
#[unsafe(no_mangle)]
pub extern "C" fn polgamir_raises_job(job: PolgamirJob) -> PolgamirRaises
    ensures { RaisesReturned (Input.typed (job_from_c job)) result }
{
    raises::raises_job(job.into()).into()
}
