// Rows in parts (docs/METHOD.md, 4.8), for a caller that cannot lend the whole table: a job
// goes in, as words or as a struct of typed values, with a first row and a lent table of any
// size. Where the answer's number is 0 the table holds the rows from the first one on in front,
// as many whole rows as it has room for, up to the arrival's; its other cells are as they were.
// Where it is not 0 all cells are as they were. No row before the first one is worked out. A
// job goes the way of every call (`planner`). specs/Promise.antt says what both calls promise
// of any job, any first row and any table.
#![tactic(auto)]

ghost use Rattle.model.specs.planning.Outcome as Input;
ghost use Rattle.parts.specs.Promise.{PartPromise};

use model::{Job, PartAnswer};
use planner::Wanted;

// Plans the axes of a job that its mask names and writes their rows from a first one on
// into the table. Gives back the answer of `planner::answer_of` and how many rows were
// written: none where the job is refused, where the table has no room for a row, and where
// the first row is past the arrival's.
pub fn plan_job_part(job: Job, first: u32, table: &mut [i64]) -> PartAnswer
    ensures { PartPromise (Input.typed job) first table.old result table.new }
{
    let planned = planner::plan_job_in(job, Wanted::From(first), table);
    planner::part_answer(planned)
}

// The same for a job as words.
pub fn plan_words_part(words: &[u32], first: u32, table: &mut [i64]) -> PartAnswer
    ensures { PartPromise (Input.words words.now) first table.old result table.new }
{
    let planned = planner::plan_words_in(words, Wanted::From(first), table);
    planner::part_answer(planned)
}
