// What the table program reads and prints: the job words of its input bytes, and the text of an
// answer and its table (docs/METHOD.md, sections 6 and 9). No public function has a `requires`.
#![tactic(auto)]

mod lines;
mod numbers;
mod words;

ghost use Rattle.std.specs.Prelude.{◌≡◌, length};
ghost use Rattle.whole.specs.Lists.{WrittenAtStart};
ghost use Rattle.model.specs.planning.Outcome.{outcome_of};
ghost use Rattle.text.specs.Enough.{table_fits, table_within, text_within};

use lines::{put_arrival, put_refusal, put_rows};
use model::{Answer, LAST_TICK};
pub use words::words_of;

// The most bytes that a text can have (specs/Enough.antt): of a refusal, of the arrival line, of a
// row's tick with its line feed, and of a cell.
const REFUSAL_BYTES: usize = 81;

const ARRIVAL_BYTES: usize = 13;

const TICK_BYTES: usize = 5;

const CELL_BYTES: usize = 21;

// Puts the text of an answer and its table at the start of `out`, and returns its length. Returns
// 0, and leaves `out` as it is, where `out` may be too short for the text or the rows of an
// accepted job are not all in the table.
pub fn answer_text(answer: Answer, table: &[i64], out: &mut [u8]) -> usize
    ensures { WrittenAtStart out.old
        (text_within (outcome_of answer table.now) (length out.old))
        out.new result }
{
    if answer.number == 0 {
        return put_table(out, answer.mask, answer.arrival, table);
    }
    if out.len() < REFUSAL_BYTES {
        return 0;
    }
    put_refusal(
        out,
        0,
        answer.number,
        answer.place,
        answer.mask,
        answer.arrival,
    )
}

// Whether rows 0 to n of the axes of a mask are within a table of `cells` cells, and `bytes`
// bytes are enough for their text.
fn table_fits(mask: u32, n: u32, cells: usize, bytes: usize) -> bool
    ensures { result ≡ table_fits mask n cells bytes }
{
    if 64 <= mask {
        return false;
    }
    if LAST_TICK < n {
        return false;
    }
    let width = 3 * model::axis_count(mask);
    let rows = n as usize + 1;
    if cells < width * rows {
        return false;
    }
    ARRIVAL_BYTES + (TICK_BYTES + CELL_BYTES * width) * rows <= bytes
}

// The text of an accepted job, or nothing where it may not fit.
fn put_table(out: &mut [u8], mask: u32, n: u32, table: &[i64]) -> usize
    ensures { WrittenAtStart out.old
        (table_within mask n table.now (length out.old))
        out.new result }
{
    let fits = table_fits(mask, n, table.len(), out.len());
    if fits {
        let width = 3 * model::axis_count(mask);
        let next = put_arrival(out, 0, n);
        return put_rows(out, next, n, width, table);
    }
    0
}
