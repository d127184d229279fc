// The lines of the text, and their parts. Each function writes its text into `out` from the index
// `at` on, and returns the index after it: with no heap a text has a lent buffer and an index, and
// a struct of both would be lent and given back where the index is.
ghost use Rattle.std.specs.Prelude.{suc, ◌+◌, ◌*◌, ◌≤◌, length};
ghost use Rattle.whole.specs.Lists.{Room, Written, WrittenWithin};
ghost use Rattle.model.specs.planning.Refusals.{last_tick};
ghost use Rattle.text.specs.Printed.{cell_text, cells_text, row_line, row_lines, arrival_line, refusal_line};
ghost use Rattle.text.specs.Enough.{refusal_bytes, cells_bytes, row_bytes};

use crate::numbers::{put_labelled, put_number};

fn put_cell(out: &mut [u8], at: usize, x: i64) -> usize
    requires { Room out.old at (cell_text x) }
    ensures { Written out.old at (cell_text x) out.new result }
{
    let n = x.unsigned_abs();
    out[at] = b' ';
    if x < 0 {
        out[at + 1] = b'-';
        return put_number(out, at + 2, n);
    }
    put_number(out, at + 1, n)
}

fn put_cells(out: &mut [u8], at: usize, cells: &[i64]) -> usize
    requires { at + cells_bytes (length cells.now) ≤ length out.old }
    ensures { WrittenWithin (cells_bytes (length cells.now))
        out.old at (cells_text cells.now) out.new result }
{
    let mut next = at;
    // by index: of a cell that a walk lends the proof has no range
    for i in 0..cells.len() {
        let x = cells[i];
        next = put_cell(out, next, x);
    }
    next
}

fn put_row(out: &mut [u8], at: usize, tick: u32, cells: &[i64]) -> usize
    requires tick_le_last_tick { tick ≤ last_tick }
    requires cells_in_bounds { at + row_bytes (length cells.now) ≤ length out.old }
    ensures { WrittenWithin (row_bytes (length cells.now))
        out.old at (row_line tick cells.now) out.new result }
{
    let after_tick = put_number(out, at, tick as u64);
    let after_cells = put_cells(out, after_tick, cells);
    out[after_cells] = b'\n';
    after_cells + 1
}

// The rows of ticks 0 to n, of `width` cells each.
pub(crate) fn put_rows(out: &mut [u8], at: usize, n: u32, width: usize, table: &[i64]) -> usize
    requires n_le_last_tick { n ≤ last_tick }
    requires n_in_bounds { width * suc n ≤ length table.now }
    requires n_in_bounds_2 { at + row_bytes width * suc n ≤ length out.old }
    ensures { WrittenWithin (row_bytes width * suc n)
        out.old at (row_lines width table.now n) out.new result }
{
    let mut next = at;
    let mut first: usize = 0;
    for k in 0..n + 1 {
        let end = first + width;
        next = put_row(out, next, k, &table[first..end]);
        first = end;
    }
    next
}

pub(crate) fn put_arrival(out: &mut [u8], at: usize, n: u32) -> usize
    requires { Room out.old at (arrival_line n) }
    ensures { Written out.old at (arrival_line n) out.new result }
{
    let next = put_labelled(out, at, b"arrival ", n as u64);
    out[next] = b'\n';
    next + 1
}

pub(crate) fn put_refusal(
    out: &mut [u8],
    at: usize,
    number: u32,
    place: usize,
    mask: u32,
    arrival: u32,
) -> usize
    requires { at + refusal_bytes ≤ length out.old }
    ensures { WrittenWithin refusal_bytes
        out.old at (refusal_line number place mask arrival) out.new result }
{
    let after_number = put_labelled(out, at, b"refused ", number as u64);
    let after_place = put_labelled(out, after_number, b" place ", place as u64);
    let after_mask = put_labelled(out, after_place, b" axes ", mask as u64);
    let after_arrival = put_labelled(out, after_mask, b" arrival ", arrival as u64);
    out[after_arrival] = b'\n';
    after_arrival + 1
}
