// Runs every call over a few cases and prints what each gives back: the field cases of the method,
// of which some are not proved, and a few more. Its file `stdout` has what an independent reference
// computed, and `rt check` compares the two. The cases beside these are in tests/reference/vectors.
//
// The cases come on standard input, as the words of a job come to the table program:
// tests/reference/README.md says how they are made, and what the numbers of a case and of its
// printed line are.
#![tactic(auto)]

mod calls;
mod printing;

ghost use Rattle.std.specs.Prelude.{◌≡◌, ◌+◌, ◌≤◌, ◌<◌, length};

use calls::called;
use whole::checksum::added;

// What every cell of the buffer holds before a call.
const UNTOUCHED: i64 = -1234567890123;

// The call of a case with the first cells of the buffer, as many as are lent.
fn lent(case: &[u32], buffer: &mut [i64])
    requires { 5 ≤ length case.now }
{
    let count = (case[1] as usize).min(buffer.len());
    called(case, &mut buffer[..count]);
}

// The sum over all cells: at each cell 31 times the sum so far and the cell's weight, modulo the
// prime. As 31 has an inverse modulo the prime, two buffers that differ in one cell, by less than
// 2^30 in size, have different sums.
fn sum_of(buffer: &[i64]) -> u64
    ensures { result < 2147483647 }
{
    let mut sum: u64 = 0;
    for x in buffer {
        sum = added(sum, *x);
    }
    sum
}

// The buffer of which a case is lent the first cells.
fn cell_buffer() -> [i64; 8192]
    ensures { 8192 ≡ length result }
{
    [UNTOUCHED; 8192]
}

// Runs a case and prints its line: what the call gives back, and the sum over the buffer.
fn run_case(case: &[u32])
    requires { 5 ≤ length case.now }
{
    let mut buffer = cell_buffer();
    lent(case, &mut buffer);
    io::print_hex(1, sum_of(&buffer), 1);
    io::write_all(1, b"\n");
}

// The index after the case at an index.
fn end_of(cases: &[u32], at: usize) -> usize
    requires { at + 5 ≤ length cases.now }
    ensures { (at + 5 ≤ result) × (result ≤ length cases.now) }
{
    let job = at + 5;
    job + (cases[at + 4] as usize).min(cases.len() - job)
}

// Runs the cases one after the other.
fn run_cases(cases: &[u32]) {
    let mut at: usize = 0;
    // no range: each case says where the next one begins
    while 5 <= cases.len() - at {
        let end = end_of(cases, at);
        run_case(&cases[at..end]);
        at = end;
    }
}

// Runs the cases of the bytes.
fn run(bytes: &[u8]) {
    let mut words = [0u32; 2048];
    let count = text::words_of(bytes, &mut words);
    run_cases(&words[..count]);
}

fn main() {
    let mut bytes = io::large_buffer();
    let got = io::read_full(0, &mut bytes);
    run(&bytes[..got]);
}
