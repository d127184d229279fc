// What a call gives back, printed: hexadecimal numbers, each with a space after it.
ghost use Rattle.std.specs.Prelude.{length};

use model::{Answer, PartAnswer, Raise, RaisesAnswer, Report, SearchAnswer, TourAnswer};

fn print(n: u64) {
    io::print_hex(1, n, 1);
    io::write_all(1, b" ");
}

pub(crate) fn print_words(words: &[u32]) {
    for word in words {
        print(*word as u64);
    }
}

pub(crate) fn print_answer(answer: Answer) {
    print(answer.number as u64);
    print(answer.place as u64);
    print(answer.mask as u64);
    print(answer.arrival as u64);
}

// The rows written.
pub(crate) fn print_part(r: PartAnswer) {
    print_answer(r.answer);
    print(r.rows as u64);
}

fn print_pair(kind: u64, n: u32) {
    print(kind);
    print(n as u64);
}

// 1 and the raise of M, 2 and the raise of L, or 0 and 0.
fn print_raise(raise: Option<Raise>) {
    match raise {
        Some(Raise::AccelerationBy(amount)) => print_pair(1, amount),
        Some(Raise::SpeedBy(amount)) => print_pair(2, amount),
        None => print_pair(0, 0),
    }
}

// The raises of axis 0.
pub(crate) fn print_raises(r: RaisesAnswer) {
    print_answer(r.answer);
    print_raise(r.axes[0].first);
    print_raise(r.axes[0].second);
}

// 1 and the tick that is found, 2 and the next candidate of a spent budget, or 0 and 0.
fn print_report(report: Report) {
    match report {
        Report::Found(tick) => print_pair(1, tick),
        Report::Spent(next) => print_pair(2, next),
        Report::Nothing => print_pair(0, 0),
    }
}

// The report, and the candidates tried.
pub(crate) fn print_search(r: SearchAnswer) {
    print_answer(Answer {
        number: r.number,
        place: r.place,
        mask: r.mask,
        arrival: r.arrival,
    });
    print_report(r.report);
    print(r.tried as u64);
}

// The total.
pub(crate) fn print_tour(r: TourAnswer) {
    print_answer(Answer {
        number: r.number,
        place: r.place,
        mask: r.mask,
        arrival: r.arrival,
    });
    print(r.total as u64);
}
