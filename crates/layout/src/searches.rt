// The answer of a search.
ghost use Rattle.std.specs.Prelude.{◌≡◌};
ghost use Rattle.layout.specs.Searches.{searched_of};

use model::{Report, SearchAnswer};

// What a search gives back, laid out as the header's `polgamir_search_answer`. The report is 0 for
// none, 1 for found and 2 for spent.
#[repr(C)]
#[derive(Clone, Copy)]
pub struct PolgamirSearchAnswer {
    pub number: u32,
    pub mask: u32,
    pub place: usize,
    pub arrival: u32,
    pub report: u32,
    pub next: u32,
    pub tried: u32,
}

// The answer in the header's layout.
impl From<SearchAnswer> for PolgamirSearchAnswer {
    ghost from_gives = { λ r c. c ≡ searched_of r };

    fn from(r: SearchAnswer) -> PolgamirSearchAnswer {
        let (report, next) = match r.report {
            Report::Nothing => (0, 0),
            Report::Found(_) => (1, 0),
            Report::Spent(next) => (2, next),
        };
        PolgamirSearchAnswer {
            number: r.number,
            mask: r.mask,
            place: r.place,
            arrival: r.arrival,
            report,
            next,
            tried: r.tried,
        }
    }
}
