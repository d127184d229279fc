// The answer of a call for rows in parts.
ghost use Rattle.std.specs.Prelude.{◌≡◌};
ghost use Rattle.layout.specs.Parts.{part_of};

use model::PartAnswer;

// What a call for rows in parts gives back, laid out as the header's `polgamir_part_answer`.
#[repr(C)]
#[derive(Clone, Copy)]
pub struct PolgamirPartAnswer {
    pub number: u32,
    pub mask: u32,
    pub place: usize,
    pub arrival: u32,
    pub rows: u32,
}

// The answer in the header's layout.
impl From<PartAnswer> for PolgamirPartAnswer {
    ghost from_gives = { λ r c. part_of c ≡ r };

    fn from(r: PartAnswer) -> PolgamirPartAnswer {
        let a = r.answer;
        PolgamirPartAnswer {
            number: a.number,
            mask: a.mask,
            place: a.place,
            arrival: a.arrival,
            rows: r.rows,
        }
    }
}
