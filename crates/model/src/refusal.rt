// The refusals of a job (docs/METHOD.md, section 7), each with what it names, and the answer that
// tells of one by its number.
ghost use Rattle.std.specs.Prelude.{◌≡◌};
ghost use Rattle.model.specs.planning.Told.{test_number, number_of, place_of, mask_of, arrival_of, answer_to};

use crate::Answer;

// The tests of one axis, in checking order.
#[derive(Clone, Copy, Debug, PartialEq, Eq)]
pub enum AxisTest {
    // 4: a limit is outside its range.
    Limits,
    // 12: the damping cannot be turned into a weight.
    Damping,
    // 5: the half period or the second weight is outside its range.
    Blend,
    // 15: the second half period is outside its range.
    SecondSway,
    // 6: a velocity, the target's acceleration or tick, or a position is out of bounds.
    Values,
    // 16: the target accelerates, and the pole has a second sway.
    Acceleration,
    // 17: a fixed target has a velocity that is not 0.
    Flying,
}

// Why a job is turned down.
#[derive(Clone, Copy, Debug, PartialEq, Eq)]
pub enum Refusal {
    // 1: the mask names no axis, or one that there is not.
    Mask,
    // 2, with its index: a word is not of a kind that may stand there.
    Word(usize),
    // 3: the asked arrival is past the last tick.
    Asked,
    // 4, 12, 5, 15, 6, 16 and 17, with the number of the axis.
    Axis(AxisTest, usize),
    // 8, with the mask of the axes that do not reach it: the asked arrival.
    AskedMissed(u32),
    // 9, with the mask of the axes that alone reach none: there is no arrival.
    NoArrival(u32),
    // 10, with the arrival: the table is too short.
    TableShort(u32),
    // 10, with how many are needed: a list that is lent is too short.
    ListShort(usize),
    // 11, with the stop, or 64 where there are more stops.
    Stop(usize),
    // 13, with the window, or 32 where it is not about one.
    Window(usize),
    // 14, with the index of the word: a position of two words is out of range or fits one.
    LongPosition(usize),
    // 18: the first candidate of a search is out of range.
    FirstCandidate,
}

impl AxisTest {
    // The number of its refusal.
    pub fn number(self) -> u32
        ensures { result ≡ test_number self }
    {
        match self {
            AxisTest::Limits => 4,
            AxisTest::Damping => 12,
            AxisTest::Blend => 5,
            AxisTest::SecondSway => 15,
            AxisTest::Values => 6,
            AxisTest::Acceleration => 16,
            AxisTest::Flying => 17,
        }
    }
}

impl Refusal {
    // Its number.
    pub fn number(self) -> u32
        ensures { result ≡ number_of self }
    {
        match self {
            Refusal::Mask => 1,
            Refusal::Word(_) => 2,
            Refusal::Asked => 3,
            Refusal::Axis(test, _) => test.number(),
            Refusal::AskedMissed(_) => 8,
            Refusal::NoArrival(_) => 9,
            Refusal::TableShort(_) => 10,
            Refusal::ListShort(_) => 10,
            Refusal::Stop(_) => 11,
            Refusal::Window(_) => 13,
            Refusal::LongPosition(_) => 14,
            Refusal::FirstCandidate => 18,
        }
    }

    // The place that it names, or 0: of a word, an axis, a stop or a window, or how many are
    // needed. The asked arrival is the word at place 1.
    pub fn place(self) -> usize
        ensures { result ≡ place_of self }
    {
        match self {
            Refusal::Asked => 1,
            Refusal::Word(at) | Refusal::LongPosition(at) => at,
            Refusal::Axis(_, axis) => axis,
            Refusal::ListShort(needed) => needed,
            Refusal::Stop(stop) => stop,
            Refusal::Window(window) => window,
            Refusal::Mask
            | Refusal::AskedMissed(_)
            | Refusal::NoArrival(_)
            | Refusal::TableShort(_)
            | Refusal::FirstCandidate => 0,
        }
    }

    // The mask of the axes that it names, or 0.
    pub fn mask(self) -> u32
        ensures { result ≡ mask_of self }
    {
        match self {
            Refusal::AskedMissed(axes) | Refusal::NoArrival(axes) => axes,
            _ => 0,
        }
    }

    // The arrival that it names, or 0.
    pub fn arrival(self) -> u32
        ensures { result ≡ arrival_of self }
    {
        match self {
            Refusal::TableShort(tick) => tick,
            _ => 0,
        }
    }
}

// The answer that tells of a refusal.
impl From<Refusal> for Answer {
    ghost from_gives = { λ r a. a ≡ answer_to r };

    fn from(refusal: Refusal) -> Answer {
        Answer {
            number: refusal.number(),
            place: refusal.place(),
            mask: refusal.mask(),
            arrival: refusal.arrival(),
        }
    }
}
