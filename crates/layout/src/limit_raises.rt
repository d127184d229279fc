// The raises of limits.
ghost use Rattle.std.specs.Prelude.{◌≡◌};
ghost use Rattle.layout.specs.Raises.{raise_in_c, entry_in_c, raises_in_c};

use crate::PolgamirAnswer;
use model::{AXES, AxisRaises, Raise, RaisesAnswer};

// A raise, laid out as the header's `polgamir_raise`: of the acceleration limit where the limit is
// 1, of the speed limit where it is 2; none where both fields are 0.
#[repr(C)]
#[derive(Clone, Copy)]
pub struct PolgamirRaise {
    pub limit: u32,
    pub by: u32,
}

// The raises of an axis, laid out as the header's `polgamir_axis_raises`.
#[repr(C)]
#[derive(Clone, Copy)]
pub struct PolgamirAxisRaises {
    pub first: PolgamirRaise,
    pub second: PolgamirRaise,
}

// What a call gives back, laid out as the header's `polgamir_raises`.
#[repr(C)]
#[derive(Clone, Copy)]
pub struct PolgamirRaises {
    pub answer: PolgamirAnswer,
    pub axes: [PolgamirAxisRaises; AXES],
}

impl From<Option<Raise>> for PolgamirRaise {
    ghost from_gives = { λ r c. c ≡ raise_in_c r };

    fn from(r: Option<Raise>) -> PolgamirRaise {
        match r {
            Some(Raise::AccelerationBy(by)) => PolgamirRaise { limit: 1, by },
            Some(Raise::SpeedBy(by)) => PolgamirRaise { limit: 2, by },
            None => PolgamirRaise { limit: 0, by: 0 },
        }
    }
}

impl From<AxisRaises> for PolgamirAxisRaises {
    ghost from_gives = { λ r c. c ≡ entry_in_c r };

    fn from(r: AxisRaises) -> PolgamirAxisRaises {
        PolgamirAxisRaises {
            first: r.first.into(),
            second: r.second.into(),
        }
    }
}

// An answer and its raises in the header's layout.
impl From<RaisesAnswer> for PolgamirRaises {
    ghost from_gives = { λ r c. c ≡ raises_in_c r };

    fn from(r: RaisesAnswer) -> PolgamirRaises {
        PolgamirRaises {
            answer: r.answer.into(),
            axes: r.axes.map(PolgamirAxisRaises::from),
        }
    }
}
