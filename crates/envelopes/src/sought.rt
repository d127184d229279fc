// The sum of velocities that a displacement requires, of legs with more and more ticks.
ghost use Rattle.std.specs.Prelude.{◌^◌, ◌+◌, ◌*◌, ◌≤◌};
ghost use Rattle.whole.specs.Ranges.{Within, Is};

// A sum that is sought at a number of ticks, and changes by the same number with each tick more.
#[derive(Clone, Copy)]
pub struct Sought {
    pub sum: i64,
    pub change: i64,
    pub ticks: u64,
    ghost sum_within: { Within (3 * 2 ^ 60) sum },
    ghost change_within: { Within (2 ^ 37) change },
}

impl Sought {
    ghost use Rattle.envelopes.specs.Sums.{sought_at, Turned};

    // The sum at a number of ticks; at fewer than the first it is the first.
    pub fn at(self, ticks: u64) -> i64
        requires { ticks ≤ 4096 }
        ensures { Is (3 * 2 ^ 60 + 2 ^ 49) result (sought_at self ticks) }
    {
        self.sum + ticks.saturating_sub(self.ticks) as i64 * self.change
    }

    // The same with every sign turned.
    pub fn mirrored(self) -> Sought
        ensures { Turned self result }
    {
        Sought {
            sum: -self.sum,
            change: -self.change,
            ticks: self.ticks,
        }
    }
}
