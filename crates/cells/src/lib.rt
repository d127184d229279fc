// One axis in a row (docs/METHOD.md, section 4): its states at the row's tick and one tick on, by
// the segment that the tick is in, and the cells that are written from them.
#![tactic(auto)]

ghost use Rattle.std.specs.Prelude.{◌+◌, ◌^◌, ◌≤◌, ◌≡◌, length};
ghost use Rattle.whole.specs.Lists.{over};
ghost use Rattle.whole.specs.Ranges.{Within};
ghost use Rattle.model.specs.planning.Rows.{row_at};
ghost use Rattle.blended.specs.BlendedStates.{cells_of};
ghost use Rattle.cells.specs.Rows.{kept_at, changed};

use blended::BlendedState;
use model::Order;
use segments::Segment;

// The states of an axis in a row: at the row's tick, one tick on, and the one of these
// two that goes on to the next row.
#[derive(Clone, Copy)]
pub struct RowStates {
    pub now: BlendedState,
    pub next: BlendedState,
    pub onward: BlendedState,
}

// ---- one axis, row by row in an order

// Whether tick k is one of a segment's.
pub fn kept_at(segment: Segment, k: u32) -> bool
    ensures { result ≡ kept_at segment k }
{
    segment.from <= u64::from(k) && u64::from(k) < segment.until
}

// The states of a row, from the one that comes to it and the change of velocity in the row's tick.
pub fn row_states(order: Order, t: BlendedState, change: i64) -> RowStates
    requires within { Within (2 ^ 61) t.position }
    requires within_2 { Within (2 ^ 46) t.velocity }
    requires within_3 { Within (2 ^ 47) change }
    ensures { result ≡ changed order t change }
{
    match order {
        Order::Forwards => {
            let velocity = t.velocity + change;
            let next = BlendedState {
                position: t.position + t.velocity + velocity,
                velocity,
            };
            RowStates {
                now: t,
                next,
                onward: next,
            }
        }
        Order::Backwards => {
            let velocity = t.velocity - change;
            let now = BlendedState {
                position: t.position - t.velocity - velocity,
                velocity,
            };
            RowStates {
                now,
                next: t,
                onward: now,
            }
        }
    }
}

// The tick of the row at a place, of rows 0 to n.
pub fn row_at(order: Order, n: u32, place: u32) -> u32
    requires { place ≤ n }
    ensures { result ≡ row_at order n place }
{
    match order {
        Order::Forwards => place,
        Order::Backwards => n - place,
    }
}

// ---- the cells of a row

// Writes the three cells that an axis has in a row, from its states at the row's tick and one tick
// on: the acceleration is the change of velocity.
pub fn write_cells(table: &mut [i64], at: usize, t: BlendedState, u: BlendedState)
    requires within { Within (2 ^ 61) t.position }
    requires within_2 { Within (2 ^ 46) t.velocity }
    requires within_3 { Within (2 ^ 46) u.velocity }
    requires at_in_bounds { at + 3 ≤ length table.old }
    ensures { table.new ≡ over table.old at (cells_of t u) }
{
    let position = t.position;
    let velocity = t.velocity;
    let acceleration = u.velocity - velocity;
    table[at] = whole::nearest::<131072>(position);
    table[at + 1] = whole::nearest::<65536>(velocity);
    table[at + 2] = whole::nearest::<65536>(acceleration);
}
