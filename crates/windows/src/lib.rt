// The windows of a job (docs/METHOD.md, 3.8): whether an arrival fits one, and refusal 13.
#![tactic(auto)]

ghost use Rattle.std.specs.Prelude.{◌≡◌, ◌≤◌, length, take, true};
ghost use Rattle.std.specs.Prelude.{None};
ghost use Rattle.std.specs.List.{list_any};
ghost use Rattle.model.specs.planning.Windows.{fits_window, fits_one, in_windows, in_order_after};
ghost use Rattle.model.specs.planning.Windows.{first_wrong_window, windows_refused, refused13};
ghost use Rattle.windows.specs.Ticks.{first_tick, after_last};

use model::{LONGEST_DWELL, MAX_WINDOWS, Window, Windows};

// Whether an arrival fits a window: at its opening or later, below its closing, and its dwell
// ends at the closing or before.
fn fits(tick: u32, dwell: u32, window: Window) -> bool
    requires tick_bound { tick ≤ 4096 }
    requires dwell_bound { dwell ≤ 4096 }
    ensures { result ≡ fits_window tick dwell window }
{
    window.opening <= tick && tick < window.closing && tick + dwell <= window.closing
}

// Whether an arrival is allowed by the windows of a job: any where it brings
// none, else one that fits a window.
#[tactic(auto, using(crate::proofs::Listed::any_fits))]
pub fn allows(windows: Option<Windows>, tick: u32) -> bool
    requires windows_value { refused13 windows ≡ None }
    requires tick_bound { tick ≤ 4096 }
    ensures { result ≡ in_windows windows tick }
{
    match windows {
        None => true,
        Some(w) => fits_one(tick, w.dwell, &w.list[..w.count]),
    }
}

// Whether an arrival fits one of some windows.
fn fits_one(tick: u32, dwell: u32, windows: &[Window]) -> bool
    requires tick_bound { tick ≤ 4096 }
    requires dwell_bound { dwell ≤ 4096 }
    ensures { result ≡ list_any (fits_window tick dwell) windows.now }
{
    // a loop: a call that gives a borrowed item back is laid out otherwise on 32-bit processors
    for window in windows {
        if fits(tick, dwell, *window) {
            return true;
        }
    }
    false
}

// Whether a window closes after it opens, and opens at the tick at which the
// one before it closed, or later.
fn in_order_after(closed: u32, window: Window) -> bool
    ensures { result ≡ in_order_after closed window }
{
    window.opening < window.closing && closed <= window.opening
}

// The first window that does not close after it opens, or that opens before the one before it
// closes.
fn first_wrong(windows: &[Window]) -> Option<usize>
    ensures { result ≡ first_wrong_window 0 0 windows.now }
{
    let mut closed: u32 = 0;
    for (i, window) in windows.iter().enumerate() {
        if !in_order_after(closed, *window) {
            return Some(i);
        }
        closed = window.closing;
    }
    None
}

// The place of refusal 13, or none.
pub fn refused(windows: Windows) -> Option<usize>
    ensures { result ≡ windows_refused windows }
{
    if windows.count == 0 {
        return Some(0);
    }
    if windows.count <= MAX_WINDOWS && windows.dwell <= LONGEST_DWELL {
        return first_wrong(&windows.list[..windows.count]);
    }
    Some(MAX_WINDOWS)
}

// ---- the ticks of a window

// The first tick, from `first` on, that is not before the opening.
pub fn first_tick(window: Window, first: u32) -> u32
    ensures { result ≡ first_tick first window }
{
    first.max(window.opening)
}

// The tick after the last one, before `after`, that fits the window; where none does, a tick that
// is not after the window's first.
pub fn after_last(window: Window, dwell: u32, after: u32) -> u32
    requires { dwell ≤ 4096 }
    ensures { result ≡ after_last dwell after window }
{
    if dwell == 0 {
        return window.closing.min(after);
    }
    if window.closing < dwell {
        return 0;
    }
    (window.closing - dwell + 1).min(after)
}
