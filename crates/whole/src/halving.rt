// Candidates halved down, by any test: between one that fails it and one that passes or is past the
// last.
ghost use Rattle.std.specs.Prelude.{ℕ, suc, ◌+◌, ◌^◌, ◌≤◌, ◌<◌, ◌≡◌, Bool, true, false};
ghost use Rattle.whole.specs.Candidates.{Tells, LastingTo, Next};

// A candidate that fails a test, from one that is known to fail to the last: one that passes, or
// one past the last, is at most `apart` further. Each turn halves what is left.
pub fn failing_near<F: Fn(u64) -> bool>(passes: F, failing: u64, last: u64, apart: u64) -> u64
    requires callable { (k : ℕ) → failing < k → k ≤ last → F.pre passes k }
    requires apart_nonzero { 0 < apart }
    requires failing_le_last { failing ≤ last }
    requires last_bound { last < 2 ^ 63 }
    ensures low { failing ≤ result }
    ensures high { result ≤ last }
    ensures failed { failing < result → F.post passes result false }
    ensures near { (k : ℕ) × (result < k) × (k ≤ result + apart) × (k ≤ suc last) × (k ≤ last → F.post passes k true) }
{
    let mut low = failing;
    let mut high = last + 1;
    while apart < high - low {
        let middle = low + (high - low) / 2;
        if passes(middle) {
            high = middle;
        } else {
            low = middle;
        }
    }
    low
}

// The first candidate that passes a test, or one past the last, where one is known to fail: after a
// candidate that passes all do.
pub fn first_passing<F: Fn(u64) -> bool>(passes: F, failing: u64, last: u64) -> u64
    requires callable { (k : ℕ) → failing < k → k ≤ last → F.pre passes k }
    requires failing_le_last { failing ≤ last }
    requires last_bound { last < 2 ^ 63 }
    ensures low { failing < result }
    ensures high { result ≤ suc last }
    ensures next { (test : ℕ → Bool) (first : ℕ) → Tells (F.post passes) test failing last → test failing ≡ false
        → first ≤ failing → LastingTo test first last → Next test first last result }
{
    failing_near(passes, failing, last, 1) + 1
}
