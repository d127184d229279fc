// The second weight of a blend from damping as measured (docs/METHOD.md, 2.4), in single precision:
// each division and each product is rounded once, and the weight is found by comparisons.
#![tactic(auto)]

ghost use Rattle.std.specs.Prelude.{◌≡◌, ◌≤◌};
ghost use Rattle.model.specs.planning.Damping.{ratio_of, meets, ratio_weight, weight_of, above_zero, ratio_allowed};
ghost use Rattle.model.specs.planning.Damping.{damping_allowed, weight_allowed};

use model::{Damping, HIGHEST_WEIGHT, Weight};

// ---- the weight

// The ratio of swings; of two peaks, the second divided by the first.
fn ratio_of(damping: Damping) -> f32
    ensures { result ≡ ratio_of damping }
{
    match damping {
        Damping::Ratio(ratio) => ratio,
        Damping::Peaks(first, second) => second / first,
    }
}

// Whether B is at most the product of the ratio and 256 − B.
fn meets(ratio: f32, weight: u32) -> bool
    requires { weight ≤ 128 }
    ensures { result ≡ meets ratio weight }
{
    weight as f32 <= ratio * (256 - weight) as f32
}

// The largest B from 1 to 128 that is at most the product of the ratio and 256 − B, or 1 if there
// is none.
fn ratio_weight(ratio: f32) -> u32
    ensures { result ≡ ratio_weight ratio }
{
    // a loop: of the items of a range that is turned about, `find` says too little for the proof
    for weight in (1..=HIGHEST_WEIGHT).rev() {
        if meets(ratio, weight) {
            return weight;
        }
    }
    1
}

// B: the number given, or that of the damping.
pub fn weight_of(weight: Weight) -> u32
    ensures { result ≡ weight_of weight }
{
    match weight {
        Weight::Given(b) => b,
        Weight::Measured(damping) => ratio_weight(ratio_of(damping)),
    }
}

// ---- refusal 12

// Whether a ratio is a number above 0 and at most 1.
fn ratio_allowed(ratio: f32) -> bool
    ensures { result ≡ ratio_allowed ratio }
{
    0.0 < ratio && ratio <= 1.0
}

fn damping_allowed(damping: Damping) -> bool
    ensures { result ≡ damping_allowed damping }
{
    match damping {
        Damping::Ratio(ratio) => ratio_allowed(ratio),
        Damping::Peaks(first, second) => 0.0 < first && ratio_allowed(second / first),
    }
}

// Whether a weight can be worked out: one that is given always, the damping where its first peak is
// above zero and its ratio is allowed.
pub fn weight_allowed(weight: Weight) -> bool
    ensures { result ≡ weight_allowed weight }
{
    match weight {
        Weight::Given(_) => true,
        Weight::Measured(damping) => damping_allowed(damping),
    }
}
