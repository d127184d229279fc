// One axis of a job after the blends (docs/METHOD.md, section 3): its velocity at a tick, and its
// state from the start on or from the landing back, with no tick before visited.
#![tactic(auto)]

ghost use Rattle.std.specs.Prelude.{suc, ◌^◌, ◌≤◌, ◌≡◌};
ghost use Rattle.whole.specs.Integers.{sum_to};
ghost use Rattle.whole.specs.Ranges.{Within, Is};
ghost use Rattle.blended.specs.BlendedStates.{mix, blended_back, blended_velocity, lag_of, blended_state_at, comes_to};
ghost use Rattle.blended.specs.BlendedStates.{LandsAt};
ghost use Rattle.planned.specs.Plans.{arrival_of, PlanRanges, total_weight};

use model::Order;
use planned::AxisPlan;

// An axis at a tick: its exact position after the blends, in half 1/65,536 of a fine step, and its
// velocity, in 1/65,536 of a fine step.
#[derive(Clone, Copy)]
pub struct BlendedState {
    pub position: i64,
    pub velocity: i64,
}

// ---- the blends

// The blend of a planned value and of that a half period before it.
pub fn mix(first_weight: u32, second_weight: u32, ahead: i64, behind: i64) -> i64
    requires first_weight_bound { first_weight ≤ 2 ^ 16 }
    requires second_weight_bound { second_weight ≤ 2 ^ 16 }
    requires within { Within (2 ^ 39) ahead }
    requires within_2 { Within (2 ^ 39) behind }
    ensures { Is (2 ^ 56) result (mix first_weight second_weight ahead behind) }
{
    i64::from(first_weight) * ahead + i64::from(second_weight) * behind
}

// One blend, d ticks before tick k.
fn blended_back(p: AxisPlan, d: u32, k: u32) -> i64
    requires plan_ranges { PlanRanges p }
    requires d_bound { d ≤ 256 }
    requires k_bound { k ≤ suc (arrival_of p) }
    ensures { Is (2 ^ 46) result (blended_back p d k) }
{
    let ahead = planned::velocity_back(p, d, k);
    let behind = planned::velocity_back(p, d + p.half_period, k);
    mix(p.first_weight, p.second_weight, ahead, behind)
}

// The velocity of tick k after the blends.
fn blended_velocity(p: AxisPlan, k: u32) -> i64
    requires plan_ranges { PlanRanges p }
    requires k_bound { k ≤ suc (arrival_of p) }
    ensures { Is (2 ^ 46) result (blended_velocity p k) }
{
    let once = blended_back(p, 0, k);
    match p.second_sway {
        None => once,
        Some(d) => once + blended_back(p, d, k),
    }
}

// All weights together.
fn total_weight(p: AxisPlan) -> u32
    requires { PlanRanges p }
    ensures { result ≡ total_weight p }
{
    planned::blends(p.second_sway) * (p.first_weight + p.second_weight)
}

// Each weight times its delay, together.
fn lag_of(p: AxisPlan) -> u32
    requires { PlanRanges p }
    ensures { result ≡ lag_of p }
{
    planned::blends(p.second_sway) * (p.second_weight * p.half_period)
        + (p.first_weight + p.second_weight) * motion::sway_delay(p.second_sway)
}

// ---- sums of the velocities of ticks 1 to k, with no tick visited

// Of one blend, d ticks before.
fn blended_sum_back(p: AxisPlan, d: u32, k: u32) -> i64
    requires plan_ranges { PlanRanges p }
    requires d_bound { d ≤ 256 }
    requires k_bound { k ≤ suc (arrival_of p) }
    ensures { Is (2 ^ 59) result (sum_to (blended_back p d) k) }
{
    let ahead = planned::sum_back(p, d, k);
    let behind = planned::sum_back(p, d + p.half_period, k);
    i64::from(p.first_weight) * ahead + i64::from(p.second_weight) * behind
}

// Of the velocities after the blends.
fn blended_sum(p: AxisPlan, k: u32) -> i64
    requires plan_ranges { PlanRanges p }
    requires k_bound { k ≤ suc (arrival_of p) }
    ensures { Is (2 ^ 59) result (sum_to (blended_velocity p) k) }
{
    let once = blended_sum_back(p, 0, k);
    match p.second_sway {
        None => once,
        Some(d) => once + blended_sum_back(p, d, k),
    }
}

// ---- the state at a tick

// The state at tick 0.
fn started(p: AxisPlan) -> BlendedState
    requires { PlanRanges p }
    ensures { result ≡ blended_state_at p 0 }
{
    let start = p.regions.start;
    let weight = i64::from(total_weight(p));
    let lag = i64::from(lag_of(p));
    BlendedState {
        position: weight * p.origin - 2 * (lag * start),
        velocity: weight * start,
    }
}

// The state at tick k: from that at tick 0 on, each tick goes on by the velocities at its two ends.
fn blended_state_at(p: AxisPlan, k: u32) -> BlendedState
    requires plan_ranges { PlanRanges p }
    requires k_bound { k ≤ suc (arrival_of p) }
    ensures { result ≡ blended_state_at p k }
{
    let first = started(p);
    if k == 0 {
        return first;
    }
    let sum = blended_sum(p, k);
    let velocity = blended_velocity(p, k);
    BlendedState {
        position: first.position + first.velocity + 2 * sum - velocity,
        velocity,
    }
}

// ---- from the landing end

// The state one tick on from tick k.
fn next_state(p: AxisPlan, k: u32, t: BlendedState) -> BlendedState
    requires plan_ranges { PlanRanges p }
    requires k_bound { k ≤ arrival_of p }
    requires t_value { t ≡ blended_state_at p k }
    ensures { result ≡ blended_state_at p (suc k) }
{
    let velocity = blended_velocity(p, k + 1);
    BlendedState {
        position: t.position + t.velocity + velocity,
        velocity,
    }
}

// The state at the arrival n: the landing is exact.
fn arrived(p: AxisPlan, n: u32) -> BlendedState
    requires plan_ranges { PlanRanges p }
    requires n_bound { n ≤ arrival_of p }
    requires lands_at { LandsAt n p }
    ensures { result ≡ blended_state_at p n }
{
    BlendedState {
        position: 16777216 * p.destination,
        velocity: blended_velocity(p, n),
    }
}

// ---- the state that comes to a row

// The state that comes to the row at a place, of rows 0 to n: forwards that of the
// row's tick, backwards that one tick past it. At place 0 the sums begin backwards at
// the landing and forwards at the start.
pub fn first_state(p: AxisPlan, order: Order, n: u32, place: u32) -> BlendedState
    requires plan_ranges { PlanRanges p }
    requires n_bound { n ≤ arrival_of p }
    requires lands_at { LandsAt n p }
    requires place_bound { place ≤ suc n }
    ensures { result ≡ blended_state_at p (comes_to order n place) }
{
    match order {
        Order::Forwards => blended_state_at(p, place),
        Order::Backwards => {
            if place == 0 {
                return next_state(p, n, arrived(p, n));
            }
            blended_state_at(p, n + 1 - place)
        }
    }
}
