// One axis of a job: its plan for an arrival, and its planned velocities (docs/METHOD.md, section
// 3), tick by tick, some ticks before, and their sums with no tick visited.
#![tactic(auto)]

ghost use Rattle.std.specs.Prelude.{suc, ◌^◌, ◌≤◌, ◌≡◌};
ghost use Rattle.whole.specs.Integers.{sum_to};
ghost use Rattle.whole.specs.Ranges.{Is};
ghost use Rattle.model.specs.planning.Refusals.{Plannable};
ghost use Rattle.planned.specs.Plans.{scale, plan_of, arrival_of, PlanRanges, blends_by, planned_at, velocity_back};

use model::Axis;
use regions::Regions;

// The plan of one axis, on its own grid: its planned position at tick 0, in half grid steps; twice
// its target's position at the arrival, in units; its planned velocities up to the landing, in grid
// steps; its planned acceleration from the landing on; h; the weights of the blend, scaled so that
// the cells of every plan are rounded by the same divisors; and the second sway.
// Its ranges stay a clause, `PlanRanges p`: what a type's invariant cites may not name the type, so
// that specs/ would say these fields a second time.
#[derive(Clone, Copy)]
pub struct AxisPlan {
    pub origin: i64,
    pub destination: i64,
    pub regions: Regions,
    pub acceleration: i64,
    pub half_period: u32,
    pub first_weight: u32,
    pub second_weight: u32,
    pub second_sway: Option<u32>,
}

// ---- the plan

// How many blends are added up: a second one for a second sway.
pub fn blends(sway: Option<u32>) -> u32
    ensures { result ≡ blends_by sway }
{
    match sway {
        None => 1,
        Some(_) => 2,
    }
}

// What both weights are multiplied by: the blends then count in 1/65,536 of a fine step.
fn weight_scale(x: Axis) -> u32
    ensures { result ≡ scale x }
{
    256 / blends(x.second_sway) / motion::finer(x)
}

// The plan of an axis for an arrival that it reaches.
pub fn axis_plan(x: Axis, n: u32) -> AxisPlan
    requires { Plannable x n }
    ensures { result ≡ plan_of n x }
{
    let landing = motion::landing_at(x, n);
    let profile = motion::profile_of(x, n, landing);
    let second_weight = motion::second_weight(x);
    let scale = weight_scale(x);
    AxisPlan {
        origin: motion::start_position(x),
        destination: motion::destination(x, n),
        regions: cruise::chosen(profile, motion::displacement(x, landing)),
        acceleration: landing.acceleration,
        half_period: x.half_period,
        first_weight: scale * (256 - second_weight),
        second_weight: scale * second_weight,
        second_sway: x.second_sway,
    }
}

// ---- the planned velocities

// The planned velocity of tick k: before the landing tick that of its region; at it the end
// velocity, which the acceleration changes from there on.
pub fn planned_velocity(p: AxisPlan, k: u32) -> i64
    requires plan_ranges { PlanRanges p }
    requires k_bound { k ≤ suc (arrival_of p) }
    ensures { Is (2 ^ 38) result (planned_at p k) }
{
    let regions = p.regions;
    let tick = u64::from(k);
    if tick < regions.ticks {
        return regions::velocity_in(regions, tick);
    }
    regions.end + (tick - regions.ticks) as i64 * p.acceleration
}

// The planned velocity d ticks before tick k: before tick 0 the planned motion is uniform.
pub fn velocity_back(p: AxisPlan, d: u32, k: u32) -> i64
    requires plan_ranges { PlanRanges p }
    requires k_bound { k ≤ suc (arrival_of p) }
    ensures { Is (2 ^ 38) result (velocity_back p d k) }
{
    if k < d {
        return p.regions.start;
    }
    planned_velocity(p, k - d)
}

// ---- sums of the planned velocities of ticks 1 to k, with no tick visited

// Of the planned velocities.
fn planned_sum(p: AxisPlan, k: u32) -> i64
    requires plan_ranges { PlanRanges p }
    requires k_bound { k ≤ suc (arrival_of p) }
    ensures { Is (2 ^ 51) result (sum_to (planned_at p) k) }
{
    let regions = p.regions;
    let tick = u64::from(k);
    if tick < regions.ticks {
        return areas::sum_to(regions, tick);
    }
    let before = areas::sum_to(regions, regions.ticks - 1);
    let after = areas::ramp_area(regions.end, p.acceleration, tick - regions.ticks);
    before + regions.end + after
}

// Of those d ticks before: up to tick 0 the planned motion is uniform.
pub fn sum_back(p: AxisPlan, d: u32, k: u32) -> i64
    requires plan_ranges { PlanRanges p }
    requires d_bound { d ≤ 512 }
    requires k_bound { k ≤ suc (arrival_of p) }
    ensures { Is (2 ^ 51) result (sum_to (velocity_back p d) k) }
{
    let start = p.regions.start;
    if k < d {
        return i64::from(k) * start;
    }
    i64::from(d) * start + planned_sum(p, k - d)
}
