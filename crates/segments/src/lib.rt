// One axis of a job: the segments of its velocity (docs/METHOD.md, section 3), ticks over which it
// changes by the same amount in each; of the planned velocity, and of the velocity after the
// blends.
#![tactic(auto)]

ghost use Rattle.std.specs.Prelude.{suc, ◌+◌, ◌^◌, ◌<◌, ◌≤◌, ◌≡◌};
ghost use Rattle.whole.specs.Ranges.{Within};
ghost use Rattle.blended.specs.BlendedStates.{blended_back, blended_velocity};
ghost use Rattle.planned.specs.Plans.{arrival_of, PlanRanges, planned_at, velocity_back};
ghost use Rattle.regions.specs.Regions.{RegionsRanged};
ghost use Rattle.segments.specs.Segments.{SegmentAt, fall_begins, raised_until, shared};

use planned::AxisPlan;
use regions::Regions;

// The change of a velocity in each tick from `from` on and before `until`.
#[derive(Clone, Copy)]
pub struct Segment {
    pub change: i64,
    pub from: u64,
    pub until: u64,
}

// ---- of the planned velocity

// The segment of the planned velocity in tick k alone.
fn one_tick(p: AxisPlan, k: u32) -> Segment
    requires plan_ranges { PlanRanges p }
    requires k_bound { k ≤ arrival_of p }
    ensures { SegmentAt (2 ^ 13) (2 ^ 39) (planned_at p) k result }
{
    let now = planned::planned_velocity(p, k);
    let next = planned::planned_velocity(p, k + 1);
    let tick = u64::from(k);
    Segment {
        change: next - now,
        from: tick,
        until: tick + 1,
    }
}

// The first tick of the ramp to the end, after the ramp from the start.
fn fall_begins(r: Regions) -> u64
    requires regions_ranged { RegionsRanged r }
    requires rise_lt_ticks { r.rise < r.ticks }
    ensures { result ≡ fall_begins r }
{
    if r.rise + r.fall < r.ticks {
        r.ticks - r.fall
    } else {
        r.rise + 1
    }
}

// The last raised tick of the level part, whose last tick is given.
fn raised_until(r: Regions, last: u64) -> u64
    requires { r.rise ≤ last }
    ensures { result ≡ raised_until r last }
{
    if r.raised < last - r.rise {
        r.rise + r.raised
    } else {
        last
    }
}

// The segment of the planned velocity at a tick of the level part, whose last tick is given.
fn level_segment(p: AxisPlan, k: u32, last: u64) -> Segment
    requires plan_ranges { PlanRanges p }
    requires rise_lt_k { p.regions.rise < k }
    requires k_le_last { k ≤ last }
    requires fall_value { suc (last + p.regions.fall) ≡ p.regions.ticks }
    ensures { SegmentAt (2 ^ 13) (2 ^ 39) (planned_at p) k result }
{
    let tick = u64::from(k);
    let end = raised_until(p.regions, last);
    if tick < end {
        return Segment {
            change: 0,
            from: p.regions.rise + 1,
            until: end,
        };
    }
    if end < tick && tick < last {
        return Segment {
            change: 0,
            from: end + 1,
            until: last,
        };
    }
    one_tick(p, k)
}

// The same after the ramp from the start and before the landing.
fn later_segment(p: AxisPlan, k: u32) -> Segment
    requires plan_ranges { PlanRanges p }
    requires rise_lt_k { p.regions.rise < k }
    requires k_lt_ticks { k < p.regions.ticks }
    ensures { SegmentAt (2 ^ 13) (2 ^ 39) (planned_at p) k result }
{
    let regions = p.regions;
    if regions.ticks <= u64::from(k) + regions.fall {
        return Segment {
            change: -regions.down,
            from: fall_begins(regions),
            until: regions.ticks,
        };
    }
    level_segment(p, k, regions.ticks - regions.fall - 1)
}

// The segment of the planned velocity at tick k.
fn planned_segment(p: AxisPlan, k: u32) -> Segment
    requires plan_ranges { PlanRanges p }
    requires k_bound { k ≤ arrival_of p }
    ensures { SegmentAt (2 ^ 13) (2 ^ 39) (planned_at p) k result }
{
    let regions = p.regions;
    let rise = regions.rise;
    let ticks = regions.ticks;
    let tick = u64::from(k);
    if ticks <= tick {
        return Segment {
            change: p.acceleration,
            from: ticks,
            until: 4097,
        };
    }
    if rise < tick {
        return later_segment(p, k);
    }
    if tick < rise && rise < ticks {
        return Segment {
            change: regions.up,
            from: 0,
            until: rise,
        };
    }
    one_tick(p, k)
}

// The same of the planned velocity d ticks before, which is uniform before tick 0.
fn segment_back(p: AxisPlan, d: u32, k: u32) -> Segment
    requires plan_ranges { PlanRanges p }
    requires d_bound { d ≤ 512 }
    requires k_bound { k ≤ arrival_of p }
    ensures { SegmentAt (2 ^ 14) (2 ^ 39) (velocity_back p d) k result }
{
    let delay = u64::from(d);
    if k < d {
        return Segment {
            change: 0,
            from: 0,
            until: delay,
        };
    }
    let segment = planned_segment(p, k - d);
    Segment {
        change: segment.change,
        from: segment.from + delay,
        until: segment.until + delay,
    }
}

// ---- after the blends

// A change in the ticks that two segments have in common.
fn common(change: i64, s: Segment, t: Segment) -> Segment
    requires { Within (2 ^ 57) change }
    ensures { result ≡ shared change s t }
{
    Segment {
        change,
        from: s.from.max(t.from),
        until: s.until.min(t.until),
    }
}

// The segment of one blend, d ticks before.
fn blended_segment(p: AxisPlan, d: u32, k: u32) -> Segment
    requires plan_ranges { PlanRanges p }
    requires d_bound { d ≤ 256 }
    requires k_bound { k ≤ arrival_of p }
    ensures { SegmentAt (2 ^ 14) (2 ^ 56) (blended_back p d) k result }
{
    let ahead = segment_back(p, d, k);
    let behind = segment_back(p, d + p.half_period, k);
    let change = blended::mix(p.first_weight, p.second_weight, ahead.change, behind.change);
    common(change, ahead, behind)
}

// The segment of the velocity after the blends at tick k.
pub fn segment_at(p: AxisPlan, k: u32) -> Segment
    requires plan_ranges { PlanRanges p }
    requires k_bound { k ≤ arrival_of p }
    ensures { SegmentAt (2 ^ 14) (2 ^ 57) (blended_velocity p) k result }
{
    let once = blended_segment(p, 0, k);
    match p.second_sway {
        None => once,
        Some(d) => {
            let again = blended_segment(p, d, k);
            common(once.change + again.change, once, again)
        }
    }
}
