// The refusals that one axis meets by itself (docs/METHOD.md, section 7, numbers 4, 12, 5, 15, 6,
// 16 and 17), in checking order.
ghost use Rattle.std.specs.Prelude.{◌≡◌};
ghost use Rattle.model.specs.planning.Refusals.{within, limits_refused, damping_refused, blend_refused, sway_refused};
ghost use Rattle.model.specs.planning.Refusals.{values_refused, acceleration_refused, flying_refused};
ghost use Rattle.model.specs.planning.Refusals.{sway_allowed, position_allowed, velocity_allowed, rest_allowed};
ghost use Rattle.model.specs.planning.Refusals.{motion_allowed, target_allowed, acceleration_refused_by, flies};
ghost use Rattle.model.specs.declared.Target.TheVariants.{Moving};
ghost use Rattle.refusals.specs.Checks.{refuses, order, refused_by, tests_for};

use model::{
    Axis, AxisTest, HIGHEST_ACCELERATION, HIGHEST_SPEED, HIGHEST_WEIGHT, LONGEST_HALF_PERIOD,
    RestPoint, State, Target,
};

fn within(low: u32, high: u32, n: u32) -> bool
    ensures { result ≡ within low high n }
{
    low <= n && n <= high
}

fn limits_refused(x: &Axis) -> bool
    ensures { result ≡ limits_refused x.now }
{
    !(within(1, HIGHEST_SPEED, x.speed_limit)
        && within(1, HIGHEST_ACCELERATION, x.acceleration_limit))
}

fn damping_refused(x: &Axis) -> bool
    ensures { result ≡ damping_refused x.now }
{
    !damping::weight_allowed(x.second_weight)
}

fn blend_refused(x: &Axis) -> bool
    ensures { result ≡ blend_refused x.now }
{
    !(within(0, LONGEST_HALF_PERIOD, x.half_period)
        && within(1, HIGHEST_WEIGHT, motion::second_weight(*x)))
}

fn sway_allowed(sway: Option<u32>) -> bool
    ensures { result ≡ sway_allowed sway }
{
    match sway {
        None => true,
        Some(d) => within(1, LONGEST_HALF_PERIOD, d),
    }
}

fn sway_refused(x: &Axis) -> bool
    ensures { result ≡ sway_refused x.now }
{
    !sway_allowed(x.second_sway)
}

fn position_allowed(p: i64) -> bool
    ensures { result ≡ position_allowed p }
{
    -17179869184 <= p && p <= 17179869183
}

fn velocity_allowed(x: &Axis, v: i64) -> bool
    ensures { result ≡ velocity_allowed x.now v }
{
    whole::size_at_most(v, x.speed_limit as u64)
}

fn rest_allowed(x: &Axis, r: RestPoint) -> bool
    ensures { result ≡ rest_allowed x.now r }
{
    position_allowed(r.position) && velocity_allowed(x, r.velocity)
}

// The acceleration and the tick of a moving target.
fn motion_allowed(x: &Axis, m: State) -> bool
    ensures { result ≡ motion_allowed x.now m }
{
    whole::size_at_most(m.acceleration, x.acceleration_limit as u64)
        && whole::size_at_most(m.tick, 4096)
}

fn moving_allowed(x: &Axis, m: State) -> bool
    ensures { result ≡ target_allowed x.now (Moving m) }
{
    let r = RestPoint {
        position: m.position,
        velocity: m.velocity,
    };
    rest_allowed(x, r) && motion_allowed(x, m)
}

fn target_allowed(x: &Axis, target: Target) -> bool
    ensures { result ≡ target_allowed x.now target }
{
    match target {
        Target::Fixed(r) => rest_allowed(x, r),
        Target::Moving(m) => moving_allowed(x, m),
    }
}

fn values_refused(x: &Axis) -> bool
    ensures { result ≡ values_refused x.now }
{
    !(rest_allowed(x, x.start) && target_allowed(x, x.target))
}

fn acceleration_refused(x: &Axis) -> bool
    ensures { result ≡ acceleration_refused x.now }
{
    x.second_sway.is_some() && motion::accelerates(x.target)
}

fn flies(target: Target) -> bool
    ensures { result ≡ flies target }
{
    match target {
        Target::Fixed(r) => r.velocity != 0,
        Target::Moving(_) => false,
    }
}

fn flying_refused(x: &Axis) -> bool
    ensures { result ≡ flying_refused x.now }
{
    flies(x.target)
}

// Whether one of the tests refuses an axis: their order does not matter.
pub fn refused(x: &Axis, resting: bool) -> bool
    ensures { result ≡ refused_by (tests_for resting) x.now }
{
    limits_refused(x)
        || damping_refused(x)
        || blend_refused(x)
        || sway_refused(x)
        || values_refused(x)
        || acceleration_refused(x)
        || resting && flying_refused(x)
}

// Whether a test refuses an axis.
pub fn refuses(test: AxisTest, x: &Axis) -> bool
    ensures { result ≡ refuses test x.now }
{
    match test {
        AxisTest::Limits => limits_refused(x),
        AxisTest::Damping => damping_refused(x),
        AxisTest::Blend => blend_refused(x),
        AxisTest::SecondSway => sway_refused(x),
        AxisTest::Values => values_refused(x),
        AxisTest::Acceleration => acceleration_refused(x),
        AxisTest::Flying => flying_refused(x),
    }
}

// The tests in checking order.
const ORDER: [AxisTest; 7] = [
    AxisTest::Limits,
    AxisTest::Damping,
    AxisTest::Blend,
    AxisTest::SecondSway,
    AxisTest::Values,
    AxisTest::Acceleration,
    AxisTest::Flying,
];

// The same where fixed targets must be at rest, and without the last where they may fly.
pub fn tests(resting: bool) -> &'static [AxisTest]
    ensures { result.now ≡ order resting }
{
    if resting { &ORDER } else { &ORDER[..6] }
}
