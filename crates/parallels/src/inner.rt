//! The parallels of a line, one at a time. Each function asks for a plan and a state that `plan_of`, `start` or a step gave.
ghost use Rattle.std.specs.Prelude.{◌≡◌, ◌^◌};
ghost use Rattle.shapes.specs.Limits.{line_limit, thick_limit};
ghost use Rattle.shapes.specs.Shape.{Near, LineNear};
ghost use Rattle.whole.specs.Number.{Within};
ghost use Rattle.bresenham.specs.Walk.{step_limit, Sized, Placed};
ghost use Rattle.parallels.specs.Parallels.{first_side, swapped, falls, across as across_of, bent, normal_turn, extra_turn, turn_of, next_parallel, plan_along, plan_of, followed, flank_at, sided, parallels_start, is_done, grown, yield_of, delta_limit, Sound, Ready, Begun};

use crate::{Bent, Flank, Parallel, Parallels, Plan, Taken, Turn};
use bresenham::inner::{decrease_error, increase_error, next_all, parameters_along, previous_all};
use bresenham::{Bresenham, Met, Parameters};
use shapes::inner::{delta, squared_length};
use shapes::{Line, Offset, Point, Side};

/// The side that the first parallel is on.
pub fn first_side(offset: Offset) -> Side
    ensures { result ≡ first_side offset }
{
    match offset {
        Offset::None | Offset::Right => Side::Right,
        Offset::Left => Side::Left,
    }
}

/// The other side.
pub fn swap(side: Side) -> Side
    ensures { result ≡ swapped side }
{
    match side {
        Side::Left => Side::Right,
        Side::Right => Side::Left,
    }
}

/// Whether the error of a side's parallels falls with an extra step.
pub fn is_falling(flip: bool, side: Side) -> bool
    ensures { result ≡ falls flip side }
{
    match side {
        Side::Left => flip,
        Side::Right => !flip,
    }
}

/// One step across a side: forward on the left, back on the right.
pub fn across(p: Parameters, side: Side, at: Bresenham) -> Met
    requires sized { Sized p }
    requires placed { Placed at }
    ensures { result ≡ across_of p side at }
{
    match side {
        Side::Left => next_all(p, at),
        Side::Right => previous_all(p, at),
    }
}

/// The error of a side's parallels after an extra step.
pub fn bend(p: Parameters, falling: bool, error: i64) -> Bent
    requires sized { Sized p }
    requires within { Within error step_limit }
    ensures { result ≡ bent p falling error }
{
    if falling {
        let down = decrease_error(p, error);
        return Bent {
            first: error,
            error: down.error,
            carry: down.carry,
        };
    }
    let up = increase_error(p, error);
    Bent {
        first: up.error,
        error: up.error,
        carry: up.carry,
    }
}

/// The parallel that starts at a Normal point, with the error of its side.
pub fn normal_turn(met: Met, error: i64) -> Turn
    ensures { result ≡ normal_turn met error }
{
    let taken = Taken {
        start: Bresenham {
            point: met.point,
            error,
        },
        extra: false,
        flank: Flank {
            at: met.state,
            error,
        },
    };
    Turn { taken, met: true }
}

/// The parallel that starts at an Extra point: it is met where the error carries.
pub fn extra_turn(met: Met, bent: Bent) -> Turn
    ensures { result ≡ extra_turn met bent }
{
    let taken = Taken {
        start: Bresenham {
            point: met.point,
            error: bent.first,
        },
        extra: true,
        flank: Flank {
            at: met.state,
            error: bent.error,
        },
    };
    Turn {
        taken,
        met: bent.carry,
    }
}

/// One step across a side, and the parallel that starts there: it is met where the step is Normal or the error carries.
pub fn turn(plan: &Plan, side: Side, flank: Flank) -> Turn
    requires sound { Sound thick_limit plan.now }
    requires ready { Ready plan.now side flank }
    ensures { result ≡ turn_of plan.now side flank }
{
    let met = across(plan.perpendicular, side, flank.at);
    if met.extra {
        let falling = is_falling(plan.flip, side);
        return extra_turn(met, bend(plan.parallel, falling, flank.error));
    }
    normal_turn(met, flank.error)
}

/// The next parallel of a side: a point that does not carry is passed over.
pub fn next_parallel(plan: &Plan, side: Side, flank: Flank) -> Taken
    requires sound { Sound thick_limit plan.now }
    requires ready { Ready plan.now side flank }
    ensures { result ≡ next_parallel plan.now side flank }
{
    let mut from = flank;
    loop {
        let turned = turn(plan, side, from);
        if turned.met {
            break turned.taken;
        }
        from = turned.taken.flank;
    }
}

/// The plan of the lines that have a delta, for a width and an offset.
pub fn plan_along(d: Point, width: i64, offset: Offset) -> Plan
    requires near { Near delta_limit d }
    requires within { Within width thick_limit }
    ensures { result ≡ plan_along d width offset }
{
    let parallel = parameters_along(d);
    let turned = Point { x: d.y, y: -d.x };
    let perpendicular = parameters_along(turned);
    let twice = 2 * width;
    let opposite = Point {
        x: -parallel.major.x,
        y: -parallel.major.y,
    };
    Plan {
        parallel,
        perpendicular,
        threshold: twice * twice * squared_length(d),
        flip: perpendicular.minor == opposite,
        offset,
    }
}

/// The plan of a line for a width and an offset. A line whose start is its end goes as (0,0)-(1,0) does.
pub fn plan_of(line: Line, width: i64, offset: Offset) -> Plan
    requires line_near { LineNear line_limit line }
    requires within { Within width thick_limit }
    ensures { result ≡ plan_of line width offset }
{
    if line.start == line.end {
        return plan_along(Point { x: 1, y: 0 }, width, offset);
    }
    plan_along(delta(line), width, offset)
}

/// The side after one, for an offset: the other one for strokes on both sides, else the same.
pub fn follow(offset: Offset, side: Side) -> Side
    ensures { result ≡ followed offset side }
{
    match offset {
        Offset::None => swap(side),
        Offset::Left | Offset::Right => side,
    }
}

/// One side of a state.
pub fn flank_at(state: &Parallels, side: Side) -> Flank
    ensures { result ≡ flank_at side state.now }
{
    match side {
        Side::Left => state.left,
        Side::Right => state.right,
    }
}

/// A state by one side and the other.
pub fn sides(side: Side, this: Flank, other: Flank, accumulator: i64, next: Side) -> Parallels
    ensures { result ≡ sided side this other accumulator next }
{
    match side {
        Side::Left => Parallels {
            left: this,
            right: other,
            accumulator,
            side: next,
        },
        Side::Right => Parallels {
            left: other,
            right: this,
            accumulator,
            side: next,
        },
    }
}

/// The state before the first parallel of a line that starts at `point`: the line itself is skipped on the side that is
/// not first.
pub fn start(plan: &Plan, point: Point) -> Parallels
    requires sound { Sound thick_limit plan.now }
    requires near { Near line_limit point }
    ensures { result ≡ parallels_start plan.now point }
{
    let fresh = Flank {
        at: Bresenham { point, error: 0 },
        error: 0,
    };
    let first = first_side(plan.offset);
    let skipped = next_parallel(plan, swap(first), fresh);
    let accumulator = (plan.parallel.loss + plan.parallel.gain) / 2;
    sides(first, fresh, skipped.flank, accumulator, first)
}

/// Whether no parallel follows.
pub fn is_done(plan: &Plan, state: &Parallels) -> bool
    requires sound { Sound thick_limit plan.now }
    requires begun { Begun thick_limit plan.now state.now }
    ensures { result ≡ is_done plan.now state.now }
{
    plan.threshold < state.accumulator * state.accumulator
}

/// The accumulator after a parallel.
pub fn grow(plan: &Plan, accumulator: i64, extra: bool) -> i64
    requires sound { Sound thick_limit plan.now }
    requires within { Within accumulator (2 ^ 28) }
    ensures { result ≡ grown plan.now accumulator extra }
{
    if extra {
        return accumulator + plan.perpendicular.gain;
    }
    accumulator + plan.perpendicular.loss
}

/// The next parallel, of a state that is not done; the state moves on to the one after it.
pub fn next(plan: &Plan, state: &mut Parallels) -> Parallel
    requires sound { Sound thick_limit plan.now }
    requires begun { Begun thick_limit plan.now state.old }
    ensures parallel { result ≡ (yield_of plan.now state.old).parallel }
    ensures after { state.new ≡ (yield_of plan.now state.old).state }
{
    let side = state.side;
    let taken = next_parallel(plan, side, flank_at(state, side));
    let other = flank_at(state, swap(side));
    let accumulator = grow(plan, state.accumulator, taken.extra);
    *state = sides(
        side,
        taken.flank,
        other,
        accumulator,
        follow(plan.offset, side),
    );
    Parallel {
        side,
        start: taken.start,
        extra: taken.extra,
    }
}
