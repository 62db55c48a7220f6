//! The parameters of a walk and its steps. Each function asks for numbers that are small enough for 64 bits.
ghost use Rattle.std.specs.Prelude.{◌≡◌};
ghost use Rattle.shapes.specs.Limits.{line_limit};
ghost use Rattle.shapes.specs.Shape.{Near, LineNear};
ghost use Rattle.whole.specs.Number.{Within};
ghost use Rattle.bresenham.specs.Walk.{step_limit, Sized, Placed, along, parameters_along, parameters_of};
ghost use Rattle.bresenham.specs.Walk.{direction_of, turned, next_of, next_all, previous_all, increased, decreased};

use crate::{Bresenham, Carried, Met, Parameters};
use shapes::inner::{delta, minus, plus};
use shapes::{Line, Point};
use whole::inner::magnitude;

/// The direction of a delta: -1 where it is negative, else 1.
pub fn direction(d: i64) -> i64
    ensures { result ≡ direction_of d }
{
    if d < 0 { -1 } else { 1 }
}

/// The parameters of a walk whose larger and smaller absolute deltas are `a` and `b`.
pub fn walk_along(major: Point, minor: Point, a: i64, b: i64) -> Parameters
    requires within { Within a step_limit }
    requires within_2 { Within b step_limit }
    ensures { result ≡ along major minor a b }
{
    Parameters {
        major,
        minor,
        gain: 2 * b,
        loss: 2 * a,
        threshold: a,
    }
}

/// The parameters of a walk along a delta.
pub fn parameters_along(d: Point) -> Parameters
    requires { Near step_limit d }
    ensures { result ≡ parameters_along d }
{
    let across = Point {
        x: direction(d.x),
        y: 0,
    };
    let down = Point {
        x: 0,
        y: direction(d.y),
    };
    let width = magnitude(d.x);
    let height = magnitude(d.y);
    if width < height {
        return walk_along(down, across, height, width);
    }
    walk_along(across, down, width, height)
}

/// The parameters of the walk along a line.
pub fn parameters(line: Line) -> Parameters
    requires { LineNear line_limit line }
    ensures { result ≡ parameters_of line }
{
    parameters_along(delta(line))
}

/// The plain step along a line: a minor move first where one is due, then the point, then a major move.
pub fn next(p: Parameters, at: &mut Bresenham) -> Point
    requires sized { Sized p }
    requires placed { Placed at.old }
    ensures point { result ≡ (next_of p at.old).point }
    ensures after { at.new ≡ (next_of p at.old).state }
{
    let turned = turn(p, *at);
    *at = Bresenham {
        point: plus(turned.point, p.major),
        error: turned.error + p.gain,
    };
    turned.point
}

/// The place after a minor move where one is due, else the place itself.
fn turn(p: Parameters, at: Bresenham) -> Bresenham
    requires sized { Sized p }
    requires placed { Placed at }
    ensures { result ≡ turned p at }
{
    if p.threshold < at.error {
        return Bresenham {
            point: plus(at.point, p.minor),
            error: at.error - p.loss,
        };
    }
    at
}

/// One step forward across a line: Extra and a minor move where one is due, else Normal and a major move.
pub fn next_all(p: Parameters, at: Bresenham) -> Met
    requires sized { Sized p }
    requires placed { Placed at }
    ensures { result ≡ next_all p at }
{
    let extra = p.threshold < at.error;
    let state = if extra {
        Bresenham {
            point: plus(at.point, p.minor),
            error: at.error - p.loss,
        }
    } else {
        Bresenham {
            point: plus(at.point, p.major),
            error: at.error + p.gain,
        }
    };
    Met {
        point: at.point,
        extra,
        state,
    }
}

/// One step back across a line: Extra and a minor move back where one is due, else Normal and a major move back.
pub fn previous_all(p: Parameters, at: Bresenham) -> Met
    requires sized { Sized p }
    requires placed { Placed at }
    ensures { result ≡ previous_all p at }
{
    let extra = at.error <= -p.threshold;
    let state = if extra {
        Bresenham {
            point: minus(at.point, p.minor),
            error: at.error + p.loss,
        }
    } else {
        Bresenham {
            point: minus(at.point, p.major),
            error: at.error - p.gain,
        }
    };
    Met {
        point: at.point,
        extra,
        state,
    }
}

/// The error of a parallel's first point, one extra step further; it carries where a minor step becomes due.
pub fn increase_error(p: Parameters, error: i64) -> Carried
    requires sized { Sized p }
    requires within { Within error step_limit }
    ensures { result ≡ increased p error }
{
    let moved = error + p.gain;
    let carry = p.threshold < moved;
    let error = if carry { moved - p.loss } else { moved };
    Carried { error, carry }
}

/// The same, one extra step back.
pub fn decrease_error(p: Parameters, error: i64) -> Carried
    requires sized { Sized p }
    requires within { Within error step_limit }
    ensures { result ≡ decreased p error }
{
    let moved = error - p.gain;
    let carry = moved <= -p.threshold;
    let error = if carry { moved + p.loss } else { moved };
    Carried { error, carry }
}
