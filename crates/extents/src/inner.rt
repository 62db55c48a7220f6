//! The edges of a thick line.
ghost use Rattle.std.specs.Prelude.{◌≡◌};
ghost use Rattle.shapes.specs.Limits.{line_limit, thick_limit};
ghost use Rattle.shapes.specs.Shape.{Near, LineNear};
ghost use Rattle.whole.specs.Number.{Within};
ghost use Rattle.bresenham.specs.Walk.{step_limit, Sized};
ghost use Rattle.parallels.specs.Parallels.{Sound, Begun, parallels};
ghost use Rattle.extents.specs.Edges.{fresh_ends, seen, lasts, closed, extents_of};

use crate::{Edge, Edges, Ends};
use bresenham::Parameters;
use parallels::inner::{is_done, next, plan_of, start};
use parallels::{Parallel, Parallels, Plan};
use shapes::inner::{delta, minus, plus};
use shapes::{Line, Offset, Side};

/// The ends before the first parallel: both edges begin at the line's start.
pub fn fresh_ends(line: Line) -> Ends
    ensures { result ≡ fresh_ends line }
{
    let fresh = Edge {
        point: line.start,
        extra: false,
    };
    Ends {
        left: fresh,
        right: fresh,
    }
}

/// One more parallel: it replaces the one of its side.
#[tactic(auto, unfolding(crate::specs::Edges::seen))]
pub fn see(ends: &mut Ends, parallel: Parallel)
    ensures { ends.new ≡ seen ends.old parallel }
{
    let edge = Edge {
        point: parallel.start.point,
        extra: parallel.extra,
    };
    match parallel.side {
        Side::Left => ends.left = edge,
        Side::Right => ends.right = edge,
    }
}

/// The last parallels of both sides, from a state on.
pub fn last_ends(plan: &Plan, mut state: Parallels, mut ends: Ends) -> Ends
    requires sound { Sound thick_limit plan.now }
    requires begun { Begun thick_limit plan.now state }
    ensures { result ≡ lasts ends (parallels plan.now state) }
{
    while !is_done(plan, &state) {
        see(&mut ends, next(plan, &mut state));
    }
    ends
}

/// The edge of a line that begins at `edge`.
pub fn close(line: Line, along: Parameters, edge: Edge) -> Line
    requires line_near { LineNear line_limit line }
    requires sized { Sized along }
    requires near { Near step_limit edge.point }
    ensures { result ≡ closed line along edge }
{
    let whole = plus(edge.point, delta(line));
    let end = if edge.extra {
        minus(whole, plus(along.major, along.minor))
    } else {
        whole
    };
    Line {
        start: edge.point,
        end,
    }
}

/// The left and the right edge of a line, for a width and an offset.
pub fn extents(line: Line, width: i64, offset: Offset) -> Edges
    requires line_near { LineNear line_limit line }
    requires within { Within width thick_limit }
    ensures { result ≡ extents_of line width offset }
{
    let plan = plan_of(line, width, offset);
    let last = last_ends(&plan, start(&plan, line.start), fresh_ends(line));
    Edges {
        left: close(line, plan.parallel, last.left),
        right: close(line, plan.parallel, last.right),
    }
}
