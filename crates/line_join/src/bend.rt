//! The join of two thick lines, from their edges. Edges know of no list: its position is 0 until `place` sets it.
ghost use Rattle.std.specs.Prelude.{◌≡◌};
ghost use Rattle.shapes.specs.Limits.{line_limit};
ghost use Rattle.shapes.specs.Shape.{Near, LineNear};
ghost use Rattle.shapes.specs.Strokes.{Thin};
ghost use Rattle.line_join.specs.Miter.{corner_room};
ghost use Rattle.extents.specs.Edges.{EdgesNear};
ghost use Rattle.line_join.specs.Join.{meeting_of, overlapping, plain, alike, cut, cut_off, outer, ends_of, starts_of, bent_at, traced_of};
ghost use Rattle.line_join.specs.Caps.{CornersNear};

use crate::miter::is_short;
use crate::trace::{no_crossings, traced};
use crate::{Corners, Join, Kind, Origin};
use extents::Edges;
use intersection_params::Intersection;
use intersection_params::inner::{divisions, drawn, nearly_colinear, solve};
use linear_equation::inner::{check_side, from_line};
use shapes::{Line, Point, Side};

/// What two edges meet at: their crossing or the end of the first of them, the outer side, and where the point comes from.
#[derive(Clone, Copy, Debug, PartialEq, Eq)]
pub struct Meeting {
    pub point: Point,
    pub side: Side,
    pub origin: Origin,
}

/// The join of two thick lines that meet at `mid`, from their edges.
#[tactic(auto, unfolding(crate::specs::Join::bent_of))]
pub fn bent(first: Edges, second: Edges, mid: Point, width: i64) -> Join
    requires edges_near { EdgesNear line_limit first }
    requires edges_near_2 { EdgesNear line_limit second }
    requires near { Near line_limit mid }
    requires thin { Thin width }
    ensures { result ≡ traced_of first second mid width }
{
    let Some(left) = meet(second.left, first.left) else {
        return at_edges(Kind::Colinear, first, second);
    };
    let Some(right) = meet(second.right, first.right) else {
        return at_edges(Kind::Colinear, first, second);
    };
    let crossing = Corners {
        left: left.point,
        right: right.point,
    };
    let join = bent_at(left.side, crossing, first, second, mid, width);
    traced(join, left.origin, right.origin)
}

/// The same where the left and the right edges meet at the two corners of `crossing`; its origins are not set yet.
#[tactic(auto, unfolding(crate::specs::Join::bent_at))]
pub fn bent_at(
    side: Side,
    crossing: Corners,
    first: Edges,
    second: Edges,
    mid: Point,
    width: i64,
) -> Join
    requires edges_near { EdgesNear line_limit first }
    requires edges_near_2 { EdgesNear line_limit second }
    requires corners_near { CornersNear corner_room crossing }
    requires near { Near line_limit mid }
    requires thin { Thin width }
    ensures { result ≡ bent_at side crossing first second mid width }
{
    if overlap(side, first, second) {
        return at_edges(Kind::Degenerate(side), first, second);
    }
    let tip = outer_corner(side, crossing);
    if is_short(mid, tip, width) {
        return same_corners(Kind::Miter, crossing);
    }
    bevel(side, crossing, first, second)
}

/// Where two edges cross, if they are not parallel; where they run so nearly alike that rounding spoils the crossing, the end
/// of the first edge.
#[tactic(auto, unfolding(crate::specs::Join::meet, crate::specs::Origins::origin_of))]
pub fn meet(second: Line, first: Line) -> Option<Meeting>
    requires line_near { LineNear line_limit second }
    requires line_near_2 { LineNear line_limit first }
    ensures { result ≡ meeting_of second first }
{
    let solution = solve(second, first);
    let Intersection::At(point, side) = drawn(solution) else {
        return None;
    };
    if nearly_colinear(second, first) {
        return Some(Meeting {
            point: first.end,
            side,
            origin: Origin::NotACrossing,
        });
    }
    Some(Meeting {
        point,
        side,
        origin: Origin::Crossing(divisions(solution)),
    })
}

/// Whether the inner edge of the second line ends on the outer side of the first line's inner edge, or on it.
#[tactic(auto, using(linear_equation::proofs::Laws::tame), unfolding(crate::specs::Join::overlapping))]
pub fn overlap(side: Side, first: Edges, second: Edges) -> bool
    requires edges_near { EdgesNear line_limit first }
    requires edges_near_2 { EdgesNear line_limit second }
    ensures { result ≡ overlapping side first second }
{
    match side {
        Side::Left => check_side(from_line(first.right), second.right.end, Side::Left),
        Side::Right => check_side(from_line(first.left), second.left.end, Side::Right),
    }
}

/// A join at the ends of the edges.
pub fn at_edges(kind: Kind, first: Edges, second: Edges) -> Join
    ensures { result ≡ plain kind first second }
{
    Join {
        kind,
        ending: ends(first),
        starting: starts(second),
        origins: no_crossings(),
        position: 0,
    }
}

/// A join at which one line begins just where the other ends.
pub fn same_corners(kind: Kind, corners: Corners) -> Join
    ensures { result ≡ alike kind corners }
{
    Join {
        kind,
        ending: corners,
        starting: corners,
        origins: no_crossings(),
        position: 0,
    }
}

/// A bevel: the crossing on the inner side, and on the outer side the ends of the edges.
pub fn bevel(side: Side, crossing: Corners, first: Edges, second: Edges) -> Join
    ensures { result ≡ cut side crossing first second }
{
    Join {
        kind: Kind::Bevel(side),
        ending: cut_off(side, ends(first), crossing),
        starting: cut_off(side, starts(second), crossing),
        origins: no_crossings(),
        position: 0,
    }
}

/// The corner of an edge on the outer side, and a crossing on the inner one.
pub fn cut_off(side: Side, edge: Corners, crossing: Corners) -> Corners
    ensures { result ≡ cut_off side edge crossing }
{
    match side {
        Side::Left => Corners {
            left: edge.left,
            right: crossing.right,
        },
        Side::Right => Corners {
            left: crossing.left,
            right: edge.right,
        },
    }
}

/// Of two corners the one on the outer side.
pub fn outer_corner(side: Side, corners: Corners) -> Point
    ensures { result ≡ outer side corners }
{
    match side {
        Side::Left => corners.left,
        Side::Right => corners.right,
    }
}

/// Where the edges of a line end.
pub fn ends(edges: Edges) -> Corners
    ensures { result ≡ ends_of edges }
{
    Corners {
        left: edges.left.end,
        right: edges.right.end,
    }
}

/// Where the edges of a line start.
pub fn starts(edges: Edges) -> Corners
    ensures { result ≡ starts_of edges }
{
    Corners {
        left: edges.left.start,
        right: edges.right.start,
    }
}
