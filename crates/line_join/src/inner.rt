//! Joins, for the crates above: no test of the input, but bounds that the caller shows.
ghost use Rattle.std.specs.Prelude.{◌≡◌};
ghost use Rattle.shapes.specs.Limits.{stroke_limit, line_limit};
ghost use Rattle.shapes.specs.Shape.{Near};
ghost use Rattle.shapes.specs.Strokes.{Thin};
ghost use Rattle.line_join.specs.Join.{start_of, end_of, join_of};
ghost use Rattle.line_join.specs.Caps.{JoinNear, is_corners_near, is_join_near, between, filler_of, cap_of, start_caps_of, end_caps_of, is_degenerate};

use crate::bend::{bent, ends, outer_corner, same_corners, starts};
use crate::{Caps, Corners, Join, Kind};
use extents::inner::extents;
use shapes::inner::{is_near, midpoint};
use shapes::{Line, Offset, Point, Side};

/// The join at which a route from `a` to `b` begins.
#[tactic(auto, unfolding(crate::specs::Join::start_of))]
pub fn start(a: Point, b: Point, width: i64, offset: Offset) -> Join
    requires near { Near stroke_limit a }
    requires near_2 { Near stroke_limit b }
    requires thin { Thin width }
    ensures { result ≡ start_of a b width offset }
{
    let edges = extents(Line { start: a, end: b }, width, offset);
    same_corners(Kind::Start, starts(edges))
}

/// The join at which a route that comes from `a` ends, at `b`.
#[tactic(auto, unfolding(crate::specs::Join::end_of))]
pub fn end(a: Point, b: Point, width: i64, offset: Offset) -> Join
    requires near { Near stroke_limit a }
    requires near_2 { Near stroke_limit b }
    requires thin { Thin width }
    ensures { result ≡ end_of a b width offset }
{
    let edges = extents(Line { start: a, end: b }, width, offset);
    same_corners(Kind::End, ends(edges))
}

/// The join at `b` of the lines from `a` to `b` and from `b` to `c`.
#[tactic(auto, unfolding(crate::specs::Join::join_of))]
pub fn from_points(a: Point, b: Point, c: Point, width: i64, offset: Offset) -> Join
    requires near { Near stroke_limit a }
    requires near_2 { Near stroke_limit b }
    requires near_3 { Near stroke_limit c }
    requires thin { Thin width }
    ensures { result ≡ join_of a b c width offset }
{
    let first = extents(Line { start: a, end: b }, width, offset);
    let second = extents(Line { start: b, end: c }, width, offset);
    bent(first, second, b, width)
}

/// Whether all four corners of a join are within `limit`: if not, it is refused with 5.
#[tactic(auto, unfolding(crate::specs::Caps::is_join_near))]
pub fn is_join_near(join: Join, limit: u32) -> bool
    ensures { result ≡ is_join_near limit join }
{
    are_corners_near(join.ending, limit) && are_corners_near(join.starting, limit)
}

/// Whether two corners are within `limit`.
#[tactic(auto, unfolding(crate::specs::Caps::is_corners_near))]
fn are_corners_near(corners: Corners, limit: u32) -> bool
    ensures { result ≡ is_corners_near limit corners }
{
    is_near(corners.left, limit) && is_near(corners.right, limit)
}

/// The filler line of a bevel or of a degenerate join.
#[tactic(auto, unfolding(crate::specs::Caps::filler_of))]
pub fn filler(join: Join) -> Option<Line>
    ensures { result ≡ filler_of join }
{
    match join.kind {
        Kind::Bevel(side) | Kind::Degenerate(side) => {
            Some(outer_line(side, join.ending, join.starting))
        }
        _ => None,
    }
}

/// The line between the corners of the outer side.
pub fn outer_line(side: Side, ending: Corners, starting: Corners) -> Line
    ensures { result ≡ between side ending starting }
{
    Line {
        start: outer_corner(side, ending),
        end: outer_corner(side, starting),
    }
}

/// The lines that close the thick line that begins at a join.
#[tactic(auto, unfolding(crate::specs::Caps::start_caps_of))]
pub fn start_caps(join: Join) -> Caps
    requires { JoinNear line_limit join }
    ensures { result ≡ start_caps_of join }
{
    cap(join, join.starting)
}

/// The lines that close the thick line that ends at a join.
#[tactic(auto, unfolding(crate::specs::Caps::end_caps_of))]
pub fn end_caps(join: Join) -> Caps
    requires { JoinNear line_limit join }
    ensures { result ≡ end_caps_of join }
{
    cap(join, join.ending)
}

/// The lines from the left to the right of two corners: by way of the filler line's midpoint, if the join has such a line.
#[tactic(auto, unfolding(crate::specs::Caps::cap_of))]
pub fn cap(join: Join, corners: Corners) -> Caps
    requires { JoinNear line_limit join }
    ensures { result ≡ cap_of join corners }
{
    let Corners { left, right } = corners;
    let Some(line) = filler(join) else {
        return Caps::One(Line {
            start: left,
            end: right,
        });
    };
    let mid = midpoint(line);
    Caps::Two(
        Line {
            start: left,
            end: mid,
        },
        Line {
            start: mid,
            end: right,
        },
    )
}

/// Whether the lines at a join overlap.
pub fn is_degenerate(join: Join) -> bool
    ensures { result ≡ is_degenerate join.kind }
{
    matches!(join.kind, Kind::Degenerate(_))
}
