//! How two thick lines are joined: `line_join.rs`.
#![tactic(auto)]

ghost use Rattle.std.specs.Prelude.{◌≡◌};
ghost use Rattle.shapes.specs.Limits.{corner_limit, panel};
ghost use Rattle.line_join.specs.Answers.{join_values, filler_values, caps_values, degenerate_values, if_near, made_of};
ghost use Rattle.line_join.specs.Answers.{start_answer, end_answer, points_answer, filler_answer, start_caps_answer, end_caps_answer, degenerate_answer};

pub mod bend; // bend.rt: the join of two thick lines
pub mod inner; // inner.rt: the same without the tests
pub mod miter; // miter.rt: how long a miter may be
pub mod place; // place.rt: where a join stands
pub mod trace; // trace.rt: where the corners of a join come from

use inner::is_join_near;
use place::standing_at;
use shapes::inner::{is_line_near, is_near};
use shapes::limits::{CORNER, POINT};
use shapes::refusals::Refusal;
use shapes::strokes::check_stroke;
use shapes::{Divisions, Line, Offset, Point, Side, Sides};

/// How a join looks.
#[derive(Clone, Copy, Debug, PartialEq, Eq)]
pub enum Kind {
    /// A sharp point.
    Miter,
    /// A point that was cut off, on the outer side.
    Bevel(Side),
    /// The lines overlap; drawn as a bevel on the outer side.
    Degenerate(Side),
    /// The left or the right edges are parallel, also where the route turns straight back.
    Colinear,
    /// The beginning of a route.
    Start,
    /// The end of a route.
    End,
}

/// The two corners of an edge across a thick line.
pub type Corners = Sides<Point>;

/// Where a corner comes from.
#[derive(Clone, Copy, Debug, PartialEq, Eq)]
pub enum Origin {
    /// The end of an edge. It may lie on a crossing all the same: nothing is said of that.
    NotACrossing,
    /// The crossing of the edges of its side, with how its coordinates came out: the corner is the true crossing exactly where
    /// both are exact.
    Crossing(Divisions),
}

/// Where the left and the right corners of a join come from.
pub type Origins = Sides<Origin>;

/// A join: its kind, the corners at which the line before it ends (the Rust's `first_edge_end`), those at which the
/// line after it begins (`second_edge_start`), and where they come from. A miter uses both crossings of its edges, a bevel
/// the one on its inner side, unless they run nearly alike; every other corner is an edge's end.
#[derive(Clone, Copy, Debug, PartialEq, Eq)]
pub struct Join {
    pub kind: Kind,
    /// A few bytes, which beside those of the kind take no room of their own.
    pub origins: Origins,
    /// The place of the join's point in the list that it was made from, from 0 on. A join handed in may have any.
    pub position: usize,
    pub ending: Corners,
    pub starting: Corners,
}

/// The lines that close a thick line's end at a join.
#[derive(Clone, Copy, Debug, PartialEq, Eq)]
pub enum Caps {
    /// From the left corner to the right one.
    One(Line),
    /// From the left corner to the filler line's midpoint, and on to the right corner.
    Two(Line, Line),
}

/// The join at which a route from `a` to `b` begins, at position 0. Refused with 3 for a width outside 0 to 64, with 4 for a
/// coordinate beyond 511; its corners are within 1,023, so that it is never refused with 5.
pub fn start(a: Point, b: Point, width: i64, offset: Offset) -> Result<Join, Refusal>
    ensures { join_values result ≡ start_answer panel a b width offset }
{
    let line = Line { start: a, end: b };
    check_stroke(width, is_line_near(line, POINT))?;
    checked(inner::start(a, b, width, offset))
}

/// The join at which a route that comes from `a` ends, at `b`: of the two points that at position 1. Refused as for `start`.
pub fn end(a: Point, b: Point, width: i64, offset: Offset) -> Result<Join, Refusal>
    ensures { join_values result ≡ end_answer panel a b width offset }
{
    let line = Line { start: a, end: b };
    check_stroke(width, is_line_near(line, POINT))?;
    checked(standing_at(inner::end(a, b, width, offset), 1))
}

/// The join at `b` of the lines from `a` to `b` and from `b` to `c`: of the three points that at position 1. Refused with 3
/// and 4 as `start`, and with 5 at position 1 for a corner beyond 4,095.
pub fn from_points(
    a: Point,
    b: Point,
    c: Point,
    width: i64,
    offset: Offset,
) -> Result<Join, Refusal>
    ensures { join_values result ≡ points_answer panel a b c width offset }
{
    let line = Line { start: a, end: b };
    check_stroke(width, is_line_near(line, POINT) && is_near(c, POINT))?;
    checked(standing_at(inner::from_points(a, b, c, width, offset), 1))
}

/// The line that closes the gap of a bevel or of a degenerate join; any other join has no gap. A corner beyond 4,095 is
/// refused with 5, at the position that the join was given.
#[tactic(auto, unfolding(crate::specs::Answers::if_near, crate::specs::Answers::filler_values, crate::specs::Answers::filler_answer))]
pub fn filler_line(join: Join) -> Result<Option<Line>, Refusal>
    ensures { filler_values result ≡ filler_answer corner_limit join }
{
    check_near(join)?;
    Ok(inner::filler(join))
}

/// The lines that close the thick line that begins at a join: two where the join has a filler line, else one. A corner
/// beyond 4,095 is refused with 5, at the position that the join was given.
#[tactic(auto, unfolding(crate::specs::Answers::if_near, crate::specs::Answers::caps_values, crate::specs::Answers::start_caps_answer))]
pub fn start_cap_lines(join: Join) -> Result<Caps, Refusal>
    ensures { caps_values result ≡ start_caps_answer corner_limit join }
{
    check_near(join)?;
    Ok(inner::start_caps(join))
}

/// The lines that close the thick line that ends at a join: two where the join has a filler line, else one. A corner
/// beyond 4,095 is refused with 5, at the position that the join was given.
#[tactic(auto, unfolding(crate::specs::Answers::if_near, crate::specs::Answers::caps_values, crate::specs::Answers::end_caps_answer))]
pub fn end_cap_lines(join: Join) -> Result<Caps, Refusal>
    ensures { caps_values result ≡ end_caps_answer corner_limit join }
{
    check_near(join)?;
    Ok(inner::end_caps(join))
}

/// Whether the lines at a join overlap. A corner beyond 4,095 is refused with 5, at the position that the join was given.
#[tactic(auto, unfolding(crate::specs::Answers::if_near, crate::specs::Answers::degenerate_values, crate::specs::Answers::degenerate_answer))]
pub fn is_degenerate(join: Join) -> Result<bool, Refusal>
    ensures { degenerate_values result ≡ degenerate_answer corner_limit join }
{
    check_near(join)?;
    Ok(inner::is_degenerate(join))
}

/// A join whose input was not refused. A corner beyond 4,095 is refused with 5, at the join's position.
#[tactic(auto, unfolding(crate::specs::Answers::if_near, crate::specs::Answers::made_of))]
fn checked(join: Join) -> Result<Join, Refusal>
    ensures { result ≡ made_of corner_limit join }
{
    check_near(join)?;
    Ok(join)
}

/// Refuses a join with a corner beyond 4,095 with 5, at its position.
#[tactic(auto, unfolding(crate::specs::Answers::if_near))]
fn check_near(join: Join) -> Result<(), Refusal>
    ensures { result ≡ if_near corner_limit join tt }
{
    if !is_join_near(join, CORNER) {
        return Err(Refusal::Corner(join.position));
    }
    Ok(())
}
