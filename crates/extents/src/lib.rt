//! The left and the right edge of a thick line (01's rule W5).
#![tactic(auto)]

pub mod inner; // inner.rt: the edges of a line that is known to be within its limits

ghost use Rattle.std.specs.Prelude.{◌≡◌};
ghost use Rattle.shapes.specs.Limits.{point_limit};
ghost use Rattle.extents.specs.Entry.{edges_values, extents_answer};

use shapes::inner::is_line_near;
use shapes::limits::POINT;
use shapes::refusals::Refusal;
use shapes::strokes::check_stroke;
use shapes::{Line, Offset, Point, Sides};

/// Where an edge begins, and whether its parallel is an Extra one, which is a pixel shorter.
#[derive(Clone, Copy, Debug, PartialEq, Eq)]
pub struct Edge {
    pub point: Point,
    pub extra: bool,
}

/// Where both edges begin.
pub type Ends = Sides<Edge>;

/// The two edges of a line.
pub type Edges = Sides<Line>;

/// The left and the right edge of a line. Refuses with 3 a width outside 0 to 64, then with 4 a coordinate outside 511.
pub fn extents(line: Line, width: i64, offset: Offset) -> Result<Edges, Refusal>
    ensures { edges_values result ≡ extents_answer point_limit line width offset }
{
    check_stroke(width, is_line_near(line, POINT))?;
    Ok(inner::extents(line, width, offset))
}
