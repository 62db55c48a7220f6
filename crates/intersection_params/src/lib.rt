//! Where two lines cross, and whether they run so nearly alike that rounding spoils the crossing: `intersection_params.rs`.
#![tactic(auto)]

ghost use Rattle.std.specs.Prelude.{◌≡◌};
ghost use Rattle.shapes.specs.Limits.{crossing_limit};
ghost use Rattle.linear_equation.specs.Equation.{side_values};
ghost use Rattle.intersection_params.specs.Crossing.{are_lines_near, crossing_values, crossing_answer, nearly_answer};

pub mod inner; // inner.rt: the same without the tests

use inner::{found, solve};
use shapes::inner::is_line_near;
use shapes::limits::CROSSING;
use shapes::refusals::Refusal;
use shapes::{Divisions, Line, Point, Side};

/// What two lines, made longer without end, have in common.
#[derive(Clone, Copy, Debug, PartialEq, Eq)]
pub enum Intersection {
    /// A single point, rounded to the nearest whole coordinates, and the outer side of the bend from the first line to the
    /// second.
    At(Point, Side),
    /// No point or all of them: the lines run the same way.
    Colinear,
}

/// What `crossing` finds.
#[derive(Clone, Copy, Debug, PartialEq, Eq)]
pub enum Crossed {
    /// As `Intersection::At`; and how each coordinate came out: the point is the true crossing where both are exact.
    At(Point, Side, Divisions),
    /// As `Intersection::Colinear`.
    Colinear,
}

/// The true crossing of two lines, not rounded: (x / determinant, y / determinant) where the determinant is not 0.
#[derive(Clone, Copy, Debug, PartialEq, Eq)]
pub struct Solution {
    pub determinant: i64,
    /// The numerator of the column.
    pub x: i64,
    /// The numerator of the row.
    pub y: i64,
}

/// The crossing of two lines: each coordinate is the nearest whole number to the true one, halves away from zero, and comes
/// with word whether the true one is whole, lies half way between two whole numbers, or neither; the outer side is Left
/// exactly where the determinant of the two directions is negative; Colinear exactly where it is 0, as it is where a line's
/// start is its end. A coordinate beyond 1,023 is refused with 4.
#[tactic(auto, using(crate::proofs::Room::inside), unfolding(crate::specs::Crossing::crossing_answer))]
pub fn crossing(first: Line, second: Line) -> Result<Crossed, Refusal>
    ensures { crossing_values result ≡ crossing_answer crossing_limit first second }
{
    if !are_near(first, second) {
        return Err(Refusal::Coordinate);
    }
    Ok(found(solve(first, second)))
}

/// Whether two lines run nearly the same way: the squared determinant of their directions is strictly below the absolute
/// value of the directions' dot product. A coordinate beyond 1,023 is refused with 4.
#[tactic(auto, using(crate::proofs::Room::inside), unfolding(crate::specs::Crossing::nearly_answer))]
pub fn nearly_colinear(first: Line, second: Line) -> Result<bool, Refusal>
    ensures { side_values result ≡ nearly_answer crossing_limit first second }
{
    if !are_near(first, second) {
        return Err(Refusal::Coordinate);
    }
    Ok(inner::nearly_colinear(first, second))
}

/// Whether both lines are inside the limit.
#[tactic(auto, unfolding(crate::specs::Crossing::are_lines_near))]
fn are_near(first: Line, second: Line) -> bool
    ensures { result ≡ are_lines_near crossing_limit first second }
{
    is_line_near(first, CROSSING) && is_line_near(second, CROSSING)
}
