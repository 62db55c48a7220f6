//! The equation of a line, how far a point lies from it, and on which side: the integer half of `linear_equation.rs`.
#![tactic(auto)]

ghost use Rattle.std.specs.Prelude.{◌≡◌};
ghost use Rattle.shapes.specs.Limits.{crossing_limit};
ghost use Rattle.linear_equation.specs.Equation.{are_inside, equation_answer, distance_answer, side_answer};
ghost use Rattle.linear_equation.specs.Equation.{equation_values, distance_values, side_values};

pub mod inner; // inner.rt: the same without the tests

use shapes::inner::{is_line_near, is_near};
use shapes::limits::CROSSING;
use shapes::refusals::Refusal;
use shapes::{Line, Point, Side};

/// A line as those points p at which the dot product of p and `normal` is `distance`.
#[derive(Clone, Copy, Debug, PartialEq, Eq)]
pub struct LinearEquation {
    /// Perpendicular to the line, as long as the line.
    pub normal: Point,
    /// What the dot product of the normal with each point of the line is.
    pub distance: i64,
}

/// The equation of a line. A coordinate beyond 1,023 is refused with 4.
#[tactic(auto, using(crate::proofs::Laws::inside), unfolding(crate::specs::Equation::equation_answer))]
pub fn equation(line: Line) -> Result<LinearEquation, Refusal>
    ensures { equation_values result ≡ equation_answer crossing_limit line }
{
    if !is_line_near(line, CROSSING) {
        return Err(Refusal::Coordinate);
    }
    Ok(inner::from_line(line))
}

/// How far a point lies from a line, times the line's length: negative on the left, positive on the right, 0 on the line.
/// A coordinate beyond 1,023 is refused with 4.
#[tactic(auto, using(crate::proofs::Laws::inside), unfolding(crate::specs::Equation::distance_answer))]
pub fn distance(line: Line, point: Point) -> Result<i64, Refusal>
    ensures { distance_values result ≡ distance_answer crossing_limit line point }
{
    if !are_near(line, point) {
        return Err(Refusal::Coordinate);
    }
    Ok(inner::distance(inner::from_line(line), point))
}

/// Whether a point lies on the given side of a line. A point on the line lies on both sides; so does every point where the
/// line's start is its end. A coordinate beyond 1,023 is refused with 4.
#[tactic(auto, using(crate::proofs::Laws::inside), unfolding(crate::specs::Equation::side_answer))]
pub fn check_side(line: Line, point: Point, side: Side) -> Result<bool, Refusal>
    ensures { side_values result ≡ side_answer crossing_limit line point side }
{
    if !are_near(line, point) {
        return Err(Refusal::Coordinate);
    }
    Ok(inner::check_side(inner::from_line(line), point, side))
}

/// Whether a line and a point are both inside the limit.
#[tactic(auto, unfolding(crate::specs::Equation::are_inside))]
fn are_near(line: Line, point: Point) -> bool
    ensures { result ≡ are_inside crossing_limit line point }
{
    is_line_near(line, CROSSING) && is_near(point, CROSSING)
}
