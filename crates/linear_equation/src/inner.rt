//! The equation of a line, for the crates above: no test of the input, but bounds that the caller shows.
ghost use Rattle.std.specs.Prelude.{◌≡◌};
ghost use Rattle.shapes.specs.Limits.{line_limit};
ghost use Rattle.shapes.specs.Shape.{Near, LineNear};
ghost use Rattle.linear_equation.specs.Equation.{Tame, equation_of, distance_of, is_on_side};

use crate::LinearEquation;
use shapes::inner::{delta, dot_product, quarter_turn};
use shapes::{Line, Point, Side};

/// The equation of a line.
#[tactic(auto, unfolding(crate::specs::Equation::equation_of))]
pub fn from_line(line: Line) -> LinearEquation
    requires { LineNear line_limit line }
    ensures { result ≡ equation_of line }
{
    let normal = quarter_turn(delta(line));
    let distance = dot_product(line.start, normal);
    LinearEquation { normal, distance }
}

/// How far a point lies from the line of an equation.
#[tactic(auto, unfolding(crate::specs::Equation::distance_of))]
pub fn distance(equation: LinearEquation, point: Point) -> i64
    requires tame { Tame equation }
    requires near { Near line_limit point }
    ensures { result ≡ distance_of equation point }
{
    dot_product(point, equation.normal) - equation.distance
}

/// Whether a point lies on the given side of the line of an equation; on the line it lies on both.
#[tactic(auto, unfolding(crate::specs::Equation::is_on_side))]
pub fn check_side(equation: LinearEquation, point: Point, side: Side) -> bool
    requires tame { Tame equation }
    requires near { Near line_limit point }
    ensures { result ≡ is_on_side equation point side }
{
    let far = distance(equation, point);
    match side {
        Side::Left => far <= 0,
        Side::Right => 0 <= far,
    }
}
