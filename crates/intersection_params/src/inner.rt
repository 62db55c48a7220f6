//! The crossing of two lines, for the crates above: no test of the input, but bounds that the caller shows.
ghost use Rattle.std.specs.Prelude.{◌≡◌, ◌≢◌, pos};
ghost use Rattle.shapes.specs.Limits.{line_limit};
ghost use Rattle.shapes.specs.Shape.{LineNear};
ghost use Rattle.linear_equation.specs.Equation.{Tame};
ghost use Rattle.intersection_params.specs.Crossing.{Roomy, cramer_of, solution_of, side_of, drawn_of, divisions_of, found_of, nearly_colinear};

use crate::{Crossed, Intersection, Solution};
use linear_equation::LinearEquation;
use linear_equation::inner::from_line;
use shapes::inner::{delta, determinant, dot_product};
use shapes::{Divisions, Line, Point, Side};
use whole::inner::{division, magnitude, rounded};

/// The determinant and the two numerators of the crossing, by Cramer's rule on the equations of the lines.
#[tactic(auto, unfolding(crate::specs::Crossing::cramer_of))]
pub fn cramer(a: LinearEquation, b: LinearEquation) -> Solution
    requires tame { Tame a }
    requires tame_2 { Tame b }
    ensures { result ≡ cramer_of a b }
{
    let distances = Point {
        x: a.distance,
        y: b.distance,
    };
    let xs = Point {
        x: a.normal.x,
        y: b.normal.x,
    };
    let ys = Point {
        x: a.normal.y,
        y: b.normal.y,
    };
    Solution {
        determinant: determinant(a.normal, b.normal),
        x: determinant(distances, ys),
        y: determinant(xs, distances),
    }
}

/// The true crossing of two lines, not rounded.
pub fn solve(first: Line, second: Line) -> Solution
    requires line_near { LineNear line_limit first }
    requires line_near_2 { LineNear line_limit second }
    ensures { result ≡ solution_of first second }
{
    cramer(from_line(first), from_line(second))
}

/// The outer side of a bend whose determinant is not 0.
pub fn outer_side(determinant: i64) -> Side
    ensures { result ≡ side_of determinant }
{
    if determinant < 0 {
        Side::Left
    } else {
        Side::Right
    }
}

/// A solution, rounded to the nearest whole coordinates.
pub fn drawn(solution: Solution) -> Intersection
    requires { Roomy solution }
    ensures { result ≡ drawn_of solution }
{
    let determinant = solution.determinant;
    if determinant == 0 {
        return Intersection::Colinear;
    }
    let point = Point {
        x: rounded(solution.x, determinant),
        y: rounded(solution.y, determinant),
    };
    let side = outer_side(determinant);
    Intersection::At(point, side)
}

/// How the coordinates of a solution come out whose determinant is not 0.
#[tactic(auto, unfolding(crate::specs::Crossing::divisions_of))]
pub fn divisions(solution: Solution) -> Divisions
    requires roomy { Roomy solution }
    requires determinant_nonzero { solution.determinant ≢ pos 0 }
    ensures { result ≡ divisions_of solution }
{
    let determinant = solution.determinant;
    Divisions {
        x: division(solution.x, determinant),
        y: division(solution.y, determinant),
    }
}

/// A solution as an answer; never a refusal.
pub fn found(solution: Solution) -> Crossed
    requires { Roomy solution }
    ensures { result ≡ found_of solution }
{
    let Intersection::At(point, side) = drawn(solution) else {
        return Crossed::Colinear;
    };
    Crossed::At(point, side, divisions(solution))
}

/// Whether two lines run nearly the same way.
pub fn nearly_colinear(first: Line, second: Line) -> bool
    requires line_near { LineNear line_limit first }
    requires line_near_2 { LineNear line_limit second }
    ensures { result ≡ nearly_colinear first second }
{
    let d = solve(first, second).determinant;
    let dot = dot_product(delta(first), delta(second));
    d * d < magnitude(dot)
}
