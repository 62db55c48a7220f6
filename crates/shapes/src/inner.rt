//! What is worked out of points and lines, for the crates above. Each function asks for coordinates that are small enough
//! for 64 bits.
ghost use Rattle.std.specs.Prelude.{◌≡◌};
ghost use Rattle.shapes.specs.Limits.{product_limit, line_limit};
ghost use Rattle.shapes.specs.Shape.{Near, LineNear, is_near, is_line_near, same_point, plus as plus_of, minus as minus_of};
ghost use Rattle.shapes.specs.Shape.{quarter_turn, determinant as determinant_of, dot_product, squared_length};
ghost use Rattle.shapes.specs.Shape.{delta as delta_of, perpendicular as perpendicular_of, midpoint as midpoint_of};

use crate::{Line, Point};
use whole::inner::within;

/// Whether both coordinates are from `-limit` to `limit`.
#[tactic(auto, unfolding(crate::specs::Shape::is_near))]
pub fn is_near(p: Point, limit: u32) -> bool
    ensures { result ≡ is_near limit p }
{
    within(p.x, limit) && within(p.y, limit)
}

/// Whether all four coordinates are from `-limit` to `limit`.
#[tactic(auto, unfolding(crate::specs::Shape::is_line_near))]
pub fn is_line_near(line: Line, limit: u32) -> bool
    ensures { result ≡ is_line_near limit line }
{
    is_near(line.start, limit) && is_near(line.end, limit)
}

/// Whether two points are the same.
#[tactic(auto, unfolding(crate::specs::Shape::same_point))]
pub fn same_point(a: Point, b: Point) -> bool
    ensures { result ≡ same_point a b }
{
    a == b
}

/// The sum of two points.
#[tactic(auto, unfolding(crate::specs::Shape::plus))]
pub fn plus(a: Point, b: Point) -> Point
    requires near { Near product_limit a }
    requires near_2 { Near product_limit b }
    ensures { result ≡ plus_of a b }
{
    Point {
        x: a.x + b.x,
        y: a.y + b.y,
    }
}

/// The first point less the second.
#[tactic(auto, unfolding(crate::specs::Shape::minus))]
pub fn minus(a: Point, b: Point) -> Point
    requires near { Near product_limit a }
    requires near_2 { Near product_limit b }
    ensures { result ≡ minus_of a b }
{
    Point {
        x: a.x - b.x,
        y: a.y - b.y,
    }
}

/// A quarter turn about (0,0): (x,y) to (-y,x).
#[tactic(auto, unfolding(crate::specs::Shape::quarter_turn))]
pub fn quarter_turn(p: Point) -> Point
    requires { Near product_limit p }
    ensures { result ≡ quarter_turn p }
{
    Point { x: -p.y, y: p.x }
}

/// The determinant of two points.
#[tactic(auto, unfolding(crate::specs::Shape::determinant))]
pub fn determinant(a: Point, b: Point) -> i64
    requires near { Near product_limit a }
    requires near_2 { Near product_limit b }
    ensures { result ≡ determinant_of a b }
{
    a.x * b.y - a.y * b.x
}

/// The dot product of two points.
#[tactic(auto, unfolding(crate::specs::Shape::dot_product))]
pub fn dot_product(a: Point, b: Point) -> i64
    requires near { Near product_limit a }
    requires near_2 { Near product_limit b }
    ensures { result ≡ dot_product a b }
{
    a.x * b.x + a.y * b.y
}

/// The square of a point's distance from (0,0).
#[tactic(auto, unfolding(crate::specs::Shape::squared_length))]
pub fn squared_length(p: Point) -> i64
    requires { Near product_limit p }
    ensures { result ≡ squared_length p }
{
    dot_product(p, p)
}

/// A line's end less its start.
#[tactic(auto, unfolding(crate::specs::Shape::delta))]
pub fn delta(line: Line) -> Point
    requires { LineNear product_limit line }
    ensures { result ≡ delta_of line }
{
    minus(line.end, line.start)
}

/// The line from the same start whose delta is turned: (x,y) to (y,-x).
#[tactic(auto, unfolding(crate::specs::Shape::perpendicular))]
pub fn perpendicular(line: Line) -> Line
    requires { LineNear line_limit line }
    ensures { result ≡ perpendicular_of line }
{
    let start = line.start;
    let d = delta(line);
    let turned = Point { x: d.y, y: -d.x };
    let end = plus(start, turned);
    Line { start, end }
}

/// The point half way along a line, each half of the delta truncated toward zero.
#[tactic(auto, unfolding(crate::specs::Shape::midpoint))]
pub fn midpoint(line: Line) -> Point
    requires { LineNear line_limit line }
    ensures { result ≡ midpoint_of line }
{
    let d = delta(line);
    let halved = Point {
        x: d.x / 2,
        y: d.y / 2,
    };
    plus(line.start, halved)
}
