//! Points, lines and sides, and the numbers that bound the work.
#![tactic(auto)]

mod display; // display.rt: points, lines and spans as text
pub mod inner; // inner.rt: what is worked out of them
pub mod limits; // limits.rt: 01's table of numbers
pub mod refusals; // refusals.rt: why an entry refuses: 01's table, with K6's 12
pub mod spans; // spans.rt: whether a span is empty, and inside the columns
pub mod strokes; // strokes.rt: widths, and what a stroke's input is refused with

use whole::Division;

/// A point of the screen: columns grow to the right, rows grow downwards.
#[derive(Clone, Copy, Debug, PartialEq, Eq)]
pub struct Point {
    pub x: i64,
    pub y: i64,
}

/// How the divisions come out that give the coordinates of a point.
#[derive(Clone, Copy, Debug, PartialEq, Eq)]
pub struct Divisions {
    pub x: Division,
    pub y: Division,
}

/// A line from its start to its end, both included.
#[derive(Clone, Copy, Debug, PartialEq, Eq)]
pub struct Line {
    pub start: Point,
    pub end: Point,
}

/// A side of a line, for one who stands at its start and looks at its end.
#[derive(Clone, Copy, Debug, PartialEq, Eq)]
pub enum Side {
    Left,
    Right,
}

/// One of each for the left and for the right side of a line.
#[derive(Clone, Copy, Debug, PartialEq, Eq)]
pub struct Sides<T> {
    pub left: T,
    pub right: T,
}

/// Where a stroke lies: on both sides of its line, or on one.
#[derive(Clone, Copy, Debug, PartialEq, Eq)]
pub enum Offset {
    None,
    Left,
    Right,
}

/// Columns of one row, from `start` to `end`, `end` not included; none where `end` is not above `start`.
#[derive(Clone, Copy, Debug, PartialEq, Eq)]
pub struct Span {
    pub row: i64,
    pub start: i64,
    pub end: i64,
}
