//! Points, lines and spans as text: their numbers, a space between each two.
use crate::{Line, Point, Span};
use std::fmt;

/// The column and the row.
impl fmt::Display for Point {
    fn fmt<W: fmt::Write>(&self, f: &mut fmt::Formatter<W>) -> fmt::Result {
        write!(f, "{} {}", self.x, self.y)
    }
}

/// The start and the end.
impl fmt::Display for Line {
    fn fmt<W: fmt::Write>(&self, f: &mut fmt::Formatter<W>) -> fmt::Result {
        write!(f, "{} {}", self.start, self.end)
    }
}

/// The row, the start and the end.
impl fmt::Display for Span {
    fn fmt<W: fmt::Write>(&self, f: &mut fmt::Formatter<W>) -> fmt::Result {
        write!(f, "{} {} {}", self.row, self.start, self.end)
    }
}
