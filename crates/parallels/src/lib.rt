//! The parallels of a thick line (the Rust's ParallelsIterator, of line/thick_points.rs).
//! The steps are in `inner`; there are no entries here: `thick_points` lists the parallels.
#![tactic(auto)]

pub mod inner; // inner.rt: the parallels, one at a time

use bresenham::{Bresenham, Parameters};
use shapes::{Offset, Side};

/// What stays the same over all parallels of a line.
#[derive(Clone, Copy, Debug, PartialEq, Eq)]
pub struct Plan {
    /// Moves along the parallels.
    pub parallel: Parameters,
    /// Moves across them.
    pub perpendicular: Parameters,
    /// No parallel follows once the accumulator's square is above this.
    pub threshold: i64,
    /// Whether the error of the left parallels falls with an extra step, and that of the right ones does not.
    pub flip: bool,
    pub offset: Offset,
}

/// One side of the line: where its next parallel is looked for, and the error of that parallel's first point.
#[derive(Clone, Copy, Debug, PartialEq, Eq)]
pub struct Flank {
    pub at: Bresenham,
    pub error: i64,
}

/// How far the parallels are: both sides, the accumulated thickness, and the side that is next.
#[derive(Clone, Copy, Debug, PartialEq, Eq)]
pub struct Parallels {
    pub left: Flank,
    pub right: Flank,
    pub accumulator: i64,
    pub side: Side,
}

/// A parallel: its side, the place its walk starts from, and whether it is an Extra one, which is a pixel shorter.
#[derive(Clone, Copy, Debug, PartialEq, Eq)]
pub struct Parallel {
    pub side: Side,
    pub start: Bresenham,
    pub extra: bool,
}

/// An error after an extra step: the one its parallel starts with, the one that is kept, and whether it carried.
#[derive(Clone, Copy, Debug, PartialEq, Eq)]
pub struct Bent {
    pub first: i64,
    pub error: i64,
    pub carry: bool,
}

/// The next parallel of a side, and the side after it.
#[derive(Clone, Copy, Debug, PartialEq, Eq)]
pub struct Taken {
    pub start: Bresenham,
    pub extra: bool,
    pub flank: Flank,
}

/// One step across a side: the parallel that starts there, and whether it is met; else its point is to be passed over.
#[derive(Clone, Copy, Debug, PartialEq, Eq)]
pub struct Turn {
    pub taken: Taken,
    pub met: bool,
}
