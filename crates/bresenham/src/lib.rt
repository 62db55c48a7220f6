//! A walk along a line, a pixel at a time (01's rules W2 to W4): its parameters, its place, and what a step answers.
//! The steps themselves are in `inner`; there are no entries here.
#![tactic(auto)]

pub mod inner; // inner.rt: the steps

use shapes::Point;

/// How a walk goes: with a and b the larger and the smaller absolute delta of its line.
#[derive(Clone, Copy, Debug, PartialEq, Eq)]
pub struct Parameters {
    /// One step along the axis of the larger delta; x where they are equal.
    pub major: Point,
    /// One step along the other axis.
    pub minor: Point,
    /// What a major step adds to the error: 2b.
    pub gain: i64,
    /// What a minor step takes off the error: 2a.
    pub loss: i64,
    /// The error above which a minor step is due: a.
    pub threshold: i64,
}

/// A place of a walk.
#[derive(Clone, Copy, Debug, PartialEq, Eq)]
pub struct Bresenham {
    pub point: Point,
    pub error: i64,
}

/// A point that a step across a line meets, Extra or Normal, and the place after it.
#[derive(Clone, Copy, Debug, PartialEq, Eq)]
pub struct Met {
    pub point: Point,
    pub extra: bool,
    pub state: Bresenham,
}

/// An error after it was moved, and whether it carried.
#[derive(Clone, Copy, Debug, PartialEq, Eq)]
pub struct Carried {
    pub error: i64,
    pub carry: bool,
}
