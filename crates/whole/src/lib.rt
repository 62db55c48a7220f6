//! Whole numbers, with no shapes in them: what the port's rules say of numbers alone.
#![tactic(auto)]

pub mod inner;

/// How a division of whole numbers comes out.
#[derive(Clone, Copy, Debug, PartialEq, Eq)]
pub enum Division {
    /// The quotient is a whole number.
    Exact,
    /// The quotient lies half way between two whole numbers.
    Half,
    /// Neither: the nearest whole number is only near.
    Rounded,
}
