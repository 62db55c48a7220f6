//! Why an entry refuses. Each refusal has the number of the table in README, and 5 the position of a bend.
ghost use Rattle.std.specs.Prelude.{◌≡◌};
ghost use Rattle.shapes.specs.Refusals.{number_of, bend_of};

use std::fmt;

/// Why an entry works nothing out.
#[derive(Clone, Copy, Debug, PartialEq, Eq)]
pub enum Refusal {
    /// 9: a route file's form is wrong.
    Form,
    /// 1: a list of coordinates has odd length.
    Odd,
    /// 2: more than 256 points, or a closed route of one point.
    Points,
    /// 3: a width outside 0 to 64.
    Width,
    /// 4: a coordinate outside its limit.
    Coordinate,
    /// 12: two consecutive points of a route are equal.
    Doubled,
    /// 5: a join with a corner outside 4,095; the number is the position of the first that has one.
    Corner(usize),
    /// 6: a row outside 4,095, a board that no fresh board can come to, or two rows that differ.
    Row,
    /// 7: a column outside 4,095.
    Column,
    /// 8: no room.
    Room,
}

impl Refusal {
    /// The refusal's number, which is never 0.
    pub fn number(self) -> u64
        ensures { result ≡ number_of self }
    {
        match self {
            Refusal::Form => 9,
            Refusal::Odd => 1,
            Refusal::Points => 2,
            Refusal::Width => 3,
            Refusal::Coordinate => 4,
            Refusal::Doubled => 12,
            Refusal::Corner(_) => 5,
            Refusal::Row => 6,
            Refusal::Column => 7,
            Refusal::Room => 8,
        }
    }

    /// The position of the bend that comes with 5; 0 with every other number.
    pub fn bend(self) -> usize
        ensures { result ≡ bend_of self }
    {
        match self {
            Refusal::Corner(position) => position,
            _ => 0,
        }
    }
}

/// `refused`, the number, and behind 5 the position of the bend.
impl fmt::Display for Refusal {
    fn fmt<W: fmt::Write>(&self, f: &mut fmt::Formatter<W>) -> fmt::Result {
        match self {
            Refusal::Corner(position) => write!(f, "refused 5 {position}"),
            refusal => write!(f, "refused {}", refusal.number()),
        }
    }
}
