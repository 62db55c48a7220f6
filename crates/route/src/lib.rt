//! A route's rows: the columns that its segments light.
#![tactic(auto)]

ghost use Rattle.std.specs.Prelude.{◌≡◌, length};
ghost use Rattle.shapes.specs.Limits.{panel as panel_limits};
ghost use Rattle.shapes.specs.declared.refusals.Refusal.TheVariants.{Room};
ghost use Rattle.route.specs.Rows.{rows_values};
ghost use Rattle.route.specs.Answers.{rows_answer, whole_answer, verdict_values, row_answer, row_to, listing_values};

pub mod inner; // inner.rt: the joins of a route, worked out once, and what is drawn of them

use board::Board;
pub use board::Listed;
use inner::{check_rows, prepare, row_of, rows_of};
use line_join::Join;
use shapes::limits;
use shapes::limits::{ROUTE_POINTS, panel};
use shapes::refusals::Refusal;
pub use thick_segment::Rows;

/// The joins of a route, worked out once for all its rows: the first `count` of `joins`, one at each point. The first `near` of
/// them have all their corners within the limit: all, or those before the first that has not.
#[derive(Clone, Copy, Debug, PartialEq, Eq)]
pub struct Joins {
    pub closed: bool,
    pub count: usize,
    pub near: usize,
    pub joins: [Join; ROUTE_POINTS],
}

/// What `prepare` answers, and the joins: with 5 they are worked out too, with every other refusal there are none.
#[derive(Clone, Copy, Debug, PartialEq, Eq)]
pub struct Prepared {
    pub answer: Result<(), Refusal>,
    pub joins: Joins,
}

/// 8: a row has no room for a segment's span. The board is as it was before that.
#[derive(Clone, Copy, Debug, PartialEq, Eq)]
pub struct Full {
    pub board: Board,
}

/// The refusal alone.
impl From<Full> for Refusal {
    ghost from_gives = { λ _ r. r ≡ Room };

    fn from(_full: Full) -> Refusal {
        Refusal::Room
    }
}

/// The rows of a route: from the first to the last row of the lines that are drawn, so that both are lit and no row outside them is;
/// none where it has no segments. Refused with 1 for an odd number of coordinates, 2 for more than 256 points or a closed route of
/// one, 3 for a width outside 0 to 64, 4 for a coordinate beyond 511, 12 for two consecutive points that are equal, of a closed
/// route also the last and the first, 5 for a join with a corner beyond 4,095, at the position of the first in the order of the walk.
pub fn rows(coordinates: &[i64], width: i64, closed: bool) -> Result<Option<Rows>, Refusal>
    ensures { rows_values result ≡ rows_answer panel_limits closed coordinates.now width }
{
    let Prepared { answer, joins } = prepare(coordinates, width, closed, panel());
    answer?;
    Ok(rows_of(&joins))
}

/// Refuses a route as a whole: as `rows`, and then with 8 if one of its rows needs more than 32 runs after some segment.
pub fn check(coordinates: &[i64], width: i64, closed: bool) -> Result<(), Refusal>
    ensures { verdict_values result ≡ whole_answer panel_limits closed coordinates.now width }
{
    let Prepared { answer, joins } = prepare(coordinates, width, closed, panel());
    answer?;
    check_rows(&joins, rows_of(&joins))
}

/// Writes the runs of a route's row to the front of `out`, start and end of each in turn, and answers their count and the number
/// of their columns; the rest of `out` keeps its content. Refused as `rows`, then with 6 for a row outside 4,095, then
/// with 8 if the row needs more than 32 runs after some segment, or `out` has fewer than two numbers for each run. Refused, `out`
/// is as it was.
pub fn row(
    coordinates: &[i64],
    width: i64,
    closed: bool,
    row: i64,
    out: &mut [i64],
) -> Result<Listed, Refusal>
    ensures value { listing_values result ≡ row_answer panel_limits closed coordinates.now width row (length out.old) }
    ensures list { out.new ≡ row_to panel_limits closed coordinates.now width row out.old }
{
    let Prepared { answer, joins } = prepare(coordinates, width, closed, panel());
    answer?;
    row_of(&joins, row, limits::CORNER, out)
}
