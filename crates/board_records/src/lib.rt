//! A board's runs as records: the second listing of a board.
#![tactic(auto)]

ghost use Rattle.std.specs.Prelude.{◌≡◌, length};
ghost use Rattle.shapes.specs.Limits.{corner_limit};
ghost use Rattle.board.specs.Boards.{listed_values};
ghost use Rattle.board_records.specs.Records.{both_listed, numbers_to, records_to};

pub mod inner; // inner.rt: what is done to each of the two lists

use board::inner::runs_of;
use board::{Board, Listed, Run};
use inner::{copy_runs, list_within};
use shapes::limits::CORNER;
use shapes::refusals::Refusal;

/// Writes the runs to the front of `out`, start and end of each in turn, and then to the front of `records`, and answers their
/// count and the number of their columns; the rest of both lists keeps its content. 6 if the board is none that a fresh board
/// can come to; 8 if `out` has fewer than two numbers, or `records` fewer than one record, for each run. Refused, both lists
/// are as they were.
pub fn list_records(board: &Board, out: &mut [i64], records: &mut [Run]) -> Result<Listed, Refusal>
    ensures { (listed_values result ≡ both_listed corner_limit board.now (length out.old) (length records.old))
        × ((out.new ≡ numbers_to corner_limit board.now out.old (length records.old))
        × (records.new ≡ records_to corner_limit board.now (length out.old) records.old)) }
{
    let listed = list_within(board, CORNER, records.len(), out)?;
    copy_runs(runs_of(board), records);
    Ok(listed)
}
