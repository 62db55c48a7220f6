//! What the entry does to each of the two lists.
ghost use Rattle.std.specs.Prelude.{◌≡◌, ◌≤◌, length};
ghost use Rattle.shapes.specs.Limits.{line_limit};
ghost use Rattle.board.specs.Boards.{listed_values};
ghost use Rattle.board_records.specs.Records.{both_listed, numbers_to, records_over};

use board::inner::{is_sound, list_sound, runs_of};
use board::{Board, Listed, Run};
use shapes::refusals::Refusal;

/// The listing to numbers alone, where the other list has `room` records, and rows and columns are from `-limit` to `limit`, which is at
/// most 2^14. 6 if the board is none that a fresh board can come to; 8 if `out` has fewer than two numbers for each run, or `room` is less
/// than the number of runs. Refused, `out` is as it was.
pub fn list_within(
    board: &Board,
    limit: u32,
    room: usize,
    out: &mut [i64],
) -> Result<Listed, Refusal>
    requires { limit ≤ line_limit }
    ensures { (listed_values result ≡ both_listed limit board.now (length out.old) room) × (out.new ≡ numbers_to limit board.now out.old room) }
{
    if !is_sound(board, limit) {
        return Err(Refusal::Row);
    }
    if runs_of(board).len() > room {
        return Err(Refusal::Room);
    }
    list_sound(board, out)
}

/// Writes runs to the front of a list of records; the rest of it keeps its content.
#[tactic(auto, unfolding(crate::specs::Records::records_over))]
pub fn copy_runs(runs: &[Run], records: &mut [Run])
    requires { length runs.now ≤ length records.old }
    ensures { records.new ≡ records_over records.old runs.now }
{
    records[..runs.len()].copy_from_slice(runs);
}
