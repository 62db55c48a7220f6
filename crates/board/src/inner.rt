//! What the entries do once their input is tested, for the crates above.
ghost use Rattle.std.specs.Prelude.{◌≡◌, [], ◌*◌, ◌≤◌, length};
ghost use Rattle.shapes.specs.Limits.{board_runs, line_limit};
ghost use Rattle.board.specs.Runs.{edge, is_ascending, with_run, total};
ghost use Rattle.board.specs.Runs.{follows as follows_of, joined as joined_of};
ghost use Rattle.board.specs.Boards.{live, board_of, Sound, is_sound, answer_values, listed_values, added, told, told_to, over};
ghost use Rattle.board.specs.Fronts.{Gathered, whole_of};

use crate::{Board, Listed, Run};
use shapes::Span;
use shapes::limits::BOARD_RUNS;
use shapes::refusals::Refusal;
use shapes::spans::is_empty;
use whole::inner::within;

/// What stands in a board's array where there is no run.
const NO_RUN: Run = Run { start: 0, end: 0 };

/// An offer half done: the first `count` of `runs` are the answer's, then comes `run`, then the board's runs from `next` on.
#[derive(Clone, Copy, Debug, PartialEq, Eq)]
struct Front {
    runs: [Run; BOARD_RUNS],
    count: usize,
    run: Run,
    next: usize,
}

/// A row with no runs.
#[tactic(auto, unfolding(crate::specs::Boards::board_of, crate::specs::Boards::padded))]
pub fn empty_board(row: i64) -> Board
    ensures { result ≡ board_of row [] }
{
    Board {
        row,
        count: 0,
        runs: [NO_RUN; BOARD_RUNS],
    }
}

/// A board's runs.
#[tactic(auto, unfolding(crate::specs::Boards::live))]
pub fn runs_of(board: &Board) -> &[Run]
    requires { board.now.count ≤ board_runs }
    ensures { result.now ≡ live board.now }
{
    &board.runs[..board.count]
}

/// Whether a run comes after the column `last`, which stays dark, is not empty, and ends inside the columns.
#[tactic(auto, using(crate::proofs::Edges::past), unfolding(crate::specs::Runs::follows))]
fn follows(limit: u32, last: i64, run: Run) -> bool
    ensures { result ≡ follows_of limit last run }
{
    last < run.start && run.start < run.end && run.end <= limit as i64 + 1
}

/// Whether the runs ascend inside the columns, none empty, with a dark column between neighbours.
fn is_ascending(board: &Board, limit: u32) -> bool
    requires { board.now.count ≤ board_runs }
    ensures { result ≡ is_ascending limit (edge limit) (live board.now) }
{
    let mut last = -(limit as i64) - 1;
    for &run in runs_of(board) {
        if !follows(limit, last, run) {
            return false;
        }
        last = run.end;
    }
    true
}

/// Whether a fresh board can come to this one, where rows and columns are from `-limit` to `limit`.
#[tactic(auto, unfolding(crate::specs::Boards::is_sound))]
pub fn is_sound(board: &Board, limit: u32) -> bool
    ensures { result ≡ is_sound limit board.now }
{
    board.count <= BOARD_RUNS && within(board.row, limit) && is_ascending(board, limit)
}

/// What two runs become that touch or overlap.
fn joined(a: Run, b: Run) -> Run
    ensures { result ≡ joined_of a b }
{
    Run {
        start: a.start.min(b.start),
        end: a.end.max(b.end),
    }
}

/// The board's runs before `run`, and `run` with all that it touches or overlaps.
fn front_of(board: &Board, run: Run) -> Front
    requires { board.now.count ≤ board_runs }
    ensures { Gathered result (live board.now) (with_run run (live board.now)) }
{
    let mut front = Front {
        runs: [NO_RUN; BOARD_RUNS],
        count: 0,
        run,
        next: 0,
    };
    for &other in runs_of(board) {
        if front.run.end < other.start {
            return front;
        }
        front.next += 1;
        if other.end < front.run.start {
            front.runs[front.count] = other;
            front.count += 1;
        } else {
            front.run = joined(front.run, other);
        }
    }
    front
}

/// Ends an offer that is half done: the board's runs are those of the front, its run, and then the board's own that are left.
fn fill(board: &mut Board, mut front: Front)
    requires count_le_board_runs { board.old.count ≤ board_runs }
    requires gathered { Gathered front (live board.old) (whole_of front (live board.old)) }
    requires board_len_bound { length (whole_of front (live board.old)) ≤ board_runs }
    ensures { board.new ≡ board_of board.old.row (whole_of front (live board.old)) }
{
    let rest = &runs_of(board)[front.next..];
    let next = front.count + 1;
    let count = next + rest.len();
    front.runs[front.count] = front.run;
    front.runs[next..count].copy_from_slice(rest);
    board.runs = front.runs;
    board.count = count;
}

/// An offer that makes no test: lights the span's columns as well; 8, and the board is as it was, if the union needs more than
/// 32 runs. An empty span changes nothing.
pub fn offer_sound(board: &mut Board, span: Span) -> Result<(), Refusal>
    requires { board.old.count ≤ board_runs }
    ensures { answer_values result board.new ≡ added board.old span }
{
    if is_empty(span) {
        return Ok(());
    }
    let front = front_of(board, Run::from(span));
    if front.count + (board.count - front.next) >= BOARD_RUNS {
        return Err(Refusal::Room);
    }
    fill(board, front);
    Ok(())
}

/// The number of lit columns of a board whose row and columns are within 2^14.
pub fn total_of(board: &Board) -> i64
    requires { Sound line_limit board.now }
    ensures { result ≡ total (live board.now) }
{
    let mut total = 0;
    for run in runs_of(board) {
        total += run.end - run.start;
    }
    total
}

/// Writes the runs to the front of a list, start and end of each in turn.
fn write_runs(board: &Board, out: &mut [i64])
    requires count_le_board_runs { board.now.count ≤ board_runs }
    requires count_in_bounds { 2 * board.now.count ≤ length out.old }
    ensures { out.new ≡ over out.old (live board.now) }
{
    for (i, run) in runs_of(board).iter().enumerate() {
        out[2 * i] = run.start;
        out[2 * i + 1] = run.end;
    }
}

/// A listing that makes no test of the board, whose row and columns are within 2^14: writes the runs to the front of `out` and
/// answers their count and the number of their columns; 8, and `out` as it was, if it has fewer than two numbers for each run.
pub fn list_sound(board: &Board, out: &mut [i64]) -> Result<Listed, Refusal>
    requires { Sound line_limit board.now }
    ensures { (listed_values result ≡ told board.now (length out.old)) × (out.new ≡ told_to board.now out.old) }
{
    if out.len() < 2 * board.count {
        return Err(Refusal::Room);
    }
    write_runs(board, out);
    Ok(Listed {
        count: board.count,
        total: total_of(board),
    })
}
