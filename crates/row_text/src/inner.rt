//! The lines of a file that is not refused.
ghost use Rattle.std.specs.Prelude.{◌≡◌, ◌≤◌};
ghost use Rattle.whole.specs.Number.{Within};
ghost use Rattle.shapes.specs.Limits.{line_limit, board_runs, Roomy};
ghost use Rattle.route_file.specs.Form.{Formed};
ghost use Rattle.route.specs.Joined.{Kept};
ghost use Rattle.route.specs.Rows.{RowsNear, board_on, range_values, rows_refusal};
ghost use Rattle.route.specs.Answers.{whole_answer, verdict_of};
ghost use Rattle.row_text.specs.Pixels.{lit_on, lit_in, route_pixels, entry_pixels, all_pixels};

use board::inner::{runs_of, total_of};
use board::{Board, Run};
use route::inner::{check_rows, prepare, row_at, row_board, row_count, rows_of};
use route::{Joins, Prepared, Rows};
use route_file::inner::count_of;
use shapes::limits::Limits;
use shapes::refusals::Refusal;
use writing::{say, say_count, say_next, say_refused};

/// Prints the line of a run: its route, its row, its start and its end.
fn print_run(k: usize, row: i64, run: Run) {
    say_count(k as u64);
    say_next(row);
    say_next(run.start);
    say_next(run.end);
    say(b"\n");
}

/// Prints the lines of a board's runs.
fn print_runs(k: usize, board: &Board)
    requires { board.now.count ≤ board_runs }
{
    for run in runs_of(board) {
        print_run(k, board.row, *run);
    }
}

/// Prints the runs of a row that has room for them, and answers their pixels.
fn print_row(k: usize, route: &Joins, row: i64) -> i64
    requires kept { Kept line_limit route.now }
    requires within { Within row line_limit }
    requires row_value { (board_on route.now row).refusal ≡ 0 }
    ensures { result ≡ lit_on route.now row }
{
    let board = row_board(route, row).unwrap();
    print_runs(k, &board);
    total_of(&board)
}

/// Prints the runs of a route that has no refused row, rows ascending, and answers their pixels.
fn print_rows(k: usize, route: &Joins, rows: Option<Rows>) -> i64
    requires kept { Kept line_limit route.now }
    requires rows_near { RowsNear line_limit (range_values rows) }
    requires rows_value { rows_refusal route.now (range_values rows) ≡ 0 }
    ensures { result ≡ lit_in route.now (range_values rows) }
{
    let Some(rows) = rows else {
        return 0;
    };
    let mut total = 0;
    for i in 0..row_count(Some(rows)) {
        let row = row_at(rows, i);
        total += print_row(k, route, row);
    }
    total
}

/// Prints the line of a refused route; behind 5 stands the position of the bend. The route is handed in for the promise alone that
/// the refusal is its own.
fn print_refused(
    k: usize,
    coordinates: &[i64],
    width: i64,
    closed: bool,
    limits: Limits,
    refusal: Refusal,
)
    requires { verdict_of refusal ≡ whole_answer limits closed coordinates.now width }
{
    say_count(k as u64);
    say(b" ");
    say_refused(refusal);
    say(b"\n");
}

/// Prints the lines of route `k`: its runs, or the one line of its refusal. Answers the pixels of the runs.
fn print_route(k: usize, coordinates: &[i64], width: i64, closed: bool, limits: Limits) -> i64
    requires { Roomy limits }
    ensures { result ≡ route_pixels limits closed coordinates.now width }
{
    let Prepared { answer, joins } = prepare(coordinates, width, closed, limits);
    if let Err(refusal) = answer {
        print_refused(k, coordinates, width, closed, limits, refusal);
        return 0;
    }
    let rows = rows_of(&joins);
    if let Err(refusal) = check_rows(&joins, rows) {
        print_refused(k, coordinates, width, closed, limits, refusal);
        return 0;
    }
    print_rows(k, &joins, rows)
}

/// Prints the lines of the route that stands at place `k` of a file, and answers the pixels of its runs.
fn print_entry(file: &[u8], k: usize, limits: Limits) -> i64
    requires formed { Formed file.now }
    requires roomy { Roomy limits }
    ensures { result ≡ entry_pixels limits file.now k }
{
    let Some(entry) = route_file::entry(file, k).unwrap() else {
        return 0;
    };
    let mut room = [0i64; 32768];
    let count = route_file::points(file, k, &mut room).unwrap();
    print_route(k, &room[..count], entry.width, entry.closed, limits)
}

/// Prints the number of a file's routes and the lines of each, and answers the pixels of their runs.
pub fn print_routes(file: &[u8], limits: Limits) -> i64
    requires formed { Formed file.now }
    requires roomy { Roomy limits }
    ensures { result ≡ all_pixels limits file.now }
{
    let n = count_of(file);
    say(b"routes ");
    say_count(n as u64);
    say(b"\n");
    let mut total = 0;
    for k in 0..n {
        total += print_entry(file, k, limits);
    }
    total
}
