//! The joins of a route, worked out once, and what is drawn of them on a row.
ghost use Rattle.std.specs.Prelude.{◌≡◌, ◌≤◌, ◌<◌, length};
ghost use Rattle.whole.specs.Places.{passed_with};
ghost use Rattle.shapes.specs.Limits.{stroke_limit, line_limit, route_points, Roomy};
ghost use Rattle.shapes.specs.Refusals.{refusal_in, bend_in};
ghost use Rattle.shapes.specs.Strokes.{Thin};
ghost use Rattle.coordinates.specs.Points.{point_count};
ghost use Rattle.coordinates.specs.Refusal.{AllWithin};
ghost use Rattle.route.specs.Joined.{no_join, Kept, joins_of, segments_in, segment_in};
ghost use Rattle.route.specs.Rows.{board_on, board_values, range_of, range_values, with_rows, rows_in, RowsNear, row_count, row_at, rows_refusal};
ghost use Rattle.route.specs.Answers.{no_joins, prepared_of, prepared_values, answer_on, list_on, listing_values};

use crate::{Full, Joins, Prepared};
use board::inner::{empty_board, list_sound, offer_sound};
use board::{Board, Listed};
use coordinates::inner::{check, segments_of};
use line_join::inner::is_join_near;
use line_join::trace::no_crossings;
use line_join::{Corners, Join, Kind};
use route_joins::inner::{end_place, join_count, join_on};
use shapes::limits::{Limits, ROUTE_POINTS};
use shapes::refusals::Refusal;
use shapes::spans::is_empty;
use shapes::{Offset, Point};
use thick_segment::inner::{around, drawn_rows, span};
use thick_segment::{Rows, Segment};
use whole::inner::within;

/// What stands in an array of joins beyond the joins.
fn no_join() -> Join
    ensures { result ≡ no_join }
{
    let zero = Point { x: 0, y: 0 };
    let corners = Corners {
        left: zero,
        right: zero,
    };
    Join {
        kind: Kind::Miter,
        ending: corners,
        starting: corners,
        origins: no_crossings(),
        position: 0,
    }
}

/// The joins of no route.
fn no_joins() -> Joins
    ensures { result ≡ no_joins }
{
    Joins {
        closed: false,
        count: 0,
        near: 0,
        joins: [no_join(); ROUTE_POINTS],
    }
}

/// How many joins, from the first on, have their corners within the limit: `counted` of those before place `i`, and one more if all
/// of those have and the join at that place `passes`.
#[tactic(auto, unfolding(whole::specs::Places::passed_with))]
fn near_with(counted: usize, i: usize, passes: bool) -> usize
    requires { i < route_points }
    ensures { result ≡ passed_with counted i passes }
{
    if passes && counted == i {
        return i + 1;
    }
    counted
}

/// The joins of a route, and how many of them, from the first on, have all their corners within the limit.
pub fn joins_of(coordinates: &[i64], width: i64, closed: bool, limit: u32) -> Joins
    requires all_within { AllWithin stroke_limit coordinates.now }
    requires thin { Thin width }
    requires coordinates_bound { point_count coordinates.now ≤ route_points }
    ensures { result ≡ joins_of limit closed coordinates.now width }
{
    let count = join_count(coordinates);
    let mut joins = [no_join(); ROUTE_POINTS];
    let mut near = 0;
    for i in 0..count {
        let join = join_on(coordinates, width, closed, Offset::None, i);
        near = near_with(near, i, is_join_near(join, limit));
        joins[i] = join;
    }
    Joins {
        closed,
        count,
        near,
        joins,
    }
}

/// The joins of a route, for the entries: every one of them begins so. Refused with 1 to 4, 12 or 5; with 5 come the joins.
pub fn prepare(coordinates: &[i64], width: i64, closed: bool, limits: Limits) -> Prepared
    requires { Roomy limits }
    ensures { prepared_values result ≡ prepared_of limits closed coordinates.now width }
{
    if let Err(refusal) = check(coordinates, width, closed, limits.point) {
        return Prepared {
            answer: Err(refusal),
            joins: no_joins(),
        };
    }
    let joins = joins_of(coordinates, width, closed, limits.corner);
    if joins.near == joins.count {
        return Prepared {
            answer: Ok(()),
            joins,
        };
    }
    let answer = Err(Refusal::Corner(joins.near));
    Prepared { answer, joins }
}

/// The segment from the join at place `i` to the next.
fn segment(route: &Joins, i: usize) -> Segment
    requires kept { Kept line_limit route.now }
    requires i_bound { i < segments_in route.now }
    ensures { result ≡ segment_in route.now i }
{
    Segment {
        start: route.joins[i],
        end: route.joins[end_place(route.count, route.closed, i)],
    }
}

/// The board of a row: the spans of the segments, offered in their order to a fresh board. Refused with 8 at the first span that it
/// has no room for, and the board before that comes with it.
pub fn row_board(route: &Joins, row: i64) -> Result<Board, Full>
    requires { Kept line_limit route.now }
    ensures { board_values result ≡ board_on route.now row }
{
    let mut board = empty_board(row);
    for k in 0..segments_of(route.count, route.closed) {
        let lit = span(segment(route, k), row);
        if !is_empty(lit) {
            let Ok(()) = offer_sound(&mut board, lit) else {
                return Err(Full { board });
            };
        }
    }
    Ok(board)
}

/// The runs of a row, as `row` lists them once it has the joins, with rows from `-limit` to `limit`.
pub fn row_of(route: &Joins, row: i64, limit: u32, out: &mut [i64]) -> Result<Listed, Refusal>
    requires kept { Kept line_limit route.now }
    requires limit_le_line_limit { limit ≤ line_limit }
    ensures value { listing_values result ≡ answer_on limit route.now row (length out.old) }
    ensures list { out.new ≡ list_on limit route.now row out.old }
{
    if !within(row, limit) {
        return Err(Refusal::Row);
    }
    let board = row_board(route, row)?;
    list_sound(&board, out)
}

/// The rows of a route so far, with those of one more segment.
#[tactic(auto, unfolding(crate::specs::Rows::with_rows))]
fn with_rows(range: Option<Rows>, rows: Rows) -> Rows
    ensures { range_of result ≡ with_rows (range_values range) rows }
{
    match range {
        Some(before) => around(before, rows),
        None => rows,
    }
}

/// The rows of a route: from the first to the last row of the lines that are drawn of its segments; none where it has no segments.
pub fn rows_of(route: &Joins) -> Option<Rows>
    requires { Kept line_limit route.now }
    ensures { range_values result ≡ rows_in route.now }
{
    let segments = segments_of(route.count, route.closed);
    let mut rows = None;
    for k in 0..segments {
        rows = Some(with_rows(rows, drawn_rows(segment(route, k))));
    }
    rows
}

/// How many rows there are; none where the route has none.
pub fn row_count(rows: Option<Rows>) -> usize
    requires { RowsNear line_limit (range_values rows) }
    ensures { result ≡ row_count (range_values rows) }
{
    match rows {
        Some(rows) => (rows.last - rows.first + 1) as usize,
        None => 0,
    }
}

/// The row at place `i`, from the first on.
pub fn row_at(rows: Rows, i: usize) -> i64
    requires rows_near { RowsNear line_limit (range_of rows) }
    requires i_bound { i < row_count (range_of rows) }
    ensures { result ≡ row_at (range_of rows) i }
{
    rows.first + i as i64
}

/// Refuses the rows of a route as the first of them is refused that has no room for its runs: with 8.
pub fn check_rows(route: &Joins, rows: Option<Rows>) -> Result<(), Refusal>
    requires kept { Kept line_limit route.now }
    requires rows_near { RowsNear line_limit (range_values rows) }
    ensures number { refusal_in result ≡ rows_refusal route.now (range_values rows) }
    ensures bend { bend_in result ≡ 0 }
{
    let Some(rows) = rows else {
        return Ok(());
    };
    for i in 0..row_count(Some(rows)) {
        row_board(route, row_at(rows, i))?;
    }
    Ok(())
}
