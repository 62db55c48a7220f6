//! Segments, for the crates above: no test of the input, but bounds that the caller shows.
ghost use Rattle.std.specs.Prelude.{◌≡◌, ◌≤◌, length, take};
ghost use Rattle.shapes.specs.Limits.{line_limit};
ghost use Rattle.thick_segment.specs.Segments.{SegmentNear, is_segment_near, far_bend, upper_of, lower_of, top_of, bottom_of, is_skeleton, edges_of};
ghost use Rattle.thick_segment.specs.Segments.{least as least_of, most as most_of, box_of, union as union_of, bounding_box};
ghost use Rattle.thick_segment.specs.Segments.{coordinates as coordinates_of, cap_lines, placed, count_of, line_at, AllNear, met_rows, perimeter_of, span_on};
ghost use Rattle.thick_segment.specs.Rows.{line_rows, around as around_of, with_lines, drawn_rows};

use crate::{EdgePair, Rectangle, Rows, Segment};
use line_join::inner::{end_caps, is_join_near, start_caps};
use line_join::{Caps, Corners, Join};
use scanline::inner::meet;
use shapes::{Line, Point, Span};

/// Whether all corners of both joins are within `limit`: if not, the segment is refused with 5.
#[tactic(auto, unfolding(crate::specs::Segments::is_segment_near))]
pub fn is_segment_near(segment: Segment, limit: u32) -> bool
    ensures { result ≡ is_segment_near limit segment }
{
    is_join_near(segment.start, limit) && is_join_near(segment.end, limit)
}

/// The position of the first join of a segment, the start join before the end join, that has a corner beyond `limit`; 0 where
/// neither has.
#[tactic(auto, unfolding(crate::specs::Segments::far_bend))]
pub fn far_bend(segment: Segment, limit: u32) -> usize
    ensures { result ≡ far_bend limit segment }
{
    if !is_join_near(segment.start, limit) {
        return segment.start.position;
    }
    if !is_join_near(segment.end, limit) {
        return segment.end.position;
    }
    0
}

/// Whether a segment is one pixel wide: the left and the right corner at which the line before its start join ends are one.
#[tactic(auto, unfolding(crate::specs::Segments::is_skeleton, shapes::specs::Shape::same_point))]
pub fn is_skeleton(segment: Segment) -> bool
    ensures { result ≡ is_skeleton segment }
{
    let corners = segment.start.ending;
    corners.left == corners.right
}

/// The edges of a segment: the right one along it, the left one back.
#[tactic(auto, unfolding(crate::specs::Segments::edges_of))]
pub fn edges(segment: Segment) -> EdgePair
    ensures { result ≡ edges_of segment }
{
    let starting = segment.start.starting;
    let ending = segment.end.ending;
    EdgePair {
        right: Line {
            start: starting.right,
            end: ending.right,
        },
        left: Line {
            start: ending.left,
            end: starting.left,
        },
    }
}

/// The point of the lesser of each coordinate.
#[tactic(auto, unfolding(whole::specs::Number::lesser, crate::specs::Segments::least))]
fn least(a: Point, b: Point) -> Point
    ensures { result ≡ least_of a b }
{
    Point {
        x: a.x.min(b.x),
        y: a.y.min(b.y),
    }
}

/// The point of the greater of each coordinate.
fn most(a: Point, b: Point) -> Point
    ensures { result ≡ most_of a b }
{
    Point {
        x: a.x.max(b.x),
        y: a.y.max(b.y),
    }
}

/// The box around a line.
#[tactic(auto, unfolding(crate::specs::Segments::box_of))]
fn box_of(line: Line) -> Rectangle
    ensures { result ≡ box_of line }
{
    Rectangle {
        first: least(line.start, line.end),
        last: most(line.start, line.end),
    }
}

/// The box around two boxes.
#[tactic(auto, unfolding(crate::specs::Segments::union))]
fn union(a: Rectangle, b: Rectangle) -> Rectangle
    ensures { result ≡ union_of a b }
{
    Rectangle {
        first: least(a.first, b.first),
        last: most(a.last, b.last),
    }
}

/// The box around a segment's edges; around a skeleton's left edge alone, as the Rust has it.
#[tactic(auto, unfolding(crate::specs::Segments::bounding_box))]
pub fn edges_bounding_box(segment: Segment) -> Rectangle
    ensures { result ≡ bounding_box segment }
{
    let e = edges(segment);
    if is_skeleton(segment) {
        return box_of(e.left);
    }
    union(box_of(e.right), box_of(e.left))
}

/// A line's four coordinates.
fn coordinates(line: Line) -> [i64; 4]
    ensures { result ≡ coordinates_of line }
{
    [line.start.x, line.start.y, line.end.x, line.end.y]
}

/// How many lines close an end.
fn cap_count(caps: Caps) -> usize
    ensures { result ≡ length (cap_lines caps) }
{
    match caps {
        Caps::One(_) => 1,
        Caps::Two(_, _) => 2,
    }
}

/// How many lines of a segment are drawn: one of a skeleton, else four to six.
#[tactic(auto, unfolding(crate::specs::Segments::count_of, crate::specs::Segments::drawn))]
pub fn perimeter_count(segment: Segment) -> usize
    requires { SegmentNear line_limit segment }
    ensures { result ≡ count_of segment }
{
    if is_skeleton(segment) {
        return 1;
    }
    cap_count(start_caps(segment.start)) + cap_count(end_caps(segment.end)) + 2
}

/// Writes the coordinates of the lines that close an end from row `at` on.
#[tactic(auto, unfolding(crate::specs::Segments::placed))]
fn put_caps(rows: &mut [[i64; 4]; 6], at: usize, caps: Caps)
    requires { at ≤ 4 }
    ensures { rows.new ≡ placed rows.old at (cap_lines caps) }
{
    match caps {
        Caps::One(a) => rows[at] = coordinates(a),
        Caps::Two(a, b) => {
            rows[at] = coordinates(a);
            rows[at + 1] = coordinates(b);
        }
    }
}

/// The line of four coordinates.
fn line_at(row: [i64; 4]) -> Line
    ensures { result ≡ line_at row }
{
    Line {
        start: Point {
            x: row[0],
            y: row[1],
        },
        end: Point {
            x: row[2],
            y: row[3],
        },
    }
}

/// The first `n` lines of a list, met by a span in their order.
#[tactic(auto, unfolding(crate::specs::Segments::met_rows))]
fn scan(span: Span, lines: &[[i64; 4]; 6], n: usize) -> Span
    requires n_bound { n ≤ 6 }
    requires all_near { AllNear line_limit lines.now }
    ensures { result ≡ met_rows span (take n lines.now) }
{
    let mut met = span;
    for i in 0..n {
        met = meet(met, line_at(lines[i]));
    }
    met
}

/// The lines of a segment that are drawn, four coordinates each; behind them zeros.
#[tactic(auto, unfolding(crate::specs::Segments::perimeter_of, crate::specs::Segments::drawn, crate::specs::Segments::rows_of, crate::specs::Segments::placed))]
pub fn perimeter(segment: Segment) -> [[i64; 4]; 6]
    requires { SegmentNear line_limit segment }
    ensures { result ≡ perimeter_of segment }
{
    let e = edges(segment);
    let mut rows = [[0; 4]; 6];
    if is_skeleton(segment) {
        rows[0] = coordinates(e.right);
        return rows;
    }
    let first = start_caps(segment.start);
    let last = end_caps(segment.end);
    let after_start = cap_count(first);
    let after_end = after_start + cap_count(last);
    put_caps(&mut rows, 0, first);
    put_caps(&mut rows, after_start, last);
    rows[after_end] = coordinates(e.right);
    rows[after_end + 1] = coordinates(e.left);
    rows
}

/// The rows of a line's ends: the lesser, and the greater.
#[tactic(auto, unfolding(whole::specs::Number::lesser, whole::specs::Number::greater))]
fn line_rows(line: Line) -> Rows
    ensures { result ≡ line_rows line }
{
    Rows {
        first: line.start.y.min(line.end.y),
        last: line.start.y.max(line.end.y),
    }
}

/// The rows from the first to the last of two.
#[tactic(auto, unfolding(whole::specs::Number::lesser, whole::specs::Number::greater, crate::specs::Rows::around))]
pub fn around(a: Rows, b: Rows) -> Rows
    ensures { result ≡ around_of a b }
{
    Rows {
        first: a.first.min(b.first),
        last: a.last.max(b.last),
    }
}

/// The rows, with those of the lines that close an end.
#[tactic(auto, unfolding(crate::specs::Rows::with_lines))]
fn with_cap_rows(rows: Rows, caps: Caps) -> Rows
    ensures { result ≡ with_lines rows (cap_lines caps) }
{
    match caps {
        Caps::One(a) => around(rows, line_rows(a)),
        Caps::Two(a, b) => around(around(rows, line_rows(a)), line_rows(b)),
    }
}

/// The first and the last row of the lines that are drawn.
pub fn drawn_rows(segment: Segment) -> Rows
    requires { SegmentNear line_limit segment }
    ensures { result ≡ drawn_rows segment }
{
    let e = edges(segment);
    if is_skeleton(segment) {
        return line_rows(e.right);
    }
    let first = start_caps(segment.start);
    let last = end_caps(segment.end);
    let capped = with_cap_rows(with_cap_rows(line_rows(e.right), first), last);
    around(capped, line_rows(e.left))
}

/// The lesser row of two corners.
#[tactic(auto, unfolding(whole::specs::Number::lesser))]
fn upper(corners: Corners) -> i64
    ensures { result ≡ upper_of corners }
{
    corners.left.y.min(corners.right.y)
}

/// The greater row of two corners.
#[tactic(auto, unfolding(whole::specs::Number::greater))]
fn lower(corners: Corners) -> i64
    ensures { result ≡ lower_of corners }
{
    corners.left.y.max(corners.right.y)
}

/// The least row of a join's corners.
#[tactic(auto, unfolding(whole::specs::Number::lesser, crate::specs::Segments::top_of))]
fn top(join: Join) -> i64
    ensures { result ≡ top_of join }
{
    upper(join.ending).min(upper(join.starting))
}

/// The greatest row of a join's corners.
fn bottom(join: Join) -> i64
    ensures { result ≡ bottom_of join }
{
    lower(join.ending).max(lower(join.starting))
}

/// The span of a segment on a row: empty, 0 to 0, where none of its drawn lines has a point there. No line is looked at if the row
/// lies above or below all corners.
pub fn span(segment: Segment, row: i64) -> Span
    requires { SegmentNear line_limit segment }
    ensures { result ≡ span_on segment row }
{
    let empty = Span {
        row,
        start: 0,
        end: 0,
    };
    let first = top(segment.start).min(top(segment.end));
    let last = bottom(segment.start).max(bottom(segment.end));
    if row < first || last < row {
        return empty;
    }
    scan(empty, &perimeter(segment), perimeter_count(segment))
}
