//! Spans for the crates above: no test of the input. Only a column to be added and a line have to be small enough for 64 bits.
ghost use Rattle.std.specs.Prelude.{◌≡◌};
ghost use Rattle.whole.specs.Number.{Within};
ghost use Rattle.shapes.specs.Limits.{product_limit, line_limit};
ghost use Rattle.shapes.specs.Shape.{LineNear};
ghost use Rattle.scanline.specs.Spans.{extended, touches as touches_of, join, new_span};
ghost use Rattle.scanline.specs.Spans.{joined_values, try_extended, taken_values, try_taken};
ghost use Rattle.scanline.specs.Meeting.{met};

use crate::quotients::{column_at, ends_on, has_row};
use shapes::spans::is_empty;
use shapes::{Line, Span};

/// The shortest span that has the span's columns and one more.
#[tactic(auto, unfolding(crate::specs::Spans::extended))]
pub fn extend(span: Span, column: i64) -> Span
    requires { Within column product_limit }
    ensures { result ≡ extended span column }
{
    if is_empty(span) {
        return Span {
            start: column,
            end: column + 1,
            ..span
        };
    }
    if column < span.start {
        return Span {
            start: column,
            ..span
        };
    }
    if span.end <= column {
        return Span {
            end: column + 1,
            ..span
        };
    }
    span
}

/// The shortest span that has the span's columns and those of the line's points on its row.
pub fn meet(span: Span, line: Line) -> Span
    requires { LineNear line_limit line }
    ensures { result ≡ met span line }
{
    if !has_row(line, span.row) {
        return span;
    }
    let ends = ends_on(line, span.row);
    let first = column_at(line, ends.first);
    let last = column_at(line, ends.last);
    extend(extend(span, first), last)
}

/// Whether two spans that are not empty overlap or are adjacent.
#[tactic(auto, unfolding(crate::specs::Spans::touches))]
fn touches(span: Span, other: Span) -> bool
    ensures { result ≡ touches_of span other }
{
    other.start <= span.end && span.start <= other.end
}

/// The shortest span that has the columns of both, of two that overlap or are adjacent.
#[tactic(auto, using(crate::proofs::Choices::choices))]
fn joined(span: Span, other: Span) -> Span
    ensures { result ≡ join span other }
{
    Span {
        row: span.row,
        start: span.start.min(other.start),
        end: span.end.max(other.end),
    }
}

/// Joins the span with another, and says whether they are joined: an empty span takes the other's start and end; an empty other
/// changes nothing; spans that overlap or are adjacent join; else the span stays, and the answer is no.
#[tactic(auto, unfolding(crate::specs::Spans::try_extended))]
pub fn try_extend(span: &mut Span, other: Span) -> bool
    ensures { joined_values result span.new ≡ try_extended span.old other }
{
    if is_empty(*span) {
        span.start = other.start;
        span.end = other.end;
        return true;
    }
    if is_empty(other) {
        return true;
    }
    if touches(*span, other) {
        *span = joined(*span, other);
        return true;
    }
    false
}

/// Hands out a span that is not empty, and leaves 0 to 0 on its row; an empty span is left as it is.
#[tactic(auto, unfolding(crate::specs::Spans::try_taken))]
pub fn try_take(span: &mut Span) -> Option<Span>
    ensures { taken_values result span.new ≡ try_taken span.old }
{
    if is_empty(*span) {
        return None;
    }
    let handed = *span;
    *span = new_span(handed.row);
    Some(handed)
}

/// A new span on a row: empty, 0 to 0.
pub fn new_span(row: i64) -> Span
    ensures { result ≡ new_span row }
{
    Span {
        row,
        start: 0,
        end: 0,
    }
}
