//! Spans of a row: a new span, one made longer by a column or by the points of a line, two joined, and one handed out.
//! `scanline.rs`, and 01's rule W6.
#![tactic(auto)]

ghost use Rattle.std.specs.Prelude.{◌≡◌};
ghost use Rattle.shapes.specs.Limits.{corner_limit};
ghost use Rattle.shapes.specs.Refusals.{refusal_in};
ghost use Rattle.scanline.specs.Answers.{row_refusal, span_refusal, extend_refusal, meet_refusal, join_refusal};
ghost use Rattle.scanline.specs.Answers.{fresh_values, span_values, try_extend_values, try_take_values};
ghost use Rattle.scanline.specs.Answers.{fresh_answer, extend_answer, meet_answer, try_extend_answer, try_take_answer};

pub mod inner; // inner.rt: the same without the tests
pub mod quotients; // quotients.rt: a line's first and last column on a row

use shapes::inner::is_line_near;
use shapes::limits::CORNER;
use shapes::refusals::Refusal;
use shapes::spans::is_sound;
use shapes::{Line, Span};
use whole::inner::within;

/// A new span on a row: empty, 0 to 0. A row outside 4,095 is refused with 6.
#[tactic(auto, unfolding(crate::specs::Answers::fresh_answer))]
pub fn fresh(row: i64) -> Result<Span, Refusal>
    ensures { fresh_values result ≡ fresh_answer corner_limit row }
{
    if !within(row, CORNER) {
        return Err(Refusal::Row);
    }
    Ok(inner::new_span(row))
}

/// Makes a span the shortest that has its columns and one more. A row outside 4,095 is refused with 6; then a span with a
/// column outside 4,095, and such a column to be added, with 7. A refused span is as it was.
#[tactic(auto, using(crate::proofs::Answers::room), unfolding(crate::specs::Answers::extend_answer))]
pub fn extend(span: &mut Span, column: i64) -> Result<(), Refusal>
    ensures { span_values result span.new ≡ extend_answer corner_limit span.old column }
{
    check_extend(*span, column)?;
    *span = inner::extend(*span, column);
    Ok(())
}

/// Makes a span the shortest that has its columns and those of the line's points on its row. A line with a coordinate beyond
/// 4,095 is refused with 4; then a row outside 4,095 with 6; then a span with a column outside 4,095 with 7. A refused span is
/// as it was.
#[tactic(auto, using(crate::proofs::Answers::room), unfolding(crate::specs::Answers::meet_answer))]
pub fn meet(span: &mut Span, line: Line) -> Result<(), Refusal>
    ensures { span_values result span.new ≡ meet_answer corner_limit span.old line }
{
    check_meet(*span, line)?;
    *span = inner::meet(*span, line);
    Ok(())
}

/// Joins a span with another, and says whether they are joined. An empty span takes the other's start and end; an empty other
/// changes nothing; spans that overlap or are adjacent join; else the span stays, and the answer is no. A row outside 4,095 and
/// two rows that differ are refused with 6; then a span with a column outside 4,095 with 7. A refused span is as it was.
#[tactic(auto, unfolding(crate::specs::Answers::try_extend_answer))]
pub fn try_extend(span: &mut Span, other: Span) -> Result<bool, Refusal>
    ensures { try_extend_values result span.new ≡ try_extend_answer corner_limit span.old other }
{
    check_join(*span, other)?;
    Ok(inner::try_extend(span, other))
}

/// Hands out a span that is not empty, and leaves 0 to 0 on its row; an empty span is left as it is. A row outside 4,095 is
/// refused with 6; then a span with a column outside 4,095 with 7. A refused span is as it was.
#[tactic(auto, unfolding(crate::specs::Answers::try_take_answer))]
pub fn try_take(span: &mut Span) -> Result<Option<Span>, Refusal>
    ensures { try_take_values result span.new ≡ try_take_answer corner_limit span.old }
{
    check_span(*span)?;
    Ok(inner::try_take(span))
}

/// Refuses a span alone: 6, then 7.
#[tactic(auto, unfolding(crate::specs::Answers::span_refusal))]
fn check_span(span: Span) -> Result<(), Refusal>
    ensures { refusal_in result ≡ span_refusal corner_limit span }
{
    check_row(within(span.row, CORNER), is_sound(span, CORNER))
}

/// Refuses a span and a column: 6, then 7.
#[tactic(auto, unfolding(crate::specs::Answers::extend_refusal))]
fn check_extend(span: Span, column: i64) -> Result<(), Refusal>
    ensures { refusal_in result ≡ extend_refusal corner_limit span column }
{
    check_row(
        within(span.row, CORNER),
        is_sound(span, CORNER) && within(column, CORNER),
    )
}

/// Refuses two spans: 6, then 7.
#[tactic(auto, unfolding(crate::specs::Answers::join_refusal))]
fn check_join(span: Span, other: Span) -> Result<(), Refusal>
    ensures { refusal_in result ≡ join_refusal corner_limit span other }
{
    check_row(
        within(span.row, CORNER) && span.row == other.row,
        is_sound(span, CORNER) && is_sound(other, CORNER),
    )
}

/// Refuses a span and a line: 4, then 6, then 7.
#[tactic(auto, unfolding(crate::specs::Answers::meet_refusal))]
fn check_meet(span: Span, line: Line) -> Result<(), Refusal>
    ensures { refusal_in result ≡ meet_refusal corner_limit span line }
{
    if !is_line_near(line, CORNER) {
        return Err(Refusal::Coordinate);
    }
    check_span(span)
}

/// Refuses with 6 where the row is not right; then with 7 where some column is not inside.
fn check_row(right: bool, inside: bool) -> Result<(), Refusal>
    ensures { refusal_in result ≡ row_refusal right inside }
{
    if !right {
        return Err(Refusal::Row);
    }
    if !inside {
        return Err(Refusal::Column);
    }
    Ok(())
}
