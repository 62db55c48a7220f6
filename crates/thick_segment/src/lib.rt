//! A thick segment between two joins: whether it is a skeleton, its edges and their bounding box, the lines that are drawn and their
//! rows, and its span on a row. `thick_segment.rs`. The position that comes with 5 is that of the join with a corner beyond 4,095,
//! of the start join if both have one.
#![tactic(auto)]

ghost use Rattle.std.specs.Prelude.{◌≡◌};
ghost use Rattle.shapes.specs.Limits.{corner_limit};
ghost use Rattle.thick_segment.specs.Answers.{skeleton_values, edges_values, box_values, count_values, drawn_rows_values, span_values, if_near};
ghost use Rattle.thick_segment.specs.Answers.{skeleton_answer, edges_answer, box_answer, perimeter_answer, count_answer, drawn_rows_answer, span_answer};

pub mod inner; // inner.rt: the same without the tests

use inner::{far_bend, is_segment_near};
use line_join::Join;
use shapes::limits::CORNER;
use shapes::refusals::Refusal;
use shapes::{Line, Point, Sides, Span};
use whole::inner::within;

/// A thick line from the join at its start to the join at its end.
#[derive(Clone, Copy, Debug, PartialEq, Eq)]
pub struct Segment {
    pub start: Join,
    pub end: Join,
}

/// The two long edges of a segment: the right one runs along it, the left one back.
pub type EdgePair = Sides<Line>;

/// A box by its corners of least and of greatest coordinates, both included.
#[derive(Clone, Copy, Debug, PartialEq, Eq)]
pub struct Rectangle {
    pub first: Point,
    pub last: Point,
}

/// Rows from `first` to `last`, both included.
#[derive(Clone, Copy, Debug, PartialEq, Eq)]
pub struct Rows {
    pub first: i64,
    pub last: i64,
}

/// Whether a segment is one pixel wide. A join with a corner beyond 4,095 is refused with 5.
#[tactic(auto, unfolding(crate::specs::Answers::if_near, crate::specs::Answers::skeleton_answer))]
pub fn is_skeleton(segment: Segment) -> Result<bool, Refusal>
    ensures { skeleton_values result ≡ skeleton_answer corner_limit segment }
{
    check_near(segment)?;
    Ok(inner::is_skeleton(segment))
}

/// The lines of a segment that are drawn, four coordinates each; behind them zeros. Zeros throughout where a join has a corner
/// beyond 4,095: `perimeter_count` tells.
#[tactic(auto, unfolding(crate::specs::Answers::perimeter_answer, crate::specs::Segments::rows_of))]
pub fn perimeter(segment: Segment) -> [[i64; 4]; 6]
    ensures { result ≡ perimeter_answer corner_limit segment }
{
    if !is_segment_near(segment, CORNER) {
        return [[0; 4]; 6];
    }
    inner::perimeter(segment)
}

/// How many lines of a segment are drawn, six at most. A join with a corner beyond 4,095 is refused with 5.
#[tactic(auto, unfolding(crate::specs::Answers::if_near, crate::specs::Answers::count_answer))]
pub fn perimeter_count(segment: Segment) -> Result<usize, Refusal>
    ensures { count_values result ≡ count_answer corner_limit segment }
{
    check_near(segment)?;
    Ok(inner::perimeter_count(segment))
}

/// The edges of a segment: the right one along it, the left one back. A join with a corner beyond 4,095 is refused with 5.
#[tactic(auto, unfolding(crate::specs::Answers::if_near, crate::specs::Answers::edges_answer))]
pub fn edges(segment: Segment) -> Result<EdgePair, Refusal>
    ensures { edges_values result ≡ edges_answer corner_limit segment }
{
    check_near(segment)?;
    Ok(inner::edges(segment))
}

/// The box around a segment's edges; around a skeleton's left edge alone, as the Rust has it. A join with a corner beyond 4,095
/// is refused with 5.
#[tactic(auto, unfolding(crate::specs::Answers::if_near, crate::specs::Answers::box_answer))]
pub fn edges_bounding_box(segment: Segment) -> Result<Rectangle, Refusal>
    ensures { box_values result ≡ box_answer corner_limit segment }
{
    check_near(segment)?;
    Ok(inner::edges_bounding_box(segment))
}

/// The first and the last row of the lines that are drawn: of a skeleton's right edge, else of the whole perimeter. Both rows have a drawn
/// point, and no row outside them has one. A join with a corner beyond 4,095 is refused with 5.
#[tactic(auto, unfolding(crate::specs::Answers::if_near, crate::specs::Answers::drawn_rows_answer))]
pub fn drawn_rows(segment: Segment) -> Result<Rows, Refusal>
    ensures { drawn_rows_values result ≡ drawn_rows_answer corner_limit segment }
{
    check_near(segment)?;
    Ok(inner::drawn_rows(segment))
}

/// The span of a segment on a row: empty, 0 to 0, where none of its drawn lines has a point there. A join with a corner beyond
/// 4,095 is refused with 5; then a row outside 4,095 with 6.
#[tactic(auto, unfolding(crate::specs::Answers::if_near, crate::specs::Answers::segment_refusal, crate::specs::Answers::span_answer))]
pub fn span(segment: Segment, row: i64) -> Result<Span, Refusal>
    ensures { span_values result ≡ span_answer corner_limit segment row }
{
    check_near(segment)?;
    if !within(row, CORNER) {
        return Err(Refusal::Row);
    }
    Ok(inner::span(segment, row))
}

/// Refuses a segment with 5 at the position of the first of its joins that has a corner beyond 4,095.
#[tactic(auto, unfolding(crate::specs::Answers::if_near))]
fn check_near(segment: Segment) -> Result<(), Refusal>
    ensures { result ≡ if_near corner_limit segment tt }
{
    if !is_segment_near(segment, CORNER) {
        return Err(Refusal::Corner(far_bend(segment, CORNER)));
    }
    Ok(())
}
