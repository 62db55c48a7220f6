//! The polyline's walk along one row: its segments, and the spans of the segments on the row, merged while they overlap or are
//! adjacent. `polyline/scanline_intersections.rs`, with 01's rule W6.
#![tactic(auto)]

ghost use Rattle.std.specs.Prelude.{◌≡◌, false};
ghost use Rattle.shapes.specs.Refusals.{refusal_in, bend_in};
ghost use Rattle.shapes.specs.Limits.{panel as panel_limits};
ghost use Rattle.route_joins.specs.Joins.{route_bend};
ghost use Rattle.route_joins.specs.Steps.{step_values};
ghost use Rattle.scanline_intersections.specs.Merging.{merged_values};
ghost use Rattle.scanline_intersections.specs.Answers.{start_values, polyline_start, polyline_step, after_polyline, next_refusal, next_answer};

pub mod inner; // inner.rt: the next merged span, without the tests

use coordinates::check;
use inner::merge;
use route_joins::Stepped;
use route_joins::inner::{join_count, near_joins, step_at};
use scanline::{fresh, try_take};
use shapes::limits::panel;
use shapes::refusals::Refusal;
use shapes::{Offset, Span, limits};

/// A walk along the segments of an open route on one row: the place of the next segment, the stroke's width, and the span that is
/// being gathered, on the row. Any numbers may be handed in: a place past the last segment is the end, and a bad width, row or
/// column is refused by the entry that looks at it.
#[derive(Clone, Copy, Debug, PartialEq, Eq)]
pub struct Intersections {
    pub place: usize,
    pub width: i64,
    pub span: Span,
}

/// A walk along the segments of an open route on a row. The list and the width are refused with 1 to 4 and 12; then a row outside
/// 4,095 with 6.
pub fn start(coordinates: &[i64], width: i64, row: i64) -> Result<Intersections, Refusal>
    ensures { start_values result ≡ polyline_start panel_limits coordinates.now width row }
{
    check(coordinates, width, false)?;
    let span = fresh(row)?;
    Ok(Intersections {
        place: 0,
        width,
        span,
    })
}

/// The segment at the walk's place, and the walk one place further; or the end, past the last segment. The list and the walk's
/// width are refused with 1 to 4 and 12; then a segment of which a join has a corner beyond 4,095 with 5, at the position of the
/// first that has: the walk then stays where it is. The gathered span and its row are not looked at.
#[tactic(auto, unfolding(crate::specs::Answers::polyline_step, crate::specs::Answers::after_polyline))]
pub fn next_segment(coordinates: &[i64], walk: Intersections) -> Stepped<Intersections>
    ensures answers { step_values result.step ≡ polyline_step panel_limits coordinates.now walk }
    ensures moves { result.walk ≡ after_polyline panel_limits coordinates.now walk }
{
    let stepped = step_at(
        coordinates,
        walk.width,
        false,
        Offset::None,
        walk.place,
        panel(),
    );
    Stepped {
        step: stepped.step,
        walk: Intersections {
            place: stepped.place,
            ..walk
        },
    }
}

impl route_joins::Walk for Intersections {
    ghost answer = { polyline_step panel_limits };

    ghost after = { after_polyline panel_limits };

    fn step(coordinates: &[i64], walk: Intersections) -> Stepped<Intersections> {
        next_segment(coordinates, walk)
    }
}

/// The next merged span: the spans of the segments left are gathered while each overlaps or is adjacent to what is gathered so far;
/// no span is handed out that is empty. The list and the walk's width are refused with 1 to 4 and 12; then a route of which some
/// join has a corner beyond 4,095 with 5, at the position of the first that has; then a row of the walk's span outside 4,095 with
/// 6; then a column of that span outside with 7. A refused walk is as it was.
#[tactic(auto, using(crate::proofs::Entries::asks))]
pub fn next(coordinates: &[i64], walk: &mut Intersections) -> Result<Option<Span>, Refusal>
    ensures { merged_values result walk.new ≡ next_answer panel_limits coordinates.now walk.old }
{
    check_next(coordinates, *walk)?;
    Ok(merge(coordinates, walk))
}

/// Refuses a walk whose next merged span is asked for: with 1 to 4, 12, then 5, then 6 and 7, with which `try_take` refuses the
/// walk's span.
fn check_next(coordinates: &[i64], walk: Intersections) -> Result<(), Refusal>
    ensures number { refusal_in result ≡ next_refusal panel_limits coordinates.now walk }
    ensures bend { bend_in result ≡ route_bend panel_limits false coordinates.now walk.width }
{
    check(coordinates, walk.width, false)?;
    let near = near_joins(coordinates, walk.width, false, limits::CORNER);
    if near != join_count(coordinates) {
        return Err(Refusal::Corner(near));
    }
    let mut span = walk.span;
    let _taken = try_take(&mut span)?;
    Ok(())
}
