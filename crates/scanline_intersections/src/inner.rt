//! The next merged span of a walk, of a list, a width and joins that are known to be within the limits.
ghost use Rattle.std.specs.Prelude.{◌≡◌, true, false, Ok};
ghost use Rattle.shapes.specs.Limits.{stroke_limit, line_limit};
ghost use Rattle.shapes.specs.Strokes.{Thin};
ghost use Rattle.coordinates.specs.Refusal.{AllWithin};
ghost use Rattle.route_joins.specs.Joins.{are_joins_near};
ghost use Rattle.scanline_intersections.specs.Merging.{merged_values, next_merged};

use crate::Intersections;
use route_joins::inner::{segment_count, segment_of};
use scanline::inner::{try_extend, try_take};
use shapes::{Offset, Span};
use std::mem;
use thick_segment::inner::span as span_on;

/// The next merged span of the segments from the walk's place on, past which the walk goes.
pub fn merge(coordinates: &[i64], walk: &mut Intersections) -> Option<Span>
    requires all_within { AllWithin stroke_limit coordinates.now }
    requires thin { Thin walk.old.width }
    requires width_value { are_joins_near line_limit false coordinates.now walk.old.width ≡ true }
    ensures { merged_values (Ok result) walk.new ≡ next_merged coordinates.now walk.old }
{
    for place in walk.place..segment_count(coordinates, false) {
        let segment = segment_of(coordinates, walk.width, false, Offset::None, place);
        let other = span_on(segment, walk.span.row);
        walk.place = place + 1;
        if !try_extend(&mut walk.span, other) {
            return Some(mem::replace(&mut walk.span, other));
        }
    }
    try_take(&mut walk.span)
}
