//! The walk over the segments of a closed route, with one of the three offsets: `closed_thick_segment_iter.rs`. The list of
//! coordinates is handed to each step.
#![tactic(auto)]

ghost use Rattle.std.specs.Prelude.{◌≡◌};
ghost use Rattle.route_joins.specs.Steps.{step_values};
ghost use Rattle.shapes.specs.Limits.{point_limit, panel as panel_limits};
ghost use Rattle.closed_thick_segment_iter.specs.Walks.{start_values, closed_start, closed_step, after_closed};

use coordinates::check;
use route_joins::Stepped;
use route_joins::inner::step_at;
use shapes::Offset;
use shapes::limits::panel;
use shapes::refusals::Refusal;

/// A walk: the place of its next segment, the width of the stroke, and where the stroke lies. Any numbers may be handed in: a
/// place past the last segment is the end, and a width outside 0 to 64 is refused.
#[derive(Clone, Copy, Debug, PartialEq, Eq)]
pub struct Walk {
    pub place: usize,
    pub width: i64,
    pub offset: Offset,
}

/// A walk from the first segment of a closed route on. Refused with 1 for an odd number of coordinates, 2 for more than 256
/// points or one alone, 3 for a width outside 0 to 64, 4 for a coordinate outside 511, 12 for two consecutive points that are
/// equal, or the last and the first. A route of 0 points has no segments, one of two points has two.
#[tactic(auto, using(crate::proofs::Laws::begins), unfolding(crate::specs::Walks::closed_start))]
pub fn start(coordinates: &[i64], width: i64, offset: Offset) -> Result<Walk, Refusal>
    ensures { start_values result ≡ closed_start point_limit coordinates.now width offset }
{
    check(coordinates, width, true)?;
    Ok(Walk {
        place: 0,
        width,
        offset,
    })
}

/// The segment at the walk's place, or the end past the last one. Refused as `start`, and with 5 if a join of the segment has a
/// corner beyond 4,095, at the position of the first that has: the walk then stays where it is.
#[tactic(auto, unfolding(crate::specs::Walks::closed_step, crate::specs::Walks::after_closed))]
pub fn step(coordinates: &[i64], walk: Walk) -> Stepped<Walk>
    ensures answers { step_values result.step ≡ closed_step panel_limits coordinates.now walk }
    ensures moves { result.walk ≡ after_closed panel_limits coordinates.now walk }
{
    let stepped = step_at(
        coordinates,
        walk.width,
        true,
        walk.offset,
        walk.place,
        panel(),
    );
    Stepped {
        step: stepped.step,
        walk: Walk {
            place: stepped.place,
            ..walk
        },
    }
}

impl route_joins::Walk for Walk {
    ghost answer = { closed_step panel_limits };

    ghost after = { after_closed panel_limits };

    fn step(coordinates: &[i64], walk: Walk) -> Stepped<Walk> {
        step(coordinates, walk)
    }
}
