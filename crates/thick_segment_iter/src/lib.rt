//! The walk over the segments of an open route: `thick_segment_iter.rs`. The list of coordinates is handed to each step.
#![tactic(auto)]

ghost use Rattle.std.specs.Prelude.{◌≡◌};
ghost use Rattle.route_joins.specs.Steps.{step_values};
ghost use Rattle.shapes.specs.Limits.{point_limit, panel as panel_limits};
ghost use Rattle.thick_segment_iter.specs.Walks.{start_values, open_start, open_step, after_open};

use coordinates::check;
use route_joins::Stepped;
use route_joins::inner::step_at;
use shapes::Offset;
use shapes::limits::panel;
use shapes::refusals::Refusal;

/// A walk: the place of its next segment, and the width of the stroke. Any numbers may be handed in: a place past the last
/// segment is the end, and a width outside 0 to 64 is refused.
#[derive(Clone, Copy, Debug, PartialEq, Eq)]
pub struct Walk {
    pub place: usize,
    pub width: i64,
}

/// A walk from the first segment of an open route on. Refused with 1 for an odd number of coordinates, 2 for more than 256
/// points, 3 for a width outside 0 to 64, 4 for a coordinate outside 511, 12 for two consecutive points that are equal. A route
/// of 0 or 1 points has no segments.
#[tactic(auto, using(crate::proofs::Laws::begins), unfolding(crate::specs::Walks::open_start))]
pub fn start(coordinates: &[i64], width: i64) -> Result<Walk, Refusal>
    ensures { start_values result ≡ open_start point_limit coordinates.now width }
{
    check(coordinates, width, false)?;
    Ok(Walk { place: 0, width })
}

/// The segment at the walk's place, or the end past the last one. Refused as `start`, and with 5 if a join of the segment has a
/// corner beyond 4,095, at the position of the first that has: the walk then stays where it is.
#[tactic(auto, unfolding(crate::specs::Walks::open_step, crate::specs::Walks::after_open))]
pub fn step(coordinates: &[i64], walk: Walk) -> Stepped<Walk>
    ensures answers { step_values result.step ≡ open_step panel_limits coordinates.now walk }
    ensures moves { result.walk ≡ after_open panel_limits coordinates.now walk }
{
    let stepped = step_at(
        coordinates,
        walk.width,
        false,
        Offset::None,
        walk.place,
        panel(),
    );
    Stepped {
        step: stepped.step,
        walk: Walk {
            place: stepped.place,
            ..walk
        },
    }
}

impl route_joins::Walk for Walk {
    ghost answer = { open_step panel_limits };

    ghost after = { after_open panel_limits };

    fn step(coordinates: &[i64], walk: Walk) -> Stepped<Walk> {
        step(coordinates, walk)
    }
}
