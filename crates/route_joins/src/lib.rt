//! The joins and the segments of a route, each by its place, and what a step of a walk answers. The walks and a route's rows stand
//! on it; it has no entries of its own.
#![tactic(auto)]

ghost use Rattle.std.specs.Prelude.{◌≡◌, List, ℤ};
ghost use Rattle.route_joins.specs.Steps.{StepValues, step_values};

pub mod inner; // inner.rt: joins and segments by their place, and the step of every walk

use shapes::refusals::Refusal;
use thick_segment::Segment;

/// What a step of a walk answers: the segment at the walk's place; `None` past the last one; or a refusal, with 5 at the position of
/// the join with a corner beyond the limit, of the start join if both have one.
pub type Step = Result<Option<Segment>, Refusal>;

/// What a step of a walk answers, and the place after it: one further if a segment was answered, else the same.
#[derive(Clone, Copy, Debug, PartialEq, Eq)]
pub struct Placed {
    pub step: Step,
    pub place: usize,
}

/// What a step answers, and the walk after it: one place further if a segment was answered, else as it was.
#[derive(Clone, Copy, Debug, PartialEq, Eq)]
pub struct Stepped<W> {
    pub step: Step,
    pub walk: W,
}

/// A walk along the segments of a route, to which the list of coordinates is handed at each step.
pub trait Walk: Copy {
    /// What a step answers of a list.
    ghost answer: { List ℤ → Self → StepValues };

    /// The walk after it.
    ghost after: { List ℤ → Self → Self };

    /// The segment at the walk's place, or the end past the last one, or a refusal; and the walk after it.
    fn step(coordinates: &[i64], walk: Self) -> Stepped<Self>
        ensures answers { step_values result.step ≡ answer coordinates.now walk }
        ensures moves { result.walk ≡ after coordinates.now walk };
}
