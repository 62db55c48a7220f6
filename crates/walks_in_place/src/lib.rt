//! A walk stepped in place by its owner: it is lent, and the list of coordinates is handed in beside it.
#![tactic(auto)]

ghost use Rattle.std.specs.Prelude.{◌≡◌};
ghost use Rattle.route_joins.specs.Steps.{step_values};

use route_joins::{Step, Walk};

/// The step of a walk, open, closed or the polyline's. It answers what the walk's own step answers, and refuses as that does; the
/// walk is afterwards what that step makes of it: of these three one place further if a segment was answered, else as it was.
pub fn step<W: Walk>(walk: &mut W, coordinates: &[i64]) -> Step
    ensures { (step_values result ≡ W.answer coordinates.now walk.old)
        × (walk.new ≡ W.after coordinates.now walk.old) }
{
    let stepped = W::step(coordinates, *walk);
    *walk = stepped.walk;
    stepped.step
}
