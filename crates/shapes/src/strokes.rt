//! A stroke's width, and what a stroke's input is refused with.
ghost use Rattle.std.specs.Prelude.{◌≡◌};
ghost use Rattle.shapes.specs.Refusals.{refusal_in};
ghost use Rattle.shapes.specs.Strokes.{is_thin, stroke_refusal};

use crate::limits;
use crate::refusals::Refusal;

/// Whether a width is from 0 to 64.
#[tactic(auto, unfolding(crate::specs::Strokes::is_thin))]
pub fn is_thin(width: i64) -> bool
    ensures { result ≡ is_thin width }
{
    0 <= width && width <= limits::WIDTH
}

/// Refuses a stroke's input: with 3 a width outside 0 to 64; then with 4 coordinates that are not `near`.
#[tactic(auto, unfolding(crate::specs::Strokes::stroke_refusal))]
pub fn check_stroke(width: i64, near: bool) -> Result<(), Refusal>
    ensures { refusal_in result ≡ stroke_refusal width near }
{
    if !is_thin(width) {
        return Err(Refusal::Width);
    }
    if !near {
        return Err(Refusal::Coordinate);
    }
    Ok(())
}
