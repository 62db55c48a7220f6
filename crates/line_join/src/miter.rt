//! How long a miter may be.
ghost use Rattle.std.specs.Prelude.{◌≡◌};
ghost use Rattle.shapes.specs.Limits.{line_limit};
ghost use Rattle.shapes.specs.Shape.{Near};
ghost use Rattle.shapes.specs.Strokes.{Thin};
ghost use Rattle.line_join.specs.Miter.{miter_limit, corner_room, reaches};

use shapes::Point;
use whole::inner::magnitude;

/// The greatest squared length of a miter for a width: the square of twice the width.
#[tactic(auto, unfolding(crate::specs::Miter::miter_limit))]
pub fn limit(width: i64) -> i64
    requires { Thin width }
    ensures { result ≡ miter_limit width }
{
    let most = 2 * width;
    most * most
}

/// Whether a miter from `mid` to `tip` is short enough for a width: no longer than twice the width. A miter of which one
/// component is longer than that is too long before any square is taken.
pub fn is_short(mid: Point, tip: Point, width: i64) -> bool
    requires near { Near line_limit mid }
    requires near_2 { Near corner_room tip }
    requires thin { Thin width }
    ensures { result ≡ reaches mid tip width }
{
    let dx = tip.x - mid.x;
    let dy = tip.y - mid.y;
    let most = 2 * width;
    if most < magnitude(dx) || most < magnitude(dy) {
        return false;
    }
    dx * dx + dy * dy <= limit(width)
}
