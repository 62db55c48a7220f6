//! Where the corners of a join come from: a crossing of edges, or the ends of edges.
ghost use Rattle.std.specs.Prelude.{◌≡◌};
ghost use Rattle.line_join.specs.Origins.{no_crossings, cut_origins, origins_by, traced_by};

use crate::{Join, Kind, Origin, Origins};
use shapes::Side;

/// A join with its origins set, by its kind, where the left and the right edges meet with these.
pub fn traced(join: Join, left: Origin, right: Origin) -> Join
    ensures { result ≡ traced_by left right join }
{
    Join {
        origins: origins(join.kind, left, right),
        ..join
    }
}

/// Where the corners of a join come from: a miter uses both meetings, a bevel the one on its inner side, and every other
/// join the ends of edges.
fn origins(kind: Kind, left: Origin, right: Origin) -> Origins
    ensures { result ≡ origins_by kind left right }
{
    match kind {
        Kind::Miter => Origins { left, right },
        Kind::Bevel(side) => cut_origins(side, left, right),
        _ => no_crossings(),
    }
}

/// The origins of a bevel: on the outer side, which was cut off, an edge's end.
fn cut_origins(side: Side, left: Origin, right: Origin) -> Origins
    ensures { result ≡ cut_origins side left right }
{
    match side {
        Side::Left => Origins {
            left: Origin::NotACrossing,
            right,
        },
        Side::Right => Origins {
            left,
            right: Origin::NotACrossing,
        },
    }
}

/// Ends of edges on both sides.
pub fn no_crossings() -> Origins
    ensures { result ≡ no_crossings }
{
    Origins {
        left: Origin::NotACrossing,
        right: Origin::NotACrossing,
    }
}
