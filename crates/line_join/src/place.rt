//! Where a join stands in the list that it is made from.
ghost use Rattle.std.specs.Prelude.{◌≡◌};
ghost use Rattle.line_join.specs.Standing.{standing_at};

use crate::Join;

/// A join with its position set.
pub fn standing_at(join: Join, position: usize) -> Join
    ensures { result ≡ standing_at position join }
{
    Join { position, ..join }
}
