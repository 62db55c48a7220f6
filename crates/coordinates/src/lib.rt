//! A route's points in a list of numbers, x and y of each in turn, and what such a list is refused with.
#![tactic(auto)]

ghost use Rattle.std.specs.Prelude.{◌≡◌};
ghost use Rattle.shapes.specs.Limits.{point_limit};
ghost use Rattle.shapes.specs.Refusals.{refusal_in, bend_in};
ghost use Rattle.coordinates.specs.Points.{point_count};
ghost use Rattle.coordinates.specs.Refusal.{route_refusal};

pub mod inner; // inner.rt: points by their place, and the chain of refusals for any limit

use shapes::limits::POINT;
use shapes::refusals::Refusal;

/// How many points a list of numbers has; a number that is left over at its end is none.
#[tactic(auto, unfolding(crate::specs::Points::point_count))]
pub fn point_count(coordinates: &[i64]) -> usize
    ensures { result ≡ point_count coordinates.now }
{
    coordinates.len() / 2
}

/// Refuses the list and the width of a route: with 1 for an odd number of coordinates, 2 for more than 256 points or a closed
/// route of one, 3 for a width outside 0 to 64, 4 for a coordinate outside 511, 12 for two consecutive points that are equal, of a
/// closed route also the last and the first.
pub fn check(coordinates: &[i64], width: i64, closed: bool) -> Result<(), Refusal>
    ensures number { refusal_in result ≡ route_refusal point_limit closed coordinates.now width }
    ensures bend { bend_in result ≡ 0 }
{
    inner::check(coordinates, width, closed, POINT)
}
