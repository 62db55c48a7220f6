//! Points of a list by their place, and what a list is refused with, for any limit of its coordinates.
ghost use Rattle.std.specs.Prelude.{◌≡◌, ◌<◌};
ghost use Rattle.shapes.specs.Refusals.{refusal_in, bend_in};
ghost use Rattle.coordinates.specs.Points.{point_at, point_count, place_after, place_before, segments_of};
ghost use Rattle.coordinates.specs.Neighbours.{is_doubled};
ghost use Rattle.coordinates.specs.Refusal.{are_within, is_miscounted, route_refusal};

use crate::point_count;
use shapes::Point;
use shapes::limits::ROUTE_POINTS;
use shapes::refusals::Refusal;
use shapes::strokes::check_stroke;
use whole::inner::within;

/// The point at place `i`.
#[tactic(auto, unfolding(crate::specs::Points::point_at, crate::specs::Points::point_count))]
pub fn point_at(coordinates: &[i64], i: usize) -> Point
    requires { i < point_count coordinates.now }
    ensures { result ≡ point_at coordinates.now i }
{
    Point {
        x: coordinates[2 * i],
        y: coordinates[2 * i + 1],
    }
}

/// The place after `i` of `count`, round the route.
#[tactic(auto, unfolding(crate::specs::Points::place_after))]
pub fn place_after(count: usize, i: usize) -> usize
    requires { i < count }
    ensures { result ≡ place_after count i }
{
    if i + 1 == count { 0 } else { i + 1 }
}

/// The place before `i` of `count`, round the route.
#[tactic(auto, unfolding(crate::specs::Points::place_before))]
pub fn place_before(count: usize, i: usize) -> usize
    requires { i < count }
    ensures { result ≡ place_before count i }
{
    if i == 0 { count - 1 } else { i - 1 }
}

/// How many segments `count` points, or joins, bound.
#[tactic(auto, unfolding(crate::specs::Points::segments_of))]
pub fn segments_of(count: usize, closed: bool) -> usize
    ensures { result ≡ segments_of closed count }
{
    if closed {
        count
    } else {
        count.saturating_sub(1)
    }
}

/// Refuses the list and the width of a route, for coordinates from `-limit` to `limit`: with 1 to 4 and then 12, in this order.
pub fn check(coordinates: &[i64], width: i64, closed: bool, limit: u32) -> Result<(), Refusal>
    ensures number { refusal_in result ≡ route_refusal limit closed coordinates.now width }
    ensures bend { bend_in result ≡ 0 }
{
    let count = point_count(coordinates);
    if 2 * count < coordinates.len() {
        return Err(Refusal::Odd);
    }
    if is_miscounted(count, closed) {
        return Err(Refusal::Points);
    }
    check_stroke(width, are_within(coordinates, limit))?;
    if is_doubled(coordinates, closed) {
        return Err(Refusal::Doubled);
    }
    Ok(())
}

/// Whether there are more than 256 points, or one of a closed route.
#[tactic(auto, unfolding(crate::specs::Refusal::is_miscounted))]
fn is_miscounted(count: usize, closed: bool) -> bool
    ensures { result ≡ is_miscounted closed count }
{
    ROUTE_POINTS < count || (closed && count == 1)
}

/// Whether every number of a list is from `-limit` to `limit`.
fn are_within(coordinates: &[i64], limit: u32) -> bool
    ensures { result ≡ are_within limit coordinates.now }
{
    coordinates.iter().all(|x| within(*x, limit))
}

/// Whether two consecutive points of a route are equal; of a closed one the first follows the last.
fn is_doubled(coordinates: &[i64], closed: bool) -> bool
    ensures { result ≡ is_doubled closed coordinates.now }
{
    let count = point_count(coordinates);
    for place in 0..segments_of(count, closed) {
        let next = place_after(count, place);
        if point_at(coordinates, place) == point_at(coordinates, next) {
            return true;
        }
    }
    false
}
