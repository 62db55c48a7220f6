//! The joins and the segments of a route, each by its place, and the step of every walk.
ghost use Rattle.std.specs.Prelude.{◌≡◌, ◌<◌};
ghost use Rattle.shapes.specs.Limits.{stroke_limit, Roomy};
ghost use Rattle.shapes.specs.Strokes.{Thin};
ghost use Rattle.coordinates.specs.Points.{point_count};
ghost use Rattle.coordinates.specs.Refusal.{AllWithin};
ghost use Rattle.route_joins.specs.Joins.{Drawable, bend_at, open_join, closed_join, join_on, join_count, end_place};
ghost use Rattle.route_joins.specs.Joins.{segment_of, segment_count, near_joins};
ghost use Rattle.route_joins.specs.Steps.{step_values, route_step, place_from};

use crate::{Placed, Step};
use coordinates::inner::{check, place_after, place_before, point_at, segments_of};
use coordinates::point_count;
use line_join::Join;
use line_join::inner::{end, from_points, is_join_near, start};
use line_join::place::standing_at;
use shapes::Offset;
use shapes::limits::Limits;
use shapes::refusals::Refusal;
use thick_segment::Segment;
use thick_segment::inner::{far_bend, is_segment_near};

/// The join at the point at place `i`, of the lines that come from place `before` and go to place `after`.
#[tactic(auto, using(crate::proofs::Near::asked), unfolding(crate::specs::Joins::bend_at))]
fn bend_at(
    coordinates: &[i64],
    width: i64,
    offset: Offset,
    before: usize,
    i: usize,
    after: usize,
) -> Join
    requires drawable { Drawable coordinates.now width }
    requires before_bound { before < point_count coordinates.now }
    requires i_bound { i < point_count coordinates.now }
    requires after_bound { after < point_count coordinates.now }
    ensures { result ≡ bend_at coordinates.now width offset before i after }
{
    let a = point_at(coordinates, before);
    let b = point_at(coordinates, i);
    let c = point_at(coordinates, after);
    from_points(a, b, c, width, offset)
}

/// The join at the point at place `i` of an open route; its position is not set yet.
#[tactic(auto, using(crate::proofs::Near::asked), unfolding(crate::specs::Joins::open_join, coordinates::specs::Points::point_count))]
fn open_join(coordinates: &[i64], width: i64, i: usize) -> Join
    requires drawable { Drawable coordinates.now width }
    requires i_bound { i < point_count coordinates.now }
    ensures { result ≡ open_join coordinates.now width i }
{
    if i == 0 {
        let a = point_at(coordinates, 0);
        let b = point_at(coordinates, 1);
        start(a, b, width, Offset::None)
    } else if i + 1 == point_count(coordinates) {
        let a = point_at(coordinates, i - 1);
        let b = point_at(coordinates, i);
        end(a, b, width, Offset::None)
    } else {
        bend_at(coordinates, width, Offset::None, i - 1, i, i + 1)
    }
}

/// The join at the point at place `i` of a closed route; its position is not set yet.
#[tactic(auto, using(crate::proofs::Near::asked), unfolding(crate::specs::Joins::closed_join, coordinates::specs::Points::point_count))]
fn closed_join(coordinates: &[i64], width: i64, offset: Offset, i: usize) -> Join
    requires drawable { Drawable coordinates.now width }
    requires i_bound { i < point_count coordinates.now }
    ensures { result ≡ closed_join coordinates.now width offset i }
{
    let count = point_count(coordinates);
    if count + i == 2 {
        let a = point_at(coordinates, 0);
        let b = point_at(coordinates, 1);
        return start(a, b, width, offset);
    }
    let before = place_before(count, i);
    let after = place_after(count, i);
    bend_at(coordinates, width, offset, before, i, after)
}

/// The join at the point at place `i` of a route of two points or more, open or closed, with that place for its position; the
/// offset is a closed route's.
#[tactic(auto, using(crate::proofs::Near::asked), unfolding(crate::specs::Joins::join_on))]
pub fn join_on(coordinates: &[i64], width: i64, closed: bool, offset: Offset, i: usize) -> Join
    requires drawable { Drawable coordinates.now width }
    requires i_bound { i < point_count coordinates.now }
    ensures { result ≡ join_on closed coordinates.now width offset i }
{
    let join = if closed {
        closed_join(coordinates, width, offset, i)
    } else {
        open_join(coordinates, width, i)
    };
    standing_at(join, i)
}

/// How many joins a route has: one at each point; none where there is one point alone.
#[tactic(auto, unfolding(crate::specs::Joins::join_count))]
pub fn join_count(coordinates: &[i64]) -> usize
    ensures { result ≡ join_count coordinates.now }
{
    let count = point_count(coordinates);
    if 2 <= count { count } else { 0 }
}

/// The place of the join at which the segment from place `k` of `count` ends.
#[tactic(auto, unfolding(crate::specs::Joins::end_place))]
pub fn end_place(count: usize, closed: bool, k: usize) -> usize
    requires { k < count }
    ensures { result ≡ end_place closed count k }
{
    if closed { place_after(count, k) } else { k + 1 }
}

/// How many segments a route has, open or closed: none of 0 or 1 points where it is open.
#[tactic(auto, unfolding(crate::specs::Joins::segment_count))]
pub fn segment_count(coordinates: &[i64], closed: bool) -> usize
    ensures { result ≡ segment_count closed coordinates.now }
{
    segments_of(point_count(coordinates), closed)
}

/// The segment at place `k` of a route of two points or more, open or closed; the offset is a closed route's.
#[tactic(auto, using(crate::proofs::Near::asked), unfolding(crate::specs::Joins::segment_of, crate::specs::Joins::segment_count))]
pub fn segment_of(
    coordinates: &[i64],
    width: i64,
    closed: bool,
    offset: Offset,
    k: usize,
) -> Segment
    requires drawable { Drawable coordinates.now width }
    requires k_bound { k < segment_count closed coordinates.now }
    ensures { result ≡ segment_of closed coordinates.now width offset k }
{
    let next = end_place(point_count(coordinates), closed, k);
    let start = join_on(coordinates, width, closed, offset, k);
    let end = join_on(coordinates, width, closed, offset, next);
    Segment { start, end }
}

/// How many joins of a route, from the first on, have all their corners within `limit`: all of them, or the place of the first that
/// has not, at which the route is refused with 5.
pub fn near_joins(coordinates: &[i64], width: i64, closed: bool, limit: u32) -> usize
    requires all_within { AllWithin stroke_limit coordinates.now }
    requires thin { Thin width }
    ensures { result ≡ near_joins limit closed coordinates.now width }
{
    let count = join_count(coordinates);
    for i in 0..count {
        let join = join_on(coordinates, width, closed, Offset::None, i);
        if !is_join_near(join, limit) {
            return i;
        }
    }
    count
}

/// What the step of a walk answers: the segment at the place, or the end past the last one. Refused as the list and the width are,
/// and then with 5 if a join of the segment has a corner beyond the limit, at the position of the first that has.
fn answer_at(
    coordinates: &[i64],
    width: i64,
    closed: bool,
    offset: Offset,
    place: usize,
    limits: Limits,
) -> Step
    requires { Roomy limits }
    ensures { step_values result ≡ route_step limits closed coordinates.now width offset place }
{
    check(coordinates, width, closed, limits.point)?;
    if segment_count(coordinates, closed) <= place {
        return Ok(None);
    }
    let segment = segment_of(coordinates, width, closed, offset, place);
    if !is_segment_near(segment, limits.corner) {
        return Err(Refusal::Corner(far_bend(segment, limits.corner)));
    }
    Ok(Some(segment))
}

/// The step of a walk, open or closed: what it answers, and the place after it, which is one further if a segment was answered.
/// Refused as the list and the width are, and then with 5 if a join of the segment has a corner beyond the limit, at the position of
/// the first that has.
#[tactic(auto, unfolding(crate::specs::Steps::place_from, crate::specs::Steps::step_values, crate::specs::Steps::refused_values))]
pub fn step_at(
    coordinates: &[i64],
    width: i64,
    closed: bool,
    offset: Offset,
    place: usize,
    limits: Limits,
) -> Placed
    requires { Roomy limits }
    ensures answers { step_values result.step ≡ route_step limits closed coordinates.now width offset place }
    ensures moves { result.place ≡ place_from (step_values result.step) place }
{
    let step = answer_at(coordinates, width, closed, offset, place, limits);
    let further = match step {
        Ok(Some(_)) => place + 1,
        Ok(None) | Err(_) => place,
    };
    Placed {
        step,
        place: further,
    }
}
