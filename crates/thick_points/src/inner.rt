//! The parallels of a line, or its thick points, as numbers in a lent list.
ghost use Rattle.std.specs.Prelude.{◌≡◌, [], ◌∷◌, ◌+◌, ◌*◌, ◌^◌, ◌≤◌, length};
ghost use Rattle.std.proofs.lemmas.List.Edits.{sets};
ghost use Rattle.shapes.specs.Limits.{line_limit, thick_limit};
ghost use Rattle.shapes.specs.Shape.{LineNear};
ghost use Rattle.bresenham.specs.Points.{points_from, major_length};
ghost use Rattle.bresenham.specs.Walk.{Fair};
ghost use Rattle.parallels.specs.Parallels.{delta_limit, Sound, Begun, parallels};
ghost use Rattle.thick_points.specs.Listing.{numbers_of, point_numbers, length_on, size_of, told_of, told_all, told_numbers, list_refusal, listed_values, answered, written, Walk};

use bresenham::inner::{next as step, parameters};
use bresenham::{Bresenham, Parameters};
use parallels::inner::{is_done, next, plan_of, start};
use parallels::{Parallel, Parallels, Plan};
use shapes::inner::is_line_near;
use shapes::refusals::Refusal;
use shapes::strokes::check_stroke;
use shapes::{Line, Offset};

/// What a list tells of each parallel.
#[derive(Clone, Copy, Debug, PartialEq, Eq)]
pub enum Telling {
    /// Four numbers: x and y of its start, the error that it starts with, and 1 where it is Extra, else 0.
    Start,
    /// Two numbers for each of its points.
    Points,
}

/// Two numbers, at a place of a list.
pub fn put_pair(out: &mut [i64], at: usize, first: i64, second: i64)
    requires { at + 2 ≤ length out.old }
    ensures { out.new ≡ sets out.old at (first ∷ second ∷ []) }
{
    out[at] = first;
    out[at + 1] = second;
}

/// The four numbers of a parallel, from a place of a list on.
pub fn put_parallel(out: &mut [i64], at: usize, p: Parallel)
    requires { at + 4 ≤ length out.old }
    ensures { out.new ≡ sets out.old at (numbers_of p) }
{
    put_pair(out, at, p.start.point.x, p.start.point.y);
    put_pair(out, at + 2, p.start.error, i64::from(p.extra));
}

/// The numbers of `n` points of a walk, from a place of a list on.
pub fn put_points(out: &mut [i64], at: usize, along: Parameters, mut start: Bresenham, n: usize)
    requires fair { Fair delta_limit along }
    requires walk { Walk n along start }
    requires n_in_bounds { at + 2 * n ≤ length out.old }
    ensures { out.new ≡ sets out.old at (point_numbers (points_from n along start)) }
{
    for i in 0..n {
        let point = step(along, &mut start);
        put_pair(out, at + 2 * i, point.x, point.y);
    }
}

/// How many points a line has.
pub fn major_length(line: Line) -> usize
    requires { LineNear line_limit line }
    ensures { result ≡ major_length line }
{
    (parameters(line).threshold + 1) as usize
}

/// How many points a parallel has, by the line's number.
pub fn length_on(n: usize, extra: bool) -> usize
    requires { 1 ≤ n }
    ensures { result ≡ length_on n extra }
{
    if extra { n - 1 } else { n }
}

/// How many numbers tell of a parallel, where the line has `n` points.
pub fn size(telling: Telling, n: usize, extra: bool) -> usize
    requires { (1 ≤ n) × (n ≤ 2 ^ 16) }
    ensures { result ≡ size_of telling n extra }
{
    match telling {
        Telling::Start => 4,
        Telling::Points => 2 * length_on(n, extra),
    }
}

/// What is told of a parallel, from a place of a list on, where the line has `n` points.
pub fn put(out: &mut [i64], at: usize, telling: Telling, n: usize, along: Parameters, p: Parallel)
    requires fair { Fair delta_limit along }
    requires le_n { 1 ≤ n }
    requires walk { Walk (length_on n p.extra) along p.start }
    requires extra_in_bounds { at + size_of telling n p.extra ≤ length out.old }
    ensures { out.new ≡ sets out.old at (told_of telling n along p) }
{
    match telling {
        Telling::Start => put_parallel(out, at, p),
        Telling::Points => put_points(out, at, along, p.start, length_on(n, p.extra)),
    }
}

/// How many numbers tell of the parallels that follow, where the line has `n` points.
pub fn count(telling: Telling, n: usize, plan: &Plan, mut state: Parallels) -> usize
    requires le_n { (1 ≤ n) × (n ≤ 2 ^ 16) }
    requires sound { Sound thick_limit plan.now }
    requires begun { Begun thick_limit plan.now state }
    ensures { result ≡ length (told_all telling n plan.now.parallel (parallels plan.now state)) }
{
    let mut count = 0;
    while !is_done(plan, &state) {
        count += size(telling, n, next(plan, &mut state).extra);
    }
    count
}

/// What is told of the parallels that follow, from the front of a list on, where the line has `n` points.
pub fn put_all(out: &mut [i64], telling: Telling, n: usize, plan: &Plan, mut state: Parallels)
    requires le_n { (1 ≤ n) × (n ≤ 2 ^ 16) }
    requires sound { Sound thick_limit plan.now }
    requires begun { Begun thick_limit plan.now state }
    requires state_in_bounds { length (told_all telling n plan.now.parallel (parallels plan.now state)) ≤ length out.old }
    ensures { out.new ≡ sets out.old 0 (told_all telling n plan.now.parallel (parallels plan.now state)) }
{
    let mut at = 0;
    while !is_done(plan, &state) {
        let parallel = next(plan, &mut state);
        put(out, at, telling, n, plan.parallel, parallel);
        at += size(telling, n, parallel.extra);
    }
}

/// Tells of the parallels of a line at the front of `out`, and counts the numbers. Refuses with 3 a width outside 0 to 64, then
/// with 4 a coordinate outside `limit`, then with 8 a list that has too few numbers; a refusal writes nothing.
pub fn list(
    out: &mut [i64],
    telling: Telling,
    limit: u32,
    line: Line,
    width: i64,
    offset: Offset,
) -> Result<usize, Refusal>
    requires { limit ≤ line_limit }
    ensures value { listed_values result ≡ answered (list_refusal limit line width (told_numbers telling line width offset) out.old) (length (told_numbers telling line width offset)) }
    ensures out_after { out.new ≡ written (list_refusal limit line width (told_numbers telling line width offset) out.old) (told_numbers telling line width offset) out.old }
{
    check_stroke(width, is_line_near(line, limit))?;
    let plan = plan_of(line, width, offset);
    let first = start(&plan, line.start);
    let n = major_length(line);
    let count = count(telling, n, &plan, first);
    if out.len() < count {
        return Err(Refusal::Room);
    }
    put_all(out, telling, n, &plan, first);
    Ok(count)
}
