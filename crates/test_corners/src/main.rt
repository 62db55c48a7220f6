//! Corners that are run and not proved: squared miters of 36 and 37 at width 3, widths 64 and 65, coordinates 511 and 512 with
//! either sign at each place, 32 and 33 runs, a closed walk to a skeleton whose box has other rows than its drawn line, and routes with
//! joins that are too far where corners may go no farther than 45: within 4,095 no accepted route is known to have one. Here are the
//! questions alone; what must be written stands in `stdout`, and comes from another calculation (oracle/README.md).
#![tactic(auto)]

ghost use Rattle.std.specs.Prelude.{◌≤◌, ◌<◌, length};
ghost use Rattle.shapes.specs.Limits.{Roomy};

use board::{Board, Listed};
use closed_thick_segment_iter::{Walk, start, step};
use coordinates::point_count;
use extents::{Edges, extents};
use intersection_params::{Crossed, crossing};
use line_join::{Join, Kind, from_points};
use route::inner::prepare;
use route_joins::inner::step_at;
use shapes::inner::{is_near, minus, squared_length};
use shapes::limits::{CORNER, Limits};
use shapes::refusals::Refusal;
use shapes::{Line, Offset, Point, Side, Span};
use std::{fmt, io};
use test_joins::Told;
use test_text::{Numbers, Untold};
use thick_segment::{Segment, drawn_rows, edges_bounding_box, is_skeleton};
use writing::say_refused;

fn main(rt: HostRuntime) -> io::Result<()> {
    let rt = Untold(&rt);
    ask_miters(&rt)?;
    ask_widths(&rt)?;
    ask_coordinates(&rt)?;
    ask_board(&rt)?;
    ask_routes(&rt)?;
    ask_skeletons(&rt)?;
    ask_bends(&rt)
}

/// Bends with their outer side on the left and on the right: first miters that are just short enough, then just too long.
fn ask_miters(rt: &impl Print) -> io::Result<()> {
    ask_miter(rt, 3, [15, 9, 20, 10, 13, 11])?;
    ask_miter(rt, 3, [15, 11, 20, 10, 13, 9])?;
    ask_miter(rt, 3, [17, 9, 20, 10, 13, 10])?;
    ask_miter(rt, 3, [17, 11, 20, 10, 13, 10])
}

fn ask_widths(rt: &impl Print) -> io::Result<()> {
    ask_bend(rt, 64, [0, 0, 60, 0, 60, 60])?;
    ask_bend(rt, 65, [0, 0, 60, 0, 60, 60])
}

/// Every coordinate at its limit, with either sign, and then each of them beyond it, on either side.
fn ask_coordinates(rt: &impl Print) -> io::Result<()> {
    let bends = [
        [511, -511, -511, -511, -511, 511],
        [-511, 511, 511, 511, 511, -511],
        [512, -511, -511, -511, -511, 511],
        [-512, -511, -511, -511, -511, 511],
        [511, 512, -511, -511, -511, 511],
        [511, -512, -511, -511, -511, 511],
        [511, -511, 512, -511, -511, 511],
        [511, -511, -512, -511, -511, 511],
        [511, -511, -511, 512, -511, 511],
        [511, -511, -511, -512, -511, 511],
        [511, -511, -511, -511, 512, 511],
        [511, -511, -511, -511, -512, 511],
        [511, -511, -511, -511, -511, 512],
        [511, -511, -511, -511, -511, -512],
    ];
    for bend in bends {
        ask_bend(rt, 1, bend)?;
    }
    Ok(())
}

/// One column more than a board has room for; then two runs are joined, and the column has room.
fn ask_board(rt: &impl Print) -> io::Result<()> {
    let Ok(mut board) = Board::fresh(0) else {
        return Ok(());
    };
    ask_columns(rt, &mut board)?;
    let mut enough = [-7i64; 64];
    ask_list(rt, &board, &mut enough)?;
    let mut short = [-7i64; 63];
    ask_list(rt, &board, &mut short)?;
    ask_offer(rt, &mut board, 1, 2)?;
    ask_offer(rt, &mut board, 64, 65)?;
    ask_list(rt, &board, &mut enough)
}

/// Zigzags of 32 strokes and of 33.
fn ask_routes(rt: &impl Print) -> io::Result<()> {
    let mut accepted = [0i64; 66];
    draw_zigzag(&mut accepted);
    ask_zigzag(rt, &accepted)?;
    let mut refused = [0i64; 68];
    draw_zigzag(&mut refused);
    ask_zigzag(rt, &refused)
}

/// A closed walk whose stroke lies to the right: its second segment is a skeleton whose edges differ.
fn ask_skeletons(rt: &impl Print) -> io::Result<()> {
    let triangle = [-5i64, -3, -1, -1, 3, -5];
    if let Ok(first) = start(&triangle, 2, Offset::Right) {
        let second = ask_segment(rt, &triangle, first)?;
        let third = ask_segment(rt, &triangle, second)?;
        ask_segment(rt, &triangle, third)?;
    }
    Ok(())
}

/// The segment at a walk's place, and the walk after it.
fn ask_segment(rt: &impl Print, coordinates: &[i64], walk: Walk) -> io::Result<Walk> {
    print!(rt;
        "closed{}, Right, segment {}: ",
        Numbers(coordinates),
        walk.place
    )?;
    let stepped = step(coordinates, walk);
    match stepped.step {
        Ok(Some(segment)) => say_rows(rt, segment)?,
        Ok(None) => println!(rt; "none")?,
        Err(refusal) => println!(rt; "{refusal}")?,
    }
    Ok(stepped.walk)
}

/// Whether a segment is a skeleton, the rows of its box, and those of the lines that are drawn.
fn say_rows(rt: &impl Print, segment: Segment) -> io::Result<()> {
    let (Ok(skeleton), Ok(around), Ok(rows)) = (
        is_skeleton(segment),
        edges_bounding_box(segment),
        drawn_rows(segment),
    ) else {
        return println!(rt; "refused");
    };
    print!(rt;
        "skeleton {skeleton}, rows of the box {} {}",
        around.first.y, around.last.y
    )?;
    println!(rt; ", of what is drawn {} {}", rows.first, rows.last)
}

/// Joins that are too far at a route's end, its start, on the way, and nowhere; behind a doubled point, which comes first; of closed
/// routes at the first point, where the closing segment ends, at the second of two, and at the last two of four.
fn ask_bends(rt: &impl Print) -> io::Result<()> {
    ask_far(rt, &[0, 0, 40, 0, 40, 30, 60, 0], false)?;
    ask_far(rt, &[50, 0, 0, 0, 60, 0], false)?;
    ask_far(rt, &[0, 0, 20, 0, 20, 44, 0, 44], false)?;
    ask_far(rt, &[0, 0, 40, 0], false)?;
    ask_far(rt, &[60, 0, 60, 0, 0, 0], false)?;
    ask_far(rt, &[46, 0, 0, 20, 0, 0], true)?;
    ask_far(rt, &[0, 0, 0, 50], true)?;
    ask_far(rt, &[0, 0, 20, 0, 20, 44, 0, 44], true)
}

/// What a route of width 5 is refused with as a whole, and what its first four steps answer.
fn ask_far(rt: &impl Print, coordinates: &[i64], closed: bool) -> io::Result<()> {
    let form = if closed { "closed" } else { "open" };
    print!(rt; "corners within 45, {form}{}: ", Numbers(coordinates))?;
    say_whole(rt, coordinates, closed)?;
    print!(rt; "; ")?;
    say_step(rt, coordinates, closed, 0)?;
    for place in 1..4 {
        print!(rt; ", ")?;
        say_step(rt, coordinates, closed, place)?;
    }
    println!(rt)
}

/// Whether a route is accepted as a whole.
fn say_whole(rt: &impl Print, coordinates: &[i64], closed: bool) -> io::Result<()> {
    match prepare(coordinates, 5, closed, small()).answer {
        Ok(()) => print!(rt; "accepted"),
        Err(refusal) => say_refusal(refusal),
    }
}

/// What a walk answers at a place.
fn say_step(rt: &impl Print, coordinates: &[i64], closed: bool, place: usize) -> io::Result<()> {
    match step_at(coordinates, 5, closed, Offset::None, place, small()).step {
        Ok(Some(_)) => print!(rt; "segment"),
        Ok(None) => print!(rt; "end"),
        Err(refusal) => say_refusal(refusal),
    }
}

/// Writes a refusal as `rows` writes it, which tells of no error.
fn say_refusal(refusal: Refusal) -> io::Result<()> {
    say_refused(refusal);
    Ok(())
}

/// The limits of a panel, but for corners, which may go no farther than 45.
fn small() -> Limits
    ensures { Roomy result }
{
    Limits {
        point: 511,
        crossing: 1023,
        corner: 45,
    }
}

/// An answer as text: what it gives, or the refusal.
#[derive(Clone, Copy)]
struct Answer<T>(Result<T, Refusal>);

impl<T: fmt::Display> fmt::Display for Answer<T> {
    fn fmt<W: fmt::Write>(&self, f: &mut fmt::Formatter<W>) -> fmt::Result {
        match &self.0 {
            Ok(given) => write!(f, "{given}"),
            Err(refusal) => write!(f, "{refusal}"),
        }
    }
}

/// A bend of a stroke: three points, x and y of each in turn.
#[derive(Clone, Copy)]
struct Bend {
    width: i64,
    points: [i64; 6],
}

impl Bend {
    fn first(self) -> Point {
        Point {
            x: self.points[0],
            y: self.points[1],
        }
    }

    fn middle(self) -> Point {
        Point {
            x: self.points[2],
            y: self.points[3],
        }
    }

    fn last(self) -> Point {
        Point {
            x: self.points[4],
            y: self.points[5],
        }
    }

    fn join(self) -> Result<Join, Refusal> {
        from_points(
            self.first(),
            self.middle(),
            self.last(),
            self.width,
            Offset::None,
        )
    }

    /// The edges of the first of its two lines.
    fn first_edges(self) -> Result<Edges, Refusal> {
        edges_of(self.first(), self.middle(), self.width)
    }

    fn second_edges(self) -> Result<Edges, Refusal> {
        edges_of(self.middle(), self.last(), self.width)
    }

    /// Where the edges cross on the outer side: the tip of the miter, unless they run nearly alike.
    fn outer_crossing(self) -> Result<Crossed, Refusal> {
        let first = self.first_edges()?;
        let second = self.second_edges()?;
        let left = crossing(second.left, first.left)?;
        match left {
            Crossed::At(_, Side::Right, _) => crossing(second.right, first.right),
            _ => Ok(left),
        }
    }
}

/// The width and the points.
impl fmt::Display for Bend {
    fn fmt<W: fmt::Write>(&self, f: &mut fmt::Formatter<W>) -> fmt::Result {
        write!(f, "width {}, points{}", self.width, Numbers(&self.points))
    }
}

fn edges_of(start: Point, end: Point, width: i64) -> Result<Edges, Refusal> {
    extents(Line { start, end }, width, Offset::None)
}

/// How long the miter of a bend is, and whether it is kept.
fn ask_miter(rt: &impl Print, width: i64, points: [i64; 6]) -> io::Result<()> {
    let bend = Bend { width, points };
    let join = bend.join();
    print!(rt; "squared miter ")?;
    say_square(rt, bend.middle(), bend.outer_crossing())?;
    print!(rt; " at width {width}: {}; ", fate_of(join))?;
    println!(rt; "points{}, {}", Numbers(&points), Answer(join.map(Told)))
}

/// The edges of a bend's first line, its join, and the row of its middle point.
fn ask_bend(rt: &impl Print, width: i64, points: [i64; 6]) -> io::Result<()> {
    let bend = Bend { width, points };
    print!(rt; "{bend}: edges ")?;
    say_edges(rt, bend.first_edges())?;
    println!(rt; "{bend}: join {}", Answer(bend.join().map(Told)))?;
    print!(rt; "{bend}: ")?;
    ask_middle_row(rt, bend)
}

/// The row of a bend's middle point, in a list with room for one run.
fn ask_middle_row(rt: &impl Print, bend: Bend) -> io::Result<()> {
    let mut out = [-7i64; 2];
    ask_row(rt, &bend.points, bend.width, bend.middle().y, &mut out)
}

/// Offers the columns 0, 2, 4 and so on, 33 of them.
fn ask_columns(rt: &impl Print, board: &mut Board) -> io::Result<()> {
    for n in 0..33u32 {
        ask_offer(rt, board, i64::from(2 * n), i64::from(2 * n + 1))?;
    }
    Ok(())
}

fn ask_offer(rt: &impl Print, board: &mut Board, start: i64, end: i64) -> io::Result<()> {
    let row = board.row;
    let answer = Answer(board.offer(Span { row, start, end }).map(|_| "accepted"));
    println!(rt; "offer {start} {end}: {answer}, runs {}", board.count)
}

fn ask_list(rt: &impl Print, board: &Board, out: &mut [i64]) -> io::Result<()> {
    let answer = board.list(out);
    print!(rt; "board")?;
    say_listed(rt, answer, out)
}

/// A row that every stroke of a zigzag meets, with a list for 32 runs, one that is a number shorter and one for 33; and all rows.
fn ask_zigzag(rt: &impl Print, zigzag: &[i64]) -> io::Result<()> {
    ask_zigzag_row(rt, zigzag, &mut [-7i64; 64])?;
    ask_zigzag_row(rt, zigzag, &mut [-7i64; 63])?;
    ask_zigzag_row(rt, zigzag, &mut [-7i64; 66])?;
    let answer = Answer(route::check(zigzag, 1, false).map(|_| "accepted"));
    println!(rt; "{}: all rows {answer}", Zigzag(zigzag))
}

fn ask_zigzag_row(rt: &impl Print, zigzag: &[i64], out: &mut [i64]) -> io::Result<()> {
    print!(rt; "{}: ", Zigzag(zigzag))?;
    ask_row(rt, zigzag, 1, 2, out)
}

fn ask_row(
    rt: &impl Print,
    coordinates: &[i64],
    width: i64,
    row: i64,
    out: &mut [i64],
) -> io::Result<()> {
    let answer = route::row(coordinates, width, false, row, out);
    print!(rt; "row {row}")?;
    say_listed(rt, answer, out)
}

/// Strokes between rows 0 and 4, each four columns on, as far as the list goes.
fn draw_zigzag(out: &mut [i64])
    requires { length out.old ≤ 68 }
{
    for i in 0..out.len() {
        out[i] = zigzag_number(i);
    }
}

/// The number at place `i` of a zigzag's coordinates.
fn zigzag_number(i: usize) -> i64
    requires { i < 68 }
{
    match i % 4 {
        1 => 0,
        3 => 4,
        _ => (2 * i) as i64,
    }
}

/// A zigzag as text: a route of n points has n - 1 strokes.
#[derive(Clone, Copy)]
struct Zigzag<'a>(&'a [i64]);

impl fmt::Display for Zigzag<'_> {
    fn fmt<W: fmt::Write>(&self, f: &mut fmt::Formatter<W>) -> fmt::Result {
        let strokes = point_count(self.0).saturating_sub(1);
        write!(f, "zigzag of {strokes} strokes")
    }
}

/// Writes the squared distance of a crossing from a point.
fn say_square(rt: &impl Print, middle: Point, crossed: Result<Crossed, Refusal>) -> io::Result<()> {
    match crossed {
        Ok(Crossed::At(tip, _, _)) => print!(rt; "{}", squared_distance(middle, tip)),
        Ok(Crossed::Colinear) => print!(rt; "none"),
        Err(refusal) => print!(rt; "{refusal}"),
    }
}

/// The squared distance of two points within 4,095; of others -1.
fn squared_distance(a: Point, b: Point) -> i64 {
    if is_near(a, CORNER) && is_near(b, CORNER) {
        return squared_length(minus(b, a));
    }
    -1
}

/// What became of a join's miter.
fn fate_of(joined: Result<Join, Refusal>) -> &'static str {
    match joined.map(|join| join.kind) {
        Ok(Kind::Miter) => "kept",
        Ok(Kind::Bevel(_)) => "cut",
        Ok(_) => "none",
        Err(_) => "refused",
    }
}

fn say_edges(rt: &impl Print, edges: Result<Edges, Refusal>) -> io::Result<()> {
    match edges {
        Ok(edges) => println!(rt; "{} {}", edges.left, edges.right),
        Err(refusal) => println!(rt; "{refusal}"),
    }
}

/// Writes how long the list is, and all that stands in it after an accepted listing.
fn say_listed(rt: &impl Print, answer: Result<Listed, Refusal>, out: &[i64]) -> io::Result<()> {
    print!(rt; ", list of {}: ", out.len())?;
    match answer {
        Ok(listed) => {
            println!(rt;
                "runs {}, columns {}:{}",
                listed.count,
                listed.total,
                Numbers(out)
            )
        }
        Err(refusal) => println!(rt; "{refusal}"),
    }
}
