//! Steps sample routes in place, from the first segment to the end and once more. A line tells what a step answers, behind the place
//! that it leaves its walk at: of a segment the right edge, the left edge, the start and end of its span on one row, and of each of its two joins the origins and the position. The
//! spans of a route go to a board of that row, whose runs are then listed to twelve numbers and to four records. The last three walks are refused.
#![tactic(auto)]

mod owners; // owners.rt: owners that lend what is worked on in place

use board::inner::empty_board;
use board::{Board, Run};
use line_join::Join;
use route_joins::{Step, Stepped};
use shapes::Offset;
use std::{fmt, io};
use test_joins::Crossings;
use test_text::{Numbers, Untold};
use thick_segment::Segment;

// Shows a segment, and offers its span on the board's row to the board.
fn draw(rt: &impl Print, segment: Segment, board: &mut Board) -> io::Result<()> {
    let (Ok(edges), Ok(span)) = (
        thick_segment::edges(segment),
        thick_segment::span(segment, board.row),
    ) else {
        return Ok(());
    };
    print!(rt;
        "{} {} {} {}",
        edges.right, edges.left, span.start, span.end
    )?;
    print!(rt; "{}{}", Whence(segment.start), Whence(segment.end))?;
    let _ = board.offer(span);
    Ok(())
}

// The origins and the position of a join, a space before each.
#[derive(Clone, Copy)]
struct Whence(Join);

impl fmt::Display for Whence {
    fn fmt<W: fmt::Write>(&self, f: &mut fmt::Formatter<W>) -> fmt::Result {
        write!(f, "{} {}", Crossings(self.0.origins), self.0.position)
    }
}

// A step's line; a segment's span goes to the board.
fn show(rt: &impl Print, place: usize, step: Step, board: &mut Board) -> io::Result<()> {
    print!(rt; "{place} ")?;
    match step {
        Ok(Some(segment)) => draw(rt, segment, board)?,
        Ok(None) => print!(rt; "end")?,
        Err(refusal) => print!(rt; "{refusal}")?,
    }
    println!(rt)
}

// The board's line: refusal, runs and columns, then the numbers, which were -7, and the records, which were -8 to -9.
fn list(rt: &impl Print, board: &Board) -> io::Result<()> {
    let lists = owners::list(board, [-7; 12], [Run { start: -8, end: -9 }; 4]);
    let (refusal, count, total) = match lists.listed {
        Ok(listed) => (0, listed.count, listed.total),
        Err(refusal) => (refusal.number(), 0, 0),
    };
    print!(rt; "{refusal} {count} {total} |{} |", Numbers(&lists.numbers))?;
    for run in &lists.records {
        print!(rt; " {} {}", run.start, run.end)?;
    }
    println!(rt)
}

#[derive(Clone, Copy)]
enum Walker {
    Open(thick_segment_iter::Walk),
    Closed(closed_thick_segment_iter::Walk),
}

impl Walker {
    fn place(self) -> usize {
        match self {
            Walker::Open(walk) => walk.place,
            Walker::Closed(walk) => walk.place,
        }
    }
}

// What a step answers, and the walk as it was left.
fn step(coordinates: &[i64], walker: Walker) -> Stepped<Walker> {
    match walker {
        Walker::Open(walk) => {
            let stepped = owners::open_step(coordinates, walk);
            Stepped {
                step: stepped.step,
                walk: Walker::Open(stepped.walk),
            }
        }
        Walker::Closed(walk) => {
            let stepped = owners::closed_step(coordinates, walk);
            Stepped {
                step: stepped.step,
                walk: Walker::Closed(stepped.walk),
            }
        }
    }
}

// `steps` steps of a walk, and the listing.
fn walk(
    rt: &impl Print,
    coordinates: &[i64],
    start: Walker,
    row: i64,
    steps: usize,
) -> io::Result<()> {
    let mut walker = start;
    let mut board = Board::fresh(row).unwrap_or(empty_board(0));
    for _ in 0..steps {
        let stepped = step(coordinates, walker);
        walker = stepped.walk;
        show(rt, walker.place(), stepped.step, &mut board)?;
    }
    list(rt, &board)
}

// An open walk from its start on, for each of its segments and twice at the end.
fn open_route(rt: &impl Print, coordinates: &[i64], width: i64, row: i64) -> io::Result<()> {
    if let Ok(begun) = thick_segment_iter::start(coordinates, width) {
        let steps = coordinates.len() / 2 + 1;
        walk(rt, coordinates, Walker::Open(begun), row, steps)?;
    }
    Ok(())
}

// A closed walk likewise.
fn closed_route(
    rt: &impl Print,
    coordinates: &[i64],
    width: i64,
    offset: Offset,
    row: i64,
) -> io::Result<()> {
    if let Ok(begun) = closed_thick_segment_iter::start(coordinates, width, offset) {
        let steps = coordinates.len() / 2 + 2;
        walk(rt, coordinates, Walker::Closed(begun), row, steps)?;
    }
    Ok(())
}

// Walks that are refused stay where they are: one is too wide, one has a point twice on end, one comes back to its first point.
fn refused_walks(
    rt: &impl Print,
    coordinates: &[i64],
    doubled: &[i64],
    returned: &[i64],
) -> io::Result<()> {
    let wide = thick_segment_iter::Walk {
        place: 2,
        width: 65,
    };
    walk(rt, coordinates, Walker::Open(wide), 20, 2)?;
    let open = thick_segment_iter::Walk { place: 2, width: 3 };
    walk(rt, doubled, Walker::Open(open), 20, 2)?;
    let closed = closed_thick_segment_iter::Walk {
        place: 2,
        width: 3,
        offset: Offset::None,
    };
    walk(rt, returned, Walker::Closed(closed), 20, 2)
}

fn main(rt: HostRuntime) -> io::Result<()> {
    let rt = Untold(&rt);
    let zigzag = [0i64, 0, 10, 40, 20, 0, 30, 40, 40, 0, 50, 40];
    open_route(&rt, &zigzag[..10], 3, 20)?;
    open_route(&rt, &zigzag[..10], 7, 3)?;
    closed_route(&rt, &zigzag, 3, Offset::Left, 20)?;
    closed_route(&rt, &zigzag[..6], 5, Offset::Right, 11)?;
    let doubled = [0i64, 0, 10, 40, 10, 40, 20, 0];
    let returned = [0i64, 0, 10, 40, 20, 0, 0, 0];
    refused_walks(&rt, &zigzag, &doubled, &returned)
}
