//! Questions on walks along a route, and on its merged spans.
use crate::answers::{Bend, Columns, Found, Number, say_refusal};
use crate::rows::say_rows;
use closed_thick_segment_iter::Walk as ClosedWalk;
use route_joins::{Stepped, Walk};
use scanline::inner::new_span;
use scanline_intersections::Intersections;
use shapes::refusals::Refusal;
use shapes::{Offset, Span};
use std::{fmt, io};
use test_joins::Told;
use test_text::{after, offset_at, size_up_to};
use thick_segment::Segment;
use thick_segment_iter::Walk as OpenWalk;

/// What stands before the list of coordinates: how many there are, and the place of the first.
#[derive(Clone, Copy, Debug, PartialEq, Eq)]
struct Asked {
    kind: u8,
    width: i64,
    offset: Offset,
    row: i64,
    count: i64,
    next: usize,
}

/// A width, an offset, a row, and a list of coordinates after their number.
pub fn answer(rt: &impl Print, kind: u8, questions: &[u8], at: usize) -> io::Result<()> {
    let asked = asked_at(kind, questions, at);
    let n = size_up_to(520, asked.count);
    let mut room = [0i64; 520];
    answer_in(rt, questions, asked, &mut room[..n])
}

fn asked_at(kind: u8, questions: &[u8], at: usize) -> Asked {
    let width = test_numbers::number_at(questions, at);
    let place = after(width.next);
    let offset = offset_at(questions, place);
    let row = test_numbers::number_at(questions, after(after(place)));
    let count = test_numbers::number_at(questions, after(row.next));
    Asked {
        kind,
        width: width.value,
        offset,
        row: row.value,
        count: count.value,
        next: after(count.next),
    }
}

/// The list has as many places as there are coordinates.
fn answer_in(rt: &impl Print, questions: &[u8], asked: Asked, list: &mut [i64]) -> io::Result<()> {
    read_numbers(questions, asked.next, list);
    answer_kind(rt, asked, list)
}

/// Reads as many numbers as the list has places, a byte between each two.
fn read_numbers(questions: &[u8], at: usize, out: &mut [i64]) {
    let mut next = at;
    for place in out.iter_mut() {
        let number = test_numbers::number_at(questions, next);
        *place = number.value;
        next = after(number.next);
    }
}

fn answer_kind(rt: &impl Print, asked: Asked, coordinates: &[i64]) -> io::Result<()> {
    let width = asked.width;
    let offset = asked.offset;
    let row = asked.row;
    match asked.kind {
        b'O' => {
            let begun = thick_segment_iter::start(coordinates, width);
            say_walk(rt, begun, |walk| step(coordinates, walk))
        }
        b'C' => {
            let begun = closed_thick_segment_iter::start(coordinates, width, offset);
            say_walk(rt, begun, |walk| step(coordinates, walk))
        }
        b'N' => {
            let begun = scanline_intersections::start(coordinates, width, 0);
            say_walk(rt, begun, |walk| next_segment(coordinates, walk))
        }
        b'M' => {
            let begun = scanline_intersections::start(coordinates, width, row);
            say_walk(rt, begun, |walk| next_span(coordinates, walk))
        }
        b'o' => say_starts(rt, coordinates, width, offset, row),
        b'v' => say_next_of(rt, coordinates, width, row),
        b'w' => say_rows(rt, coordinates, width, row),
        _ => Ok(()),
    }
}

/// Tells what a walk hands out, to its end or to a refusal: no route has more than 256 segments.
fn say_walk<W: Copy, T: fmt::Display + Copy, N: Fn(&mut W) -> Result<Option<T>, Refusal>>(
    rt: &impl Print,
    begun: Result<W, Refusal>,
    next: N,
) -> io::Result<()>
    requires { N.IsAlwaysCallable next }
{
    let mut walk = match begun {
        Ok(walk) => walk,
        Err(refusal) => return say_refusal(refusal),
    };
    for _ in 0..300 {
        match next(&mut walk) {
            Ok(Some(found)) => print!(rt; "{found}")?,
            Ok(None) => return print!(rt; "end"),
            Err(refusal) => return say_refusal(refusal),
        }
    }
    Ok(())
}

/// The next segment of a walk.
fn step<W: Walk>(coordinates: &[i64], walk: &mut W) -> Result<Option<Ends>, Refusal> {
    told(walk, W::step(coordinates, *walk))
}

/// The next segment of a polyline's walk.
fn next_segment(coordinates: &[i64], walk: &mut Intersections) -> Result<Option<Ends>, Refusal> {
    told(
        walk,
        scanline_intersections::next_segment(coordinates, *walk),
    )
}

/// The next merged span of a polyline's walk.
fn next_span(coordinates: &[i64], walk: &mut Intersections) -> Result<Option<Merged>, Refusal> {
    Ok(scanline_intersections::next(coordinates, walk)?.map(Merged))
}

/// What a step answered; the walk goes on from there.
fn told<W: Copy>(walk: &mut W, stepped: Stepped<W>) -> Result<Option<Ends>, Refusal> {
    *walk = stepped.walk;
    Ok(stepped.step?.map(Ends))
}

/// The two joins of a segment, of which more may follow.
#[derive(Clone, Copy)]
struct Ends(Segment);

impl fmt::Display for Ends {
    fn fmt<W: fmt::Write>(&self, f: &mut fmt::Formatter<W>) -> fmt::Result {
        write!(f, "{} / {} | ", Told(self.0.start), Told(self.0.end))
    }
}

/// The columns of a merged span, of which more may follow.
#[derive(Clone, Copy)]
struct Merged(Span);

impl fmt::Display for Merged {
    fn fmt<W: fmt::Write>(&self, f: &mut fmt::Formatter<W>) -> fmt::Result {
        write!(f, "{} ", Columns(self.0))
    }
}

/// What the three starts answer: the refusal's number, and the walk's fields, zeros where it is refused.
fn say_starts(
    rt: &impl Print,
    coordinates: &[i64],
    width: i64,
    offset: Offset,
    row: i64,
) -> io::Result<()> {
    let answer = thick_segment_iter::start(coordinates, width);
    let walk = answer.unwrap_or(OpenWalk { place: 0, width: 0 });
    let refusal = Number(answer.err());
    print!(rt; "{refusal} {} {} | ", walk.place, walk.width)?;
    let answer = closed_thick_segment_iter::start(coordinates, width, offset);
    let walk = answer.unwrap_or(ClosedWalk {
        place: 0,
        width: 0,
        offset: Offset::None,
    });
    let refusal = Number(answer.err());
    print!(rt;
        "{refusal} {} {} {:?} | ",
        walk.place, walk.width, walk.offset
    )?;
    let answer = scanline_intersections::start(coordinates, width, row);
    let walk = answer.unwrap_or(Intersections {
        place: 0,
        width: 0,
        span: new_span(0),
    });
    let refusal = Number(answer.err());
    print!(rt; "{refusal} {} {} {}", walk.place, walk.width, walk.span)
}

/// What the polyline's `next` answers to a walk at place 1 that has gathered 5 to 9: the refusal's number and the bend, whether there
/// is a span, the span, and the walk after it.
fn say_next_of(rt: &impl Print, coordinates: &[i64], width: i64, row: i64) -> io::Result<()> {
    let mut walk = Intersections {
        place: 1,
        width,
        span: Span {
            row,
            start: 5,
            end: 9,
        },
    };
    let answer = scanline_intersections::next(coordinates, &mut walk);
    let refusal = Bend(answer.err());
    let found = Found(answer.unwrap_or(None));
    let Intersections { place, width, span } = walk;
    print!(rt; "{refusal} {found} | {place} {width} {span}")
}
