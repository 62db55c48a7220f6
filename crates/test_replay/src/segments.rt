//! Questions on segments between two joins, and on spans of a row.
use crate::answers::{Answer, Bend, Columns, Found, Number, say_answer, say_refusal};
use scanline::{meet, try_extend, try_take};
use shapes::Span;
use shapes::refusals::Refusal;
use std::{fmt, io};
use test_joins::join_at;
use test_numbers::{Read, number_at};
use test_text::{Numbers, after, line_at};
use thick_segment::{
    EdgePair, Rectangle, Segment, drawn_rows, edges, edges_bounding_box, is_skeleton, perimeter,
    perimeter_count, span,
};

pub fn answer(rt: &impl Print, kind: u8, questions: &[u8], at: usize) -> io::Result<()> {
    match kind {
        b'k' | b'q' | b'r' | b'b' => answer_segment(rt, kind, questions, at),
        b'm' => answer_meet(rt, questions, at),
        b'u' => answer_extend(rt, questions, at),
        b'y' => answer_take(rt, questions, at),
        _ => Ok(()),
    }
}

/// A segment, and a row, which may be missing.
fn answer_segment(rt: &impl Print, kind: u8, questions: &[u8], at: usize) -> io::Result<()> {
    let asked = segment_at(questions, at);
    let segment = asked.value;
    let row = number_at(questions, asked.next).value;
    match kind {
        b'k' => say_segment(rt, segment),
        b'q' => say_drawn_rows(rt, segment),
        b'r' => say_span(rt, span(segment, row)),
        b'b' => say_bends(rt, segment, row),
        _ => Ok(()),
    }
}

fn answer_meet(rt: &impl Print, questions: &[u8], at: usize) -> io::Result<()> {
    let asked = line_at(questions, at);
    let mut span = span_at(questions, asked.next).value;
    say_span(rt, meet(&mut span, asked.value).map(|()| span))
}

fn answer_extend(rt: &impl Print, questions: &[u8], at: usize) -> io::Result<()> {
    let first = span_at(questions, at);
    let second = span_at(questions, first.next);
    let mut span = first.value;
    match try_extend(&mut span, second.value) {
        Ok(joined) => print!(rt; "{joined} {}", Columns(span)),
        Err(refusal) => say_refusal(refusal),
    }
}

/// Whether a span is handed out, that span, and what is left, behind the refusal, 0 where there is none.
fn answer_take(rt: &impl Print, questions: &[u8], at: usize) -> io::Result<()> {
    let mut span = span_at(questions, at).value;
    let taken = try_take(&mut span);
    let refusal = Number(taken.err());
    let handed = Found(taken.unwrap_or(None));
    print!(rt; "{refusal} {handed} | {span}")
}

/// Two joins, and the place of the number after them.
fn segment_at(questions: &[u8], at: usize) -> Read<Segment> {
    let first = join_at(questions, at);
    let last = join_at(questions, first.next);
    Read {
        value: Segment {
            start: first.value,
            end: last.value,
        },
        next: last.next,
    }
}

/// A row, and the columns at which a span starts and ends; and the place of the number after them.
fn span_at(questions: &[u8], at: usize) -> Read<Span> {
    let row = number_at(questions, at);
    let start = number_at(questions, after(row.next));
    let end = number_at(questions, after(start.next));
    Read {
        value: Span {
            row: row.value,
            start: start.value,
            end: end.value,
        },
        next: after(end.next),
    }
}

/// Whether the segment is a skeleton, its edges, their bounding box, and the lines that are drawn.
fn say_segment(rt: &impl Print, segment: Segment) -> io::Result<()> {
    match is_skeleton(segment) {
        Ok(skeleton) => {
            let edges = Answer(edges(segment).map(Edges));
            let pixels = Answer(edges_bounding_box(segment).map(Pixels));
            print!(rt; "{skeleton} | {edges} | {pixels} | ")?;
            say_perimeter(rt, segment)
        }
        Err(refusal) => say_refusal(refusal),
    }
}

/// How many lines are drawn, and those lines.
fn say_perimeter(rt: &impl Print, segment: Segment) -> io::Result<()> {
    let answer = perimeter_count(segment);
    print!(rt; "{}", Answer(answer))?;
    for row in perimeter(segment).iter().take(answer.unwrap_or(0)) {
        print!(rt; "{}", Numbers(row))?;
    }
    Ok(())
}

/// The first and the last row of the lines that are drawn.
fn say_drawn_rows(rt: &impl Print, segment: Segment) -> io::Result<()> {
    match drawn_rows(segment) {
        Ok(rows) => print!(rt; "{} {}", rows.first, rows.last),
        Err(refusal) => say_refusal(refusal),
    }
}

/// A span's columns, or the refusal in their place.
fn say_span(rt: &impl Print, answer: Result<Span, Refusal>) -> io::Result<()> {
    say_answer(rt, answer.map(Columns))
}

/// What each entry refuses a segment and a row with, and the bend that it names.
fn say_bends(rt: &impl Print, segment: Segment, row: i64) -> io::Result<()> {
    let skeleton = Bend(is_skeleton(segment).err());
    let edges = Bend(edges(segment).err());
    let pixels = Bend(edges_bounding_box(segment).err());
    let count = Bend(perimeter_count(segment).err());
    let rows = Bend(drawn_rows(segment).err());
    let span = Bend(span(segment, row).err());
    print!(rt; "{skeleton} | {edges} | {pixels} | {count} | {rows} | {span}")
}

/// The right edge and the left one.
#[derive(Clone, Copy)]
struct Edges(EdgePair);

impl fmt::Display for Edges {
    fn fmt<W: fmt::Write>(&self, f: &mut fmt::Formatter<W>) -> fmt::Result {
        write!(f, "{} {}", self.0.right, self.0.left)
    }
}

/// The top left corner of a rectangle, and its width and height in pixels.
#[derive(Clone, Copy)]
struct Pixels(Rectangle);

impl fmt::Display for Pixels {
    fn fmt<W: fmt::Write>(&self, f: &mut fmt::Formatter<W>) -> fmt::Result {
        let Rectangle { first, last } = self.0;
        let width = pixels_to(first.x, last.x);
        let height = pixels_to(first.y, last.y);
        write!(f, "{first} {width} {height}")
    }
}

/// How many columns or rows there are from one to another, both included.
fn pixels_to(first: i64, last: i64) -> i64 {
    last.saturating_sub(first).saturating_add(1)
}
