//! Questions on joins.
use crate::answers::{Answer, Bend, say_answer, say_refusal};
use line_join::{
    Caps, Join, end, end_cap_lines, filler_line, from_points, is_degenerate, start, start_cap_lines,
};
use shapes::Line;
use shapes::refusals::Refusal;
use std::{fmt, io};
use test_joins::{Told, join_at};
use test_text::{after, line_at, offset_at, point_at};

pub fn answer(rt: &impl Print, kind: u8, questions: &[u8], at: usize) -> io::Result<()> {
    match kind {
        b'a' | b'z' => answer_end(rt, kind, questions, at),
        b'j' => answer_points(rt, questions, at),
        b'f' => say_lines(rt, join_at(questions, at).value),
        b'g' => say_each(rt, join_at(questions, at).value),
        _ => Ok(()),
    }
}

/// The join at the start or at the end of a line.
fn answer_end(rt: &impl Print, kind: u8, questions: &[u8], at: usize) -> io::Result<()> {
    let asked = line_at(questions, at);
    let line = asked.value;
    let width = test_numbers::number_at(questions, asked.next);
    let offset = offset_at(questions, after(width.next));
    if kind == b'a' {
        say_joined(rt, start(line.start, line.end, width.value, offset))
    } else {
        say_joined(rt, end(line.start, line.end, width.value, offset))
    }
}

fn answer_points(rt: &impl Print, questions: &[u8], at: usize) -> io::Result<()> {
    let asked = line_at(questions, at);
    let line = asked.value;
    let last = point_at(questions, asked.next);
    let width = test_numbers::number_at(questions, last.next);
    let offset = offset_at(questions, after(width.next));
    say_joined(
        rt,
        from_points(line.start, line.end, last.value, width.value, offset),
    )
}

fn say_joined(rt: &impl Print, answer: Result<Join, Refusal>) -> io::Result<()> {
    say_answer(rt, answer.map(Told))
}

/// The filler line, the lines of both caps, and whether the join is degenerate.
fn say_lines(rt: &impl Print, join: Join) -> io::Result<()> {
    match is_degenerate(join) {
        Ok(degenerate) => print!(rt; "{} | {degenerate}", Filled(join)),
        Err(refusal) => say_refusal(refusal),
    }
}

/// The three lines of a join, each entry by itself, and all that `is_degenerate` answers: the refusal and the position, 0 where
/// there is none, and whether it is degenerate, false where it is refused.
fn say_each(rt: &impl Print, join: Join) -> io::Result<()> {
    let answer = is_degenerate(join);
    let degenerate = answer.unwrap_or(false);
    print!(rt; "{} | {} {degenerate}", Filled(join), Bend(answer.err()))
}

/// The filler line of a join, and the lines of both caps.
#[derive(Clone, Copy)]
struct Filled(Join);

impl fmt::Display for Filled {
    fn fmt<W: fmt::Write>(&self, f: &mut fmt::Formatter<W>) -> fmt::Result {
        let filler = Answer(filler_line(self.0).map(Filler));
        let first = Answer(start_cap_lines(self.0).map(CapLines));
        let last = Answer(end_cap_lines(self.0).map(CapLines));
        write!(f, "{filler} | {first} | {last}")
    }
}

/// A filler line, if there is one.
#[derive(Clone, Copy)]
struct Filler(Option<Line>);

impl fmt::Display for Filler {
    fn fmt<W: fmt::Write>(&self, f: &mut fmt::Formatter<W>) -> fmt::Result {
        match self.0 {
            Some(line) => write!(f, "{line}"),
            None => write!(f, "none"),
        }
    }
}

/// How many lines a cap has, and these lines.
#[derive(Clone, Copy)]
struct CapLines(Caps);

impl fmt::Display for CapLines {
    fn fmt<W: fmt::Write>(&self, f: &mut fmt::Formatter<W>) -> fmt::Result {
        match self.0 {
            Caps::One(line) => write!(f, "1 {line}"),
            Caps::Two(first, second) => write!(f, "2 {first} {second}"),
        }
    }
}
