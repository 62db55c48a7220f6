//! Answers as text.
use scanline::inner::new_span;
use shapes::Span;
use shapes::refusals::Refusal;
use std::{fmt, io};
use writing::say_refused;

/// Writes what an entry answers: the value, or the refusal in its place.
pub fn say_answer<T: fmt::Display + Copy>(
    rt: &impl Print,
    answer: Result<T, Refusal>,
) -> io::Result<()> {
    match answer {
        Ok(value) => print!(rt; "{value}"),
        Err(refusal) => say_refusal(refusal),
    }
}

/// Writes a refusal as `rows` writes it, which tells of no error.
pub fn say_refusal(refusal: Refusal) -> io::Result<()> {
    say_refused(refusal);
    Ok(())
}

/// What an entry answers: the value, or the refusal in its place.
#[derive(Clone, Copy)]
pub struct Answer<T>(pub Result<T, Refusal>);

impl<T: fmt::Display> fmt::Display for Answer<T> {
    fn fmt<W: fmt::Write>(&self, f: &mut fmt::Formatter<W>) -> fmt::Result {
        match &self.0 {
            Ok(value) => write!(f, "{value}"),
            Err(refusal) => write!(f, "{refusal}"),
        }
    }
}

/// A refusal's number; 0 where there is none.
#[derive(Clone, Copy)]
pub struct Number(pub Option<Refusal>);

impl fmt::Display for Number {
    fn fmt<W: fmt::Write>(&self, f: &mut fmt::Formatter<W>) -> fmt::Result {
        write!(f, "{}", self.0.map_or(0, |refusal| refusal.number()))
    }
}

/// A refusal's number and its bend; 0 and 0 where there is none.
#[derive(Clone, Copy)]
pub struct Bend(pub Option<Refusal>);

impl fmt::Display for Bend {
    fn fmt<W: fmt::Write>(&self, f: &mut fmt::Formatter<W>) -> fmt::Result {
        let bend = self.0.map_or(0, |refusal| refusal.bend());
        write!(f, "{} {bend}", Number(self.0))
    }
}

/// The columns at which a span starts and ends.
#[derive(Clone, Copy)]
pub struct Columns(pub Span);

impl fmt::Display for Columns {
    fn fmt<W: fmt::Write>(&self, f: &mut fmt::Formatter<W>) -> fmt::Result {
        write!(f, "{} {}", self.0.start, self.0.end)
    }
}

/// Whether there is a span, and that span, with zeros where there is none.
#[derive(Clone, Copy)]
pub struct Found(pub Option<Span>);

impl fmt::Display for Found {
    fn fmt<W: fmt::Write>(&self, f: &mut fmt::Formatter<W>) -> fmt::Result {
        write!(f, "{} {}", self.0.is_some(), self.0.unwrap_or(new_span(0)))
    }
}
