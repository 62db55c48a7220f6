//! Joins in the questions and answers of the programs that replay stored questions.
#![tactic(auto)]

ghost use Rattle.std.specs.Prelude.{◌≡◌};
ghost use Rattle.line_join.specs.Join.{corners_of};
ghost use Rattle.test_joins.specs.Joins.{kind_of, join_at};

use line_join::trace::no_crossings;
use line_join::{Corners, Join, Kind, Origin, Origins};
use shapes::{Divisions, Line, Side};
use std::fmt;
use test_numbers::{Read, byte_at, number_at};
use test_text::{after, line_at};
use whole::Division;

/// The join at a place, and the place of the number after it: a digit for its kind, its position, and eight coordinates, a byte
/// between each two. The corners at which the line before it ends come first, left before right; no corner is told to be a
/// crossing. A position has no sign.
#[tactic(auto, unfolding(crate::specs::Joins::join_at))]
pub fn join_at(s: &[u8], at: usize) -> Read<Join>
    ensures { result ≡ join_at s.now at }
{
    let kind = kind_of(byte_at(s, at));
    let position = number_at(s, after(after(at)));
    let first = line_at(s, after(position.next));
    let second = line_at(s, first.next);
    Read {
        value: Join {
            kind,
            ending: corners_of(first.value),
            starting: corners_of(second.value),
            origins: no_crossings(),
            position: position.value.unsigned_abs() as usize,
        },
        next: second.next,
    }
}

/// The left and the right corner: a line's start and end.
fn corners_of(line: Line) -> Corners
    ensures { result ≡ corners_of line.start line.end }
{
    Corners {
        left: line.start,
        right: line.end,
    }
}

/// The kind that a digit stands for; all else is the end of a route.
#[tactic(auto, unfolding(crate::specs::Joins::kind_of))]
fn kind_of(digit: u8) -> Kind
    ensures { result ≡ kind_of digit }
{
    match digit {
        b'0' => Kind::Miter,
        b'1' => Kind::Bevel(Side::Left),
        b'2' => Kind::Bevel(Side::Right),
        b'3' => Kind::Degenerate(Side::Left),
        b'4' => Kind::Degenerate(Side::Right),
        b'5' => Kind::Colinear,
        b'6' => Kind::Start,
        _ => Kind::End,
    }
}

/// A join as text: its kind in words, its eight coordinates, the origins of its left and of its right corners, and its position.
#[derive(Clone, Copy)]
pub struct Told(pub Join);

impl fmt::Display for Told {
    fn fmt<W: fmt::Write>(&self, f: &mut fmt::Formatter<W>) -> fmt::Result {
        let join = self.0;
        write_kind(f, join.kind)?;
        write!(f, " {} {}", join.ending.left, join.ending.right)?;
        write!(f, " {} {}", join.starting.left, join.starting.right)?;
        write!(f, "{} {}", Crossings(join.origins), join.position)
    }
}

/// The origins of left and right corners as text, a space before each: the letters of a crossing, else a dash.
#[derive(Clone, Copy)]
pub struct Crossings(pub Origins);

impl fmt::Display for Crossings {
    fn fmt<W: fmt::Write>(&self, f: &mut fmt::Formatter<W>) -> fmt::Result {
        write_origin(f, self.0.left)?;
        write_origin(f, self.0.right)
    }
}

/// Divisions as text, a letter for each coordinate: E where it is exact, H half way, R where it is rounded.
#[derive(Clone, Copy)]
pub struct Letters(pub Divisions);

impl fmt::Display for Letters {
    fn fmt<W: fmt::Write>(&self, f: &mut fmt::Formatter<W>) -> fmt::Result {
        write!(f, "{}{}", letter_of(self.0.x), letter_of(self.0.y))
    }
}

fn letter_of(division: Division) -> char {
    match division {
        Division::Exact => 'E',
        Division::Half => 'H',
        Division::Rounded => 'R',
    }
}

fn write_origin<W: fmt::Write>(f: &mut fmt::Formatter<W>, origin: Origin) -> fmt::Result {
    match origin {
        Origin::Crossing(divisions) => write!(f, " {}", Letters(divisions)),
        Origin::NotACrossing => write!(f, " -"),
    }
}

fn write_kind<W: fmt::Write>(f: &mut fmt::Formatter<W>, kind: Kind) -> fmt::Result {
    match kind {
        Kind::Bevel(side) => write!(f, "Bevel {side:?}"),
        Kind::Degenerate(side) => write!(f, "Degenerate {side:?}"),
        kind => write!(f, "{kind:?}"),
    }
}
