//! Questions as text, for the programs that replay stored questions: sizes, points and lines are read out of a question.
#![tactic(auto)]

ghost use Rattle.std.specs.Prelude.{◌≡◌, ◌≤◌, ◌<◌, length, All, IfSome};
ghost use Rattle.test_text.specs.Questions.{next_place, point_at, line_at, offset_at};

mod untold; // untold.rt: output of which no error is told

use shapes::{Line, Offset, Point};
use std::fmt;
use test_numbers::{Read, byte_at, number_at};
pub use untold::Untold;

/// The place after a byte, in a text of less than four million bytes; there the place stays.
#[tactic(auto, unfolding(crate::specs::Questions::next_place))]
pub fn after(at: usize) -> usize
    ensures { result ≡ next_place at }
{
    if at < 4000000 { at + 1 } else { at }
}

/// A number from 0 to `most` as a size; any other is `most`.
pub fn size_up_to(most: usize, n: i64) -> usize
    ensures { result ≤ most }
{
    usize::try_from(n).unwrap_or(most).min(most)
}

/// The point whose coordinates stand at a place, a byte between them, and the place of the number after it.
#[tactic(auto, unfolding(crate::specs::Questions::point_at))]
pub fn point_at(s: &[u8], at: usize) -> Read<Point>
    ensures { result ≡ point_at s.now at }
{
    let x = number_at(s, at);
    let y = number_at(s, after(x.next));
    Read {
        value: Point {
            x: x.value,
            y: y.value,
        },
        next: after(y.next),
    }
}

/// The line whose start and end stand at a place, a byte between them, and the place of the number after it.
#[tactic(auto, unfolding(crate::specs::Questions::line_at))]
pub fn line_at(s: &[u8], at: usize) -> Read<Line>
    ensures { result ≡ line_at s.now at }
{
    let a = point_at(s, at);
    let b = point_at(s, a.next);
    Read {
        value: Line {
            start: a.value,
            end: b.value,
        },
        next: b.next,
    }
}

/// The offset that stands at a place: 1 is Left, 2 is Right, and all else is None.
#[tactic(auto, unfolding(crate::specs::Questions::offset_at))]
pub fn offset_at(s: &[u8], at: usize) -> Offset
    ensures { result ≡ offset_at s.now at }
{
    match byte_at(s, at) {
        b'1' => Offset::Left,
        b'2' => Offset::Right,
        _ => Offset::None,
    }
}

/// Reads the bytes that stand at a place, two hexadecimal digits each, up to what is no byte, as many as
/// the list has room for; answers how many they are.
pub fn read_bytes(lines: &[u8], at: usize, file: &mut [u8]) -> usize
    ensures { result ≤ length file.new }
{
    let mut next = at;
    for n in 0..file.len() {
        let high = digit_of(byte_at(lines, next));
        let low = digit_of(byte_at(lines, after(next)));
        let (Some(high), Some(low)) = (high, low) else {
            return n;
        };
        file[n] = 16 * high + low;
        next = after(after(next));
    }
    file.len()
}

/// What a hexadecimal digit says; none of any other byte.
fn digit_of(byte: u8) -> Option<u8>
    ensures { IfSome result (λ d. d < 16) }
{
    match byte {
        b'0'..=b'9' => Some(byte - b'0'),
        b'a'..=b'f' => Some(byte - b'a' + 10),
        _ => None,
    }
}

/// Room for `N` bytes, all 0.
pub fn room<const N: usize>() -> [u8; N]
    ensures bytes { N ≡ length result }
    ensures zeros { All (λ b. b ≡ 0) result }
{
    [0; N]
}

/// Numbers as text, a space before each.
#[derive(Clone, Copy)]
pub struct Numbers<'a>(pub &'a [i64]);

impl fmt::Display for Numbers<'_> {
    fn fmt<W: fmt::Write>(&self, f: &mut fmt::Formatter<W>) -> fmt::Result {
        for number in self.0 {
            write!(f, " {number}")?;
        }
        Ok(())
    }
}
