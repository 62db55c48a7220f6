//! Questions on thick lines.
use extents::extents;
use shapes::refusals::Refusal;
use shapes::{Line, Offset};
use std::io;
use test_text::{Numbers, after, line_at, offset_at};
use thick_points::{list_parallels, list_thick_points};

/// A line, a width, and an offset, which may be missing.
pub fn answer(rt: &impl Print, kind: u8, questions: &[u8], at: usize) -> io::Result<()> {
    let asked = line_at(questions, at);
    let line = asked.value;
    let width = test_numbers::number_at(questions, asked.next);
    let offset = offset_at(questions, after(width.next));
    match kind {
        b'x' => say_extents(rt, line, width.value, offset),
        b'p' => say_parallels(rt, line, width.value, offset),
        b't' => say_points(rt, line, width.value),
        _ => Ok(()),
    }
}

fn say_extents(rt: &impl Print, line: Line, width: i64, offset: Offset) -> io::Result<()> {
    match extents(line, width, offset) {
        Ok(edges) => print!(rt; "{} {}", edges.left, edges.right),
        Err(refusal) => print!(rt; "{refusal}"),
    }
}

fn say_parallels(rt: &impl Print, line: Line, width: i64, offset: Offset) -> io::Result<()> {
    let mut out = [0i64; 4096];
    let listed = list_parallels(line, width, offset, &mut out);
    say_listed(rt, listed, 4, &out)
}

fn say_points(rt: &impl Print, line: Line, width: i64) -> io::Result<()> {
    let mut out = [0i64; 4096];
    let listed = list_thick_points(line, width, &mut out);
    say_listed(rt, listed, 2, &out)
}

/// How many were listed, and then `each` numbers of every one, from the front of a list.
fn say_listed(
    rt: &impl Print,
    listed: Result<usize, Refusal>,
    each: usize,
    numbers: &[i64],
) -> io::Result<()> {
    match listed {
        Ok(count) => {
            let n = count.saturating_mul(each).min(numbers.len());
            print!(rt; "{count}{}", Numbers(&numbers[..n]))
        }
        Err(refusal) => print!(rt; "{refusal}"),
    }
}
