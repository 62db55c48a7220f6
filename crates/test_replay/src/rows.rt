//! Questions on the rows of a route.
use crate::answers::Bend;
use route::{Listed, Rows, check, row, rows};
use std::io::Result;
use test_text::Numbers;

/// All that `rows`, `row` and `check` answer of the route, open and closed.
pub fn say_rows(rt: &impl Print, coordinates: &[i64], width: i64, at: i64) -> Result<()> {
    for closed in [false, true] {
        say_range(rt, coordinates, width, closed)?;
    }
    for closed in [false, true] {
        say_row(rt, coordinates, width, closed, at)?;
    }
    let open = Bend(check(coordinates, width, false).err());
    let closed = Bend(check(coordinates, width, true).err());
    print!(rt; "{open} | {closed}")
}

fn say_range(rt: &impl Print, coordinates: &[i64], width: i64, closed: bool) -> Result<()> {
    let answer = rows(coordinates, width, closed);
    let range = answer.unwrap_or(None);
    let Rows { first, last } = range.unwrap_or(Rows { first: 0, last: 0 });
    let refusal = Bend(answer.err());
    let found = range.is_some();
    print!(rt; "{refusal} {found} {first} {last} | ")
}

/// The runs go to a list of six numbers, which were -7.
fn say_row(rt: &impl Print, coordinates: &[i64], width: i64, closed: bool, at: i64) -> Result<()> {
    let mut out = [-7i64; 6];
    let answer = row(coordinates, width, closed, at, &mut out);
    let Listed { count, total } = answer.unwrap_or(Listed { count: 0, total: 0 });
    let refusal = Bend(answer.err());
    print!(rt; "{refusal} {count} {total}{} | ", Numbers(&out))
}
