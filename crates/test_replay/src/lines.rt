//! Questions on lines.
use crate::answers::Answer;
use intersection_params::{Crossed, crossing, nearly_colinear};
use linear_equation::{check_side, distance, equation};
use shapes::{Line, Point, Side};
use std::io::Result;
use test_joins::Letters;
use test_text::line_at;

/// The points a to d, of which the last may be missing.
pub fn answer(rt: &impl Print, kind: u8, questions: &[u8], at: usize) -> Result<()> {
    let first = line_at(questions, at);
    let second = line_at(questions, first.next).value;
    let line = first.value;
    let point = second.start;
    match kind {
        b'e' => say_equation(rt, line),
        b'd' => print!(rt; "{}", Answer(distance(line, point))),
        b's' => say_sides(rt, line, point),
        b'c' => say_crossing(rt, line, second),
        b'n' => print!(rt; "{}", Answer(nearly_colinear(line, second))),
        _ => Ok(()),
    }
}

fn say_equation(rt: &impl Print, line: Line) -> Result<()> {
    match equation(line) {
        Ok(found) => print!(rt; "{} {}", found.normal, found.distance),
        Err(refusal) => print!(rt; "{refusal}"),
    }
}

fn say_sides(rt: &impl Print, line: Line, point: Point) -> Result<()> {
    match check_side(line, point, Side::Left) {
        Ok(left) => print!(rt; "{left} {}", Answer(check_side(line, point, Side::Right))),
        Err(refusal) => print!(rt; "{refusal}"),
    }
}

fn say_crossing(rt: &impl Print, first: Line, second: Line) -> Result<()> {
    match crossing(first, second) {
        Ok(Crossed::At(point, side, divisions)) => {
            print!(rt; "{point} {side:?} {}", Letters(divisions))
        }
        Ok(Crossed::Colinear) => print!(rt; "Colinear"),
        Err(refusal) => print!(rt; "{refusal}"),
    }
}
