//! Questions on route files.
use crate::answers::Number;
use route_file::{Described, entry, points, route_count};
use shapes::refusals::Refusal;
use std::io;
use test_numbers::number_at;
use test_text::{Numbers, after, read_bytes, size_up_to};

/// A route's number, and the bytes of a file in hexadecimal digits.
pub fn answer(rt: &impl Print, questions: &[u8], at: usize) -> io::Result<()> {
    let route = number_at(questions, at);
    let mut file = [0u8; 256];
    let n = read_bytes(questions, after(route.next), &mut file);
    say_file(rt, &file[..n], size_up_to(1000, route.value))
}

/// All that the three entries answer; the points go to a list of six numbers, which were -7.
fn say_file(rt: &impl Print, file: &[u8], k: usize) -> io::Result<()> {
    say_counted(rt, route_count(file))?;
    say_described(rt, entry(file, k))?;
    let mut out = [-7; 6];
    say_counted(rt, points(file, k, &mut out))?;
    print!(rt; "{}", Numbers(&out))
}

/// A refusal, 0 where there is none, and the count, 0 where there is one.
fn say_counted(rt: &impl Print, answer: Result<usize, Refusal>) -> io::Result<()> {
    print!(rt; "{} {}", Number(answer.err()), answer.unwrap_or(0))
}

/// A refusal, 0 where there is none, whether the route was found, and what the file says of it: 0 and false where it was not.
fn say_described(rt: &impl Print, answer: Result<Option<Described>, Refusal>) -> io::Result<()> {
    let entry = answer.unwrap_or(None);
    let Described {
        points,
        width,
        closed,
    } = entry.unwrap_or(Described {
        points: 0,
        width: 0,
        closed: false,
    });
    let refusal = Number(answer.err());
    let found = entry.is_some();
    print!(rt; " | {refusal} {found} {points} {width} {closed} | ")
}
