//! Answers the stored lists of questions, one line for each line. What it must write stands in `stdout`; none of it comes from
//! this repository's code (oracle/README.md).
#![tactic(auto)]

ghost use Rattle.std.specs.Prelude.{◌≤◌, ◌<◌, length, IfOk};

mod answers; // answers.rt: answers as text
mod boards; // boards.rt: histories of boards
mod files; // files.rt: route files
mod joins; // joins.rt: joins, and the lines of a join handed in
mod lines; // lines.rt: equations, sides and crossings
mod rows; // rows.rt: the rows of a route
mod segments; // segments.rt: segments between two joins, and spans
mod strokes; // strokes.rt: extents, parallels and thick points
mod walks; // walks.rt: walks along a route, and its merged spans

use std::fs::File;
use std::io::{Read, Result};
use test_numbers::byte_at;
use test_text::{Untold, room};

fn main(rt: HostRuntime) -> Result<()> {
    let out = Untold(&rt);
    for name in [
        "crossings",
        "strokes",
        "joins",
        "segments",
        "walks",
        "fields",
    ] {
        answer_list::<524288, _>(&rt, name, |questions| answer_all(&out, questions))?;
    }
    answer_list::<65536, _>(&rt, "boards", |events| boards::replay(&out, events))
}

/// Answers the list of a file, of which the first `N` bytes are kept.
fn answer_list<const N: usize, A: FnOnce(&[u8]) -> Result<()>>(
    rt: &HostRuntime,
    name: &str,
    answer: A,
) -> Result<()>
    requires callable { A.IsAlwaysCallable answer }
    requires sized { N < 9223372036854775808 }
{
    let mut list = room::<N>();
    let n = read_file(rt, name, &mut list)?;
    answer(&list[..n])
}

/// Reads a file to the front of `bytes`, until they are full or the file ends, and answers how many it put there.
fn read_file(rt: &HostRuntime, name: &str, bytes: &mut [u8]) -> Result<usize>
    ensures { IfOk result (λ n. n ≤ length bytes.new) }
{
    let mut file = File::open(rt, name)?;
    let mut done = 0;
    while done < bytes.len() {
        let n = file.read(&mut bytes[done..])?;
        if n == 0 {
            break;
        }
        done += n;
    }
    Ok(done)
}

fn answer_all(rt: &impl Print, questions: &[u8]) -> Result<()> {
    let mut rest = questions;
    for line in questions.split_inclusive(|byte| *byte == b'\n') {
        answer(rt, rest)?;
        rest = rest.get(line.len()..).unwrap_or_default();
    }
    Ok(())
}

/// A letter that names the kind, and its numbers: they are read on past the line's end.
fn answer(rt: &impl Print, question: &[u8]) -> Result<()> {
    answer_kind(rt, byte_at(question, 0), question, 2)?;
    println!(rt)
}

fn answer_kind(rt: &impl Print, kind: u8, question: &[u8], at: usize) -> Result<()> {
    match kind {
        b'e' | b'd' | b's' | b'c' | b'n' => lines::answer(rt, kind, question, at),
        b'x' | b'p' | b't' => strokes::answer(rt, kind, question, at),
        b'a' | b'z' | b'j' | b'f' | b'g' => joins::answer(rt, kind, question, at),
        b'k' | b'q' | b'r' | b'm' | b'u' | b'y' | b'b' => segments::answer(rt, kind, question, at),
        b'O' | b'C' | b'N' | b'M' | b'o' | b'v' | b'w' => walks::answer(rt, kind, question, at),
        b'h' => files::answer(rt, question, at),
        _ => Ok(()),
    }
}
