//! Histories of boards. A line is an event, and an answer line is written for each:
//!   r ROW                   a fresh board                 refusal
//!   o ROW START END         an offer                      refusal
//!   c                       a clear                       refusal
//!   l N                     a listing to N numbers        refusal, count, total, and the N numbers, which were -7
//!   m ROW COUNT S E S E     a board made by hand, with two runs in front       the board as for s
//!   s                       the board as it stands        row, count, and start and end of all 32
use crate::answers::Number;
use board::inner::empty_board;
use board::{Board, Listed, Run};
use shapes::Span;
use std::io::Result;
use test_numbers::{byte_at, number_at, skip_past};
use test_text::{Numbers, size_up_to};

/// Answers each event of a text, from a board with no runs on row 0.
pub fn replay(rt: &impl Print, events: &[u8]) -> Result<()> {
    let mut board = empty_board(0);
    let mut rest = events;
    for line in events.split_inclusive(|byte| *byte == b'\n') {
        answer(rt, rest, &mut board)?;
        rest = rest.get(line.len()..).unwrap_or_default();
    }
    Ok(())
}

// What an event does to the board, and its answer line.
fn answer(rt: &impl Print, event: &[u8], board: &mut Board) -> Result<()> {
    match byte_at(event, 0) {
        b'r' => begin(rt, event, board),
        b'o' => offer(rt, event, board),
        b'c' => println!(rt; "{}", Number(board.clear().err())),
        b'l' => list(rt, event, board),
        b'm' => {
            *board = made(event);
            say_board(rt, board)
        }
        b's' => say_board(rt, board),
        _ => Ok(()),
    }
}

fn begin(rt: &impl Print, event: &[u8], board: &mut Board) -> Result<()> {
    let [row] = numbers::<1>(event);
    let fresh = Board::fresh(row);
    *board = fresh.unwrap_or(empty_board(0));
    println!(rt; "{}", Number(fresh.err()))
}

fn offer(rt: &impl Print, event: &[u8], board: &mut Board) -> Result<()> {
    let [row, start, end] = numbers::<3>(event);
    println!(rt; "{}", Number(board.offer(Span { row, start, end }).err()))
}

fn list(rt: &impl Print, event: &[u8], board: &Board) -> Result<()> {
    let [n] = numbers::<1>(event);
    let mut out = [-7i64; 80];
    list_to(rt, board, &mut out[..size_up_to(80, n)])
}

fn list_to(rt: &impl Print, board: &Board, out: &mut [i64]) -> Result<()> {
    let answer = board.list(out);
    let Listed { count, total } = answer.unwrap_or(Listed { count: 0, total: 0 });
    println!(rt; "{} {count} {total}{}", Number(answer.err()), Numbers(out))
}

fn made(event: &[u8]) -> Board {
    let [row, count, a, b, c, d] = numbers::<6>(event);
    let mut runs = [Run { start: 5, end: 5 }; 32];
    runs[0] = Run { start: a, end: b };
    runs[1] = Run { start: c, end: d };
    Board {
        row,
        count: size_up_to(80, count),
        runs,
    }
}

// The numbers behind an event's letter; 0 for each that is not there.
fn numbers<const N: usize>(event: &[u8]) -> [i64; N] {
    let mut numbers = [0; N];
    let mut at = 0;
    for number in &mut numbers {
        let read = number_at(event, skip_past(event, at, b' '));
        *number = read.value;
        at = read.next;
    }
    numbers
}

fn say_board(rt: &impl Print, board: &Board) -> Result<()> {
    print!(rt; "{} {}", board.row, board.count)?;
    for run in &board.runs {
        print!(rt; " {} {}", run.start, run.end)?;
    }
    println!(rt)
}
