//! A row's runs, which never lie: each lit column is in one run, and no run touches another.
#![tactic(auto)]

pub mod inner; // inner.rt: what the entries do once their input is tested

use inner::{empty_board, is_sound, list_sound, offer_sound};
use shapes::limits::{BOARD_RUNS, CORNER};
use shapes::refusals::Refusal;
use shapes::{Span, spans};
use whole::inner::within;

/// Lit columns of a row, from `start` to `end`, `end` not included.
#[derive(Clone, Copy, Debug, PartialEq, Eq)]
pub struct Run {
    pub start: i64,
    pub end: i64,
}

/// The columns of a span.
impl From<Span> for Run {
    ghost use Rattle.std.specs.Prelude.{◌≡◌};
    ghost use Rattle.board.specs.Boards.{span_run};

    ghost from_gives = { λ s r. r ≡ span_run s };

    fn from(span: Span) -> Run {
        Run {
            start: span.start,
            end: span.end,
        }
    }
}

/// The runs of one row: the first `count` of `runs`, ascending, with a dark column between neighbours.
#[derive(Clone, Copy, Debug, PartialEq, Eq)]
pub struct Board {
    pub row: i64,
    pub count: usize,
    pub runs: [Run; BOARD_RUNS],
}

/// What a listing answers: the number of runs, and of their columns.
#[derive(Clone, Copy, Debug, PartialEq, Eq)]
pub struct Listed {
    pub count: usize,
    pub total: i64,
}

impl Board {
    ghost use Rattle.std.specs.Prelude.{◌≡◌, length};
    ghost use Rattle.shapes.specs.Limits.{corner_limit};
    ghost use Rattle.board.specs.Boards.{fresh_values, answer_values, listed_values, begun, offered, cleared, listed, listed_to};

    /// A board with no runs. 6 if the row is outside 4,095.
    #[tactic(auto, unfolding(crate::specs::Boards::begun))]
    pub fn fresh(row: i64) -> Result<Board, Refusal>
        ensures { fresh_values result ≡ begun corner_limit row }
    {
        if !within(row, CORNER) {
            return Err(Refusal::Row);
        }
        Ok(empty_board(row))
    }

    /// Lights the span's columns as well. An empty span changes nothing.
    /// 6 if the board is none that a fresh board can come to, or the span is of another row; 7 if the span is not empty and has
    /// a column outside 4,095; 8 if the union needs more than 32 runs. Refused, the board is as it was.
    #[tactic(auto, unfolding(crate::specs::Boards::offered))]
    pub fn offer(&mut self, span: Span) -> Result<(), Refusal>
        ensures { answer_values result self.new ≡ offered corner_limit self.old span }
    {
        if !is_sound(self, CORNER) || span.row != self.row {
            return Err(Refusal::Row);
        }
        if !spans::is_sound(span, CORNER) {
            return Err(Refusal::Column);
        }
        offer_sound(self, span)
    }

    /// Leaves the board's row with no runs. 6 if the board is none that a fresh board can come to; it is then as it was.
    #[tactic(auto, unfolding(crate::specs::Boards::cleared))]
    pub fn clear(&mut self) -> Result<(), Refusal>
        ensures { answer_values result self.new ≡ cleared corner_limit self.old }
    {
        if !is_sound(self, CORNER) {
            return Err(Refusal::Row);
        }
        *self = empty_board(self.row);
        Ok(())
    }

    /// Writes the runs to the front of `out`, start and end of each in turn, and answers their count and the number of their
    /// columns; the rest of `out` keeps its content. 6 if the board is none that a fresh board can come to; 8 if `out` has fewer
    /// than two numbers for each run. Refused, `out` is as it was.
    #[tactic(auto, unfolding(crate::specs::Boards::listed, crate::specs::Boards::listed_to))]
    pub fn list(&self, out: &mut [i64]) -> Result<Listed, Refusal>
        ensures { (listed_values result ≡ listed corner_limit self.now (length out.old)) × (out.new ≡ listed_to corner_limit self.now out.old) }
    {
        if !is_sound(self, CORNER) {
            return Err(Refusal::Row);
        }
        list_sound(self, out)
    }
}
