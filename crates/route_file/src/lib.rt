//! The route file: whether its form is right, and the points, the width and the closed flag of each of its routes.
#![tactic(auto)]

ghost use Rattle.std.specs.Prelude.{◌≡◌, length};
ghost use Rattle.shapes.specs.Refusals.{refusal_in};
ghost use Rattle.route_file.specs.Answers.{form_refusal, counted, described, pointed, pointed_to};
ghost use Rattle.route_file.specs.Answers.{count_values, described_values};

pub mod inner; // inner.rt: the form, and what is read once it is known to be right

use inner::{count_of, entry_at, is_formed, write_numbers};
use shapes::refusals::Refusal;

/// What a file says of a route besides its points: how many they are, the width, and whether the route is closed.
#[derive(Clone, Copy, Debug, PartialEq, Eq)]
pub struct Described {
    pub points: usize,
    pub width: i64,
    pub closed: bool,
}

/// How many routes a file has. 9 if its form is wrong.
#[tactic(auto, using(crate::proofs::Laws::inside), unfolding(crate::specs::Answers::counted, crate::specs::Answers::form_refusal))]
pub fn route_count(file: &[u8]) -> Result<usize, Refusal>
    ensures { count_values result ≡ counted file.now }
{
    check_form(file)?;
    Ok(count_of(file))
}

/// The entry of route `k`, from 0 on, of a file. None if the file has no more than `k` routes. 9 if its form is wrong.
#[tactic(auto, using(crate::proofs::Laws::inside), unfolding(crate::specs::Answers::described, crate::specs::Answers::form_refusal))]
pub fn entry(file: &[u8], k: usize) -> Result<Option<Described>, Refusal>
    ensures { described_values result ≡ described file.now k }
{
    check_form(file)?;
    if count_of(file) <= k {
        return Ok(None);
    }
    let entry = entry_at(file, k);
    Ok(Some(Described {
        points: usize::from(entry.points),
        width: i64::from(entry.width),
        closed: entry.closed == 1,
    }))
}

/// Writes the points of route `k`, from 0 on, to the front of `out`, x and y of each in turn, and answers how many numbers
/// that were; the rest of `out` keeps its content. A route that the file does not have has no points. 9 if the file's form is
/// wrong; 8 if `out` has fewer than two numbers for each point. Refused, `out` is as it was.
#[tactic(auto, using(crate::proofs::Laws::inside), unfolding(crate::specs::Answers::pointed, crate::specs::Answers::pointed_to, crate::specs::Answers::points_refusal, crate::specs::Answers::form_refusal))]
pub fn points(file: &[u8], k: usize, out: &mut [i64]) -> Result<usize, Refusal>
    ensures count { count_values result ≡ pointed file.now k (length out.old) }
    ensures written { out.new ≡ pointed_to file.now k out.old }
{
    check_form(file)?;
    if count_of(file) <= k {
        return Ok(0);
    }
    let entry = entry_at(file, k);
    let count = 2 * usize::from(entry.points);
    if out.len() < count {
        return Err(Refusal::Room);
    }
    write_numbers(file, usize::from(entry.offset), count, out);
    Ok(count)
}

/// Refuses a file whose form is wrong: 9.
#[tactic(auto, unfolding(crate::specs::Answers::form_refusal))]
fn check_form(file: &[u8]) -> Result<(), Refusal>
    ensures { refusal_in result ≡ form_refusal file.now }
{
    if !is_formed(file) {
        return Err(Refusal::Form);
    }
    Ok(())
}
