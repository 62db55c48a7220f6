//! Owners: each lends what it owns to one of the forms that work in place, and hands it back, from values to values.
ghost use Rattle.std.specs.Prelude.{◌≡◌};
ghost use Rattle.route_joins.specs.Steps.{step_values};
ghost use Rattle.shapes.specs.Limits.{panel};
ghost use Rattle.thick_segment_iter.specs.Walks.{open_step, after_open};
ghost use Rattle.closed_thick_segment_iter.specs.Walks.{closed_step, after_closed};
ghost use Rattle.test_in_place.specs.Listing.{lists_values, lists_of};

use board::{Board, Listed, Run};
use board_records::list_records;
use route_joins::Stepped;
use shapes::refusals::Refusal;
use walks_in_place::step;

/// A listing, and the two lists as it left them.
#[derive(Clone, Copy)]
pub struct Lists {
    pub listed: Result<Listed, Refusal>,
    pub numbers: [i64; 12],
    pub records: [Run; 4],
}

/// An open walk stepped in place: what is answered, and the walk as it was left.
pub fn open_step(
    coordinates: &[i64],
    walk: thick_segment_iter::Walk,
) -> Stepped<thick_segment_iter::Walk>
    ensures { (step_values result.step ≡ open_step panel coordinates.now walk)
        × (result.walk ≡ after_open panel coordinates.now walk) }
{
    let mut owned = walk;
    let step = step(&mut owned, coordinates);
    Stepped { step, walk: owned }
}

/// A closed walk stepped in place: what is answered, and the walk as it was left.
pub fn closed_step(
    coordinates: &[i64],
    walk: closed_thick_segment_iter::Walk,
) -> Stepped<closed_thick_segment_iter::Walk>
    ensures { (step_values result.step ≡ closed_step panel coordinates.now walk)
        × (result.walk ≡ after_closed panel coordinates.now walk) }
{
    let mut owned = walk;
    let step = step(&mut owned, coordinates);
    Stepped { step, walk: owned }
}

/// The second listing of a board, to a list of twelve numbers and one of four records.
#[tactic(auto, unfolding(crate::specs::Listing::lists_of))]
pub fn list(board: &Board, numbers: [i64; 12], records: [Run; 4]) -> Lists
    ensures { lists_values result ≡ lists_of board.now numbers records }
{
    let mut numbers = numbers;
    let mut records = records;
    let listed = list_records(board, &mut numbers, &mut records);
    Lists {
        listed,
        numbers,
        records,
    }
}
