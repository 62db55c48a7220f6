//! The points of a thick line (the Rust's ThickPoints, of line/thick_points.rs), and its parallels, as numbers in a lent list.
#![tactic(auto)]

pub mod inner; // inner.rt: what is told of each parallel, and the one listing of both entries

ghost use Rattle.std.specs.Prelude.{◌≡◌, length};
ghost use Rattle.shapes.specs.Limits.{point_limit};
ghost use Rattle.parallels.specs.Parallels.{parallels_of};
ghost use Rattle.thick_points.specs.Listing.{thick_points_of, parallel_numbers, point_numbers};
ghost use Rattle.thick_points.specs.Listing.{parallels_refusal, points_refusal, listed_values, answered, written};

use inner::{Telling, list};
use shapes::limits::POINT;
use shapes::refusals::Refusal;
use shapes::{Line, Offset};

/// Writes the parallels of a line to the front of `out`, and counts them. Of each it writes four numbers: x and y of its start,
/// the error that it starts with, and 1 where it is Extra, else 0. Refuses with 3 a width outside 0 to 64, then with 4 a
/// coordinate outside 511, then with 8 a list that has fewer than four numbers for each parallel; a refusal writes nothing.
pub fn list_parallels(
    line: Line,
    width: i64,
    offset: Offset,
    out: &mut [i64],
) -> Result<usize, Refusal>
    ensures value { listed_values result ≡ answered (parallels_refusal point_limit line width offset out.old) (length (parallels_of line width offset)) }
    ensures out_after { out.new ≡ written (parallels_refusal point_limit line width offset out.old) (parallel_numbers (parallels_of line width offset)) out.old }
{
    let count = list(out, Telling::Start, POINT, line, width, offset)?;
    Ok(count / 4)
}

/// Writes the points of a thick line, on both of its sides, to the front of `out`, and counts them: x and y of each in turn.
/// Refuses with 3 a width outside 0 to 64, then with 4 a coordinate outside 511, then with 8 a list that has fewer than two
/// numbers for each point; a refusal writes nothing.
pub fn list_thick_points(line: Line, width: i64, out: &mut [i64]) -> Result<usize, Refusal>
    ensures value { listed_values result ≡ answered (points_refusal point_limit line width out.old) (length (thick_points_of line width)) }
    ensures out_after { out.new ≡ written (points_refusal point_limit line width out.old) (point_numbers (thick_points_of line width)) out.old }
{
    let count = list(out, Telling::Points, POINT, line, width, Offset::None)?;
    Ok(count / 2)
}
