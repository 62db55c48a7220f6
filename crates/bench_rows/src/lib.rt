//! Rows of a route drawn one after the other, for C to call: what the benchmark counts (docs/SPEED.md).
#![tactic(auto)]

ghost use Rattle.std.specs.Prelude.{◌≡◌, length};
ghost use Rattle.shapes.specs.Limits.{panel as panel_limits};
ghost use Rattle.route.specs.Answers.{listing_values};
ghost use Rattle.bench_rows.specs.Drawn.{last_columns, rows_to};

use route::inner::{prepare, row_of};
use route::{Listed, Prepared};
use shapes::limits::{CORNER, panel};
use shapes::refusals::Refusal;

/// No row was drawn yet.
const NONE: Listed = Listed { count: 0, total: 0 };

/// The number of a row's columns; 0 if the row is refused.
fn columns(listed: Result<Listed, Refusal>) -> i64
    ensures { result ≡ (listing_values listed).total }
{
    match listed {
        Ok(listed) => listed.total,
        Err(_) => 0,
    }
}

/// Draws each of `rows` by the entry `route::row`, which works out the joins each time, to the front of `out`. Answers the number of
/// the last row's columns; 0 if there are no rows, or the last one is refused.
#[unsafe(no_mangle)]
pub extern "C" fn knitbramble_rows_by_entry(
    coordinates: &[i64],
    width: i64,
    closed: bool,
    rows: &[i64],
    out: &mut [i64],
) -> i64
    ensures columns { result ≡ last_columns panel_limits closed coordinates.now width rows.now (length out.old) }
    ensures written { out.new ≡ rows_to panel_limits closed coordinates.now width rows.now out.old }
{
    let mut last = Ok(NONE);
    for row in rows {
        last = route::row(coordinates, width, closed, *row, out);
    }
    columns(last)
}

/// The same by joins that are worked out once for all the rows.
#[unsafe(no_mangle)]
pub extern "C" fn knitbramble_rows_of_joins(
    coordinates: &[i64],
    width: i64,
    closed: bool,
    rows: &[i64],
    out: &mut [i64],
) -> i64
    ensures columns { result ≡ last_columns panel_limits closed coordinates.now width rows.now (length out.old) }
    ensures written { out.new ≡ rows_to panel_limits closed coordinates.now width rows.now out.old }
{
    let Prepared { answer, joins } = prepare(coordinates, width, closed, panel());
    let Ok(()) = answer else {
        return 0;
    };
    let mut last = Ok(NONE);
    for row in rows {
        last = row_of(&joins, *row, CORNER, out);
    }
    columns(last)
}
