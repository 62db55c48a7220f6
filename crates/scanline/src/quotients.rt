//! A line's first and last column on a row, by quotients and without a walk.
ghost use Rattle.std.specs.Prelude.{◌≡◌, ◌^◌, ◌≤◌, ◌<◌};
ghost use Rattle.shapes.specs.Limits.{line_limit};
ghost use Rattle.shapes.specs.Shape.{LineNear};
ghost use Rattle.bresenham.specs.Paces.{turns_at, Between};
ghost use Rattle.scanline.specs.Rows.{has_row, Sizes, last_at, first_at, ends_at, ends_on, column_at};

use bresenham::inner::direction;
use shapes::Line;
use shapes::inner::delta;

/// How many columns from a line's start the first and the last of its points on a row are.
#[derive(Clone, Copy, Debug, PartialEq, Eq)]
pub struct Ends {
    pub first: u64,
    pub last: u64,
}

/// Whether a row is one of the line's rows.
#[tactic(auto, using(crate::proofs::Choices::choices), unfolding(crate::specs::Rows::has_row))]
pub fn has_row(line: Line, row: i64) -> bool
    ensures { result ≡ has_row line row }
{
    line.start.y.min(line.end.y) <= row && row <= line.start.y.max(line.end.y)
}

/// How many columns a line of more rows than columns has gone when it comes to a row.
#[tactic(auto, using(crate::proofs::Rows::product_small), unfolding(bresenham::specs::Paces::turns_at))]
fn turns_at(h: u64, w: u64, r: u64) -> u64
    requires sizes { Sizes w h r }
    requires w_lt_h { w < h }
    ensures { result ≡ turns_at h w r }
{
    (r * (2 * w) + (h - 1)) / (2 * h)
}

/// How many columns another line has gone at its last point on a row.
#[tactic(auto, using(crate::proofs::Rows::product_small), unfolding(crate::specs::Rows::last_at))]
fn last_at(w: u64, h: u64, r: u64) -> u64
    requires { Sizes w h r }
    ensures { result ≡ last_at w h r }
{
    if r == h {
        return w;
    }
    (2 * r + 1) * w / (2 * h)
}

/// The same at its first point there.
#[tactic(auto, unfolding(crate::specs::Rows::first_at))]
fn first_at(w: u64, h: u64, r: u64) -> u64
    requires sizes { Sizes w h r }
    requires h_le_w { h ≤ w }
    ensures { result ≡ first_at w h r }
{
    if r == 0 {
        return 0;
    }
    last_at(w, h, r - 1) + 1
}

/// Both, of a line that goes `w` columns and `h` rows, on the row that is `r` rows from its start.
#[tactic(auto, unfolding(crate::specs::Rows::ends_at))]
fn ends_at(w: u64, h: u64, r: u64) -> Ends
    requires { Sizes w h r }
    ensures { result ≡ ends_at w h r }
{
    if w < h {
        let at = turns_at(h, w, r);
        return Ends {
            first: at,
            last: at,
        };
    }
    Ends {
        first: first_at(w, h, r),
        last: last_at(w, h, r),
    }
}

/// Both, of a line on one of its rows.
#[tactic(auto, unfolding(crate::specs::Rows::ends_on))]
pub fn ends_on(line: Line, row: i64) -> Ends
    requires line_near { LineNear line_limit line }
    requires between { Between line.start.y line.end.y row }
    ensures { result ≡ ends_on line row }
{
    let d = delta(line);
    ends_at(
        d.x.unsigned_abs(),
        d.y.unsigned_abs(),
        (row - line.start.y).unsigned_abs(),
    )
}

/// The column that is `k` columns from a line's start, toward its end.
pub fn column_at(line: Line, k: u64) -> i64
    requires line_near { LineNear line_limit line }
    requires k_bound { k ≤ 2 ^ 15 }
    ensures { result ≡ column_at line k }
{
    let d = delta(line);
    line.start.x + k as i64 * direction(d.x)
}
