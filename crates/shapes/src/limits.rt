//! The numbers that bound the work, each once. specs/Limits.antt has the same table for the contracts, in figures of its own: a
//! number that differs here fits no contract of what uses it.
ghost use Rattle.std.specs.Prelude.{◌≡◌};
ghost use Rattle.shapes.specs.Limits.{panel as panel_limits};

/// What coordinates and rows are held against: a route point, a line at the crossing's own entry, and a join's corner, a row
/// or a column, each from minus its limit to its limit.
#[derive(Clone, Copy, Debug, PartialEq, Eq)]
pub struct Limits {
    pub point: u32,
    pub crossing: u32,
    pub corner: u32,
}

/// A route point's coordinate is from -511 to 511.
pub const POINT: u32 = 511;

/// A coordinate at the crossing's own entry is from -1,023 to 1,023.
pub const CROSSING: u32 = 1023;

/// A stroke's width is from 0 to 64.
pub const WIDTH: i64 = 64;

/// A route has at most 256 points.
pub const ROUTE_POINTS: usize = 256;

/// A join's corner, a row and a column are from -4,095 to 4,095.
pub const CORNER: u32 = 4095;

/// A board holds at most 32 runs.
pub const BOARD_RUNS: usize = 32;

/// The limits of a panel, for whoever holds more than one number against them.
pub fn panel() -> Limits
    ensures { result ≡ panel_limits }
{
    Limits {
        point: POINT,
        crossing: CROSSING,
        corner: CORNER,
    }
}
