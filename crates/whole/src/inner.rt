//! Functions on numbers alone, for the crates above.
ghost use Rattle.std.specs.Prelude.{◌≡◌, ◌≢◌, ◌^◌, pos, nat_abs};
ghost use Rattle.whole.specs.Number.{Within, is_within};
ghost use Rattle.whole.specs.Number.{lesser as lesser_of, greater as greater_of};
ghost use Rattle.whole.specs.Divided.{division_of};
ghost use Rattle.whole.specs.Rounded.{rounded as rounded_of};

use crate::Division;

/// Whether `x` is from `-limit` to `limit`.
#[tactic(auto, unfolding(crate::specs::Number::is_within))]
pub fn within(x: i64, limit: u32) -> bool
    ensures { result ≡ is_within limit x }
{
    x.unsigned_abs() <= limit as u64
}

/// The lesser of two numbers.
#[tactic(auto, unfolding(crate::specs::Number::lesser))]
pub fn lesser(a: i64, b: i64) -> i64
    ensures { result ≡ lesser_of a b }
{
    a.min(b)
}

/// The greater of two numbers.
#[tactic(auto, unfolding(crate::specs::Number::greater))]
pub fn greater(a: i64, b: i64) -> i64
    ensures { result ≡ greater_of a b }
{
    a.max(b)
}

/// The absolute value of any number, which may be one more than an `i64` holds.
pub fn size(x: i64) -> u64
    ensures { result ≡ nat_abs x }
{
    x.unsigned_abs()
}

/// The absolute value of a number within 2^61.
pub fn magnitude(x: i64) -> i64
    requires { Within x (2 ^ 61) }
    ensures { result ≡ pos (nat_abs x) }
{
    x.abs()
}

/// The nearest whole number to n / d, halves away from zero, for numbers within 2^61 and d not 0.
#[tactic(auto, unfolding(crate::specs::Rounded::rounded))]
pub fn rounded(n: i64, d: i64) -> i64
    requires within { Within n (2 ^ 61) }
    requires within_2 { Within d (2 ^ 61) }
    requires d_nonzero { d ≢ pos 0 }
    ensures { result ≡ rounded_of n d }
{
    let half = d.abs() / 2;
    if n < 0 {
        return (n - half) / d;
    }
    (n + half) / d
}

/// How n / d comes out, for numbers within 2^61 and d not 0.
#[tactic(auto, unfolding(crate::specs::Divided::division_of))]
pub fn division(n: i64, d: i64) -> Division
    requires within { Within n (2 ^ 61) }
    requires within_2 { Within d (2 ^ 61) }
    requires d_nonzero { d ≢ pos 0 }
    ensures { result ≡ division_of n d }
{
    let rest = (n % d).abs();
    if rest == 0 {
        return Division::Exact;
    }
    if 2 * rest == d.abs() {
        return Division::Half;
    }
    Division::Rounded
}
