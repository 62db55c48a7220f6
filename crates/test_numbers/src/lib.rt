//! Reading a text: a whole number at a place, and the place after a byte.
#![tactic(auto)]

ghost use Rattle.std.specs.Prelude.{◌≡◌, get_or};
ghost use Rattle.test_numbers.specs.Numbers.{is_digit, digits_at, number_at};
ghost use Rattle.test_numbers.specs.Lines.{skip_past};

/// A number has at most 18 digits.
const DIGITS: usize = 18;

/// What was read at a place of a text, and the place where reading goes on.
#[derive(Clone, Copy, Debug, PartialEq, Eq)]
pub struct Read<T> {
    pub value: T,
    pub next: usize,
}

/// The whole number in decimal that begins at `at`, and the place after it: an optional '-', then at most 18 digits; whatever
/// else comes ends it. With no digit there the number is 0, and the place is the one after the '-' where there is a '-', else `at`.
/// Past the end of the text the number is 0, and the place stays `at`.
#[tactic(auto, using(crate::proofs::Reading::reading), unfolding(crate::specs::Numbers::number_at))]
pub fn number_at(s: &[u8], at: usize) -> Read<i64>
    ensures { result ≡ number_at s.now at }
{
    if byte_at(s, at) == b'-' {
        let d = digits_at(s, at + 1);
        return Read {
            value: -(d.value as i64),
            next: d.next,
        };
    }
    let d = digits_at(s, at);
    Read {
        value: d.value as i64,
        next: d.next,
    }
}

/// The place just after the first byte equal to `b` at or after `at`; the text's length if there is none.
/// Past the end of the text the place stays `at`.
pub fn skip_past(s: &[u8], at: usize, b: u8) -> usize
    ensures { result ≡ skip_past s.now at b }
{
    for i in at..s.len() {
        if s[i] == b {
            return i + 1;
        }
    }
    at.max(s.len())
}

/// The number that the digits from `at` on say, at most 18 of them, and the place after them; 0 and `at` where there is none.
fn digits_at(s: &[u8], at: usize) -> Read<u64>
    ensures { result ≡ digits_at s.now at }
{
    let mut value = 0;
    let mut next = at;
    for _ in 0..DIGITS {
        let b = byte_at(s, next);
        if !is_digit(b) {
            break;
        }
        value = value * 10 + u64::from(b - b'0');
        next += 1;
    }
    Read { value, next }
}

/// The byte at `at`; 0 past the end, which is neither a digit nor a '-'.
pub fn byte_at(s: &[u8], at: usize) -> u8
    ensures { result ≡ get_or s.now at 0 }
{
    s.get(at).copied().unwrap_or(0)
}

/// Whether `b` is one of '0' to '9'.
#[tactic(auto, unfolding(crate::specs::Numbers::is_digit))]
fn is_digit(b: u8) -> bool
    ensures { result ≡ is_digit b }
{
    b'0' <= b && b <= b'9'
}
