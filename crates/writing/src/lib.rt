//! Words and numbers written to standard output. No contract can say what is written.
#![tactic(auto)]

use shapes::refusals::Refusal;
use whole::inner::size;

/// The descriptor of standard output.
const STDOUT: i32 = 1;

/// Writes words.
pub fn say(words: &[u8]) {
    io::write_all(STDOUT, words);
}

/// Writes a number in decimal.
pub fn say_number(x: i64) {
    if x < 0 {
        say(b"-");
    }
    say_count(size(x));
}

/// Writes a count in decimal.
pub fn say_count(n: u64) {
    io::print_decimal(STDOUT, n);
}

/// Writes a space and a number.
pub fn say_next(x: i64) {
    say(b" ");
    say_number(x);
}

/// Writes `refused`, the refusal's number, and after 5 the position of the bend.
pub fn say_refused(refusal: Refusal) {
    say(b"refused ");
    say_count(refusal.number());
    if let Refusal::Corner(position) = refusal {
        say(b" ");
        say_count(position as u64);
    }
}
