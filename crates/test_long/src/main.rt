//! An input that is one byte too long: a file of 65,535 bytes and no routes, whose form is right, and a byte after it. 01: "a longer input
//! is refusal 9".
#![tactic(auto)]

fn main() {
    row_text::print_input();
}
