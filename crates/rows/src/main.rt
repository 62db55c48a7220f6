//! Prints the lit columns of the routes of a route file, which comes by standard input.
#![tactic(auto)]

fn main() {
    row_text::print_input();
}
