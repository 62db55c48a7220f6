//! Prints of each stored route file what `rows` prints of it: one file a line of standard input, two hexadecimal digits a byte, `-`
//! for the empty file. What it must write stands in `stdout`, and comes from two other calculations of the same rules
//! (oracle/README.md).
#![tactic(auto)]

use test_text::{read_bytes, room};

/// The descriptor of standard input.
const STDIN: i32 = 0;

fn main() {
    let mut lines = room::<524288>();
    let n = io::read_full(STDIN, &mut lines);
    print_all(&lines[..n]);
}

fn print_all(lines: &[u8]) {
    for line in lines.split_inclusive(|byte| *byte == b'\n') {
        print_line(line);
    }
}

/// Of a file that is too long the first 65,536 bytes are kept, which are too many as well.
fn print_line(line: &[u8]) {
    let mut file = [0; 65536];
    let n = read_bytes(line, 0, &mut file);
    row_text::print_file(&file[..n]);
}
