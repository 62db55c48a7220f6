//! What the program `rows` prints of a route file. No contract can say what is written; but who prints knows how many pixels the
//! runs have that are printed, and for that there is one.
#![tactic(auto)]

ghost use Rattle.std.specs.Prelude.{◌≡◌};
ghost use Rattle.shapes.specs.Limits.{panel as panel_limits};
ghost use Rattle.row_text.specs.Pixels.{file_pixels};

pub mod inner; // inner.rt: the lines of a file that is not refused

use inner::print_routes;
use route_file::route_count;
use shapes::limits::panel;
use writing::{say, say_number, say_refused};

/// The descriptor of standard input.
const STDIN: i32 = 0;

/// Prints of standard input what `print_file` prints of a file. A file has at most 65,535 bytes: one more is enough to see that it
/// has too many.
pub fn print_input() {
    let mut file = [0u8; 65536];
    let n = io::read_full(STDIN, &mut file);
    print_file(&file[..n]);
}

/// Prints how many routes a file has; of each its runs, rows ascending, or its refusal, `k refused N`, and with 5 the position of the
/// bend behind it, `k refused 5 P`; and the pixels of all printed runs, which it also answers. 9 if the file's form is wrong, or it has more than 65,535 bytes: `refused 9` alone is printed, and there are none.
pub fn print_file(file: &[u8]) -> i64
    ensures { result ≡ file_pixels panel_limits file.now }
{
    if let Err(refusal) = route_count(file) {
        say_refused(refusal);
        say(b"\n");
        return 0;
    }
    let total = print_routes(file, panel());
    say(b"total ");
    say_number(total);
    say(b"\n");
    total
}
