//! Tests the requester and the responder. Each line of the input is a case. The program prints it again, with the
//! answers of `ill_core` in place of its old answers. The file `stdin` has the cases with the answers that they must
//! get. Its head defines how the cases are written. The file `stdout` has the same bytes.
//!
//! To try a row alone, in seconds, put it with its ruler into a file. Then `rt try < file | diff file -` prints nothing
//! if all is right. All cases together take too long for `rt try`. After a check, `rt run < stdin | diff stdin -`
//! performs all of them.
#![tactic(auto)]

mod bench;
mod events;
mod messages;
mod record;
mod side;
mod states;

use bench::Bench;
use ill_test_kit::answer_lines;
use std::io;

/// Performs the rows of the input, and prints their answers.
fn main(rt: HostRuntime) -> io::Result<()> {
    answer_lines(&rt, &mut Bench::new(rt.alloc()))
}
