//! Tests forms that are sent from the page of a loan, at a desk in memory.
//!
//! The files `stdin` and `stdout` have the same bytes: cases, whose head defines how they are written. A line that
//! begins with two spaces is an answer. The program drops old answers, performs each call, and writes its answer below
//! it. So a case is added by its lines and the answers that they must have, in both files.
//!
//! With a name as its argument the program performs that case alone, and writes the others unchanged. So this command
//! prints nothing if the case is right: `rt try -- "a form acts once" < stdin | diff stdin -`.
//!
//! Marks surround each call of `post` and `stamp_of` (`ill_test_kit::marks`). If an allocation is refused, the call is
//! made again on an equal desk. A line ` = a refused try: ..` shows that a refused try had a wrong result. No case has
//! such a line.
#![tactic(auto)]

mod bench;
mod forms;
mod visit;

use bench::Bench;
use ill_session_kit::answer_cases;
use std::io;

/// Performs the cases of the input, and prints their answers.
fn main(rt: HostRuntime) -> io::Result<()> {
    answer_cases(&rt, Bench::new(rt.alloc()))
}
