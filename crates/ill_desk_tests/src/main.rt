//! Tests the engines of commands by calls: on streams that fail or are long, and on a desk in memory. Tests the reading
//! and writing of APDUs.
//!
//! The files `stdin` and `stdout` have the same bytes: transcripts, whose head defines how they are written. A line
//! that begins with two spaces is an answer. The program drops old answers, performs each call, and writes its answer
//! below it. So a case is added by its lines and the answers that they must have, in both files.
//!
//! With a name as its argument the program performs that case alone, and writes the others unchanged. So this command
//! prints nothing if the case is right. It takes seconds, besides the build by `rt try`:
//!
//!     rt try -- "a cancel and a shipped cross by calls" < stdin | diff stdin -
//!
//! Marks surround each call on the memory (`ill_test_kit::marks`), and each engine of a command on streams. If an
//! allocation is refused, the call is made again from the beginning. A line ` = a refused try: ..` shows that a refused
//! try had a wrong result. No case has such a line.
//!
//! After a check, `rt run < stdin | diff stdin -` performs all cases. They are too long for `rt try`.
#![tactic(auto)]

mod beginning;
mod bench;
mod committed;
mod desk_call;
mod engines;
mod kept;
mod letters;
mod limited;
mod memory;
mod memory_call;
mod message_files;
mod past;
mod tries;
mod view;

use bench::Bench;
use ill_session_kit::answer_cases;
use std::io;

/// Performs the cases of the input, and prints their answers.
fn main(rt: HostRuntime) -> io::Result<()> {
    answer_cases(&rt, Bench::new(rt.alloc()))
}
