//! Tests the command lines on the files of a folder, and the engines of `simulate` on streams that fail or are long.
//!
//! The files `stdin` and `stdout` have the same bytes: transcripts, whose head defines how they are written. A line
//! that begins with two spaces is an answer. The program drops old answers, performs each call, and writes its answer
//! below it. So a case is added by its lines and the answers that they must have, in both files.
//!
//! With a name as its argument the program performs that case alone, and writes the others unchanged. So this command
//! prints nothing if the case is right. It takes seconds, besides the build by `rt try`:
//!
//!     rt try -- "a cancel and a shipped cross" < stdin | diff stdin -
//!
//! Marks surround each engine of `simulate` (`ill_test_kit::marks`). If an allocation is refused, the call is made
//! again. A line ` = a refused try: ..` shows that a refused try had a wrong result. No case has such a line.
//!
//! After a check, `rt run < stdin | diff stdin -` performs all cases. They are too long for `rt try`.
#![tactic(auto)]

mod bench;
mod engines;
mod texts;

use bench::Bench;
use ill_desk_kit::Folder;
use ill_session_kit::answer_cases;
use std::io;

/// Performs the cases of the input with files in a new folder, and prints their answers.
fn main(rt: HostRuntime) -> io::Result<()> {
    let alloc = rt.alloc();
    let folder = Folder::new(&rt, alloc, "ill_tool_tests")?;
    answer_cases(&rt, Bench::new(alloc, folder))
}
