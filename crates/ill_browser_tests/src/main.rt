//! Tests what requests ask for. Each line of the input is a case. The program prints it again, with the answer of
//! `ill_browser` below it, after two spaces. Answers in the input are dropped. The file `stdin` has the cases with the
//! answers that they must get, and `stdout` has the same bytes.
//!
//! To try a case alone, put its lines into a file. Then `rt try < file | diff file -` prints nothing if all is right.
//!
//! A line is one of these:
//!
//! - `# ..`, or an empty line: printed unchanged.
//! - `look NAME:TEXT ..`: a request of a page.
//! - `post BODY NAME:TEXT ..`: a form of a page of the desk, which anna sent, with this body and its length. `-` is
//!   none.
//!
//! A `NAME:TEXT` is another text of the environment: `path`, `query`, `site`, `origin`, `user`, `type` or `length`. Or
//! `method` is another method. Or `open` is any text, and the operator wants no user. The operator's origin is
//! `https://ill.example`. Each answer ends with the bytes of the input that were left.
//!
//! Marks surround each call that allocates (`ill_test_kit::marks`). A call whose allocation a shim refuses is made
//! again.
#![tactic(auto)]

mod answers;
mod case;

use answers::Requests;
use ill_test_kit::{Cases, answer_lines};
use std::io;

/// Performs the cases of the input, and prints their answers.
fn main(rt: HostRuntime) -> io::Result<()> {
    answer_lines(&rt, &mut Cases::new(rt.alloc(), Requests))
}
