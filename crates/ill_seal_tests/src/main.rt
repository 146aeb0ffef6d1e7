//! Tests sealed letters and keys. Each line of the input is a case. The program prints it again, with the answers of
//! `ill_seal` below it, after two spaces. Answers in the input are dropped. The file `stdin` has the cases with the
//! answers that they must get, and `stdout` has the same bytes.
//!
//! To try a case alone, put its lines into a file. Then `rt try < file | diff file -` prints nothing if all is right.
//!
//! Bytes are words in hexadecimal, and `-` is no byte. SENDER is `requester` or `responder`. A line is one of these:
//!
//! - `# ..`, or an empty line: printed unchanged.
//! - `hmac KEY TEXT`: the HMAC-SHA256 of the text under the key.
//! - `seal KEY SENDER TEXT`: the sealed letter.
//! - `unseal KEY SENDER LETTER`: the text of the letter, or the fault.
//! - `each bit KEY SENDER LETTER`: of each fault, how many letters have it if one bit of the letter is turned.
//! - `each front KEY SENDER LETTER`: of each fault, how many proper prefixes of the letter have it.
//! - `spell KEY`: the text of the key.
//! - `key TEXT`: the key with this text, or the fault.
//!
//! Marks surround each call that allocates (`ill_test_kit::marks`). A call whose allocation a shim refuses is made
//! again.
#![tactic(auto)]

mod answers;
mod case;
mod changes;

use answers::Letters;
use ill_test_kit::{Cases, answer_lines};
use std::io;

/// Performs the cases of the input, and prints their answers.
fn main(rt: HostRuntime) -> io::Result<()> {
    answer_lines(&rt, &mut Cases::new(rt.alloc(), Letters))
}
