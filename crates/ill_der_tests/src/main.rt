//! Tests the encoding of APDUs. Each line of the input is a case. The program prints it again, with the answers of
//! `ill_der` below it, after two spaces. Answers in the input are dropped. The file `stdin` has the cases with the
//! answers that they must get, and `stdout` has the same bytes.
//!
//! To try a case alone, in seconds, put its lines into a file. Then `rt try < file | diff file -` prints nothing if all
//! is right.
//!
//! The bytes of a case are words: an octet in hexadecimal, or ASCII in quotes without space, star and bar. `again` is a
//! copy of all bytes before it. `*N` after a word repeats it N times. A line is one of these:
//!
//! - `# ..`, or an empty line: printed unchanged.
//! - `BYTES`: the answer of `decode`, which is an APDU in words and its size, or the fault. All other calls must agree
//!   with it. Else the line ends with `DIFFERS` and the first call that does not agree.
//! - `each proper front: BYTES`: each proper prefix must be short at its end. The answer to a prefix that is not gets
//!   its own line.
//! - `each octet at N: BYTES`: the answers with each octet in turn at this place. Octets in a row with equal answers
//!   share a line, which names the first of them.
//! - `one after another: BYTES`: the answers of `read_apdu` up to the end, which is read twice. Each tells the count of
//!   bytes that it took.
//!
//! The next cases are of a `Feed`. In each of them `each` must agree with `push`, and a fault must be given again by
//! each later push.
//!
//! - `in pieces: BYTES | BYTES ..`: the outcome of each push, and the answer of `end`. An outcome is a line for each
//!   APDU and for the fault. A piece may be empty.
//! - `byte by byte: BYTES`: as `in pieces`, with each byte as a piece.
//! - `cut in two at each place: BYTES`: the count of APDUs that one push gives, and the answer of `end`. Then follow
//!   the places where a cut changes the APDUs, the fault or the end, and the count of the others.
//! - `cut at random, N times from seed N: BYTES`: as before, but cut N times into pieces of 0 to 511 bytes. The seed
//!   determines the sizes.
//!
//! The next cases are of values. They print the value that is made, or the fault:
//!
//! - `id: BYTES | BYTES`: `TxnId::new` of two qualifiers. The id is copied, too.
//! - `item: BYTES`: `Item::new` of a text. The item is copied, too.
//! - `day: BYTES`: `Day::read` of eight digits.
//! - `day of: YEAR MONTH DAY`: `Day::new` of these numbers.
//! - `N days after: BYTES`: `Day::after` of the day with these eight digits.
//! - `number: N`: `Number::new` of N.
//!
//! Marks surround each call of the libraries (`ill_test_kit::marks`). A call whose allocation a shim refuses must
//! change nothing, and is made again.
#![tactic(auto)]

mod agreement;
mod answers;
mod cases;
mod cuts;
mod fed;
mod feeding;
mod reading;
mod values;
mod words;

use answers::Encodings;
use ill_test_kit::{Cases, answer_lines};
use std::io;

/// Performs the cases of the input, and prints their answers.
fn main(rt: HostRuntime) -> io::Result<()> {
    answer_lines(&rt, &mut Cases::new(rt.alloc(), Encodings))
}
