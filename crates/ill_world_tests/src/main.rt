//! Tests two sides in one world. The input has scripts. Below each script, after two spaces, the program prints the
//! trace that `ill_world` writes of it. Old traces in the input are dropped. The file `stdin` has the scripts with the
//! traces that they must give. The head of `stdin` defines how scripts are written. The file `stdout` has the bytes of
//! `stdin`.
//!
//! To try a script alone, in seconds, put its lines into a file. An example is
//! `sed -n '/^script a Shipped that comes again$/,/^$/p' stdin > file`.
//! Then `rt try < file | diff file -` prints nothing if all is right.
//!
//! Marks (`ill_test_kit::marks`) surround calls of `ill_world`. A call is repeated while an allocation is refused
//! (`tries`, `performing`). So `tools/out-of-memory` refuses each allocation of each call once, and the printed page
//! must not change. Ample memory is given to scripts that are longer than `performing` says, and to the events of
//! `ending`.
#![tactic(auto)]

mod desks;
mod events;
mod list;
mod performing;
mod places;
mod scripts;
mod session;
mod streams;
mod tries;
mod worlds;

use ill_test_kit::answer_lines;
use session::Session;
use std::io;

/// Performs the scripts of the input, and prints their traces.
fn main(rt: HostRuntime) -> io::Result<()> {
    answer_lines(&rt, &mut Session::new(rt.alloc()))
}
