//! Tests desks over stores in memory and in files.
//!
//! Each line of the input is a case. The program writes it again, with the library's answer in place of its old answer.
//! The answers to a family of cases are written below it. Three kinds of lines are written unchanged: empty lines,
//! notes, which begin with `# `, and `let` lines, which name bytes. The file `stdin` has the cases with the answers
//! that they must get, and `stdout` has the same bytes. The program makes a temporary folder for files, and removes it
//! at the end.
//!
//! Marks surround calls that take memory (`ill_test_kit::marks`). Such a call is repeated while an allocation is
//! refused. A refused call must change nothing, so refusals do not change the answers.
//!
//! To try some cases alone, in seconds, put their lines and the `let` lines that they need into a file. An example is
//! `grep -E '^(let|file) ' stdin > file`. Then `rt try < file | diff file -` prints nothing if all is right.
#![tactic(auto)]

mod actions;
mod beginnings;
mod bench;
mod calls;
mod desk_kind;
mod desk_view;
mod desks;
mod files;
mod fuses;
mod idle;
mod landing;
mod longest;
mod memory_desk;
mod restarts;
mod transactions;
mod words;

use bench::Bench;
use ill_saved_kit::{Folder, Session};
use ill_test_kit::{answer_lines, make_folder};
use std::alloc::Global;
use std::{fs, io};

/// Performs the cases of the input with files in a new folder, and removes the folder.
fn main(rt: HostRuntime) -> io::Result<()> {
    let alloc = rt.alloc();
    let path = make_folder(&rt, alloc, "ill_saved_desk_tests")?;
    let printed = print_answers(&rt, alloc, path.as_str());
    fs::remove_dir_all(&rt, path.as_str())?;
    printed
}

/// Prints the answers to the input, with files in the folder at `path`.
fn print_answers(rt: &HostRuntime, alloc: Global, path: &str) -> io::Result<()> {
    let folder = Folder::new(rt, alloc, path);
    let mut session = Session::new(alloc, Bench::new(alloc, folder));
    let printed = answer_lines(rt, &mut session);
    drop(session);
    printed
}
