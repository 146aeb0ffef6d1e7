//! Performs the lines of an input, and prints their answers.

use crate::page::Page;
use std::alloc::Global;
use std::io;
use std::io::{ErrorKind, Read, Write};

/// Each line of an answer below its case begins with this indent.
pub const INDENT: &str = "  ";

/// A test program performs the lines of its input by these functions.
pub trait Lines {
    /// Performs `line`, and adds its text and its answer to `page`.
    fn perform(&mut self, page: &mut Page, line: &str);

    /// Closes the test after the last line. Returns `None` if that fails.
    fn end(&mut self, page: &mut Page) -> Option<()>;
}

/// Performs each line of the standard input, and prints the page that they give.
pub fn answer_lines<L: Lines>(rt: &HostRuntime, lines: &mut L) -> io::Result<()> {
    let alloc = rt.alloc();
    let text = io::read_to_string(alloc, rt.stdin())?;
    let mut page = Page::new(alloc);
    for line in text.lines() {
        lines.perform(&mut page, line);
    }
    let ended = lines.end(&mut page);
    print_page(&mut rt.stdout(), &page, ended.is_some())
}

/// Prints `page`. If bytes are missing or `has_ended` is false, returns the error out of memory.
fn print_page<W: Write>(output: &mut W, page: &Page, has_ended: bool) -> io::Result<()> {
    match page.bytes() {
        Some(bytes) if has_ended => output.write_all(bytes),
        _ => Err(io::Error::from(ErrorKind::OutOfMemory)),
    }
}
