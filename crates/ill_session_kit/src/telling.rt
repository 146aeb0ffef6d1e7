//! Prints answers: each line has two spaces and a mark at its beginning.

use crate::names::Names;
use ill_test_kit::{Page, TestReader, TestWriter};
use std::fmt::Debug;

/// The part of the bytes of a writer that is printed.
#[derive(Drop)]
pub(crate) enum Telling {
    /// All bytes are printed.
    Whole,
    /// Two dots are printed if there are any bytes.
    Any,
    /// This many bytes from the beginning are printed.
    First(usize),
    /// A fixed text is printed if the bytes are exactly these. Other bytes are printed.
    Just(Vec<u8>),
}

/// Prints the bytes that a writer took, after `mark`.
pub(crate) fn print_writer(
    page: &mut Page,
    names: &Names,
    mark: &str,
    writer: &TestWriter,
    telling: &Telling,
) {
    let taken = writer.taken.as_slice();
    match telling {
        Telling::Whole => print_bytes(page, names, mark, taken),
        Telling::Any => print_any(page, mark, taken),
        Telling::First(count) => {
            let prefix = taken.get(..*count).unwrap_or(taken);
            print_bytes(page, names, mark, prefix);
        }
        Telling::Just(wanted) => print_compared(page, names, mark, taken, wanted),
    }
    print_again(page, mark, writer.was_called_again());
}

/// Prints the bytes that were never read from a slow reader or one with a bar.
pub fn print_reader(page: &mut Page, names: &Names, reader: &TestReader) {
    print_bytes(page, names, "<", reader.unread());
    print_again(page, "<", reader.was_called_again());
}

/// Prints that a stream was called after it had failed.
fn print_again(page: &mut Page, mark: &str, is_again: bool) {
    if is_again {
        print_line(page, mark, "CALLED AGAIN AFTER IT HAD FAILED");
    }
}

/// Prints two dots if there are any bytes.
fn print_any(page: &mut Page, mark: &str, bytes: &[u8]) {
    if !bytes.is_empty() {
        print_line(page, mark, "..");
    }
}

/// Prints `just these` if `bytes` are `wanted`, or else prints the bytes.
pub fn print_compared(page: &mut Page, names: &Names, mark: &str, bytes: &[u8], wanted: &[u8]) {
    if bytes == wanted {
        print_line(page, mark, "just these");
    } else {
        print_bytes(page, names, mark, bytes);
    }
}

/// Prints bytes by their name, or else as text, or else as octets. Prints nothing if there are no bytes.
pub fn print_bytes(page: &mut Page, names: &Names, mark: &str, bytes: &[u8]) {
    if bytes.is_empty() {
        return;
    }
    if let Some((times, name)) = names.name_of(bytes) {
        return print_name(page, mark, times, name);
    }
    match str::from_utf8(bytes) {
        Ok(text) if is_plain(bytes) => print_text(page, mark, text),
        _ => print_octets(page, mark, bytes),
    }
}

/// Returns true if the only control characters are ends of lines.
fn is_plain(bytes: &[u8]) -> bool {
    bytes.iter().all(|byte| *byte >= b' ' || *byte == b'\n')
}

/// Prints a name, and the count of its repetitions.
fn print_name(page: &mut Page, mark: &str, times: u32, name: &str) {
    begin(page, mark);
    page.text("[");
    if times != 1 {
        page.show(&times);
        page.text("*");
    }
    page.text(name);
    page.line("]");
}

/// Prints the lines of a text. A last line without end gets a backslash.
fn print_text(page: &mut Page, mark: &str, text: &str) {
    for line in text.split_inclusive('\n') {
        begin(page, mark);
        page.text(line);
        if !line.ends_with('\n') {
            page.line("\\");
        }
    }
}

/// Prints bytes in hexadecimal.
fn print_octets(page: &mut Page, mark: &str, bytes: &[u8]) {
    begin(page, mark);
    page.text("[");
    page.hex(bytes);
    page.line("]");
}

/// Prints a line after `mark`.
pub fn print_line(page: &mut Page, mark: &str, text: &str) {
    begin(page, mark);
    page.line(text);
}

/// Begins a line of an answer.
pub fn begin(page: &mut Page, mark: &str) {
    page.text("  ");
    page.text(mark);
    page.text(" ");
}

/// Prints a value as `{:?}` prints it.
pub fn print_value<T: Debug>(page: &mut Page, value: &T) {
    begin(page, "=");
    page.show_parts(value);
    page.text("\n");
}
