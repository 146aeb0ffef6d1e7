//! A diary that is opened when its first line is entered. So an action that is refused makes no file.

use ill_files::diary::{open_entry, warn_of_diary};
use ill_text::diary::Entry;
use ill_values::OutOfMemory;
use std::alloc::Global;
use std::io;
use std::io::{ErrorKind, Write};
use std::rt::Files;

/// The diary beside the file of a desk. It is opened when lines are written, and they are durable then.
#[derive(Drop)]
pub struct LateDiary<'a, 'b, 'c, T, E> {
    rt: &'a T,
    alloc: Global,
    /// The path of the desk's file.
    file: &'b str,
    errors: &'c mut E,
}

/// Returns the entry of `line` in the diary beside `file`, which is not opened yet. If there was no memory for the
/// line, it writes a line to the errors, and enters nothing.
pub fn late_entry<'a, 'b, 'c, T, E: Write>(
    rt: &'a T,
    alloc: Global,
    file: &'b str,
    line: Result<Vec<u8>, OutOfMemory>,
    errors: &'c mut E,
) -> Entry<LateDiary<'a, 'b, 'c, T, E>> {
    let line = match line {
        Ok(line) => line,
        Err(_) => {
            warn_of_diary(alloc, file, true, errors);
            Vec::new(alloc)
        }
    };
    let diary = LateDiary {
        rt,
        alloc,
        file,
        errors,
    };
    Entry::new(line, diary)
}

impl<T: Files, E: Write> Write for LateDiary<'_, '_, '_, T, E> {
    fn write(&mut self, bytes: &[u8]) -> io::Result<usize> {
        let lines = Vec::from_slice(self.alloc, bytes);
        let mut entry = open_entry(self.rt, self.alloc, self.file, lines, self.errors);
        entry.enter();
        if entry.has_failed() {
            Err(io::Error::from(ErrorKind::Other))
        } else {
            Ok(bytes.len())
        }
    }

    fn flush(&mut self) -> io::Result<()> {
        Ok(())
    }
}
