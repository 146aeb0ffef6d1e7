//! The lines of a file beside a desk, as notes and a diary have them.

ghost use Rattle.std.specs.Prelude.{◌≡◌, [], map, IfOk, OnOk};
ghost use Rattle.ill_beside.specs.FileLines.{lines_in, lines_of, with_byte};

use ill_values::OutOfMemory;
use std::alloc::Global;
use std::mem::replace;

/// The lines of a file.
#[derive(Drop)]
pub struct FileLines {
    /// The lines, without their ends.
    lines: Vec<Vec<u8>>,
    /// The bytes after the end of the last line, which are no whole line.
    next: Vec<u8>,
}

impl FileLines {
    /// Returns the lines of an empty file.
    pub fn none(alloc: Global) -> FileLines
        ensures lines { lines_of result ≡ [] }
        ensures next { result.next.items ≡ [] }
    {
        FileLines {
            lines: Vec::new(alloc),
            next: Vec::new(alloc),
        }
    }

    /// Returns the lines in `bytes`. A part of a line at their end is ignored.
    pub fn read(alloc: Global, bytes: &[u8]) -> Result<FileLines, OutOfMemory>
        ensures { IfOk result (λ read. lines_of read ≡ lines_in bytes.now) }
    {
        let mut read = FileLines::none(alloc);
        for byte in bytes {
            read.push(*byte)?;
        }
        Ok(read)
    }

    /// Appends a byte. A line feed ends a line.
    fn push(&mut self, byte: u8) -> Result<(), OutOfMemory>
        ensures { OnOk result ((lines_of self.new, self.new.next.items)
            ≡ with_byte (lines_of self.old, self.old.next.items) byte) }
    {
        if byte != b'\n' {
            self.next.push(byte)?;
            return Ok(());
        }
        let alloc = *self.next.allocator();
        let line = replace(&mut self.next, Vec::new(alloc));
        self.lines.push(line)?;
        Ok(())
    }

    /// Returns the lines, without their ends.
    pub fn lines(&self) -> &[Vec<u8>]
        ensures text { map (λ line. line.items) result.now ≡ lines_of self.now }
        ensures whole { result.now ≡ self.now.lines.items }
    {
        &self.lines
    }

    /// Returns the allocator from which the lines take memory.
    pub(crate) fn allocator(&self) -> Global {
        *self.next.allocator()
    }
}
