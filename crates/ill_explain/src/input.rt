//! The lines about the faulty message of an input.

ghost use Rattle.std.specs.Prelude.{◌≡◌, ◌+◌, ◌-◌, ◌^◌, None, min, option_map};

use ill_der::{DerFault, Feed, size};
use ill_line::command_line::Name;
use ill_values::OutOfMemory;
use std::alloc::Global;
use std::io;
use std::io::Read;

/// The good messages that a reader has passed on.
#[derive(Clone, Copy)]
pub struct Passed {
    /// The number of these messages.
    pub messages: u64,
    /// The number of the bytes of these messages.
    pub bytes: u64,
}

impl Passed {
    /// Returns these messages and one more, of `size` bytes. Both counts stop at their maximum.
    fn and(self, size: usize) -> Passed
        ensures messages { result.messages ≡ min (self.messages + 1) (2 ^ 64 - 1) }
        ensures bytes { result.bytes ≡ min (self.bytes + size) (2 ^ 64 - 1) }
    {
        Passed {
            messages: self.messages.saturating_add(1),
            bytes: self.bytes.saturating_add(size as u64),
        }
    }
}

/// A reader that counts the good messages at the beginning of its input, if `is_counting` is set.
#[derive(Drop)]
pub struct Watched<'a, R> {
    /// The reader whose bytes are passed on.
    reader: &'a mut R,
    /// Decodes the bytes in order to count their messages. It is missing if nothing is counted, or counting has failed.
    feed: Option<Feed>,
    /// The good messages among the bytes so far.
    passed: Passed,
}

impl<'a, R> Watched<'a, R> {
    /// Returns a reader that gives the bytes of `reader`. It counts their messages if `is_counting` is true.
    pub fn new(alloc: Global, reader: &'a mut R, is_counting: bool) -> Watched<'a, R> {
        let feed = if is_counting {
            Some(Feed::new(alloc))
        } else {
            None
        };
        Watched {
            reader,
            feed,
            passed: Passed {
                messages: 0,
                bytes: 0,
            },
        }
    }

    /// Returns the good messages that the reader has passed on, if it has counted all of them.
    pub fn passed(&self) -> Option<Passed>
        ensures { result ≡ option_map (λ _. self.now.passed) self.now.feed }
    {
        match self.feed {
            Some(_) => Some(self.passed),
            None => None,
        }
    }

    /// Counts the messages that a piece completes. If memory runs out, no more are counted.
    fn count(&mut self, piece: &[u8]) {
        let Some(feed) = &mut self.feed else {
            return;
        };
        match feed.push(piece) {
            Ok(pushed) => {
                for apdu in &pushed.apdus {
                    self.passed = self.passed.and(size(apdu));
                }
            }
            Err(_) => self.feed = None,
        }
    }
}

/// Reads from the watched reader, and counts the messages in the bytes that it gives.
impl<R: Read> Read for Watched<'_, R> {
    fn read(&mut self, buffer: &mut [u8]) -> io::Result<usize> {
        let count = self.reader.read(buffer)?;
        self.count(buffer.get(..count).unwrap_or_default());
        Ok(count)
    }
}

/// Appends the lines about the faulty message of the input. `passed` gives its place, if it is known, and `fault` its
/// fault.
pub fn explain_bad_bytes(
    text: &mut String,
    fault: DerFault,
    passed: Option<Passed>,
) -> Result<(), OutOfMemory> {
    if let Some(passed) = passed {
        explain_place(text, passed)?;
    }
    match fault {
        DerFault::Short(at) => writeln!(
            text,
            "  The input ends within it, after {at} of its bytes."
        ),
        DerFault::Tag(at) => writeln!(
            text,
            "  Its byte {at} begins a wrong field, or one is missing there."
        ),
        DerFault::Length(at) => writeln!(text, "  Its byte {at} begins a wrong length."),
        DerFault::Field(at) => writeln!(text, "  Its byte {at} begins a wrong value."),
        DerFault::OutOfMemory => Ok(()),
    }
}

/// Appends the number of the faulty message, and the byte at which it begins. The good messages before it are `passed`.
fn explain_place(text: &mut String, passed: Passed) -> Result<(), OutOfMemory> {
    let number = passed.messages.saturating_add(1);
    let begin = passed.bytes;
    writeln!(
        text,
        "  Message {number} of the input is faulty: it begins at byte {begin}, counted from 0."
    )
}

/// Appends that the line `line` of a script is no event. It adds that the help of the command `name` lists the events.
pub fn explain_bad_line(text: &mut String, name: Name, line: u32) -> Result<(), OutOfMemory> {
    let command = name.word();
    writeln!(
        text,
        "  Line {line} of the script is no event: `ill {command} --help` lists them."
    )
}
