//! Test readers and writers fail as planned, or move few bytes at once.

ghost use Rattle.std.specs.Prelude.{◌≡◌, ◌≤◌, length, IfOk};

use std::alloc::Global;
use std::io;
use std::io::{ErrorKind, Read, Write};

/// A failure tells how a stream fails, and how often before it works again. The stream returns an error, or moves no
/// byte.
#[derive(Clone, Copy)]
pub struct Failure {
    /// The kind of the error. If it is `None`, the stream moves no byte and returns no error.
    kind: Option<ErrorKind>,
    /// The number of failures that are left.
    times: u32,
}

impl Failure {
    /// A stream with this failure never fails.
    pub const NEVER: Failure = Failure {
        kind: None,
        times: 0,
    };

    /// Returns the failure of a stream that fails `times` times: with an error of `kind`, or else by moving no byte.
    pub fn new(kind: Option<ErrorKind>, times: u32) -> Failure {
        Failure { kind, times }
    }

    /// Returns true if the stream must fail at its next call.
    fn is_due(&self) -> bool {
        self.times > 0
    }

    /// Counts one failure, and returns its error. `None` means that the stream moves no byte.
    fn fail(&mut self) -> Option<io::Error> {
        self.times = self.times.saturating_sub(1);
        Some(io::Error::from(self.kind?))
    }
}

/// Bytes that are read one after another. No read crosses the first `bar` bytes.
#[derive(Drop)]
struct Bytes {
    /// All bytes.
    bytes: Vec<u8>,
    /// The count of bytes that were read.
    read: usize,
    /// The offset that no read crosses.
    bar: usize,
}

impl Bytes {
    /// Returns bytes of which none is read yet.
    fn new(bytes: Vec<u8>) -> Bytes {
        Bytes {
            bytes,
            read: 0,
            bar: 0,
        }
    }

    /// Returns the bytes that are not read yet.
    fn rest(&self) -> &[u8] {
        self.bytes.get(self.read..).unwrap_or(&[])
    }

    /// Returns the most bytes that one read gives.
    fn most(&self) -> usize {
        if self.read < self.bar {
            self.bar - self.read
        } else {
            usize::MAX
        }
    }

    /// Reads bytes into `buffer`, and returns their count.
    fn read(&mut self, buffer: &mut [u8]) -> io::Result<usize>
        ensures bound { IfOk result (λ count. count ≤ length buffer.new) }
        ensures size { length buffer.new ≡ length buffer.old }
    {
        let count = self.rest().read(buffer)?;
        self.read = self.read.saturating_add(count);
        Ok(count)
    }
}

/// A reader that gives the bytes of `before`, may fail, and then gives the bytes of `after`.
#[derive(Drop)]
pub struct TestReader {
    /// The bytes before the failure.
    before: Bytes,
    /// The failure after the bytes of `before`.
    failure: Failure,
    /// The bytes after the failure.
    after: Bytes,
    /// True if the reader gives one byte at a time.
    is_slow: bool,
    /// True if `before` has a bar.
    has_bar: bool,
    /// True if the reader has failed.
    has_failed: bool,
    /// True if the reader was called after it had failed.
    was_called_again: bool,
}

impl TestReader {
    /// Returns a reader that gives the bytes of `before`, fails, and then gives the bytes of `after`.
    pub fn new(before: Vec<u8>, failure: Failure, after: Vec<u8>) -> TestReader {
        TestReader {
            before: Bytes::new(before),
            failure,
            after: Bytes::new(after),
            is_slow: false,
            has_bar: false,
            has_failed: false,
            was_called_again: false,
        }
    }

    /// Makes the reader give one byte at a time.
    pub fn set_slow(&mut self) {
        self.is_slow = true;
    }

    /// Forbids a read that crosses the first `bar` bytes.
    pub fn set_bar(&mut self, bar: usize) {
        self.before.bar = bar;
        self.has_bar = true;
    }

    /// Returns the bytes before the failure that were never read, if the reader is slow or has a bar. Otherwise returns
    /// no bytes.
    pub fn unread(&self) -> &[u8] {
        if self.is_slow || self.has_bar {
            self.before.rest()
        } else {
            &[]
        }
    }

    /// Returns true if the reader was called after it had failed.
    pub fn was_called_again(&self) -> bool {
        self.was_called_again
    }

    /// Makes the reader forget that it has failed, so that a further call is no call after a failure.
    pub fn forgive(&mut self) {
        self.has_failed = false;
    }
}

impl Read for TestReader {
    fn read(&mut self, buffer: &mut [u8]) -> io::Result<usize> {
        self.was_called_again |= self.has_failed;
        let most = if self.is_slow { 1 } else { self.before.most() };
        let count = buffer.len().min(most);
        if !self.before.rest().is_empty() {
            return self.before.read(&mut buffer[..count]);
        }
        if self.failure.is_due() {
            self.has_failed = true;
            return match self.failure.fail() {
                Some(error) => Err(error),
                None => Ok(0),
            };
        }
        self.after.read(&mut buffer[..count])
    }
}

/// A writer that takes bytes, may refuse after some, and then takes all.
#[derive(Drop)]
pub struct TestWriter {
    /// The writer has taken these bytes.
    pub taken: Vec<u8>,
    /// The count of bytes that the writer takes before it fails.
    room: usize,
    /// The failure of `write` when there is no room.
    refusal: Failure,
    /// The failure of `flush`.
    flush: Failure,
    /// True if the writer takes one byte at a time.
    is_slow: bool,
    /// True if the writer has failed.
    has_failed: bool,
    /// True if the writer was called after it had failed.
    was_called_again: bool,
}

impl TestWriter {
    /// Returns a writer that takes all bytes.
    pub fn new(alloc: Global) -> TestWriter {
        TestWriter {
            taken: Vec::new(alloc),
            room: usize::MAX,
            refusal: Failure::NEVER,
            flush: Failure::NEVER,
            is_slow: false,
            has_failed: false,
            was_called_again: false,
        }
    }

    /// Makes the writer take one byte at a time.
    pub fn set_slow(&mut self) {
        self.is_slow = true;
    }

    /// Makes the writer fail, as `refusal` says, when it has taken `room` bytes.
    pub fn set_room(&mut self, room: usize, refusal: Failure) {
        self.room = room;
        self.refusal = refusal;
    }

    /// Makes the call `flush` fail, as the failure `flush` says.
    pub fn set_flush(&mut self, flush: Failure) {
        self.flush = flush;
    }

    /// Returns true if the writer was called after it had failed.
    pub fn was_called_again(&self) -> bool {
        self.was_called_again
    }

    /// Returns the most bytes that the writer takes in one call.
    fn most(&self) -> usize {
        if self.is_slow {
            1
        } else if self.refusal.is_due() {
            self.room
        } else {
            usize::MAX
        }
    }
}

impl Write for TestWriter {
    fn write(&mut self, bytes: &[u8]) -> io::Result<usize> {
        self.was_called_again |= self.has_failed;
        if self.room == 0 && self.refusal.is_due() {
            self.has_failed = true;
            return match self.refusal.fail() {
                Some(error) => Err(error),
                None => Ok(0),
            };
        }
        let count = bytes.len().min(self.most());
        self.taken.extend_from_slice(&bytes[..count])?;
        self.room = self.room.saturating_sub(count);
        Ok(count)
    }

    fn flush(&mut self) -> io::Result<()> {
        self.was_called_again |= self.has_failed;
        if self.flush.is_due() {
            self.has_failed = true;
            if let Some(error) = self.flush.fail() {
                return Err(error);
            }
        }
        Ok(())
    }
}
