//! Makes streams that fail once, are interrupted once, or end.

use ill_test_kit::{Failure, TestReader, TestWriter};
use std::alloc::Global;
use std::io::ErrorKind;

/// A reader that has failed gives these bytes when it is called again.
const AFTER_FAILURE: &[u8] = b"\nsave requester\n";

/// The behaviour of a stream when its bytes or its room are used up.
#[derive(Clone, Copy)]
pub enum End {
    /// The stream moves no bytes.
    Stops,
    /// The stream fails once.
    Fails,
    /// The stream is interrupted once.
    Interrupts,
}

impl End {
    /// Returns the one failure of a stream with this end.
    fn failure(self) -> Failure {
        let kind = match self {
            End::Stops => None,
            End::Fails => Some(ErrorKind::BrokenPipe),
            End::Interrupts => Some(ErrorKind::Interrupted),
        };
        Failure::new(kind, 1)
    }
}

/// The behaviour of the two streams of a script.
#[derive(Clone, Copy)]
pub enum Streams {
    /// The reader ends as this says, and the writer takes all bytes.
    Reader(End),
    /// The reader ends as this says, and the writer takes all bytes. Both move one byte at a time.
    Slow(End),
    /// The reader gives all bytes. The writer takes a count of bytes, and then ends as this says.
    Writer(usize, End),
}

impl Streams {
    /// Returns a reader that gives `bytes`, and then ends as `self` says. After a failure it gives `AFTER_FAILURE`.
    pub fn reader(self, alloc: Global, bytes: &[u8]) -> Option<TestReader> {
        let end = match self {
            Streams::Reader(end) | Streams::Slow(end) => end,
            Streams::Writer(_, _) => End::Stops,
        };
        let after = match end {
            End::Stops => Vec::new(alloc),
            End::Fails | End::Interrupts => Vec::from_slice(alloc, AFTER_FAILURE).ok()?,
        };
        let bytes = Vec::from_slice(alloc, bytes).ok()?;
        let mut reader = TestReader::new(bytes, end.failure(), after);
        if matches!(self, Streams::Slow(_)) {
            reader.set_slow();
        }
        Some(reader)
    }

    /// Returns a writer that takes bytes as `self` says. It has memory for `most` bytes.
    pub fn writer(self, alloc: Global, most: usize) -> Option<TestWriter> {
        let mut writer = TestWriter::new(alloc);
        writer.taken = Vec::with_capacity(alloc, most).ok()?;
        match self {
            Streams::Reader(_) => {}
            Streams::Slow(_) => writer.set_slow(),
            Streams::Writer(room, end) => writer.set_room(room, end.failure()),
        }
        Some(writer)
    }
}
