//! Readers and writers whose only call is counted. The loops of this crate use no others.

ghost use Rattle.std.specs.Prelude.{◌≡◌, ◌+◌, List, Option, ℕ};
ghost use Rattle.std.specs.Io.{ReadsAtMost, WritesAtMost};
ghost use Rattle.std.specs.Io.KnownBytes.{ReadConsumes, WriteAppends};

use crate::steps::Steps;
use std::io;
use std::io::{Read, Write};
use std::sync::ledger::Ledger;

/// A reader whose only call is counted.
pub trait CountedRead {
    /// The bytes that are left to read, if they are known.
    ghost remaining: { Self → Option (List ℕ) };

    /// Reads once into `buffer`, adds one to `steps`, and returns the number of bytes that were read.
    fn read_once<L: Ledger>(&mut self, buffer: &mut [u8], steps: &mut Steps<L>) -> io::Result<usize>
        ensures count { steps.new ≡ steps.old + 1 }
        ensures bound { ReadsAtMost result buffer.new }
        ensures bytes { ReadConsumes (remaining self.old) (remaining self.new) result buffer.new };
}

impl<R: Read> CountedRead for R {
    ghost remaining = { λ reader. R.remaining reader };

    fn read_once<L: Ledger>(
        &mut self,
        buffer: &mut [u8],
        steps: &mut Steps<L>,
    ) -> io::Result<usize> {
        steps.tick();
        self.read(buffer)
    }
}

/// A writer whose only call is counted.
pub trait CountedWrite {
    /// The bytes that the writer holds, if they are known.
    ghost contents: { Self → Option (List ℕ) };

    /// Writes `bytes` once, adds one to `steps`, and returns the number of bytes that the writer took.
    fn write_once<L: Ledger>(&mut self, bytes: &[u8], steps: &mut Steps<L>) -> io::Result<usize>
        ensures count { steps.new ≡ steps.old + 1 }
        ensures bound { WritesAtMost result bytes.now }
        ensures bytes { WriteAppends (contents self.old) (contents self.new) result bytes.now };
}

impl<W: Write> CountedWrite for W {
    ghost contents = { λ writer. W.contents writer };

    fn write_once<L: Ledger>(&mut self, bytes: &[u8], steps: &mut Steps<L>) -> io::Result<usize> {
        steps.tick();
        self.write(bytes)
    }
}
