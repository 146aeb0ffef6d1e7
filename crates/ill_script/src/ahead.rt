//! Defines a buffer, which reads the bytes of a text ahead, in pieces.

ghost use Rattle.std.specs.Prelude.{◌≡◌, ◌≤◌, ℕ, List, [], length, drop, slice_range};
ghost use Rattle.ill_script.specs.Simulating.{ReadsAhead};

use crate::fault::SimFault;
use std::io::Read;
use std::marker::Model;

/// At most `PIECE` bytes are read at a time.
const PIECE: usize = 4_096;

/// The bytes of a text that were read, and are not used yet: those of `piece` from `start` to `end`.
#[derive(Drop)]
pub struct Ahead {
    piece: [u8; PIECE],
    start: usize,
    end: usize,
}

// The value of a buffer is the range of its piece from `start` to `end`.
impl Model for Ahead {
    ghost Value = { List ℕ };

    ghost view = { λ a. slice_range a.piece a.start a.end };

    ghost invariant = { λ a. (a.start ≤ a.end) × (a.end ≤ length a.piece) };
}

impl Ahead {
    /// Returns an empty buffer.
    pub fn new() -> Ahead
        ensures { result ≡ [] }
    {
        Ahead {
            piece: [0; PIECE],
            start: 0,
            end: 0,
        }
    }

    /// Returns the bytes that are ahead.
    pub fn bytes(&self) -> &[u8]
        ensures { result.now ≡ self.now }
    {
        &self.piece[self.start..self.end]
    }

    /// Drops the first `count` bytes. The buffer must have as many.
    pub fn skip(&mut self, count: usize)
        requires { count ≤ length self.old }
        ensures { self.new ≡ drop count self.old }
    {
        self.start += count;
    }

    /// Reads a piece if no bytes are ahead. Returns true if bytes are ahead now, and false if the text has ended. Fails
    /// with `Read` if the reader fails.
    pub fn fill<R: Read>(&mut self, reader: &mut R) -> Result<bool, SimFault>
        ensures { ReadsAhead self.old self.new (R.remaining reader.old) (R.remaining reader.new) result }
    {
        if self.start < self.end {
            return Ok(true);
        }
        match reader.read(&mut self.piece) {
            Ok(size) => {
                self.start = 0;
                self.end = size;
                Ok(size > 0)
            }
            Err(_) => Err(SimFault::Read),
        }
    }
}
