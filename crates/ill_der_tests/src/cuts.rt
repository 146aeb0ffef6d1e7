//! Cuts bytes at random.

use ill_values::OutOfMemory;
use std::alloc::Global;

/// Pseudorandom numbers of a linear congruential generator. Equal seeds give equal numbers.
#[derive(Drop)]
pub struct Draws {
    /// The state of the generator.
    state: u32,
}

impl Draws {
    /// Returns the numbers that follow `seed`.
    pub fn new(seed: u32) -> Draws {
        Draws { state: seed }
    }

    /// Returns the next number, below 65536. The low bits of the state are dropped, since they repeat after few
    /// numbers.
    fn next(&mut self) -> u32 {
        self.state = self
            .state
            .wrapping_mul(1_664_525)
            .wrapping_add(1_013_904_223);
        self.state >> 16
    }

    /// Returns the size of a piece, 0 to 511. Small sizes are drawn more often than large ones.
    fn size(&mut self) -> usize {
        let size = self.next() % 512;
        (size >> (self.next() % 9)) as usize
    }
}

/// Cuts `bytes` into pieces of drawn sizes. The last piece is the remainder.
pub fn cut<'a>(
    alloc: Global,
    draws: &mut Draws,
    bytes: &'a [u8],
) -> Result<Vec<&'a [u8]>, OutOfMemory> {
    let mut pieces = Vec::new(alloc);
    let mut left = bytes;
    for _ in 0..bytes.len() {
        let (piece, after) = left.split_at(draws.size().min(left.len()));
        pieces.push(piece)?;
        left = after;
        if left.is_empty() {
            break;
        }
    }
    pieces.push(left)?;
    Ok(pieces)
}
