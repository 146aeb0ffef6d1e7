//! Surrounds each try of a call that takes memory with marks.

use ill_test_kit::marks;
use std::alloc::Global;

/// Marks surround only calls on records of at most this size. A longer record would take too many tries.
const MOST_OCTETS: usize = 2_000;

/// The marks around each try of a call.
#[derive(Clone, Copy)]
pub struct Tries {
    /// The allocator that makes the marks.
    alloc: Global,
    /// True if the calls are between marks.
    is_marked: bool,
}

impl Tries {
    /// Returns the marks around a call on a record of `octets` bytes. A long record gets none.
    pub fn of(alloc: Global, octets: usize) -> Tries {
        Tries {
            alloc,
            is_marked: octets <= MOST_OCTETS,
        }
    }

    /// Begins a try.
    pub fn begin(&self) {
        if self.is_marked {
            marks::begin(self.alloc);
        }
    }

    /// Ends a try; `says_memory` is true if it answered out of memory. Returns true if an allocation was refused. Then
    /// the call must have changed nothing, and is made again.
    pub fn is_refused(&self, says_memory: bool) -> bool {
        self.is_marked && marks::is_refused(self.alloc, says_memory)
    }
}
