//! Calls `decode` and `read_apdu` between marks.

use ill_der::{DerFault, ReadFault, decode, read_apdu};
use ill_test_kit::marks::tried;
use ill_values::Apdu;
use std::alloc::Global;

/// Returns the answer of `decode`.
pub fn decoded(alloc: Global, bytes: &[u8]) -> Result<(Apdu, usize), DerFault> {
    tried(alloc, DerFault::OutOfMemory, || decode(alloc, bytes))
}

/// The outcome of `read_apdu`.
#[derive(Drop)]
pub struct Reading<'a> {
    /// The answer of the last try.
    pub answer: Result<Option<Apdu>, ReadFault>,
    /// The last try left these bytes.
    pub left: &'a [u8],
    /// True if every try left equally many bytes.
    pub is_steady: bool,
}

impl<'a> Reading<'a> {
    /// Reads one APDU from `bytes`.
    pub fn of(alloc: Global, bytes: &'a [u8]) -> Reading<'a> {
        let mut left = bytes;
        let (mut least, mut most) = (usize::MAX, 0);
        let answer = tried(alloc, ReadFault::OutOfMemory, || {
            left = bytes;
            let answer = read_apdu(alloc, &mut left);
            least = least.min(left.len());
            most = most.max(left.len());
            answer
        });
        Reading {
            answer,
            left,
            is_steady: least == most,
        }
    }
}
