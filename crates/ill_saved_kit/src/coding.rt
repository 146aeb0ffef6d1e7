//! Encodes and decodes records, and repeats that while an allocation is refused.

use crate::tries::Tries;
use ill_saved::{
    RecordFault, Side, Sides, decode_record, decode_record2, encode_record, encode_record2,
};
use ill_test_kit::marks;
use ill_test_kit::marks::TRIES;
use ill_values::OutOfMemory;
use std::alloc::Global;

/// Returns the record of one side. Tries again after each refused allocation. Fails if memory runs out without a
/// refusal, or after `TRIES` tries.
pub fn encoded(alloc: Global, side: &Side) -> Result<Vec<u8>, OutOfMemory> {
    for _ in 0..TRIES {
        marks::begin(alloc);
        let record = encode_record(alloc, side);
        if !marks::is_refused(alloc, record.is_err()) {
            return record;
        }
    }
    Err(OutOfMemory)
}

/// Returns the record of many sides. Tries again and fails as `encoded` does.
pub fn all_encoded(alloc: Global, sides: &Sides) -> Result<Vec<u8>, OutOfMemory> {
    for _ in 0..TRIES {
        marks::begin(alloc);
        let record = encode_record2(alloc, sides);
        if !marks::is_refused(alloc, record.is_err()) {
            return record;
        }
    }
    Err(OutOfMemory)
}

/// Returns the side whose record is `record`, or the fault. Tries again after each refused allocation.
pub fn decoded(alloc: Global, record: &[u8]) -> Result<Side, RecordFault> {
    let tries = Tries::of(alloc, record.len());
    for _ in 0..TRIES {
        tries.begin();
        let side = decode_record(alloc, record);
        if !tries.is_refused(matches!(&side, Err(RecordFault::OutOfMemory))) {
            return side;
        }
        drop(side);
    }
    Err(RecordFault::OutOfMemory)
}

/// Returns the sides whose record is `record`, or the fault. Tries again after each refused allocation.
pub fn all_decoded(alloc: Global, record: &[u8]) -> Result<Sides, RecordFault> {
    let tries = Tries::of(alloc, record.len());
    for _ in 0..TRIES {
        tries.begin();
        let sides = decode_record2(alloc, record);
        if !tries.is_refused(matches!(&sides, Err(RecordFault::OutOfMemory))) {
            return sides;
        }
        drop(sides);
    }
    Err(RecordFault::OutOfMemory)
}
