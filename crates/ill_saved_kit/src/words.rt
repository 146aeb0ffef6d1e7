//! Puts the faults of records and stores, and the answers of a store, into words.

use crate::line::Line;
use ill_saved::{RecordFault, StoreFault};

/// Writes the words of a fault of a record.
pub fn write_record_fault(line: &mut Line, fault: RecordFault) {
    match fault {
        RecordFault::Bad(at) => {
            line.text("bad at ");
            line.show(&at);
        }
        RecordFault::Short => line.text("short"),
        RecordFault::Inconsistent => line.text("inconsistent"),
        RecordFault::OutOfMemory => line.text("memory"),
        RecordFault::Digest => line.text("digest"),
    }
}

/// Returns the words of a fault of a store.
pub fn store_words(fault: StoreFault) -> &'static str {
    match fault {
        StoreFault::Failed => "store failed",
        StoreFault::TooLarge => "store too-large",
        StoreFault::OutOfMemory => "memory",
    }
}

/// Writes the result of a load: the bytes, `none` if nothing is committed, or the words of the fault.
pub fn write_loaded(line: &mut Line, loaded: Result<Option<Vec<u8>>, StoreFault>) {
    match loaded {
        Ok(Some(bytes)) => line.octets(&bytes),
        Ok(None) => line.text("none"),
        Err(fault) => line.text(store_words(fault)),
    }
}

/// Writes the result of a save: `saved`, or the words of the fault.
pub fn write_saved(line: &mut Line, saved: Result<(), StoreFault>) {
    match saved {
        Ok(()) => line.text("saved"),
        Err(fault) => line.text(store_words(fault)),
    }
}
