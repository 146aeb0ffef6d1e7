//! Reads bytes as the record of one side or of many, and writes what was read.

use crate::calls::RecordCall;
use ill_saved_kit::{Line, all_decoded, decoded, write_record_fault, write_side, write_sides};
use sha2::{Digest, Sha256};
use std::alloc::Global;

/// Writes the side or the sides whose record is `bytes`, or the fault.
pub fn write(alloc: Global, line: &mut Line, call: RecordCall, bytes: &[u8]) -> Option<()> {
    match call {
        RecordCall::Record | RecordCall::Octets | RecordCall::Prefixes => {
            write_record(alloc, line, bytes);
        }
        RecordCall::Records | RecordCall::RecordsPrefixes => write_records(alloc, line, bytes),
        RecordCall::Sealed => write_sealed(alloc, line, bytes)?,
    }
    Some(())
}

/// Returns the bytes of a case: a prefix of `bytes` if the cases are prefixes.
pub fn prefix_of(call: RecordCall, bytes: &[u8], number: usize) -> &[u8] {
    match call {
        RecordCall::Prefixes | RecordCall::RecordsPrefixes => bytes.get(..number).unwrap_or(bytes),
        _ => bytes,
    }
}

/// Writes the side whose record is `bytes`, or the fault.
fn write_record(alloc: Global, line: &mut Line, bytes: &[u8]) {
    match decoded(alloc, bytes) {
        Ok(side) => write_side(alloc, line, &side, bytes),
        Err(fault) => write_record_fault(line, fault),
    }
}

/// Writes the sides whose record is `bytes`, with their count, or the fault.
fn write_records(alloc: Global, line: &mut Line, bytes: &[u8]) {
    match all_decoded(alloc, bytes) {
        Ok(sides) => write_sides(alloc, line, &sides, bytes),
        Err(fault) => write_record_fault(line, fault),
    }
}

/// Writes the sides whose record is `bytes` with their SHA-256 after them, or the fault.
fn write_sealed(alloc: Global, line: &mut Line, bytes: &[u8]) -> Option<()> {
    let mut sealed = Vec::from_slice(alloc, bytes).ok()?;
    sealed.extend_from_slice(&Sha256::digest(bytes)).ok()?;
    write_records(alloc, line, &sealed);
    Some(())
}
