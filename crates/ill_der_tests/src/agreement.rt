//! Compares the other calls of `ill_der`, and those of `ill_values`, with the answer of `decode`.

use crate::reading::{Reading, decoded};
use crate::values::{id_of, item_of};
use ill_der::{DerFault, ReadFault, WriteFault, encode, encode_onto, size, write_apdu};
use ill_test_kit::marks;
use ill_test_kit::marks::{quietly, tried};
use ill_values::{Apdu, Body, OutOfMemory, TxnId};
use std::alloc::Global;

/// Returns the first call that contradicts the answer of `decode` to `bytes`, if there is one. This answer is `apdu`
/// and the size `count`.
pub fn differing_at_apdu(
    alloc: Global,
    bytes: &[u8],
    apdu: &Apdu,
    count: usize,
) -> Option<&'static [u8]> {
    let Some((encoding, after)) = bytes.split_at_checked(count) else {
        return Some(b"decode");
    };
    if quietly(alloc, || size(apdu)) != count {
        Some(b"size")
    } else if !is_encoded(alloc, apdu, encoding) {
        Some(b"encode")
    } else if !is_added(alloc, apdu, encoding) {
        Some(b"encode_onto")
    } else if !is_written(alloc, apdu, encoding) {
        Some(b"write_apdu")
    } else if !is_read(alloc, bytes, apdu, after) {
        Some(b"read_apdu")
    } else {
        differing_value(alloc, apdu)
    }
}

/// Returns true if `encode` gives the bytes `encoding`.
fn is_encoded(alloc: Global, apdu: &Apdu, encoding: &[u8]) -> bool {
    match tried(alloc, OutOfMemory, || encode(alloc, apdu)) {
        Ok(bytes) => bytes.as_slice() == encoding,
        Err(_) => false,
    }
}

/// Returns true if `encode_onto` adds the bytes `encoding` at the end of a vector. Out of memory it adds a proper
/// prefix of them.
fn is_added(alloc: Global, apdu: &Apdu, encoding: &[u8]) -> bool {
    for _ in 0..marks::TRIES {
        let Ok(mut bytes) = Vec::from_slice(alloc, b"#") else {
            return false;
        };
        marks::begin(alloc);
        let answer = encode_onto(&mut bytes, apdu);
        let is_refused = marks::is_refused(alloc, answer.is_err());
        let Some(added) = bytes.strip_prefix(b"#".as_slice()) else {
            return false;
        };
        if !is_refused {
            return answer.is_ok() && added == encoding;
        }
        if added == encoding || !encoding.starts_with(added) {
            return false;
        }
    }
    false
}

/// Returns true if `write_apdu` writes the bytes `encoding` at the end, and nothing when memory runs out. The writer
/// has room for them, so that the writer itself takes no memory.
fn is_written(alloc: Global, apdu: &Apdu, encoding: &[u8]) -> bool {
    let Ok(mut writer) = Vec::with_capacity(alloc, encoding.len() + 1) else {
        return false;
    };
    let mut is_right = writer.push(b'#').is_ok();
    let written = tried(alloc, WriteFault::OutOfMemory, || {
        is_right &= writer.as_slice() == b"#".as_slice();
        write_apdu(alloc, &mut writer, apdu)
    });
    match writer.as_slice() {
        [b'#', added @ ..] => is_right && written.is_ok() && added == encoding,
        _ => false,
    }
}

/// Returns true if `read_apdu` gives `apdu`, and leaves the bytes `after`. Out of memory it leaves the same bytes.
fn is_read(alloc: Global, bytes: &[u8], apdu: &Apdu, after: &[u8]) -> bool {
    let reading = Reading::of(alloc, bytes);
    match &reading.answer {
        Ok(Some(found)) => *found == *apdu && reading.left == after && reading.is_steady,
        _ => false,
    }
}

/// Returns the first type whose values in `apdu` cannot be made or copied again, if there is one.
fn differing_value(alloc: Global, apdu: &Apdu) -> Option<&'static [u8]> {
    if !is_made_again(alloc, &apdu.txn) {
        Some(b"TxnId")
    } else if !has_item_again(alloc, &apdu.body) {
        Some(b"Item")
    } else if !is_copied(alloc, apdu) {
        Some(b"Apdu")
    } else {
        None
    }
}

/// Returns true if `TxnId::new` makes `id` of its two qualifiers.
fn is_made_again(alloc: Global, id: &TxnId) -> bool {
    match id_of(alloc, id.group(), id.transaction()) {
        Ok(made) => made == *id,
        Err(_) => false,
    }
}

/// Returns true if `Item::new` makes the item of `body`, if it has one, of its text.
fn has_item_again(alloc: Global, body: &Body) -> bool {
    let Body::IllRequest { expiry: _, item } = body else {
        return true;
    };
    match item_of(alloc, item.text()) {
        Ok(made) => made == *item,
        Err(_) => false,
    }
}

/// Returns true if a copy of `apdu` equals `apdu`.
fn is_copied(alloc: Global, apdu: &Apdu) -> bool {
    match tried(alloc, OutOfMemory, || apdu.copy(alloc)) {
        Ok(copy) => copy == *apdu,
        Err(_) => false,
    }
}

/// Returns the first call that contradicts the answer of `decode` to `bytes`, if there is one. This answer is `fault`.
pub fn differing_at_fault(alloc: Global, bytes: &[u8], fault: DerFault) -> Option<&'static [u8]> {
    let reading = Reading::of(alloc, bytes);
    let is_answered = match &reading.answer {
        Ok(None) => bytes.is_empty(),
        Ok(Some(_)) => false,
        Err(found) => *found == ReadFault::Bytes(fault),
    };
    if is_answered && reading.is_steady && is_taken(alloc, bytes, reading.left, fault) {
        None
    } else {
        Some(b"read_apdu")
    }
}

/// Returns true if the bytes before `left` are the shortest prefix that has the fault. If the bytes are too short,
/// `left` must be empty.
fn is_taken(alloc: Global, bytes: &[u8], left: &[u8], fault: DerFault) -> bool {
    if let DerFault::Short(_) = fault {
        return left.is_empty();
    }
    let Some(prefix) = bytes.strip_suffix(left) else {
        return false;
    };
    let Some((_, shorter)) = prefix.split_last() else {
        return false;
    };
    has_fault(alloc, prefix, fault) && !has_fault(alloc, shorter, fault)
}

/// Returns true if `decode` answers `fault`.
fn has_fault(alloc: Global, bytes: &[u8], fault: DerFault) -> bool {
    decoded(alloc, bytes).err() == Some(fault)
}
