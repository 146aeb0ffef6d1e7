//! Decoding of a saved record.

ghost use Rattle.std.specs.Prelude.{◌≡◌, ◌+◌, ◌≤◌, true, is_ok, Err, OnOk};
ghost use Rattle.ill_record.specs.declared.fault.RecordFault.TheVariants as faults;
ghost use Rattle.ill_der.specs.Format.{Reads, followed_by};
ghost use Rattle.ill_record.specs.Layout.{ReadsInMemory, counted_text, counted, apdu, read_all};
ghost use Rattle.ill_record.specs.Records.{start, heading, requester_states, responder_states, read_requester, read_responder, all_of, consistent_side, record_at, begins_as_record, Decodes};

use crate::cursor::Cursor;
use crate::fault::{LayoutFault, RecordFault};
use crate::role::Role;
use crate::side::Side;
use ill_core::{Requester, Responder};
use ill_values::{Apdu, TxnId};
use std::alloc::Global;

/// Decodes a saved record, or returns the first fault. The record must take up all of the bytes.
///
/// Decoding allocates as it reads, from the qualifiers on.
#[tactic(auto, unfolding(crate::specs::Records::record_at, crate::specs::Records::side_encoded, crate::specs::Records::begins_as_record))]
pub fn decode_record(alloc: Global, bytes: &[u8]) -> Result<Side, RecordFault>
    ensures { Decodes (record_at bytes.now) (begins_as_record bytes.now) result }
{
    let mut cursor = Cursor::new(bytes);
    match role(&mut cursor)? {
        Role::Requester => requester(alloc, &mut cursor),
        Role::Responder => responder(alloc, &mut cursor),
    }
}

/// Reads the octets `ILL1`, and the role.
fn role(cursor: &mut Cursor<'_>) -> Result<Role, LayoutFault>
    requires room { cursor.old.at ≤ 100 }
    ensures read { Reads (λ role. ((tt, (tt, (tt, tt))), role)) result cursor.new
        (start.read cursor.old) }
    ensures near { OnOk result (cursor.new.at ≡ cursor.old.at + 5) }
{
    cursor.constant(b'I')?;
    cursor.constant(b'L')?;
    cursor.constant(b'L')?;
    cursor.constant(b'1')?;
    cursor.role()
}

/// Decodes a requester from the fields after its role, to the end of the record. Memory can run out only if a state and
/// two qualifiers come first.
fn requester(alloc: Global, cursor: &mut Cursor<'_>) -> Result<Side, RecordFault>
    requires room { cursor.old.at ≤ 1000 }
    ensures { Decodes (consistent_side (all_of (read_requester cursor.old)))
        (is_ok ((heading requester_states).read cursor.old)) result }
{
    let state = cursor.requester_state()?;
    let txn = read_txn(alloc, cursor)?;
    let held = cursor.optional_number()?;
    let checked_in = cursor.mark()?;
    let due = cursor.due()?;
    let issued = read_issued(alloc, cursor)?;
    cursor.ended()?;
    match Requester::of_parts(txn, state, held, checked_in, due, issued) {
        Some(requester) => Ok(Side::Requester(requester)),
        None => Err(RecordFault::Inconsistent),
    }
}

/// Decodes a responder from the fields after its role, to the end of the record. Memory can run out only if a state and
/// two qualifiers come first.
fn responder(alloc: Global, cursor: &mut Cursor<'_>) -> Result<Side, RecordFault>
    requires room { cursor.old.at ≤ 1000 }
    ensures { Decodes (consistent_side (all_of (read_responder cursor.old)))
        (is_ok ((heading responder_states).read cursor.old)) result }
{
    let state = cursor.responder_state()?;
    let txn = read_txn(alloc, cursor)?;
    let accepted = cursor.optional_number()?;
    let last_cancel = cursor.optional_number()?;
    let last_renew = cursor.optional_number()?;
    let received = cursor.mark()?;
    let request = cursor.request(alloc)?;
    let issued = read_issued(alloc, cursor)?;
    cursor.ended()?;
    let parts = Responder::of_parts(
        txn,
        state,
        accepted,
        last_cancel,
        last_renew,
        received,
        request,
        issued,
    );
    match parts {
        Some(responder) => Ok(Side::Responder(responder)),
        None => Err(RecordFault::Inconsistent),
    }
}

/// Reads the two qualifiers of the transaction.
fn read_txn(alloc: Global, cursor: &mut Cursor<'_>) -> Result<TxnId, RecordFault>
    requires room { cursor.old.at ≤ 1001 }
    ensures read { ReadsInMemory (λ txn. (txn.group, txn.transaction)) result cursor.new
        ((followed_by counted_text counted_text).read cursor.old) }
    ensures memory { result ≡ Err faults.OutOfMemory →
        is_ok ((followed_by counted_text counted_text).read cursor.old) ≡ true }
    ensures near { OnOk result (cursor.new.at ≤ cursor.old.at + 130) }
{
    let group = cursor.counted_text()?;
    let transaction = cursor.counted_text()?;
    TxnId::new(alloc, group, transaction).map_err(|_| RecordFault::OutOfMemory)
}

/// Reads the number of issued APDUs, and then each of them.
fn read_issued(alloc: Global, cursor: &mut Cursor<'_>) -> Result<Vec<Apdu>, RecordFault>
    requires room { cursor.old.at ≤ 10000 }
    ensures { ReadsInMemory (λ apdus. apdus.items) result cursor.new
        ((counted apdu).read cursor.old) }
{
    let count = cursor.octet()?;
    read_apdus(alloc, cursor, count)
}

/// Reads `count` APDUs.
#[tactic(auto, using(crate::proofs::Lists::after_none))]
fn read_apdus(alloc: Global, cursor: &mut Cursor<'_>, count: u8) -> Result<Vec<Apdu>, RecordFault>
    requires room { cursor.old.at ≤ 10001 }
    ensures { ReadsInMemory (λ apdus. apdus.items) result cursor.new
        (read_all apdu count cursor.old) }
{
    let mut apdus = Vec::with_capacity(alloc, usize::from(count))?;
    for _ in 0..count {
        apdus.push(cursor.apdu(alloc)?)?;
    }
    Ok(apdus)
}
