//! Decoding of many sides from one saved record.

ghost use Rattle.std.specs.Prelude.{◌≡◌, ◌+◌, ◌≤◌, ◌<◌, true, false, Ok, Err, length, IfOk, IfErr, OnOk, nat_lt};
ghost use Rattle.ill_record.specs.declared.fault.RecordFault.TheVariants.{OutOfMemory};
ghost use Rattle.ill_record.specs.Layout.{ReadsInMemory, read_all};
ghost use Rattle.ill_record.specs.Records.{record_at, begins_as_record, Decodes};
ghost use Rattle.ill_record.specs.RecordsV2.{unsealed, part, together, sides_at, read_alone, has_sides, records_at, begins_as_records, PutsRead};
ghost use Rattle.ill_record.specs.Sides.{most_sides};

use crate::cursor::Cursor;
use crate::decoding::decode_record;
use crate::fault::{RecordFault, SidesFault};
use crate::role::Role;
use crate::side::Side;
use crate::sides::Sides;
use sha2::{Digest, Sha256};
use std::alloc::Global;

/// The length of the digest, in octets.
const DIGEST_SIZE: usize = 32;

/// The minimum length of a record of version 2: the version, the role, the count and the digest.
const SMALLEST: usize = 39;

/// Decodes a saved record of many sides, or returns the first fault. The record must take up all of the bytes.
///
/// Bytes that begin with `ILL1` are a record of one side. The result has this side alone, or no side if it is idle.
/// Decoding allocates as it reads: from a count above 0 on, and in version 1 from the qualifiers on.
#[tactic(auto, unfolding(crate::specs::RecordsV2::records_at, crate::specs::RecordsV2::begins_as_records))]
pub fn decode_record2(alloc: Global, bytes: &[u8]) -> Result<Sides, RecordFault>
    ensures { Decodes (records_at bytes.now) (begins_as_records bytes.now) result }
{
    if bytes.starts_with(b"ILL1".as_slice()) {
        one_side(alloc, bytes)
    } else {
        many_sides(alloc, unsealed(bytes)?)
    }
}

/// Decodes a record of version 1. Its side is the only one, or there is none if that side is idle.
fn one_side(alloc: Global, bytes: &[u8]) -> Result<Sides, RecordFault>
    ensures { Decodes (read_alone (record_at bytes.now)) (begins_as_record bytes.now) result }
{
    let side = decode_record(alloc, bytes)?;
    let mut sides = Sides::new(alloc, side.role())?;
    if !side.is_idle() {
        put(alloc, &mut sides, side)?;
    }
    Ok(sides)
}

/// Returns the octets between the version and the digest. Fewer than 39 bytes are `Short`, bytes without `ILL2` first
/// are `Bad(0)`, and a wrong digest is `Digest`.
#[tactic(auto, unfolding(crate::specs::RecordsV2::unsealed))]
fn unsealed(bytes: &[u8]) -> Result<&[u8], RecordFault>
    ensures octets { IfOk result (λ octets. unsealed bytes.now ≡ Ok octets.now) }
    ensures fault { IfErr result (λ fault. Decodes (unsealed bytes.now) false (Err fault)) }
{
    if bytes.len() < SMALLEST {
        return Err(RecordFault::Short);
    }
    if !bytes.starts_with(b"ILL2".as_slice()) {
        return Err(RecordFault::Bad(0));
    }
    let (body, digest) = bytes.split_at(bytes.len() - DIGEST_SIZE);
    if digest == Sha256::digest(body).as_slice() {
        Ok(&body[4..])
    } else {
        Err(RecordFault::Digest)
    }
}

/// Decodes the sides of a record of version 2, from the octets between its version and its digest.
fn many_sides(alloc: Global, octets: &[u8]) -> Result<Sides, RecordFault>
    ensures { Decodes (sides_at octets.now) (has_sides octets.now) result }
{
    let mut cursor = Cursor::after(4, octets);
    let role = cursor.role()?;
    let count = cursor.side_count()?;
    let sides = parts(alloc, &mut cursor, count)?;
    cursor.ended()?;
    held_together(alloc, role, sides)
}

/// Reads `count` records. The length of each precedes it.
#[tactic(auto, using(crate::proofs::Lists::after_none))]
fn parts(alloc: Global, cursor: &mut Cursor<'_>, count: u16) -> Result<Vec<Side>, RecordFault>
    requires room { cursor.old.at ≤ 7 }
    requires few { count ≤ most_sides }
    ensures read { ReadsInMemory (λ sides. sides.items) result cursor.new
        (read_all part count cursor.old) }
    ensures few { IfOk result (λ sides. length sides.items ≡ count) }
    ensures memory { IfErr result (λ fault. fault ≡ OutOfMemory → 0 < count) }
{
    let mut sides = Vec::with_capacity(alloc, usize::from(count))?;
    for _ in 0..count {
        sides.push(part(alloc, cursor)?)?;
    }
    Ok(sides)
}

/// Reads the length of a record, and then the record. A length that is cut off is `Bad` at its offset. A record that
/// is cut off or has a fault is `Bad` at its first byte.
fn part(alloc: Global, cursor: &mut Cursor<'_>) -> Result<Side, RecordFault>
    requires room { cursor.old.at ≤ 70000000 }
    ensures read { ReadsInMemory (λ side. side) result cursor.new (part.read cursor.old) }
    ensures near { OnOk result (cursor.new.at ≤ cursor.old.at + 65537) }
{
    let at = cursor.at();
    let Ok(size) = cursor.two_octets() else {
        return Err(RecordFault::Bad(at));
    };
    let first = cursor.at();
    let Ok(record) = cursor.bytes(size) else {
        return Err(RecordFault::Bad(first));
    };
    match decode_record(alloc, record) {
        Ok(side) => Ok(side),
        Err(RecordFault::OutOfMemory) => Err(RecordFault::OutOfMemory),
        Err(_) => Err(RecordFault::Bad(first)),
    }
}

/// Returns the sides of `read`, if a desk of `role` may hold them together, and otherwise `Inconsistent`.
fn held_together(alloc: Global, role: Role, read: Vec<Side>) -> Result<Sides, RecordFault>
    requires few { length read.items ≤ most_sides }
    ensures { Decodes (together (record { role = role; sides = read.items })) (nat_lt 0 (length read.items)) result }
{
    let mut sides = Sides::new(alloc, role)?;
    for side in read {
        put(alloc, &mut sides, side)?;
    }
    Ok(sides)
}

/// Puts `side` after the others, or answers `Inconsistent` if a desk may not hold it with them.
fn put(alloc: Global, sides: &mut Sides, side: Side) -> Result<(), RecordFault>
    ensures { PutsRead sides.old side result sides.new }
{
    match sides.put(alloc, side) {
        Ok(()) => Ok(()),
        Err((SidesFault::OutOfMemory, _)) => Err(RecordFault::OutOfMemory),
        Err(_) => Err(RecordFault::Inconsistent),
    }
}
