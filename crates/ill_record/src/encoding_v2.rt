//! Encoding of many sides as one saved record.

ghost use Rattle.std.specs.Prelude.{◌≡◌, ◌<◌, ◌++◌, length, IfOk, OnOk};
ghost use Rattle.ill_record.specs.Layout.{encode_all};
ghost use Rattle.ill_record.specs.Records.{role_octet};
ghost use Rattle.ill_record.specs.RecordsV2.{two_octets, part, sides_encoding, AreSides};
ghost use Rattle.ill_record.specs.Ranges.{Each, IsSide};

use crate::encoding::push_record;
use crate::laws;
use crate::role::Role;
use crate::side::Side;
use crate::sides::Sides;
use ill_values::OutOfMemory;
use sha2::{Digest, Sha256};
use std::alloc::Global;

/// Encodes the sides as one saved record of version 2. The record ends with the SHA-256 of its other bytes.
///
/// Encodes each side into a buffer, and then appends its length and the buffer.
#[tactic(auto, unfolding(crate::specs::RecordsV2::sides_encoding))]
pub fn encode_record2(alloc: Global, sides: &Sides) -> Result<Vec<u8>, OutOfMemory>
    ensures bytes { IfOk result (λ bytes. bytes.items ≡ sides_encoding sides.now) }
    ensures sides { OnOk result (AreSides sides.now) }
{
    let mut bytes = Vec::new(alloc);
    bytes.extend_from_slice(b"ILL2")?;
    bytes.push(role_octet(sides.role()))?;
    bytes.extend_from_slice(&two_octets(sides.len()))?;
    push_parts(alloc, &mut bytes, sides)?;
    let digest = Sha256::digest(&bytes);
    bytes.extend_from_slice(&digest)?;
    Ok(bytes)
}

/// Appends the length and the record of each side.
fn push_parts(alloc: Global, bytes: &mut Vec<u8>, sides: &Sides) -> Result<(), OutOfMemory>
    ensures bytes { OnOk result (bytes.new.items ≡ bytes.old.items
        ++ encode_all part.encode sides.now.sides) }
    ensures sides { OnOk result (Each IsSide sides.now.sides) }
{
    let mut record = Vec::new(alloc);
    for place in 0..sides.len() {
        if let Some(side) = sides.at(place) {
            push_part(bytes, &mut record, side)?;
        }
    }
    Ok(())
}

/// Appends the length and the record of `side`. Clears the buffer `record` first, and encodes `side` into it.
fn push_part(bytes: &mut Vec<u8>, record: &mut Vec<u8>, side: &Side) -> Result<(), OutOfMemory>
    ensures bytes { OnOk result (bytes.new.items ≡ bytes.old.items ++ part.encode side.now) }
    ensures side { OnOk result (IsSide side.now) }
{
    laws::record_is_short();
    record.clear();
    push_record(record, side, &[], side.all_issued())?;
    bytes.extend_from_slice(&two_octets(record.len()))?;
    bytes.extend_from_slice(record)?;
    Ok(())
}

/// Returns the octet of a role.
fn role_octet(role: Role) -> u8
    ensures { result ≡ role_octet role }
{
    match role {
        Role::Requester => 0,
        Role::Responder => 1,
    }
}

/// Returns the two octets of a number, the high one first.
fn two_octets(n: usize) -> [u8; 2]
    requires few { n < 65536 }
    ensures { result ≡ two_octets.encode n }
{
    (n as u16).to_be_bytes()
}
