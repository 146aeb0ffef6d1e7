//! The messages that came in a loan and were kept.

ghost use Rattle.std.specs.Prelude.{◌≡◌, [], option_copied, IfOk, OnOk};
ghost use Rattle.ill_beside.specs.Kept.{found_with, is_among, looks_kept, with_new};
ghost use Rattle.ill_beside.specs.Places.{looked_up};

use crate::places::thing_at;
use ill_der::encode;
use ill_values::{Apdu, OutOfMemory, TxnId};
use std::alloc::Global;

/// Returns those of the messages at `places` in `came` that are of the transaction `txn`, each once and in their order.
pub(crate) fn kept_at(
    alloc: Global,
    txn: &TxnId,
    came: &[Apdu],
    places: &[usize],
) -> Result<Vec<Apdu>, OutOfMemory>
    ensures { IfOk result (λ kept. kept.items ≡ looked_up (looks_kept txn.now) came.now [] places.now) }
{
    let mut kept = Vec::new(alloc);
    for place in places {
        push_found(&mut kept, txn, thing_at(came, *place))?;
    }
    Ok(kept)
}

/// Appends `apdu` to `kept`, if it is there, is of the transaction `txn`, and `kept` lacks it.
fn push_found(kept: &mut Vec<Apdu>, txn: &TxnId, apdu: Option<&Apdu>) -> Result<(), OutOfMemory>
    ensures { OnOk result (kept.new.items ≡ found_with txn.now kept.old.items (option_copied apdu.entry)) }
{
    match apdu {
        Some(apdu) => push_new(kept, txn, apdu),
        None => Ok(()),
    }
}

/// Appends `apdu` to `kept`, if it is of the transaction `txn` and `kept` lacks it.
fn push_new(kept: &mut Vec<Apdu>, txn: &TxnId, apdu: &Apdu) -> Result<(), OutOfMemory>
    ensures { OnOk result (kept.new.items ≡ with_new txn.now kept.old.items apdu.now) }
{
    let alloc = *kept.allocator();
    if apdu.txn == *txn && !is_among(alloc, kept, apdu)? {
        kept.push(apdu.copy(alloc)?)?;
    }
    Ok(())
}

/// Returns true if a message of `kept` has the bytes of `apdu`.
pub fn is_among(alloc: Global, kept: &[Apdu], apdu: &Apdu) -> Result<bool, OutOfMemory>
    ensures { IfOk result (λ is. is ≡ is_among kept.now apdu.now) }
{
    let bytes = encode(alloc, apdu)?;
    for other in kept {
        if encode(alloc, other)? == bytes {
            return Ok(true);
        }
    }
    Ok(false)
}
