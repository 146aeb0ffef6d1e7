//! The messages of a night that ask: they came for loans that are over.

ghost use Rattle.std.specs.Prelude.{◌≡◌, ◌++◌, Ok, slice_get, IfOk, OnOk};
ghost use Rattle.std.specs.List.{zip};
ghost use Rattle.ill_record.specs.Sides.{side_with};
ghost use Rattle.ill_night.specs.Outbox.{asked_by, asking_bytes, asking_bytes_at, asking_bytes_of_message_file, is_held_over};
ghost use Rattle.ill_night.specs.MessageFiles.{message_in};

use crate::message::message_in;
use crate::verdict::{MessageFile, Verdict};
use ill_saved::{Desk, Sides, Store};
use ill_values::{OutOfMemory, TxnId};
use ill_words::is_over;
use std::alloc::Global;

/// Returns the bytes of the messages that ask, one after another. They are in those of `message_files` that are done by
/// `verdicts`, and came for loans that are over at `desk`. A responder answers them in the next outbox.
pub fn asked_by<S: Store>(
    alloc: Global,
    desk: &Desk<S>,
    message_files: &[MessageFile],
    verdicts: &[Verdict],
) -> Result<Vec<u8>, OutOfMemory>
    ensures { IfOk result (λ asked. asked.items ≡ asked_by desk.now.live (zip message_files.now verdicts.now)) }
{
    let mut asked = Vec::new(alloc);
    for place in 0..message_files.len() {
        push_asking_at(&mut asked, desk, message_files, verdicts, place)?;
    }
    Ok(asked)
}

/// Appends to `asked` the message of the message file at `place`, if there is one and its message asks.
fn push_asking_at<S: Store>(
    asked: &mut Vec<u8>,
    desk: &Desk<S>,
    message_files: &[MessageFile],
    verdicts: &[Verdict],
    place: usize,
) -> Result<(), OutOfMemory>
    ensures { OnOk result (asked.new.items ≡ asked.old.items
        ++ asking_bytes_at desk.now.live (slice_get message_files.now place) (slice_get verdicts.now place)) }
{
    match (message_files.get(place), verdicts.get(place)) {
        (Some(message_file), Some(verdict)) => push_asking(asked, desk, message_file, *verdict),
        _ => Ok(()),
    }
}

/// Appends to `asked` the message of `message_file`, if it asks.
fn push_asking<S: Store>(
    asked: &mut Vec<u8>,
    desk: &Desk<S>,
    message_file: &MessageFile,
    verdict: Verdict,
) -> Result<(), OutOfMemory>
    ensures { OnOk result (asked.new.items ≡ asked.old.items ++ asking_bytes_of_message_file desk.now.live message_file.now verdict) }
{
    match (&message_file.bytes, verdict) {
        (Some(bytes), Verdict::Done(_)) => push_asking_bytes(asked, desk, bytes),
        _ => Ok(()),
    }
}

/// Appends `bytes` to `asked`, if they are a message that asks.
fn push_asking_bytes<S: Store>(
    asked: &mut Vec<u8>,
    desk: &Desk<S>,
    bytes: &[u8],
) -> Result<(), OutOfMemory>
    ensures { OnOk result (asked.new.items ≡ asked.old.items ++ asking_bytes desk.now.live bytes.now (message_in bytes.now)) }
{
    let alloc = *asked.allocator();
    if let Ok(read) = message_in(bytes) {
        let apdu = read.to_apdu(alloc)?;
        if is_held_over(desk.sides(), &apdu.txn) {
            asked.extend_from_slice(bytes)?;
        }
    }
    Ok(())
}

/// Returns true if `sides` hold the loan of `txn`, and it is over.
fn is_held_over(sides: &Sides, txn: &TxnId) -> bool
    ensures { result ≡ is_held_over (side_with txn.now sides.now.sides) }
{
    match sides.get(txn) {
        Some(side) => is_over(side),
        None => false,
    }
}
