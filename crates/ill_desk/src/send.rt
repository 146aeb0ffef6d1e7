//! The command `send`.

ghost use Rattle.std.specs.Prelude.{Some};
ghost use Rattle.ill_saved.specs.ManySides.{found_by, txn_held};
ghost use Rattle.ill_desk.specs.Send.{RunsSend};

use ill_saved::{AnyDesk, Desk, Desk1, Holdings, Store};
use ill_text::fault::ToolFault;
use ill_text::output::write_whole;
use ill_values::{Number, TxnId};
use std::alloc::Global;
use std::io::Write;

/// Writes the bytes of the message `number`, and nothing else.
///
/// The message must be issued (else `NoSuchMessage`) and released (else `NotSaved`).
pub fn run_send<S: Store, W: Write>(
    alloc: Global,
    desk: &Desk1<S>,
    number: Number,
    writer: &mut W,
) -> Result<(), ToolFault>
    ensures { RunsSend (Some desk.now.live) number
        (W.contents writer.old) (W.contents writer.new) result }
{
    send_from(alloc, desk, &(), number, writer)
}

/// Writes the bytes of the message `number` of the side of `txn` at `desk`. The side must be held (else
/// `NoSuchTransaction`).
pub fn run_desk_send<S: Store, W: Write>(
    alloc: Global,
    desk: &Desk<S>,
    txn: &TxnId,
    number: Number,
    writer: &mut W,
) -> Result<(), ToolFault>
    ensures { RunsSend (found_by txn_held txn.now desk.now.live.held) number
        (W.contents writer.old) (W.contents writer.new) result }
{
    send_from(alloc, desk, txn, number, writer)
}

/// Writes the bytes of the message `number` of the side `key` of `desk`.
fn send_from<H: Holdings, S: Store, W: Write>(
    alloc: Global,
    desk: &AnyDesk<H, S>,
    key: &H::Key,
    number: Number,
    writer: &mut W,
) -> Result<(), ToolFault>
    ensures { RunsSend (H.effects.found key.now desk.now.live) number
        (W.contents writer.old) (W.contents writer.new) result }
{
    match desk.message_of(alloc, key, number) {
        Ok(bytes) => write_whole(writer, &bytes),
        Err(fault) => Err(fault.into()),
    }
}
