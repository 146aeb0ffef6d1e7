//! The command `outbox`: it sends all messages that the other side may still need.

ghost use Rattle.std.specs.Prelude.{◌≡◌, ◌++◌, map, IfOk, OnOk};
ghost use Rattle.ill_night.specs.Outbox.{PutsAll, RunsOutbox, StreamsOutbox, is_asked, issue_of, issues_of, leaving_desk, leaving_side, letter_of, line_of, loan_stem, loan_text, message_file_name, PutsOne, released_of, three_digits};
ghost use Rattle.ill_words.specs.Sides.{held_of};

use crate::outgoing::{Outgoing, Stream};
use ill_der::encode;
use ill_saved::{Desk, Role, Side, Store};
use ill_text::fault::ToolFault;
use ill_text::input::apdus_in;
use ill_text::output::write_whole;
use ill_values::{Apdu, Number, OutOfMemory, TxnId};
use ill_words::sides::{HeldSide, all_held};
use ill_words::wants_sending;
use sha2::{Digest, Sha256};
use std::alloc::Global;
use std::io::Write;

/// Puts the released messages of each loan that wants sending into `out`, and returns their number. A loan wants
/// sending until it is over. After that it still does at a responder's desk, if `asking` has a message of it. `asking`
/// has the messages that came for loans that are over, one after another.
///
/// After a fault, `out` has a prefix of these messages, and no part of another.
pub fn run_desk_outbox<S: Store, O: Outgoing>(
    alloc: Global,
    desk: &Desk<S>,
    asking: &[u8],
    out: &mut O,
) -> Result<usize, ToolFault>
    ensures { RunsOutbox (PutsAll O.after) asking.now desk.now.live.held (O.message_files out.old) (O.message_files out.new) result }
{
    let asking = apdus_in(alloc, asking)?;
    let leaving = leaving_desk(alloc, desk, &asking)?;
    put_all(alloc, &leaving, out)
}

/// Writes the messages that `run_desk_outbox` puts into an outlet to `writer`, one after another.
pub fn run_desk_outbox_stream<S: Store, W: Write>(
    alloc: Global,
    desk: &Desk<S>,
    asking: &[u8],
    writer: &mut W,
) -> Result<(), ToolFault>
    ensures { StreamsOutbox asking.now desk.now.live.held (W.contents writer.old) (W.contents writer.new) result }
{
    let mut stream = Stream {
        bytes: Vec::new(alloc),
    };
    match run_desk_outbox(alloc, desk, asking, &mut stream) {
        Ok(_) => write_whole(writer, &stream.bytes),
        Err(_) => Err(ToolFault::OutOfMemory),
    }
}

/// A message that leaves, and the side that issued it.
#[derive(Clone, Copy)]
pub(crate) struct Leaving<'a> {
    pub(crate) side: &'a Side,
    pub(crate) apdu: &'a Apdu,
}

/// Returns the messages that leave `desk`. `asking` has the messages that ask.
fn leaving_desk<'a, S: Store>(
    alloc: Global,
    desk: &'a Desk<S>,
    asking: &[Apdu],
) -> Result<Vec<Leaving<'a>>, OutOfMemory>
    ensures { IfOk result (λ leaving. map issue_of leaving.items ≡ leaving_desk asking.now desk.now.live.held) }
{
    let held = all_held(alloc, desk)?;
    leaving_sides(alloc, &held, asking)
}

/// Returns the messages of `sides` that leave. `asking` has the messages that ask.
fn leaving_sides<'a>(
    alloc: Global,
    sides: &[HeldSide<'a>],
    asking: &[Apdu],
) -> Result<Vec<Leaving<'a>>, OutOfMemory>
    ensures { IfOk result (λ leaving. map issue_of leaving.items ≡ leaving_desk asking.now (map held_of sides.now)) }
{
    let mut leaving = Vec::new(alloc);
    for held in sides {
        push_leaving(&mut leaving, *held, asking)?;
    }
    Ok(leaving)
}

/// Appends the released messages of `held`, if it wants sending. `asking` has the messages that ask.
fn push_leaving<'a>(
    leaving: &mut Vec<Leaving<'a>>,
    held: HeldSide<'a>,
    asking: &[Apdu],
) -> Result<(), OutOfMemory>
    ensures { OnOk result (map issue_of leaving.new.items
        ≡ map issue_of leaving.old.items ++ leaving_side asking.now (held_of held.entry)) }
{
    if wants_sending(held.side, is_asked(asking, held.side.txn())) {
        push_released(leaving, held)
    } else {
        Ok(())
    }
}

/// Appends the released messages of `held`.
fn push_released<'a>(leaving: &mut Vec<Leaving<'a>>, held: HeldSide<'a>) -> Result<(), OutOfMemory>
    ensures { OnOk result (map issue_of leaving.new.items ≡ map issue_of leaving.old.items
        ++ issues_of held.entry.side.now (released_of (held_of held.entry))) }
{
    push_issues(leaving, held.side, released(held))
}

/// Appends the messages `apdus` of `side`.
fn push_issues<'a>(
    leaving: &mut Vec<Leaving<'a>>,
    side: &'a Side,
    apdus: &'a [Apdu],
) -> Result<(), OutOfMemory>
    ensures { OnOk result (map issue_of leaving.new.items
        ≡ map issue_of leaving.old.items ++ issues_of side.now apdus.now) }
{
    for apdu in apdus {
        leaving.push(Leaving { side, apdu })?;
    }
    Ok(())
}

/// Returns the released messages of `held`.
fn released<'a>(held: HeldSide<'a>) -> &'a [Apdu]
    ensures { result.now ≡ released_of (held_of held.entry) }
{
    let issued = held.side.all_issued();
    let count = usize::from(held.released).min(issued.len());
    &issued[..count]
}

/// Returns true if a message of `asking` is of the transaction `txn`.
fn is_asked(asking: &[Apdu], txn: &TxnId) -> bool
    ensures { result ≡ is_asked asking.now txn.now }
{
    asking.iter().any(|apdu| apdu.txn == *txn)
}

/// Puts the messages `leaving` into `out`, one after another, and returns their number.
fn put_all<O: Outgoing>(
    alloc: Global,
    leaving: &[Leaving<'_>],
    out: &mut O,
) -> Result<usize, ToolFault>
    ensures { PutsAll O.after (map letter_of (map issue_of leaving.now)) (O.message_files out.old) (O.message_files out.new) result }
{
    for message in leaving {
        if let Err(fault) = put(alloc, *message, out) {
            return Err(fault);
        }
    }
    Ok(leaving.len())
}

/// Puts the message `leaving` into `out`.
fn put<O: Outgoing>(alloc: Global, leaving: Leaving<'_>, out: &mut O) -> Result<(), ToolFault>
    ensures { PutsOne O.after (letter_of (issue_of leaving.entry)) (O.message_files out.old) (O.message_files out.new) result }
{
    let side = leaving.side;
    let name = message_file_name(alloc, side.role(), side.txn(), leaving.apdu.number)?;
    let bytes = encode(alloc, leaving.apdu)?;
    out.put(&name, &bytes)
}

/// Returns the name of the message file of the message `number` in the loan `txn`, from a desk of the role `role`.
pub fn message_file_name(
    alloc: Global,
    role: Role,
    txn: &TxnId,
    number: Number,
) -> Result<Vec<u8>, OutOfMemory>
    ensures { IfOk result (λ name. name.items ≡ message_file_name role txn.now number) }
{
    let mut name = loan_stem(alloc, role, txn)?;
    name.push(b'-')?;
    name.extend_from_slice(&three_digits(number.get()))?;
    Ok(name)
}

/// Returns the text with which the names of all message files of a loan begin.
fn loan_stem(alloc: Global, role: Role, txn: &TxnId) -> Result<Vec<u8>, OutOfMemory>
    ensures { IfOk result (λ stem. stem.items ≡ loan_stem role txn.now) }
{
    let text = loan_text(alloc, role, txn)?;
    let digest = hex::encode(alloc, Sha256::digest(&text))?;
    let mut stem = digest.into_bytes();
    stem.truncate(STEM);
    Ok(stem)
}

/// The number of hexadecimal digits of the digest of a loan's text that begin the names of its message files.
const STEM: usize = 32;

/// Returns a text of the loan `txn` at a desk of the role `role`. It differs from the text of any other loan or role.
fn loan_text(alloc: Global, role: Role, txn: &TxnId) -> Result<Vec<u8>, OutOfMemory>
    ensures { IfOk result (λ text. text.items ≡ loan_text role txn.now) }
{
    let mut text = Vec::new(alloc);
    push_line(&mut text, role.name().as_bytes())?;
    push_line(&mut text, txn.group())?;
    push_line(&mut text, txn.transaction())?;
    Ok(text)
}

/// Appends `line` and a line feed.
fn push_line(text: &mut Vec<u8>, line: &[u8]) -> Result<(), OutOfMemory>
    ensures { OnOk result (text.new.items ≡ text.old.items ++ line_of line.now) }
{
    text.extend_from_slice(line)?;
    text.push(b'\n')?;
    Ok(())
}

/// Returns `number` in three digits.
fn three_digits(number: u8) -> [u8; 3]
    ensures { result ≡ three_digits number }
{
    [
        b'0' + number / 100,
        b'0' + number / 10 % 10,
        b'0' + number % 10,
    ]
}
