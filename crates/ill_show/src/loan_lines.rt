//! The lines of a loan.

ghost use Rattle.std.specs.Prelude.{◌≡◌, ◌++◌, true, codes, option_copied, OnOk};
ghost use Rattle.std.specs.List.{flat_map};
ghost use Rattle.ill_words.specs.Possible.{request_of};
ghost use Rattle.ill_show.specs.LoanLines.{item_lines, kept_lines, loan_lines, marked_lines, message_lines, optional_number_line, request_lines, side_lines, taken_lines, turn_lines};

use crate::status::{push_day_or_dash, push_status, push_words};
use ill_beside::notes::push_note_lines;
use ill_saved::Side;
use ill_text::lines::{push_item, push_line, push_number, push_shown, push_whether};
use ill_values::{Apdu, Body, Number, OutOfMemory};
use ill_words::names::names;
use ill_words::possible::{possible_on, request};

/// Appends the lines of `side` with `released` released messages, of its note, and of the messages `kept` that came
/// to it.
pub(crate) fn push_kept_lines(
    lines: &mut Vec<u8>,
    note: Option<&str>,
    side: &Side,
    released: u8,
    kept: &[Apdu],
) -> Result<(), OutOfMemory>
    ensures { OnOk result (lines.new.items ≡ lines.old.items
        ++ kept_lines (option_copied note.entry) (record { side = side.now; released = released }) kept.now) }
{
    push_loan(lines, note, side, released)?;
    push_kept(lines, kept)
}

/// Appends the lines of the messages `kept` that came.
fn push_kept(lines: &mut Vec<u8>, kept: &[Apdu]) -> Result<(), OutOfMemory>
    ensures { OnOk result (lines.new.items ≡ lines.old.items
        ++ flat_map (marked_lines (codes "came") true) kept.now) }
{
    for apdu in kept {
        push_marked(lines, "came", true, apdu)?;
    }
    Ok(())
}

/// Appends the lines of `side` with `released` released messages, of its note, and of the messages that it has
/// issued.
#[tactic(auto, unfolding(crate::specs::LoanLines::loan_lines))]
pub(crate) fn push_loan(
    lines: &mut Vec<u8>,
    note: Option<&str>,
    side: &Side,
    released: u8,
) -> Result<(), OutOfMemory>
    ensures { OnOk result (lines.new.items ≡ lines.old.items ++ loan_lines (option_copied note.entry) side.now released) }
{
    push_side(lines, side, released)?;
    push_note_lines(lines, note)?;
    push_messages(lines, side.all_issued(), released)
}

/// Appends the lines of `side` with `released` released messages, but not those of its messages.
fn push_side(lines: &mut Vec<u8>, side: &Side, released: u8) -> Result<(), OutOfMemory>
    ensures { OnOk result (lines.new.items ≡ lines.old.items ++ side_lines side.now released) }
{
    push_status(lines, side, released)?;
    push_turn(lines, side)?;
    push_request(lines, side)?;
    push_taken(lines, side)
}

/// Appends the lines of the library that acts next, and of the actions that `side` may do on some day.
fn push_turn(lines: &mut Vec<u8>, side: &Side) -> Result<(), OutOfMemory>
    ensures { OnOk result (lines.new.items ≡ lines.old.items ++ turn_lines side.now) }
{
    push_line(lines, "next", side.turn().name().as_bytes())?;
    let alloc = *lines.allocator();
    let names = names(alloc, &possible_on(alloc, None, side)?)?;
    push_words(lines, "now", &names)
}

/// Appends the lines of the request of a loan, if it has begun.
fn push_request(lines: &mut Vec<u8>, side: &Side) -> Result<(), OutOfMemory>
    ensures { OnOk result (lines.new.items ≡ lines.old.items
        ++ request_lines (request_of side.now)) }
{
    match request(side) {
        Some(apdu) => push_wanted(lines, &apdu.body),
        None => Ok(()),
    }
}

/// Appends the lines of the item and the expiry day of a request.
fn push_wanted(lines: &mut Vec<u8>, body: &Body) -> Result<(), OutOfMemory>
    ensures { OnOk result (lines.new.items ≡ lines.old.items ++ item_lines body.now) }
{
    match body {
        Body::IllRequest { expiry, item } => {
            push_item(lines, item.text())?;
            push_day_or_dash(lines, "expiry", *expiry)
        }
        _ => Ok(()),
    }
}

/// Appends the lines of the message numbers that the record keeps of the other side.
fn push_taken(lines: &mut Vec<u8>, side: &Side) -> Result<(), OutOfMemory>
    ensures { OnOk result (lines.new.items ≡ lines.old.items ++ taken_lines side.now) }
{
    match side {
        Side::Requester(requester) => push_optional_number(lines, "held", requester.held()),
        Side::Responder(responder) => {
            push_optional_number(lines, "accepted", responder.accepted())?;
            push_optional_number(lines, "last-cancel", responder.last_cancel())?;
            push_optional_number(lines, "last-renew", responder.last_renew())
        }
    }
}

/// Appends the line of the number of a message, or of a dash if there is none.
fn push_optional_number(
    lines: &mut Vec<u8>,
    label: &str,
    number: Option<Number>,
) -> Result<(), OutOfMemory>
    ensures { OnOk result (lines.new.items ≡ lines.old.items
        ++ optional_number_line label.now number) }
{
    match number {
        None => push_line(lines, label, b"-"),
        Some(number) => push_number(lines, label, number),
    }
}

/// Appends the lines of the issued messages `apdus`, in their order. Those with a number up to `released` may be
/// sent.
fn push_messages(lines: &mut Vec<u8>, apdus: &[Apdu], released: u8) -> Result<(), OutOfMemory>
    ensures { OnOk result (lines.new.items ≡ lines.old.items
        ++ flat_map (message_lines released) apdus.now) }
{
    for apdu in apdus {
        push_message(lines, apdu, released)?;
    }
    Ok(())
}

/// Appends an empty line, the lines of `apdu`, and a line that says `yes` if it may be sent. It may if its number is
/// at most `released`.
fn push_message(lines: &mut Vec<u8>, apdu: &Apdu, released: u8) -> Result<(), OutOfMemory>
    ensures { OnOk result (lines.new.items ≡ lines.old.items ++ message_lines released apdu.now) }
{
    push_marked(lines, "leaves", apdu.number.get() <= released, apdu)
}

/// Appends an empty line, the lines of `apdu`, and the line of `label`. That line has `yes` if `is_so` is true, else
/// `no`.
pub(crate) fn push_marked(
    lines: &mut Vec<u8>,
    label: &str,
    is_so: bool,
    apdu: &Apdu,
) -> Result<(), OutOfMemory>
    ensures { OnOk result (lines.new.items ≡ lines.old.items ++ marked_lines label.now is_so apdu.now) }
{
    lines.push(b'\n')?;
    push_shown(lines, apdu)?;
    push_whether(lines, label, is_so)
}
