//! Encoding of a saved record.

ghost use Rattle.std.specs.Prelude.{◌≡◌, ◌≤◌, ◌++◌, true, false, length, IfOk, OnOk, IfSome, option_map};
ghost use Rattle.ill_values.specs.Day.{IsDate};
ghost use Rattle.ill_values.specs.TxnId.{AreQualifiers};
ghost use Rattle.ill_values.specs.Apdu.{IsApdu, IsNumber};
ghost use Rattle.ill_der.specs.ShortForm.{encoding};
ghost use Rattle.ill_core.specs.Requester.{IsRequester};
ghost use Rattle.ill_core.specs.Responder.{IsResponder};
ghost use Rattle.ill_record.specs.declared.role.Role.TheVariants as roles;
ghost use Rattle.ill_record.specs.Layout.{encode_all, number_octet, mark, marked, counted, counted_text, apdu, ill_request};
ghost use Rattle.ill_record.specs.Records.{state_code, due, due_octets, heading, requester_states, encode_start, encode_requester, encode_responder, record_encoding};
ghost use Rattle.ill_record.specs.Side.{issued_of};
ghost use Rattle.ill_record.specs.Ranges.{Each, RequesterInRange, ResponderInRange, IsSide};

use crate::side::Side;
use ill_core::{Requester, Responder, State};
use ill_der::encode_onto;
use ill_values::{Apdu, Day, Number, OutOfMemory, TxnId};
use std::alloc::Global;

/// Encodes `side` as a saved record. Each side has exactly one encoding.
pub fn encode_record(alloc: Global, side: &Side) -> Result<Vec<u8>, OutOfMemory>
    ensures bytes { IfOk result (λ bytes. bytes.items ≡ record_encoding side.now) }
    ensures side { OnOk result (IsSide side.now) }
{
    encode_after(alloc, side, &[], side.all_issued())
}

/// Encodes `side` as a saved record. Copies `known`, the encodings of its first messages, and encodes `others`
/// after them.
pub fn encode_after(
    alloc: Global,
    side: &Side,
    known: &[u8],
    others: &[Apdu],
) -> Result<Vec<u8>, OutOfMemory>
    requires encoded { known.now ++ encode_all encoding others.now ≡
        encode_all encoding (issued_of side.now) }
    requires range { Each IsApdu others.now → Each IsApdu (issued_of side.now) }
    ensures bytes { IfOk result (λ bytes. bytes.items ≡ record_encoding side.now) }
    ensures side { OnOk result (IsSide side.now) }
{
    let mut bytes = Vec::new(alloc);
    push_record(&mut bytes, side, known, others)?;
    Ok(bytes)
}

/// Appends the record of `side` to `bytes`, with `known` and `others` as in `encode_after`.
#[tactic(auto, unfolding(crate::specs::Records::record_encoding))]
pub fn push_record(
    bytes: &mut Vec<u8>,
    side: &Side,
    known: &[u8],
    others: &[Apdu],
) -> Result<(), OutOfMemory>
    requires encoded { known.now ++ encode_all encoding others.now ≡
        encode_all encoding (issued_of side.now) }
    requires range { Each IsApdu others.now → Each IsApdu (issued_of side.now) }
    ensures bytes { OnOk result (bytes.new.items ≡ bytes.old.items ++ record_encoding side.now) }
    ensures side { OnOk result (IsSide side.now) }
{
    match side {
        Side::Requester(requester) => push_requester(bytes, requester)?,
        Side::Responder(responder) => push_responder(bytes, responder)?,
    }
    bytes.push(side.issued_count())?;
    bytes.extend_from_slice(known)?;
    push_apdus(bytes, others)
}

/// Appends all fields of a requester that come before its issued messages.
fn push_requester(bytes: &mut Vec<u8>, requester: &Requester) -> Result<(), OutOfMemory>
    ensures bytes { OnOk result (bytes.new.items ++ (counted apdu).encode requester.now.issued ≡
        bytes.old.items ++ (encode_start roles.Requester ++ encode_requester requester.now)) }
    ensures range { OnOk result (RequesterInRange requester.now) }
    ensures consistent { IsRequester requester.now }
{
    let state = requester.state();
    bytes.extend_from_slice(b"ILL1\x00")?;
    push_heading(bytes, state, requester.txn())?;
    let mark = u8::from(requester.is_checked_in());
    bytes.extend_from_slice(&[number_octet(requester.held()), mark])?;
    push_due_octets(bytes, requester.due())
}

/// Appends all fields of a responder that come before its issued messages.
fn push_responder(bytes: &mut Vec<u8>, responder: &Responder) -> Result<(), OutOfMemory>
    ensures bytes { OnOk result (bytes.new.items ++ (counted apdu).encode responder.now.issued ≡
        bytes.old.items ++ (encode_start roles.Responder ++ encode_responder responder.now)) }
    ensures range { OnOk result (ResponderInRange responder.now) }
    ensures consistent { IsResponder responder.now }
{
    let state = responder.state();
    bytes.extend_from_slice(b"ILL1\x01")?;
    push_heading(bytes, state, responder.txn())?;
    let numbers = [
        number_octet(responder.accepted()),
        number_octet(responder.last_cancel()),
        number_octet(responder.last_renew()),
    ];
    bytes.extend_from_slice(&numbers)?;
    bytes.push(u8::from(responder.is_received()))?;
    push_request(bytes, responder.request())
}

/// Appends the state and the qualifiers of the transaction.
fn push_heading(bytes: &mut Vec<u8>, state: State, txn: &TxnId) -> Result<(), OutOfMemory>
    ensures bytes { OnOk result (bytes.new.items ≡ bytes.old.items
        ++ (heading requester_states).encode (state, (txn.now.group, txn.now.transaction))) }
    ensures range { OnOk result (AreQualifiers txn.now) }
{
    bytes.push(state_code(state))?;
    push_text(bytes, txn.group())?;
    push_text(bytes, txn.transaction())
}

/// Appends the length of a qualifier, and then the qualifier.
fn push_text(bytes: &mut Vec<u8>, text: &[u8]) -> Result<(), OutOfMemory>
    requires few { length text.now ≤ 64 }
    ensures { OnOk result (bytes.new.items ≡ bytes.old.items ++ counted_text.encode text.now) }
{
    bytes.push(text.len() as u8)?;
    bytes.extend_from_slice(text)?;
    Ok(())
}

/// Appends the due date as eight digits, or eight zeros if there is none.
fn push_due_octets(bytes: &mut Vec<u8>, due: Option<Day>) -> Result<(), OutOfMemory>
    ensures bytes { OnOk result (bytes.new.items ≡ bytes.old.items ++ due_octets due) }
    ensures range { OnOk result (IfSome due IsDate) }
{
    match due {
        Some(day) => bytes.extend_from_slice(&day.digits())?,
        None => bytes.extend_from_slice(b"00000000")?,
    }
    Ok(())
}

/// Appends the ILL-Request, if there is one.
fn push_request(bytes: &mut Vec<u8>, request: Option<&Apdu>) -> Result<(), OutOfMemory>
    ensures bytes { OnOk result (bytes.new.items ≡ bytes.old.items
        ++ (marked ill_request).encode (option_map (λ a. a.now) request.entry)) }
    ensures range { OnOk result (IfSome (option_map (λ a. a.now) request.entry) IsApdu) }
{
    match request {
        Some(apdu) => {
            bytes.push(1)?;
            encode_onto(bytes, apdu)
        }
        None => {
            bytes.push(0)?;
            Ok(())
        }
    }
}

/// Appends the encodings of `apdus`.
fn push_apdus(bytes: &mut Vec<u8>, apdus: &[Apdu]) -> Result<(), OutOfMemory>
    ensures bytes { OnOk result (bytes.new.items ≡ bytes.old.items
        ++ encode_all encoding apdus.now) }
    ensures range { OnOk result (Each IsApdu apdus.now) }
{
    for apdu in apdus {
        encode_onto(bytes, apdu)?;
    }
    Ok(())
}

/// Returns the octet of a number, or 0 if there is no number.
fn number_octet(number: Option<Number>) -> u8
    ensures bytes { result ≡ number_octet number }
    ensures range { IfSome number IsNumber }
{
    match number {
        Some(number) => number.get(),
        None => 0,
    }
}

/// Returns the octet of a state.
fn state_code(state: State) -> u8
    ensures { result ≡ state_code state }
{
    match state {
        State::Idle => 0,
        State::Pending | State::InProcess => 1,
        State::Conditional => 2,
        State::CancelPending => 3,
        State::Cancelled => 4,
        State::NotSupplied => 5,
        State::Shipped => 6,
        State::Received => 7,
        State::RenewPending => 8,
        State::Overdue => 9,
        State::RenewOverdue => 10,
        State::NotReceivedOverdue => 11,
        State::Recall => 12,
        State::Returned => 13,
        State::CheckedIn => 14,
    }
}
