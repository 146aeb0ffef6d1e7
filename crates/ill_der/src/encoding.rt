//! Encoding of one APDU. Each APDU has exactly one encoding.

ghost use Rattle.std.specs.Prelude.{◌≡◌, ◌<◌, ◌≤◌, ◌++◌, ◌∷◌, [], length, IfOk, OnOk, OnErr, IfSome};
ghost use Rattle.ill_values.specs.Day.{IsDate};
ghost use Rattle.ill_values.specs.TxnId.{AreQualifiers};
ghost use Rattle.ill_values.specs.Apdu.{IsApdu, IsBody, IsNumber};
ghost use Rattle.ill_der.specs.Adding.{AddsPrefix};
ghost use Rattle.ill_der.specs.Contents.{answer_result, code_of, date, number, number_octets, yes_no};
ghost use Rattle.ill_der.specs.Format.{element, length_octets, optional, required};
ghost use Rattle.ill_der.specs.ShortForm.{due_date, grant, head_of, reply, encode_body, encoding, txn_id};

use crate::identifier::identifier_of;
use crate::sizing::{contents_size, qualifiers_size, size};
use crate::tags;
use ill_values::{AnswerResult, Apdu, ApduType, Body, Day, Number, OutOfMemory, TxnId};
use std::alloc::Global;

/// Returns the encoding of `apdu`: at most 359 bytes. Allocates once. If it succeeds, the values of `apdu` are in range
/// (`IsApdu`).
pub fn encode(alloc: Global, apdu: &Apdu) -> Result<Vec<u8>, OutOfMemory>
    ensures encoded { IfOk result (λ bytes. bytes.items ≡ encoding apdu.now) }
    ensures most { IfOk result (λ bytes. length bytes.items ≤ 359) }
    ensures range { OnOk result (IsApdu apdu.now) }
{
    let mut bytes = Vec::with_capacity(alloc, size(apdu))?;
    encode_onto(&mut bytes, apdu)?;
    Ok(bytes)
}

/// Appends the encoding of `apdu` to `bytes`. If memory runs out, a proper prefix of the encoding may
/// have been appended. If it succeeds, the values of `apdu` are in range (`IsApdu`).
#[tactic(auto, unfolding(crate::specs::ShortForm::encoding, crate::specs::Format::element))]
pub fn encode_onto(bytes: &mut Vec<u8>, apdu: &Apdu) -> Result<(), OutOfMemory>
    ensures encoded { OnOk result (bytes.new.items ≡ bytes.old.items ++ encoding apdu.now) }
    ensures prefix { OnErr result (AddsPrefix bytes.old.items bytes.new.items (encoding apdu.now)) }
    ensures range { OnOk result (IsApdu apdu.now) }
{
    push_start(
        bytes,
        identifier_of(ApduType::of(&apdu.body)),
        contents_size(apdu),
    )?;
    push_head(bytes, apdu)?;
    push_body(bytes, &apdu.body)
}

/// Appends the fields that each APDU has. If memory runs out in this function or one below, it has appended a proper
/// prefix of its bytes (`prefix`). If it succeeds, the values are in range (`range`).
fn push_head(bytes: &mut Vec<u8>, apdu: &Apdu) -> Result<(), OutOfMemory>
    ensures bytes { OnOk result (bytes.new.items ≡ bytes.old.items ++ head_of apdu.now) }
    ensures prefix { OnErr result (AddsPrefix bytes.old.items bytes.new.items (head_of apdu.now)) }
    ensures range { OnOk result (AreQualifiers apdu.now.txn × IsNumber apdu.now.number) }
{
    push_element(bytes, tags::VERSION, &[1])?;
    push_id(bytes, &apdu.txn)?;
    push_number(bytes, tags::NUMBER, apdu.number)
}

/// Appends a transaction id.
#[tactic(auto, unfolding(crate::specs::Format::element))]
fn push_id(bytes: &mut Vec<u8>, id: &TxnId) -> Result<(), OutOfMemory>
    ensures bytes { OnOk result (bytes.new.items ≡ bytes.old.items
        ++ txn_id.encode (id.now.group, id.now.transaction)) }
    ensures prefix { OnErr result (AddsPrefix bytes.old.items bytes.new.items
        (txn_id.encode (id.now.group, id.now.transaction))) }
    ensures range { OnOk result (AreQualifiers id.now) }
{
    push_start(bytes, tags::TRANSACTION_ID, qualifiers_size(id))?;
    push_element(bytes, tags::GROUP_QUALIFIER, id.group())?;
    push_element(bytes, tags::TRANSACTION_QUALIFIER, id.transaction())
}

/// Appends the further fields of `body`.
fn push_body(bytes: &mut Vec<u8>, body: &Body) -> Result<(), OutOfMemory>
    ensures bytes { OnOk result (bytes.new.items ≡ bytes.old.items ++ encode_body body.now) }
    ensures prefix { OnErr result (AddsPrefix bytes.old.items bytes.new.items (encode_body body.now)) }
    ensures range { OnOk result (IsBody body.now) }
{
    match body {
        Body::IllRequest { expiry, item } => {
            push_optional_date(bytes, *expiry)?;
            push_element(bytes, tags::ITEM, item.text())
        }
        Body::IllAnswer { result } => push_element(bytes, tags::RESULT, &[code_of(*result)]),
        Body::ConditionalReply { answers, yes } => push_reply(bytes, *answers, *yes),
        Body::CancelReply { answers, yes } => push_reply(bytes, *answers, *yes),
        Body::Shipped { due } => push_date(bytes, *due),
        Body::Overdue { due } => push_date(bytes, *due),
        Body::Renew { wished } => push_optional_date(bytes, *wished),
        Body::RenewAnswer { answers, granted } => push_grant(bytes, *answers, *granted),
        Body::Cancel
        | Body::Received
        | Body::Recall
        | Body::Returned
        | Body::CheckedIn
        | Body::Expired => Ok(()),
    }
}

/// Appends the further fields of a Renew-Answer.
fn push_grant(bytes: &mut Vec<u8>, answers: Number, granted: Option<Day>) -> Result<(), OutOfMemory>
    ensures bytes { OnOk result (bytes.new.items ≡ bytes.old.items
        ++ grant.encode (answers, granted)) }
    ensures prefix { OnErr result (AddsPrefix bytes.old.items bytes.new.items
        (grant.encode (answers, granted))) }
    ensures range { OnOk result (IsNumber answers × IfSome granted IsDate) }
{
    push_reply(bytes, answers, granted.is_some())?;
    push_optional_date(bytes, granted)
}

/// Appends the number of the message that is answered, and yes or no.
fn push_reply(bytes: &mut Vec<u8>, answers: Number, yes: bool) -> Result<(), OutOfMemory>
    ensures bytes { OnOk result (bytes.new.items ≡ bytes.old.items ++ reply.encode (answers, yes)) }
    ensures prefix { OnErr result (AddsPrefix bytes.old.items bytes.new.items
        (reply.encode (answers, yes))) }
    ensures range { OnOk result (IsNumber answers) }
{
    push_number(bytes, tags::ANSWERS, answers)?;
    push_element(bytes, tags::YES_NO, &[if yes { 0xFF } else { 0 }])
}

/// Appends a date, if there is one.
fn push_optional_date(bytes: &mut Vec<u8>, day: Option<Day>) -> Result<(), OutOfMemory>
    ensures bytes { OnOk result (bytes.new.items ≡ bytes.old.items
        ++ (optional 0x85 date).encode day) }
    ensures prefix { OnErr result (AddsPrefix bytes.old.items bytes.new.items
        ((optional 0x85 date).encode day)) }
    ensures range { OnOk result (IfSome day IsDate) }
{
    match day {
        None => Ok(()),
        Some(day) => push_date(bytes, day),
    }
}

/// Appends a date.
fn push_date(bytes: &mut Vec<u8>, day: Day) -> Result<(), OutOfMemory>
    ensures bytes { OnOk result (bytes.new.items ≡ bytes.old.items ++ due_date.encode day) }
    ensures prefix { OnErr result (AddsPrefix bytes.old.items bytes.new.items (due_date.encode day)) }
    ensures range { OnOk result (IsDate day) }
{
    push_element(bytes, tags::DATE, &day.digits())
}

/// Appends `number`, as an INTEGER (X.690 8.3).
fn push_number(bytes: &mut Vec<u8>, identifier: u8, number: Number) -> Result<(), OutOfMemory>
    ensures bytes { OnOk result (bytes.new.items ≡ bytes.old.items
        ++ element identifier (number_octets number)) }
    ensures prefix { OnErr result (AddsPrefix bytes.old.items bytes.new.items
        (element identifier (number_octets number))) }
    ensures range { OnOk result (IsNumber number) }
{
    let octet = number.get();
    if octet < 0x80 {
        push_element(bytes, identifier, &[octet])
    } else {
        push_element(bytes, identifier, &[0, octet])
    }
}

/// Appends the element of `identifier` and `contents`, which has fewer than 65536 octets (X.690 8.1.1).
#[tactic(auto, unfolding(crate::specs::Format::element))]
fn push_element(bytes: &mut Vec<u8>, identifier: u8, contents: &[u8]) -> Result<(), OutOfMemory>
    requires { length contents.now < 65536 }
    ensures bytes { OnOk result (bytes.new.items ≡ bytes.old.items ++ element identifier contents.now) }
    ensures prefix { OnErr result (AddsPrefix bytes.old.items bytes.new.items
        (element identifier contents.now)) }
{
    push_start(bytes, identifier, contents.len())?;
    bytes.extend_from_slice(contents)
}

/// Appends the identifier and the length of an element with `contents` contents octets (X.690 8.1.3,
/// 10.1).
#[tactic(auto, unfolding(crate::specs::Format::length_octets))]
fn push_start(bytes: &mut Vec<u8>, identifier: u8, contents: usize) -> Result<(), OutOfMemory>
    requires { contents < 65536 }
    ensures bytes { OnOk result (bytes.new.items ≡ bytes.old.items
        ++ identifier ∷ length_octets contents) }
    ensures prefix { OnErr result (AddsPrefix bytes.old.items bytes.new.items
        (identifier ∷ length_octets contents)) }
{
    bytes.push(identifier)?;
    if contents < 0x80 {
        bytes.push(contents as u8)?;
    } else if contents < 0x100 {
        bytes.extend_from_slice(&[0x81, contents as u8])?;
    } else {
        bytes.extend_from_slice(&[0x82, (contents / 256) as u8, (contents % 256) as u8])?;
    }
    Ok(())
}

/// Returns the octet that encodes `answer`.
fn code_of(answer: AnswerResult) -> u8
    ensures { result ≡ code_of answer }
{
    match answer {
        AnswerResult::Conditional => 1,
        AnswerResult::Retry => 2,
        AnswerResult::Unfilled => 3,
        AnswerResult::LocationsProvided => 4,
        AnswerResult::WillSupply => 5,
        AnswerResult::HoldPlaced => 6,
        AnswerResult::Estimate => 7,
    }
}
