//! Viewing and decoding of the APDU with which bytes begin.

ghost use Rattle.std.specs.Prelude.{◌≢◌, ◌<◌, ◌≤◌, length, IfOk, IfErr};
ghost use Rattle.ill_values.specs.Body.{body_in};
ghost use Rattle.ill_der.specs.declared.fault.DerFault.TheVariants.{OutOfMemory};
ghost use Rattle.ill_der.specs.Contents.{yes_no, date, number};
ghost use Rattle.ill_der.specs.Format.{Reads, required, where_yes};
ghost use Rattle.ill_der.specs.ShortForm.{outer_view, outer_at, read_body, reply, body_of, inside_of, apdu_at, DecodesAs, Views, Decodes};
ghost use Rattle.ill_der.specs.View.{HasItem};

use crate::apdu_view::ApduView;
use crate::cursor::Cursor;
use crate::fault::DerFault;
use crate::header::header_at;
use crate::{laws, tags};
use ill_values::{Apdu, ApduType, BodyView, Day, Number};
use std::alloc::Global;

/// An APDU whose bytes are all present: its type, its contents, which are not read yet, and its size in bytes.
#[derive(Drop)]
struct Outer<'a> {
    apdu_type: ApduType,
    inside: Cursor<'a>,
    size: usize,
}

/// Decodes the APDU with which `bytes` begins, and returns it with its size in bytes. Ignores the bytes
/// after it.
///
/// The fault is the first in `bytes`. All checks come before memory is taken, so `OutOfMemory` means
/// that `bytes` begins with an APDU.
pub fn decode(alloc: Global, bytes: &[u8]) -> Result<(Apdu, usize), DerFault>
    ensures read { Decodes bytes.now (apdu_at bytes.now) result }
    ensures most { IfOk result (λ found. found.1 ≤ 359) }
{
    let (apdu, size) = view(bytes)?;
    Ok((apdu.to_apdu(alloc)?, size))
}

/// Returns a view of the APDU with which `bytes` begins, and its size in bytes, at most 359. Ignores the
/// bytes after it. Checks everything that `decode` checks, and allocates nothing.
///
/// The fault is the first in `bytes`, and never `OutOfMemory`.
#[tactic(auto, unfolding(crate::specs::ShortForm::apdu_at))]
pub fn view(bytes: &[u8]) -> Result<(ApduView<'_>, usize), DerFault>
    ensures read { Views bytes.now (apdu_at bytes.now) result }
    ensures some { IfOk result (λ found. 0 < found.1) }
    ensures most { IfOk result (λ found. found.1 ≤ 359) }
    ensures memory { IfErr result (λ fault. fault ≢ OutOfMemory) }
{
    laws::prefix_or_fault();
    match outer_at(bytes) {
        Ok(mut outer) => match inside_of(outer.apdu_type, &mut outer.inside) {
            Ok(apdu) => Ok((apdu, outer.size)),
            Err(fault) => Err(fault),
        },
        Err(fault) => Err(fault),
    }
}

/// Returns the type, the contents and the size of the APDU with which `bytes` begins. It reads none of the contents.
/// The fault is that of the header, or `Short` if contents are missing.
#[tactic(auto, unfolding(crate::specs::ShortForm::outer_at))]
fn outer_at(bytes: &[u8]) -> Result<Outer<'_>, DerFault>
    ensures read { DecodesAs outer_view result (outer_at bytes.now) }
    ensures size { IfOk result (λ outer. outer.size ≤ length bytes.now) }
    ensures some { IfOk result (λ outer. 0 < outer.size) }
    ensures most { IfOk result (λ outer. outer.size ≤ 359) }
{
    let header = header_at(bytes)?;
    let (start, end) = (header.start as usize, header.size as usize);
    if bytes.len() < end {
        return Err(DerFault::Short(bytes.len() as u16));
    }
    let inside = Cursor::new(header.start, &bytes[start..end]);
    Ok(Outer {
        apdu_type: header.apdu_type,
        inside,
        size: end,
    })
}

/// Returns a view of the APDU of this type whose contents are all of `inside`, or the first fault.
#[tactic(auto, unfolding(crate::specs::ShortForm::inside_of))]
fn inside_of<'a>(apdu_type: ApduType, inside: &mut Cursor<'a>) -> Result<ApduView<'a>, DerFault>
    ensures { DecodesAs (λ apdu. apdu) result (inside_of apdu_type inside.old) }
{
    inside.version(tags::VERSION)?;
    let mut id = inside.element_at(tags::TRANSACTION_ID)?;
    let group = id.qualifier(tags::GROUP_QUALIFIER)?;
    let transaction = id.qualifier(tags::TRANSACTION_QUALIFIER)?;
    id.ended()?;
    let number = inside.number(tags::NUMBER)?;
    match body_of(apdu_type, inside) {
        Ok(body) => Ok(ApduView {
            group,
            transaction,
            number,
            body,
        }),
        Err(fault) => Err(fault),
    }
}

/// Returns a view of the body of this type whose further fields are all of `inside`, or the first fault.
#[tactic(auto, unfolding(crate::specs::ShortForm::body_of))]
fn body_of<'a>(apdu_type: ApduType, inside: &mut Cursor<'a>) -> Result<BodyView<'a>, DerFault>
    ensures read { DecodesAs body_in result (body_of apdu_type inside.old) }
    ensures item { IfOk result (λ body. HasItem (body_in body)) }
{
    match read_body(apdu_type, inside) {
        Ok(body) => match inside.ended() {
            Ok(()) => Ok(body),
            Err(fault) => Err(fault),
        },
        Err(fault) => Err(fault),
    }
}

/// Reads the further fields of an APDU of this type, and returns a view of its body.
fn read_body<'a>(apdu_type: ApduType, inside: &mut Cursor<'a>) -> Result<BodyView<'a>, DerFault>
    ensures read { Reads body_in result inside.new (read_body apdu_type inside.old) }
    ensures item { IfOk result (λ body. HasItem (body_in body)) }
{
    match apdu_type {
        ApduType::IllRequest => {
            let expiry = inside.optional_date(tags::DATE)?;
            let item = inside.item(tags::ITEM)?;
            Ok(BodyView::IllRequest { expiry, item })
        }
        ApduType::Shipped => Ok(BodyView::Shipped {
            due: inside.date(tags::DATE)?,
        }),
        ApduType::IllAnswer => Ok(BodyView::IllAnswer {
            result: inside.answer_result(tags::RESULT)?,
        }),
        ApduType::ConditionalReply => {
            let (answers, yes) = read_reply(inside)?;
            Ok(BodyView::ConditionalReply { answers, yes })
        }
        ApduType::Cancel => Ok(BodyView::Cancel),
        ApduType::CancelReply => {
            let (answers, yes) = read_reply(inside)?;
            Ok(BodyView::CancelReply { answers, yes })
        }
        ApduType::Received => Ok(BodyView::Received),
        ApduType::Recall => Ok(BodyView::Recall),
        ApduType::Returned => Ok(BodyView::Returned),
        ApduType::CheckedIn => Ok(BodyView::CheckedIn),
        ApduType::Overdue => Ok(BodyView::Overdue {
            due: inside.date(tags::DATE)?,
        }),
        ApduType::Renew => Ok(BodyView::Renew {
            wished: inside.optional_date(tags::DATE)?,
        }),
        ApduType::RenewAnswer => {
            let answers = inside.number(tags::ANSWERS)?;
            let granted = read_granted(inside)?;
            Ok(BodyView::RenewAnswer { answers, granted })
        }
        ApduType::Expired => Ok(BodyView::Expired),
    }
}

/// Reads the number of the message that is answered, and yes or no.
fn read_reply(inside: &mut Cursor<'_>) -> Result<(Number, bool), DerFault>
    ensures { Reads (λ found. found) result inside.new (reply.read inside.old) }
{
    let answers = inside.number(tags::ANSWERS)?;
    let yes = inside.yes_no(tags::YES_NO)?;
    Ok((answers, yes))
}

/// Reads yes or no, and after a yes the new due date. Returns `None` for a no.
fn read_granted(inside: &mut Cursor<'_>) -> Result<Option<Day>, DerFault>
    ensures { Reads (λ found. found) result inside.new
        ((where_yes (required 0x84 yes_no) (required 0x85 date)).read inside.old) }
{
    if inside.yes_no(tags::YES_NO)? {
        Ok(Some(inside.date(tags::DATE)?))
    } else {
        Ok(None)
    }
}
