//! The size of an APDU's encoding, in bytes.

ghost use Rattle.std.specs.Prelude.{◌≡◌, ◌+◌, ◌≤◌, ◌<◌, ◌++◌, ◌∷◌, [], length, IfOk, OnOk};
ghost use Rattle.ill_values.specs.Day.{Date};
ghost use Rattle.ill_der.specs.Contents.{number_octets, yes_no, date};
ghost use Rattle.ill_der.specs.Format.{length_octets, element, required, optional, where_yes};
ghost use Rattle.ill_values.specs.Types.{type_of};
ghost use Rattle.ill_der.specs.Types.{identifier_of};
ghost use Rattle.ill_der.specs.ShortForm.{qualifiers, txn_id, head, head_of, encode_body, contents_of, encoding};

use ill_values::{Apdu, Body, Day, Number, TxnId};

/// Returns the size of the encoding of `apdu`: at most 359 bytes. Allocates nothing.
#[tactic(auto, using(crate::proofs::Sizes::element_length), unfolding(crate::specs::ShortForm::encoding))]
pub fn size(apdu: &Apdu) -> usize
    ensures value { result ≡ length (encoding apdu.now) }
    ensures most { result ≤ 359 }
{
    element_size(contents_size(apdu))
}

/// Returns the number of bytes of an element with `contents` contents octets. The identifier and the length add at most
/// 4. They add at most 3 to fewer than 256 octets, and at most 2 to fewer than 128.
fn element_size(contents: usize) -> usize
    requires { contents < 65536 }
    ensures value { result ≡ 1 + length (length_octets contents) + contents }
    ensures short { contents < 128 → result ≤ contents + 2 }
    ensures middle { contents < 256 → result ≤ contents + 3 }
    ensures most { result ≤ contents + 4 }
{
    1 + length_size(contents) + contents
}

/// Returns the number of length octets of `contents` contents octets (X.690 8.1.3, 10.1). It is 1 below 128, 2 below
/// 256, and else 3.
#[tactic(auto, unfolding(crate::specs::Format::length_octets))]
fn length_size(contents: usize) -> usize
    ensures value { result ≡ length (length_octets contents) }
    ensures short { contents < 128 → result ≤ 1 }
    ensures middle { contents < 256 → result ≤ 2 }
    ensures most { result ≤ 3 }
{
    if contents < 0x80 {
        1
    } else if contents < 0x100 {
        2
    } else {
        3
    }
}

/// Returns the number of contents octets of `apdu`: at most 355.
pub fn contents_size(apdu: &Apdu) -> usize
    ensures value { result ≡ length (contents_of apdu.now) }
    ensures most { result ≤ 355 }
{
    head_size(apdu) + body_size(&apdu.body)
}

/// Returns the number of bytes of the fields that each APDU has, for `apdu`.
#[tactic(auto, using(crate::proofs::Sizes::element_length))]
fn head_size(apdu: &Apdu) -> usize
    ensures value { result ≡ length (head_of apdu.now) }
    ensures most { result ≤ 142 }
{
    VERSION_SIZE + id_size(&apdu.txn) + number_size(apdu.number)
}

/// Returns the number of bytes of a transaction id.
#[tactic(auto, using(crate::proofs::Sizes::element_length))]
fn id_size(id: &TxnId) -> usize
    ensures value { result ≡ length (txn_id.encode (id.now.group, id.now.transaction)) }
    ensures most { result ≤ 135 }
{
    element_size(qualifiers_size(id))
}

/// Returns the number of bytes of the two qualifiers of a transaction id.
#[tactic(auto, using(crate::proofs::Sizes::element_length))]
pub fn qualifiers_size(id: &TxnId) -> usize
    ensures value { result ≡ length (qualifiers.encode (id.now.group, id.now.transaction)) }
    ensures most { result ≤ 132 }
{
    element_size(id.group().len()) + element_size(id.transaction().len())
}

/// Returns the number of bytes of the element of a number. It does not depend on the identifier, which is 0 in the
/// clause `value`.
#[tactic(auto, unfolding(crate::specs::Format::element, crate::specs::Format::length_octets))]
fn number_size(number: Number) -> usize
    ensures value { result ≡ length (element 0 (number_octets number)) }
    ensures most { result ≤ 4 }
{
    if number.get() < 0x80 { 3 } else { 4 }
}

/// The number of bytes of the element of the version.
const VERSION_SIZE: usize = 3;

/// Returns the number of bytes of the further fields of `body`.
#[tactic(auto, using(crate::proofs::Sizes::element_length, crate::proofs::Sizes::date_length, crate::proofs::Sizes::code_length))]
fn body_size(body: &Body) -> usize
    ensures value { result ≡ length (encode_body body.now) }
    ensures most { result ≤ 213 }
{
    match body {
        Body::IllRequest { expiry, item } => optional_date_size(*expiry)
            + element_size(item.text().len()),
        Body::Shipped { .. } | Body::Overdue { .. } => DATE_SIZE,
        Body::IllAnswer { .. } => CODE_SIZE,
        Body::ConditionalReply { answers, .. } => number_size(*answers) + CODE_SIZE,
        Body::CancelReply { answers, .. } => number_size(*answers) + CODE_SIZE,
        Body::Renew { wished } => optional_date_size(*wished),
        Body::RenewAnswer { answers, granted } => {
            number_size(*answers) + CODE_SIZE + optional_date_size(*granted)
        }
        Body::Cancel
        | Body::Received
        | Body::Recall
        | Body::Returned
        | Body::CheckedIn
        | Body::Expired => 0,
    }
}

/// The number of bytes of the element of a date.
const DATE_SIZE: usize = 10;

/// The number of bytes of the element of a result, or of a yes or no.
const CODE_SIZE: usize = 3;

/// Returns the number of bytes of the element of a date, or 0 if there is no date.
#[tactic(auto, unfolding(crate::specs::Format::element, crate::specs::Format::length_octets))]
fn optional_date_size(day: Option<Day>) -> usize
    ensures value { result ≡ length ((optional 0x85 date).encode day) }
    ensures most { result ≤ 10 }
{
    match day {
        Some(_) => DATE_SIZE,
        None => 0,
    }
}
