//! The JSON object of an APDU.

ghost use Rattle.std.specs.Prelude.{◌≡◌, [], ◌++◌, codes, OnOk};
ghost use Rattle.ill_values.specs.declared.apdu.BodyWith.TheVariants.{IllRequest};
ghost use Rattle.ill_values.specs.Body.{body_in};
ghost use Rattle.ill_der.specs.View.{apdu_of};
ghost use Rattle.ill_text.specs.Json.{joined, member};
ghost use Rattle.ill_text.specs.ApduObject.{apdu_fields, body_fields, head_fields, line_fields, object_line, optional_date_fields, reply_fields};

use crate::json::{Value, push_members, push_plain};
use ill_der::{ApduView, BodyView};
use ill_values::{Day, Number, OutOfMemory};

/// Appends the object of `apdu` on a line.
pub(crate) fn push_apdu_object(text: &mut Vec<u8>, apdu: &ApduView<'_>) -> Result<(), OutOfMemory>
    ensures { OnOk result (text.new.items ≡ text.old.items ++ object_line (line_fields apdu.now)) }
{
    push_plain(text, "{")?;
    push_line_fields(text, apdu)?;
    push_plain(text, "}\n")
}

/// Appends the fields of `apdu` in a line of its own. Its kind is message.
#[tactic(auto, unfolding(crate::specs::Json::joined))]
fn push_line_fields(text: &mut Vec<u8>, apdu: &ApduView<'_>) -> Result<(), OutOfMemory>
    ensures { OnOk result (text.new.items ≡ text.old.items ++ joined member [] (line_fields apdu.now)) }
{
    push_members(text, b"", &[("kind", Value::Text(b"message"))])?;
    push_apdu_after(text, apdu)
}

/// Appends the fields of `apdu`, each after a comma.
#[tactic(auto, unfolding(crate::specs::Json::joined))]
pub fn push_apdu_after(text: &mut Vec<u8>, apdu: &ApduView<'_>) -> Result<(), OutOfMemory>
    ensures { OnOk result (text.new.items ≡ text.old.items ++ joined member (codes ",") (apdu_fields apdu.now)) }
{
    push_plain(text, ",")?;
    push_apdu(
        text,
        apdu.body(),
        apdu.group(),
        apdu.transaction(),
        apdu.number(),
    )
}

/// Appends the fields of the APDU with this body, transaction and number, with a comma between two.
pub fn push_apdu(
    text: &mut Vec<u8>,
    body: &BodyView<'_>,
    group: &[u8],
    transaction: &[u8],
    number: Number,
) -> Result<(), OutOfMemory>
    ensures { OnOk result (text.new.items ≡ text.old.items
        ++ joined member [] (apdu_fields (apdu_of group.now transaction.now number (body_in body.now)))) }
{
    push_head(text, body, group, transaction, number)?;
    push_body(text, body)
}

/// Appends the fields that all APDUs have: the type, the transaction and the number. No comma is before the first.
#[tactic(auto, unfolding(crate::specs::Json::joined))]
fn push_head<'a>(
    text: &mut Vec<u8>,
    body: &BodyView<'_>,
    group: &'a [u8],
    transaction: &'a [u8],
    number: Number,
) -> Result<(), OutOfMemory>
    ensures { OnOk result (text.new.items ≡ text.old.items
        ++ joined member [] (head_fields (apdu_of group.now transaction.now number (body_in body.now)))) }
{
    push_members(
        text,
        b"",
        &[
            ("apdu", Value::Text(body.type_name().as_bytes())),
            ("group", Value::Text(group)),
            ("transaction", Value::Text(transaction)),
            ("number", Value::Count(number.get().into())),
        ],
    )
}

/// Appends the fields that only APDUs of this type have, each after a comma.
#[tactic(auto, unfolding(crate::specs::Json::joined))]
fn push_body(text: &mut Vec<u8>, body: &BodyView<'_>) -> Result<(), OutOfMemory>
    ensures { OnOk result (text.new.items ≡ text.old.items
        ++ joined member (codes ",") (body_fields (body_in body.now))) }
{
    match body {
        BodyView::IllRequest { expiry, item } => push_request(text, *expiry, item),
        BodyView::IllAnswer { result } => {
            push_members(
                text,
                b",",
                &[("result", Value::Text(result.name().as_bytes()))],
            )
        }
        BodyView::ConditionalReply { answers, yes } => push_reply(text, *answers, *yes),
        BodyView::CancelReply { answers, yes } => push_reply(text, *answers, *yes),
        BodyView::Shipped { due } => push_date(text, Some(*due)),
        BodyView::Overdue { due } => push_date(text, Some(*due)),
        BodyView::Renew { wished } => push_date(text, *wished),
        BodyView::RenewAnswer { answers, granted } => {
            push_reply(text, *answers, granted.is_some())?;
            push_date(text, *granted)
        }
        BodyView::Cancel
        | BodyView::Received
        | BodyView::Recall
        | BodyView::Returned
        | BodyView::CheckedIn
        | BodyView::Expired => Ok(()),
    }
}

/// Appends the fields of a request, each after a comma: its expiry day, if it has one, and its item.
#[tactic(auto, unfolding(crate::specs::Json::joined))]
fn push_request(text: &mut Vec<u8>, expiry: Option<Day>, item: &[u8]) -> Result<(), OutOfMemory>
    ensures { OnOk result (text.new.items ≡ text.old.items
        ++ joined member (codes ",") (body_fields (IllRequest expiry item.now))) }
{
    let item = ("item", Value::Text(item));
    match expiry {
        None => push_members(text, b",", &[item]),
        Some(day) => push_members(text, b",", &[("date", Value::Date(day)), item]),
    }
}

/// Appends the fields of a reply, each after a comma: the number of the message that it answers, and true for yes.
#[tactic(auto, unfolding(crate::specs::Json::joined))]
fn push_reply(text: &mut Vec<u8>, answers: Number, yes: bool) -> Result<(), OutOfMemory>
    ensures { OnOk result (text.new.items ≡ text.old.items
        ++ joined member (codes ",") (reply_fields answers yes)) }
{
    push_members(
        text,
        b",",
        &[
            ("answers", Value::Count(answers.get().into())),
            ("reply", Value::Flag(yes)),
        ],
    )
}

/// Appends the field `date` after a comma, if there is a `day`.
#[tactic(auto, unfolding(crate::specs::Json::joined))]
fn push_date(text: &mut Vec<u8>, day: Option<Day>) -> Result<(), OutOfMemory>
    ensures { OnOk result (text.new.items ≡ text.old.items
        ++ joined member (codes ",") (optional_date_fields day)) }
{
    match day {
        None => Ok(()),
        Some(day) => push_members(text, b",", &[("date", Value::Date(day))]),
    }
}
