//! The objects that the commands write with `--json`.

ghost use Rattle.std.specs.Prelude.{◌≡◌, [], ◌++◌, map, codes, option_copied, OnOk};
ghost use Rattle.ill_text.specs.Json.{joined, member, optional, quoted, value_text};
ghost use Rattle.ill_words.specs.Possible.{item_asked, request_of};
ghost use Rattle.ill_text.specs.ApduObject.{apdu_fields, object_line};
ghost use Rattle.ill_beside.specs.Notes.{note_fields};
ghost use Rattle.ill_show.specs.Objects.{came_fields, kept_fields, leaves_fields, loan_fields, message_object, messages_fields, names_of, standing_fields, status_fields, taken_fields, turn_fields};

use crate::marks::marks;
use ill_beside::notes::push_note_field;
use ill_saved::Side;
use ill_text::apdu_object::push_apdu;
use ill_text::json::{ItemForm, Value, push_array, push_label, push_members, push_plain};
use ill_values::{Apdu, OutOfMemory};
use ill_words::names::names;
use ill_words::possible::{expiry, item_asked, possible_on};

/// Appends the object of `status` for `side` with `released` released messages, on a line.
pub(crate) fn push_status_object(
    text: &mut Vec<u8>,
    side: &Side,
    released: u8,
) -> Result<(), OutOfMemory>
    ensures { OnOk result (text.new.items ≡ text.old.items
        ++ object_line (status_fields side.now released)) }
{
    push_plain(text, "{")?;
    push_status(text, side, released)?;
    push_plain(text, "}\n")
}

/// Appends the fields of `status` for `side` with `released` released messages.
fn push_status(text: &mut Vec<u8>, side: &Side, released: u8) -> Result<(), OutOfMemory>
    ensures { OnOk result (text.new.items ≡ text.old.items
        ++ joined member [] (status_fields side.now released)) }
{
    let marks = marks(*text.allocator(), side)?;
    push_standing(text, side, released, &marks)
}

/// Appends the fields of `status` for `side` with `released` released messages and the marks `marks`.
#[tactic(auto, unfolding(ill_text::specs::Json::joined))]
fn push_standing<'a>(
    text: &mut Vec<u8>,
    side: &'a Side,
    released: u8,
    marks: &'a [&'a str],
) -> Result<(), OutOfMemory>
    ensures { OnOk result (text.new.items ≡ text.old.items
        ++ joined member [] (standing_fields side.now released (map (λ mark. mark.now) marks.now))) }
{
    push_members(
        text,
        b"",
        &[
            ("kind", Value::Text(b"loan")),
            ("role", Value::Text(side.role().name().as_bytes())),
            ("group", Value::Text(side.txn().group())),
            ("transaction", Value::Text(side.txn().transaction())),
            ("state", Value::Text(side.state().name().as_bytes())),
            ("due", Value::day(side.due())),
            ("released", Value::Count(released.into())),
            ("issued", Value::Count(side.issued_count().into())),
            ("marks", Value::Words(marks)),
        ],
    )
}

/// Appends the fields of `loan` for `side`, without the messages that came, the note and the history.
fn push_loan(text: &mut Vec<u8>, side: &Side, released: u8) -> Result<(), OutOfMemory>
    ensures { OnOk result (text.new.items ≡ text.old.items
        ++ joined member [] (loan_fields side.now released)) }
{
    push_status(text, side, released)?;
    push_turn(text, side)?;
    push_taken(text, side)?;
    push_messages(text, "messages", side.all_issued(), Some(released))
}

/// Appends the fields of `loan` for `side` and the messages `came`, and the field of its note.
pub(crate) fn push_kept_and_note(
    text: &mut Vec<u8>,
    note: Option<&str>,
    side: &Side,
    released: u8,
    came: &[Apdu],
) -> Result<(), OutOfMemory>
    ensures { OnOk result (text.new.items ≡ text.old.items
        ++ joined member [] (kept_fields (record { side = side.now; released = released }) came.now
        ++ note_fields (option_copied note.entry))) }
{
    push_loan_and_came(text, side, released, came)?;
    push_note_field(text, note)
}

/// Appends the fields of `loan` for `side`, and the messages `came`.
fn push_loan_and_came(
    text: &mut Vec<u8>,
    side: &Side,
    released: u8,
    came: &[Apdu],
) -> Result<(), OutOfMemory>
    ensures { OnOk result (text.new.items ≡ text.old.items
        ++ joined member [] (loan_fields side.now released ++ came_fields came.now)) }
{
    push_loan(text, side, released)?;
    push_messages(text, "came", came, None)
}

/// Appends the fields of the library that acts next, the actions that the side may do on some day, and the request.
fn push_turn(text: &mut Vec<u8>, side: &Side) -> Result<(), OutOfMemory>
    ensures { OnOk result (text.new.items ≡ text.old.items
        ++ joined member (codes ",") (turn_fields side.now (names_of None side.now))) }
{
    let alloc = *text.allocator();
    let names = names(alloc, &possible_on(alloc, None, side)?)?;
    push_now(text, side, &names)
}

/// Appends the fields of the library that acts next, the actions `names`, and the request.
#[tactic(auto, unfolding(ill_text::specs::Json::joined))]
fn push_now<'a>(text: &mut Vec<u8>, side: &'a Side, names: &'a [&'a str]) -> Result<(), OutOfMemory>
    ensures { OnOk result (text.new.items ≡ text.old.items
        ++ joined member (codes ",") (turn_fields side.now (map (λ name. name.now) names.now))) }
{
    push_members(
        text,
        b",",
        &[
            ("next", Value::Text(side.turn().name().as_bytes())),
            ("now", Value::Words(names)),
            ("item", title(side)),
            ("expiry", Value::day(expiry(side))),
        ],
    )
}

/// Appends the fields of the message numbers that the record keeps of the other side.
#[tactic(auto, unfolding(ill_text::specs::Json::joined))]
fn push_taken(text: &mut Vec<u8>, side: &Side) -> Result<(), OutOfMemory>
    ensures { OnOk result (text.new.items ≡ text.old.items
        ++ joined member (codes ",") (taken_fields side.now)) }
{
    match side {
        Side::Requester(requester) => {
            push_members(text, b",", &[("held", Value::number(requester.held()))])
        }
        Side::Responder(responder) => push_members(
            text,
            b",",
            &[
                ("accepted", Value::number(responder.accepted())),
                ("last_cancel", Value::number(responder.last_cancel())),
                ("last_renew", Value::number(responder.last_renew())),
            ],
        ),
    }
}

/// Appends the field `label` of the messages `apdus`. With a number `released`, each has a field that is true if it may
/// be sent.
#[tactic(auto, unfolding(ill_text::specs::Json::joined))]
fn push_messages(
    text: &mut Vec<u8>,
    label: &str,
    apdus: &[Apdu],
    released: Option<u8>,
) -> Result<(), OutOfMemory>
    ensures { OnOk result (text.new.items ≡ text.old.items
        ++ joined member (codes ",") (messages_fields label.now released apdus.now)) }
{
    push_plain(text, ",")?;
    push_label(text, label)?;
    push_array(text, apdus, &MessageObjects { released })
}

/// The form of messages as objects. With a number `released`, each has a field that is true if it may be sent.
#[derive(Clone, Copy)]
struct MessageObjects {
    released: Option<u8>,
}

impl ItemForm<Apdu> for MessageObjects {
    ghost text_of = { λ objects apdu. message_object objects.released apdu };

    fn push(&self, text: &mut Vec<u8>, apdu: &Apdu) -> Result<(), OutOfMemory> {
        push_message(text, apdu, self.released)
    }
}

/// Appends the object of the message `apdu`. With a number `released`, it has a field that is true if it may be sent.
fn push_message(text: &mut Vec<u8>, apdu: &Apdu, released: Option<u8>) -> Result<(), OutOfMemory>
    ensures { OnOk result (text.new.items ≡ text.old.items ++ message_object released apdu.now) }
{
    push_plain(text, "{")?;
    push_issued(text, apdu)?;
    push_leaves(text, apdu, released)?;
    push_plain(text, "}")
}

/// Appends the fields of the message `apdu` itself, without the field that says if it may be sent.
fn push_issued(text: &mut Vec<u8>, apdu: &Apdu) -> Result<(), OutOfMemory>
    ensures { OnOk result (text.new.items ≡ text.old.items
        ++ joined member [] (apdu_fields apdu.now)) }
{
    let (group, transaction) = (apdu.txn.group(), apdu.txn.transaction());
    push_apdu(text, &apdu.body.view(), group, transaction, apdu.number)
}

/// Appends the field that is true if `apdu` may be sent, if there is a number `released`.
#[tactic(auto, unfolding(ill_text::specs::Json::joined))]
fn push_leaves(text: &mut Vec<u8>, apdu: &Apdu, released: Option<u8>) -> Result<(), OutOfMemory>
    ensures { OnOk result (text.new.items ≡ text.old.items
        ++ joined member (codes ",") (leaves_fields released apdu.now)) }
{
    match released {
        None => Ok(()),
        Some(released) => {
            let leaves = apdu.number.get() <= released;
            push_members(text, b",", &[("leaves", Value::Flag(leaves))])
        }
    }
}

/// Returns the value of the item of the loan of `side`, which is missing if it has no request.
pub fn title<'a>(side: &'a Side) -> Value<'a>
    ensures { value_text result ≡ optional quoted (item_asked (request_of side.now)) }
{
    match item_asked(side) {
        Some(item) => Value::Text(item.text()),
        None => Value::Missing,
    }
}
