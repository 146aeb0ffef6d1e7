//! The lines that the commands write.

ghost use Rattle.std.specs.Prelude.{◌≡◌, ◌++◌, codes, OnOk};
ghost use Rattle.ill_values.specs.declared.apdu.BodyWith.TheVariants.{IllRequest};
ghost use Rattle.ill_values.specs.Body.{body_in};
ghost use Rattle.ill_der.specs.View.{apdu_of};
ghost use Rattle.ill_text.specs.Escape.{escaped};
ghost use Rattle.ill_text.specs.Lines.{line, shown_fields, shown_lines, reply_word, number_line, date_line, optional_date_line, reply_lines, grant_lines, field_lines, id_lines, head_lines, lines_of, count_line};

use crate::escape::push_escaped;
use ill_der::{ApduView, BodyView};
use ill_values::{Apdu, Day, Number, OutOfMemory};
use itoa::Buffer;

/// Appends the lines of `apdu`, with its item as it is.
#[tactic(auto, unfolding(crate::specs::Lines::lines_of))]
pub fn push_apdu(lines: &mut Vec<u8>, apdu: &ApduView<'_>) -> Result<(), OutOfMemory>
    ensures { OnOk result (lines.new.items ≡ lines.old.items ++ lines_of apdu.now) }
{
    push_head(
        lines,
        apdu.body(),
        apdu.group(),
        apdu.transaction(),
        apdu.number(),
    )?;
    push_fields(lines, apdu.body())
}

/// Appends the lines of `apdu` for a screen, with its item escaped.
#[tactic(auto, unfolding(crate::specs::Lines::shown_lines))]
pub fn push_shown(lines: &mut Vec<u8>, apdu: &Apdu) -> Result<(), OutOfMemory>
    ensures { OnOk result (lines.new.items ≡ lines.old.items ++ shown_lines apdu.now) }
{
    let body = apdu.body.view();
    push_head(
        lines,
        &body,
        apdu.txn.group(),
        apdu.txn.transaction(),
        apdu.number,
    )?;
    push_shown_fields(lines, &body)
}

/// Appends the lines that all APDUs have: the type, the transaction and the number.
fn push_head(
    lines: &mut Vec<u8>,
    body: &BodyView<'_>,
    group: &[u8],
    transaction: &[u8],
    number: Number,
) -> Result<(), OutOfMemory>
    ensures { OnOk result (lines.new.items ≡ lines.old.items
        ++ head_lines (apdu_of group.now transaction.now number (body_in body.now))) }
{
    push_line(lines, "apdu", body.type_name().as_bytes())?;
    push_id(lines, group, transaction)?;
    push_number(lines, "number", number)
}

/// Appends the lines of a transaction id.
pub fn push_id(lines: &mut Vec<u8>, group: &[u8], transaction: &[u8]) -> Result<(), OutOfMemory>
    ensures { OnOk result (lines.new.items ≡ lines.old.items ++ id_lines group.now transaction.now) }
{
    push_line(lines, "group", group)?;
    push_line(lines, "transaction", transaction)
}

/// Appends the lines of `push_fields`, with an item escaped for a screen.
pub fn push_shown_fields(lines: &mut Vec<u8>, body: &BodyView<'_>) -> Result<(), OutOfMemory>
    ensures { OnOk result (lines.new.items ≡ lines.old.items ++ shown_fields (body_in body.now)) }
{
    match body {
        BodyView::IllRequest { expiry, item } => push_shown_request(lines, *expiry, item),
        other => push_fields(lines, other),
    }
}

/// Appends the lines of a request: its expiry day, if it has one, and its item, which is escaped.
fn push_shown_request(
    lines: &mut Vec<u8>,
    expiry: Option<Day>,
    item: &[u8],
) -> Result<(), OutOfMemory>
    ensures { OnOk result (lines.new.items ≡ lines.old.items
        ++ shown_fields (IllRequest expiry item.now)) }
{
    push_optional_date(lines, expiry)?;
    push_item(lines, item)
}

/// Appends the line of `item`, which is escaped.
pub fn push_item(lines: &mut Vec<u8>, item: &[u8]) -> Result<(), OutOfMemory>
    ensures { OnOk result (lines.new.items ≡ lines.old.items ++ line (codes "item") (escaped item.now)) }
{
    let mut shown = Vec::new(*lines.allocator());
    push_escaped(&mut shown, item)?;
    push_line(lines, "item", &shown)
}

/// Appends the lines of the fields that only APDUs of this type have.
pub fn push_fields(lines: &mut Vec<u8>, body: &BodyView<'_>) -> Result<(), OutOfMemory>
    ensures { OnOk result (lines.new.items ≡ lines.old.items ++ field_lines (body_in body.now)) }
{
    match body {
        BodyView::IllRequest { expiry, item } => {
            push_optional_date(lines, *expiry)?;
            push_line(lines, "item", item)
        }
        BodyView::IllAnswer { result } => push_line(lines, "result", result.name().as_bytes()),
        BodyView::ConditionalReply { answers, yes } => push_reply(lines, *answers, *yes),
        BodyView::CancelReply { answers, yes } => push_reply(lines, *answers, *yes),
        BodyView::Shipped { due } => push_date(lines, *due),
        BodyView::Overdue { due } => push_date(lines, *due),
        BodyView::Renew { wished } => push_optional_date(lines, *wished),
        BodyView::RenewAnswer { answers, granted } => push_grant(lines, *answers, *granted),
        BodyView::Cancel
        | BodyView::Received
        | BodyView::Recall
        | BodyView::Returned
        | BodyView::CheckedIn
        | BodyView::Expired => Ok(()),
    }
}

/// Appends the lines of a Renew-Answer: the number of the Renew, yes or no, and the new due date.
fn push_grant(lines: &mut Vec<u8>, answers: Number, granted: Option<Day>) -> Result<(), OutOfMemory>
    ensures { OnOk result (lines.new.items ≡ lines.old.items ++ grant_lines answers granted) }
{
    match granted {
        None => push_reply(lines, answers, false),
        Some(day) => {
            push_reply(lines, answers, true)?;
            push_date(lines, day)
        }
    }
}

/// Appends the lines of a reply: the number of the message that it answers, and `yes` or `no`.
fn push_reply(lines: &mut Vec<u8>, answers: Number, yes: bool) -> Result<(), OutOfMemory>
    ensures { OnOk result (lines.new.items ≡ lines.old.items ++ reply_lines answers yes) }
{
    push_number(lines, "answers", answers)?;
    push_whether(lines, "reply", yes)
}

/// Appends the line of `label` with `yes` or `no`.
pub fn push_whether(lines: &mut Vec<u8>, label: &str, yes: bool) -> Result<(), OutOfMemory>
    ensures { OnOk result (lines.new.items ≡ lines.old.items ++ line label.now (reply_word yes)) }
{
    push_line(lines, label, if yes { b"yes" } else { b"no" })
}

/// Appends the line of the label `date` and of `day`, if there is a day.
fn push_optional_date(lines: &mut Vec<u8>, day: Option<Day>) -> Result<(), OutOfMemory>
    ensures { OnOk result (lines.new.items ≡ lines.old.items ++ optional_date_line day) }
{
    match day {
        None => Ok(()),
        Some(day) => push_date(lines, day),
    }
}

/// Appends the line of the label `date` and of `day`, in eight digits.
fn push_date(lines: &mut Vec<u8>, day: Day) -> Result<(), OutOfMemory>
    ensures { OnOk result (lines.new.items ≡ lines.old.items ++ date_line day) }
{
    push_line(lines, "date", &day.digits())
}

/// Appends the line of `label` and of the number of a message.
pub fn push_number(lines: &mut Vec<u8>, label: &str, number: Number) -> Result<(), OutOfMemory>
    ensures { OnOk result (lines.new.items ≡ lines.old.items ++ number_line label.now number) }
{
    push_decimal(lines, label, usize::from(number.get()))
}

/// Appends the line of `label` and of any number.
pub fn push_decimal(lines: &mut Vec<u8>, label: &str, number: usize) -> Result<(), OutOfMemory>
    ensures { OnOk result (lines.new.items ≡ lines.old.items ++ number_line label.now number) }
{
    push_line(lines, label, Buffer::new().format(number).as_bytes())
}

/// Appends the line `COUNT apdus`.
pub fn push_count(lines: &mut Vec<u8>, count: u32) -> Result<(), OutOfMemory>
    ensures { OnOk result (lines.new.items ≡ lines.old.items ++ count_line count) }
{
    push_line(lines, Buffer::new().format(count), b"apdus")
}

/// Appends a line: a label, a space and a value.
#[tactic(auto, unfolding(crate::specs::Lines::line))]
pub fn push_line(lines: &mut Vec<u8>, label: &str, value: &[u8]) -> Result<(), OutOfMemory>
    ensures { OnOk result (lines.new.items ≡ lines.old.items ++ line label.now value.now) }
{
    lines.extend_from_slice(label.as_bytes())?;
    lines.push(b' ')?;
    lines.extend_from_slice(value)?;
    lines.push(b'\n')?;
    Ok(())
}
