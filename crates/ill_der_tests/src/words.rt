//! Puts APDUs into words.

use ill_test_kit::Page;
use ill_values::{Apdu, Body, Day, Number};

/// Adds an APDU in words: its type, and each field with its name and value.
pub fn push_apdu(words: &mut Page, apdu: &Apdu) {
    words.push(apdu.body.type_name().as_bytes());
    push_text(words, b", group ", apdu.txn.group());
    push_text(words, b", transaction ", apdu.txn.transaction());
    push_number(words, b", number ", apdu.number);
    push_fields(words, &apdu.body);
}

/// Adds the fields that only some types of APDU have.
fn push_fields(words: &mut Page, body: &Body) {
    match body {
        Body::IllRequest { expiry, item } => {
            push_day(words, b", expiry ", *expiry);
            push_text(words, b", item ", item.text());
        }
        Body::IllAnswer { result } => {
            words.push(b", result ");
            words.push(result.name().as_bytes());
        }
        Body::ConditionalReply { answers, yes } => push_reply(words, *answers, *yes),
        Body::CancelReply { answers, yes } => push_reply(words, *answers, *yes),
        Body::Shipped { due } => push_day(words, b", due date ", Some(*due)),
        Body::Overdue { due } => push_day(words, b", due date ", Some(*due)),
        Body::Renew { wished } => push_day(words, b", wished date ", *wished),
        Body::RenewAnswer { answers, granted } => {
            push_reply(words, *answers, granted.is_some());
            push_day(words, b", due date ", *granted);
        }
        Body::Cancel
        | Body::Received
        | Body::Recall
        | Body::Returned
        | Body::CheckedIn
        | Body::Expired => {}
    }
}

/// Adds the number that a reply answers, and its yes or no.
fn push_reply(words: &mut Page, answers: Number, yes: bool) {
    push_number(words, b", answers ", answers);
    words.push(if yes { b", yes" } else { b", no" });
}

/// Adds a date after `name`, if there is one.
fn push_day(words: &mut Page, name: &[u8], day: Option<Day>) {
    if let Some(day) = day {
        words.push(name);
        words.push(&day.digits());
    }
}

/// Adds a number after `name`.
fn push_number(words: &mut Page, name: &[u8], number: Number) {
    words.push(name);
    words.show(&number.get());
}

/// Adds `text` in quotes after `name`.
pub fn push_text(words: &mut Page, name: &[u8], text: &[u8]) {
    words.push(name);
    words.octet(b'"');
    words.push(text);
    words.octet(b'"');
}
