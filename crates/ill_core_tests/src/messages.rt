//! Reads messages, as the input encodes them.

use ill_test_kit::octet_in;
use ill_values::{AnswerResult, Apdu, Body, Day, Item, Number, TxnId};
use std::alloc::Global;

/// Returns the number that `text` encodes, or `None`.
pub fn number(text: &str) -> Option<Number> {
    Number::new(octet_in(text)?)
}

/// Returns the day that `text` encodes, or `None`.
pub fn day(text: &str) -> Option<Day> {
    Day::read(text.as_bytes()).ok()
}

/// Returns the number of the message after the first `count` messages.
pub fn next_number(count: usize) -> Option<Number> {
    Number::new(u8::try_from(count.saturating_add(1)).ok()?)
}

/// Returns the message that `word` encodes, as `NUMBER:BODY@GROUP/TRANSACTION`. If `word` has no number, the message
/// has the number `place`. Without qualifiers they are G1 and T1.
pub fn message(alloc: Global, word: &str, place: Option<Number>) -> Option<Apdu> {
    let (digits, word) = word.split_once(':').unwrap_or(("", word));
    let (word, id) = word.split_once('@').unwrap_or((word, "G1/T1"));
    let (group, transaction) = id.split_once('/')?;
    let number = number(digits).or(place)?;
    let txn = TxnId::new(alloc, group.as_bytes(), transaction.as_bytes()).ok()?;
    let body = body_of(alloc, word)?;
    Some(Apdu { txn, number, body })
}

/// Returns the body that `word` encodes: a letter, the number that it answers, and a date after a hyphen.
pub fn body_of(alloc: Global, word: &str) -> Option<Body> {
    let (word, date) = word.split_once('-').unwrap_or((word, ""));
    let mut letters = word.chars();
    let letter = letters.next()?;
    match letters.as_str() {
        "" => plain(alloc, letter, day(date)),
        digits => reply(letter, number(digits)?, day(date)),
    }
}

/// Returns the body of a message that answers no number. If a date is needed and `date` is absent, it is 15 March 2025.
fn plain(alloc: Global, letter: char, date: Option<Day>) -> Option<Body> {
    let due = date.or(day("20250315"))?;
    match letter {
        'q' => Some(Body::IllRequest {
            expiry: date,
            item: Item::new(alloc, b"Maps").ok()?,
        }),
        'c' => Some(Body::Cancel),
        'r' => Some(Body::Received),
        'w' => Some(Body::Renew { wished: date }),
        'b' => Some(Body::Returned),
        's' => Some(Body::Shipped { due }),
        'l' => Some(Body::Recall),
        'k' => Some(Body::CheckedIn),
        'o' => Some(Body::Overdue { due }),
        'e' => Some(Body::Expired),
        _ => answer(letter),
    }
}

/// Returns the body of a message that answers the number `answers`.
fn reply(letter: char, answers: Number, date: Option<Day>) -> Option<Body> {
    match letter {
        'y' => Some(Body::ConditionalReply { answers, yes: true }),
        'n' => Some(Body::ConditionalReply {
            answers,
            yes: false,
        }),
        'A' => Some(Body::CancelReply { answers, yes: true }),
        'N' => Some(Body::CancelReply {
            answers,
            yes: false,
        }),
        'g' | 'd' => Some(Body::RenewAnswer {
            answers,
            granted: date,
        }),
        _ => None,
    }
}

/// Returns the body of the ILL-Answer whose result has this digit.
fn answer(digit: char) -> Option<Body> {
    let result = match digit {
        '1' => AnswerResult::Conditional,
        '2' => AnswerResult::Retry,
        '3' => AnswerResult::Unfilled,
        '4' => AnswerResult::LocationsProvided,
        '5' => AnswerResult::WillSupply,
        '6' => AnswerResult::HoldPlaced,
        '7' => AnswerResult::Estimate,
        _ => return None,
    };
    Some(Body::IllAnswer { result })
}
