//! Reads actions from their words.

use ill_core::{Deed, Wish};
use ill_saved::Action;
use ill_test_kit::named;
use ill_values::{AnswerResult, Day, Item};
use std::alloc::Global;

/// Returns the action that `words` encode: a deed after its day, or a wish.
pub fn action(alloc: Global, words: &str) -> Option<Action> {
    let (first, others) = words.split_once(' ').unwrap_or((words, ""));
    match day(first) {
        Some(today) => Some(Action::Deed(deed(others)?, today)),
        None => Some(Action::Wish(wish(alloc, words)?)),
    }
}

/// Returns the wish that `words` encode.
fn wish(alloc: Global, words: &str) -> Option<Wish> {
    match words {
        "cancel" => Some(Wish::Cancel),
        "reply yes" => Some(Wish::Reply { yes: true }),
        "receive" => Some(Wish::Receive),
        "renew none" => Some(Wish::Renew { wished: None }),
        "return" => Some(Wish::Return),
        _ => request(alloc, words),
    }
}

/// Returns the wish Request that `words` encode, without an expiry date.
fn request(alloc: Global, words: &str) -> Option<Wish> {
    let text = words.strip_prefix("request none ")?.as_bytes();
    let item = Item::new(alloc, text).ok()?;
    Some(Wish::Request { expiry: None, item })
}

/// The words of the deeds that have no date of their own.
const DEEDS: [(&str, Deed); 9] = [
    (
        "answer conditional",
        Deed::Answer(AnswerResult::Conditional),
    ),
    ("answer unfilled", Deed::Answer(AnswerResult::Unfilled)),
    ("answer will-supply", Deed::Answer(AnswerResult::WillSupply)),
    ("cancel-reply yes", Deed::CancelReply { yes: true }),
    ("renew-answer no", Deed::RenewAnswer { granted: None }),
    ("overdue", Deed::Overdue),
    ("recall", Deed::Recall),
    ("check-in", Deed::CheckIn),
    ("expire", Deed::Expire),
];

/// Returns the deed that `words` encode.
fn deed(words: &str) -> Option<Deed> {
    named(&DEEDS, words).or(dated_deed(words))
}

/// Returns the deed with a due date that `words` encode.
fn dated_deed(words: &str) -> Option<Deed> {
    if let Some(digits) = words.strip_prefix("ship ") {
        return Some(Deed::Ship { due: day(digits)? });
    }
    let granted = Some(day(words.strip_prefix("renew-answer yes ")?)?);
    Some(Deed::RenewAnswer { granted })
}

/// Returns the day that `digits` encode.
fn day(digits: &str) -> Option<Day> {
    Day::read(digits.as_bytes()).ok()
}
