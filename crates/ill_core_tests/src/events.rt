//! Reads the events that happen to a side.

use crate::messages::{body_of, day, message};
use ill_core::{Deed, Verb, Wish};
use ill_values::{Apdu, Body, Day};
use std::alloc::Global;

/// An event of a side, or a question to it.
pub enum Event {
    /// Nothing happens, and the readers of the side are called.
    Reading,
    /// Nothing happens, and the side is asked whose turn it is.
    Turn,
    /// Nothing happens, and the side is asked if it has this verb.
    May(Verb),
    /// The library of a requester wishes this.
    Wish(Wish),
    /// The library of a responder does this deed on this day.
    Deed(Deed, Day),
    /// A message of the other side arrives.
    Delivery(Apdu),
    /// The text names no event.
    Unknown,
}

/// The body is written out instead of derived, so that each owner of an event calls it.
impl Drop for Event {
    fn drop(self) {
        match self {
            Event::Reading => {}
            Event::Turn => {}
            Event::May(_) => {}
            Event::Wish(_wish) => {}
            Event::Deed(_, _) => {}
            Event::Delivery(_apdu) => {}
            Event::Unknown => {}
        }
    }
}

impl Event {
    /// Returns the event that `text` names: a reading, a question, or a message that arrives. A wish is named by the
    /// message that it issues. A deed is named by its day and the message that it issues.
    pub fn read(alloc: Global, text: &str) -> Event {
        let (word, rest) = text.split_once(' ').unwrap_or((text, ""));
        let event = match word {
            "read" => Some(Event::Reading),
            "turn" => Some(Event::Turn),
            "may" => Verb::read(rest.as_bytes()).map(Event::May),
            "take" => delivery(alloc, rest),
            "do" => wish(alloc, rest),
            _ => deed(alloc, day(word), rest),
        };
        event.unwrap_or(Event::Unknown)
    }

    /// Returns the letter of the answer if there is no side to which the event can happen.
    pub fn absent(&self) -> &'static str {
        match self {
            Event::Reading => "n",
            _ => ".",
        }
    }
}

/// Returns the delivery of the message that `word` encodes.
fn delivery(alloc: Global, word: &str) -> Option<Event> {
    Some(Event::Delivery(message(alloc, word, None)?))
}

/// Returns the wish that issues the message that `word` encodes.
fn wish(alloc: Global, word: &str) -> Option<Event> {
    Some(Event::Wish(match body_of(alloc, word)? {
        Body::IllRequest { expiry, item } => Wish::Request { expiry, item },
        Body::Cancel => Wish::Cancel,
        Body::ConditionalReply { yes, .. } => Wish::Reply { yes },
        Body::Received => Wish::Receive,
        Body::Renew { wished } => Wish::Renew { wished },
        Body::Returned => Wish::Return,
        _ => return None,
    }))
}

/// Returns the deed that issues the message that `word` encodes, on the day `today`.
fn deed(alloc: Global, today: Option<Day>, word: &str) -> Option<Event> {
    let deed = match body_of(alloc, word)? {
        Body::IllAnswer { result } => Deed::Answer(result),
        Body::CancelReply { yes, .. } => Deed::CancelReply { yes },
        Body::Shipped { due } => Deed::Ship { due },
        Body::RenewAnswer { granted, .. } => Deed::RenewAnswer { granted },
        Body::Overdue { .. } => Deed::Overdue,
        Body::Recall => Deed::Recall,
        Body::CheckedIn => Deed::CheckIn,
        Body::Expired => Deed::Expire,
        _ => return None,
    };
    Some(Event::Deed(deed, today?))
}
