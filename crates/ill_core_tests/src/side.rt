//! Calls the sides of either role.

use crate::events::Event;
use crate::record::{Readings, Record};
use crate::states::Role;
use ill_core::{Refusal, Requester, Responder, State, Taking, Turn, Verb};
use ill_test_kit::marks::{self, quietly};
use ill_values::{Apdu, Number, TxnId};
use std::alloc::Global;

/// The letter of the answer out of memory.
pub const NO_MEMORY: &str = "?";

/// A requester or a responder.
pub enum Side {
    /// The side is a requester.
    Requester(Requester),
    /// The side is a responder.
    Responder(Responder),
}

/// The body is written out instead of derived, so that each owner of a side calls it.
impl Drop for Side {
    fn drop(self) {
        match self {
            Side::Requester(_side) => {}
            Side::Responder(_side) => {}
        }
    }
}

impl Side {
    /// Returns the side in `state` with the parts that `past` names, or `None` if there is no such side. If `past` is
    /// `new`, returns the idle side.
    pub fn of(alloc: Global, role: Role, state: State, past: &str) -> Option<Side> {
        let txn = TxnId::new(alloc, b"G1", b"T1").ok()?;
        let parts = Record::of(alloc, role, state, past);
        quietly(alloc, || match (role, past) {
            (Role::Requester, "new") => Some(Side::Requester(Requester::idle(alloc, txn))),
            (Role::Responder, "new") => Some(Side::Responder(Responder::idle(alloc, txn))),
            (Role::Requester, _) => parts.into_requester(txn).map(Side::Requester),
            (Role::Responder, _) => parts.into_responder(txn).map(Side::Responder),
        })
    }

    /// Returns the state of the side.
    pub fn state(&self) -> State {
        match self {
            Side::Requester(side) => side.state(),
            Side::Responder(side) => side.state(),
        }
    }

    /// Returns whose turn it is.
    fn turn(&self) -> Turn {
        match self {
            Side::Requester(side) => side.turn(),
            Side::Responder(side) => side.turn(),
        }
    }

    /// Returns true if the side has this verb.
    fn may(&self, verb: Verb) -> bool {
        match self {
            Side::Requester(side) => side.verbs().contains(&verb),
            Side::Responder(side) => side.verbs().contains(&verb),
        }
    }

    /// Performs an event or asks a question, and returns the letter of the answer. The letter of a performed action and
    /// of a taken message is `T`. A question mark is out of memory.
    pub fn answer(&mut self, alloc: Global, event: &Event) -> &'static str {
        match event {
            Event::Reading => "y",
            Event::Turn => turn_letter(self.turn()),
            Event::May(verb) => if self.may(*verb) { "y" } else { "n" },
            _ => self.happens(alloc, event),
        }
    }

    /// Performs an event between marks, and returns the letter of the answer. If the role has no such event, returns
    /// `NO CASE`.
    fn happens(&mut self, alloc: Global, event: &Event) -> &'static str {
        let state = self.state();
        match (self, event) {
            (Side::Requester(side), Event::Wish(wish)) => {
                let is_listed = side.verbs().contains(&wish.verb());
                marks::begin(alloc);
                let answer = side.act(alloc, wish);
                unless_refused(alloc, done(answer, state, is_listed))
            }
            (Side::Requester(side), Event::Delivery(apdu)) => {
                taken(quietly(alloc, || side.take(apdu)), state)
            }
            (Side::Responder(side), Event::Deed(deed, today)) => {
                let is_listed = side.verbs().contains(&deed.verb());
                marks::begin(alloc);
                let answer = side.act(alloc, deed, *today);
                unless_refused(alloc, done(answer, state, is_listed))
            }
            (Side::Responder(side), Event::Delivery(apdu)) => {
                marks::begin(alloc);
                let answer = side.take(alloc, apdu);
                unless_refused(alloc, taken(answer, state))
            }
            _ => "NO CASE",
        }
    }

    /// Returns true if each reader of the side returns the part that `record` has. Readers take no memory.
    pub fn shows(&self, alloc: Global, record: &Record) -> bool {
        quietly(alloc, || self.shows_all(record))
    }

    /// Returns true if each reader of the side returns the part that `record` has.
    fn shows_all(&self, record: &Record) -> bool {
        let shows_parts = match self {
            Side::Requester(side) => requester_readings(side) == record.expected(Role::Requester),
            Side::Responder(side) => responder_readings(side) == record.expected(Role::Responder),
        };
        shows_parts
            && record.is_readable
            && self.request() == record.request.first()
            && is_own(self.txn())
            && self.has_issued(&record.messages)
    }

    /// Returns true if the side has issued exactly `messages`.
    fn has_issued(&self, messages: &[Apdu]) -> bool {
        for value in 1..=u8::MAX {
            if self.issued(value) != messages.get(usize::from(value).saturating_sub(1)) {
                return false;
            }
        }
        usize::from(self.issued_count()) == messages.len()
    }

    /// Returns the message that the side has issued with the number `value`.
    fn issued(&self, value: u8) -> Option<&Apdu> {
        let number = Number::new(value)?;
        match self {
            Side::Requester(side) => side.issued(number),
            Side::Responder(side) => side.issued(number),
        }
    }

    /// Returns the count of messages that the side has issued.
    fn issued_count(&self) -> u8 {
        match self {
            Side::Requester(side) => side.issued_count(),
            Side::Responder(side) => side.issued_count(),
        }
    }

    /// Returns the transaction of the side.
    fn txn(&self) -> &TxnId {
        match self {
            Side::Requester(side) => side.txn(),
            Side::Responder(side) => side.txn(),
        }
    }

    /// Returns the request that a responder has taken, if there is one.
    fn request(&self) -> Option<&Apdu> {
        match self {
            Side::Requester(_) => None,
            Side::Responder(side) => side.request(),
        }
    }
}

/// Returns the parts that the readers of a requester return.
fn requester_readings(side: &Requester) -> Readings {
    Readings {
        held: side.held(),
        accepted: side.accepted(),
        due: side.due(),
        is_received: side.is_received(),
        is_declined: side.is_declined(),
        is_checked_in: side.is_checked_in(),
        ..Readings::none(side.state())
    }
}

/// Returns the parts that the readers of a responder return.
fn responder_readings(side: &Responder) -> Readings {
    Readings {
        outstanding: side.outstanding(),
        accepted: side.accepted(),
        last_cancel: side.last_cancel(),
        last_renew: side.last_renew(),
        due: side.due(),
        is_received: side.is_received(),
        ..Readings::none(side.state())
    }
}

/// Ends the marks of a call. Returns a question mark if an allocation was refused and the call said so, and else
/// `letter`.
fn unless_refused(alloc: Global, letter: &'static str) -> &'static str {
    if marks::is_refused(alloc, letter == NO_MEMORY) {
        NO_MEMORY
    } else {
        letter
    }
}

/// Returns true if the transaction is G1, T1.
fn is_own(txn: &TxnId) -> bool {
    txn.group() == b"G1".as_slice() && txn.transaction() == b"T1".as_slice()
}

/// Returns the letter of the answer to an action in `state`. The answer must be `NotNow` if and only if the verb was
/// not listed before. If that is wrong, the letter is V.
fn done(answer: Result<(), Refusal>, state: State, is_listed: bool) -> &'static str {
    let letter = match answer {
        Ok(()) => "T",
        Err(refusal) => refused(refusal, state),
    };
    if is_listed == (letter == "N") {
        "V"
    } else {
        letter
    }
}

/// Returns the letter of a turn.
fn turn_letter(turn: Turn) -> &'static str {
    match turn {
        Turn::Over => "o",
        Turn::Mine => "m",
        Turn::Theirs => "t",
    }
}

/// Returns the letter of the answer to a message in `state`. A question mark follows if the answer names another state.
fn taken(answer: Result<Taking, Refusal>, state: State) -> &'static str {
    match answer {
        Ok(Taking::Taken) => "T",
        Ok(Taking::Repeat) => "R",
        Ok(Taking::Stale) => "S",
        Ok(Taking::Conflict(named)) => if named == state { "C" } else { "C?" },
        Err(refusal) => refused(refusal, state),
    }
}

/// Returns the letter of a refusal in `state`. A question mark follows if the refusal names another state.
fn refused(refusal: Refusal, state: State) -> &'static str {
    match refusal {
        Refusal::OtherTransaction => "O",
        Refusal::WrongRole => "W",
        Refusal::NotNow(named) => if named == state { "N" } else { "N?" },
        Refusal::DateEarlier => "E",
        Refusal::DateNotLater => "L",
        Refusal::NotDue => "U",
        Refusal::NotExpired => "X",
        Refusal::NumbersUsed => "F",
        Refusal::OutOfMemory => NO_MEMORY,
    }
}
