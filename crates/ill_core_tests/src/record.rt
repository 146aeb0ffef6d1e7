//! Builds the record of a side from the words of the input.

use crate::messages::{day, message, next_number, number};
use crate::states::{Role, state_of};
use ill_core::{Requester, Responder, State};
use ill_test_kit::octet_in;
use ill_values::{Apdu, Body, Day, Number, TxnId};
use std::alloc::Global;

/// The parts that the readers of a side return, except its transaction, request and messages. A part that the role
/// lacks is `None` or false.
#[derive(Clone, Copy, PartialEq, Eq)]
pub struct Readings {
    /// The state.
    pub state: State,
    /// The number of the conditions that a requester holds.
    pub held: Option<Number>,
    /// The number of the conditions to which a responder has no answer yet.
    pub outstanding: Option<Number>,
    /// The number of the conditions that were accepted last.
    pub accepted: Option<Number>,
    /// The number of the last Cancel that a responder has taken.
    pub last_cancel: Option<Number>,
    /// The number of the last Renew that a responder has taken.
    pub last_renew: Option<Number>,
    /// The due date.
    pub due: Option<Day>,
    /// True if the item was received.
    pub is_received: bool,
    /// True if a requester has declined the conditions.
    pub is_declined: bool,
    /// True if a requester has taken a Checked-In.
    pub is_checked_in: bool,
}

/// A record of either role, with the results that its readers must return. If memory runs out, it lacks a message.
pub struct Record {
    /// The parts of the record.
    pub readings: Readings,
    /// The request that the side has taken, if there is one.
    pub request: Vec<Apdu>,
    /// The messages that the side has issued.
    pub messages: Vec<Apdu>,
    /// True if all its words could be read.
    pub is_readable: bool,
    /// The words of its messages, and of those that it must lack.
    words: String,
    /// The messages that its state requires.
    wanted: &'static [&'static str],
    /// The message that its state requires at the end of the list.
    last: &'static str,
}

/// The body is written out instead of derived, so that each owner of a record calls it.
impl Drop for Record {
    fn drop(self) {
        let Record {
            readings: _,
            request: _request,
            messages: _messages,
            is_readable: _,
            words: _words,
            wanted: _,
            last: _,
        } = self;
    }
}

impl Readings {
    /// Returns the readings of a side in `state` that has no other part.
    pub fn none(state: State) -> Readings {
        Readings {
            state,
            held: None,
            outstanding: None,
            accepted: None,
            last_cancel: None,
            last_renew: None,
            due: None,
            is_received: false,
            is_declined: false,
            is_checked_in: false,
        }
    }

    /// Changes the readings as the issue of a message with this body does.
    fn follow(&mut self, body: &Body) {
        match body {
            Body::ConditionalReply { answers, yes: true } => self.accepted = Some(*answers),
            Body::ConditionalReply { yes: false, .. } => self.is_declined = true,
            Body::Received => self.is_received = true,
            Body::Shipped { due } => self.due = Some(*due),
            Body::RenewAnswer {
                granted: Some(due),
                ..
            } => self.due = Some(*due),
            _ => {}
        }
    }
}

impl Record {
    /// Returns the record in `state` that has the parts that `past` names, and those that the state requires.
    pub fn of(alloc: Global, role: Role, state: State, past: &str) -> Record {
        let mut record = Record::empty(alloc, state);
        match role {
            Role::Requester => record.want_as_requester(alloc, past),
            Role::Responder => record.want_as_responder(alloc),
        }
        record.add(alloc, past);
        record.push_wanted(alloc);
        let last = record.last;
        record.push(alloc, last);
        record
    }

    /// Returns a record in `state` that has no other part.
    pub fn empty(alloc: Global, state: State) -> Record {
        Record {
            readings: Readings::none(state),
            request: Vec::new(alloc),
            messages: Vec::new(alloc),
            is_readable: true,
            words: String::new(alloc),
            wanted: &[],
            last: "",
        }
    }

    /// Returns the requester with these parts, or `None` if no requester has them.
    pub fn into_requester(self, txn: TxnId) -> Option<Requester> {
        let Record {
            readings,
            request: _request,
            messages,
            is_readable: _,
            words: _words,
            wanted: _,
            last: _,
        } = self;
        let (state, is_checked_in) = (readings.state, readings.is_checked_in);
        Requester::of_parts(
            txn,
            state,
            readings.held,
            is_checked_in,
            readings.due,
            messages,
        )
    }

    /// Returns the responder with these parts, or `None` if no responder has them.
    pub fn into_responder(self, txn: TxnId) -> Option<Responder> {
        let Record {
            readings,
            mut request,
            messages,
            is_readable: _,
            words: _words,
            wanted: _,
            last: _,
        } = self;
        Responder::of_parts(
            txn,
            readings.state,
            readings.accepted,
            readings.last_cancel,
            readings.last_renew,
            readings.is_received,
            request.pop(),
            messages,
        )
    }

    /// Returns the results that the readers must return. In CONDITIONAL the last message of a responder names the
    /// outstanding conditions. Only in CONDITIONAL a requester can be declined.
    pub fn expected(&self, role: Role) -> Readings {
        let mut readings = self.readings;
        match (role, readings.state) {
            (Role::Requester, State::Conditional) => {}
            (Role::Responder, State::Conditional) => {
                readings.outstanding = next_number(self.messages.len().saturating_sub(1));
            }
            _ => readings.is_declined = false,
        }
        readings
    }

    /// Sets the parts that the state of a requester requires. The request is among them, unless `past` begins with
    /// `only` or leaves the request out.
    fn want_as_requester(&mut self, alloc: Global, past: &str) {
        self.wanted = match self.readings.state {
            State::CancelPending | State::Cancelled => &["c"],
            State::Received | State::Overdue => &["r"],
            State::RenewPending | State::RenewOverdue => &["r", "w"],
            State::Returned => &["r", "b"],
            _ => &[],
        };
        match self.readings.state {
            State::Idle => return,
            State::Conditional => self.readings.held = Number::new(4),
            state => if is_shipped(state) {
                self.readings.due = day("20250315")
            },
        }
        if !past.starts_with("only") && past != "without=q" {
            self.push(alloc, "q");
        }
    }

    /// Sets the parts that the state of a responder requires.
    fn want_as_responder(&mut self, alloc: Global) {
        match self.readings.state {
            State::Idle => return,
            State::Conditional => self.last = "1",
            State::CancelPending | State::Cancelled => self.readings.last_cancel = Number::new(2),
            State::RenewPending | State::RenewOverdue => self.readings.last_renew = Number::new(3),
            State::CheckedIn => self.wanted = &["s", "k"],
            _ => {}
        }
        if is_shipped(self.readings.state) {
            self.wanted = &["s"];
        }
        self.set_request(alloc, "1:q");
    }

    /// Adds the parts and messages that `words` encode.
    pub fn add(&mut self, alloc: Global, words: &str) {
        for word in words.split_whitespace() {
            match word.split_once('=') {
                Some((name, value)) => self.set(alloc, name, value),
                None => self.push(alloc, word),
            }
        }
    }

    /// Sets the part whose name begins with the first letter of `name`. No two parts begin with the same letter.
    fn set(&mut self, alloc: Global, name: &str, value: &str) {
        let readings = &mut self.readings;
        match name.as_bytes().first() {
            Some(b'h') => readings.held = number(value),
            Some(b'a') => readings.accepted = number(value),
            Some(b'c') => readings.last_cancel = number(value),
            Some(b'r') => readings.last_renew = number(value),
            Some(b'd') => readings.due = day(value),
            Some(b'b') => readings.is_checked_in = value == "yes",
            Some(b'm') => readings.is_received = value == "yes",
            Some(b's') => readings.state = state_of(value),
            Some(b't') => self.set_request(alloc, value),
            Some(b'u') => self.fill(alloc, value),
            Some(b'w') => self.leave_out(value),
            _ => self.is_readable = false,
        }
    }

    /// Sets the request to the message that `word` encodes.
    fn set_request(&mut self, alloc: Global, word: &str) {
        self.request.clear();
        if let Some(apdu) = message(alloc, word, None) {
            let _ = self.request.push(apdu);
        }
    }

    /// Adds the message that `word` encodes, or obeys `word` if it encodes none.
    fn push(&mut self, alloc: Global, word: &str) {
        match message(alloc, word, next_number(self.messages.len())) {
            Some(apdu) => {
                self.readings.follow(&apdu.body);
                self.leave_out(word);
                let _ = self.messages.push(apdu);
            }
            None => self.obey(word),
        }
    }

    /// Adds `word` to the words, so that no message of its letter is required any more.
    fn leave_out(&mut self, word: &str) {
        let _ = self.words.push(' ');
        let _ = self.words.push_str(word);
    }

    /// Returns true if the record has a message of this letter, or must lack it.
    fn has(&self, letter: &str) -> bool {
        for word in self.words.split_whitespace() {
            if word.starts_with(letter) {
                return true;
            }
        }
        false
    }

    /// Obeys a word that is no message. After `only` no message is required.
    fn obey(&mut self, word: &str) {
        match word {
            "" | "new" => {}
            "only" => {
                self.wanted = &[];
                self.last = "";
            }
            _ => self.is_readable = false,
        }
    }

    /// Adds each required message that is missing.
    fn push_wanted(&mut self, alloc: Global) {
        let wanted = self.wanted;
        self.wanted = &[];
        for letter in wanted {
            if !self.has(letter) {
                self.push(alloc, letter);
            }
        }
    }

    /// Adds copies of a message up to a count. The value `255,y2` adds y2 until there are 255 messages, the required
    /// ones included.
    fn fill(&mut self, alloc: Global, value: &str) {
        let (count, word) = value.split_once(',').unwrap_or((value, ""));
        let count = octet_in(count).unwrap_or(0);
        self.push_wanted(alloc);
        let present = self.messages.len().saturating_add(self.last.len());
        for _ in present..usize::from(count) {
            self.push(alloc, word);
        }
    }
}

/// Returns true if `state` is SHIPPED or later, in either role.
fn is_shipped(state: State) -> bool {
    match state {
        State::Shipped
        | State::Received
        | State::RenewPending
        | State::Overdue
        | State::RenewOverdue
        | State::NotReceivedOverdue
        | State::Recall
        | State::Returned => true,
        _ => false,
    }
}
