//! Defines the responder: its record, its deeds and its answers to messages.

mod actions;
mod deliveries;
mod rules;
pub(crate) mod standing;

ghost use Rattle.std.specs.Prelude.{◌≡◌, ◌≤◌, ◌↔◌, [], None, true, false, length, if◌then◌else◌, is_some, IsSome, IfSome, option_map};
ghost use Rattle.ill_core.specs.declared.state.State.TheVariants as State;
ghost use Rattle.ill_core.specs.State.{is_among};
ghost use Rattle.ill_core.specs.Issued.{message};
ghost use Rattle.ill_core.specs.Responder.{ResponderRecord, responder_of, standing_of, back_to, request_in, IsResponder, due_of, outstanding_number, end_number, later};
ghost use Rattle.ill_core.specs.ResponderActions.{Acts, acts};
ghost use Rattle.ill_core.specs.ResponderDeliveries.{Takes};
ghost use Rattle.ill_values.specs.Day.{Date};
ghost use Rattle.ill_core.specs.declared.turn.Turn.TheVariants.{Mine};
ghost use Rattle.ill_core.specs.Verbs.{deed_verb, is_verb_among, is_now, responder_verbs, responder_turn};

use crate::issued::{Issued, Sought, are_numbered};
use crate::refusal::Refusal;
use crate::state::State;
use crate::taking::Taking;
use crate::turn::Turn;
use crate::verb::Verb;
use ill_values::{AnswerResult, Apdu, Body, Day, Number, TxnId};
use standing::Standing;
use std::alloc::Global;
use std::marker::Model;

/// The record of the side that is asked for an item.
#[derive(Debug, Drop)]
pub struct Responder {
    standing: Standing,
    request: Option<Apdu>,
    issued: Issued,
}

/// A decision of a responder's library.
#[derive(Clone, Copy, Debug, PartialEq, Eq, Hash)]
pub enum Deed {
    /// Answers the request by an ILL-Answer with this result.
    Answer(AnswerResult),
    /// Agrees to the last Cancel or refuses it.
    CancelReply {
        /// True if the request is cancelled.
        yes: bool,
    },
    /// Sends the item.
    Ship {
        /// The day on which the item is due: today or later.
        due: Day,
    },
    /// Grants the last Renew or refuses it.
    RenewAnswer {
        /// The new due date, if the answer is yes. Without a date the answer is no.
        granted: Option<Day>,
    },
    /// Tells the requester that the due date has passed.
    Overdue,
    /// Asks for the item back at once.
    Recall,
    /// Tells the requester that the item is back.
    CheckIn,
    /// Ends a request whose expiry date has passed.
    Expire,
}

impl Deed {
    /// Returns the verb of the deed.
    pub fn verb(&self) -> Verb
        ensures { result ≡ deed_verb self.now }
    {
        match self {
            Deed::Answer(_) => Verb::Answer,
            Deed::CancelReply { .. } => Verb::CancelReply,
            Deed::Ship { .. } => Verb::Ship,
            Deed::RenewAnswer { .. } => Verb::RenewAnswer,
            Deed::Overdue => Verb::Overdue,
            Deed::Recall => Verb::Recall,
            Deed::CheckIn => Verb::CheckIn,
            Deed::Expire => Verb::Expire,
        }
    }
}

/// The value of a responder is its record, which satisfies the rules of a responder.
impl Model for Responder {
    ghost Value = { ResponderRecord };

    ghost view = { λ r. responder_of r.issued.txn r.standing.state r.standing.accepted
        r.standing.last_cancel r.standing.last_renew r.standing.received r.request
        r.issued.apdus };

    ghost invariant = { λ r. IsResponder
        (responder_of r.issued.txn r.standing.state r.standing.accepted r.standing.last_cancel
        r.standing.last_renew r.standing.received r.request r.issued.apdus) };
}

impl Responder {
    /// Returns a responder in IDLE, which has issued and taken nothing. It keeps `alloc` for its list.
    #[tactic(auto, unfolding(crate::specs::Issued::are_numbered, crate::specs::Responder::rise_from, crate::specs::Responder::ships_first, crate::specs::Responder::is_consistent))]
    pub fn idle(alloc: Global, txn: TxnId) -> Responder
        ensures { result ≡ responder_of txn State.Idle None None None false None [] }
    {
        Responder {
            standing: Standing {
                state: State::Idle,
                accepted: None,
                last_cancel: None,
                last_renew: None,
                received: false,
            },
            request: None,
            issued: Issued::none(alloc, txn),
        }
    }

    /// Returns the responder with these parts, or `None` if they break its rules.
    #[tactic(auto, unfolding(crate::specs::Responder::is_consistent))]
    pub fn of_parts(
        txn: TxnId,
        state: State,
        accepted: Option<Number>,
        last_cancel: Option<Number>,
        last_renew: Option<Number>,
        received: bool,
        request: Option<Apdu>,
        issued: Vec<Apdu>,
    ) -> Option<Responder>
        ensures some { IsSome result ↔
            IsResponder (responder_of txn state accepted last_cancel last_renew received request
            issued.items) }
        ensures value { IfSome result
            (λ r. r ≡ responder_of txn state accepted last_cancel last_renew received request
            issued.items) }
    {
        let standing = Standing {
            state,
            accepted,
            last_cancel,
            last_renew,
            received,
        };
        if !are_numbered(&txn, &issued) {
            return None;
        }
        if !rules::is_request_of(&txn, &request) {
            return None;
        }
        if !rules::fit_together(&standing, request.is_some(), &issued) {
            return None;
        }
        Some(Responder {
            standing,
            request,
            issued: Issued::of_numbered(txn, issued),
        })
    }

    /// Restores `standing` and the first `count` messages, and returns true, if they satisfy the rules together. In
    /// IDLE the request is dropped. Otherwise it returns false, and nothing changes.
    pub fn go_back(&mut self, standing: Standing, count: u8) -> bool
        ensures fits { (result ≡ true) ↔ IsResponder (back_to standing count self.old) }
        ensures back { self.new ≡ (if result then back_to standing count self.old else self.old) }
    {
        if !self.could_stand(&standing, count) {
            return false;
        }
        drop_in_idle(standing.state, &mut self.request);
        self.issued.go_back(count);
        self.standing = standing;
        true
    }

    /// Returns true if `standing` and the first `count` messages satisfy the rules together.
    #[tactic(auto, using(crate::proofs::Rules::responder_back, crate::proofs::Rules::responder_back_fits))]
    fn could_stand(&self, standing: &Standing, count: u8) -> bool
        ensures { (result ≡ true) ↔ IsResponder (back_to standing.now count self.now) }
    {
        let is_asked = is_asked_in(standing.state, &self.request);
        rules::fit_together(standing, is_asked, self.issued.prefix(count))
    }

    /// Performs the decision `deed` of the library on the day `today`, and issues the message to the requester.
    ///
    /// The refusals are `NotNow`, then that of a date, then `NumbersUsed`, then `OutOfMemory`. A refusal changes
    /// nothing.
    pub fn act(&mut self, alloc: Global, deed: &Deed, today: Day) -> Result<(), Refusal>
        ensures { Acts self.old deed.now today result self.new }
    {
        let state = self.standing.state;
        let Some(row) = actions::row_of(state, deed) else {
            return Err(Refusal::NotNow(state));
        };
        actions::check_date(self, deed, today)?;
        let number = self.issued.next_number()?;
        let body = actions::body_of(self, deed);
        self.issued.issue(alloc, number, body)?;
        self.standing = self.standing.after(row, number);
        Ok(())
    }

    /// Takes a message of the requester, and returns the answer. A refusal changes nothing.
    ///
    /// Two messages take memory: the ILL-Request, which is kept, and a Conditional-Reply no. The latter is answered
    /// with an ILL-Answer unfilled.
    pub fn take(&mut self, alloc: Global, apdu: &Apdu) -> Result<Taking, Refusal>
        ensures { Takes self.old apdu.now result self.new }
    {
        self.issued.admit(apdu, !apdu.body.is_requesters())?;
        deliveries::take_message(self, alloc, apdu)
    }

    /// Returns the id of the transaction.
    pub fn txn(&self) -> &TxnId
        ensures { result.now ≡ self.now.txn }
    {
        self.issued.txn()
    }

    /// Returns the standing of the responder.
    pub fn standing(&self) -> Standing
        ensures value { result ≡ standing_of self.now }
        ensures responder { IsResponder self.now }
    {
        self.standing
    }

    /// Returns the present state.
    pub fn state(&self) -> State
        ensures value { result ≡ self.now.state }
        ensures responder { IsResponder self.now }
    {
        self.standing.state
    }

    /// Returns the day on which the item is due, or `None` if it was not shipped. The day is the date of the last
    /// Shipped or Renew-Answer yes.
    pub fn due(&self) -> Option<Day>
        ensures { result ≡ due_of self.now }
    {
        self.issued.granted()
    }

    /// Returns the number of messages that the responder has issued: 0 to 255.
    pub fn issued_count(&self) -> u8
        ensures { result ≡ length self.now.issued }
    {
        self.issued.count()
    }

    /// Returns the messages that the responder has issued, in order: the n-th has number n.
    pub fn all_issued(&self) -> &[Apdu]
        ensures value { result.now ≡ self.now.issued }
        ensures few { length self.now.issued ≤ 255 }
    {
        self.issued.apdus()
    }

    /// Returns the message with this number that the responder issued, or `None`.
    pub fn issued(&self, number: Number) -> Option<&Apdu>
        ensures { option_map (λ a. a.now) result ≡ message self.now.issued number }
    {
        self.issued.get(number)
    }

    /// Returns true if the responder has taken a Received.
    pub fn is_received(&self) -> bool
        ensures { result ≡ self.now.received }
    {
        self.standing.received
    }

    /// Returns the number of the ILL-Answer whose conditions the requester accepted last, or `None`.
    pub fn accepted(&self) -> Option<Number>
        ensures { result ≡ self.now.accepted }
    {
        self.standing.accepted
    }

    /// Returns the number of the ILL-Answer whose conditions wait for a reply, or `None` outside CONDITIONAL.
    pub fn outstanding(&self) -> Option<Number>
        ensures { result ≡ outstanding_number self.now }
    {
        match self.standing.state {
            State::Conditional => Number::new(self.issued.count()),
            _ => None,
        }
    }

    /// Returns the number of the last Cancel that was taken, or `None`.
    pub fn last_cancel(&self) -> Option<Number>
        ensures { result ≡ self.now.last_cancel }
    {
        self.standing.last_cancel
    }

    /// Returns the number of the last Renew that was taken, or `None`.
    pub fn last_renew(&self) -> Option<Number>
        ensures { result ≡ self.now.last_renew }
    {
        self.standing.last_renew
    }

    /// Returns the number of the message that ended the request, or `None`. It is a final ILL-Answer, an Expired, a
    /// Cancel-Reply yes, or a Shipped. One arrival of this message is enough for the requester.
    pub fn ending(&self) -> Option<Number>
        ensures { result ≡ end_number self.now }
    {
        self.issued.last(Sought::EndNumber)
    }

    /// Returns the ILL-Request that was taken, or `None`.
    pub fn request(&self) -> Option<&Apdu>
        ensures { option_map (λ a. a.now) result ≡ self.now.request }
    {
        self.request.as_ref()
    }

    /// Returns the verbs of all deeds that `act` does not refuse as `NotNow`. It may still refuse them for a date, as
    /// `NumbersUsed` or as `OutOfMemory`.
    pub fn verbs(&self) -> &'static [Verb]
        ensures value { result.now ≡ responder_verbs self.now }
        ensures exact { (deed : Deed) (today : Date) →
            is_verb_among result.now (deed_verb deed) ≡ is_now (acts self.now deed today) }
    {
        match self.standing.state {
            State::InProcess => &[Verb::Answer, Verb::Ship, Verb::Expire],
            State::Conditional => &[Verb::Expire],
            State::CancelPending => &[Verb::CancelReply],
            State::Shipped => &[Verb::Overdue, Verb::Recall],
            State::RenewPending => &[Verb::RenewAnswer, Verb::Overdue],
            State::Overdue => &[Verb::Recall],
            State::RenewOverdue => &[Verb::RenewAnswer],
            State::Returned => &[Verb::CheckIn],
            _ => &[],
        }
    }

    /// Returns the turn, as far as the record shows. In its own turn the responder has a verb.
    pub fn turn(&self) -> Turn
        ensures value { result ≡ responder_turn self.now }
        ensures mine { result ≡ Mine → responder_verbs self.now ≡ [] → ⊥ }
    {
        match self.standing.state {
            State::InProcess
            | State::CancelPending
            | State::RenewPending
            | State::RenewOverdue
            | State::Returned => Turn::Mine,
            State::Idle | State::Conditional | State::Shipped | State::Overdue | State::Recall =>
                Turn::Theirs,
            _ => Turn::Over,
        }
    }
}

/// Returns true if a responder in `state` has a request: outside IDLE, and `request` is there.
fn is_asked_in(state: State, request: &Option<Apdu>) -> bool
    ensures { result ≡ is_some (request_in state request.now) }
{
    state != State::Idle && request.is_some()
}

/// Drops the request if `state` is IDLE.
fn drop_in_idle(state: State, request: &mut Option<Apdu>)
    ensures { request.new ≡ request_in state request.old }
{
    if state == State::Idle {
        *request = None;
    }
}

/// Returns true if `state` is SHIPPED or later.
fn is_later(state: State) -> bool
    ensures { result ≡ is_among later state }
{
    matches!(
        state,
        State::Shipped
            | State::RenewPending
            | State::Overdue
            | State::RenewOverdue
            | State::Recall
            | State::Returned
            | State::CheckedIn
    )
}
