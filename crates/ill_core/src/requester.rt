//! Defines the requester: its record, its wishes and its answers to messages.

mod actions;
mod deliveries;
mod rules;
pub(crate) mod standing;

ghost use Rattle.std.specs.Prelude.{◌≡◌, ◌≤◌, ◌↔◌, [], None, Err, true, false, length, if◌then◌else◌, IsSome, IfSome, option_map};
ghost use Rattle.ill_core.specs.declared.state.State.TheVariants as State;
ghost use Rattle.ill_core.specs.declared.refusal.Refusal.TheVariants as refusals;
ghost use Rattle.ill_core.specs.State.{is_among};
ghost use Rattle.ill_core.specs.Issued.{message};
ghost use Rattle.ill_core.specs.Requester.{RequesterRecord, requester_of, standing_of, back_to, IsRequester, accepted_number, is_declined, is_received_by, later};
ghost use Rattle.ill_core.specs.RequesterActions.{Acts, acts};
ghost use Rattle.ill_core.specs.RequesterDeliveries.{Takes};
ghost use Rattle.ill_core.specs.declared.turn.Turn.TheVariants.{Mine};
ghost use Rattle.ill_core.specs.Verbs.{wish_verb, is_verb_among, is_now, requester_verbs, requester_turn};

use crate::issued::{Issued, Sought, are_numbered, has_declined, has_received};
use crate::refusal::Refusal;
use crate::state::State;
use crate::taking::Taking;
use crate::turn::Turn;
use crate::verb::Verb;
use ill_values::{Apdu, Day, Item, Number, TxnId};
use standing::Standing;
use std::alloc::Global;
use std::marker::Model;

/// The record of the side that asks for an item.
#[derive(Debug, Drop)]
pub struct Requester {
    standing: Standing,
    issued: Issued,
}

/// A decision of a requester's library.
#[derive(Debug, PartialEq, Eq, Drop)]
pub enum Wish {
    /// Asks for an item by an ILL-Request.
    Request {
        /// The last day of the request, if it may expire.
        expiry: Option<Day>,
        /// The item to ask for.
        item: Item,
    },
    /// Asks the responder to cancel the request.
    Cancel,
    /// Accepts or declines the responder's conditions by a Conditional-Reply.
    Reply {
        /// True if the conditions are accepted.
        yes: bool,
    },
    /// Tells the responder that the item has arrived.
    Receive,
    /// Asks the responder for a later due date.
    Renew {
        /// The due date that the library would like, if it names one.
        wished: Option<Day>,
    },
    /// Tells the responder that the item was sent back.
    Return,
}

impl Wish {
    /// Returns the verb of the wish.
    pub fn verb(&self) -> Verb
        ensures { result ≡ wish_verb self.now }
    {
        match self {
            Wish::Request { .. } => Verb::Request,
            Wish::Cancel => Verb::Cancel,
            Wish::Reply { .. } => Verb::Reply,
            Wish::Receive => Verb::Receive,
            Wish::Renew { .. } => Verb::Renew,
            Wish::Return => Verb::Return,
        }
    }
}

/// The value of a requester is its record, which satisfies the rules of a requester.
impl Model for Requester {
    ghost Value = { RequesterRecord };

    ghost view = { λ r. requester_of r.issued.txn r.standing.state r.standing.held
        r.standing.checked_in r.standing.due r.issued.apdus };

    ghost invariant = { λ r. IsRequester
        (requester_of r.issued.txn r.standing.state r.standing.held
        r.standing.checked_in r.standing.due r.issued.apdus) };
}

impl Requester {
    /// Returns a requester in IDLE, which has issued and taken nothing. It keeps `alloc` for its list.
    #[tactic(auto, unfolding(crate::specs::Issued::are_numbered, crate::specs::Requester::is_consistent))]
    pub fn idle(alloc: Global, txn: TxnId) -> Requester
        ensures { result ≡ requester_of txn State.Idle None false None [] }
    {
        Requester {
            standing: Standing {
                state: State::Idle,
                held: None,
                checked_in: false,
                due: None,
            },
            issued: Issued::none(alloc, txn),
        }
    }

    /// Returns the requester with these parts, or `None` if they break its rules.
    #[tactic(auto, unfolding(crate::specs::Requester::is_consistent))]
    pub fn of_parts(
        txn: TxnId,
        state: State,
        held: Option<Number>,
        checked_in: bool,
        due: Option<Day>,
        issued: Vec<Apdu>,
    ) -> Option<Requester>
        ensures some { IsSome result ↔
            IsRequester (requester_of txn state held checked_in due issued.items) }
        ensures value { IfSome result
            (λ r. r ≡ requester_of txn state held checked_in due issued.items) }
    {
        let standing = Standing {
            state,
            held,
            checked_in,
            due,
        };
        if !are_numbered(&txn, &issued) {
            return None;
        }
        if !rules::fit_together(&standing, &issued) {
            return None;
        }
        Some(Requester {
            standing,
            issued: Issued::of_numbered(txn, issued),
        })
    }

    /// Restores `standing` and the first `count` messages, and returns true, if they satisfy the rules together.
    /// Otherwise it returns false, and nothing changes.
    pub fn go_back(&mut self, standing: Standing, count: u8) -> bool
        ensures fits { (result ≡ true) ↔ IsRequester (back_to standing count self.old) }
        ensures back { self.new ≡ (if result then back_to standing count self.old else self.old) }
    {
        if !self.could_stand(&standing, count) {
            return false;
        }
        self.issued.go_back(count);
        self.standing = standing;
        true
    }

    /// Returns true if `standing` and the first `count` messages satisfy the rules together.
    #[tactic(auto, using(crate::proofs::Rules::requester_back, crate::proofs::Rules::requester_back_fits))]
    fn could_stand(&self, standing: &Standing, count: u8) -> bool
        ensures { (result ≡ true) ↔ IsRequester (back_to standing.now count self.now) }
    {
        rules::fit_together(standing, self.issued.prefix(count))
    }

    /// Performs the decision `wish` of the library, and issues the message to the responder.
    ///
    /// The refusals are `NotNow`, then `NumbersUsed`, then `OutOfMemory`. A refusal changes nothing.
    pub fn act(&mut self, alloc: Global, wish: &Wish) -> Result<(), Refusal>
        ensures { Acts self.old wish.now result self.new }
    {
        let Some(row) = actions::row_of(self, wish) else {
            return Err(Refusal::NotNow(self.standing.state));
        };
        let number = self.issued.next_number()?;
        let body = actions::body_of(self, alloc, wish)?;
        let standing = self.standing.after(row, number, None);
        self.issued.issue(alloc, number, body)?;
        self.standing = standing;
        Ok(())
    }

    /// Takes a message of the responder, and returns the answer. A refusal changes nothing. A delivery takes no memory.
    pub fn take(&mut self, apdu: &Apdu) -> Result<Taking, Refusal>
        ensures takes { Takes self.old apdu.now result self.new }
        ensures memory { result ≡ Err refusals.OutOfMemory → ⊥ }
    {
        self.issued.admit(apdu, apdu.body.is_requesters())?;
        Ok(deliveries::take_message(self, apdu))
    }

    /// Returns the id of the transaction.
    pub fn txn(&self) -> &TxnId
        ensures { result.now ≡ self.now.txn }
    {
        self.issued.txn()
    }

    /// Returns the standing of the requester.
    pub fn standing(&self) -> Standing
        ensures value { result ≡ standing_of self.now }
        ensures requester { IsRequester self.now }
    {
        self.standing
    }

    /// Returns the present state.
    pub fn state(&self) -> State
        ensures value { result ≡ self.now.state }
        ensures requester { IsRequester self.now }
    {
        self.standing.state
    }

    /// Returns the day on which the item is due, or `None` if it was not shipped.
    pub fn due(&self) -> Option<Day>
        ensures { result ≡ self.now.due }
    {
        self.standing.due
    }

    /// Returns the number of messages that the requester has issued: 0 to 255.
    pub fn issued_count(&self) -> u8
        ensures { result ≡ length self.now.issued }
    {
        self.issued.count()
    }

    /// Returns the messages that the requester has issued, in order: the n-th has number n.
    pub fn all_issued(&self) -> &[Apdu]
        ensures value { result.now ≡ self.now.issued }
        ensures few { length self.now.issued ≤ 255 }
    {
        self.issued.apdus()
    }

    /// Returns the message with this number that the requester issued, or `None`.
    pub fn issued(&self, number: Number) -> Option<&Apdu>
        ensures { option_map (λ a. a.now) result ≡ message self.now.issued number }
    {
        self.issued.get(number)
    }

    /// Returns true if the requester has issued a Received.
    pub fn is_received(&self) -> bool
        ensures { result ≡ is_received_by self.now }
    {
        has_received(self.issued.apdus())
    }

    /// Returns the number of the ILL-Answer whose conditions were accepted last, or `None`.
    pub fn accepted(&self) -> Option<Number>
        ensures { result ≡ accepted_number self.now }
    {
        self.issued.last(Sought::Accepted)
    }

    /// Returns the number of the ILL-Answer whose conditions are held, or `None` outside CONDITIONAL.
    pub fn held(&self) -> Option<Number>
        ensures { result ≡ self.now.held }
    {
        self.standing.held
    }

    /// Returns true if the conditions that are held were declined.
    pub fn is_declined(&self) -> bool
        ensures { result ≡ is_declined self.now }
    {
        self.standing.state == State::Conditional && has_declined(self.issued.apdus())
    }

    /// Returns true if the responder has said that the item is back.
    pub fn is_checked_in(&self) -> bool
        ensures { result ≡ self.now.checked_in }
    {
        self.standing.checked_in
    }

    /// Returns the verbs of all wishes that `act` does not refuse as `NotNow`. It may still refuse them as
    /// `NumbersUsed` or `OutOfMemory`.
    pub fn verbs(&self) -> &'static [Verb]
        ensures value { result.now ≡ requester_verbs self.now }
        ensures exact { (wish : Wish) →
            is_verb_among result.now (wish_verb wish) ≡ is_now (acts self.now wish) }
    {
        match self.standing.state {
            State::Idle => &[Verb::Request],
            State::Pending => &[Verb::Cancel],
            State::Conditional if !self.is_declined() => &[Verb::Reply],
            State::Shipped | State::NotReceivedOverdue => &[Verb::Receive],
            State::Received | State::Overdue => &[Verb::Renew, Verb::Return],
            State::RenewPending | State::RenewOverdue => &[Verb::Return],
            State::Recall if self.is_received() => &[Verb::Return],
            State::Recall => &[Verb::Receive],
            _ => &[],
        }
    }

    /// Returns the turn, as far as the record shows. In its own turn the requester has a verb.
    pub fn turn(&self) -> Turn
        ensures value { result ≡ requester_turn self.now }
        ensures mine { result ≡ Mine → requester_verbs self.now ≡ [] → ⊥ }
    {
        match self.standing.state {
            State::Conditional if self.is_declined() => Turn::Theirs,
            State::Idle
            | State::Conditional
            | State::Shipped
            | State::Received
            | State::Overdue
            | State::NotReceivedOverdue
            | State::Recall => Turn::Mine,
            State::Pending | State::CancelPending | State::RenewPending | State::RenewOverdue => {
                Turn::Theirs
            }
            State::Returned if !self.standing.checked_in => Turn::Theirs,
            _ => Turn::Over,
        }
    }
}

/// Returns true if `state` is SHIPPED or later.
fn is_later(state: State) -> bool
    ensures { result ≡ is_among later state }
{
    matches!(
        state,
        State::Shipped
            | State::Received
            | State::RenewPending
            | State::Overdue
            | State::RenewOverdue
            | State::NotReceivedOverdue
            | State::Recall
            | State::Returned
    )
}
