//! One side of a transaction, in either role.

ghost use Rattle.std.specs.Prelude.{◌≡◌, ◌≤◌, [], length, option_map};
ghost use Rattle.ill_values.specs.TxnId.{Qualifiers};
ghost use Rattle.ill_core.specs.declared.turn.Turn.TheVariants.{Mine};
ghost use Rattle.ill_core.specs.Issued.{message};
ghost use Rattle.ill_core.specs.Verbs.{is_verb_among, is_now};
ghost use Rattle.ill_record.specs.Side.{role_for, begins, acts, Acts, Takes, IsConsistent, issued_of, standing_of, back_to, GoesBack, idle_of, idle_side, is_idle, role_of, txn_of, state_of, due_date_of};
ghost use Rattle.ill_record.specs.SideVerbs.{verb_of, verbs_of, turn_of};

use crate::role::Role;
use ill_core::{
    Deed, Refusal, Requester, RequesterStanding, Responder, ResponderStanding, State, Taking, Turn,
    Verb, Wish,
};
use ill_values::{Apdu, Day, Number, TxnId};
use std::alloc::Global;

/// One side of a transaction: the library that asks for an item, or the library that is asked for it.
#[derive(Debug, Drop)]
pub enum Side {
    /// The side that asks for an item.
    Requester(Requester),
    /// The side that is asked for the item.
    Responder(Responder),
}

/// The standing of a side: its record without the transaction and the messages.
#[derive(Clone, Copy, Debug)]
pub enum Standing {
    /// The standing of a requester.
    Requester(RequesterStanding),
    /// The standing of a responder.
    Responder(ResponderStanding),
}

impl Standing {
    /// Returns the standing of an idle side of this role.
    fn idle(role: Role) -> Standing
        ensures { (txn : Qualifiers) → result ≡ standing_of (idle_side role txn) }
    {
        match role {
            Role::Requester => Standing::Requester(RequesterStanding {
                state: State::Idle,
                held: None,
                checked_in: false,
                due: None,
            }),
            Role::Responder => Standing::Responder(ResponderStanding {
                state: State::Idle,
                accepted: None,
                last_cancel: None,
                last_renew: None,
                received: false,
            }),
        }
    }
}

/// An action of a library: a requester's wish, or a responder's deed on a day.
#[derive(Debug, PartialEq, Eq, Drop)]
pub enum Action {
    /// A requester's wish.
    Wish(Wish),
    /// A responder's deed, and the day on which it is done.
    Deed(Deed, Day),
}

impl Action {
    /// Returns the role that the action is for.
    pub fn role(&self) -> Role
        ensures { result ≡ role_for self.now }
    {
        match self {
            Action::Wish(_) => Role::Requester,
            Action::Deed(_, _) => Role::Responder,
        }
    }

    /// Returns the verb of the action, without its details.
    pub fn verb(&self) -> Verb
        ensures { result ≡ verb_of self.now }
    {
        match self {
            Action::Wish(wish) => wish.verb(),
            Action::Deed(deed, _) => deed.verb(),
        }
    }

    /// Returns true if the action may begin a transaction. Only a request may.
    pub fn begins(&self) -> bool
        ensures { result ≡ begins self.now }
    {
        matches!(self, Action::Wish(Wish::Request { .. }))
    }
}

impl Side {
    /// Returns the idle side of this role and transaction, which has issued and taken nothing. Allocates nothing.
    pub fn idle(alloc: Global, role: Role, txn: TxnId) -> Side
        ensures { result ≡ idle_side role txn }
    {
        match role {
            Role::Requester => Side::Requester(Requester::idle(alloc, txn)),
            Role::Responder => Side::Responder(Responder::idle(alloc, txn)),
        }
    }

    /// Performs `action`, and issues its message to the other side. An action of the other role is refused as
    /// `WrongRole`. A refusal changes nothing.
    pub fn act(&mut self, alloc: Global, action: &Action) -> Result<(), Refusal>
        ensures { Acts self.old action.now result self.new }
    {
        match (self, action) {
            (Side::Requester(requester), Action::Wish(wish)) => requester.act(alloc, wish),
            (Side::Responder(responder), Action::Deed(deed, today)) => {
                responder.act(alloc, deed, *today)
            }
            _ => Err(Refusal::WrongRole),
        }
    }

    /// Takes a message of the other side, and returns its effect. A refusal changes nothing. A requester allocates
    /// nothing. A responder allocates only for an ILL-Request that it stores, and for a Conditional-Reply no that it
    /// answers.
    pub fn take(&mut self, alloc: Global, apdu: &Apdu) -> Result<Taking, Refusal>
        ensures { Takes self.old apdu.now result self.new }
    {
        match self {
            Side::Requester(requester) => requester.take(apdu),
            Side::Responder(responder) => responder.take(alloc, apdu),
        }
    }

    /// Returns the role of this side.
    pub fn role(&self) -> Role
        ensures { result ≡ role_of self.now }
    {
        match self {
            Side::Requester(_) => Role::Requester,
            Side::Responder(_) => Role::Responder,
        }
    }

    /// Returns true if this side is in IDLE: it has issued and taken nothing.
    pub fn is_idle(&self) -> bool
        ensures { result ≡ is_idle self.now }
    {
        self.state() == State::Idle
    }

    /// Returns the id of the transaction.
    pub fn txn(&self) -> &TxnId
        ensures { result.now ≡ txn_of self.now }
    {
        match self {
            Side::Requester(requester) => requester.txn(),
            Side::Responder(responder) => responder.txn(),
        }
    }

    /// Returns the present state.
    pub fn state(&self) -> State
        ensures { result ≡ state_of self.now }
    {
        match self {
            Side::Requester(requester) => requester.state(),
            Side::Responder(responder) => responder.state(),
        }
    }

    /// Returns the day on which the item is due, if the record of this side has a due date.
    pub fn due(&self) -> Option<Day>
        ensures { result ≡ due_date_of self.now }
    {
        match self {
            Side::Requester(requester) => requester.due(),
            Side::Responder(responder) => responder.due(),
        }
    }

    /// Returns the verbs of all actions that `act` does not refuse as `NotNow` or `WrongRole`. It may still refuse
    /// them for a date, after 255 issued messages, or if memory runs out.
    pub fn verbs(&self) -> &'static [Verb]
        ensures value { result.now ≡ verbs_of self.now }
        ensures exact { (action : Action) →
            is_verb_among result.now (verb_of action) ≡ is_now (acts self.now action) }
    {
        match self {
            Side::Requester(requester) => requester.verbs(),
            Side::Responder(responder) => responder.verbs(),
        }
    }

    /// Returns the turn, as far as this side knows it. If it is the turn of this side, `verbs` is not empty.
    pub fn turn(&self) -> Turn
        ensures value { result ≡ turn_of self.now }
        ensures mine { result ≡ Mine → verbs_of self.now ≡ [] → ⊥ }
    {
        match self {
            Side::Requester(requester) => requester.turn(),
            Side::Responder(responder) => responder.turn(),
        }
    }

    /// Returns the messages that this side has issued, in order: the n-th has number n.
    pub fn all_issued(&self) -> &[Apdu]
        ensures value { result.now ≡ issued_of self.now }
        ensures few { length (issued_of self.now) ≤ 255 }
    {
        match self {
            Side::Requester(requester) => requester.all_issued(),
            Side::Responder(responder) => responder.all_issued(),
        }
    }

    /// Returns the number of messages that this side has issued: 0 to 255.
    pub fn issued_count(&self) -> u8
        ensures { result ≡ length (issued_of self.now) }
    {
        match self {
            Side::Requester(requester) => requester.issued_count(),
            Side::Responder(responder) => responder.issued_count(),
        }
    }

    /// Returns the message with this number, if this side has issued it.
    pub fn issued(&self, number: Number) -> Option<&Apdu>
        ensures { option_map (λ a. a.now) result ≡ message (issued_of self.now) number }
    {
        match self {
            Side::Requester(requester) => requester.issued(number),
            Side::Responder(responder) => responder.issued(number),
        }
    }

    /// Returns the standing of this side. By the clause `consistent`, this side is consistent.
    pub fn standing(&self) -> Standing
        ensures value { result ≡ standing_of self.now }
        ensures consistent { IsConsistent self.now }
    {
        match self {
            Side::Requester(requester) => Standing::Requester(requester.standing()),
            Side::Responder(responder) => Standing::Responder(responder.standing()),
        }
    }

    /// Goes back to the side with `standing` and the first `count` of the issued messages, and returns true. Returns
    /// false, and changes nothing, if `standing` is of the other role or that side is not consistent.
    pub fn go_back(&mut self, standing: &Standing, count: u8) -> bool
        ensures { GoesBack (back_to standing.now count self.old) result self.old self.new }
    {
        match (self, standing) {
            (Side::Requester(requester), Standing::Requester(standing)) => {
                requester.go_back(*standing, count)
            }
            (Side::Responder(responder), Standing::Responder(standing)) => {
                responder.go_back(*standing, count)
            }
            _ => false,
        }
    }

    /// Becomes the idle side of this role and transaction, which has issued and taken nothing. Allocates nothing.
    pub fn become_idle(&mut self)
        ensures { self.new ≡ idle_of self.old }
    {
        let standing = Standing::idle(self.role());
        self.go_back(&standing, 0);
    }
}
