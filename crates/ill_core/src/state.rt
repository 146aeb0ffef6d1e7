//! Defines the states of a side.

ghost use Rattle.std.specs.Prelude.{◌≡◌, Some};
ghost use Rattle.std.specs.Result.{result_ok};
ghost use Rattle.std.specs.Fmt.{padded};
ghost use Rattle.ill_core.specs.State.{state_name, state_named};

use ill_values::UnknownName;
use std::fmt;
use std::str::FromStr;

/// The state of one side of a transaction. It is displayed by its name, as `NOT-SUPPLIED`.
#[derive(Clone, Copy, Debug, PartialEq, Eq, Hash)]
pub enum State {
    /// No message was issued or taken yet.
    Idle,
    /// The request was issued. As far as the requester knows, the responder has neither shipped the item nor ended the
    /// request. Only a requester has this state.
    Pending,
    /// The responder has the request and works on it. Only a responder has this state.
    InProcess,
    /// The responder supplies only on conditions, which are not accepted.
    Conditional,
    /// A Cancel waits for its Cancel-Reply.
    CancelPending,
    /// The responder has agreed to a Cancel. This state is final.
    Cancelled,
    /// The request has ended without the item. This state is final.
    NotSupplied,
    /// The responder has shipped the item. A requester in this state has issued no Received.
    Shipped,
    /// The item has reached the requester. Only a requester has this state.
    Received,
    /// The requester has the item, and a Renew waits for its Renew-Answer.
    RenewPending,
    /// The responder has reported that the item is overdue.
    Overdue,
    /// The responder has reported that the item is overdue, and a Renew waits for its Renew-Answer.
    RenewOverdue,
    /// The responder has reported that the item is overdue, and the requester has issued no Received. Only a requester
    /// has this state.
    NotReceivedOverdue,
    /// The responder has asked for the item back.
    Recall,
    /// The requester has sent the item back. For a requester this state is final.
    Returned,
    /// The item is back at the responder. Only a responder has this state, and it is final.
    CheckedIn,
}

/// Lists all states, in the order of the variants.
pub const STATES: [State; 16] = [
    State::Idle,
    State::Pending,
    State::InProcess,
    State::Conditional,
    State::CancelPending,
    State::Cancelled,
    State::NotSupplied,
    State::Shipped,
    State::Received,
    State::RenewPending,
    State::Overdue,
    State::RenewOverdue,
    State::NotReceivedOverdue,
    State::Recall,
    State::Returned,
    State::CheckedIn,
];

impl State {
    /// Returns the name of the state, as `NOT-SUPPLIED`.
    pub fn name(self) -> &'static str
        ensures { result.now ≡ state_name self }
    {
        match self {
            State::Idle => "IDLE",
            State::Pending => "PENDING",
            State::InProcess => "IN-PROCESS",
            State::Conditional => "CONDITIONAL",
            State::CancelPending => "CANCEL-PENDING",
            State::Cancelled => "CANCELLED",
            State::NotSupplied => "NOT-SUPPLIED",
            State::Shipped => "SHIPPED",
            State::Received => "RECEIVED",
            State::RenewPending => "RENEW/PENDING",
            State::Overdue => "OVERDUE",
            State::RenewOverdue => "RENEW/OVERDUE",
            State::NotReceivedOverdue => "NOT-RECEIVED/OVERDUE",
            State::Recall => "RECALL",
            State::Returned => "RETURNED",
            State::CheckedIn => "CHECKED-IN",
        }
    }

    /// Returns the state with the name `text`, or `None`.
    pub fn read(text: &[u8]) -> Option<State>
        ensures { result ≡ state_named text.now }
    {
        STATES
            .iter()
            .copied()
            .find(|state| state.name().as_bytes() == text)
    }
}

/// Reads the name of a state, as `State::read` does.
impl FromStr for State {
    type Err = UnknownName;

    ghost from_str_gives = { λ text result. result_ok result ≡ state_named text };

    fn from_str(text: &str) -> Result<State, UnknownName> {
        State::read(text.as_bytes()).ok_or(UnknownName)
    }
}

impl fmt::Display for State {
    ghost output = { λ state. Some (state_name state) };

    ghost styled_output = { λ state spec. Some (padded spec (state_name state)) };

    fn fmt<W: fmt::Write>(&self, f: &mut fmt::Formatter<W>) -> fmt::Result {
        f.pad(self.name())
    }
}
