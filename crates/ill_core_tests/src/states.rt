//! Names the roles, and each state by two letters.

use ill_core::{STATES, State};

/// The role of a side.
#[derive(Clone, Copy)]
pub enum Role {
    /// The side that asks for the item.
    Requester,
    /// The side that supplies the item.
    Responder,
}

/// Returns the two letters of a state.
pub fn letters_of(state: State) -> &'static str {
    match state {
        State::Idle => "id",
        State::Pending => "pe",
        State::InProcess => "ip",
        State::Conditional => "co",
        State::CancelPending => "cp",
        State::Cancelled => "ca",
        State::NotSupplied => "ns",
        State::Shipped => "sh",
        State::Received => "re",
        State::RenewPending => "rp",
        State::Overdue => "ov",
        State::RenewOverdue => "ro",
        State::NotReceivedOverdue => "no",
        State::Recall => "rl",
        State::Returned => "rt",
        State::CheckedIn => "ci",
    }
}

/// Returns the state of these letters, or IDLE if no state has them.
pub fn state_of(letters: &str) -> State {
    for state in &STATES {
        if letters_of(*state) == letters {
            return *state;
        }
    }
    State::Idle
}

/// Returns the responder if `word` names it, and else the requester.
pub fn role_of(word: &str) -> Role {
    match word {
        "responder" => Role::Responder,
        _ => Role::Requester,
    }
}
