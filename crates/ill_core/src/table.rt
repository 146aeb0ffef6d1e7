//! Defines the tables of both roles: arrays of rows, of which the first that fits decides.

ghost use Rattle.std.specs.Prelude.{◌≡◌, ℕ, Bool, List, option_copied};
ghost use Rattle.std.specs.List.{find};
ghost use Rattle.ill_core.specs.State.{place_of};
ghost use Rattle.ill_core.specs.Tables.{Guard, are_met, has_state, fits, taking_of, next_state};

use crate::state::State;
use crate::taking::Taking;

/// A row: the kind of action or message, its states, its guards, its effect, and its changes beside the state. They are
/// `row.0` to `row.4`.
///
/// Bit i of the states is variant i of `State`, from 0. Each role names the bits of its guards and of its changes. The
/// rows of a kind are adjacent, and the first of them that fits decides.
pub struct Row<K>(pub K, pub u16, pub u16, pub Then, pub u16);

/// The effect of an action or a message: its answer, and the next state.
#[derive(Clone, Copy)]
pub enum Then {
    /// The action is done, or the message is taken. The state becomes this one.
    To(State),
    /// The action is done, or the message is taken. The state does not change.
    Stay,
    /// The record has the effect of the message already.
    Repeat,
    /// The message answers a question that is no longer open, or names another due date.
    Stale,
    /// The message has no place in the present state.
    Conflict,
}

impl Then {
    /// Returns the answer that this effect gives in `state`.
    pub fn taking(self, state: State) -> Taking
        ensures { result ≡ taking_of self state }
    {
        match self {
            Then::To(_) | Then::Stay => Taking::Taken,
            Then::Repeat => Taking::Repeat,
            Then::Stale => Taking::Stale,
            Then::Conflict => Taking::Conflict(state),
        }
    }

    /// Returns the state that follows `state`.
    pub fn next_state(self, state: State) -> State
        ensures { result ≡ next_state self state }
    {
        match self {
            Then::To(next) => next,
            _ => state,
        }
    }
}

/// Tests the guards that rows may ask for.
pub trait Guards {
    /// Returns each guard with its bit.
    ghost guards: { Self → List Guard };

    /// Returns true if all guards with a bit in `asked` hold.
    fn hold(&self, asked: u16) -> bool
        ensures { result ≡ are_met asked (guards self.now) };
}

/// Returns the first of `rows` that contains `state` and whose guards hold, or `None`.
pub fn find<'a, K, F: Guards>(rows: &'a [Row<K>], state: State, guards: &F) -> Option<&'a Row<K>>
    ensures { option_copied result ≡ find (fits state (F.guards guards.now)) rows.now }
{
    rows.iter()
        .find(|row| has_state(row.1, state) && are_met(guards, row.2))
}

/// Returns true if all guards with a bit in `asked` hold. If `asked` has no bit, no guard is tested.
#[tactic(auto, using(crate::proofs::TableLemmas::none_asked))]
fn are_met<F: Guards>(guards: &F, asked: u16) -> bool
    ensures { result ≡ are_met asked (F.guards guards.now) }
{
    asked == NONE || guards.hold(asked)
}

/// Returns true if `state` has its bit in `states`.
fn has_state(states: u16, state: State) -> bool
    ensures { result ≡ has_state states state }
{
    states >> place_of(state) & 1 == 1
}

/// Returns the index of `state` among the variants, from 0.
fn place_of(state: State) -> u16
    ensures { result ≡ place_of state }
{
    state as u16
}

/// The mask without guards or changes.
pub const NONE: u16 = 0;

// The masks of one state each. The bit of a state is its index in `State`.
pub const IDLE: u16 = 1 << State::Idle as u16;

pub const PENDING: u16 = 1 << State::Pending as u16;

pub const IN_PROCESS: u16 = 1 << State::InProcess as u16;

pub const CONDITIONAL: u16 = 1 << State::Conditional as u16;

pub const CANCEL_PENDING: u16 = 1 << State::CancelPending as u16;

pub const CANCELLED: u16 = 1 << State::Cancelled as u16;

pub const NOT_SUPPLIED: u16 = 1 << State::NotSupplied as u16;

pub const SHIPPED: u16 = 1 << State::Shipped as u16;

pub const RECEIVED: u16 = 1 << State::Received as u16;

pub const RENEW_PENDING: u16 = 1 << State::RenewPending as u16;

pub const OVERDUE: u16 = 1 << State::Overdue as u16;

pub const RENEW_OVERDUE: u16 = 1 << State::RenewOverdue as u16;

pub const NOT_RECEIVED_OVERDUE: u16 = 1 << State::NotReceivedOverdue as u16;

pub const RECALL: u16 = 1 << State::Recall as u16;

pub const RETURNED: u16 = 1 << State::Returned as u16;

pub const CHECKED_IN: u16 = 1 << State::CheckedIn as u16;

/// The mask of all states.
pub const ANY: u16 = 0xffff;
