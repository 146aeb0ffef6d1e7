//! Tests the rules of a requester's record.

ghost use Rattle.std.specs.Prelude.{◌≡◌, ◌&&◌, false, [], ◌∷◌, is_some};
ghost use Rattle.std.specs.List.{list_all};
ghost use Rattle.ill_core.specs.declared.state.State.TheVariants as states;
ghost use Rattle.ill_core.specs.State.{is_among};
ghost use Rattle.ill_values.specs.Bodies.{is_requesters};
ghost use Rattle.ill_core.specs.Requester.{parts_fit, issued_fits, issued_keeps_rules, begins_with_request};

use super::{Standing, is_later};
use crate::issued::{
    has_cancel, has_declined, has_ill_request, has_received, has_renew, has_returned,
};
use crate::state::State;
use ill_values::Apdu;

/// Returns true if the parts of `standing` fit together and fit `apdus`.
pub fn fit_together(standing: &Standing, apdus: &[Apdu]) -> bool
    ensures { result ≡ (parts_fit standing.now.state (is_some standing.now.held)
        (is_some standing.now.due) standing.now.checked_in
        && issued_keeps_rules standing.now.state apdus.now) }
{
    let state = standing.state;
    if !parts_fit(
        state,
        standing.held.is_some(),
        standing.due.is_some(),
        standing.checked_in,
    ) {
        return false;
    }
    are_kept(state, apdus)
}

/// Returns true if `apdus` satisfy the rules of a requester in `state`, which is a requester's.
fn are_kept(state: State, apdus: &[Apdu]) -> bool
    requires role { is_among (states.InProcess ∷ states.CheckedIn ∷ []) state ≡ false }
    ensures { result ≡ issued_keeps_rules state apdus.now }
{
    if !is_role(apdus) {
        return false;
    }
    if !begins_with_request(apdus) {
        return false;
    }
    issued_fits(state, apdus)
}

/// Returns true if a requester issues the types of all `apdus`.
fn is_role(apdus: &[Apdu]) -> bool
    ensures { result ≡ list_all (λ a. is_requesters a.body) apdus.now }
{
    apdus.iter().all(|apdu| apdu.body.is_requesters())
}

/// Returns true if `apdus` is empty, or its first APDU and no other is an ILL-Request.
fn begins_with_request(apdus: &[Apdu]) -> bool
    ensures { result ≡ begins_with_request apdus.now }
{
    match apdus.split_first() {
        Some((first, others)) => first.body.is_ill_request() && !has_ill_request(others),
        None => true,
    }
}

/// Returns true if `state` is a requester's and fits the parts. `held` says that conditions are held, and `due` that
/// there is a due date. `checked_in` says that the checked-in mark is set.
fn parts_fit(state: State, held: bool, due: bool, checked_in: bool) -> bool
    ensures { result ≡ parts_fit state held due checked_in }
{
    match state {
        State::InProcess | State::CheckedIn => false,
        State::Conditional => held && !due && !checked_in,
        State::Returned => !held && due,
        _ => !held && due == is_later(state) && !checked_in,
    }
}

/// Returns true if `apdus` fit `state`, which is a requester's. They are empty exactly in IDLE. Each state may require
/// or forbid a Received, a Returned, a Cancel, a Renew and a Conditional-Reply no.
fn issued_fits(state: State, apdus: &[Apdu]) -> bool
    requires role { is_among (states.InProcess ∷ states.CheckedIn ∷ []) state ≡ false }
    ensures { result ≡ issued_fits state apdus.now }
{
    let received = has_received(apdus);
    let returned = has_returned(apdus);
    let declined = has_declined(apdus);
    match state {
        State::Idle => apdus.is_empty(),
        _ if apdus.is_empty() => false,
        State::Pending => !received && !returned && !declined,
        State::CancelPending | State::Cancelled => {
            !received && !returned && !declined && has_cancel(apdus)
        }
        State::Received | State::Overdue => received && !returned,
        State::RenewPending | State::RenewOverdue => received && !returned && has_renew(apdus),
        State::Recall => !returned,
        State::Returned => received && returned,
        _ => !received && !returned,
    }
}
