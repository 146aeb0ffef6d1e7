//! Tests the rules of a responder's record.

ghost use Rattle.std.specs.Prelude.{◌≡◌, false, not, ◌&&◌, is_some};
ghost use Rattle.std.specs.List.{list_all, filter_map, count_by};
ghost use Rattle.ill_values.specs.Bodies.{is_requesters, is_shipped};
ghost use Rattle.ill_core.specs.Issued.{granted_day, is_none};
ghost use Rattle.ill_core.specs.Responder.{is_after_last, parts_fit, issued_fits, issued_keeps_rules, is_request_of, is_named, are_rising, ships_first, ends_with_conditions};

use super::{Standing, is_later};
use crate::issued::has_checked_in;
use crate::state::State;
use ill_values::{Apdu, Day, Number, TxnId};

/// Returns true if the parts of `standing` fit together and fit the request and `apdus`. `is_asked` says that there is
/// a request.
pub fn fit_together(standing: &Standing, is_asked: bool, apdus: &[Apdu]) -> bool
    ensures { result ≡ (parts_fit standing.now.state is_asked
        (is_some standing.now.accepted) (is_some standing.now.last_cancel)
        (is_some standing.now.last_renew) standing.now.received (is_none apdus.now)
        && issued_keeps_rules standing.now.state standing.now.accepted apdus.now) }
{
    let present = Present {
        request: is_asked,
        accepted: standing.accepted.is_some(),
        last_cancel: standing.last_cancel.is_some(),
        last_renew: standing.last_renew.is_some(),
        received: standing.received,
        nothing_issued: apdus.is_empty(),
    };
    if !parts_fit(standing.state, present) {
        return false;
    }
    are_kept(standing.state, &standing.accepted, apdus)
}

/// Returns true if `apdus` satisfy the rules of a responder in `state` with these accepted conditions.
fn are_kept(state: State, accepted: &Option<Number>, apdus: &[Apdu]) -> bool
    ensures { result ≡ issued_keeps_rules state accepted.now apdus.now }
{
    if !is_role(apdus) {
        return false;
    }
    if !issued_fits(state, apdus) {
        return false;
    }
    if !is_named(accepted, apdus) {
        return false;
    }
    if !dates_rise(apdus) {
        return false;
    }
    ships_first(apdus)
}

/// Returns true if there is no request, or it is an ILL-Request of `txn`.
pub fn is_request_of(txn: &TxnId, request: &Option<Apdu>) -> bool
    ensures { result ≡ is_request_of txn.now request.now }
{
    match request {
        Some(apdu) => apdu.txn == *txn && apdu.body.is_ill_request(),
        None => true,
    }
}

/// Returns true if a responder issues the types of all `apdus`.
pub fn is_role(apdus: &[Apdu]) -> bool
    ensures { result ≡ list_all (λ a. not (is_requesters a.body)) apdus.now }
{
    apdus.iter().all(|apdu| !apdu.body.is_requesters())
}

/// Says which parts of a responder are there.
#[derive(Clone, Copy)]
struct Present {
    /// True if the ILL-Request is there.
    request: bool,
    /// True if conditions were accepted.
    accepted: bool,
    /// True if a Cancel was taken.
    last_cancel: bool,
    /// True if a Renew was taken.
    last_renew: bool,
    /// True if a Received was taken.
    received: bool,
    /// True if no message was issued.
    nothing_issued: bool,
}

/// Returns true if `state` is a responder's, and has the parts that it requires and none that it forbids.
fn parts_fit(state: State, present: Present) -> bool
    ensures { result ≡ parts_fit state present.request present.accepted present.last_cancel
        present.last_renew present.received present.nothing_issued }
{
    match state {
        State::Pending | State::Received | State::NotReceivedOverdue => false,
        State::Idle => is_empty(present),
        _ if !present.request => false,
        State::CancelPending | State::Cancelled => present.last_cancel && !present.received,
        State::RenewPending | State::RenewOverdue => present.last_renew,
        _ => !present.received || is_later(state),
    }
}

/// Returns true if no part is there and no message was issued.
fn is_empty(present: Present) -> bool
    ensures { result ≡ (not present.request && (not present.accepted && (not present.last_cancel
        && (not present.last_renew && (not present.received && present.nothing_issued))))) }
{
    !present.request
        && !present.accepted
        && !present.last_cancel
        && !present.last_renew
        && !present.received
        && present.nothing_issued
}

/// Returns true if there is no number, or the message with this number is an ILL-Answer conditional.
pub fn is_named(accepted: &Option<Number>, apdus: &[Apdu]) -> bool
    ensures { result ≡ is_named accepted.now apdus.now }
{
    match accepted {
        Some(number) => match apdus.get(usize::from(number.get()) - 1) {
            Some(apdu) => apdu.body.names_conditions(),
            None => false,
        },
        None => true,
    }
}

/// Returns true if `apdus` fit `state`.
pub fn issued_fits(state: State, apdus: &[Apdu]) -> bool
    ensures { result ≡ issued_fits state apdus.now }
{
    if shipped_count(apdus) != usize::from(is_later(state)) {
        return false;
    }
    if has_checked_in(apdus) != (state == State::CheckedIn) {
        return false;
    }
    match state {
        State::Conditional => ends_with_conditions(apdus),
        _ => true,
    }
}

/// Returns the number of Shipped in `apdus`.
fn shipped_count(apdus: &[Apdu]) -> usize
    ensures { result ≡ count_by (λ a. is_shipped a.body) apdus.now }
{
    apdus.iter().filter(|apdu| apdu.body.is_shipped()).count()
}

/// Returns true if the last of `apdus` is an ILL-Answer conditional.
fn ends_with_conditions(apdus: &[Apdu]) -> bool
    ensures { result ≡ ends_with_conditions apdus.now }
{
    if apdus.is_empty() {
        return false;
    }
    match apdus.get(apdus.len() - 1) {
        Some(apdu) => apdu.body.names_conditions(),
        None => false,
    }
}

/// Returns true if each date that `apdus` grant is after those before it.
#[tactic(auto, using(crate::proofs::ResponderLists::rise_end))]
pub fn dates_rise(apdus: &[Apdu]) -> bool
    ensures { result ≡ are_rising (filter_map granted_day apdus.now) }
{
    let mut last = None;
    for apdu in apdus {
        let found = apdu.body.grant();
        if !may_follow(&found, &last) {
            return false;
        }
        last = found.or(last);
    }
    true
}

/// Returns true if `found` is absent, or `last` is absent, or `found` is after `last`.
fn may_follow(found: &Option<Day>, last: &Option<Day>) -> bool
    ensures { result ≡ is_after_last last.now found.now }
{
    match (found, last) {
        (Some(due), Some(last)) => *last < *due,
        _ => true,
    }
}

/// Returns true if a Shipped comes before each Renew-Answer yes.
#[tactic(auto, using(crate::proofs::ResponderLists::ships_end))]
pub fn ships_first(apdus: &[Apdu]) -> bool
    ensures { result ≡ ships_first apdus.now }
{
    for apdu in apdus {
        if apdu.body.is_shipped() {
            return true;
        }
        if apdu.body.is_renewal() {
            return false;
        }
    }
    true
}
