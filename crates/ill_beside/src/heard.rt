//! The messages that a record shows as taken.

ghost use Rattle.std.specs.Prelude.{◌≡◌, option_map};
ghost use Rattle.ill_core.specs.Dates.{is_due_on};
ghost use Rattle.ill_core.specs.Issued.{is_message_with, is_there};
ghost use Rattle.ill_core.specs.Numbers.{is_at_most};
ghost use Rattle.ill_core.specs.Requester.{later};
ghost use Rattle.ill_core.specs.RequesterNotices.{states_before_overdue};
ghost use Rattle.ill_core.specs.State.{is_among};
ghost use Rattle.ill_values.specs.Bodies.{is_cancel, is_renew};
ghost use Rattle.ill_beside.specs.Heard.{answer_heard, cancel_reply_heard, is_heard, is_request_number, overdue_heard, renewal_heard, requester_heard, responder_heard};

use ill_core::{Requester, Responder, State};
use ill_saved::Side;
use ill_values::{AnswerResult, Apdu, Body, Day, Number};

/// Returns true if the record of `side` shows that `apdu` was taken.
pub fn is_heard(side: &Side, apdu: &Apdu) -> bool
    ensures { result ≡ is_heard side.now apdu.now }
{
    match side {
        Side::Requester(requester) => requester_heard(requester, apdu.number, &apdu.body),
        Side::Responder(responder) => responder_heard(responder, apdu.number, &apdu.body),
    }
}

/// Returns true if the record of `requester` shows that the message with this number and body was taken.
fn requester_heard(requester: &Requester, number: Number, body: &Body) -> bool
    ensures { result ≡ requester_heard requester.now number body.now }
{
    match body {
        Body::IllAnswer { result: answer } => answer_heard(requester, number, *answer),
        Body::Expired => requester.state() == State::NotSupplied,
        Body::CancelReply { answers, yes } => cancel_reply_heard(requester, *answers, *yes),
        Body::Shipped { .. } => is_later(requester.state()),
        Body::Overdue { due } => overdue_heard(requester, *due),
        Body::RenewAnswer { answers, .. } => renewal_heard(requester, *answers),
        Body::Recall => matches!(requester.state(), State::Recall | State::Returned),
        Body::CheckedIn => requester.is_checked_in(),
        _ => false,
    }
}

/// Returns true if the record of `requester` shows that the ILL-Answer with this number and result was taken. A promise
/// (`WillSupply`, `HoldPlaced`) leaves no trace in the record, so each counts as taken.
fn answer_heard(requester: &Requester, number: Number, answer: AnswerResult) -> bool
    ensures { result ≡ answer_heard requester.now number answer }
{
    match answer {
        AnswerResult::Conditional => {
            requester.held() == Some(number)
                || is_at_most(number, requester.accepted())
                || requester.state() == State::NotSupplied
                || is_later(requester.state())
        }
        AnswerResult::WillSupply | AnswerResult::HoldPlaced => true,
        _ => requester.state() == State::NotSupplied,
    }
}

/// Returns true if the record of `requester` shows that the reply to its Cancel `cancel` was taken.
fn cancel_reply_heard(requester: &Requester, cancel: Number, is_yes: bool) -> bool
    ensures { result ≡ cancel_reply_heard requester.now cancel is_yes }
{
    let is_last = cancel.get() == requester.issued_count();
    if is_yes {
        return requester.state() == State::Cancelled && is_last;
    }
    let is_waiting = matches!(requester.state(), State::CancelPending | State::Cancelled);
    is_cancel(requester.issued(cancel)) && !(is_waiting && is_last)
}

/// Returns true if the record of `requester` shows that the answer to its Renew `renew` was taken.
fn renewal_heard(requester: &Requester, renew: Number) -> bool
    ensures { result ≡ renewal_heard requester.now renew }
{
    let is_waiting = matches!(requester.state(), State::RenewPending | State::RenewOverdue);
    let is_last = renew.get() == requester.issued_count();
    is_renew(requester.issued(renew)) && !(is_waiting && is_last)
}

/// Returns true if the record of `requester` shows that an Overdue for `day` was taken.
fn overdue_heard(requester: &Requester, day: Day) -> bool
    ensures { result ≡ overdue_heard requester.now day }
{
    let is_open = is_due_on(day, requester.due()) && is_before_overdue(requester.state());
    is_later(requester.state()) && !is_open
}

/// Returns true if `due` is there, and equals `day`.
fn is_due_on(day: Day, due: Option<Day>) -> bool
    ensures { result ≡ is_due_on day due }
{
    match due {
        Some(due) => due == day,
        None => false,
    }
}

/// Returns true if an Overdue changes a requester in `state`.
fn is_before_overdue(state: State) -> bool
    ensures { result ≡ is_among states_before_overdue state }
{
    matches!(
        state,
        State::Shipped | State::Received | State::RenewPending
    )
}

/// Returns true if `apdu` is there, and is a Cancel.
fn is_cancel(apdu: Option<&Apdu>) -> bool
    ensures { result ≡ is_there is_cancel (option_map (λ a. a.now) apdu.entry) }
{
    match apdu {
        Some(apdu) => matches!(apdu.body, Body::Cancel),
        None => false,
    }
}

/// Returns true if `apdu` is there, and is a Renew.
fn is_renew(apdu: Option<&Apdu>) -> bool
    ensures { result ≡ is_there is_renew (option_map (λ a. a.now) apdu.entry) }
{
    match apdu {
        Some(apdu) => matches!(apdu.body, Body::Renew { .. }),
        None => false,
    }
}

/// Returns true if a requester's `state` is SHIPPED or later.
fn is_later(state: State) -> bool
    ensures { result ≡ is_among later state }
{
    matches!(
        state,
        State::Shipped
            | State::Received
            | State::RenewPending
            | State::Overdue
            | State::RenewOverdue
            | State::NotReceivedOverdue
            | State::Recall
            | State::Returned
    )
}

/// Returns true if the record of `responder` shows that the message with this number and body was taken.
fn responder_heard(responder: &Responder, number: Number, body: &Body) -> bool
    ensures { result ≡ responder_heard responder.now number body.now }
{
    match body {
        Body::IllRequest { .. } => is_request_number(number, responder.request()),
        Body::ConditionalReply { answers, yes: true } => {
            is_at_most(*answers, responder.accepted())
        }
        Body::ConditionalReply { yes: false, .. } => responder.state() == State::NotSupplied,
        Body::Cancel => is_at_most(number, responder.last_cancel()),
        Body::Received => responder.is_received(),
        Body::Renew { .. } => is_at_most(number, responder.last_renew()),
        Body::Returned => matches!(responder.state(), State::Returned | State::CheckedIn),
        _ => false,
    }
}

/// Returns true if `request` is there, and has this number.
fn is_request_number(number: Number, request: Option<&Apdu>) -> bool
    ensures { result ≡ is_request_number number (option_map (λ a. a.now) request.entry) }
{
    match request {
        Some(request) => number == request.number,
        None => false,
    }
}

/// Returns true if `most` is there, and `number` is at most it.
fn is_at_most(number: Number, most: Option<Number>) -> bool
    ensures { result ≡ is_at_most number most }
{
    match most {
        Some(most) => number <= most,
        None => false,
    }
}
