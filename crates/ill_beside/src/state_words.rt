//! The words for staff of the state of a loan.

ghost use Rattle.std.specs.Prelude.{◌≡◌};
ghost use Rattle.ill_core.specs.Requester.{is_declined, is_received_by};
ghost use Rattle.ill_beside.specs.StateWords.{requester_words, responder_words, state_words};

use ill_core::{Requester, State};
use ill_saved::Side;

/// Returns the words for the state of `side`.
pub fn words_of(side: &Side) -> &'static str
    ensures { result.now ≡ state_words side.now }
{
    match side {
        Side::Requester(requester) => requester_words(requester),
        Side::Responder(responder) => responder_words(responder.state()),
    }
}

/// Returns the words for the state of `requester`. A state that no requester has keeps its name.
fn requester_words(requester: &Requester) -> &'static str
    ensures { result.now ≡ requester_words requester.now.state (is_declined requester.now)
        (is_received_by requester.now) requester.now.checked_in }
{
    match requester.state() {
        State::Idle => "Nothing is asked for yet.",
        State::Pending => "The request is open, as far as we know.",
        State::Conditional if requester.is_declined() => "We have said no, and wait.",
        State::Conditional => "The responder supplies only on conditions: say yes or no.",
        State::CancelPending => "We have asked to cancel. The item may still come.",
        State::Cancelled => "The responder has agreed to cancel.",
        State::NotSupplied => "The responder does not supply the item.",
        State::Shipped => "The item is shipped. We have not said that it came.",
        State::Received => "The item is here, and may be kept until it is due.",
        State::RenewPending => "The item is here. We have asked to keep it longer.",
        State::Overdue => "The item is here and overdue.",
        State::RenewOverdue => "The item is here and overdue. We have asked to keep it longer.",
        State::NotReceivedOverdue => {
            "The item is overdue, and we have never said that it came: look for it."
        }
        State::Recall if requester.is_received() => "The responder wants the item back.",
        State::Recall => "The responder wants the item back. We have not said that it came.",
        State::Returned if requester.is_checked_in() => "The responder has the item back.",
        State::Returned => "We have sent the item back.",
        other => other.name(),
    }
}

/// Returns the words for a responder's state. A state that no responder has keeps its name.
fn responder_words(state: State) -> &'static str
    ensures { result.now ≡ responder_words state }
{
    match state {
        State::Idle => "No request has come yet.",
        State::InProcess => "The request is here: answer it, or ship the item.",
        State::Conditional => "We have named conditions, and wait for yes or no.",
        State::CancelPending => "The requester asks to cancel: say yes or no.",
        State::Cancelled => "We have agreed to cancel.",
        State::NotSupplied => "We do not supply the item.",
        State::Shipped => "We have shipped the item.",
        State::RenewPending => "The requester asks to keep the item longer: say yes or no.",
        State::Overdue => "We have said that the item is overdue.",
        State::RenewOverdue => {
            "We have said that the item is overdue. The requester asks to keep it longer: say yes or no."
        }
        State::Recall => "We have asked for the item back.",
        State::Returned => "The item is on its way back: check it in when it is here.",
        State::CheckedIn => "The item is here again.",
        other => other.name(),
    }
}
