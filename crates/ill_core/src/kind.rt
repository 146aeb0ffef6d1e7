//! Defines the kinds of messages that the tables distinguish.

ghost use Rattle.std.specs.Prelude.{◌≡◌, ◌<◌, Some, None, IsSome};
ghost use Rattle.ill_core.specs.Kinds.{requester_kind, responder_kind, answer_kind, requester_place, responder_place, number_in};

use ill_values::{AnswerResult, Apdu, Body, Number};

/// The kind of a message that a requester issues, and of the wish that issues it.
#[derive(Clone, Copy)]
pub enum RequesterKind {
    /// An ILL-Request.
    Request,
    /// A Conditional-Reply yes.
    Yes,
    /// A Conditional-Reply no.
    No,
    /// A Cancel.
    Cancel,
    /// A Received.
    Received,
    /// A Renew.
    Renew,
    /// A Returned.
    Returned,
}

/// The kind of a message that a responder issues, and of the deed that issues it.
#[derive(Clone, Copy)]
pub enum ResponderKind {
    /// An ILL-Answer conditional.
    Conditions,
    /// An ILL-Answer will-supply or hold-placed.
    Promise,
    /// An ILL-Answer with any other result: the item is not supplied.
    NoSupply,
    /// An Expired.
    Expired,
    /// A Cancel-Reply yes.
    CancelYes,
    /// A Cancel-Reply no.
    CancelNo,
    /// A Shipped.
    Shipped,
    /// An Overdue.
    Overdue,
    /// A Renew-Answer yes.
    RenewYes,
    /// A Renew-Answer no.
    RenewNo,
    /// A Recall.
    Recall,
    /// A Checked-In.
    CheckedIn,
}

impl RequesterKind {
    /// Returns the index of the kind among the variants, from 0.
    pub fn place(self) -> usize
        ensures value { result ≡ requester_place self }
        ensures few { result < 7 }
    {
        self as usize
    }

    /// Returns the kind of a message that a requester issues, and `None` for any other message.
    pub fn of(body: &Body) -> Option<RequesterKind>
        ensures { result ≡ requester_kind body.now }
    {
        match body {
            Body::IllRequest { .. } => Some(RequesterKind::Request),
            Body::ConditionalReply { yes: true, .. } => Some(RequesterKind::Yes),
            Body::ConditionalReply { yes: false, .. } => Some(RequesterKind::No),
            Body::Cancel => Some(RequesterKind::Cancel),
            Body::Received => Some(RequesterKind::Received),
            Body::Renew { .. } => Some(RequesterKind::Renew),
            Body::Returned => Some(RequesterKind::Returned),
            _ => None,
        }
    }
}

impl ResponderKind {
    /// Returns the index of the kind among the variants, from 0.
    pub fn place(self) -> usize
        ensures value { result ≡ responder_place self }
        ensures few { result < 12 }
    {
        self as usize
    }

    /// Returns the kind of a message that a responder issues, and `None` for any other message.
    pub fn of(body: &Body) -> Option<ResponderKind>
        ensures { result ≡ responder_kind body.now }
    {
        match body {
            Body::IllAnswer { result } => Some(ResponderKind::of_answer(*result)),
            Body::Expired => Some(ResponderKind::Expired),
            Body::CancelReply { yes: true, .. } => Some(ResponderKind::CancelYes),
            Body::CancelReply { yes: false, .. } => Some(ResponderKind::CancelNo),
            Body::Shipped { .. } => Some(ResponderKind::Shipped),
            Body::Overdue { .. } => Some(ResponderKind::Overdue),
            Body::RenewAnswer {
                granted: Some(_),
                ..
            } => Some(ResponderKind::RenewYes),
            Body::RenewAnswer { granted: None, .. } => Some(ResponderKind::RenewNo),
            Body::Recall => Some(ResponderKind::Recall),
            Body::CheckedIn => Some(ResponderKind::CheckedIn),
            _ => None,
        }
    }

    /// Returns the kind of an ILL-Answer with this result.
    pub fn of_answer(answer: AnswerResult) -> ResponderKind
        ensures { result ≡ answer_kind answer }
    {
        match answer {
            AnswerResult::Conditional => ResponderKind::Conditions,
            AnswerResult::WillSupply | AnswerResult::HoldPlaced => ResponderKind::Promise,
            _ => ResponderKind::NoSupply,
        }
    }
}

/// Returns the number by which a row judges a message: the number that it answers, or else its own.
pub fn number_in(apdu: &Apdu) -> Number
    ensures { result ≡ number_in apdu.now apdu.now.body }
{
    match &apdu.body {
        Body::ConditionalReply { answers, .. }
        | Body::CancelReply { answers, .. }
        | Body::RenewAnswer { answers, .. } => *answers,
        _ => apdu.number,
    }
}

/// Returns the number or the date in `value`, which is not `None`.
pub fn known_value<T: Copy>(value: Option<T>) -> T
    requires there { IsSome value }
    ensures { Some result ≡ value }
{
    match value {
        Some(value) => value,
        None => unreachable!(),
    }
}
