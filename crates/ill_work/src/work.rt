//! Defines the kinds of work at a desk: their verbs, their words and their urgency.

ghost use Rattle.std.specs.Prelude.{◌≡◌, Some};
ghost use Rattle.std.specs.Fmt.{padded};
ghost use Rattle.ill_work.specs.Work.{all_work, work_verbs, work_words, urgency_of, wants_a_hand};

use ill_core::Verb;
use std::fmt;

/// The work that staff do next with a loan. The kinds stand in the order of urgency, the most pressing first. A kind is
/// displayed by its words, as `send back at once`.
#[derive(Clone, Copy, Debug, PartialEq, Eq, Hash)]
pub enum Work {
    /// A requester sends back an item that the responder has recalled.
    SendBackRecalled,
    /// A requester looks for an item that is overdue or recalled, and that was never received.
    LookFor,
    /// A requester sends back an item that is overdue, or agrees with the responder on more time.
    SendBackOverdue,
    /// A responder says that the item is overdue.
    NotifyOverdue,
    /// A responder has said that the item is overdue, and recalls it or asks where it is.
    RecallOrAsk,
    /// A responder lets a request expire: its expiry date is past.
    LetExpire,
    /// A requester cancels a request, or asks for an answer: its expiry date is past.
    CancelOrAsk,
    /// A responder agrees to cancel, or refuses to.
    AnswerCancel,
    /// A responder renews a loan, or refuses to.
    AnswerRenewal,
    /// A requester accepts the conditions, or declines them.
    AnswerConditions,
    /// A responder answers the request, or ships the item.
    AnswerRequest,
    /// A requester sends back an item that is due soon, or renews its loan.
    SendBackOrRenew,
    /// A responder checks in an item that is on its way back.
    CheckIn,
    /// A requester unpacks an item that is shipped, and says that it came.
    Unpack,
    /// A requester sends its request.
    Request,
    /// A responder has shipped the item, and the requester has not said that it came.
    OnItsWay,
    /// The item is with a reader of the requester, and is not due soon.
    WithReader,
    /// The other library acts next.
    Wait,
    /// The loan is over.
    Over,
}

/// Lists all kinds of work, the most pressing first.
const WORKS: [Work; 19] = [
    Work::SendBackRecalled,
    Work::LookFor,
    Work::SendBackOverdue,
    Work::NotifyOverdue,
    Work::RecallOrAsk,
    Work::LetExpire,
    Work::CancelOrAsk,
    Work::AnswerCancel,
    Work::AnswerRenewal,
    Work::AnswerConditions,
    Work::AnswerRequest,
    Work::SendBackOrRenew,
    Work::CheckIn,
    Work::Unpack,
    Work::Request,
    Work::OnItsWay,
    Work::WithReader,
    Work::Wait,
    Work::Over,
];

impl Work {
    /// Returns all kinds of work, the most pressing first.
    pub fn all() -> &'static [Work]
        ensures { result.now ≡ all_work }
    {
        &WORKS
    }

    /// Returns the words that tell staff the work, as `send back at once`.
    pub fn words(self) -> &'static str
        ensures { result.now ≡ work_words self }
    {
        match self {
            Work::SendBackRecalled => "send back at once",
            Work::LookFor => "look for it: it is wanted back",
            Work::SendBackOverdue => "send back, or agree on more time",
            Work::NotifyOverdue => "send an overdue notice",
            Work::RecallOrAsk => "recall, or ask where it is",
            Work::LetExpire => "let the request expire",
            Work::CancelOrAsk => "cancel, or ask for an answer",
            Work::AnswerCancel => "agree to cancel, or refuse",
            Work::AnswerRenewal => "renew, or refuse",
            Work::AnswerConditions => "accept the conditions, or decline",
            Work::AnswerRequest => "answer, or ship",
            Work::SendBackOrRenew => "send back or renew",
            Work::CheckIn => "check in when it is here",
            Work::Unpack => "unpack when it is here",
            Work::Request => "send the request",
            Work::OnItsWay => "wait until it has come",
            Work::WithReader => "leave it with the reader",
            Work::Wait => "wait for the other library",
            Work::Over => "file it away",
        }
    }

    /// Returns the verbs of the actions that do this work. `OnItsWay`, `WithReader`, `Wait` and `Over` have no verb.
    pub fn verbs(self) -> &'static [Verb]
        ensures { result.now ≡ work_verbs self }
    {
        match self {
            Work::SendBackRecalled | Work::SendBackOverdue => &[Verb::Return],
            Work::LookFor | Work::Unpack => &[Verb::Receive],
            Work::AnswerCancel => &[Verb::CancelReply],
            Work::AnswerRenewal => &[Verb::RenewAnswer],
            Work::AnswerConditions => &[Verb::Reply],
            Work::AnswerRequest => &[Verb::Answer, Verb::Ship],
            Work::NotifyOverdue => &[Verb::Overdue],
            Work::RecallOrAsk => &[Verb::Recall],
            Work::LetExpire => &[Verb::Expire],
            Work::CancelOrAsk => &[Verb::Cancel],
            Work::SendBackOrRenew => &[Verb::Renew, Verb::Return],
            Work::CheckIn => &[Verb::CheckIn],
            Work::Request => &[Verb::Request],
            Work::OnItsWay | Work::WithReader | Work::Wait | Work::Over => &[],
        }
    }

    /// Returns true if the work wants a hand: it has a verb.
    pub fn wants_a_hand(self) -> bool
        ensures { result ≡ wants_a_hand self }
    {
        !self.verbs().is_empty()
    }

    /// Returns the urgency of the work: its index in `all`. The most pressing work has 0.
    pub fn urgency(self) -> u8
        ensures { result ≡ urgency_of self }
    {
        match self {
            Work::SendBackRecalled => 0,
            Work::LookFor => 1,
            Work::SendBackOverdue => 2,
            Work::NotifyOverdue => 3,
            Work::RecallOrAsk => 4,
            Work::LetExpire => 5,
            Work::CancelOrAsk => 6,
            Work::AnswerCancel => 7,
            Work::AnswerRenewal => 8,
            Work::AnswerConditions => 9,
            Work::AnswerRequest => 10,
            Work::SendBackOrRenew => 11,
            Work::CheckIn => 12,
            Work::Unpack => 13,
            Work::Request => 14,
            Work::OnItsWay => 15,
            Work::WithReader => 16,
            Work::Wait => 17,
            Work::Over => 18,
        }
    }
}

// A kind is displayed by its words, padded as the format asks.
impl fmt::Display for Work {
    ghost output = { λ work. Some (work_words work) };

    ghost styled_output = { λ work spec. Some (padded spec (work_words work)) };

    fn fmt<W: fmt::Write>(&self, f: &mut fmt::Formatter<W>) -> fmt::Result {
        f.pad(self.words())
    }
}
