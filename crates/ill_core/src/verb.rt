//! Defines the verbs: the first words of all actions.

ghost use Rattle.std.specs.Prelude.{◌≡◌, Some};
ghost use Rattle.std.specs.Result.{result_ok};
ghost use Rattle.std.specs.Fmt.{padded};
ghost use Rattle.ill_core.specs.Verbs.{verb_name, verb_named};

use ill_values::UnknownName;
use std::fmt;
use std::str::FromStr;

/// The first word of an action of a library. It is displayed by its name, as `cancel-reply`.
#[derive(Clone, Copy, Debug, PartialEq, Eq, Hash)]
pub enum Verb {
    /// A requester asks for an item.
    Request,
    /// A requester asks to cancel the request.
    Cancel,
    /// A requester accepts or declines conditions.
    Reply,
    /// A requester reports that the item has arrived.
    Receive,
    /// A requester asks for a later due date.
    Renew,
    /// A requester reports that the item was sent back.
    Return,
    /// A responder answers the request.
    Answer,
    /// A responder agrees to a Cancel or refuses it.
    CancelReply,
    /// A responder sends the item.
    Ship,
    /// A responder grants a Renew or refuses it.
    RenewAnswer,
    /// A responder reports that the due date has passed.
    Overdue,
    /// A responder asks for the item back.
    Recall,
    /// A responder reports that the item is back.
    CheckIn,
    /// A responder ends a request whose expiry date has passed.
    Expire,
}

/// Lists all verbs, in the order of the variants.
const VERBS: [Verb; 14] = [
    Verb::Request,
    Verb::Cancel,
    Verb::Reply,
    Verb::Receive,
    Verb::Renew,
    Verb::Return,
    Verb::Answer,
    Verb::CancelReply,
    Verb::Ship,
    Verb::RenewAnswer,
    Verb::Overdue,
    Verb::Recall,
    Verb::CheckIn,
    Verb::Expire,
];

impl Verb {
    /// Returns the name of the verb, as `cancel-reply`.
    pub fn name(self) -> &'static str
        ensures { result.now ≡ verb_name self }
    {
        match self {
            Verb::Request => "request",
            Verb::Cancel => "cancel",
            Verb::Reply => "reply",
            Verb::Receive => "receive",
            Verb::Renew => "renew",
            Verb::Return => "return",
            Verb::Answer => "answer",
            Verb::CancelReply => "cancel-reply",
            Verb::Ship => "ship",
            Verb::RenewAnswer => "renew-answer",
            Verb::Overdue => "overdue",
            Verb::Recall => "recall",
            Verb::CheckIn => "check-in",
            Verb::Expire => "expire",
        }
    }

    /// Returns the verb with the name `text`, or `None`.
    pub fn read(text: &[u8]) -> Option<Verb>
        ensures { result ≡ verb_named text.now }
    {
        VERBS
            .iter()
            .copied()
            .find(|verb| verb.name().as_bytes() == text)
    }
}

/// Reads the name of a verb, as `Verb::read` does.
impl FromStr for Verb {
    type Err = UnknownName;

    ghost from_str_gives = { λ text result. result_ok result ≡ verb_named text };

    fn from_str(text: &str) -> Result<Verb, UnknownName> {
        Verb::read(text.as_bytes()).ok_or(UnknownName)
    }
}

impl fmt::Display for Verb {
    ghost output = { λ verb. Some (verb_name verb) };

    ghost styled_output = { λ verb spec. Some (padded spec (verb_name verb)) };

    fn fmt<W: fmt::Write>(&self, f: &mut fmt::Formatter<W>) -> fmt::Result {
        f.pad(self.name())
    }
}
