//! Defines the answer of a side to a message.

ghost use Rattle.std.specs.Prelude.{◌≡◌, Some};
ghost use Rattle.std.specs.Fmt.{padded};
ghost use Rattle.ill_core.specs.Words.{taking_name};

use crate::state::State;
use std::fmt;

/// The answer of a side to a message that it did not refuse. It is displayed by its name, as `taken`.
#[derive(Clone, Copy, Debug, PartialEq, Eq, Hash)]
pub enum Taking {
    /// The message was news, and the record has changed as its row says.
    Taken,
    /// The record has the effect of the message already. Nothing changes.
    Repeat,
    /// The message answers a question that is no longer open, or names another due date. Nothing changes.
    Stale,
    /// The message has no place in this state, which is the side's own. Nothing changes.
    Conflict(State),
}

impl Taking {
    /// Returns the name of the answer: `taken`, `repeat`, `stale` or `conflict`.
    pub fn name(self) -> &'static str
        ensures { result.now ≡ taking_name self }
    {
        match self {
            Taking::Taken => "taken",
            Taking::Repeat => "repeat",
            Taking::Stale => "stale",
            Taking::Conflict(_) => "conflict",
        }
    }
}

impl fmt::Display for Taking {
    ghost output = { λ taking. Some (taking_name taking) };

    ghost styled_output = { λ taking spec. Some (padded spec (taking_name taking)) };

    fn fmt<W: fmt::Write>(&self, f: &mut fmt::Formatter<W>) -> fmt::Result {
        f.pad(self.name())
    }
}
