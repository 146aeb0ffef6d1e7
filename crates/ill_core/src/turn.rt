//! Defines the turn: the library that acts next.

ghost use Rattle.std.specs.Prelude.{◌≡◌, Some};
ghost use Rattle.std.specs.Fmt.{padded};
ghost use Rattle.ill_core.specs.Words.{turn_name};

use std::fmt;

/// The library that acts next in a transaction, as far as the record of a side shows. A side may have verbs in the
/// other's turn: a requester in PENDING may cancel. A turn is displayed by its name, as `mine`.
#[derive(Clone, Copy, Debug, PartialEq, Eq, Hash)]
pub enum Turn {
    /// Nobody acts next: the loan is over.
    Over,
    /// The library of this side acts next.
    Mine,
    /// The library of the other side acts next.
    Theirs,
}

impl Turn {
    /// Returns the name of the turn: `over`, `mine` or `theirs`.
    pub fn name(self) -> &'static str
        ensures { result.now ≡ turn_name self }
    {
        match self {
            Turn::Over => "over",
            Turn::Mine => "mine",
            Turn::Theirs => "theirs",
        }
    }
}

impl fmt::Display for Turn {
    ghost output = { λ turn. Some (turn_name turn) };

    ghost styled_output = { λ turn spec. Some (padded spec (turn_name turn)) };

    fn fmt<W: fmt::Write>(&self, f: &mut fmt::Formatter<W>) -> fmt::Result {
        f.pad(self.name())
    }
}
