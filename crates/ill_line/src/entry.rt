//! The commands in their places: for one desk, on a shelf, and the word `shelf` itself.

use crate::command_line::{Argument, Name, SHELF};

/// A command in its place.
#[derive(Clone, Copy)]
pub enum Entry {
    /// A command for one desk, or for none.
    Plain(Name),
    /// The command `ill shelf`, whose word stands before the commands on a shelf.
    Shelf,
    /// A command on a shelf.
    OnShelf(Name),
}

impl Entry {
    /// Returns the word of the command.
    pub fn word<'a>(self) -> &'a str {
        match self {
            Entry::Plain(name) | Entry::OnShelf(name) => name.word(),
            Entry::Shelf => SHELF,
        }
    }

    /// Returns true if it is a command on a shelf.
    pub fn is_on_shelf(self) -> bool {
        matches!(self, Entry::OnShelf(_))
    }

    /// Returns the arguments of the command, in their order.
    pub fn arguments<'a>(self) -> &'a [Argument] {
        match self {
            Entry::Plain(name) | Entry::OnShelf(name) => name.arguments(),
            Entry::Shelf => &[],
        }
    }

    /// Returns the arguments after `arguments`, which the command has on a shelf alone.
    pub fn further<'a>(self) -> &'a [Argument] {
        match self {
            Entry::OnShelf(name) => name.arguments_on_shelf(),
            Entry::Plain(_) | Entry::Shelf => &[],
        }
    }
}
