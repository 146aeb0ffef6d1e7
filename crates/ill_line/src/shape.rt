//! The shapes of arguments on the command line.

use clap::{Arg, ArgAction};

/// The shape of an argument on the command line. The options with a value have the word that stands for it.
#[derive(Clone, Copy)]
pub enum Shape<'a> {
    /// One word, which has to be there.
    Word,
    /// One word, which may be left out.
    OptionalWord,
    /// One word, which has to be there and may begin with a hyphen.
    AnyWord,
    /// One word or more.
    Words,
    /// All the words that remain, whatever they begin with.
    Rest,
    /// An option without a value.
    Flag,
    /// An option with a value, which may begin with a hyphen.
    Valued(&'a str),
    /// An option with a value that may begin with a hyphen. The option has to be there.
    RequiredValue(&'a str),
    /// An option with a path, which may not begin with a hyphen.
    Path(&'a str),
}

impl<'a> Shape<'a> {
    /// Returns the word that stands for an argument with the name `name`, or for its value. A flag has none.
    pub fn value(self, name: &'a str) -> Option<&'a str> {
        match self {
            Shape::Flag => None,
            Shape::Valued(value) | Shape::RequiredValue(value) | Shape::Path(value) => Some(value),
            _ => Some(name),
        }
    }

    /// Returns true if an argument with this shape is an option.
    pub fn is_option(self) -> bool {
        matches!(
            self,
            Shape::Flag | Shape::Valued(_) | Shape::RequiredValue(_) | Shape::Path(_)
        )
    }

    /// Returns true if an argument with this shape has to be there.
    pub fn is_required(self) -> bool {
        !matches!(
            self,
            Shape::OptionalWord | Shape::Flag | Shape::Valued(_) | Shape::Path(_)
        )
    }

    /// Returns true if an argument with this shape may have several words.
    pub fn has_words(self) -> bool {
        matches!(self, Shape::Words | Shape::Rest)
    }

    /// Returns true if an argument with this shape takes all the words that remain.
    pub fn takes_rest(self) -> bool {
        matches!(self, Shape::Rest)
    }

    /// Returns true if the text of an argument with this shape may begin with a hyphen.
    fn takes_hyphens(self) -> bool {
        matches!(
            self,
            Shape::AnyWord | Shape::Rest | Shape::Valued(_) | Shape::RequiredValue(_)
        )
    }

    /// Returns the argument `arg` of `clap` with this shape. An option has the name `name`.
    pub fn shaped(self, arg: Arg<'a>, name: &'a str) -> Arg<'a> {
        let arg = arg
            .required(self.is_required())
            .allow_hyphen_values(self.takes_hyphens());
        match self {
            Shape::Flag => arg.long(name).action(ArgAction::SetTrue),
            Shape::Valued(_) | Shape::RequiredValue(_) | Shape::Path(_) => arg.long(name),
            Shape::Words => arg.action(ArgAction::Append).num_args(1..),
            Shape::Rest => arg
                .action(ArgAction::Append)
                .num_args(1..)
                .trailing_var_arg(true),
            Shape::Word | Shape::OptionalWord | Shape::AnyWord => arg,
        }
    }
}
