//! The command line as `clap` reads it: the program, its commands, and their arguments. A help adds its texts.

ghost use Rattle.std.specs.Prelude.{◌≡◌};
ghost use Rattle.clap.specs.Words.{app_of, rule_of};

use crate::command_line::{Argument, NAMES, SHELF_NAMES};
use crate::entry::Entry;
use clap::{Arg, Command, Error};
use std::alloc::Global;

/// The version, which `ill --version` writes.
pub const VERSION: &str = "0.2.0";

/// The texts of a help. None of them changes how words are read.
pub trait Texts {
    /// Returns `program` with its texts.
    fn on_program<'a>(&self, program: Command<'a>) -> Command<'a>
        ensures { app_of result ≡ app_of program.entry };

    /// Returns `command` with the texts of `entry`.
    fn on_command<'a>(&self, command: Command<'a>, entry: Entry) -> Command<'a>
        ensures { app_of result ≡ app_of command.entry };

    /// Returns `arg` with the line of `argument`. `is_on_shelf` is true of a command on a shelf.
    fn on_argument<'a>(&self, arg: Arg<'a>, argument: Argument, is_on_shelf: bool) -> Arg<'a>
        ensures { rule_of result ≡ rule_of arg.entry };
}

/// No texts.
#[derive(Clone, Copy)]
pub struct NoTexts;

impl Texts for NoTexts {
    fn on_program<'a>(&self, program: Command<'a>) -> Command<'a> {
        program
    }

    fn on_command<'a>(&self, command: Command<'a>, _entry: Entry) -> Command<'a> {
        command
    }

    fn on_argument<'a>(&self, arg: Arg<'a>, _argument: Argument, _is_on_shelf: bool) -> Arg<'a> {
        arg
    }
}

/// Returns the parser of the command line of `ill`, with all commands. `texts` has the texts of its help.
pub fn command<'a, T: Texts>(alloc: Global, texts: &T) -> Result<Command<'a>, Error> {
    let program = Command::new(alloc, "ill")
        .version(VERSION)
        .subcommand_required(true);
    let mut command = texts
        .on_program(program)
        .arg(argument(alloc, texts, Argument::Explain, false))?;
    for name in NAMES.iter().filter(|name| !name.is_of_shelves()) {
        command = command.subcommand(subcommand(alloc, texts, Entry::Plain(*name))?)?;
    }
    Ok(command.subcommand(shelf(alloc, texts)?)?)
}

/// Returns the parser of `ill shelf`, with the commands on a shelf.
fn shelf<'a, T: Texts>(alloc: Global, texts: &T) -> Result<Command<'a>, Error> {
    let mut command = subcommand(alloc, texts, Entry::Shelf)?.subcommand_required(true);
    for name in &SHELF_NAMES {
        command = command.subcommand(subcommand(alloc, texts, Entry::OnShelf(*name))?)?;
    }
    Ok(command)
}

/// Returns the parser of the command `entry`: its texts, its arguments and `--explain`.
fn subcommand<'a, T: Texts>(alloc: Global, texts: &T, entry: Entry) -> Result<Command<'a>, Error> {
    let mut command = texts.on_command(Command::new(alloc, entry.word()), entry);
    for it in entry.arguments().iter().chain(entry.further()) {
        command = command.arg(argument(alloc, texts, *it, entry.is_on_shelf()))?;
    }
    Ok(command.arg(argument(alloc, texts, Argument::Explain, false))?)
}

/// Returns `argument` for `clap`, with its text. `is_on_shelf` is true of a command on a shelf.
fn argument<'a, T: Texts>(
    alloc: Global,
    texts: &T,
    argument: Argument,
    is_on_shelf: bool,
) -> Arg<'a> {
    texts.on_argument(argument.arg(alloc, is_on_shelf), argument, is_on_shelf)
}
