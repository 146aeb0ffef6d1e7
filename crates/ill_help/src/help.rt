//! The help as `clap` prints it.

use crate::lines::{ABOUT, about, example, help, line};
use crate::texts::ILL;
use clap::{Arg, Command, Error};
use ill_line::command_line::Argument;
use ill_line::entry::Entry;
use ill_line::grammar::{Texts, command};
use std::alloc::Global;

/// The texts of `ill --help`, and of the help of each command.
#[derive(Clone, Copy)]
struct Help;

impl Texts for Help {
    fn on_program<'a>(&self, program: Command<'a>) -> Command<'a> {
        program.about(ABOUT).after_long_help(ILL)
    }

    fn on_command<'a>(&self, command: Command<'a>, entry: Entry) -> Command<'a> {
        let command = command.about(about(entry)).long_about(help(entry));
        match example(entry) {
            Some(example) => command.after_long_help(example),
            None => command,
        }
    }

    fn on_argument<'a>(&self, arg: Arg<'a>, argument: Argument, is_on_shelf: bool) -> Arg<'a> {
        arg.help(line(argument, is_on_shelf))
    }
}

/// Returns the answer of `clap` to the words of a command line that ask for a help, as an error. It has the text.
/// Returns None if `clap` reads the words as a command.
pub fn help_for(alloc: Global, words: &[&str]) -> Option<Error> {
    match command(alloc, &Help) {
        Ok(command) => command.try_get_matches_from(words).err(),
        Err(error) => Some(error),
    }
}
