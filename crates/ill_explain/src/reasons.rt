//! The reasons for a fault of a command line.

use crate::arguments::explain_arguments;
use crate::file::explain_desk_fault;
use crate::input::{Passed, explain_bad_bytes, explain_bad_line};
use crate::key::{explain_bad_key, explain_key_not_made};
use crate::refused::explain_refused;
use crate::shelf::explain_shelf_fault;
use clap::ArgMatches;
use ill_files::machine::Machine;
use ill_line::command_line::{Argument, Name, SHELF};
use ill_line::grammar::{NoTexts, command};
use ill_line::request::DASHES;
use ill_saved::LockFiles;
use ill_text::fault::ToolFault;
use ill_values::OutOfMemory;
use std::io::Write;

/// The option that asks for explanations.
const OPTION: &str = "--explain";

/// Returns true if `words` ask for explanations, before any `--`. The first word is the name of the program.
pub fn is_asked(words: &[&str]) -> bool {
    words
        .iter()
        .skip(1)
        .take_while(|word| **word != DASHES)
        .any(|word| *word == OPTION)
}

/// A command line that has failed.
#[derive(Drop)]
struct Failed<'a, 'b> {
    /// The words of the command line, from the name of the program on.
    words: &'a [&'a str],
    /// The command of the line.
    name: Name,
    /// The arguments of the command.
    matches: &'a ArgMatches<'b>,
    /// The fault with which the command ended.
    fault: ToolFault,
    /// The good messages of the input before the place at which the command stopped, if they were counted.
    passed: Option<Passed>,
}

impl Failed<'_, '_> {
    /// Returns the good messages before the place at which the command stopped. Returns None with the option `--key`:
    /// in a sealed letter this place is unknown.
    fn passed_on(&self) -> Option<Passed> {
        match self.matches.get_str(Argument::Key.id()) {
            Some(_) => None,
            None => self.passed,
        }
    }
}

/// Writes the reasons for `fault` of a command line to `errors`, if its words ask for them. `passed` are the good
/// messages of its input, if they were counted. Failures are ignored.
pub fn explain<T: LockFiles, W: Write, E: Write>(
    machine: &mut Machine<'_, T, W, E>,
    words: &[&str],
    fault: ToolFault,
    passed: Option<Passed>,
) {
    if is_asked(words) {
        let (rt, alloc) = (machine.rt, machine.alloc);
        let mut text = String::new(alloc);
        let _ = tell(rt, &mut text, words, fault, passed);
        let _ = machine.errors.write_all(text.as_bytes());
    }
}

/// Appends to `text` the lines about a fault of the command line with these words. Returns None if the words cannot be
/// read again, or memory runs out.
fn tell<T: LockFiles>(
    rt: &T,
    text: &mut String,
    words: &[&str],
    fault: ToolFault,
    passed: Option<Passed>,
) -> Option<()> {
    let alloc = *text.allocator();
    let matches = command(alloc, &NoTexts)
        .ok()?
        .try_get_matches_from(words)
        .ok()?;
    let (first, found) = matches.subcommand()?;
    let is_on_shelf = first == SHELF;
    let (word, matches) = if is_on_shelf {
        found.subcommand()?
    } else {
        (first, found)
    };
    let failed = Failed {
        words,
        name: Name::read(word)?,
        matches,
        fault,
        passed,
    };
    explain_first(rt, text, &failed).ok()?;
    explain_place(rt, text, &failed, is_on_shelf).ok()
}

/// Appends to `text` the lines about words that are refused before a file is opened, if the fault is one of arguments.
fn explain_first<T: LockFiles>(
    rt: &T,
    text: &mut String,
    failed: &Failed<'_, '_>,
) -> Result<(), OutOfMemory> {
    match failed.fault {
        ToolFault::Arguments => explain_refused(
            rt,
            text,
            failed.words,
            failed.name,
            failed.matches,
        ),
        _ => Ok(()),
    }
}

/// Appends to `text` the lines about a fault of a command, on a shelf or on one desk. Only a fault of a desk has other
/// lines on a shelf.
fn explain_place<T: LockFiles>(
    rt: &T,
    text: &mut String,
    failed: &Failed<'_, '_>,
    is_on_shelf: bool,
) -> Result<(), OutOfMemory> {
    let alloc = *text.allocator();
    match failed.fault {
        ToolFault::Desk(fault) if is_on_shelf => {
            explain_shelf_fault(rt, alloc, text, failed.matches, fault)
        }
        _ => print_fault(rt, text, failed),
    }
}

/// Appends to `text` the lines about a fault of a command on one desk. On a shelf these are also the lines about each
/// fault that is not of a desk.
fn print_fault<T: LockFiles>(
    rt: &T,
    text: &mut String,
    failed: &Failed<'_, '_>,
) -> Result<(), OutOfMemory> {
    let alloc = *text.allocator();
    match failed.fault {
        ToolFault::Arguments => explain_arguments(rt, alloc, text, failed.name, failed.matches),
        ToolFault::Der(fault) => explain_bad_bytes(text, fault, failed.passed_on()),
        ToolFault::Script(line) => explain_bad_line(text, failed.name, line),
        ToolFault::Desk(fault) if matches!(failed.name, Name::Key) => {
            explain_key_not_made(text, failed.matches, fault)
        }
        ToolFault::Desk(fault) => explain_desk_fault(rt, alloc, text, failed.matches, fault),
        ToolFault::Key(bad) => explain_bad_key(text, failed.matches, bad),
        ToolFault::NotSealed => writeln!(
            text,
            "  The input is no letter of the other library, sealed with this key, or it was changed on its way."
        ),
        ToolFault::TooMany => writeln!(text, "  Divide the input, and give its parts one by one."),
        ToolFault::Deferred => writeln!(
            text,
            "  Mails stay in the folder for the next run: their lines, and the last one, say why."
        ),
        ToolFault::Read => writeln!(text, "  Standard input cannot be read to its end."),
        ToolFault::Write => writeln!(
            text,
            "  Standard output takes no more: its reader has gone, or the disk is full."
        ),
        ToolFault::OutOfMemory => writeln!(text, "  The machine has no memory left for it."),
    }
}
