//! The command line as objects of JSON, for the tools of this repository: one object on each line.

use crate::lines::{ABOUT, about, example, help, line};
use crate::texts::ILL;
use ill_core::STATES;
use ill_line::command_line::{Argument, NAMES, OPTIONS, SHELF_NAMES};
use ill_line::entry::Entry;
use ill_line::grammar::VERSION;
use ill_saved::Role;
use ill_text::json::{Value, push_members, push_plain};
use ill_values::OutOfMemory;

/// Appends the program, and then each command with its arguments.
pub fn push_command_line(text: &mut Vec<u8>) -> Result<(), OutOfMemory> {
    push_program(text)?;
    push_argument(text, None, Argument::Explain)?;
    for name in NAMES.iter().filter(|name| !name.is_of_shelves()) {
        push_entry(text, Entry::Plain(*name))?;
    }
    push_entry(text, Entry::Shelf)?;
    for name in &SHELF_NAMES {
        push_entry(text, Entry::OnShelf(*name))?;
    }
    Ok(())
}

/// Appends an object of `fields`, on a line.
pub fn push_object<'a>(
    text: &mut Vec<u8>,
    fields: &[(&'a str, Value<'a>)],
) -> Result<(), OutOfMemory> {
    push_plain(text, "{")?;
    push_members(text, b"", fields)?;
    push_plain(text, "}\n")
}

/// Appends the program: its version, its help, and all options.
fn push_program(text: &mut Vec<u8>) -> Result<(), OutOfMemory> {
    push_object(
        text,
        &[
            ("kind", Value::Text(b"program")),
            ("version", Value::Text(VERSION.as_bytes())),
            ("about", Value::Text(ABOUT.as_bytes())),
            ("help", Value::Text(ILL.as_bytes())),
            ("options", Value::Words(&OPTIONS)),
        ],
    )
}

/// Appends a command, and then its arguments.
fn push_entry(text: &mut Vec<u8>, entry: Entry) -> Result<(), OutOfMemory> {
    push_object(
        text,
        &[
            ("kind", Value::Text(b"command")),
            ("command", Value::Text(entry.word().as_bytes())),
            ("shelf", Value::Flag(entry.is_on_shelf())),
            ("about", Value::Text(about(entry).as_bytes())),
            ("help", Value::Text(help(entry).as_bytes())),
            ("example", optional(example(entry))),
        ],
    )?;
    push_arguments(text, entry, entry.arguments())?;
    push_arguments(text, entry, entry.further())
}

/// Appends these arguments of a command.
fn push_arguments(
    text: &mut Vec<u8>,
    entry: Entry,
    arguments: &[Argument],
) -> Result<(), OutOfMemory> {
    for argument in arguments {
        push_argument(text, Some(entry), *argument)?;
    }
    Ok(())
}

/// Appends `argument`, an argument of the command `entry`. Without a command it is one of the program and of each
/// command.
fn push_argument(
    text: &mut Vec<u8>,
    entry: Option<Entry>,
    argument: Argument,
) -> Result<(), OutOfMemory> {
    push_plain(text, "{")?;
    push_shape(text, entry, argument)?;
    push_values(text, argument)?;
    push_plain(text, "}\n")
}

/// Appends the fields of `argument`, all but the words that it may have. `entry` is its command, if it is of one.
fn push_shape(
    text: &mut Vec<u8>,
    entry: Option<Entry>,
    argument: Argument,
) -> Result<(), OutOfMemory> {
    let is_on_shelf = is_on_shelf(entry);
    let shape = argument.shape();
    push_members(
        text,
        b"",
        &[
            ("kind", Value::Text(b"argument")),
            ("command", optional(word_of(entry))),
            ("shelf", Value::Flag(is_on_shelf)),
            ("name", Value::Text(argument.id().as_bytes())),
            ("option", Value::Flag(shape.is_option())),
            ("value", optional(argument.value(is_on_shelf))),
            ("help", Value::Text(line(argument, is_on_shelf).as_bytes())),
            ("required", Value::Flag(shape.is_required())),
            ("repeats", Value::Flag(shape.has_words())),
            ("rest", Value::Flag(shape.takes_rest())),
        ],
    )
}

/// Returns the word of a command, if there is one.
fn word_of<'a>(entry: Option<Entry>) -> Option<&'a str> {
    match entry {
        Some(entry) => Some(entry.word()),
        None => None,
    }
}

/// Returns true if there is a command, and it is one on a shelf.
fn is_on_shelf(entry: Option<Entry>) -> bool {
    match entry {
        Some(entry) => entry.is_on_shelf(),
        None => false,
    }
}

/// Appends the words that an argument may have, as a field after others.
fn push_values(text: &mut Vec<u8>, argument: Argument) -> Result<(), OutOfMemory> {
    let values = values_of(text, argument)?;
    push_members(text, b",", &[("values", Value::Words(&values))])
}

/// Returns the words that an argument may have, in the memory of `text`. Returns no words if it may have any.
fn values_of(text: &Vec<u8>, argument: Argument) -> Result<Vec<&'static str>, OutOfMemory> {
    let alloc = *text.allocator();
    let values = match argument {
        Argument::Role => Vec::from_slice(
            alloc,
            &[Role::Requester.name(), Role::Responder.name()],
        )?,
        Argument::InState => STATES.iter().map(|state| state.name()).collect(alloc)?,
        _ => Vec::new(alloc),
    };
    Ok(values)
}

/// Returns the value of `word`, which is missing if there is none.
fn optional(word: Option<&str>) -> Value<'_> {
    match word {
        Some(word) => Value::Text(word.as_bytes()),
        None => Value::Missing,
    }
}
