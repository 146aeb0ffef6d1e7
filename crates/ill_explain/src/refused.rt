//! The lines about words that are refused before a file is opened: an option among those of an action, and the file of
//! a desk of a shelf.

use crate::shown::Shown;
use clap::ArgMatches;
use ill_line::command_line::{Argument, Name, is_option};
use ill_line::guard::refuse_desk_of_shelf;
use ill_line::request::{Call, has_option, read_words};
use ill_values::OutOfMemory;
use std::alloc::Global;
use std::rt::Files;

/// Appends the lines about an option among the words of an action or a note, or about a desk of a shelf.
pub fn explain_refused<T: Files>(
    rt: &T,
    text: &mut String,
    words: &[&str],
    name: Name,
    matches: &ArgMatches<'_>,
) -> Result<(), OutOfMemory> {
    let alloc = *text.allocator();
    let action = matches.get_strs(Argument::Words.id()).unwrap_or_default();
    if has_option(words, action) {
        return explain_options(text, name, action);
    }
    match read_words(alloc, words) {
        Ok(call) => explain_guarded(rt, alloc, text, name, &call),
        Err(_) => Ok(()),
    }
}

/// Appends the lines about `call` if it is a request for one desk that the guard refuses. Appends nothing else.
fn explain_guarded<T: Files>(
    rt: &T,
    alloc: Global,
    text: &mut String,
    name: Name,
    call: &Call<'_>,
) -> Result<(), OutOfMemory> {
    match call {
        Call::Desk(request) if refuse_desk_of_shelf(rt, alloc, request).is_err() => {
            explain_desk_of_shelf(text, name, request.desk_at_stake().unwrap_or_default())
        }
        _ => Ok(()),
    }
}

/// Appends that the first option in `action` stands among its words, and how it becomes part of a title or a note.
fn explain_options(text: &mut String, name: Name, action: &[&str]) -> Result<(), OutOfMemory> {
    let option = action.iter().find(|word| is_option(word));
    let shown = Shown::of(option.copied().unwrap_or_default());
    let (whole, part) = match name {
        Name::Note => ("note", "note"),
        _ => ("action", "title"),
    };
    writeln!(
        text,
        "  {shown} is an option, and stands among the words of the {whole}: type it before them."
    )?;
    writeln!(
        text,
        "  If it is part of the {part}, type `--` right before the words."
    )
}

/// Appends that `file` is a desk of a shelf, and the command of the shelf.
fn explain_desk_of_shelf(text: &mut String, name: Name, file: &str) -> Result<(), OutOfMemory> {
    let shown = Shown::of(file);
    let word = name.word();
    match name {
        Name::New => writeln!(
            text,
            "  {shown} is for a desk of a shelf: `ill shelf act --new-group` begins one, or mail does."
        ),
        _ => writeln!(
            text,
            "  {shown} is a desk of a shelf: use `ill shelf {word}`, with the folder of the shelf as DIR."
        ),
    }
}
