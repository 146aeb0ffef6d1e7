//! The lines about wrong arguments, with the right form of each.

use crate::action::{explain_action, explain_note};
use crate::day::{explain_day, explain_due_before};
use crate::file::explain_reserved;
use crate::shown::Shown;
use crate::verbs::nearest;
use clap::ArgMatches;
use ill_core::{STATES, State};
use ill_line::command_line::{Argument, Name};
use ill_saved::LockFiles;
use ill_text::diary::is_name;
use ill_values::{OutOfMemory, TextFault, TxnId};
use ill_words::words::{number, who};
use std::alloc::Global;

/// Appends a line about each wrong argument of the command `name`. If `text` is then still empty, it appends the lines
/// about arguments that are wrong together.
pub fn explain_arguments<T: LockFiles>(
    rt: &T,
    alloc: Global,
    text: &mut String,
    name: Name,
    matches: &ArgMatches<'_>,
) -> Result<(), OutOfMemory> {
    for argument in name.arguments() {
        if let Some(word) = matches.get_str(argument.id()) {
            explain_argument(alloc, text, *argument, word, matches)?;
        }
    }
    if text.is_empty() {
        explain_together(rt, alloc, text, name, matches)?;
    }
    Ok(())
}

/// Appends the lines about arguments that are wrong together, although each is right alone.
fn explain_together<T: LockFiles>(
    rt: &T,
    alloc: Global,
    text: &mut String,
    name: Name,
    matches: &ArgMatches<'_>,
) -> Result<(), OutOfMemory> {
    if has_name_without_day(matches) {
        return writeln!(text, "  --by names who acts on a day: give --today too.");
    }
    match name {
        Name::Act => explain_action(rt, alloc, text, matches),
        Name::Note => explain_note(alloc, text, matches),
        Name::Outbox => writeln!(
            text,
            "  Say where the messages go: a folder, or --stream, and not both. Letters want a folder."
        ),
        Name::Take => writeln!(
            text,
            "  --today is for messages that are kept: give --keep too."
        ),
        Name::Key => writeln!(
            text,
            "  A key is shown or read: --show or --read, and not both."
        ),
        Name::Figures => writeln!(text, "  --to may not be before --from."),
        Name::Exchange => writeln!(
            text,
            "  --overdue and --expire want the day: `--today 20250301`."
        ),
        _ => Ok(()),
    }
}

/// Returns true if the name of a person is given, but no day.
fn has_name_without_day(matches: &ArgMatches<'_>) -> bool {
    matches.get_str(Argument::By.id()).is_some()
        && matches.get_str(Argument::NightDay.id()).is_none()
}

/// Appends a line about `word`, the text of `argument`, if it is wrong. `matches` are all words of the command.
fn explain_argument(
    alloc: Global,
    text: &mut String,
    argument: Argument,
    word: &str,
    matches: &ArgMatches<'_>,
) -> Result<(), OutOfMemory> {
    match argument {
        Argument::NewFile | Argument::KeyFile => explain_reserved(text, word).map(|_| ()),
        Argument::Role => explain_role(text, word),
        Argument::Group => explain_qualifier(alloc, text, "group", word),
        Argument::Transaction => explain_qualifier(alloc, text, "transaction", word),
        Argument::Today
        | Argument::OnDay
        | Argument::Since
        | Argument::ReportDay
        | Argument::From
        | Argument::To
        | Argument::NightDay => explain_day(text, word),
        Argument::DueBefore => explain_due_before(
            text,
            word,
            matches.get_str(Argument::OnDay.id()),
        ),
        Argument::Ahead => explain_ahead(text, word),
        Argument::By => print_name(text, word),
        Argument::InState => explain_state(alloc, text, word),
        Argument::Number => explain_number(text, word),
        Argument::Last => explain_last(text, word),
        _ => Ok(()),
    }
}

/// Appends a line about `word`, if it is no role.
fn explain_role(text: &mut String, word: &str) -> Result<(), OutOfMemory> {
    if who(word.as_bytes()).is_some() {
        return Ok(());
    }
    let shown = Shown::of(word);
    writeln!(text, "  {shown} is no role: it is requester or responder.")
}

/// Appends a line about `word`, if it is no name of a person for the diary.
fn print_name(text: &mut String, word: &str) -> Result<(), OutOfMemory> {
    if is_name(word) {
        return Ok(());
    }
    let shown = Shown::of(word);
    writeln!(
        text,
        "  {shown} is no name for the diary: it may have no space, and is not `-`."
    )
}

/// Appends a line about `word`, if it is no qualifier of a loan. `name` says which one: group or transaction.
fn explain_qualifier(
    alloc: Global,
    text: &mut String,
    name: &str,
    word: &str,
) -> Result<(), OutOfMemory> {
    let shown = Shown::of(word);
    match TxnId::new(alloc, word.as_bytes(), b"-") {
        Ok(_) => Ok(()),
        Err(TextFault::Empty) => writeln!(
            text,
            "  The {name} is empty: it has 1 to 64 characters."
        ),
        Err(TextFault::TooLong) => {
            let size = word.len();
            writeln!(
                text,
                "  The {name} {shown} has {size} bytes: it has 64 at most."
            )
        }
        Err(TextFault::BadByte) => explain_bad_byte(text, name, word),
        Err(TextFault::OutOfMemory) => Err(OutOfMemory),
    }
}

/// Appends two lines about the first byte of `word` that a qualifier may not have. `name` says which one: group or
/// transaction.
fn explain_bad_byte(text: &mut String, name: &str, word: &str) -> Result<(), OutOfMemory> {
    let shown = Shown::of(word);
    for (place, byte) in (1_u64..).zip(word.bytes()) {
        if !matches!(byte, b' '..=b'~') {
            writeln!(
                text,
                "  Byte {place} of the {name} {shown} is {byte:02X}, in hexadecimal."
            )?;
            return writeln!(
                text,
                "  It has characters of ASCII only, from space to tilde."
            );
        }
    }
    Ok(())
}

/// Appends a line about `word`, if it is no state.
fn explain_state(alloc: Global, text: &mut String, word: &str) -> Result<(), OutOfMemory> {
    if State::read(word.as_bytes()).is_some() {
        return Ok(());
    }
    let shown = Shown::of(word);
    let names: Vec<&str> = STATES.iter().map(|state| state.name()).collect(alloc)?;
    let capitals = word.to_ascii_uppercase(alloc)?;
    match nearest(alloc, &names, capitals.as_str())? {
        Some(near) => writeln!(text, "  {shown} is no state: the nearest one is `{near}`."),
        None => {
            let all = names.join(alloc, ", ")?;
            writeln!(text, "  {shown} is no state: it is one of {all}.")
        }
    }
}

/// Appends a line about `word`, if it is no number of a message.
fn explain_number(text: &mut String, word: &str) -> Result<(), OutOfMemory> {
    if number(word.as_bytes()).is_some() {
        return Ok(());
    }
    let shown = Shown::of(word);
    writeln!(text, "  {shown} is no number of a message: it is 1 to 255.")
}

/// Appends a line about `word`, if it is no number of days within which a due date is soon.
fn explain_ahead(text: &mut String, word: &str) -> Result<(), OutOfMemory> {
    if number(word.as_bytes()).is_some() {
        return Ok(());
    }
    let shown = Shown::of(word);
    writeln!(text, "  {shown} is no number of days: it is 1 to 255.")
}

/// Appends a line about `word`, if it is no number of messages to show.
fn explain_last(text: &mut String, word: &str) -> Result<(), OutOfMemory> {
    if number(word.as_bytes()).is_some() {
        return Ok(());
    }
    let shown = Shown::of(word);
    writeln!(text, "  {shown} is no count of messages: it is 1 to 255.")
}
