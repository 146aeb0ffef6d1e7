//! The lines about an action whose words are wrong.

use crate::day::{explain_no_day, explain_past_the_end};
use crate::shown::Shown;
use crate::verbs::{Form, Parts, form_of, names_of, nearest};
use clap::ArgMatches;
use ill_days::read_day;
use ill_line::command_line::Argument;
use ill_saved::{Desk, FileStore, RECORD_LIMIT, Role};
use ill_values::{Day, Item, OutOfMemory, TextFault};
use std::alloc::Global;
use std::rt::Files;

/// Appends the lines about the words of `ill act` that are wrong for the role of the desk. If the desk cannot be opened
/// again, it appends nothing.
pub fn explain_action<T: Files>(
    rt: &T,
    alloc: Global,
    text: &mut String,
    matches: &ArgMatches<'_>,
) -> Result<(), OutOfMemory> {
    let Some(words) = matches.get_strs(Argument::Words.id()) else {
        return Ok(());
    };
    let file = matches.get_str(Argument::File.id()).unwrap_or_default();
    let today = matches
        .get_str(Argument::Today.id())
        .and_then(|word| read_day(word.as_bytes()).ok());
    match role_at(rt, alloc, file) {
        Some(role) => explain_words(alloc, text, role, today, words),
        None => Ok(()),
    }
}

/// Returns the role of the desk in `file`, if there is one that can be opened.
fn role_at<T: Files>(rt: &T, alloc: Global, file: &str) -> Option<Role> {
    let store = FileStore::at(rt, alloc, file, RECORD_LIMIT).ok()?;
    let desk = Desk::start(alloc, store).ok()?;
    Some(desk.sides().role())
}

/// Appends the lines about `words`, which name no action of `role` on the day `today`. The first is the verb, the
/// others are its parts. Appends nothing if there are no words.
fn explain_words(
    alloc: Global,
    text: &mut String,
    role: Role,
    today: Option<Day>,
    words: &[&str],
) -> Result<(), OutOfMemory> {
    for word in words {
        if word.is_empty() || word.contains(' ') {
            return explain_no_word(text, word);
        }
    }
    let Some((verb, parts)) = words.split_first() else {
        return Ok(());
    };
    match form_of(verb) {
        None => explain_no_verb(alloc, text, role, verb),
        Some(form) if form.role != role => explain_other_role(text, role, form),
        Some(form) if role == Role::Responder && today.is_none() => explain_no_today(text, form),
        Some(form) => explain_parts(alloc, text, form, parts),
    }
}

/// Appends a line about `word`, which no action may have: it is empty or holds a space.
fn explain_no_word(text: &mut String, word: &str) -> Result<(), OutOfMemory> {
    let shown = Shown::of(word);
    if word.is_empty() {
        return writeln!(text, "  A word of the action is empty.");
    }
    writeln!(
        text,
        "  {shown} holds a space: give its words one by one, without quotes."
    )
}

/// Appends a line about a word that is no verb, with the nearest verb or all verbs of the role.
fn explain_no_verb(
    alloc: Global,
    text: &mut String,
    role: Role,
    word: &str,
) -> Result<(), OutOfMemory> {
    let shown = Shown::of(word);
    match nearest(alloc, &names_of(alloc, role)?, word)? {
        Some(near) => writeln!(text, "  {shown} is no verb: the nearest one is `{near}`."),
        None => {
            writeln!(text, "  {shown} is no verb.")?;
            explain_verbs(text, role)
        }
    }
}

/// Appends a line about the verb of `form`, which only the other role has. A line with the verbs of `role` follows.
fn explain_other_role(text: &mut String, role: Role, form: Form) -> Result<(), OutOfMemory> {
    let verb = form.verb;
    let other = form.role.name();
    let own = role.name();
    writeln!(
        text,
        "  `{verb}` is a verb of a {other}, and this is the desk of a {own}."
    )?;
    explain_verbs(text, role)
}

/// Appends a line with the verbs of `role`.
fn explain_verbs(text: &mut String, role: Role) -> Result<(), OutOfMemory> {
    let name = role.name();
    write!(text, "  The verbs of a {name}: ")?;
    let names = names_of(*text.allocator(), role)?;
    text.push_str(names.join(*text.allocator(), ", ")?.as_str())?;
    writeln!(text, ".")
}

/// Appends that the day of a responder's action is missing.
fn explain_no_today(text: &mut String, form: Form) -> Result<(), OutOfMemory> {
    let verb = form.verb;
    writeln!(
        text,
        "  A responder's action has a day: `--today DAY` before `{verb}`."
    )
}

/// Appends the lines about `parts`, which are wrong after the verb of `form`. There are too few, too many, or one is
/// wrong.
fn explain_parts(
    alloc: Global,
    text: &mut String,
    form: Form,
    parts: &[&str],
) -> Result<(), OutOfMemory> {
    let (least, most) = form.parts.counts();
    if parts.len() < least {
        return writeln!(text, "  A part is missing: the form is {form}.");
    }
    match parts.get(most) {
        Some(part) => {
            let shown = Shown::of(part);
            writeln!(text, "  {shown} is too much: the form is {form}.")
        }
        None => explain_part(alloc, text, form, parts),
    }
}

/// Appends the lines about a wrong part after a verb. The number of parts is right.
fn explain_part(
    alloc: Global,
    text: &mut String,
    form: Form,
    parts: &[&str],
) -> Result<(), OutOfMemory> {
    let Some((first, others)) = parts.split_first() else {
        return Ok(());
    };
    match form.parts {
        Parts::Nothing => Ok(()),
        Parts::YesOrNo => explain_neither(text, form, first),
        Parts::Result => explain_no_result(text, first),
        Parts::Wished => explain_no_wish(text, form, first),
        Parts::Due => explain_no_due(text, form, first),
        Parts::Grant => explain_grant(text, form, first, others.first().copied()),
        Parts::Item if *first != "none" && Day::read(first.as_bytes()).is_err() => {
            explain_no_wish(text, form, first)
        }
        Parts::Item => print_text(alloc, text, "item", others),
    }
}

/// Appends that `part` is neither yes nor no.
fn explain_neither(text: &mut String, form: Form, part: &str) -> Result<(), OutOfMemory> {
    let shown = Shown::of(part);
    writeln!(text, "  {shown} is neither yes nor no: the form is {form}.")
}

/// Appends that `part` is no result, and all results.
fn explain_no_result(text: &mut String, part: &str) -> Result<(), OutOfMemory> {
    let shown = Shown::of(part);
    writeln!(text, "  {shown} is no result.")?;
    writeln!(
        text,
        "  The results: conditional, retry, unfilled, locations-provided, will-supply, hold-placed, estimate."
    )
}

/// Appends that `part` is neither a day nor the word `none`, and the reason why it is no day.
fn explain_no_wish(text: &mut String, form: Form, part: &str) -> Result<(), OutOfMemory> {
    if let Err(fault) = Day::read(part.as_bytes()) {
        explain_no_day(text, part, fault)?;
    }
    writeln!(text, "  `none` stands for no day: the form is {form}.")
}

/// Appends the reason why `part` is no due date: neither a day, nor `+` and a number of days after the day of the
/// action.
fn explain_no_due(text: &mut String, form: Form, part: &str) -> Result<(), OutOfMemory> {
    match part.strip_prefix('+') {
        Some(days) => explain_no_days(text, part, days),
        None => {
            if let Err(fault) = Day::read(part.as_bytes()) {
                explain_no_day(text, part, fault)?;
            }
            writeln!(
                text,
                "  `+14` is the day 14 days after today: the form is {form}."
            )
        }
    }
}

/// Appends the reason why `part` names no day. It is a `+`, and then `days`. Its digits are wrong, or the day is past
/// the end of the calendar.
fn explain_no_days(text: &mut String, part: &str, days: &str) -> Result<(), OutOfMemory> {
    let shown = Shown::of(part);
    let are_digits = days.bytes().all(|byte| byte.is_ascii_digit());
    if !are_digits || !(1..=5).contains(&days.len()) {
        return writeln!(
            text,
            "  {shown} is no day: after `+` stand one to five digits."
        );
    }
    explain_past_the_end(text, part)
}

/// Appends the lines about the wrong parts of a Renew-Answer: `word`, which should be yes or no, and the due date
/// `due`, if there is a second part.
fn explain_grant(
    text: &mut String,
    form: Form,
    word: &str,
    due: Option<&str>,
) -> Result<(), OutOfMemory> {
    match (word, due) {
        ("yes", None) => writeln!(text, "  A part is missing: the form is {form}."),
        ("yes", Some(due)) => explain_no_due(text, form, due),
        ("no", Some(due)) => {
            let shown = Shown::of(due);
            writeln!(text, "  {shown} is too much: the form is {form}.")
        }
        _ => explain_neither(text, form, word),
    }
}

/// Appends the reason why the words of `ill note` are no note.
pub fn explain_note(
    alloc: Global,
    text: &mut String,
    matches: &ArgMatches<'_>,
) -> Result<(), OutOfMemory> {
    let words = matches.get_strs(Argument::NoteWords.id());
    print_text(alloc, text, "note", words.unwrap_or_default())
}

/// Appends the reason why `words`, joined by spaces, are no `name`: no item, or no note. Appends nothing if they are
/// one, or are empty.
fn print_text(
    alloc: Global,
    text: &mut String,
    name: &str,
    words: &[&str],
) -> Result<(), OutOfMemory> {
    let whole = words.join(alloc, " ")?;
    match Item::new(alloc, whole.as_bytes()) {
        Ok(_) | Err(TextFault::Empty) => Ok(()),
        Err(TextFault::TooLong) => explain_too_long(text, name, whole.len()),
        Err(TextFault::BadByte) => explain_control(text, name, whole.as_str()),
        Err(TextFault::OutOfMemory) => Err(OutOfMemory),
    }
}

/// Appends that a `name`, an item or a note, has `size` bytes and so too many.
fn explain_too_long(text: &mut String, name: &str, size: usize) -> Result<(), OutOfMemory> {
    match name {
        "note" => writeln!(text, "  The note has {size} bytes: it has 200 at most."),
        _ => writeln!(text, "  The item has {size} bytes: it has 200 at most."),
    }
}

/// Appends the place, counted from 1, of the first control character in `whole`, the text of a `name`: an item or a
/// note.
fn explain_control(text: &mut String, name: &str, whole: &str) -> Result<(), OutOfMemory> {
    let shown = Shown::of(whole);
    for (place, byte) in (1_u64..).zip(whole.bytes()) {
        if byte.is_ascii_control() {
            return writeln!(
                text,
                "  Byte {place} of the {name} {shown} is a control character."
            );
        }
    }
    Ok(())
}
