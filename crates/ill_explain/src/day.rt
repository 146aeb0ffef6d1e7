//! Explains words that are no days.

use crate::shown::Shown;
use ill_days::read_day;
use ill_values::{DayFault, Number, OutOfMemory};
use ill_words::words::number;

/// Appends a line about `word`, the value of an option that wants a day, if it is no day.
pub(crate) fn explain_day(text: &mut String, word: &str) -> Result<(), OutOfMemory> {
    match read_day(word.as_bytes()) {
        Ok(_) => Ok(()),
        Err(fault) => explain_no_day(text, word, fault),
    }
}

/// Appends a line about `word`, which is no day, with the reason `fault`.
pub fn explain_no_day(text: &mut String, word: &str, fault: DayFault) -> Result<(), OutOfMemory> {
    let shown = Shown::of(word);
    match fault {
        DayFault::NotDigits => writeln!(
            text,
            "  {shown} is no day: a day has eight digits, as 20250301."
        ),
        DayFault::OutOfRange => writeln!(text, "  {shown} is no day: the years are 1900 to 9999."),
        DayFault::NotADate => writeln!(text, "  {shown} is no day: the calendar has no such day."),
    }
}

/// Appends a line about `word`, the value of `--due-before`, if it is no day. It may also be `+` and a number of days
/// after the day in `today`, the value of `--today`. A wrong `today` has a line of its own.
pub(crate) fn explain_due_before(
    text: &mut String,
    word: &str,
    today: Option<&str>,
) -> Result<(), OutOfMemory> {
    let Some(digits) = word.strip_prefix('+') else {
        return explain_day(text, word);
    };
    let shown = Shown::of(word);
    match (number(digits.as_bytes()), today) {
        (None, _) => writeln!(
            text,
            "  {shown} is no day: after `+` stands a number from 1 to 255."
        ),
        (Some(_), None) => writeln!(text, "  {shown} counts from a day: give --today too."),
        (Some(days), Some(today)) => explain_days_after(text, word, days, today),
    }
}

/// Appends a line about `word`, which says `days` after `today`, if the calendar has no such day.
fn explain_days_after(
    text: &mut String,
    word: &str,
    days: Number,
    today: &str,
) -> Result<(), OutOfMemory> {
    match read_day(today.as_bytes()) {
        Ok(today) if today.after(days.get().into()).is_err() => explain_past_the_end(text, word),
        _ => Ok(()),
    }
}

/// Appends that the day of `word`, a `+` and a number of days, is past the end of the calendar.
pub(crate) fn explain_past_the_end(text: &mut String, word: &str) -> Result<(), OutOfMemory> {
    let shown = Shown::of(word);
    writeln!(
        text,
        "  {shown} leads past the last day of the calendar, 99991231."
    )
}
