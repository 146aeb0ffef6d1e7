//! Open answers: those that ended a loan and ask staff for something, until the note of the loan says that it is done.

ghost use Rattle.std.specs.Prelude.{◌≡◌, ◌++◌, ◌∷◌, [], filter, map, option_copied, IfOk, OnOk};
ghost use Rattle.ill_news.specs.OpenAnswers.{asks_staff, begins_with_done, goes_on, is_asking, is_left, is_open, left_open, says_done};

use crate::printed::is_printed;
use ill_beside::notes::Notes;
use ill_values::{AnswerResult, Apdu, Body, OutOfMemory};
use std::alloc::Global;

/// The word with which the note of a loan begins if a person has dealt with its answer.
const DONE: &[u8] = b"done";

/// Returns the open answers in `came` that `news` lack, in their order.
pub(crate) fn left_open<'a>(
    alloc: Global,
    notes: &Notes,
    news: &[Apdu],
    came: &'a [Apdu],
) -> Result<Vec<&'a Apdu>, OutOfMemory>
    ensures { IfOk result (λ left. map (λ a. a.now) left.items ≡ left_open notes.now news.now came.now) }
{
    let mut left = Vec::new(alloc);
    for apdu in came {
        push_if_left(&mut left, notes, news, apdu)?;
    }
    Ok(left)
}

/// Appends the message `apdu` to `left`, if it is an open answer and `news` lack it.
fn push_if_left<'a>(
    left: &mut Vec<&'a Apdu>,
    notes: &Notes,
    news: &[Apdu],
    apdu: &'a Apdu,
) -> Result<(), OutOfMemory>
    ensures { OnOk result (map (λ a. a.now) left.new.items ≡ map (λ a. a.now) left.old.items
        ++ filter (is_left notes.now news.now) (apdu.now ∷ [])) }
{
    if is_left(notes, news, apdu)? {
        left.push(apdu)?;
    }
    Ok(())
}

/// Returns true if `apdu` is an open answer, and `news` lack it.
fn is_left(notes: &Notes, news: &[Apdu], apdu: &Apdu) -> Result<bool, OutOfMemory>
    ensures { IfOk result (λ is. is ≡ is_left notes.now news.now apdu.now) }
{
    Ok(is_open(notes, apdu)? && !is_printed(news, apdu))
}

/// Returns true if `apdu` is an answer that asks staff for something, and the note of its loan does not say `done`.
fn is_open(notes: &Notes, apdu: &Apdu) -> Result<bool, OutOfMemory>
    ensures { IfOk result (λ is. is ≡ is_open notes.now apdu.now) }
{
    Ok(is_asking(&apdu.body) && !says_done(notes.note_of(&apdu.txn)?))
}

/// Returns true if a message is an answer that asks staff for something.
fn is_asking(body: &Body) -> bool
    ensures { result ≡ is_asking body.now }
{
    match body {
        Body::IllAnswer { result } => asks_staff(*result),
        _ => false,
    }
}

/// Returns true if an answer with this result ends a loan and asks staff for something: to ask again, or to read a
/// letter.
fn asks_staff(answer: AnswerResult) -> bool
    ensures { result ≡ asks_staff answer }
{
    matches!(
        answer,
        AnswerResult::Retry | AnswerResult::Estimate | AnswerResult::LocationsProvided
    )
}

/// Returns true if there is a note, and it begins with the word `done`.
fn says_done(note: Option<&str>) -> bool
    ensures { result ≡ says_done (option_copied note.entry) }
{
    match note {
        Some(text) => begins_with_done(text.as_bytes()),
        None => false,
    }
}

/// Returns true if `text` begins with the word `done`, in small or large letters.
fn begins_with_done(text: &[u8]) -> bool
    ensures { result ≡ begins_with_done text.now }
{
    let (word, rest) = text.split_at(text.len().min(DONE.len()));
    word.eq_ignore_ascii_case(DONE) && !goes_on(rest)
}

/// Returns true if `text` begins with a letter or a digit. So a word before it goes on.
fn goes_on(text: &[u8]) -> bool
    ensures { result ≡ goes_on text.now }
{
    match text.first() {
        Some(byte) => byte.is_ascii_alphanumeric(),
        None => false,
    }
}
