//! Reads the action of a side from the words of a command line.

ghost use Rattle.std.specs.Prelude.{◌≡◌, map, IfOk};
ghost use Rattle.std.specs.List.{list_all};
ghost use Rattle.ill_desk.specs.Actions.{action_named, action_for, deed_on, is_word};

use ill_saved::{Action, Role};
use ill_values::{Day, OutOfMemory};
use ill_words::words::{deed, wish};
use std::alloc::Global;

/// Returns the action that `words` name, if they name one. A requester's words name a wish, and a responder's a deed,
/// as in the line of a script. No word may be empty or hold a space.
///
/// A deed is done on a day, so without `today` no words name one. A due day may also be `+` and one to five digits:
/// that number of days after `today`.
#[tactic(auto, unfolding(crate::specs::Actions::action_named))]
pub fn action(
    alloc: Global,
    role: Role,
    today: Option<Day>,
    words: &[&str],
) -> Result<Option<Action>, OutOfMemory>
    ensures { IfOk result (λ action. action
        ≡ action_named role today (map (λ word. word.now) words.now)) }
{
    if are_words(words) {
        let words = slices(alloc, words)?;
        action_for(alloc, role, today, &words)
    } else {
        Ok(None)
    }
}

/// Returns the action that `words` name for `role`, if a script could have these words.
fn action_for(
    alloc: Global,
    role: Role,
    today: Option<Day>,
    words: &[&[u8]],
) -> Result<Option<Action>, OutOfMemory>
    ensures { IfOk result (λ action. action
        ≡ action_for role today (map (λ word. word.now) words.now)) }
{
    match role {
        Role::Requester => Ok(wish(alloc, words)?.map(Action::Wish)),
        Role::Responder => Ok(deed_on(today, words)),
    }
}

/// Returns `words` as bytes.
fn slices<'a>(alloc: Global, words: &[&'a str]) -> Result<Vec<&'a [u8]>, OutOfMemory>
    ensures { IfOk result (λ slices. map (λ word. word.now) slices.items
        ≡ map (λ word. word.now) words.now) }
{
    words.iter().map(|word| word.as_bytes()).collect(alloc)
}

/// Returns true if a script could have all of `words`.
fn are_words(words: &[&str]) -> bool
    ensures { result ≡ list_all (λ word. is_word word.now) words.now }
{
    words.iter().all(|word| is_word(word.as_bytes()))
}

/// Returns true if `word` could be a word of a script: it is not empty, and has no space.
fn is_word(word: &[u8]) -> bool
    ensures { result ≡ is_word word.now }
{
    !word.is_empty() && !word.contains(&b' ')
}

/// Returns the deed that `words` name on the day `today`. Without a day there is none.
fn deed_on(today: Option<Day>, words: &[&[u8]]) -> Option<Action>
    ensures { result ≡ deed_on today (map (λ word. word.now) words.now) }
{
    let today = today?;
    Some(Action::Deed(deed(words, Some(today))?, today))
}
