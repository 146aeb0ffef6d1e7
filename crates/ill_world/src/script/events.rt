//! The words of a line say an event.

ghost use Rattle.std.specs.Prelude.{◌≡◌, map, IfOk};
ghost use Rattle.ill_world.specs.Script.{event_of, deed_event, side_event, bare_event, event_with};

use crate::event::Event;
use ill_saved::Role;
use ill_values::OutOfMemory;
use ill_words::words::{bytes, committed, day, deed, is, number, who, wish};
use std::alloc::Global;

/// Returns the event that the words say, if they say one.
#[tactic(auto, unfolding(crate::specs::Script::event_of))]
pub(super) fn event(alloc: Global, words: &[&[u8]]) -> Result<Option<Event>, OutOfMemory>
    ensures { IfOk result (λ event. event ≡ event_of (map (λ word. word.now) words.now)) }
{
    match words {
        [] => Ok(None),
        [first, words @ ..] => {
            if is(first, "requester") {
                Ok(wish(alloc, words)?.map(Event::Wish))
            } else if is(first, "responder") {
                Ok(deed_on_day(words))
            } else {
                side_event(alloc, first, words)
            }
        }
    }
}

/// Returns the deed and its day that the words after `responder` say, if they say one.
fn deed_on_day(words: &[&[u8]]) -> Option<Event>
    ensures { result ≡ deed_event (map (λ word. word.now) words.now) }
{
    match words {
        [] => None,
        [today, words @ ..] => {
            let today = day(today)?;
            Some(Event::Deed(deed(words, None)?, today))
        }
    }
}

/// Returns the event that the words after the verb say, if they say one. The first of them names a side.
fn side_event(alloc: Global, verb: &[u8], words: &[&[u8]]) -> Result<Option<Event>, OutOfMemory>
    ensures { IfOk result (λ event. event
        ≡ side_event verb.now (map (λ word. word.now) words.now)) }
{
    match words {
        [] => Ok(None),
        [side] => Ok(who(side).and_then(|who| bare_event(verb, who))),
        [side, word] => match who(side) {
            Some(who) => event_with_word(alloc, verb, word, who),
            None => Ok(None),
        },
        _ => Ok(None),
    }
}

/// Returns the event that `verb` says of the side `who` without a further word, if it says one.
fn bare_event(verb: &[u8], who: Role) -> Option<Event>
    ensures { result ≡ bare_event verb.now who }
{
    if is(verb, "save") {
        Some(Event::Save(who))
    } else if is(verb, "restart") {
        Some(Event::Restart(who))
    } else {
        None
    }
}

/// Returns the event that `verb` and one more word say of the side `who`, if they say one.
fn event_with_word(
    alloc: Global,
    verb: &[u8],
    word: &[u8],
    who: Role,
) -> Result<Option<Event>, OutOfMemory>
    ensures { IfOk result (λ event. event ≡ event_with verb.now word.now who) }
{
    if is(verb, "save-fault") {
        Ok(committed(word).map(|landed| Event::SaveFault { who, landed }))
    } else if is(verb, "send") {
        Ok(number(word).map(|number| Event::Send(who, number)))
    } else if is(verb, "deliver") {
        Ok(number(word).map(|number| Event::Deliver(who, number)))
    } else if is(verb, "noise") {
        Ok(bytes(alloc, word)?.map(|bytes| Event::Noise(who, bytes)))
    } else {
        Ok(None)
    }
}
