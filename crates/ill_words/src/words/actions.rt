//! The words of an action have a meaning: a requester's wish, or a responder's deed.

ghost use Rattle.std.specs.Prelude.{◌≡◌, map, IfOk};
ghost use Rattle.ill_words.specs.Words.{bare_wish_of, wish_with, request_of, spaced, wish_of, bare_deed_of, deed_with, grant_with, deed_of};

use crate::words::{due, is, optional_day, yes};
use ill_core::{Deed, Wish};
use ill_values::{AnswerResult, Day, Item, OutOfMemory, TextFault};
use std::alloc::Global;

/// Returns the wish that the words say, if they say one:
///
/// | Words | Wish |
/// |---|---|
/// | `request EXPIRY ITEM` | `Request` |
/// | `cancel` | `Cancel` |
/// | `reply yes` or `no` | `Reply` |
/// | `receive` | `Receive` |
/// | `renew WISHED` | `Renew` |
/// | `return` | `Return` |
///
/// EXPIRY and WISHED are days or `none`. ITEM is the text of an item: all the words that remain, with
/// one space between each and the next.
#[tactic(auto, unfolding(crate::specs::Words::wish_of))]
pub fn wish(alloc: Global, words: &[&[u8]]) -> Result<Option<Wish>, OutOfMemory>
    ensures { IfOk result (λ wish. wish ≡ wish_of (map (λ word. word.now) words.now)) }
{
    match words {
        [] => Ok(None),
        [verb] => Ok(bare_wish(verb)),
        [verb, word] => Ok(wish_with_word(verb, word)),
        [verb, expiry, first, more @ ..] => {
            if is(verb, "request") {
                request(alloc, expiry, first, more)
            } else {
                Ok(None)
            }
        }
    }
}

/// Returns the wish that `verb` says alone, if it says one.
fn bare_wish(verb: &[u8]) -> Option<Wish>
    ensures { result ≡ bare_wish_of verb.now }
{
    if is(verb, "cancel") {
        Some(Wish::Cancel)
    } else if is(verb, "receive") {
        Some(Wish::Receive)
    } else if is(verb, "return") {
        Some(Wish::Return)
    } else {
        None
    }
}

/// Returns the wish that `verb` says with one more `word`, if they say one.
fn wish_with_word(verb: &[u8], word: &[u8]) -> Option<Wish>
    ensures { result ≡ wish_with verb.now word.now }
{
    if is(verb, "reply") {
        yes(word).map(|yes| Wish::Reply { yes })
    } else if is(verb, "renew") {
        optional_day(word).map(|wished| Wish::Renew { wished })
    } else {
        None
    }
}

/// Returns the `Request` for the item that the words from `first` on name, with the expiry date `expiry`. Returns
/// `None` if `expiry` is no day and not `none`, or if the item is invalid.
fn request(
    alloc: Global,
    expiry: &[u8],
    first: &[u8],
    more: &[&[u8]],
) -> Result<Option<Wish>, OutOfMemory>
    ensures { IfOk result (λ wish. wish
        ≡ request_of expiry.now (spaced first.now (map (λ word. word.now) more.now))) }
{
    let Some(expiry) = optional_day(expiry) else {
        return Ok(None);
    };
    let text = joined(alloc, first, more)?;
    match Item::new(alloc, &text) {
        Ok(item) => Ok(Some(Wish::Request { expiry, item })),
        Err(TextFault::OutOfMemory) => Err(OutOfMemory),
        Err(_) => Ok(None),
    }
}

/// Returns `first` and the words `more`, with a space between each and the next.
fn joined(alloc: Global, first: &[u8], more: &[&[u8]]) -> Result<Vec<u8>, OutOfMemory>
    ensures { IfOk result (λ text. text.items
        ≡ spaced first.now (map (λ word. word.now) more.now)) }
{
    let mut text = Vec::from_slice(alloc, first)?;
    for word in more {
        text.push(b' ')?;
        text.extend_from_slice(word)?;
    }
    Ok(text)
}

/// Returns the deed that the words say, if they say one:
///
/// | Words | Deed |
/// |---|---|
/// | `answer RESULT` | `Answer` |
/// | `cancel-reply yes` or `no` | `CancelReply` |
/// | `ship DUE` | `Ship` |
/// | `renew-answer yes DUE` | `RenewAnswer` that grants |
/// | `renew-answer no` | `RenewAnswer` that refuses |
/// | `overdue`, `recall`, `check-in` or `expire` | the deed of that name |
///
/// RESULT is the name of an `AnswerResult`, such as `hold-placed`. DUE is a day or, if `from` is given, `+` and one
/// to five decimal digits of days after it.
#[tactic(auto, unfolding(crate::specs::Words::deed_of))]
pub fn deed(words: &[&[u8]], from: Option<Day>) -> Option<Deed>
    ensures { result ≡ deed_of from (map (λ word. word.now) words.now) }
{
    match words {
        [] => None,
        [verb] => bare_deed(verb),
        [verb, word] => deed_with_word(verb, word, from),
        [verb, word, day] => grant(verb, word, day, from),
        _ => None,
    }
}

/// Returns a Renew-Answer yes with the due date `day`, if `verb` and `word` are `renew-answer yes`. The date may be
/// counted from `from`.
#[tactic(auto, unfolding(crate::specs::Words::grant_with))]
fn grant(verb: &[u8], word: &[u8], day: &[u8], from: Option<Day>) -> Option<Deed>
    ensures { result ≡ grant_with from verb.now word.now day.now }
{
    if is(verb, "renew-answer") && is(word, "yes") {
        due(day, from).map(|due| Deed::RenewAnswer { granted: Some(due) })
    } else {
        None
    }
}

/// Returns the deed that `verb` says alone, if it says one.
fn bare_deed(verb: &[u8]) -> Option<Deed>
    ensures { result ≡ bare_deed_of verb.now }
{
    if is(verb, "overdue") {
        Some(Deed::Overdue)
    } else if is(verb, "recall") {
        Some(Deed::Recall)
    } else if is(verb, "check-in") {
        Some(Deed::CheckIn)
    } else if is(verb, "expire") {
        Some(Deed::Expire)
    } else {
        None
    }
}

/// Returns the deed that `verb` says with one more `word`, if they say one. A due date may be counted from `from`.
#[tactic(auto, unfolding(crate::specs::Words::deed_with))]
fn deed_with_word(verb: &[u8], word: &[u8], from: Option<Day>) -> Option<Deed>
    ensures { result ≡ deed_with from verb.now word.now }
{
    if is(verb, "answer") {
        AnswerResult::read(word).map(Deed::Answer)
    } else if is(verb, "cancel-reply") {
        yes(word).map(|yes| Deed::CancelReply { yes })
    } else if is(verb, "ship") {
        due(word, from).map(|due| Deed::Ship { due })
    } else if is(verb, "renew-answer") && is(word, "no") {
        Some(Deed::RenewAnswer { granted: None })
    } else {
        None
    }
}
