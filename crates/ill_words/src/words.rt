//! A word of a script or a command line has a meaning.
//!
//! A day is eight digits, YYYYMMDD, of a day in the years 1900 to 9999, as `20250315`.

mod actions;

ghost use Rattle.std.specs.Prelude.{◌≡◌, ◌≤◌, length, slice_index, EachIndex, IfOk, bytes_eq};
ghost use Rattle.std.specs.Bool.{OnTrue};
ghost use Rattle.std.specs.List.{list_all};
ghost use Rattle.std.specs.Int.{IsInRange};
ghost use Rattle.std.specs.Char.{is_ascii_digit};
ghost use Rattle.ill_words.specs.Words.{yes_of, who_named, committed_named, day_of, optional_day_of, is_numeral, decimal_value, due_of, days_after, number_of, bytes_of};

use crate::bytes::Bytes;
pub use actions::{deed, wish};
use hex::FromHexError;
use ill_saved::Role;
use ill_values::{Day, Number, OutOfMemory};
use std::alloc::Global;

/// The number of a message has at most `NUMBER_DIGITS` decimal digits.
const NUMBER_DIGITS: usize = 3;

/// A number of days has at most `DAYS_DIGITS` decimal digits.
const DAYS_DIGITS: usize = 5;

/// Returns true if `word` is `name`.
pub fn is(word: &[u8], name: &str) -> bool
    ensures { result ≡ bytes_eq word.now name.now }
{
    word == name.as_bytes()
}

/// Returns true for `yes` and false for `no`, if the word is either.
pub(crate) fn yes(word: &[u8]) -> Option<bool>
    ensures { result ≡ yes_of word.now }
{
    if is(word, "yes") {
        Some(true)
    } else if is(word, "no") {
        Some(false)
    } else {
        None
    }
}

/// Returns the role that the word names, if it is `requester` or `responder`.
pub fn who(word: &[u8]) -> Option<Role>
    ensures { result ≡ who_named word.now }
{
    if is(word, "requester") {
        Some(Role::Requester)
    } else if is(word, "responder") {
        Some(Role::Responder)
    } else {
        None
    }
}

/// Returns true for `new` and false for `old`, if the word is either. It names the record that the store has after a
/// failed save.
pub fn committed(word: &[u8]) -> Option<bool>
    ensures { result ≡ committed_named word.now }
{
    if is(word, "new") {
        Some(true)
    } else if is(word, "old") {
        Some(false)
    } else {
        None
    }
}

/// Returns the day that the word encodes as eight digits, if it encodes one.
pub fn day(word: &[u8]) -> Option<Day>
    ensures { result ≡ day_of word.now }
{
    Day::read(word).ok()
}

/// Returns the day on which something is due, if the word says one. It is a day or, if `from` is given, `+` and one to
/// five decimal digits of days after it.
pub(crate) fn due(word: &[u8], from: Option<Day>) -> Option<Day>
    ensures { result ≡ due_of from word.now }
{
    match (from, word) {
        (Some(from), [b'+', digits @ ..]) => days_after(from, digits),
        _ => day(word),
    }
}

/// Returns the day that `digits` say, counted from `from`. They must be one to five decimal digits, and the calendar
/// must have the day.
fn days_after(from: Day, digits: &[u8]) -> Option<Day>
    ensures { result ≡ days_after from digits.now }
{
    if is_numeral(digits, DAYS_DIGITS) {
        from.after(decimal(digits)).ok()
    } else {
        None
    }
}

/// Returns `Some` of the day that the word encodes, or `Some(None)` for the word `none`. Returns `None` for any other
/// word.
pub(crate) fn optional_day(word: &[u8]) -> Option<Option<Day>>
    ensures { result ≡ optional_day_of word.now }
{
    if is(word, "none") {
        Some(None)
    } else {
        day(word).map(Some)
    }
}

/// Returns the number that one to three decimal digits encode, if it is 1 to 255. They may begin with zeros.
pub fn number(word: &[u8]) -> Option<Number>
    ensures { result ≡ number_of word.now }
{
    if is_numeral(word, NUMBER_DIGITS) {
        Number::new(u8::try_from(decimal(word)).ok()?)
    } else {
        None
    }
}

/// Returns true if `word` is one to `most` decimal digits.
fn is_numeral(word: &[u8], most: usize) -> bool
    ensures value { result ≡ is_numeral most word.now }
    ensures few { OnTrue result (length word.now ≤ most) }
    ensures digits { OnTrue result (EachIndex word.now
        (λ k. IsInRange 48 57 (slice_index word.now k))) }
{
    (1..=most).contains(&word.len()) && is_digits(word)
}

/// Returns true if each byte of `word` is a decimal digit: 48 to 57.
fn is_digits(word: &[u8]) -> bool
    ensures value { result ≡ list_all is_ascii_digit word.now }
    ensures each { OnTrue result (EachIndex word.now
        (λ k. IsInRange 48 57 (slice_index word.now k))) }
{
    word.iter().all(|byte| byte.is_ascii_digit())
}

/// Returns the number that at most five decimal digits encode.
fn decimal(digits: &[u8]) -> u32
    requires few { length digits.now ≤ 5 }
    requires digits { EachIndex digits.now (λ k. IsInRange 48 57 (slice_index digits.now k)) }
    ensures { result ≡ decimal_value digits.now }
{
    let mut value = 0;
    for digit in digits {
        value = 10 * value + u32::from(digit - b'0');
    }
    value
}

/// Returns the bytes that the word encodes, if it does. Each byte has two hexadecimal digits of either case. The word
/// `none` encodes no bytes.
pub fn bytes(alloc: Global, word: &[u8]) -> Result<Option<Bytes>, OutOfMemory>
    ensures { IfOk result (λ bytes. bytes ≡ bytes_of word.now) }
{
    if is(word, "none") {
        return Ok(Some(Bytes::new(Vec::new(alloc))));
    }
    match hex::decode(alloc, word) {
        Ok(bytes) => Ok(Some(Bytes::new(bytes))),
        Err(FromHexError::OutOfMemory) => Err(OutOfMemory),
        Err(_) => Ok(None),
    }
}
