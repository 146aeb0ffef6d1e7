//! The notes of staff on loans, as the file beside a desk keeps them: a line a note. The last note of a loan counts.

ghost use Rattle.std.specs.Prelude.{◌≡◌, ◌<◌, ◌++◌, [], None, length, map, codes, option_copied, option_map, string_bytes, IfOk, IfSome, OnOk};
ghost use Rattle.std.specs.List.{position};
ghost use Rattle.ill_text.specs.Escape.{escaped};
ghost use Rattle.ill_text.specs.Keys.{loan_key};
ghost use Rattle.ill_text.specs.Json.{joined, member, optional, quoted, value_text};
ghost use Rattle.ill_text.specs.Lines.{line};
ghost use Rattle.ill_beside.specs.Diary.{at_space, is_space};
ghost use Rattle.ill_beside.specs.FileLines.{lines_in};
ghost use Rattle.ill_beside.specs.Notes.{first_words, is_note, kept_line, key_of_parts, line_key, listed_note, looks_after, note_fields, note_lines, note_of, note_text, unless_empty, words_after, words_found};
ghost use Rattle.ill_beside.specs.Places.{looked_up};

use crate::file_lines::FileLines;
use crate::places::{KeyForm, Places, thing_at};
use ill_text::escape::push_escaped;
use ill_text::json::{Value, push_members};
use ill_text::keys::loan_key;
use ill_text::lines::push_line;
use ill_values::{Item, OutOfMemory, TxnId};
use std::alloc::Global;
use std::marker::Model;

/// The notes of staff, and the places of the lines of each loan. So the note of a loan is found without a look at the
/// others.
#[derive(Drop)]
pub struct Notes {
    /// The lines of the file.
    lines: FileLines,
    /// Their places, by the keys of their loans.
    places: Places,
}

/// Contracts see the lines alone. By the invariant `places` has the places of the lines, by the keys of their loans.
impl Model for Notes {
    ghost use Rattle.std.specs.Prelude.{ℕ, List};

    ghost Value = { List (List ℕ) };

    ghost use Rattle.ill_beside.specs.FileLines.{lines_of};
    ghost use Rattle.ill_beside.specs.Notes.{line_key};
    ghost use Rattle.ill_beside.specs.Places.{ArePlaces};

    ghost view = { λ notes. lines_of notes.lines };

    ghost invariant = { λ notes. ArePlaces line_key notes.places.by_key.entries notes.lines.lines.items };
}

impl Notes {
    /// Returns the notes of an empty file.
    pub fn none(alloc: Global) -> Notes
        ensures { result ≡ [] }
    {
        Notes {
            lines: FileLines::none(alloc),
            places: Places::none(alloc),
        }
    }

    /// Returns the notes in `bytes`. A part of a line at their end is ignored.
    pub fn read(alloc: Global, bytes: &[u8]) -> Result<Notes, OutOfMemory>
        ensures { IfOk result (λ notes. notes ≡ lines_in bytes.now) }
    {
        let lines = FileLines::read(alloc, bytes)?;
        let places = Places::of(alloc, lines.lines(), &LoanKeys)?;
        Ok(Notes { lines, places })
    }

    /// Returns the note of the loan `txn`, if there is one.
    pub fn note_of(&self, txn: &TxnId) -> Result<Option<&str>, OutOfMemory>
        ensures { IfOk result (λ note. option_copied note ≡ note_of self.now txn.now) }
    {
        let begin = loan_key(self.lines.allocator(), txn)?;
        let places = self.places.with_key(&begin);
        Ok(unless_empty(last_words(&begin, self.lines.lines(), places)))
    }
}

/// Gives each line the key of its loan, if it begins with one.
#[derive(Clone, Copy)]
struct LoanKeys;

impl KeyForm<Vec<u8>> for LoanKeys {
    ghost key_of = { line_key };

    fn key_of(&self, alloc: Global, line: &Vec<u8>) -> Result<Option<Vec<u8>>, OutOfMemory> {
        match first_words(line) {
            Some((group, transaction)) => Ok(Some(key_of_parts(alloc, group, transaction)?)),
            None => Ok(None),
        }
    }
}

/// Returns the first two words of `line`, if it has two spaces at least. A space ends a word.
fn first_words(line: &[u8]) -> Option<(&[u8], &[u8])>
    ensures { option_map (λ parts. (parts.0.now, parts.1.now)) result ≡ first_words line.now }
{
    let (group, rest) = at_space(line)?;
    let (transaction, _) = at_space(rest)?;
    Some((group, transaction))
}

/// Returns the bytes before and after the first space of `text`, if there is one.
fn at_space(text: &[u8]) -> Option<(&[u8], &[u8])>
    ensures { option_map (λ parts. (parts.0.now, parts.1.now)) result ≡ at_space text.now }
{
    match find_space(text) {
        Some(place) => Some((&text[..place], &text[place + 1..])),
        None => None,
    }
}

/// Returns the place of the first space of `text`, if there is one.
fn find_space(text: &[u8]) -> Option<usize>
    ensures place { result ≡ position is_space text.now }
    ensures within { IfSome result (λ place. place < length text.now) }
{
    text.iter().position(|byte| *byte == b' ')
}

/// Returns the key with these parts, with a space after each. Their escapes are there already, as in a line.
fn key_of_parts(alloc: Global, group: &[u8], transaction: &[u8]) -> Result<Vec<u8>, OutOfMemory>
    ensures { IfOk result (λ key. key.items ≡ key_of_parts group.now transaction.now) }
{
    let mut key = Vec::from_slice(alloc, group)?;
    key.push(b' ')?;
    key.extend_from_slice(transaction)?;
    key.push(b' ')?;
    Ok(key)
}

/// Returns the words of the last of the lines at `places` in `lines` that has words after `begin`. A line has none if
/// it begins otherwise, or is not UTF-8 after `begin`.
fn last_words<'a>(begin: &[u8], lines: &'a [Vec<u8>], places: &[usize]) -> Option<&'a str>
    ensures { option_copied result ≡ looked_up (looks_after begin.now) lines.now None places.now }
{
    let mut found = None;
    for place in places {
        found = words_at(begin, thing_at(lines, *place)).or(found);
    }
    found
}

/// Returns the words of `line`, if it is there, begins with `begin`, and they are UTF-8.
fn words_at<'a>(begin: &[u8], line: Option<&'a Vec<u8>>) -> Option<&'a str>
    ensures { option_copied result ≡ words_found begin.now (option_copied line.entry) }
{
    match line {
        Some(line) => words_after(begin, line),
        None => None,
    }
}

/// Returns the words of `line`, if it begins with `begin` and they are UTF-8.
fn words_after<'a>(begin: &[u8], line: &'a [u8]) -> Option<&'a str>
    ensures { option_copied result ≡ words_after begin.now line.now }
{
    if !line.starts_with(begin) {
        return None;
    }
    match str::from_utf8(&line[begin.len()..]) {
        Ok(words) => Some(words),
        Err(_) => None,
    }
}

/// Returns `words`, or `None` if they are empty.
fn unless_empty(words: Option<&str>) -> Option<&str>
    ensures { option_copied result ≡ unless_empty (option_copied words.entry) }
{
    match words {
        Some(words) if !words.is_empty() => Some(words),
        _ => None,
    }
}

/// Appends the line of a note below that of its loan in a list, if there is a note.
pub fn push_listed_note(lines: &mut Vec<u8>, note: Option<&str>) -> Result<(), OutOfMemory>
    ensures { OnOk result (lines.new.items ≡ lines.old.items ++ listed_note (option_copied note.entry)) }
{
    let Some(words) = note else {
        return Ok(());
    };
    lines.extend_from_slice(b"    note ")?;
    push_escaped(lines, words.as_bytes())?;
    lines.push(b'\n')?;
    Ok(())
}

/// Appends the line of a note in `loan`, if there is a note.
pub fn push_note_lines(lines: &mut Vec<u8>, note: Option<&str>) -> Result<(), OutOfMemory>
    ensures { OnOk result (lines.new.items ≡ lines.old.items ++ note_lines (option_copied note.entry)) }
{
    match note {
        Some(words) => push_shown_line(lines, words),
        None => Ok(()),
    }
}

/// Appends the line in `loan` of a note with these words, escaped for a screen.
fn push_shown_line(lines: &mut Vec<u8>, words: &str) -> Result<(), OutOfMemory>
    ensures { OnOk result (lines.new.items ≡ lines.old.items ++ line (codes "note") (escaped words.now)) }
{
    let mut shown = Vec::new(*lines.allocator());
    push_escaped(&mut shown, words.as_bytes())?;
    push_line(lines, "note", &shown)
}

/// Appends the field of a note, which is `null` if there is none.
#[tactic(auto, unfolding(ill_text::specs::Json::joined))]
pub fn push_note_field(text: &mut Vec<u8>, note: Option<&str>) -> Result<(), OutOfMemory>
    ensures { OnOk result (text.new.items ≡ text.old.items
        ++ joined member (codes ",") (note_fields (option_copied note.entry))) }
{
    push_members(text, b",", &[("note", note_value(note))])
}

/// Returns the value of a note, which is missing if there is none.
fn note_value(note: Option<&str>) -> Value<'_>
    ensures { value_text result ≡ optional quoted (option_copied note.entry) }
{
    match note {
        Some(words) => Value::Text(words.as_bytes()),
        None => Value::Missing,
    }
}

/// Returns the note with these words: a space stands between two of them.
pub fn note_text(alloc: Global, words: &[&str]) -> Result<String, OutOfMemory>
    ensures { IfOk result (λ text. string_bytes text ≡ note_text (map (λ word. word.now) words.now)) }
{
    Ok(words.join(alloc, " ")?)
}

/// Returns true if a note may have this text: it is empty, or could be an item.
pub fn is_note(text: &str) -> bool
    ensures { result ≡ is_note text.now }
{
    text.is_empty() || Item::is_item(text.as_bytes())
}

/// Returns the line of a note of the loan `txn`. Without `words` it removes the note.
pub fn kept_line(alloc: Global, txn: &TxnId, words: &str) -> Result<Vec<u8>, OutOfMemory>
    ensures { IfOk result (λ line. line.items ≡ kept_line txn.now words.now) }
{
    let mut line = loan_key(alloc, txn)?;
    push_escaped(&mut line, words.as_bytes())?;
    line.push(b'\n')?;
    Ok(line)
}
