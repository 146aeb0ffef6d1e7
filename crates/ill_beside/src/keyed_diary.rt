//! A diary by the keys of its messages: the lines that name a message are found without a look at the others.

ghost use Rattle.std.specs.Prelude.{◌≡◌, [], ◌++◌, map, option_copied, None, IfOk, OnOk};
ghost use Rattle.ill_beside.specs.Diary.{named, said_by};
ghost use Rattle.ill_beside.specs.FileLines.{lines_of};
ghost use Rattle.ill_beside.specs.KeyedDiary.{day_if, days_named, key_said, last_after, later, latest_among, looks_days, looks_last, with_day};
ghost use Rattle.ill_beside.specs.Places.{looked_up};
ghost use Rattle.ill_beside.specs.Since.{last_day};

use crate::diary::{Message, said_by};
use crate::file_lines::FileLines;
use crate::places::{KeyForm, Places, thing_at};
use ill_values::{Day, OutOfMemory};
use std::alloc::Global;
use std::marker::Model;

/// The last line that names a message.
#[derive(Clone, Copy)]
struct LastLine {
    /// The number of lines before it.
    place: usize,
    /// Its day.
    day: Day,
}

/// A diary, and the places of the lines that name each message.
#[derive(Drop)]
pub struct KeyedDiary {
    /// The lines of the diary.
    lines: FileLines,
    /// Their places, by the keys of their messages.
    places: Places,
}

/// Contracts see the lines alone. By the invariant `places` has the places of the lines, by the keys of the messages
/// that they name.
impl Model for KeyedDiary {
    ghost use Rattle.std.specs.Prelude.{ℕ, List};

    ghost Value = { List (List ℕ) };

    ghost use Rattle.ill_beside.specs.FileLines.{lines_of};
    ghost use Rattle.ill_beside.specs.KeyedDiary.{key_said};
    ghost use Rattle.ill_beside.specs.Places.{ArePlaces};

    ghost view = { λ diary. lines_of diary.lines };

    ghost invariant = { λ diary. ArePlaces key_said diary.places.by_key.entries diary.lines.lines.items };
}

impl KeyedDiary {
    /// Returns an empty diary.
    pub fn none(alloc: Global) -> KeyedDiary
        ensures { result ≡ [] }
    {
        KeyedDiary {
            lines: FileLines::none(alloc),
            places: Places::none(alloc),
        }
    }

    /// Returns the diary with these lines.
    pub fn of(alloc: Global, lines: FileLines) -> Result<KeyedDiary, OutOfMemory>
        ensures { IfOk result (λ diary. diary ≡ lines_of lines) }
    {
        let places = Places::of(alloc, lines.lines(), &LineKeys)?;
        Ok(KeyedDiary { lines, places })
    }

    /// Returns the lines of the diary.
    pub fn as_lines(&self) -> &FileLines
        ensures { lines_of result.now ≡ self.now }
    {
        &self.lines
    }

    /// Returns the day of the last line that names one of `messages`, if one does.
    pub(crate) fn last_day(&self, messages: &[Message]) -> Option<Day>
        ensures { result ≡ last_day (map named messages.now) self.now }
    {
        match latest_among(&self.places, self.lines.lines(), messages) {
            Some(last) => Some(last.day),
            None => None,
        }
    }

    /// Returns the days of the lines that name the message with this key, in their order.
    pub fn days_of(&self, alloc: Global, key: &Vec<u8>) -> Result<Vec<Day>, OutOfMemory>
        ensures { IfOk result (λ days. days.items ≡ days_named key.now.items self.now) }
    {
        days_at(alloc, key, self.lines.lines(), self.places.with_key(key))
    }
}

/// Gives each line the key of the message that it names, if it names one.
#[derive(Clone, Copy)]
struct LineKeys;

impl KeyForm<Vec<u8>> for LineKeys {
    ghost key_of = { key_said };

    fn key_of(&self, alloc: Global, line: &Vec<u8>) -> Result<Option<Vec<u8>>, OutOfMemory> {
        match said_by(line) {
            Some(entry) => Ok(Some(Vec::from_slice(alloc, entry.message.as_bytes())?)),
            None => Ok(None),
        }
    }
}

/// Returns the latest of `lines` that names one of `messages`, if a line does. `places` has the places of `lines`, by
/// their keys.
fn latest_among(places: &Places, lines: &[Vec<u8>], messages: &[Message]) -> Option<LastLine>
    ensures { result ≡ latest_among places.now.by_key.entries lines.now messages.now }
{
    let mut found = None;
    for message in messages {
        let last = last_line(&message.key, lines, places.with_key(&message.key));
        found = later(found, last);
    }
    found
}

/// Returns the last of the lines at `places` in `lines` that names the message with this key, if one does.
fn last_line(key: &[u8], lines: &[Vec<u8>], places: &[usize]) -> Option<LastLine>
    ensures { result ≡ looked_up (looks_last key.now) lines.now None places.now }
{
    let mut found = None;
    for place in places {
        found = last_at(found, key, *place, thing_at(lines, *place));
    }
    found
}

/// Returns what `last_after` returns for `line`, which is at `place`. If there is no line, returns `found`.
fn last_at(
    found: Option<LastLine>,
    key: &[u8],
    place: usize,
    line: Option<&Vec<u8>>,
) -> Option<LastLine>
    ensures { result ≡ looks_last key.now found place (option_copied line.entry) }
{
    match line {
        Some(line) => last_after(found, key, place, line),
        None => found,
    }
}

/// Returns the last line that names the message with this key, among `line`, which is at `place`, and the lines before
/// it. `found` is the last one of the lines before it.
fn last_after(found: Option<LastLine>, key: &[u8], place: usize, line: &[u8]) -> Option<LastLine>
    ensures { result ≡ last_after key.now place (said_by line.now) found }
{
    match said_by(line) {
        Some(entry) => {
            if entry.message.as_bytes() == key {
                return Some(LastLine {
                    place,
                    day: entry.day,
                });
            }
            found
        }
        None => found,
    }
}

/// Returns the later of two lines. If there is one line alone, returns this line, and `None` if there is none.
fn later(one: Option<LastLine>, other: Option<LastLine>) -> Option<LastLine>
    ensures { result ≡ later one other }
{
    match (one, other) {
        (Some(first), Some(second)) if second.place < first.place => one,
        (_, Some(_)) => other,
        _ => one,
    }
}

/// Returns the days of those of the lines at `places` in `lines` that name the message with this key, in their order.
fn days_at(
    alloc: Global,
    key: &[u8],
    lines: &[Vec<u8>],
    places: &[usize],
) -> Result<Vec<Day>, OutOfMemory>
    ensures { IfOk result (λ days. days.items ≡ looked_up (looks_days key.now) lines.now [] places.now) }
{
    let mut days = Vec::new(alloc);
    for place in places {
        push_found(&mut days, key, thing_at(lines, *place))?;
    }
    Ok(days)
}

/// Appends to `days` the day of `line`, if the line is there and names the message with this key.
fn push_found(days: &mut Vec<Day>, key: &[u8], line: Option<&Vec<u8>>) -> Result<(), OutOfMemory>
    ensures { OnOk result (days.new.items ≡ with_day key.now days.old.items (option_copied line.entry)) }
{
    match line {
        Some(line) => push_if_named(days, key, line),
        None => Ok(()),
    }
}

/// Appends to `days` the day of `line`, if the line names the message with this key.
fn push_if_named(days: &mut Vec<Day>, key: &[u8], line: &[u8]) -> Result<(), OutOfMemory>
    ensures { OnOk result (days.new.items ≡ days.old.items ++ day_if key.now (said_by line.now)) }
{
    match said_by(line) {
        Some(entry) => {
            if entry.message.as_bytes() == key {
                days.push(entry.day)?;
            }
            Ok(())
        }
        None => Ok(()),
    }
}
