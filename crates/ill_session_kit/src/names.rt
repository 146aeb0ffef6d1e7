//! Reads bytes from their words.
//!
//! Octets are hexadecimal digits, and text is in quotes. A name stands for the bytes that a `let` line gave it.
//! `NAME[..9]` is its first nine bytes, and `NAME[9..]` the bytes after them. `1000*NAME` repeats its bytes a thousand
//! times. A function returns `None` if its words encode no bytes, or if memory runs out.

use crate::words::Word;
use ill_test_kit::{count_in, number_in};
use std::alloc::Global;

/// The names that `let` lines gave.
#[derive(Drop)]
pub struct Names {
    /// The allocator of all values.
    alloc: Global,
    /// The names, with the oldest first.
    names: Vec<Name>,
    /// The count of names that were given before the first case, and hold in every case. `None` before the first case.
    shared: Option<usize>,
}

/// Words, and the names that they use.
#[derive(Clone, Copy)]
pub struct Phrase<'a> {
    /// The words.
    pub words: &'a [Word],
    /// The names that the words use.
    pub names: &'a Names,
}

/// A name, and the bytes that it stands for.
#[derive(Drop)]
struct Name {
    /// The name itself.
    word: String,
    /// The bytes that it stands for.
    bytes: Vec<u8>,
}

impl Names {
    /// Returns an empty list of names.
    pub(crate) fn new(alloc: Global) -> Names {
        Names {
            alloc,
            names: Vec::new(alloc),
            shared: None,
        }
    }

    /// Begins a case: drops the names that another case gave, and keeps those that were given before the first case.
    pub(crate) fn begin_case(&mut self) {
        match self.shared {
            Some(count) => self.names.truncate(count),
            None => self.shared = Some(self.names.len()),
        }
    }

    /// Defines the first word as a name for the bytes of the others.
    pub(crate) fn add(&mut self, words: &[Word]) -> Option<()> {
        let (first, others) = words.split_first()?;
        let name = Name {
            word: first.text.clone().ok()?,
            bytes: self.bytes(others)?,
        };
        self.names.push(name).ok()
    }

    /// Returns the bytes of `words`.
    pub fn bytes(&self, words: &[Word]) -> Option<Vec<u8>> {
        let mut bytes = Vec::new(self.alloc);
        self.push(&mut bytes, words)?;
        Some(bytes)
    }

    /// Adds the bytes of `words`.
    pub(crate) fn push(&self, bytes: &mut Vec<u8>, words: &[Word]) -> Option<()> {
        for word in words {
            self.push_word(bytes, word)?;
        }
        Some(())
    }

    /// Adds the bytes of a word, as often as it says.
    fn push_word(&self, bytes: &mut Vec<u8>, word: &Word) -> Option<()> {
        let text = word.text.as_str();
        if word.is_quoted {
            return bytes.extend_from_slice(text.as_bytes()).ok();
        }
        let (times, piece) = text.split_once('*').unwrap_or(("1", text));
        for _ in 0..number_in(times)? {
            self.push_piece(bytes, piece)?;
        }
        Some(())
    }

    /// Adds the bytes of a word that has no count.
    fn push_piece(&self, bytes: &mut Vec<u8>, piece: &str) -> Option<()> {
        let (word, range) = piece.split_once('[').unwrap_or((piece, "0..]"));
        match self.find(word) {
            Some(named) => bytes.extend_from_slice(part(named, range)?).ok(),
            None => bytes
                .extend_from_slice(&hex::decode(self.alloc, piece).ok()?)
                .ok(),
        }
    }

    /// Returns the bytes of a name, or `None` if `word` is not a name.
    fn find(&self, word: &str) -> Option<&[u8]> {
        for name in &self.names {
            if name.word.as_str() == word {
                return Some(&name.bytes);
            }
        }
        None
    }

    /// Returns the first name whose bytes, repeated, are `bytes`, after the count of repetitions.
    pub(crate) fn name_of(&self, bytes: &[u8]) -> Option<(u32, &str)> {
        for name in &self.names {
            if let Some(times) = times_over(bytes, &name.bytes) {
                return Some((times, name.word.as_str()));
            }
        }
        None
    }
}

/// Returns the part of `bytes` that a range such as `..9]` or `9..]` names.
fn part<'a>(bytes: &'a [u8], range: &str) -> Option<&'a [u8]> {
    let (first, after) = range.strip_suffix(']')?.split_once("..")?;
    if first.is_empty() {
        bytes.get(..count_in(after)?)
    } else {
        bytes.get(count_in(first)?..)
    }
}

/// Returns how often `piece` is repeated in `bytes`, or `None` if they are no repetition of it.
fn times_over(bytes: &[u8], piece: &[u8]) -> Option<u32> {
    let mut rest = bytes;
    let mut times: u32 = 0;
    for _ in 0..bytes.len() {
        if rest.is_empty() {
            break;
        }
        rest = after(rest, piece)?;
        times = times.saturating_add(1);
    }
    if rest.is_empty() { Some(times) } else { None }
}

/// Returns the bytes after `piece`, or `None` if `bytes` do not begin with it.
fn after<'a>(bytes: &'a [u8], piece: &[u8]) -> Option<&'a [u8]> {
    if bytes.starts_with(piece) {
        bytes.get(piece.len()..)
    } else {
        None
    }
}
