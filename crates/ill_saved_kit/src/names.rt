//! Reads bytes from their words.
//!
//! An octet is two hexadecimal digits, and text is in quotes. A name stands for the bytes that a `let` line gave it.
//! `13=02` puts 02 in the place of octet 13 of the bytes before it. If a name has several values, with `|` between
//! them, the line is a family, with one case for each value.
//!
//! A function returns `None` if its words encode no bytes, or if memory runs out.

use ill_test_kit::count_in;
use std::alloc::Global;

/// The names that `let` lines gave.
#[derive(Drop)]
pub struct Names {
    /// The allocator of all values.
    alloc: Global,
    /// The names, with the oldest first.
    names: Vec<Name>,
}

/// A name, and the values that it stands for.
#[derive(Drop)]
struct Name {
    /// The name itself.
    word: String,
    /// The values of the name, one for each case.
    values: Vec<Vec<u8>>,
}

impl Names {
    /// Returns an empty list of names.
    pub fn new(alloc: Global) -> Names {
        Names {
            alloc,
            names: Vec::new(alloc),
        }
    }

    /// Defines the first word as a name for the values of the others.
    pub fn add(&mut self, words: &str) -> Option<()> {
        let (word, values) = words.split_once(' ')?;
        let name = Name {
            word: String::from_str(self.alloc, word).ok()?,
            values: self.values(values)?,
        };
        self.names.push(name).ok()
    }

    /// Returns the values that `words` encode, with `|` between them.
    fn values(&self, words: &str) -> Option<Vec<Vec<u8>>> {
        let mut values = Vec::new(self.alloc);
        values.push(Vec::new(self.alloc)).ok()?;
        for word in words.split_whitespace() {
            self.push_value(&mut values, word)?;
        }
        Some(values)
    }

    /// Begins a new value at `|`. Any other word is added to the last value.
    fn push_value(&self, values: &mut Vec<Vec<u8>>, word: &str) -> Option<()> {
        if word == "|" {
            return values.push(Vec::new(self.alloc)).ok();
        }
        self.push_word(values.last_mut()?, word, 0)
    }

    /// Returns the count of cases of these words: the most values that one of their names has.
    pub fn cases(&self, words: &str) -> usize {
        let mut cases = 1;
        for word in words.split_whitespace() {
            let (_, piece) = word.split_once('=').unwrap_or(("", word));
            cases = cases.max(self.find(piece).len());
        }
        cases
    }

    /// Returns the bytes of these words in the case `case`.
    pub fn bytes(&self, words: &str, case: usize) -> Option<Vec<u8>> {
        let mut bytes = Vec::new(self.alloc);
        for word in words.split_whitespace() {
            self.push_word(&mut bytes, word, case)?;
        }
        Some(bytes)
    }

    /// Adds the bytes of a word, or replaces one octet.
    fn push_word(&self, bytes: &mut Vec<u8>, word: &str, case: usize) -> Option<()> {
        match word.split_once('=') {
            Some((place, piece)) => self.put_octet(bytes, place, piece, case),
            None => self.push_piece(bytes, word, case),
        }
    }

    /// Replaces the octet at `place` by the octet that `piece` encodes.
    fn put_octet(&self, bytes: &mut Vec<u8>, place: &str, piece: &str, case: usize) -> Option<()> {
        let place = count_in(place)?;
        self.push_piece(bytes, piece, case)?;
        let octet = bytes.pop()?;
        *bytes.get_mut(place)? = octet;
        Some(())
    }

    /// Adds the bytes that `piece` encodes.
    fn push_piece(&self, bytes: &mut Vec<u8>, piece: &str, case: usize) -> Option<()> {
        if let Some(text) = piece.strip_prefix('"') {
            return bytes
                .extend_from_slice(text.trim_end_matches('"').as_bytes())
                .ok();
        }
        match self.value(piece, case) {
            Some(value) => bytes.extend_from_slice(value).ok(),
            None => bytes.push(u8::from_str_radix(piece, 16).ok()?).ok(),
        }
    }

    /// Returns the value of a name in the case `case`. A single value holds in every case.
    fn value(&self, word: &str, case: usize) -> Option<&[u8]> {
        match self.find(word) {
            [] => None,
            [only] => Some(only.as_slice()),
            values => Some(values.get(case)?.as_slice()),
        }
    }

    /// Returns the values of a name, or no values if `word` is not a name.
    fn find(&self, word: &str) -> &[Vec<u8>] {
        for name in &self.names {
            if name.word.as_str() == word {
                return name.values.as_slice();
            }
        }
        &[]
    }
}
