//! Words of a command line, for a person to see.

use std::fmt;

/// The greatest number of characters of a word that are shown.
const MOST: usize = 200;

/// A word in quotes, with an escape for each character on which a terminal may act. Two full stops replace the end of a
/// long word.
#[derive(Clone, Copy)]
pub struct Shown<'a> {
    /// The word as it was typed.
    word: &'a str,
}

impl<'a> Shown<'a> {
    /// Returns the shown form of `word`.
    pub fn of(word: &'a str) -> Shown<'a> {
        Shown { word }
    }
}

/// Writes the word in quotes. Of a word with more than `MOST` characters it writes the first `MOST`, and two full
/// stops.
impl fmt::Display for Shown<'_> {
    fn fmt<W: fmt::Write>(&self, f: &mut fmt::Formatter<W>) -> fmt::Result {
        let word = self.word;
        match word.char_indices().nth(MOST) {
            Some((end, _)) => {
                let prefix = word.get(..end).unwrap_or_default();
                write!(f, "{prefix:?}..")
            }
            None => write!(f, "{word:?}"),
        }
    }
}
