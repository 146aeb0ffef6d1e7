//! Splits a line into its words.

use std::alloc::Global;

/// A word, bare or in quotes.
#[derive(Drop)]
pub struct Word {
    /// The letters of the word, without quotes.
    pub text: String,
    /// True if the word was in quotes.
    pub is_quoted: bool,
}

impl Word {
    /// Returns true if this word is `word`, without quotes.
    pub fn is(&self, word: &str) -> bool {
        !self.is_quoted && self.text.as_str() == word
    }
}

/// Returns copies of the words, or `None` if memory runs out.
pub fn copied(alloc: Global, words: &[Word]) -> Option<Vec<Word>> {
    let mut copy = Vec::new(alloc);
    for word in words {
        let text = word.text.clone().ok()?;
        let is_quoted = word.is_quoted;
        copy.push(Word { text, is_quoted }).ok()?;
    }
    Some(copy)
}

/// Returns the texts of the words, or `None` if memory runs out.
pub fn texts(alloc: Global, words: &[Word]) -> Option<Vec<&str>> {
    words
        .iter()
        .map(|word| word.text.as_str())
        .collect(alloc)
        .ok()
}

/// Returns the words before the first bare `mark`, and the words after it, if `mark` is among them.
pub(crate) fn cut<'a>(words: &'a [Word], mark: &str) -> (&'a [Word], Option<&'a [Word]>) {
    for (index, word) in words.iter().enumerate() {
        if word.is(mark) {
            let before = words.get(..index).unwrap_or(words);
            return (before, words.get(index.saturating_add(1)..));
        }
    }
    (words, None)
}

/// The place of the next letter of a line.
#[derive(Clone, Copy)]
enum Place {
    /// The letter is between two words.
    Between,
    /// The letter is in a bare word.
    Bare,
    /// The letter is in quotes.
    Quoted,
    /// The letter follows a backslash in quotes.
    Escape,
    /// The letter follows `\x`.
    FirstDigit,
    /// The letter follows `\x` and this digit.
    SecondDigit(u32),
}

/// The words so far, and the letters of the word that has not ended.
#[derive(Drop)]
struct Splitter {
    /// The allocator of all words.
    alloc: Global,
    /// The words that have ended.
    words: Vec<Word>,
    /// The letters of the word that has not ended.
    letters: String,
    /// The place of the next letter.
    place: Place,
}

/// Returns the words of a line. A word in quotes may be empty or have spaces. In it `\n`, `\r`, `\t`, `\"` and `\\`
/// stand for a letter. `\x7F` stands for an octet below 80 in hexadecimal. Returns `None` if quotes are open at the
/// end, a backslash has no meaning, or memory runs out.
pub(crate) fn words_of(alloc: Global, line: &str) -> Option<Vec<Word>> {
    let mut splitter = Splitter {
        alloc,
        words: Vec::new(alloc),
        letters: String::new(alloc),
        place: Place::Between,
    };
    for letter in line.chars() {
        splitter.take(letter)?;
    }
    splitter.finish()
}

impl Splitter {
    /// Reads a letter. Returns `None` if the letter has no meaning at its place, or if memory runs out.
    fn take(&mut self, letter: char) -> Option<()> {
        match self.place {
            Place::Between => self.begin(letter),
            Place::Bare => self.bare(letter),
            Place::Quoted => self.quoted(letter),
            Place::Escape => self.escaped(letter),
            Place::FirstDigit => self.go(Place::SecondDigit(letter.to_digit(16)?)),
            Place::SecondDigit(first) => self.octet(first, letter.to_digit(16)?),
        }
    }

    /// Reads a letter between two words.
    fn begin(&mut self, letter: char) -> Option<()> {
        match letter {
            ' ' => Some(()),
            '"' => self.go(Place::Quoted),
            _ => {
                self.place = Place::Bare;
                self.letters.push(letter).ok()
            }
        }
    }

    /// Sets the place of the next letter to `place`. Never returns `None`.
    fn go(&mut self, place: Place) -> Option<()> {
        self.place = place;
        Some(())
    }

    /// Reads a letter in a bare word.
    fn bare(&mut self, letter: char) -> Option<()> {
        match letter {
            ' ' => self.end(false),
            _ => self.letters.push(letter).ok(),
        }
    }

    /// Reads a letter in quotes.
    fn quoted(&mut self, letter: char) -> Option<()> {
        match letter {
            '"' => self.end(true),
            '\\' => self.go(Place::Escape),
            _ => self.letters.push(letter).ok(),
        }
    }

    /// Reads a letter after a backslash.
    fn escaped(&mut self, letter: char) -> Option<()> {
        if letter == 'x' {
            return self.go(Place::FirstDigit);
        }
        self.place = Place::Quoted;
        self.letters.push(meaning(letter)?).ok()
    }

    /// Adds the letter with these two hexadecimal digits.
    fn octet(&mut self, first: u32, second: u32) -> Option<()> {
        self.place = Place::Quoted;
        let code = first.checked_mul(16)?.checked_add(second)?;
        self.letters.push(char::from_u32(code)?).ok()
    }

    /// Ends the word of the letters so far, and adds it to the words.
    fn end(&mut self, is_quoted: bool) -> Option<()> {
        self.place = Place::Between;
        let text = std::mem::replace(&mut self.letters, String::new(self.alloc));
        self.words.push(Word { text, is_quoted }).ok()
    }

    /// Returns all words at the end of the line, or `None` if quotes are open there.
    fn finish(mut self) -> Option<Vec<Word>> {
        match self.place {
            Place::Between => Some(self.words),
            Place::Bare => {
                self.end(false)?;
                Some(self.words)
            }
            _ => None,
        }
    }
}

/// Returns the letter that `letter` stands for after a backslash, or `None` if it stands for none.
fn meaning(letter: char) -> Option<char> {
    match letter {
        'n' => Some('\n'),
        'r' => Some('\r'),
        't' => Some('\t'),
        '"' | '\\' => Some(letter),
        _ => None,
    }
}
