//! Writes a line of the output.

use ill_test_kit::Page;
use std::alloc::Global;
use std::fmt::Display;

/// A line of the output, or a part of one.
#[derive(Drop)]
pub struct Line {
    /// The bytes of the line.
    page: Page,
    /// The octet for which `#` is written, if there is one.
    octet: Option<u8>,
}

impl Line {
    /// Returns an empty line, which gets `#` for `octet`, if there is one.
    pub fn new(alloc: Global, octet: Option<u8>) -> Line {
        Line {
            page: Page::new(alloc),
            octet,
        }
    }

    /// Returns the text of the line.
    pub fn page(&self) -> &Page {
        &self.page
    }

    /// Writes the text of another line.
    pub fn line(&mut self, other: &Line) {
        self.page.page(&other.page);
    }

    /// Writes `text`.
    pub fn text(&mut self, text: &str) {
        self.page.text(text);
    }

    /// Writes `value` as `{}` prints it.
    pub fn show<T: Display>(&mut self, value: &T) {
        self.page.show(value);
    }

    /// Writes a count, or `#` if it equals the octet.
    pub fn count(&mut self, count: u8) {
        if Some(count) == self.octet {
            self.text("#");
        } else {
            self.show(&count);
        }
    }

    /// Writes bytes as characters.
    pub fn ascii(&mut self, bytes: &[u8]) {
        for byte in bytes {
            self.show(&char::from(*byte));
        }
    }

    /// Writes a space and a qualifier, with `#` for each byte that equals the octet. Five or more equal bytes are
    /// written as one of them and their count.
    pub fn qualifier(&mut self, text: &[u8]) {
        self.text(" ");
        if text.len() < 5 || text[1..] != text[..text.len() - 1] {
            return self.letters(text);
        }
        self.show(&char::from(text[0]));
        self.text("*");
        self.count(u8::try_from(text.len()).unwrap_or(0));
    }

    /// Writes bytes as characters, with `#` for each byte that equals the octet.
    fn letters(&mut self, text: &[u8]) {
        for byte in text {
            if Some(*byte) == self.octet {
                self.text("#");
            } else {
                self.show(&char::from(*byte));
            }
        }
    }

    /// Writes bytes in hexadecimal, or `no bytes` if there are none.
    pub fn octets(&mut self, bytes: &[u8]) {
        if bytes.is_empty() {
            self.text("no bytes");
        }
        self.page.hex(bytes);
    }
}
