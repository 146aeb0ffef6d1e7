//! Collects the bytes that a test program prints.

use std::alloc::Global;
use std::fmt::{Debug, Display};

/// A page holds bytes, and more are added at its end. If an addition fails, the page is incomplete for good.
#[derive(Drop)]
pub struct Page {
    /// The bytes that were added.
    bytes: Vec<u8>,
    /// True if no addition has failed.
    is_whole: bool,
}

impl Page {
    /// Creates an empty page.
    pub fn new(alloc: Global) -> Page {
        Page {
            bytes: Vec::new(alloc),
            is_whole: true,
        }
    }

    /// Returns the bytes, or `None` if some are missing.
    pub fn bytes(&self) -> Option<&[u8]> {
        if self.is_whole {
            Some(&self.bytes)
        } else {
            None
        }
    }

    /// Returns the bytes that were added, even if some are missing.
    pub fn so_far(&self) -> &[u8] {
        &self.bytes
    }

    /// Marks the page as incomplete.
    pub fn lose(&mut self) {
        self.is_whole = false;
    }

    /// Adds bytes.
    pub fn push(&mut self, bytes: &[u8]) {
        if self.bytes.extend_from_slice(bytes).is_err() {
            self.lose();
        }
    }

    /// Adds one byte.
    pub fn octet(&mut self, octet: u8) {
        if self.bytes.push(octet).is_err() {
            self.lose();
        }
    }

    /// Adds text.
    pub fn text(&mut self, text: &str) {
        self.push(text.as_bytes());
    }

    /// Adds `text` as a line.
    pub fn line(&mut self, text: &str) {
        self.text(text);
        self.octet(b'\n');
    }

    /// Adds `text`, and then spaces up to `width` bytes.
    pub fn text_to(&mut self, width: usize, text: &str) {
        self.text(text);
        for _ in text.len()..width {
            self.octet(b' ');
        }
    }

    /// Adds another page.
    pub fn page(&mut self, other: &Page) {
        self.push(&other.bytes);
        self.is_whole = self.is_whole && other.is_whole;
    }

    /// Adds the lines of another page, and `prefix` before each.
    pub fn page_after(&mut self, prefix: &[u8], other: &Page) {
        for line in other.bytes.split_inclusive(|byte| *byte == b'\n') {
            self.push(prefix);
            self.push(line);
        }
        self.is_whole = self.is_whole && other.is_whole;
    }

    /// Adds two hexadecimal digits for each byte, with a space between two bytes.
    pub fn hex(&mut self, bytes: &[u8]) {
        let mut between = "";
        for byte in bytes {
            self.hex_octet(between, *byte);
            between = " ";
        }
    }

    /// Adds `before`, and the two hexadecimal digits of `octet`.
    fn hex_octet(&mut self, before: &str, octet: u8) {
        match format!(in *self.bytes.allocator(); "{before}{octet:02X}") {
            Ok(text) => self.text(text.as_str()),
            Err(_) => self.lose(),
        }
    }

    /// Adds `value` as `{}` prints it.
    pub fn show<T: Display>(&mut self, value: &T) {
        match value.to_string(*self.bytes.allocator()) {
            Ok(text) => self.text(text.as_str()),
            Err(_) => self.lose(),
        }
    }

    /// Adds `value` as `{:?}` prints it.
    pub fn show_parts<T: Debug>(&mut self, value: &T) {
        match format!(in *self.bytes.allocator(); "{value:?}") {
            Ok(text) => self.text(text.as_str()),
            Err(_) => self.lose(),
        }
    }
}
