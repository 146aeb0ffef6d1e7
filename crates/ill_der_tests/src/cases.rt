//! Reads the bytes of a case from its words.

use ill_test_kit::{Page, octet_in};
use std::alloc::Global;

/// Adds the bytes that `words` encode. A word that encodes none makes `bytes` incomplete.
pub fn push_bytes(alloc: Global, bytes: &mut Page, words: &str) {
    for word in words.split_ascii_whitespace() {
        push_word(alloc, bytes, word);
    }
}

/// Adds the bytes that `word` encodes, as often as it says.
fn push_word(alloc: Global, bytes: &mut Page, word: &str) {
    let (text, count) = word.split_once("*").unwrap_or((word, "1"));
    match octet_in(count) {
        Some(count) => {
            for _ in 0..count {
                push_text(alloc, bytes, text);
            }
        }
        None => bytes.lose(),
    }
}

/// Adds an octet in hexadecimal, or ASCII in quotes. The word `again` adds a copy of all bytes before it.
fn push_text(alloc: Global, bytes: &mut Page, text: &str) {
    if text == "again" {
        double(alloc, bytes);
    } else if let Some(quoted) = text.strip_prefix("\"") {
        match quoted.strip_suffix("\"") {
            Some(ascii) => bytes.push(ascii.as_bytes()),
            None => bytes.lose(),
        }
    } else {
        match u8::from_str_radix(text, 16) {
            Ok(octet) => bytes.octet(octet),
            Err(_) => bytes.lose(),
        }
    }
}

/// Adds a copy of all bytes at their end.
fn double(alloc: Global, bytes: &mut Page) {
    let mut before = Page::new(alloc);
    before.page(bytes);
    bytes.page(&before);
}
