//! Prints the answers to a case.

use crate::case::{bytes_in, case_in, fault_word, key_in};
use crate::changes::{push_each_bit, push_each_front};
use ill_seal::{Key, KeyFault, hmac, seal, unseal};
use ill_test_kit::marks::{quietly, tried};
use ill_test_kit::{AnswersCases, Page};
use std::alloc::{AllocError, Global};

/// Answers the cases of letters and keys.
#[derive(Drop)]
pub struct Letters;

impl AnswersCases for Letters {
    /// Adds the answer to the case `line`, on a line. Returns None if `line` is no case.
    fn answer(&mut self, alloc: Global, page: &mut Page, line: &str) -> Option<()> {
        push_answer(alloc, page, line)?;
        page.line("");
        Some(())
    }
}

/// Adds the answer to a case.
fn push_answer(alloc: Global, output: &mut Page, line: &str) -> Option<()> {
    if let Some(words) = line.strip_prefix("each bit ") {
        push_each_bit(alloc, output, words)
    } else if let Some(words) = line.strip_prefix("each front ") {
        push_each_front(alloc, output, words)
    } else {
        let (form, words) = line.split_once(" ")?;
        push_form(alloc, output, form, words)
    }
}

/// Adds the answer to a case in the form that one word names.
fn push_form(alloc: Global, output: &mut Page, form: &str, words: &str) -> Option<()> {
    match form {
        "hmac" => push_hmac(alloc, output, words),
        "seal" => push_letter(alloc, output, words),
        "unseal" => push_text(alloc, output, words),
        "spell" => push_key_text(alloc, output, words),
        "key" => push_key(alloc, output, words),
        _ => None,
    }
}

/// Adds the HMAC of a text under a key.
fn push_hmac(alloc: Global, output: &mut Page, words: &str) -> Option<()> {
    let (key, text) = words.split_once(" ")?;
    let key = bytes_in(alloc, key)?;
    let text = bytes_in(alloc, text)?;
    push_hex(alloc, output, &hmac(&key, &text))
}

/// Adds the letter that `seal` makes of the case in `words`.
fn push_letter(alloc: Global, output: &mut Page, words: &str) -> Option<()> {
    let case = case_in(alloc, words)?;
    let letter = tried(alloc, AllocError, || {
        seal(alloc, &case.key, case.sender, &case.bytes)
    })
    .ok()?;
    push_hex(alloc, output, &letter)
}

/// Adds the text that `unseal` finds in the letter of the case in `words`, or its fault.
fn push_text(alloc: Global, output: &mut Page, words: &str) -> Option<()> {
    let case = case_in(alloc, words)?;
    match quietly(alloc, || unseal(&case.key, case.sender, &case.bytes)) {
        Ok(text) => push_hex(alloc, output, text)?,
        Err(fault) => output.text(fault_word(fault)),
    }
    Some(())
}

/// Adds the text of the key with the hexadecimal digits `words`.
fn push_key_text(alloc: Global, output: &mut Page, words: &str) -> Option<()> {
    let key = key_in(words)?;
    let text = tried(alloc, AllocError, || key.to_text(alloc)).ok()?;
    output.push(&text);
    Some(())
}

/// Adds the bytes of the key with a text, or the fault. A fault of the text may be found after an allocation, so it
/// counts as an answer, and the call is not made again as a quiet one.
fn push_key(alloc: Global, output: &mut Page, text: &str) -> Option<()> {
    let answer = tried(alloc, AllocError, || {
        match Key::parse(alloc, text.as_bytes()) {
            Err(KeyFault::OutOfMemory) => Err(AllocError),
            answer => Ok(answer),
        }
    });
    match answer.ok()? {
        Ok(key) => push_hex(alloc, output, key.bytes())?,
        Err(fault) => output.text(key_fault_word(fault)),
    }
    Some(())
}

/// Adds bytes in hexadecimal, or `-` for none.
fn push_hex(alloc: Global, output: &mut Page, bytes: &[u8]) -> Option<()> {
    if bytes.is_empty() {
        output.text("-");
    } else {
        output.text(hex::encode(alloc, bytes).ok()?.as_str());
    }
    Some(())
}

/// Returns the word of a fault of a key's text.
fn key_fault_word(fault: KeyFault) -> &'static str {
    match fault {
        KeyFault::Digits => "Digits",
        KeyFault::Check => "Check",
        KeyFault::OutOfMemory => "OutOfMemory",
    }
}
