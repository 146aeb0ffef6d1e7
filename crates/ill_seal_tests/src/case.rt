//! A case of a letter, as words say it, and the words of the faults of letters.

use hex::FromHex;
use ill_seal::{Key, SealFault, Sender};
use std::alloc::Global;

/// A key, a sender, and the bytes of a text or a letter.
#[derive(Drop)]
pub struct Case {
    /// The key of the letter.
    pub key: Key,
    /// The role of the library that sends the letter.
    pub sender: Sender,
    /// The bytes of the text, or of the sealed letter.
    pub bytes: Vec<u8>,
}

/// Returns the case that the words `KEY SENDER BYTES` encode.
pub fn case_in(alloc: Global, words: &str) -> Option<Case> {
    let (key, words) = words.split_once(" ")?;
    let (sender, bytes) = words.split_once(" ")?;
    Some(Case {
        key: key_in(key)?,
        sender: sender_in(sender)?,
        bytes: bytes_in(alloc, bytes)?,
    })
}

/// Returns the key with these 64 hexadecimal digits.
pub fn key_in(digits: &str) -> Option<Key> {
    Some(Key::new(<[u8; 32] as FromHex>::from_hex(digits).ok()?))
}

/// Returns the sender that `word` names.
fn sender_in(word: &str) -> Option<Sender> {
    match word {
        "requester" => Some(Sender::Requester),
        "responder" => Some(Sender::Responder),
        _ => None,
    }
}

/// Returns the bytes with these hexadecimal digits, or no bytes for `-`.
pub fn bytes_in(alloc: Global, digits: &str) -> Option<Vec<u8>> {
    hex::decode(alloc, if digits == "-" { "" } else { digits }).ok()
}

/// Returns the word of a fault of a letter.
pub fn fault_word(fault: SealFault) -> &'static str {
    match fault {
        SealFault::Short => "Short",
        SealFault::Mark => "Mark",
        SealFault::Sender => "Sender",
        SealFault::Seal => "Seal",
    }
}
