//! The key that two libraries hold, and its text in groups.

ghost use Rattle.std.specs.Prelude.{◌≡◌, ◌⊎◌, codes, List, ℕ, IfOk, IfErr, Some, Ok, Err};
ghost use Rattle.ill_seal.specs.KeyText.{key_text, key_in, key_of, check_of, digits_of, grouped, is_white, begins_group};
ghost use Rattle.ill_seal.specs.declared.fault.KeyFault.TheVariants.{OutOfMemory};

use crate::fault::KeyFault;
use hex::FromHex;
use sha2::{Digest, Sha256};
use std::alloc::{AllocError, Global};
use std::fmt;
use std::fmt::{Debug, Formatter, Write};
use std::marker::Model;

/// The number of digits of a key and of its check, together.
const DIGITS: usize = 68;

/// The number of digits of a key alone.
const KEY_DIGITS: usize = 64;

/// A key of 32 bytes, which two libraries hold and nobody else. `Debug` writes one text of all keys.
#[derive(Drop)]
pub struct Key {
    bytes: [u8; 32],
}

// The value of a key is the list of its bytes.
impl Model for Key {
    ghost Value = { List ℕ };

    ghost view = { λ key. key.bytes };
}

// The text of all keys is the same, so no byte of a key is written.
impl Debug for Key {
    ghost debug_output = { λ _. Some (codes "Key(..)") };

    fn fmt<W: Write>(&self, formatter: &mut Formatter<W>) -> fmt::Result {
        formatter.write_str("Key(..)")
    }
}

impl Key {
    /// Returns the key with these bytes.
    pub fn new(bytes: [u8; 32]) -> Key
        ensures { result ≡ bytes }
    {
        Key { bytes }
    }

    /// Returns the bytes of the key. They are as secret as the key.
    pub fn bytes(&self) -> &[u8; 32]
        ensures { result.now ≡ self.now }
    {
        &self.bytes
    }

    /// Returns the text of the key: 17 groups of four hexadecimal digits, with spaces between them. The last group
    /// checks the others. The text is as secret as the key.
    pub fn to_text(&self, alloc: Global) -> Result<Vec<u8>, AllocError>
        ensures { IfOk result (λ text. text.items ≡ key_text self.now) }
    {
        let mut bytes = Vec::new(alloc);
        bytes.extend_from_slice(&self.bytes)?;
        bytes.extend_from_slice(&check_of(&self.bytes))?;
        let digits = hex::encode(alloc, &bytes)?;
        grouped(alloc, digits.as_bytes())
    }

    /// Reads a key from its text, or returns the first fault or `OutOfMemory`. White space may stand anywhere, and
    /// letters may be large. Of 65,536 slips in the digits about one is not found.
    pub fn parse(alloc: Global, text: &[u8]) -> Result<Key, KeyFault>
        ensures key { IfOk result (λ key. key_in text.now ≡ Ok key) }
        ensures fault { IfErr result (λ fault. (fault ≡ OutOfMemory) ⊎ (key_in text.now ≡ Err fault)) }
    {
        let digits = digits_of(alloc, text)?;
        key_of(&digits)
    }
}

/// Returns the bytes of `text` that are not white space.
fn digits_of(alloc: Global, text: &[u8]) -> Result<Vec<u8>, AllocError>
    ensures { IfOk result (λ digits. digits.items ≡ digits_of text.now) }
{
    let mut digits = Vec::new(alloc);
    for byte in text {
        if !is_white(*byte) {
            digits.push(*byte)?;
        }
    }
    Ok(digits)
}

/// Returns true for a space, a tab, a line feed and a carriage return.
fn is_white(byte: u8) -> bool
    ensures { result ≡ is_white byte }
{
    byte == b' ' || byte == b'\t' || byte == b'\n' || byte == b'\r'
}

/// Returns the key that `digits` give, or the first fault. They must be 64 digits of the key and 4 of its check.
fn key_of(digits: &[u8]) -> Result<Key, KeyFault>
    ensures key { IfOk result (λ key. key_of digits.now ≡ Ok key) }
    ensures fault { IfErr result (λ fault. key_of digits.now ≡ Err fault) }
{
    if digits.len() != DIGITS {
        return Err(KeyFault::Digits);
    }
    let (key, check) = digits.split_at(KEY_DIGITS);
    let Ok(bytes) = <[u8; 32] as FromHex>::from_hex(key) else {
        return Err(KeyFault::Digits);
    };
    let Ok(check) = <[u8; 2] as FromHex>::from_hex(check) else {
        return Err(KeyFault::Digits);
    };
    if check.as_slice() == check_of(&bytes).as_slice() {
        Ok(Key::new(bytes))
    } else {
        Err(KeyFault::Check)
    }
}

/// Returns the two bytes that check a key: the first two of its SHA-256.
fn check_of(bytes: &[u8; 32]) -> [u8; 2]
    ensures { result ≡ check_of bytes.now }
{
    let digest = Sha256::digest(bytes);
    [digest[0], digest[1]]
}

/// Returns `digits` with a space before each group of four but the first one.
#[tactic(auto, unfolding(crate::specs::KeyText::grouped))]
fn grouped(alloc: Global, digits: &[u8]) -> Result<Vec<u8>, AllocError>
    ensures { IfOk result (λ text. text.items ≡ grouped 0 digits.now) }
{
    let mut text = Vec::new(alloc);
    for (place, digit) in digits.iter().enumerate() {
        if begins_group(place) {
            text.push(b' ')?;
        }
        text.push(*digit)?;
    }
    Ok(text)
}

/// Returns true if a group of four, but not the first one, begins at `place`.
fn begins_group(place: usize) -> bool
    ensures { result ≡ begins_group place }
{
    place % 4 == 0 && place != 0
}
