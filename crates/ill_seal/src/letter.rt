//! A sealed letter: the mark `ILLS`, the octet of its sender, the text, and the seal over all of these.

ghost use Rattle.std.specs.Prelude.{◌≡◌, ◌++◌, length, IfOk, IfErr};
ghost use Rattle.std.specs.Str.{bytes_eq};
ghost use Rattle.ill_seal.specs.Letter.{sealed, opened, difference, unsealed};

use crate::fault::SealFault;
use crate::key::Key;
use crate::keyed_digest::hmac;
use crate::sender::Sender;
use std::alloc::{AllocError, Global};

/// Each sealed letter begins with these octets.
const MARK: &[u8; 4] = b"ILLS";

/// The offset of the text, which begins after the mark and the octet of the sender.
const TEXT: usize = 5;

/// The number of bytes of a seal.
const SEAL: usize = 32;

/// Returns the letter in which `sender` has sealed `text` with `key`. The text may be any bytes.
#[tactic(auto, unfolding(crate::specs::Letter::sealed))]
pub fn seal(alloc: Global, key: &Key, sender: Sender, text: &[u8]) -> Result<Vec<u8>, AllocError>
    ensures { IfOk result (λ letter. letter.items ≡ sealed key.now sender text.now) }
{
    let mut letter = Vec::new(alloc);
    letter.extend_from_slice(MARK)?;
    letter.push(sender.octet())?;
    letter.extend_from_slice(text)?;
    let seal = hmac(key.bytes(), &letter);
    letter.extend_from_slice(&seal)?;
    Ok(letter)
}

/// Returns the text of `letter`, if `sender` has sealed it with `key`, and else the first fault. Allocates nothing.
#[tactic(auto, unfolding(crate::specs::Letter::opened))]
pub fn unseal<'a>(key: &Key, sender: Sender, letter: &'a [u8]) -> Result<&'a [u8], SealFault>
    ensures text { IfOk result (λ text. opened key.now sender letter.now ≡ Ok text.now) }
    ensures fault { IfErr result (λ fault. opened key.now sender letter.now ≡ Err fault) }
{
    if letter.len() < TEXT + SEAL {
        return Err(SealFault::Short);
    }
    if !letter.starts_with(MARK) {
        return Err(SealFault::Mark);
    }
    if letter[4] != sender.octet() {
        return Err(SealFault::Sender);
    }
    let (body, seal) = letter.split_at(letter.len() - SEAL);
    if fits(seal, &hmac(key.bytes(), body)) {
        Ok(&body[TEXT..])
    } else {
        Err(SealFault::Seal)
    }
}

/// Returns true if two seals are equal.
#[tactic(auto, using(crate::proofs::Differences::differs_is_eq))]
fn fits(seal: &[u8], other: &[u8; SEAL]) -> bool
    requires { length seal.now ≡ 32 }
    ensures { result ≡ bytes_eq seal.now other.now }
{
    difference(seal, other) == 0
}

/// Returns the bits in which two seals differ at any place. It looks at all of their bytes. A comparison that ended at
/// the first difference would tell by its time how many bytes of a guessed seal are right.
#[tactic(auto, unfolding(crate::specs::Letter::difference))]
fn difference(seal: &[u8], other: &[u8; SEAL]) -> u8
    requires { length seal.now ≡ 32 }
    ensures { result ≡ difference 0 seal.now other.now }
{
    let mut difference = 0;
    for (place, byte) in seal.iter().enumerate() {
        difference |= *byte ^ other[place];
    }
    difference
}
