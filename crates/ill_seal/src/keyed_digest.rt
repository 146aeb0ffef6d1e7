//! HMAC-SHA256, the keyed digest of RFC 2104.

ghost use Rattle.std.specs.Prelude.{◌≡◌, ◌≤◌, ◌++◌, length, slice_index};
ghost use Rattle.sha2.specs.Sha256.{sha256};
ghost use Rattle.ill_seal.specs.Hmac.{hmac, short_hmac, filled, masked};

use sha2::{Digest, Sha256};

/// The number of bytes of a block of SHA-256. A key, with zeros after it, fills one block.
const BLOCK: usize = 64;

/// The mask of the block that stands before the text.
const INNER: u8 = 0x36;

/// The mask of the block that stands before the inner digest.
const OUTER: u8 = 0x5C;

/// Returns the HMAC-SHA256 of `text` under `key`, which may have any length. A key of more than 64 bytes counts by its
/// digest.
#[tactic(auto, unfolding(crate::specs::Hmac::hmac))]
pub fn hmac(key: &[u8], text: &[u8]) -> [u8; 32]
    ensures { result ≡ hmac key.now text.now }
{
    if key.len() > BLOCK {
        short_hmac(&Sha256::digest(key), text)
    } else {
        short_hmac(key, text)
    }
}

/// Returns the HMAC-SHA256 of `text` under a key of at most 64 bytes.
fn short_hmac(key: &[u8], text: &[u8]) -> [u8; 32]
    requires { length key.now ≤ 64 }
    ensures { result ≡ short_hmac key.now text.now }
{
    let inner = digest_of(&masked(INNER, key), text);
    digest_of(&masked(OUTER, key), &inner)
}

/// Returns the SHA-256 of `first` and then `second`.
fn digest_of(first: &[u8], second: &[u8]) -> [u8; 32]
    ensures { result ≡ sha256 (first.now ++ second.now) }
{
    let mut hasher = Sha256::new();
    hasher.update(first);
    hasher.update(second);
    hasher.finalize()
}

/// Returns the masked block of `key`, which has at most 64 bytes. Zeros follow the key up to 64 bytes, and each byte is
/// combined with `mask` by exclusive or.
fn masked(mask: u8, key: &[u8]) -> [u8; 64]
    requires { length key.now ≤ 64 }
    ensures { result ≡ masked mask (filled key.now) }
{
    let mut block = [0; BLOCK];
    for place in 0..BLOCK {
        block[place] = byte_at(key, place) ^ mask;
    }
    block
}

/// Returns the byte of `key` at `place`, or 0 after its end.
fn byte_at(key: &[u8], place: usize) -> u8
    ensures { result ≡ slice_index key.now place }
{
    key.get(place).copied().unwrap_or(0)
}
