//! A message has the bytes that were sent.

ghost use Rattle.std.specs.Prelude.{◌≡◌, [], Ok};
ghost use Rattle.ill_values.specs.declared.apdu.Apdu.{Apdu};
ghost use Rattle.ill_values.specs.Apdu.{IsApdu};
ghost use Rattle.ill_der.specs.ShortForm.{encoding, apdu_at};
ghost use Rattle.ill_world.specs.PartyRefinement.{apdu_of};

use std::marker::Model;

/// A message has bytes that are exactly one APDU. Contracts see it as this APDU.
#[derive(Debug, Drop)]
pub struct Message {
    bytes: Vec<u8>,
}

impl Model for Message {
    ghost Value = { Apdu };

    ghost view = { λ message. apdu_of (apdu_at message.bytes.items) };

    ghost invariant = { λ message. apdu_at message.bytes.items
        ≡ Ok (apdu_of (apdu_at message.bytes.items), []) };
}

impl Message {
    /// Returns the message with these bytes. They are the encoding of an APDU.
    pub fn new(bytes: Vec<u8>) -> Message
        requires encoded { (a : Apdu) × IsApdu a × (bytes.items ≡ encoding a) }
        ensures { (a : Apdu) → IsApdu a → bytes.items ≡ encoding a → result ≡ a }
    {
        ill_der::laws::read_again();
        Message { bytes }
    }

    /// Returns the bytes of the message.
    pub fn bytes(&self) -> &[u8]
        ensures { apdu_at result.now ≡ Ok (self.now, []) }
    {
        &self.bytes
    }
}
