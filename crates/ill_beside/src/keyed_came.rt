//! The messages that came, by the keys of their loans: those of a loan are found without a look at the others.

ghost use Rattle.std.specs.Prelude.{◌≡◌, [], IfOk};
ghost use Rattle.ill_text.specs.Input.{AreIn};
ghost use Rattle.ill_beside.specs.Kept.{apdu_key, kept_of};

use crate::kept::kept_at;
use crate::places::{KeyForm, Places};
use ill_text::input::apdus_in;
use ill_text::keys::loan_key;
use ill_values::{Apdu, OutOfMemory, TxnId};
use std::alloc::Global;
use std::marker::Model;

/// Messages that came to a desk, in their order, and the places of those of each loan.
#[derive(Drop)]
pub struct KeyedCame {
    /// The messages.
    apdus: Vec<Apdu>,
    /// Their places, by the keys of their loans.
    places: Places,
}

/// Contracts see the messages alone. By the invariant `places` has the places of the messages, by the keys of their
/// loans.
impl Model for KeyedCame {
    ghost use Rattle.std.specs.Prelude.{List};
    ghost use Rattle.ill_values.specs.declared.apdu.Apdu.{Apdu};

    ghost Value = { List Apdu };

    ghost use Rattle.ill_beside.specs.Kept.{apdu_key};
    ghost use Rattle.ill_beside.specs.Places.{ArePlaces};

    ghost view = { λ came. came.apdus.items };

    ghost invariant = { λ came. ArePlaces apdu_key came.places.by_key.entries came.apdus.items };
}

impl KeyedCame {
    /// Returns an empty list of messages.
    pub fn none(alloc: Global) -> KeyedCame
        ensures { result ≡ [] }
    {
        KeyedCame {
            apdus: Vec::new(alloc),
            places: Places::none(alloc),
        }
    }

    /// Returns the messages in `bytes`, up to the first part that is no message.
    pub fn read(alloc: Global, bytes: &[u8]) -> Result<KeyedCame, OutOfMemory>
        ensures { IfOk result (λ came. AreIn bytes.now came) }
    {
        KeyedCame::of(alloc, apdus_in(alloc, bytes)?)
    }

    /// Returns the messages `apdus` with their places.
    pub fn of(alloc: Global, apdus: Vec<Apdu>) -> Result<KeyedCame, OutOfMemory>
        ensures { IfOk result (λ came. came ≡ apdus.items) }
    {
        let places = Places::of(alloc, &apdus, &ApduKeys)?;
        Ok(KeyedCame { apdus, places })
    }

    /// Returns the messages.
    pub fn as_apdus(&self) -> &[Apdu]
        ensures { result.now ≡ self.now }
    {
        &self.apdus
    }

    /// Returns the messages of the transaction `txn`, each once and in their order.
    pub fn kept_of(&self, alloc: Global, txn: &TxnId) -> Result<Vec<Apdu>, OutOfMemory>
        ensures { IfOk result (λ kept. kept.items ≡ kept_of txn.now self.now) }
    {
        let key = loan_key(alloc, txn)?;
        kept_at(alloc, txn, &self.apdus, self.places.with_key(&key))
    }
}

/// Gives each message the key of its loan.
#[derive(Clone, Copy)]
struct ApduKeys;

impl KeyForm<Apdu> for ApduKeys {
    ghost key_of = { apdu_key };

    fn key_of(&self, alloc: Global, apdu: &Apdu) -> Result<Option<Vec<u8>>, OutOfMemory> {
        Ok(Some(loan_key(alloc, &apdu.txn)?))
    }
}
