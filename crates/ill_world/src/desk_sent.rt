//! A desk has sent messages in many transactions.

ghost use Rattle.std.specs.Prelude.{◌≡◌, ◌++◌, ◌∷◌, [], List, None, option_map, OnOk, OnErr};
ghost use Rattle.indexmap.specs.IndexMap.{get};
ghost use Rattle.std.specs.Map.{lookup};
ghost use Rattle.ill_core.specs.Issued.{is_same_txn};
ghost use Rattle.ill_world.specs.World.{sent_message, with_sent};
ghost use Rattle.ill_world.specs.Desks.{Sending, sent_for, with_sent_for};
ghost use Rattle.ill_world.specs.DeskRefinement.{sendings_of, BecomesAmong};

use crate::message::Message;
use crate::sent::Sent;
use ill_values::{Number, OutOfMemory, TxnId};
use indexmap::IndexMap;
use std::alloc::Global;
use std::marker::Model;

/// A map has the messages that a desk has sent, by transaction.
#[derive(Drop)]
pub struct DeskSent {
    map: IndexMap<TxnId, Sent>,
}

/// Contracts see the map as the list of its entries, in their order.
impl Model for DeskSent {
    ghost Value = { List Sending };

    ghost view = { λ sendings. sendings_of sendings.map.entries };
}

impl DeskSent {
    /// Returns a map without messages. Allocates nothing.
    pub fn nothing(alloc: Global) -> DeskSent
        ensures { result ≡ [] }
    {
        DeskSent {
            map: IndexMap::new(alloc),
        }
    }

    /// Adds `message` as sent in `txn` under `number`. If memory runs out, nothing has changed.
    pub fn put(
        &mut self,
        alloc: Global,
        txn: &TxnId,
        number: Number,
        message: Message,
    ) -> Result<(), OutOfMemory>
        ensures put { OnOk result (self.new ≡ with_sent_for txn.now self.old number message) }
        ensures unchanged { OnErr result (self.new ≡ self.old) }
    {
        match put_among(&mut self.map, txn, number, message) {
            None => Ok(()),
            Some(message) => {
                let mut sent = Sent::nothing(alloc)?;
                sent.put(number, message);
                insert_new(&mut self.map, txn.copy(alloc)?, sent)
            }
        }
    }

    /// Returns the message that was sent in `txn` under `number`, if there is one.
    pub fn get(&self, txn: &TxnId, number: Number) -> Option<&Message>
        ensures { option_map (λ message. message.now) result
            ≡ sent_message (sent_for txn.now self.now) number }
    {
        match self.map.get(txn) {
            Some(sent) => sent.get(number),
            None => None,
        }
    }
}

/// Adds `message` to the messages of `txn`, if the map has an entry for it. Otherwise returns `message`.
fn put_among(
    map: &mut IndexMap<TxnId, Sent>,
    txn: &TxnId,
    number: Number,
    message: Message,
) -> Option<Message>
    ensures { BecomesAmong txn.now map.old.entries
        (option_map (λ sent. with_sent sent number message) (lookup (is_same_txn txn.now) map.old.entries))
        result message map.new.entries }
{
    match map.get_mut(txn) {
        Some(sent) => {
            sent.put(number, message);
            None
        }
        None => Some(message),
    }
}

/// Adds `value` at the end of the map, under a key that the map lacks. If memory runs out, the map is unchanged.
fn insert_new<V: Drop>(
    map: &mut IndexMap<TxnId, V>,
    key: TxnId,
    value: V,
) -> Result<(), OutOfMemory>
    requires new { get is_same_txn map.old key ≡ None }
    ensures done { OnOk result (map.new.entries ≡ map.old.entries ++ (key, value) ∷ []) }
    ensures unchanged { OnErr result (map.new.entries ≡ map.old.entries) }
{
    match map.insert(key, value) {
        Ok(_) => Ok(()),
        Err(_) => Err(OutOfMemory),
    }
}
