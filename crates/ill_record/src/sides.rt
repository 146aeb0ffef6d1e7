//! The sides of one library: one in each of many transactions, all of one role.

ghost use Rattle.std.specs.Prelude.{◌≡◌, ◌≤◌, ◌<◌, ◌++◌, ◌==◌, [], ◌∷◌, length, position, slice_get, option_copied, None, Some, true, OnOk, OnErr, IfErr, IfSome};
ghost use Rattle.std.specs.Map.Iter.{ShowsInOrder, deref};
ghost use Rattle.indexmap.specs.IndexMap.{get, keys, values};
ghost use Rattle.ill_core.specs.Issued.{is_same_txn};
ghost use Rattle.ill_record.specs.Side.{txn_of, Acts, Takes};
ghost use Rattle.ill_record.specs.Sides.{SidesOf, AreFiled, most_sides, side_with, may_be_held, put_refusal, Puts, ChangesOnlySideOf, ChangesOnlyEntryOf};

use crate::fault::SidesFault;
use crate::laws;
use crate::role::Role;
use crate::side::{Action, Side};
use ill_core::{Refusal, Taking};
use ill_values::{Apdu, OutOfMemory, TxnId};
use indexmap::IndexMap;
use indexmap::map::Values;
use std::alloc::Global;
use std::marker::Model;

/// The maximum number of sides of one library that are held.
pub const SIDES_LIMIT: usize = 1000;

/// A limit for `FileStore::at` with which every record of a desk can be loaded. A record has at most 41,813,039
/// bytes (`laws::sides_record_is_short`).
pub const RECORD_LIMIT: u32 = 67_108_864;

/// The sides of one library, all of one role, in the order in which they were put. None is idle, their
/// transactions differ, and they are at most 1,000.
#[derive(Drop)]
pub struct Sides {
    role: Role,
    map: IndexMap<TxnId, Side>,
}

impl Model for Sides {
    ghost Value = { SidesOf };

    ghost view = { λ held. record { role = held.role; sides = values held.map } };

    ghost invariant = { λ held. AreFiled (keys held.map)
        (record { role = held.role; sides = values held.map }) };
}

impl Sides {
    /// Returns a `Sides` of this role without a side. Allocates nothing, so memory never runs out.
    pub fn new(alloc: Global, role: Role) -> Result<Sides, OutOfMemory>
        ensures { result ≡ Ok (record { role = role; sides = [] }) }
    {
        Ok(Sides {
            role,
            map: IndexMap::new(alloc),
        })
    }

    /// Puts `side` after the others. If it cannot be put, returns it with the first fault, and nothing changes. The
    /// faults are the other role, an idle side, a held transaction, 1,000 sides, and a lack of memory.
    pub fn put(&mut self, alloc: Global, side: Side) -> Result<(), (SidesFault, Side)>
        ensures { Puts self.old side result self.new }
    {
        if let Some(fault) = self.refusal(&side) {
            return Err((fault, side));
        }
        let Ok(txn) = side.txn().copy(alloc) else {
            return Err((SidesFault::OutOfMemory, side));
        };
        match insert_new(&mut self.map, txn, side) {
            Ok(()) => Ok(()),
            Err(side) => Err((SidesFault::OutOfMemory, side)),
        }
    }

    /// Returns the reason to refuse `side`, if there is one. A lack of memory is no such reason.
    fn refusal(&self, side: &Side) -> Option<SidesFault>
        ensures { result ≡ put_refusal self.now side.now }
    {
        if side.role() != self.role {
            return Some(SidesFault::OtherRole);
        }
        if side.is_idle() {
            return Some(SidesFault::Idle);
        }
        if self.get(side.txn()).is_some() {
            return Some(SidesFault::Twice);
        }
        if self.len() < SIDES_LIMIT {
            None
        } else {
            Some(SidesFault::Full)
        }
    }

    /// Returns the side of `txn`, if it is held. Both qualifiers must be equal.
    pub fn get(&self, txn: &TxnId) -> Option<&Side>
        ensures { option_copied result ≡ side_with txn.now self.now.sides }
    {
        self.map.get(txn)
    }

    /// Returns the side at `place`, counted from 0, in the order in which the sides were put.
    pub fn at(&self, place: usize) -> Option<&Side>
        ensures { option_copied result ≡ slice_get self.now.sides place }
    {
        self.map.get_index(place).map(|(_, side)| side)
    }

    /// Returns an iterator of the sides, in the order in which they were put. By `runs` it gives a reference to each.
    pub fn iter(&self) -> Values<'_, TxnId, Side>
        ensures rest { result ≡ self.now.sides }
        ensures runs { ShowsInOrder (deref {X = Side}) }
    {
        self.map.values()
    }

    /// Returns the place of the side of `txn`, if it is held.
    pub fn place(&self, txn: &TxnId) -> Option<usize>
        ensures place { result ≡ position (λ side. is_same_txn txn.now (txn_of side)) self.now.sides }
        ensures within { IfSome result (λ place. place < length self.now.sides) }
    {
        self.map.get_index_of(txn)
    }

    /// Performs `action` in transaction `txn`, and returns the answer of its side. Returns `None` if that side is not
    /// held. A refusal changes nothing.
    pub fn act(
        &mut self,
        alloc: Global,
        txn: &TxnId,
        action: &Action,
    ) -> Option<Result<(), Refusal>>
        ensures { ChangesOnlySideOf (λ old answer new. Acts old action.now answer new) txn.now self.old result self.new }
    {
        laws::rows_grow();
        laws::rows_begin();
        act_among(&mut self.map, alloc, txn, action)
    }

    /// Hands a message to the side of its transaction, and returns the answer of that side. Returns `None` if that side
    /// is not held. A refusal changes nothing.
    pub fn take(&mut self, alloc: Global, apdu: &Apdu) -> Option<Result<Taking, Refusal>>
        ensures { ChangesOnlySideOf (λ old answer new. Takes old apdu.now answer new) apdu.now.txn self.old result self.new }
    {
        laws::rows_grow();
        laws::rows_begin();
        take_among(&mut self.map, alloc, apdu)
    }

    /// Returns the number of sides: 1,000 at most.
    pub fn len(&self) -> usize
        ensures value { result ≡ length self.now.sides }
        ensures most { length self.now.sides ≤ most_sides }
        ensures held { may_be_held self.now ≡ true }
    {
        self.map.len()
    }

    /// Returns true if there is no side.
    pub fn is_empty(&self) -> bool
        ensures { result ≡ (length self.now.sides == 0) }
    {
        self.len() == 0
    }

    /// Returns the role of all sides.
    pub fn role(&self) -> Role
        ensures { result ≡ self.now.role }
    {
        self.role
    }
}

/// Puts `value` after the other values of the map, with a `key` that is new to it. If memory runs out, returns
/// `value`, and the map is unchanged.
fn insert_new<V: Drop>(map: &mut IndexMap<TxnId, V>, key: TxnId, value: V) -> Result<(), V>
    requires new { get is_same_txn map.old key ≡ None }
    ensures done { OnOk result (map.new.entries ≡ map.old.entries ++ (key, value) ∷ []) }
    ensures refused { IfErr result (λ back. back ≡ value) }
    ensures unchanged { OnErr result (map.new.entries ≡ map.old.entries) }
{
    match map.insert(key, value) {
        Ok(_) => Ok(()),
        Err(failed) => Err(failed.value.1),
    }
}

/// Lets the side of `txn` perform `action`, and returns its answer. Returns `None` if `map` does not have this side.
fn act_among(
    map: &mut IndexMap<TxnId, Side>,
    alloc: Global,
    txn: &TxnId,
    action: &Action,
) -> Option<Result<(), Refusal>>
    ensures { ChangesOnlyEntryOf (λ old answer new. Acts old action.now answer new) txn.now map.old.entries result map.new.entries }
{
    match map.get_mut(txn) {
        Some(side) => Some(side.act(alloc, action)),
        None => None,
    }
}

/// Hands `apdu` to the side of its transaction, and returns the answer of that side. Returns `None` if `map` does not
/// have this side.
fn take_among(
    map: &mut IndexMap<TxnId, Side>,
    alloc: Global,
    apdu: &Apdu,
) -> Option<Result<Taking, Refusal>>
    ensures { ChangesOnlyEntryOf (λ old answer new. Takes old apdu.now answer new) apdu.now.txn map.old.entries result map.new.entries }
{
    match map.get_mut(&apdu.txn) {
        Some(side) => Some(side.take(alloc, apdu)),
        None => None,
    }
}
