//! A desk: one side or many, in memory and in a store.
//!
//! The clause `lasts` says what a loss of power leaves after a call that is done. `left` says what it leaves after any
//! answer. `memory` says when memory may run out, and `store` what becomes of the store.

ghost use Rattle.std.specs.Prelude.{◌≡◌, ◌≤◌, true, length, option_copied, Some, IfOk, IfErr, IfSome, OnOk};
ghost use Rattle.ill_der.specs.ShortForm.{apdu_at};
ghost use Rattle.ill_record.specs.Side.{issued_of, idle_of};
ghost use Rattle.ill_saved.specs.Shown.{shown_of};
ghost use Rattle.ill_record.specs.Sides.{found_by};
ghost use Rattle.ill_saved.specs.Holdings.{DeskActs, DeskTakesApdu, SendsHeld, IsBackedInSave, IsDurablyBacked, IsReadAgain, held_after, committed_live};
ghost use Rattle.ill_saved.specs.OneSide.{OneBacks, alone, one_side};
ghost use Rattle.ill_saved.specs.ManySides.{ManyBack, held_for, many_sides, no_sides, sides_held, txn_held};
ghost use Rattle.ill_saved.specs.Desk.{DeskOf, DeskTakes, IsOneApdu, DeskSaves, IsSaveFault, IsLoadFault, Loads, Restarts, RestartLeaves, RunsOutInLoad, NothingTakesMemory, answer_of, store_of, Creates, IsCreateAnswer, Begins, IsStartAnswer, AreAllReleased, DeskLoads, IfEncoded, LeavesCommitted, LeavesBeforeOr};

use crate::fault::DeskFault;
use crate::holdings::Holdings;
use crate::many_sides::ManySides;
use crate::one_side::OneSide;
use crate::shown::Shown;
use ill_core::Taking;
use ill_der::decode;
use ill_record::{Action, Role, Side, Sides};
use ill_store::{MemoryStore, NextCall, Store};
use ill_values::{Apdu, Number, TxnId};
use std::alloc::Global;
use std::marker::Model;

/// The Ok of a desk's store. Only this module can make one. So only a desk releases messages, after its store's Ok.
#[derive(Clone, Copy)]
pub struct StoreOk(());

/// Sides in memory and in a store. A message may be sent only after it was saved.
#[derive(Debug, Drop)]
pub struct AnyDesk<H: Holdings, S: Store> {
    held: H,
    store: S,
}

/// One side of a transaction, in memory and in a store.
pub type Desk1<S> = AnyDesk<OneSide, S>;

/// The sides of one library in many transactions, in memory and in a store. No side that is held is idle.
pub type Desk<S> = AnyDesk<ManySides, S>;

/// If the store is correct, the committed record backs the sides. So does each record that a loss of power may leave.
impl<H: Holdings, S: Store> Model for AnyDesk<H, S> {
    ghost Value = { DeskOf H S };

    ghost view = { λ desk. record { live = desk.held; store = desk.store } };

    ghost invariant = { λ desk. (S.state desk.store).is_correct ≡ true →
        IsDurablyBacked H.effects H.backs (S.state desk.store).committed (S.leaves desk.store) desk.held };
}

impl<H: Holdings, S: Store> AnyDesk<H, S> {
    /// Begins a desk with the sides that `first` gives, over a store without a record (otherwise `Exists`). Saves
    /// nothing. A fault returns the store. Once the desk has begun, a loss of power leaves no record.
    pub fn begin(alloc: Global, store: S, first: H::First) -> Result<AnyDesk<H, S>, (DeskFault, S)>
        ensures creates { (S.state store).is_correct ≡ true →
            Creates (S.state store).committed (S.state store).plan (answer_of result) }
        ensures begins { IfOk result (λ desk. desk.live ≡ H.begun first) }
        ensures faults { IsCreateAnswer (answer_of result) }
        ensures memory { RunsOutInLoad (S.load_takes_memory store) (answer_of result) }
        ensures store { DeskLoads (S.state store) (answer_of result) (S.state (store_of result)) }
        ensures lasts { (S.state store).is_correct ≡ true →
            IfOk result (λ desk. LeavesCommitted (S.state desk.store).committed (S.leaves desk.store)) }
        ensures left { (S.state store).is_correct ≡ true →
            LeavesBeforeOr (S.state store).committed (S.leaves store) (S.leaves (store_of result)) }
    {
        AnyDesk::over(alloc, store, H::begin(alloc, first))
    }

    /// Returns a desk of the new sides `held`, over a store without a record (otherwise `Exists`). A fault returns the
    /// store.
    fn over(alloc: Global, store: S, held: H) -> Result<AnyDesk<H, S>, (DeskFault, S)>
        requires backed { H.backs (H.effects.unsaved held) held }
        ensures creates { (S.state store).is_correct ≡ true →
            Creates (S.state store).committed (S.state store).plan (answer_of result) }
        ensures begins { IfOk result (λ desk. desk.live ≡ held) }
        ensures faults { IsCreateAnswer (answer_of result) }
        ensures memory { RunsOutInLoad (S.load_takes_memory store) (answer_of result) }
        ensures store { DeskLoads (S.state store) (answer_of result) (S.state (store_of result)) }
        ensures lasts { (S.state store).is_correct ≡ true →
            IfOk result (λ desk. LeavesCommitted (S.state desk.store).committed (S.leaves desk.store)) }
        ensures left { (S.state store).is_correct ≡ true →
            LeavesBeforeOr (S.state store).committed (S.leaves store) (S.leaves (store_of result)) }
    {
        let mut store = store;
        match store.load(alloc) {
            Ok(None) => Ok(AnyDesk { held, store }),
            Ok(Some(_)) => Err((DeskFault::Exists, store)),
            Err(fault) => Err((DeskFault::from(fault), store)),
        }
    }

    /// Starts a desk with the sides whose record `store` has (otherwise `NoRecord`). All their messages may be sent.
    /// A fault returns the store. Once the desk has started, a loss of power leaves this record.
    pub fn start(alloc: Global, store: S) -> Result<AnyDesk<H, S>, (DeskFault, S)>
        ensures starts { (S.state store).is_correct ≡ true →
            Begins H.effects.read H.effects.begins (λ desk. desk.live) (S.state store).committed (S.state store).plan result }
        ensures whole { IfOk result (λ desk. AreAllReleased H.effects desk.live) }
        ensures rules { IfOk result (λ desk. H.backs desk.live desk.live) }
        ensures faults { IsStartAnswer H.effects.has_digest (answer_of result) }
        ensures memory { NothingTakesMemory (S.state store) (S.load_takes_memory store) (answer_of result) }
        ensures store { DeskLoads (S.state store) (answer_of result) (S.state (store_of result)) }
        ensures lasts { (S.state store).is_correct ≡ true →
            IfOk result (λ desk. LeavesCommitted (S.state desk.store).committed (S.leaves desk.store)) }
        ensures left { (S.state store).is_correct ≡ true →
            LeavesBeforeOr (S.state store).committed (S.leaves store) (S.leaves (store_of result)) }
    {
        let mut store = store;
        match load::<H, S>(alloc, &mut store) {
            Ok(Some(held)) => Ok(AnyDesk { held, store }),
            Ok(None) => Err((DeskFault::NoRecord, store)),
            Err(fault) => Err((fault, store)),
        }
    }

    /// Performs `action` on the side `key`. The message that it issues may be sent after the next `save`. A fault
    /// changes nothing.
    pub fn act_on(&mut self, alloc: Global, key: &H::Key, action: &Action) -> Result<(), DeskFault>
        ensures acts { DeskActs H.effects self.old.live key.now action.now result self.new.live }
        ensures store { self.new.store ≡ self.old.store }
    {
        self.held.act(alloc, key, action)
    }

    /// Takes a message, and returns its effect. The bytes must be exactly one APDU: more bytes after it are `Trailing`.
    pub fn take_bytes(&mut self, alloc: Global, bytes: &[u8]) -> Result<Taking, DeskFault>
        ensures takes { DeskTakes H.effects self.old.live (apdu_at bytes.now) result self.new.live }
        ensures store { self.new.store ≡ self.old.store }
    {
        let apdu = one_apdu(alloc, bytes)?;
        self.take(alloc, &apdu)
    }

    /// Takes a message that was already decoded, and returns its effect.
    pub fn take(&mut self, alloc: Global, apdu: &Apdu) -> Result<Taking, DeskFault>
        ensures takes { DeskTakesApdu H.effects self.old.live apdu.now result self.new.live }
        ensures store { self.new.store ≡ self.old.store }
    {
        self.held.take(alloc, apdu)
    }

    /// Saves all sides, so that all their messages may be sent. A fault changes neither the sides nor the released
    /// messages. The desk allocates all its memory before it calls the store. A loss of power during the save leaves a
    /// record that has each released message. After a save that is done, it leaves the new record. After a fault, it
    /// leaves the new record, or one that it might have left before.
    pub fn save(&mut self, alloc: Global) -> Result<(), DeskFault>
        ensures live { self.new.live ≡ held_after H.effects result self.old.live }
        ensures store { DeskSaves (H.effects.encoding self.old.live) (S.state self.old.store) result
            (S.state self.new.store) }
        ensures sides { IfEncoded H.in_range result self.old.live }
        ensures reads { IfEncoded (IsReadAgain H.effects) result self.old.live }
        ensures meanwhile { (S.state self.old.store).is_correct ≡ true →
            IfEncoded (IsBackedInSave H.effects H.backs (S.leaves self.old.store)) result self.old.live }
        ensures lasts { (S.state self.old.store).is_correct ≡ true →
            OnOk result (LeavesCommitted (S.state self.new.store).committed (S.leaves self.new.store)) }
        ensures left { (S.state self.old.store).is_correct ≡ true →
            LeavesBeforeOr (Some (H.effects.encoding self.old.live)) (S.leaves self.old.store)
            (S.leaves self.new.store) }
        ensures faults { IsSaveFault result }
    {
        let record = self.held.record(alloc)?;
        self.store.save(alloc, H::bytes(&record))?;
        self.held.release(record, StoreOk(()));
        Ok(())
    }

    /// Goes back to the sides in the store, or to those of a new desk if the store has no record. All their messages
    /// may be sent. A fault changes neither the sides nor the released messages. If nothing is committed, memory runs
    /// out only in the load of the store. Once the restart is done, a loss of power leaves what is committed.
    pub fn restart(&mut self, alloc: Global) -> Result<(), DeskFault>
        ensures restarts { (S.state self.old.store).is_correct ≡ true →
            Restarts (committed_live H.effects (S.state self.old.store).committed self.old.live)
            (S.state self.old.store).plan result self.new.live }
        ensures leaves { RestartLeaves H.effects result self.old.live self.new.live }
        ensures memory { NothingTakesMemory (S.state self.old.store) (S.load_takes_memory self.old.store) result }
        ensures store { DeskLoads (S.state self.old.store) result (S.state self.new.store) }
        ensures lasts { (S.state self.old.store).is_correct ≡ true →
            OnOk result (LeavesCommitted (S.state self.new.store).committed (S.leaves self.new.store)) }
        ensures left { (S.state self.old.store).is_correct ≡ true →
            LeavesBeforeOr (S.state self.old.store).committed (S.leaves self.old.store) (S.leaves self.new.store) }
    {
        let bytes = self.store.load(alloc)?;
        self.held.go_back(alloc, bytes, StoreOk(()))
    }

    /// Returns the bytes of message `number` of the side `key`, to send it. The side must be held (otherwise
    /// `NoSuchTransaction`), and the message issued (otherwise `NoSuchMessage`) and saved (otherwise `NotSaved`).
    pub fn message_of(
        &self,
        alloc: Global,
        key: &H::Key,
        number: Number,
    ) -> Result<Vec<u8>, DeskFault>
        ensures { SendsHeld (λ bytes. bytes.items) (H.effects.found key.now self.now.live) number result }
    {
        self.held.message(alloc, key, number)
    }

    /// Returns the role of all sides.
    pub fn role(&self) -> Role
        ensures { result ≡ H.effects.role self.now.live }
    {
        self.held.role()
    }

    /// Returns the name of the side that a new desk holds, if there is one.
    pub fn first_key(&self) -> Option<&H::Key>
        ensures { option_copied result ≡ H.effects.first_key }
    {
        self.held.first_key()
    }

    /// Returns the parts of the side `key` that a line of output shows. A side that is not held counts as idle.
    pub fn shown(&self, key: &H::Key) -> Shown
        ensures { result ≡ shown_of (H.effects.side_for key.now self.now.live).side
            (H.effects.side_for key.now self.now.live).released }
    {
        self.held.shown(key)
    }

    /// Returns the store with its committed bytes. Drops the sides in memory.
    pub fn close(self) -> S
        ensures { result ≡ self.store }
    {
        self.store
    }
}

impl<H: Holdings> AnyDesk<H, MemoryStore> {
    /// Plans the next call of the store. The plan holds for that call alone.
    pub fn set_next(&mut self, next: NextCall)
        ensures { self.new ≡ record self.old { store = record self.old.store { next = next } } }
    {
        self.store.set_next(next);
    }
}

impl<S: Store> Desk1<S> {
    /// Creates a desk for the idle side `first`, over a store without a record (otherwise `Exists`). Saves nothing.
    /// A fault returns the store. Once it is done, a loss of power leaves no record.
    pub fn create(alloc: Global, store: S, first: Side) -> Result<Desk1<S>, (DeskFault, S)>
        requires idle { first ≡ idle_of first }
        ensures creates { (S.state store).is_correct ≡ true →
            Creates (S.state store).committed (S.state store).plan (answer_of result) }
        ensures begins { IfOk result (λ desk. desk.live ≡ alone first) }
        ensures faults { IsCreateAnswer (answer_of result) }
        ensures memory { RunsOutInLoad (S.load_takes_memory store) (answer_of result) }
        ensures store { DeskLoads (S.state store) (answer_of result) (S.state (store_of result)) }
        ensures lasts { (S.state store).is_correct ≡ true →
            IfOk result (λ desk. LeavesCommitted (S.state desk.store).committed (S.leaves desk.store)) }
        ensures left { (S.state store).is_correct ≡ true →
            LeavesBeforeOr (S.state store).committed (S.leaves store) (S.leaves (store_of result)) }
    {
        AnyDesk::over(alloc, store, OneSide::alone(alloc, first))
    }

    /// Performs `action`. The message that it issues may be sent after the next `save`.
    pub fn act(&mut self, alloc: Global, action: &Action) -> Result<(), DeskFault>
        ensures acts { DeskActs one_side self.old.live tt action.now result self.new.live }
        ensures store { self.new.store ≡ self.old.store }
    {
        self.act_on(alloc, &(), action)
    }

    /// Returns the bytes of message `number`, to send it: a copy of those in the committed record. The message must
    /// be issued (otherwise `NoSuchMessage`) and saved (otherwise `NotSaved`).
    pub fn message(&self, alloc: Global, number: Number) -> Result<Vec<u8>, DeskFault>
        ensures { SendsHeld (λ bytes. bytes.items) (one_side.found tt self.now.live) number result }
    {
        self.message_of(alloc, &(), number)
    }

    /// Returns the side in memory.
    pub fn side(&self) -> &Side
        ensures value { result.now ≡ self.now.live.side }
        ensures issued { self.now.live.released ≤ length (issued_of self.now.live.side) }
        ensures backed { (S.state self.now.store).is_correct ≡ true →
            IsDurablyBacked one_side OneBacks (S.state self.now.store).committed (S.leaves self.now.store) self.now.live }
    {
        self.held.side()
    }

    /// Returns the number of released messages. Messages with numbers up to it may be sent.
    pub fn released(&self) -> u8
        ensures { result ≡ self.now.live.released }
    {
        self.held.released()
    }
}

impl<S: Store> Desk<S> {
    /// Creates a desk of this role that holds no side, over a store without a record (otherwise `Exists`). Saves
    /// nothing. A fault returns the store. Once it is done, a loss of power leaves no record.
    pub fn create(alloc: Global, store: S, role: Role) -> Result<Desk<S>, (DeskFault, S)>
        ensures creates { (S.state store).is_correct ≡ true →
            Creates (S.state store).committed (S.state store).plan (answer_of result) }
        ensures begins { IfOk result (λ desk. desk.live ≡ no_sides role) }
        ensures faults { IsCreateAnswer (answer_of result) }
        ensures memory { RunsOutInLoad (S.load_takes_memory store) (answer_of result) }
        ensures store { DeskLoads (S.state store) (answer_of result) (S.state (store_of result)) }
        ensures lasts { (S.state store).is_correct ≡ true →
            IfOk result (λ desk. LeavesCommitted (S.state desk.store).committed (S.leaves desk.store)) }
        ensures left { (S.state store).is_correct ≡ true →
            LeavesBeforeOr (S.state store).committed (S.leaves store) (S.leaves (store_of result)) }
    {
        AnyDesk::begin(alloc, store, role)
    }

    /// Performs `action` in transaction `txn`. If `txn` is not held, a request begins it, or answers `DeskFull` if
    /// 1,000 transactions are held. Any other action then answers `NoSuchTransaction`. The message that is issued may
    /// be sent after the next `save`.
    pub fn act(&mut self, alloc: Global, txn: &TxnId, action: &Action) -> Result<(), DeskFault>
        ensures acts { DeskActs many_sides self.old.live txn.now action.now result self.new.live }
        ensures store { self.new.store ≡ self.old.store }
    {
        self.act_on(alloc, txn, action)
    }

    /// Returns the bytes of message `number` of `txn`, to send it. The transaction must be held (otherwise
    /// `NoSuchTransaction`), and the message issued (otherwise `NoSuchMessage`) and saved (otherwise `NotSaved`).
    pub fn message(&self, alloc: Global, txn: &TxnId, number: Number) -> Result<Vec<u8>, DeskFault>
        ensures { SendsHeld (λ bytes. bytes.items) (found_by txn_held txn.now self.now.live.held) number result }
    {
        self.message_of(alloc, txn, number)
    }

    /// Returns the sides in memory.
    pub fn sides(&self) -> &Sides
        ensures value { result.now ≡ sides_held self.now.live }
        ensures backed { (S.state self.now.store).is_correct ≡ true →
            IsDurablyBacked many_sides ManyBack (S.state self.now.store).committed (S.leaves self.now.store) self.now.live }
    {
        self.held.sides()
    }

    /// Returns the number of released messages of `txn`, or 0 if it is not held. Messages with numbers up to it may be
    /// sent.
    pub fn released(&self, txn: &TxnId) -> u8
        ensures value { result ≡ (held_for txn.now self.now.live).released }
        ensures issued { result ≤ length (issued_of (held_for txn.now self.now.live).side) }
    {
        self.held.released_of(txn)
    }
}

/// Loads the sides whose record is committed in `store`, or returns `None` if there is no record.
fn load<H: Holdings, S: Store>(alloc: Global, store: &mut S) -> Result<Option<H>, DeskFault>
    ensures loads { (S.state store.old).is_correct ≡ true →
        Loads H.effects.read H.effects.begins (S.state store.old).committed (S.state store.old).plan
        result }
    ensures whole { IfOk result (λ found. IfSome found (λ held. AreAllReleased H.effects held)) }
    ensures backed { IfOk result (λ found. IfSome found (λ held. H.backs held held)) }
    ensures faults { IfErr result (IsLoadFault H.effects.has_digest) }
    ensures memory { NothingTakesMemory (S.state store.old) (S.load_takes_memory store.old) result }
    ensures store { DeskLoads (S.state store.old) result (S.state store.new) }
    ensures lasts { (S.state store.old).is_correct ≡ true →
        OnOk result (LeavesCommitted (S.state store.old).committed (S.leaves store.new)) }
    ensures left { (S.state store.old).is_correct ≡ true →
        LeavesBeforeOr (S.state store.old).committed (S.leaves store.old) (S.leaves store.new) }
{
    match store.load(alloc)? {
        Some(bytes) => Ok(Some(H::read(alloc, bytes, StoreOk(()))?)),
        None => Ok(None),
    }
}

/// Decodes the one APDU that takes up all of the bytes. If bytes follow it, the fault is `Trailing`.
fn one_apdu(alloc: Global, bytes: &[u8]) -> Result<Apdu, DeskFault>
    ensures { IsOneApdu (apdu_at bytes.now) result }
{
    ill_der::laws::prefix_or_fault();
    match decode(alloc, bytes)? {
        (apdu, size) if size == bytes.len() => Ok(apdu),
        _ => Err(DeskFault::Trailing),
    }
}
