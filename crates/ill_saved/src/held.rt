//! The calls by which a desk changes what it holds. A call that releases messages wants the Ok of a store, which only a
//! desk can make. So no other code releases a message that was not saved.

ghost use Rattle.std.specs.Prelude.{◌≡◌, List, ℕ, option_map, IfOk, IfErr, OnOk};
ghost use Rattle.ill_saved.specs.Holdings.{Effects, DeskActs, DeskTakesApdu, SendsHeld, StaysBacked, IsBacked, IsRecordOf, IsReadFault, ReadsRecord, GoesBackToCommitted};
ghost use Rattle.ill_saved.specs.Desk.{AreAllReleased};

use crate::desk::StoreOk;
use crate::fault::DeskFault;
use ill_core::Taking;
use ill_record::Action;
use ill_values::{Apdu, Number, OutOfMemory};
use std::alloc::Global;

/// The calls by which a desk changes the sides that it holds in memory, and their released messages. Only a desk makes
/// them. It releases messages only after their record is committed.
pub trait Held: Drop {
    /// The name of a side.
    type Key;

    /// The argument of `begin`.
    type First;

    /// A record of all sides, ready to be saved.
    type Record: Drop;

    /// The effects of a desk's calls on the sides.
    ghost effects: { Effects Self Self.Key };

    /// The committed sides back the live ones. Transitions lead from each committed side to its live side, and the
    /// committed side has each released message.
    ghost backs: { Self → Self → Type 0 };

    /// The sides are consistent, and each fits into a record.
    ghost in_range: { Self → Type 0 };

    /// Returns the sides of a new desk.
    ghost begun: { Self.First → Self };

    /// Returns the bytes of a record.
    ghost encoded: { Self.Record → List ℕ };

    /// The record is the record of these sides.
    ghost fits: { Self.Record → Self → Type 0 };

    /// Returns the sides of a new desk, with no message released. Allocates nothing.
    fn begin(alloc: Global, first: Self::First) -> Self
        ensures begins { result ≡ begun first }
        ensures backed { backs (effects.unsaved result) result };

    /// Decodes the sides that `bytes` encode. All their messages may be sent. Fails if the bytes are no record, or if
    /// memory runs out.
    fn read(alloc: Global, bytes: Vec<u8>, ok: StoreOk) -> Result<Self, DeskFault>
        ensures reads { ReadsRecord effects bytes.items result }
        ensures whole { IfOk result (λ held. AreAllReleased effects held) }
        ensures backed { IfOk result (λ held. backs held held) }
        ensures faults { IfErr result (IsReadFault effects.has_digest) };

    /// Performs `action` on the side `key`. A fault changes nothing.
    fn act(&mut self, alloc: Global, key: &Self::Key, action: &Action) -> Result<(), DeskFault>
        ensures acts { DeskActs effects self.old key.now action.now result self.new }
        ensures backed { StaysBacked effects backs self.old self.new };

    /// Hands `apdu` to the side that it is for, and returns its effect. A fault changes nothing.
    fn take(&mut self, alloc: Global, apdu: &Apdu) -> Result<Taking, DeskFault>
        ensures takes { DeskTakesApdu effects self.old apdu.now result self.new }
        ensures backed { StaysBacked effects backs self.old self.new };

    /// Returns the bytes of the message `number` of the side `key`, to send it. The side must be held (otherwise
    /// `NoSuchTransaction`), and the message issued (otherwise `NoSuchMessage`) and released (otherwise `NotSaved`).
    fn message(&self, alloc: Global, key: &Self::Key, number: Number) -> Result<Vec<u8>, DeskFault>
        ensures { SendsHeld (λ bytes. bytes.items) (effects.found key.now self.now) number result };

    /// Encodes all sides as a record.
    fn record(&self, alloc: Global) -> Result<Self::Record, OutOfMemory>
        ensures fits { IfOk result (λ made. fits made self.now) }
        ensures record { IfOk result (λ made. IsRecordOf effects backs (encoded made) self.now) }
        ensures range { IfOk result (λ _. in_range self.now) };

    /// Returns the bytes of the record `made`.
    fn bytes(made: &Self::Record) -> &[u8]
        ensures { result.now ≡ encoded made.now };

    /// Releases all messages. Their record `committed` is committed.
    fn release(&mut self, committed: Self::Record, ok: StoreOk)
        requires fits { fits committed self.old }
        ensures { self.new ≡ effects.saves self.old };

    /// Goes back to the sides that the committed `bytes` encode, or to those of a new desk if there are no bytes. All
    /// their messages may be sent. A fault changes nothing. Allocates nothing if there are no bytes.
    fn go_back(
        &mut self,
        alloc: Global,
        bytes: Option<Vec<u8>>,
        ok: StoreOk,
    ) -> Result<(), DeskFault>
        ensures goes { GoesBackToCommitted effects (option_map (λ b. b.items) bytes) self.old result
            self.new }
        ensures whole { OnOk result (AreAllReleased effects self.new) }
        ensures backed { OnOk result (IsBacked effects backs (option_map (λ b. b.items) bytes) self.new) }
        ensures faults { IfErr result (IsReadFault effects.has_digest) };
}
