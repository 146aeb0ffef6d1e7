//! The store in which a side keeps its record.

ghost use Rattle.std.specs.Prelude.{◌≡◌, ℕ, Bool, true, List, Option};
ghost use Rattle.ill_store.specs.declared.store.StoreFault.TheVariants.{OutOfMemory};
ghost use Rattle.ill_store.specs.Store.{StoreState, StoreLoads, StoreSaves, RunsOutOnlyIf, LoadLasts, SaveLasts};

use std::alloc::{AllocError, AllocFailed, Global};
use thiserror::Error;

/// The fault of a load or a save.
#[derive(Clone, Copy, Debug, PartialEq, Eq, Hash, Error)]
pub enum StoreFault {
    /// The call failed. After a `save`, the old or the new bytes are committed.
    #[error("failed")]
    Failed,
    /// The record is longer than the store's limit. Only `load` gives this.
    #[error("too-large")]
    TooLarge,
    /// Memory ran out. The committed bytes are unchanged.
    #[error("memory")]
    OutOfMemory,
}

/// Turns an allocation that was refused into `OutOfMemory`.
impl From<AllocError> for StoreFault {
    ghost from_gives = { λ _ fault. fault ≡ OutOfMemory };

    fn from(_error: AllocError) -> StoreFault {
        StoreFault::OutOfMemory
    }
}

/// Turns an allocation that was refused, with the value that was to be stored, into `OutOfMemory`.
impl<T: Drop> From<AllocFailed<T>> for StoreFault {
    ghost from_gives = { λ _ fault. fault ≡ OutOfMemory };

    fn from(_error: AllocFailed<T>) -> StoreFault {
        StoreFault::OutOfMemory
    }
}

/// The plan for the next call of a store.
#[derive(Clone, Copy, Debug, PartialEq, Eq, Hash)]
pub enum NextCall {
    /// It does not fail, unless memory runs out.
    Works,
    /// It fails, and the committed bytes stay.
    FailsOld,
    /// It fails, but the bytes of a `save` are committed.
    FailsNew,
}

/// A place for the bytes of one record. The committed bytes are the bytes that a `load` would return now.
///
/// The contracts state the committed bytes only of a correct store. A correct store follows its plan, if it has one.
pub trait Store {
    /// Returns the state of the store: its committed bytes, the number of failed calls, and the plan for the next call.
    /// Its part `is_correct` is true if the store does as it answers.
    ghost state: { Self → StoreState };

    /// Returns true if the next `load` takes memory. A store that does not say so may take memory.
    ghost load_takes_memory: { Self → Bool } = { λ _. true };

    /// Holds of each record that a loss of power may leave now.
    ghost leaves: { Self → Option (List ℕ) → Type 0 };

    /// Loads the committed bytes, or `None` if nothing is committed. From then on a loss of power leaves them.
    fn load(&mut self, alloc: Global) -> Result<Option<Vec<u8>>, StoreFault>
        ensures loads { StoreLoads (λ b. b.items) (state self.old) result (state self.new) }
        ensures memory { RunsOutOnlyIf (load_takes_memory self.old) result }
        ensures lasts { (state self.old).is_correct ≡ true →
            LoadLasts (state self.old).committed (leaves self.old) result (leaves self.new) };

    /// Saves `bytes` in place of the committed bytes. From then on a loss of power leaves them. After `Failed`, the old
    /// or the new bytes are committed, and a loss of power leaves these, or what it might have left before.
    fn save(&mut self, alloc: Global, bytes: &[u8]) -> Result<(), StoreFault>
        ensures saves { StoreSaves bytes.now (state self.old) result (state self.new) }
        ensures lasts { (state self.old).is_correct ≡ true →
            SaveLasts bytes.now (leaves self.old) result (leaves self.new) };
}
