//! A limited store works for a count of saves, and then fails.

ghost use Rattle.std.specs.Prelude.{None, false};

use ill_saved::{MemoryStore, NextCall, Store, StoreFault};
use std::alloc::Global;

/// A store in memory. After a count of saves each further save fails, and the committed bytes stay.
#[derive(Drop)]
pub struct LimitedStore {
    /// The store in memory.
    store: MemoryStore,
    /// The count of saves that are left.
    saves: u32,
}

impl LimitedStore {
    /// Returns an empty store that works for `saves` saves.
    pub fn new(alloc: Global, saves: u32) -> LimitedStore {
        LimitedStore {
            store: MemoryStore::new(alloc),
            saves,
        }
    }
}

/// The state of this store is not correct, and its committed bytes are not stated. The store in memory counts failures.
impl Store for LimitedStore {
    ghost state = { λ s. record {
      path = None;
      committed = None;
      failures = s.store.failures;
      is_correct = false;
      plan = None;
    } };

    // The store promises nothing of the record that a loss of power leaves.
    ghost leaves = { λ _ _. Unit {0} };

    /// Loads what is committed in the store in memory.
    fn load(&mut self, alloc: Global) -> Result<Option<Vec<u8>>, StoreFault> {
        self.store.load(alloc)
    }

    /// Saves `bytes`, if a save is left. Else the store in memory fails, and what is committed stays.
    fn save(&mut self, alloc: Global, bytes: &[u8]) -> Result<(), StoreFault> {
        if self.saves == 0 {
            self.store.set_next(NextCall::FailsOld);
        } else {
            self.saves -= 1;
        }
        self.store.save(alloc, bytes)
    }
}
