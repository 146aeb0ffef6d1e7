//! A store in memory, whose failures are planned.

ghost use Rattle.std.specs.Prelude.{◌≡◌, true, None, Some, is_some, option_map};
ghost use Rattle.ill_store.specs.declared.store.StoreFault.TheVariants.{Failed};
ghost use Rattle.ill_store.specs.declared.store.NextCall.TheVariants as plans;
ghost use Rattle.ill_store.specs.Store.{MemoryStoreState, MemoryLoads, MemorySaves, failed};

use crate::store::{NextCall, Store, StoreFault};
use std::alloc::Global;
use std::marker::Model;

/// A store in memory, for tests. It fails only if its next call is planned to fail.
#[derive(Debug, Drop)]
pub struct MemoryStore {
    alloc: Global,
    committed: Option<Vec<u8>>,
    failures: u64,
    next: NextCall,
}

/// The value of a store in memory is its committed bytes, its count of failures, and its plan.
impl Model for MemoryStore {
    ghost Value = { MemoryStoreState };

    ghost view = { λ m. record {
      committed = option_map (λ b. b.items) m.committed;
      failures = m.failures;
      next = m.next;
    } };
}

impl MemoryStore {
    /// Returns a store in which nothing was saved, and whose next call works. Allocates nothing.
    pub fn new(alloc: Global) -> MemoryStore
        ensures { result ≡ record { committed = None; failures = 0; next = plans.Works } }
    {
        MemoryStore {
            alloc,
            committed: None,
            failures: 0,
            next: NextCall::Works,
        }
    }

    /// Plans the next call of `load` or `save`. The plan holds for that call alone.
    pub fn set_next(&mut self, next: NextCall)
        ensures { self.new ≡ record self.old { next = next } }
    {
        self.next = next;
    }

    /// Returns the plan of this call, and spends it.
    fn take_plan(&mut self) -> NextCall
        ensures plan { result ≡ self.old.next }
        ensures spent { self.new ≡ record self.old { next = plans.Works } }
    {
        let plan = self.next;
        self.next = NextCall::Works;
        plan
    }

    /// Counts a failure, spends the plan, and returns `Failed`.
    fn fail(&mut self) -> StoreFault
        ensures fault { result ≡ Failed }
        ensures counted { self.new ≡ failed self.old }
    {
        self.next = NextCall::Works;
        self.failures = self.failures.saturating_add(1);
        StoreFault::Failed
    }
}

/// A `load` answers `Failed` only if it is planned to fail, and then allocates nothing. A `save` that is planned to
/// fail and to leave the old bytes allocates nothing. If it is planned to commit the new bytes, it commits them
/// before it fails, or answers `OutOfMemory`.
impl Store for MemoryStore {
    ghost state = { λ m. record {
      path = None;
      committed = m.committed;
      failures = m.failures;
      is_correct = true;
      plan = Some m.next;
    } };

    ghost leaves = { λ m left. left ≡ m.committed };

    ghost load_takes_memory = { λ m. is_some m.committed };

    fn load(&mut self, alloc: Global) -> Result<Option<Vec<u8>>, StoreFault>
        ensures { MemoryLoads (λ b. b.items) self.old.next self.old result self.new }
    {
        match self.take_plan() {
            NextCall::Works => match &self.committed {
                Some(bytes) => Ok(Some(Vec::from_slice(alloc, bytes)?)),
                None => Ok(None),
            },
            NextCall::FailsOld | NextCall::FailsNew => Err(self.fail()),
        }
    }

    fn save(&mut self, alloc: Global, bytes: &[u8]) -> Result<(), StoreFault>
        ensures { MemorySaves self.old.next bytes.now self.old result self.new }
    {
        let plan = self.take_plan();
        if plan != NextCall::FailsOld {
            self.committed = Some(Vec::from_slice(alloc, bytes)?);
        }
        if plan == NextCall::Works {
            return Ok(());
        }
        Err(self.fail())
    }
}
