//! A store that fails from a call on.

ghost use Rattle.std.specs.Prelude.{◌≡◌, true};
ghost use Rattle.ill_store.specs.declared.store.StoreFault.TheVariants.{Failed};
ghost use Rattle.ill_store.specs.Store.{FuseOf, StoreLoads, StoreSaves, RunsOutOnlyIf, LoadLasts, SaveLasts, fuse_after_failure, fuse_state, FuseCalls};

use crate::store::{Store, StoreFault};
use std::alloc::Global;
use std::marker::Model;

/// A store that passes a given number of calls of `load` and `save` on to an inner store. Each later call fails, and
/// never reaches the inner store.
#[derive(Debug, Drop)]
pub struct FuseStore<S: Store> {
    inner: S,
    calls: u32,
    failures: u64,
}

/// The value of a fuse is its inner store, the number of calls left, and its own count of failures.
impl<S: Store> Model for FuseStore<S> {
    ghost Value = { FuseOf S };

    ghost view = { λ f. record { inner = f.inner; calls = f.calls; failures = f.failures } };
}

impl<S: Store> FuseStore<S> {
    /// Returns a store that passes `calls` calls on to `inner`. Allocates nothing.
    pub fn new(inner: S, calls: u32) -> FuseStore<S>
        ensures { result ≡ record { inner = inner; calls = calls; failures = 0 } }
    {
        FuseStore {
            inner,
            calls,
            failures: 0,
        }
    }

    /// Returns the inner store.
    pub fn open(self) -> S
        ensures { result ≡ self.inner }
    {
        self.inner
    }

    /// Counts a failure, and returns `Failed`.
    fn fail(&mut self) -> StoreFault
        ensures fault { result ≡ Failed }
        ensures counted { self.new ≡ fuse_after_failure self.old }
    {
        self.failures = self.failures.saturating_add(1);
        StoreFault::Failed
    }
}

/// The committed bytes are those of the inner store, and it is as correct as that. The failures are the sum of its own
/// and those of the inner store. It has no plan.
impl<S: Store> Store for FuseStore<S> {
    ghost state = { fuse_state S.state };

    ghost load_takes_memory = { λ f. S.load_takes_memory f.inner };

    ghost leaves = { λ f. S.leaves f.inner };

    fn load(&mut self, alloc: Global) -> Result<Option<Vec<u8>>, StoreFault>
        ensures calls { FuseCalls S.state (StoreLoads (λ b. b.items)) self.old result self.new }
        ensures memory { RunsOutOnlyIf (S.load_takes_memory self.old.inner) result }
        ensures lasts { (S.state self.old.inner).is_correct ≡ true →
            LoadLasts (S.state self.old.inner).committed (S.leaves self.old.inner) result (S.leaves self.new.inner) }
    {
        if self.calls == 0 {
            return Err(self.fail());
        }
        self.calls -= 1;
        self.inner.load(alloc)
    }

    fn save(&mut self, alloc: Global, bytes: &[u8]) -> Result<(), StoreFault>
        ensures calls { FuseCalls S.state (StoreSaves bytes.now) self.old result self.new }
        ensures lasts { (S.state self.old.inner).is_correct ≡ true →
            SaveLasts bytes.now (S.leaves self.old.inner) result (S.leaves self.new.inner) }
    {
        if self.calls == 0 {
            return Err(self.fail());
        }
        self.calls -= 1;
        self.inner.save(alloc, bytes)
    }
}
