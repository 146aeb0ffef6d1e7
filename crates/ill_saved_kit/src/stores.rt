//! Calls a store in memory, and repeats a call while an allocation is refused.

use crate::line::Line;
use crate::words::{write_loaded, write_saved};
use ill_desk_kit::plan_of;
use ill_saved::{MemoryStore, NextCall, Store, StoreFault};
use ill_test_kit::marks;
use ill_test_kit::marks::TRIES;
use std::alloc::Global;

/// A store in memory, if there is one, and the plan of its next call.
#[derive(Drop)]
pub struct StoreBench {
    /// The allocator of all values.
    alloc: Global,
    /// The store, if there is one.
    pub memory: Option<MemoryStore>,
    /// The plan of the next call of the store.
    pub next: NextCall,
}

impl StoreBench {
    /// Returns a bench without a store.
    pub fn new(alloc: Global) -> StoreBench {
        StoreBench {
            alloc,
            memory: None,
            next: NextCall::Works,
        }
    }

    /// Performs `store`: puts an empty store on the bench.
    pub fn make(&mut self, line: &mut Line) {
        self.next = NextCall::Works;
        drop(self.memory.replace(new(self.alloc)));
        line.text("new");
    }

    /// Performs `load`: loads the store, and writes the result. Returns `None` if there is no store.
    pub fn load(&mut self, line: &mut Line) -> Option<()> {
        self.next = NextCall::Works;
        write_loaded(line, load(self.alloc, self.memory.as_mut()?));
        Some(())
    }

    /// Performs `save BYTES`: saves `bytes` in the store, and writes the result. Returns `None` if there is no store.
    pub fn save(&mut self, line: &mut Line, bytes: &[u8]) -> Option<()> {
        let plan = self.next;
        self.next = NextCall::Works;
        write_saved(line, save(self.alloc, self.memory.as_mut()?, plan, bytes));
        Some(())
    }

    /// Performs the line `next PLAN` of a case: plans what the next call of the store does. Returns `None` if `words`
    /// are no plan or there is no store. Allocates nothing.
    pub fn plan(&mut self, line: &mut Line, words: &str) -> Option<()> {
        let next = plan_of(words)?;
        let store = self.memory.as_mut()?;
        marks::begin_quiet(self.alloc);
        store.set_next(next);
        marks::end_quiet(self.alloc);
        self.next = next;
        line.text("planned");
        Some(())
    }
}

/// Returns the text of a store: the committed bytes, its failures and its plan. Returns `None` if memory runs out.
pub fn seen(alloc: Global, store: &MemoryStore) -> Option<String> {
    format!(in alloc; "{store:?}").ok()
}

/// Returns true if the text of a store is still `before`, as `seen` gave it. Returns false if `before` is `None`.
pub fn is_as_seen(alloc: Global, store: &MemoryStore, before: &Option<String>) -> bool {
    before.is_some() && seen(alloc, store) == *before
}

/// Returns a store in which nothing is committed. This takes no memory.
fn new(alloc: Global) -> MemoryStore {
    marks::begin_quiet(alloc);
    let store = MemoryStore::new(alloc);
    marks::end_quiet(alloc);
    store
}

/// Loads `store`, and repeats that while an allocation is refused. A refused load must change nothing: if it does, its
/// answer is returned.
fn load(alloc: Global, store: &mut MemoryStore) -> Result<Option<Vec<u8>>, StoreFault> {
    let before = seen(alloc, store);
    for _ in 0..TRIES {
        marks::begin(alloc);
        let loaded = store.load(alloc);
        let says_memory = matches!(&loaded, Err(StoreFault::OutOfMemory));
        if !marks::is_refused(alloc, says_memory) || !is_as_seen(alloc, store, &before) {
            return loaded;
        }
    }
    Err(StoreFault::OutOfMemory)
}

/// Saves `bytes` in `store`, whose next call has the plan `plan`, and repeats that while an allocation is refused. A
/// refused save may use up the plan, but must change nothing else: if it does, its answer is returned.
fn save(
    alloc: Global,
    store: &mut MemoryStore,
    plan: NextCall,
    bytes: &[u8],
) -> Result<(), StoreFault> {
    let before = seen(alloc, store);
    for _ in 0..TRIES {
        marks::begin(alloc);
        let saved = store.save(alloc, bytes);
        if !marks::is_refused(alloc, saved == Err(StoreFault::OutOfMemory)) {
            return saved;
        }
        store.set_next(plan);
        if !is_as_seen(alloc, store, &before) {
            return saved;
        }
    }
    Err(StoreFault::OutOfMemory)
}
