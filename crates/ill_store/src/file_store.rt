//! A store in a file.

ghost use Rattle.std.specs.Prelude.{◌≡◌, List, None, Some, false, IfOk};
ghost use Rattle.ill_store.specs.Store.{FileStoreState, FileLoads, FileSaves};

use crate::disk_store::DiskStore;
use crate::store::{Store, StoreFault};
use ill_disk::HostDisk;
use ill_values::OutOfMemory;
use std::alloc::Global;
use std::marker::Model;
use std::rt::Files;

/// A store in a file, for a record that outlives the program. Its calls are those of a `DiskStore` over the files of
/// the host.
///
/// No contract states the content of a file, so this store is not correct. If the host does what docs/STORES.md says of
/// each of its calls, the store keeps the contract of `DiskStore`, whenever the power goes.
///
/// A save fails if another program has replaced or changed the file since this store loaded or saved it. The save
/// finds most such changes, but may miss one that is made during the save. So hold a lock if you share a file.
#[derive(Drop)]
pub struct FileStore<'a, R: Files> {
    store: DiskStore<HostDisk<'a, R>>,
}

/// The value of a store in a file is its path, its limit and its count of failures. The content is no part of it.
impl<'a, R: Files> Model for FileStore<'a, R> {
    ghost Value = { FileStoreState };

    ghost view = { λ f. record { path = f.store.path; limit = f.store.limit; failures = f.store.failures } };
}

impl<'a, R: Files> FileStore<'a, R> {
    /// Returns the store in the file at `path`, which need not exist, for records of `limit` bytes at most. Touches
    /// no file.
    ///
    /// The limit is checked by a load alone. A save may write a longer record, which is `TooLarge` for the next load.
    pub fn at(
        rt: &'a R,
        alloc: Global,
        path: &str,
        limit: u32,
    ) -> Result<FileStore<'a, R>, OutOfMemory>
        ensures { IfOk result (λ store.
            store ≡ record { path = path.now; limit = limit; failures = 0 }) }
    {
        let disk = HostDisk::at(rt, alloc, path)?;
        let store = DiskStore::at(alloc, disk, path.as_bytes(), limit as usize)?;
        Ok(FileStore { store })
    }
}

/// `load` takes memory for the bytes alone. `save` takes no memory.
impl<'a, R: Files> Store for FileStore<'a, R> {
    ghost state = { λ f. record {
      path = Some f.path;
      committed = None;
      failures = f.failures;
      is_correct = false;
      plan = None;
    } };

    ghost leaves = { λ _ _. Unit {0} };

    fn load(&mut self, alloc: Global) -> Result<Option<Vec<u8>>, StoreFault>
        ensures { FileLoads (λ b. b.items) self.old result self.new }
    {
        self.store.load(alloc)
    }

    fn save(&mut self, alloc: Global, bytes: &[u8]) -> Result<(), StoreFault>
        ensures { FileSaves self.old result self.new }
    {
        self.store.save(alloc, bytes)
    }
}
