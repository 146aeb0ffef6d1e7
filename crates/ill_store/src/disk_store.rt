//! A store in a file of a disk that may lose its power.

ghost use Rattle.std.specs.Prelude.{◌≡◌, ◌≤◌, ◌++◌, codes, length, IfOk, IfErr, IfSome};
ghost use Rattle.ill_store.specs.declared.store.StoreFault.TheVariants.{Failed};
ghost use Rattle.ill_store.specs.Store.{StoreLoads, StoreSaves, failures_after, one_more};
ghost use Rattle.ill_disk.specs.Disk.{Leaves};
ghost use Rattle.ill_store.specs.DiskStore.{DiskStoreOf, DiskLoads, DiskSaves, temporary_of, store_state};

use crate::lasting;
use crate::store::{Store, StoreFault};
use ill_disk::{Disk, DiskFault, regular_file};
use ill_values::OutOfMemory;
use std::alloc::Global;
use std::marker::Model;

/// A store of one record in a file of a disk. The file beside the record whose name ends with `.new` belongs to the
/// store. So `load` and `save` fail if the path of the record ends with `.new`. They also fail if it ends with `.lck`,
/// as the path of a lock does.
///
/// Each crash of a correct disk leaves the record that a load gave. It leaves the record of a save that is done, too.
#[derive(Drop)]
pub struct DiskStore<D: Disk> {
    disk: D,
    path: Vec<u8>,
    temporary: Vec<u8>,
    limit: usize,
    failures: u64,
}

/// The value of a store is its disk, its path, its limit and its count of failures. The path `temporary` is the path of
/// the record followed by `.new`.
impl<D: Disk> Model for DiskStore<D> {
    ghost Value = { DiskStoreOf D };

    ghost view = { λ s. record {
      disk = s.disk;
      path = s.path.items;
      limit = s.limit;
      failures = s.failures;
    } };

    ghost invariant = { λ s. s.temporary.items ≡ temporary_of s.path.items };
}

impl<D: Disk> DiskStore<D> {
    /// Returns the store in the file at `path` of the disk, which need not exist, for records of `limit` bytes at
    /// most. Changes nothing on the disk. A save may write a longer record, which no load then gives.
    pub fn at(
        alloc: Global,
        disk: D,
        path: &[u8],
        limit: usize,
    ) -> Result<DiskStore<D>, OutOfMemory>
    where
        D: Drop,
        ensures { IfOk result (λ store.
            store ≡ record { disk = disk; path = path.now; limit = limit; failures = 0 }) }
    {
        let mut temporary = Vec::from_slice(alloc, path)?;
        temporary.extend_from_slice(b".new")?;
        let path = Vec::from_slice(alloc, path)?;
        Ok(DiskStore {
            disk,
            path,
            temporary,
            limit,
            failures: 0,
        })
    }

    /// Returns the disk.
    pub fn close(self) -> D
        ensures { result ≡ self.disk }
    {
        self.disk
    }

    /// Returns the disk, to look at.
    pub fn disk(&self) -> &D
        ensures { result.now ≡ self.now.disk }
    {
        &self.disk
    }

    /// Returns true if the path of the record ends with `.new` or `.lck`, as that of a file beside a record.
    fn is_reserved(&self) -> bool {
        regular_file::is_reserved(&self.path)
    }

    /// Counts a failure, and returns `Failed`.
    fn fail(&mut self) -> StoreFault
        ensures fault { result ≡ Failed }
        ensures counted { self.new ≡ record self.old { failures = one_more self.old.failures } }
    {
        self.failures = self.failures.saturating_add(1);
        StoreFault::Failed
    }
}

/// This store has no plan, and is as correct as its disk. A load flushes the record that it gives. A save
/// that runs out of memory counts as failed, since the disk may have changed.
impl<D: Disk> Store for DiskStore<D> {
    ghost state = { store_state D.state };

    ghost leaves = { λ s. Leaves (D.state s.disk).now s.path };

    fn load(&mut self, alloc: Global) -> Result<Option<Vec<u8>>, StoreFault>
        ensures loads { StoreLoads (λ b. b.items) (store_state D.state self.old) result (store_state D.state self.new) }
        ensures within { IfOk result (λ found. IfSome found (λ b. length b.items ≤ self.old.limit)) }
        ensures lasts { DiskLoads (λ b. b.items) self.old.path (D.state self.old.disk) result (D.state self.new.disk) }
        ensures place { self.new.path ≡ self.old.path }
        ensures limit { self.new.limit ≡ self.old.limit }
        ensures counted { self.new.failures ≡ failures_after result self.old.failures }
    {
        if self.is_reserved() {
            return Err(self.fail());
        }
        match lasting::load(&mut self.disk, alloc, &self.path, self.limit) {
            Ok(found) => Ok(found),
            Err(DiskFault::OutOfMemory) => Err(StoreFault::OutOfMemory),
            Err(DiskFault::TooLarge) => Err(StoreFault::TooLarge),
            Err(DiskFault::Failed | DiskFault::NotFound) => Err(self.fail()),
        }
    }

    fn save(&mut self, _alloc: Global, bytes: &[u8]) -> Result<(), StoreFault>
        ensures saves { StoreSaves bytes.now (store_state D.state self.old) result (store_state D.state self.new) }
        ensures lasts { DiskSaves self.old.path bytes.now (D.state self.old.disk) result (D.state self.new.disk) }
        ensures fault { IfErr result (λ fault. fault ≡ Failed) }
        ensures place { self.new.path ≡ self.old.path }
        ensures limit { self.new.limit ≡ self.old.limit }
        ensures counted { self.new.failures ≡ failures_after result self.old.failures }
    {
        if self.is_reserved() {
            return Err(self.fail());
        }
        match lasting::save(&mut self.disk, &self.path, &self.temporary, bytes) {
            Ok(()) => Ok(()),
            Err(_) => Err(self.fail()),
        }
    }
}
