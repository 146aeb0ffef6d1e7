//! A disk in memory that keeps each disk that it was.

ghost use Rattle.std.specs.Prelude.{◌≡◌, [], ◌∷◌, ◌++◌, length, OnOk, OnErr, IfOk};
ghost use Rattle.ill_disk.specs.Disk.{IsWhole};
ghost use Rattle.ill_disk.specs.MemoryDisk.{DiskOverTime, past_state};

use crate::disk::{Disk, DiskFault};
use crate::memory_disk::MemoryDisk;
use std::alloc::{AllocError, Global};
use std::marker::Model;

/// A disk in memory, for tests, that keeps each disk that it was. So a test can let it crash at any moment of a call.
#[derive(Drop)]
pub struct DiskWithPast {
    alloc: Global,
    disk: MemoryDisk,
    past: Vec<MemoryDisk>,
}

/// In proofs a `DiskWithPast` is the disk now, and the disks that it was.
impl Model for DiskWithPast {
    ghost Value = { DiskOverTime };

    ghost view = { λ d. record { disk = d.disk; past = d.past.items } };
}

impl DiskWithPast {
    /// Returns `disk` with an empty past. The past takes its memory from `alloc`.
    pub fn new(alloc: Global, disk: MemoryDisk) -> DiskWithPast
        ensures { result ≡ record { disk = disk; past = [] } }
    {
        DiskWithPast {
            alloc,
            disk,
            past: Vec::new(alloc),
        }
    }

    /// Returns the disk now, to look at.
    pub fn disk(&self) -> &MemoryDisk
        ensures { result.now ≡ self.now.disk }
    {
        &self.disk
    }

    /// Returns the disks that this disk was before each call, the first one first.
    pub fn past(&self) -> &[MemoryDisk]
        ensures { result.now ≡ self.now.past }
    {
        &self.past
    }

    /// Adds the disk now to the past. If memory runs out, nothing changes.
    fn keep(&mut self) -> Result<(), AllocError>
        ensures kept { OnOk result (self.new ≡ record self.old { past = self.old.past ++ self.old.disk ∷ [] }) }
        ensures failed { OnErr result (self.new ≡ self.old) }
        ensures whole { IsWhole self.old.disk }
    {
        self.past.push(self.disk.copy(self.alloc)?)?;
        Ok(())
    }
}

/// Each call but `look_up` first adds the disk before it to the past. If memory runs out for the past, the call fails
/// with `OutOfMemory` and changes nothing.
impl Disk for DiskWithPast {
    ghost state = { past_state };

    fn read(
        &mut self,
        alloc: Global,
        path: &[u8],
        limit: usize,
    ) -> Result<Option<Vec<u8>>, DiskFault> {
        self.keep()?;
        self.disk.read(alloc, path, limit)
    }

    fn look_up(&mut self, path: &[u8]) -> Result<(), DiskFault> {
        self.disk.look_up(path)
    }

    fn create_new(&mut self, path: &[u8], bytes: &[u8]) -> Result<(), DiskFault> {
        self.keep()?;
        self.disk.create_new(path, bytes)
    }

    fn flush(&mut self, path: &[u8]) -> Result<(), DiskFault> {
        self.keep()?;
        self.disk.flush(path)
    }

    fn rename(&mut self, from: &[u8], to: &[u8]) -> Result<(), DiskFault> {
        self.keep()?;
        self.disk.rename(from, to)
    }

    fn remove(&mut self, path: &[u8]) -> Result<(), DiskFault> {
        self.keep()?;
        self.disk.remove(path)
    }

    fn flush_names(&mut self) -> Result<(), DiskFault> {
        self.keep()?;
        self.disk.flush_names()
    }
}
