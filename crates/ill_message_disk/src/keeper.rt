//! Bytes that are kept in a file of a disk.

ghost use Rattle.std.specs.Prelude.{◌≡◌, Some, None, IfOk};
ghost use Rattle.ill_message_disk.specs.Keeping as keeping;
ghost use Rattle.ill_message_disk.specs.Keeping.{LeavesFile, PutsFile, keeper_at};

use crate::message_disk::MessageDisk;
use crate::moves::clear;
use ill_disk::DiskFault;
use std::alloc::{AllocError, Global};
use std::marker::Model;

/// A file in which bytes are kept. The path beside it, with `.new` at its end, belongs to it too.
#[derive(Drop)]
pub struct Keeper {
    path: Vec<u8>,
    temporary: Vec<u8>,
}

// The value of a keeper has its two paths. By the invariant the one beside the file is made by `keeper_at`.
impl Model for Keeper {
    ghost Value = { keeping.KeeperOf };

    ghost view = { λ k. record { path = k.path.items; temporary = k.temporary.items } };

    ghost invariant = { λ k. record { path = k.path.items; temporary = k.temporary.items } ≡ keeper_at k.path.items };
}

impl Keeper {
    /// Returns the keeper of the file at `path`, which need not exist.
    pub fn at(alloc: Global, path: &[u8]) -> Result<Keeper, AllocError>
        ensures { IfOk result (λ keeper. keeper ≡ keeper_at path.now) }
    {
        let mut temporary = Vec::from_slice(alloc, path)?;
        temporary.extend_from_slice(b".new")?;
        let path = Vec::from_slice(alloc, path)?;
        Ok(Keeper { path, temporary })
    }

    /// Returns the path of the file.
    pub fn path(&self) -> &[u8]
        ensures { result.now ≡ self.now.path }
    {
        &self.path
    }

    /// Returns the path beside the file, at which a new file is made first.
    pub fn temporary(&self) -> &[u8]
        ensures path { result.now ≡ self.now.temporary }
        ensures beside { self.now ≡ keeper_at self.now.path }
    {
        &self.temporary
    }

    /// Removes the file, if it is there.
    pub fn forget<D: MessageDisk>(&self, disk: &mut D) -> Result<(), DiskFault>
        ensures { PutsFile self.now None (D.state disk.old) result (D.state disk.new) }
    {
        clear(disk, self.path())
    }

    /// Keeps `bytes` in the file. Its name is flushed at the end.
    ///
    /// Looks up the file, and removes what an earlier call has left beside it. Makes a new file there, flushes it, and
    /// renames it over the file. If that fails, removes what stands beside it.
    pub fn keep<D: MessageDisk>(&self, disk: &mut D, bytes: &[u8]) -> Result<(), DiskFault>
        ensures { PutsFile self.now (Some bytes.now) (D.state disk.old) result (D.state disk.new) }
    {
        disk.look_up(self.path())?;
        self.clear_temporary(disk)?;
        match self.place(disk, bytes) {
            Ok(()) => disk.flush_name(self.path()),
            Err(fault) => {
                let _ = self.clear_temporary(disk);
                Err(fault)
            }
        }
    }

    /// Removes what stands beside the file.
    fn clear_temporary<D: MessageDisk>(&self, disk: &mut D) -> Result<(), DiskFault>
        ensures { LeavesFile self.now (D.state disk.old) (D.state disk.new) }
    {
        clear(disk, self.temporary())
    }

    /// Makes a new file of `bytes` beside the file, flushes it, and renames it over the file. The name is not flushed.
    fn place<D: MessageDisk>(&self, disk: &mut D, bytes: &[u8]) -> Result<(), DiskFault>
        ensures { PutsFile self.now (Some bytes.now) (D.state disk.old) result (D.state disk.new) }
    {
        disk.create_new(self.temporary(), bytes)?;
        disk.flush(self.temporary())?;
        disk.rename(self.temporary(), self.path())
    }
}
