//! A desk in a file, with the lock of that file.

ghost use Rattle.std.specs.Prelude.{◌≡◌, ◌⊎◌, true, Err, IfOk, IfErr};
ghost use Rattle.ill_saved.specs.ManySides.{many_sides, no_sides};
ghost use Rattle.ill_saved.specs.Desk.{AreAllReleased, IsCreateAnswer, IsStartAnswer};

use crate::desk::Desk;
use crate::fault::DeskFault;
use crate::file_lock::{FileLock, LockFiles};
use ill_record::Role;
use ill_store::FileStore;
use std::alloc::Global;

/// A desk in a file, and the lock of that file. Its end lets the desk go first, and then the lock.
pub struct LockedDesk<'a, R: LockFiles> {
    /// The desk.
    pub desk: Desk<FileStore<'a, R>>,
    /// The lock, which is let go last.
    lock: FileLock<'a, R>,
}

impl<'a, R: LockFiles> LockedDesk<'a, R> {
    /// Starts the desk in the file of `lock`, which has a record (otherwise `NoRecord`). A fault lets the lock go.
    pub fn open(alloc: Global, lock: FileLock<'a, R>) -> Result<LockedDesk<'a, R>, DeskFault>
        ensures whole { IfOk result (λ locked. AreAllReleased many_sides locked.desk.live) }
        ensures faults { IfErr result (λ fault. IsStartAnswer true (Err fault)) }
    {
        let desk = Desk::start(alloc, lock.store(alloc)?)?;
        Ok(LockedDesk { desk, lock })
    }

    /// Creates a desk of `role` in the file of `lock`, which has no record (otherwise `Exists`). Saves nothing. A fault
    /// lets the lock go.
    pub fn create(
        alloc: Global,
        lock: FileLock<'a, R>,
        role: Role,
    ) -> Result<LockedDesk<'a, R>, DeskFault>
        ensures begins { IfOk result (λ locked. locked.desk.live ≡ no_sides role) }
        ensures faults { IfErr result (λ fault. IsCreateAnswer (Err fault)) }
    {
        let desk = Desk::create(alloc, lock.store(alloc)?, role)?;
        Ok(LockedDesk { desk, lock })
    }

    /// Starts the desk in the file of `lock`. If it has no record, creates a desk of `role`, and saves nothing. A fault
    /// lets the lock go.
    pub fn open_or_create(
        alloc: Global,
        lock: FileLock<'a, R>,
        role: Role,
    ) -> Result<LockedDesk<'a, R>, DeskFault>
        ensures whole { IfOk result (λ locked. AreAllReleased many_sides locked.desk.live) }
        ensures faults { IfErr result (λ fault. IsStartAnswer true (Err fault) ⊎ IsCreateAnswer (Err fault)) }
    {
        let desk = match Desk::start(alloc, lock.store(alloc)?) {
            Err((DeskFault::NoRecord, store)) => Desk::create(alloc, store, role)?,
            started => started?,
        };
        Ok(LockedDesk { desk, lock })
    }
}

impl<R: LockFiles> Drop for LockedDesk<'_, R> {
    /// Lets the desk go, and then the lock.
    fn drop(self) {
        let LockedDesk { desk, lock } = self;
        drop(desk);
        drop(lock);
    }
}
