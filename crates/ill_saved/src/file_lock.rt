//! The lock of a desk's file, which one command at a time holds.

ghost use Rattle.std.specs.Prelude.{◌≡◌, ◌⊎◌, ℕ, List, string_bytes, IfErr, IfOk};
ghost use Rattle.ill_saved.specs.declared.file_lock.LockFault.TheVariants as locks;
ghost use Rattle.ill_store.specs.declared.store.StoreFault.TheVariants.{Failed, OutOfMemory};
ghost use Rattle.ill_saved.specs.Faults.{of_lock};

use ill_disk::regular_file;
use ill_record::RECORD_LIMIT;
use ill_store::{FileStore, StoreFault};
use std::alloc::{AllocError, AllocFailed, Global};
use std::fs::{File, Metadata, OpenFile, TryLockError};
use std::io::ErrorKind;
use std::marker::Model;
use std::os::unix::fs::MetadataExt;
use std::rt::Files;
use std::time::Duration;
use std::{fs, io, thread};
use thiserror::Error;

/// Files that can be locked, and a way to wait.
pub trait LockFiles: Files {
    /// Tries to lock an open file. Returns true if the lock is taken, and false if the file is locked through another
    /// opening. The lock ends with the opening, however the program ends.
    fn try_lock(&self, file: &Self::File) -> io::Result<bool>;

    /// Waits a tenth of a second.
    fn pause(&self);
}

impl LockFiles for HostRuntime {
    fn try_lock(&self, file: &File) -> io::Result<bool> {
        match file.try_lock() {
            Ok(()) => Ok(true),
            Err(TryLockError::WouldBlock) => Ok(false),
            Err(TryLockError::Error(error)) => Err(error),
        }
    }

    fn pause(&self) {
        thread::sleep(self, Duration::from_millis(100));
    }
}

/// The fault of a lock that was not taken.
#[derive(Clone, Copy, Debug, PartialEq, Eq, Hash, Error)]
pub enum LockFault {
    /// Another program held the lock for ten seconds.
    #[error("busy")]
    Busy,
    /// The file of the lock cannot be made, opened or locked, or the path is one of a file beside a record.
    #[error("failed")]
    Failed,
    /// Memory ran out.
    #[error("memory")]
    OutOfMemory,
}

impl From<AllocError> for LockFault {
    ghost from_gives = { λ _ fault. fault ≡ locks.OutOfMemory };

    fn from(_error: AllocError) -> LockFault {
        LockFault::OutOfMemory
    }
}

impl<T: Drop> From<AllocFailed<T>> for LockFault {
    ghost from_gives = { λ _ fault. fault ≡ locks.OutOfMemory };

    fn from(_error: AllocFailed<T>) -> LockFault {
        LockFault::OutOfMemory
    }
}

/// Returns the fault of a store whose lock was not taken.
impl From<LockFault> for StoreFault {
    ghost from_gives = { λ lock fault. fault ≡ of_lock lock };

    fn from(fault: LockFault) -> StoreFault {
        match fault {
            LockFault::Busy | LockFault::Failed => StoreFault::Failed,
            LockFault::OutOfMemory => StoreFault::OutOfMemory,
        }
    }
}

/// The number of attempts at a lock, with a pause between: ten seconds in all.
const TRIES: u32 = 100;

/// The lock of the file at a path. While it is held, nobody else can take it.
///
/// It is the lock on a second file beside the first, whose name is the name of the first followed by `.lck`. The
/// program that takes the lock creates the second file, and removes it at the end. A program that is killed leaves
/// this file without a lock.
pub struct FileLock<'a, R: LockFiles> {
    rt: &'a R,
    /// The path of the file that the lock guards.
    path: String,
    /// The path of the file beside it.
    lock_path: String,
    /// The file that is locked, or `None` in a folder in which nothing can be saved.
    file: Option<R::File>,
}

// The value of a lock is the path of the file that it guards.
impl<'a, R: LockFiles> Model for FileLock<'a, R> {
    ghost Value = { List ℕ };

    ghost view = { λ lock. string_bytes lock.path };
}

impl<'a, R: LockFiles> FileLock<'a, R> {
    /// Takes the lock as `wait_for` does. Answers `Failed`, too, if another program holds the lock for ten seconds.
    pub fn take(rt: &'a R, alloc: Global, path: &str) -> Result<FileLock<'a, R>, StoreFault>
        ensures guards { IfOk result (λ lock. lock ≡ path.now) }
        ensures faults { IfErr result (λ fault. (fault ≡ Failed) ⊎ (fault ≡ OutOfMemory)) }
    {
        Ok(FileLock::wait_for(rt, alloc, path)?)
    }

    /// Takes the lock of the file at `path`, which need not exist. While another program holds it, waits, ten seconds
    /// at most, and then answers `Busy`.
    ///
    /// In a folder that does not exist, or in which no file may be created, succeeds at once without a lock. Its holder
    /// cannot save there.
    pub fn wait_for(rt: &'a R, alloc: Global, path: &str) -> Result<FileLock<'a, R>, LockFault>
        ensures { IfOk result (λ lock. lock ≡ path.now) }
    {
        let own_path = String::from_str(alloc, path)?;
        let mut lock_path = String::from_str(alloc, path)?;
        lock_path.push_str(regular_file::LOCK)?;
        let file = match wait(rt, path, lock_path.as_str()) {
            Ok(Attempt::Busy) => return Err(LockFault::Busy),
            Err(_) => return Err(LockFault::Failed),
            Ok(Attempt::Needless) => None,
            Ok(Attempt::Taken(file)) => Some(file),
        };
        Ok(FileLock {
            rt,
            path: own_path,
            lock_path,
            file,
        })
    }

    /// Returns the store in the file that the lock guards, for every record of a desk.
    pub(crate) fn store(&self, alloc: Global) -> Result<FileStore<'a, R>, AllocError> {
        FileStore::at(self.rt, alloc, self.path.as_str(), RECORD_LIMIT)
    }
}

impl<R: LockFiles> Drop for FileLock<'_, R> {
    /// Removes the file of the lock, if it still exists, and then releases the lock.
    fn drop(self) {
        let FileLock {
            rt,
            path: _path,
            lock_path,
            file,
        } = self;
        if let Some(file) = &file
            && is_at(rt, lock_path.as_str(), file).unwrap_or(false)
        {
            let _ = fs::remove_file(rt, lock_path.as_str());
        }
        drop(file);
    }
}

/// The result of an attempt to take a lock.
#[derive(Drop)]
enum Attempt<F> {
    /// This file is open and locked.
    Taken(F),
    /// No file can be created in the folder, so no lock is needed.
    Needless,
    /// Another program holds the lock.
    Busy,
}

/// Tries to take the lock of the file at `path`, at most `TRIES` times, and then returns `Busy`. It is the lock on the
/// file at `lock_path`. An empty `path` needs no lock. A `path` of a file beside a record is an error.
fn wait<R: LockFiles>(rt: &R, path: &str, lock_path: &str) -> io::Result<Attempt<R::File>> {
    if regular_file::is_reserved(path.as_bytes()) {
        return Err(ErrorKind::InvalidInput.into());
    }
    if path.is_empty() {
        return Ok(Attempt::Needless);
    }
    for _ in 0..TRIES {
        match try_take(rt, path, lock_path)? {
            Attempt::Busy => rt.pause(),
            attempt => return Ok(attempt),
        }
    }
    Ok(Attempt::Busy)
}

/// Takes a lock, if nobody holds it. A holder removes its file at the end. So a lock on a file that is no longer at
/// its path does not count.
fn try_take<R: LockFiles>(rt: &R, path: &str, lock_path: &str) -> io::Result<Attempt<R::File>> {
    let record = regular_file::find(rt, path)?;
    match regular_file::create(rt, lock_path, record.as_ref()) {
        Ok(file) => lock_created(rt, lock_path, file, record.as_ref()),
        Err(error) => match error.kind() {
            ErrorKind::AlreadyExists => lock_existing(rt, lock_path),
            ErrorKind::NotFound | ErrorKind::PermissionDenied | ErrorKind::ReadOnlyFilesystem => Ok(
                Attempt::Needless,
            ),
            _ => Err(error),
        },
    }
}

/// Locks the `file` that was created for the lock, and lets the users of the `record` open it. If another program has
/// locked or removed the file meanwhile, returns `Busy`, so that the caller tries again.
fn lock_created<R: LockFiles>(
    rt: &R,
    lock_path: &str,
    file: R::File,
    record: Option<&Metadata>,
) -> io::Result<Attempt<R::File>> {
    if let Some(record) = record {
        match regular_file::share_like(rt, lock_path, &file, record) {
            Ok(()) => {}
            Err(error) if error.kind() == ErrorKind::NotFound => return Ok(Attempt::Busy),
            Err(error) => return Err(error),
        }
    }
    lock(rt, lock_path, file)
}

/// Locks the file that another program has created for the lock. Returns `Busy` if it cannot be opened or locked now.
fn lock_existing<R: LockFiles>(rt: &R, lock_path: &str) -> io::Result<Attempt<R::File>> {
    match open(rt, lock_path)? {
        Some(file) => lock(rt, lock_path, file),
        None => Ok(Attempt::Busy),
    }
}

/// Opens the file of a lock. Returns `None` if its holder has just removed it, or has not yet set its permissions.
fn open<R: LockFiles>(rt: &R, lock_path: &str) -> io::Result<Option<R::File>> {
    if regular_file::find(rt, lock_path)?.is_none() {
        return Ok(None);
    }
    match fs::open(rt, lock_path) {
        Ok(file) => Ok(Some(file)),
        Err(error) => match error.kind() {
            ErrorKind::NotFound | ErrorKind::PermissionDenied => Ok(None),
            _ => Err(error),
        },
    }
}

/// Locks the `file` that was opened or created at `lock_path`. Returns `Busy` if the file is no longer at that path or
/// another program holds its lock.
fn lock<R: LockFiles>(rt: &R, lock_path: &str, file: R::File) -> io::Result<Attempt<R::File>> {
    let is_held = rt.try_lock(&file)? && is_at(rt, lock_path, &file)?;
    if is_held {
        return Ok(Attempt::Taken(file));
    }
    Ok(Attempt::Busy)
}

/// Returns true if the file at `lock_path` is the opened `file`, and false for another file or none.
fn is_at<R: LockFiles>(rt: &R, lock_path: &str, file: &R::File) -> io::Result<bool> {
    let opened = file.metadata()?;
    match regular_file::find(rt, lock_path)? {
        Some(found) => Ok(found.dev() == opened.dev() && found.ino() == opened.ino()),
        None => Ok(false),
    }
}
