//! A desk in a file is opened, with its lock or without.

ghost use Rattle.std.specs.Prelude.{◌≡◌, Ok, true, IfErr};
ghost use Rattle.ill_saved.specs.Desk.{answer_of};
ghost use Rattle.ill_files.specs.Opening.{after_writing, all_succeed};
ghost use Rattle.ill_text.specs.Fault.{IsOpenFault};

use ill_saved::{Desk, DeskFault, FileLock, FileStore, LockFiles, LockedDesk, RECORD_LIMIT};
use ill_text::fault::ToolFault;
use std::alloc::Global;
use std::rt::Files;

/// Returns true in place of the answer, or the fault.
pub fn all_succeed<A: Drop>(answer: Result<A, ToolFault>) -> Result<bool, ToolFault>
    ensures { result ≡ all_succeed answer }
{
    match answer {
        Ok(_) => Ok(true),
        Err(fault) => Err(fault),
    }
}

/// Returns `answer` if the output was written, else the fault.
pub fn after_writing(
    written: Result<(), ToolFault>,
    answer: Result<bool, ToolFault>,
) -> Result<bool, ToolFault>
    ensures { result ≡ after_writing written answer }
{
    match written {
        Ok(()) => answer,
        Err(fault) => Err(fault),
    }
}

/// Drops the desk or the store of `begun`, and returns true, or its fault.
pub fn end<D: Drop, S: Drop>(begun: Result<D, (ToolFault, S)>) -> Result<bool, ToolFault>
    ensures { result ≡ all_succeed (answer_of begun) }
{
    match begun {
        Ok(_) => Ok(true),
        Err((fault, _)) => Err(fault),
    }
}

/// Takes the lock of `file`.
pub fn lock<'a, T: LockFiles>(
    rt: &'a T,
    alloc: Global,
    file: &str,
) -> Result<FileLock<'a, T>, ToolFault>
    ensures { IfErr result IsOpenFault }
{
    match FileLock::take(rt, alloc, file) {
        Ok(lock) => Ok(lock),
        Err(fault) => Err(DeskFault::from(fault).into()),
    }
}

/// Loads the desk in `file` under the lock of the file.
pub fn open_locked<'a, T: LockFiles>(
    rt: &'a T,
    alloc: Global,
    file: &str,
) -> Result<LockedDesk<'a, T>, ToolFault>
    ensures { IfErr result IsOpenFault }
{
    let lock = lock(rt, alloc, file)?;
    Ok(LockedDesk::open(alloc, lock)?)
}

/// Loads the desk in `file`.
pub fn open<'a, T: Files>(
    rt: &'a T,
    alloc: Global,
    file: &str,
) -> Result<Desk<FileStore<'a, T>>, ToolFault>
    ensures { IfErr result IsOpenFault }
{
    let store = FileStore::at(rt, alloc, file, RECORD_LIMIT)?;
    Ok(Desk::start(alloc, store)?)
}
