//! Files that are made durable, and given to the user of a desk.

use ill_saved::StoreFault;
use std::fs::{Metadata, OpenFile};
use std::io::{self, ErrorKind};
use std::os::unix::fs::{MetadataExt, lchown};
use std::rt::Files;

/// Waits until the bytes of `file` are durable. Does nothing if the file system has no such call.
pub fn flush<F: OpenFile>(file: &F) -> io::Result<()> {
    match file.sync_all() {
        Err(error)
            if matches!(
                error.kind(),
                ErrorKind::Unsupported | ErrorKind::InvalidInput
            ) => { Ok(()) }
        flushed => flushed,
    }
}

/// Returns the error of a file for the fault of its store.
pub fn error_of_store(fault: StoreFault) -> io::Error {
    match fault {
        StoreFault::OutOfMemory => ErrorKind::OutOfMemory.into(),
        _ => ErrorKind::Other.into(),
    }
}

/// The user and the group of a desk's file. Files that a run makes beside it belong to them, also if root runs it.
#[derive(Clone, Copy)]
pub struct Owner {
    user: u32,
    group: u32,
}

impl Owner {
    /// Returns the owner of the file with this metadata.
    pub fn of(found: &Metadata) -> Owner {
        Owner {
            user: found.uid(),
            group: found.gid(),
        }
    }

    /// Gives the file or folder at `path` to this owner, if the system allows it.
    pub fn take<T: Files>(self, rt: &T, path: &str) {
        let _ = lchown(rt, path, Some(self.user), Some(self.group));
    }
}
