//! The calls of a disk, each with its clause on the model.

ghost use Rattle.std.specs.Prelude.{◌≡◌, ◌≤◌, length, IfOk, IfSome};
ghost use Rattle.ill_disk.specs.Disk.{after_remove, after_rename, after_flush, after_flush_names};
ghost use Rattle.ill_disk.specs.Calls.{DiskState, Reads, Creates, Changes, Answers, IsLargeOnlyIf, WantsFile, WantsNoFile, unchanged};
ghost use Rattle.ill_disk.specs.declared.disk.DiskFault.TheVariants.{OutOfMemory};

use std::alloc::{AllocError, AllocFailed, Global};
use std::io;
use std::io::ErrorKind;
use thiserror::Error;

/// The fault of a call.
#[derive(Clone, Copy, Debug, PartialEq, Eq, Hash, Error)]
pub enum DiskFault {
    /// The call failed. A change was made, or it was not.
    #[error("failed")]
    Failed,
    /// No file stands at the path.
    #[error("not-found")]
    NotFound,
    /// The file is longer than the limit. Only `read` gives this.
    #[error("too-large")]
    TooLarge,
    /// Memory ran out.
    #[error("memory")]
    OutOfMemory,
}

impl From<AllocError> for DiskFault {
    ghost from_gives = { λ _ fault. fault ≡ OutOfMemory };

    fn from(_error: AllocError) -> DiskFault {
        DiskFault::OutOfMemory
    }
}

impl<T: Drop> From<AllocFailed<T>> for DiskFault {
    ghost from_gives = { λ _ fault. fault ≡ OutOfMemory };

    fn from(_error: AllocFailed<T>) -> DiskFault {
        DiskFault::OutOfMemory
    }
}

impl From<io::Error> for DiskFault {
    fn from(error: io::Error) -> DiskFault {
        match error.kind() {
            ErrorKind::NotFound => DiskFault::NotFound,
            ErrorKind::OutOfMemory => DiskFault::OutOfMemory,
            _ => DiskFault::Failed,
        }
    }
}

/// A disk that may lose its power. It is one folder: a path is a name in it.
///
/// A call that is done has changed the disk as its clause says. A call that failed has made the same change, or has
/// changed nothing. But `create_new` may fail and make a file of other bytes. A crash may leave each disk that `Crash`
/// allows after the disk now. The disk is whole at each call. The clauses say this of a correct disk alone.
pub trait Disk {
    /// Returns the state: the disk now, and the disks that it was. Its part `is_correct` is true if the disk does as it
    /// answers.
    ghost state: { Self → DiskState };

    /// Returns the bytes of the file at `path`, or `None` if there is none. A file of more than `limit` bytes is
    /// `TooLarge`.
    fn read(
        &mut self,
        alloc: Global,
        path: &[u8],
        limit: usize,
    ) -> Result<Option<Vec<u8>>, DiskFault>
        ensures reads { Answers (Reads (λ b. b.items) path.now) (state self.old) result (state self.new) }
        ensures within { IfOk result (λ found. IfSome found (λ b. length b.items ≤ limit)) }
        ensures large { IsLargeOnlyIf limit path.now (state self.old) result };

    /// Looks up the file at `path`, before it is replaced. Fails if the disk finds that somebody else has replaced the
    /// file since this disk read it or renamed it. Changes nothing.
    fn look_up(&mut self, path: &[u8]) -> Result<(), DiskFault>
        ensures { Answers (Changes unchanged) (state self.old) result (state self.new) };

    /// Makes a new file of `bytes` at `path`, and is done only if no file stands at `path`. If it fails, it may have
    /// made a file with any bytes.
    fn create_new(&mut self, path: &[u8], bytes: &[u8]) -> Result<(), DiskFault>
        ensures creates { Answers (Creates path.now bytes.now) (state self.old) result (state self.new) }
        ensures free { WantsNoFile path.now (state self.old) result };

    /// Flushes the bytes of the file at `path`. `NotFound` if there is none.
    fn flush(&mut self, path: &[u8]) -> Result<(), DiskFault>
        ensures changes { Answers (Changes (after_flush path.now)) (state self.old) result (state self.new) }
        ensures found { WantsFile path.now (state self.old) result };

    /// Renames the file at `from` to `to`, over what stands at `to`. `NotFound` if no file stands at `from`.
    fn rename(&mut self, from: &[u8], to: &[u8]) -> Result<(), DiskFault>
        ensures changes { Answers (Changes (after_rename from.now to.now)) (state self.old) result (state self.new) }
        ensures found { WantsFile from.now (state self.old) result };

    /// Removes `path`. `NotFound` if no file stands there.
    fn remove(&mut self, path: &[u8]) -> Result<(), DiskFault>
        ensures changes { Answers (Changes (after_remove path.now)) (state self.old) result (state self.new) }
        ensures found { WantsFile path.now (state self.old) result };

    /// Flushes the names, so that each crash leaves them.
    fn flush_names(&mut self) -> Result<(), DiskFault>
        ensures { Answers (Changes after_flush_names) (state self.old) result (state self.new) };
}
