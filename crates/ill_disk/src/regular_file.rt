//! Regular files at a path. Anything else at the path is a fault.

use std::fs::{Metadata, OpenFile, OpenOptions};
use std::io::ErrorKind;
use std::os::unix::fs::{MetadataExt, OpenOptionsExt, PermissionsExt, lchown};
use std::rt::Files;
use std::{fs, io};

/// The ending of the name of the new file that a save writes beside the record.
pub const NEW: &str = ".new";

/// The ending of the name of the file beside the record that is locked instead of it.
pub const LOCK: &str = ".lck";

/// Returns true if the ending of a path is reserved for a file beside a record.
pub fn is_reserved(path: &[u8]) -> bool {
    path.ends_with(NEW.as_bytes()) || path.ends_with(LOCK.as_bytes())
}

/// The identity of a file at its last modification: its device, its inode and the time of the modification.
#[derive(Clone, Copy, PartialEq, Eq)]
pub struct Identity {
    device: u64,
    inode: u64,
    changed: (i64, i64),
}

impl Identity {
    /// Returns the identity of the file with this metadata.
    pub fn of(found: &Metadata) -> Identity {
        Identity {
            device: found.dev(),
            inode: found.ino(),
            changed: (found.mtime(), found.mtime_nsec()),
        }
    }
}

/// Looks up the regular file at a path, and returns `None` if there is nothing. Anything else at the path is a fault.
/// A pipe would block when it is opened, and a link would give one file two names.
pub fn find<R: Files>(rt: &R, path: &str) -> io::Result<Option<Metadata>> {
    match fs::symlink_metadata(rt, path) {
        Ok(found) if found.is_file() => Ok(Some(found)),
        Ok(_) => Err(ErrorKind::InvalidInput.into()),
        Err(error) if error.kind() == ErrorKind::NotFound => Ok(None),
        Err(error) => Err(error),
    }
}

/// The maximum number of attempts to look up and open a file, if another file replaces it in between.
const LOOKUPS: u32 = 10;

/// Opens the regular file at a path for reading, if there is one, and returns it with its identity. If another file has
/// replaced it since the lookup, it is looked up again, so no link is followed. After `LOOKUPS` lookups it fails.
pub fn open<R: Files>(rt: &R, path: &str) -> io::Result<Option<(R::File, Identity)>> {
    for _ in 0..LOOKUPS {
        let Some(found) = find(rt, path)? else {
            return Ok(None);
        };
        let file = fs::open(rt, path)?;
        let identity = Identity::of(&found);
        if Identity::of(&file.metadata()?) == identity {
            return Ok(Some((file, identity)));
        }
    }
    Err(ErrorKind::InvalidInput.into())
}

/// Creates the file at a path, if the path is free. With `other`, only its creator may use the file until
/// `share_like` is called. Without `other`, it is created with the defaults of the system.
pub fn create<R: Files>(rt: &R, path: &str, other: Option<&Metadata>) -> io::Result<R::File> {
    let mut options = OpenOptions::new();
    options.write(true);
    options.create_new(true);
    if other.is_some() {
        options.mode(0o600);
    }
    options.open(rt, path)
}

/// Gives the file at a path the group, the permissions and the owner of another file, as far as the system allows.
pub fn share_like<R: Files>(
    rt: &R,
    path: &str,
    file: &R::File,
    other: &Metadata,
) -> io::Result<()> {
    let mut permissions = other.permissions();
    if !give(rt, path, None, Some(other.gid()))? {
        permissions.set_mode(without_group(permissions.mode()));
    }
    file.set_permissions(permissions)?;
    give(rt, path, Some(other.uid()), None)?;
    Ok(())
}

/// Gives the file at a path an owner or a group, and returns true if the system allows it. `None` keeps the present
/// owner or group.
fn give<R: Files>(rt: &R, path: &str, owner: Option<u32>, group: Option<u32>) -> io::Result<bool> {
    match lchown(rt, path, owner, group) {
        Ok(()) => Ok(true),
        Err(error) if is_refused(error.kind()) => Ok(false),
        Err(error) => Err(error),
    }
}

/// Returns the permissions for a file that could not be given its group. Its present group gets no permissions. The
/// members of the intended group now count as others, so others get only permissions that this group also had.
fn without_group(mode: u32) -> u32 {
    let of_the_group = (mode >> 3) & 0o7;
    (mode & !0o77) | (mode & of_the_group)
}

/// Returns true if the fault of a call means that the file system does not support the call.
pub fn is_unsupported(fault: ErrorKind) -> bool {
    matches!(fault, ErrorKind::Unsupported | ErrorKind::InvalidInput)
}

/// Returns true if the fault means that this user may not make the call, or that the file system does not support it.
fn is_refused(fault: ErrorKind) -> bool {
    fault == ErrorKind::PermissionDenied || is_unsupported(fault)
}
