//! Folders of message files, and their flush.

use ill_files::durable::{Owner, flush};
use std::fs::DirBuilder;
use std::io::ErrorKind;
use std::os::unix::fs::{DirBuilderExt, PermissionsExt};
use std::rt::Files;
use std::{fs, io};

/// Makes the folder at `path`, which only the owner of the file `original` may enter, if it does not exist. A folder
/// that others may enter is a fault.
pub fn open_own_folder<T: Files>(rt: &T, path: &str, original: &str) -> io::Result<()> {
    make_own_folder(rt, path, Owner::of(&fs::symlink_metadata(rt, original)?))
}

/// Makes the folder at `path` for `owner` alone, if it does not exist. A folder that others may enter is a fault.
pub(crate) fn make_own_folder<T: Files>(rt: &T, path: &str, owner: Owner) -> io::Result<()> {
    make_folder(rt, path, owner)?;
    let found = fs::symlink_metadata(rt, path)?;
    if found.permissions().mode() & 0o077 == 0 {
        Ok(())
    } else {
        Err(ErrorKind::PermissionDenied.into())
    }
}

/// Makes the folder at `path` for `owner` alone, if it does not exist. Anything else there, as a link to a folder, is a
/// fault. The permissions of a folder that exists are not looked at.
pub(crate) fn make_folder<T: Files>(rt: &T, path: &str, owner: Owner) -> io::Result<()> {
    match fs::symlink_metadata(rt, path) {
        Ok(found) if found.is_dir() => Ok(()),
        Ok(_) => Err(ErrorKind::AlreadyExists.into()),
        Err(error) if error.kind() == ErrorKind::NotFound => make_new_folder(rt, path, owner),
        Err(error) => Err(error),
    }
}

/// Makes a folder at `path` for `owner` alone. If something is at `path`, that is a fault.
pub(crate) fn make_new_folder<T: Files>(rt: &T, path: &str, owner: Owner) -> io::Result<()> {
    DirBuilder::new().mode(0o700).create(rt, path)?;
    owner.take(rt, path);
    Ok(())
}

/// Flushes the folder at `path`. It counts as flushed if this user may not read it.
pub(crate) fn flush_folder<T: Files>(rt: &T, path: &str) -> io::Result<()> {
    match fs::open(rt, path) {
        Ok(folder) => flush(&folder),
        Err(error) if error.kind() == ErrorKind::PermissionDenied => Ok(()),
        Err(error) => Err(error),
    }
}

/// Flushes the folder at `path`, if it is there.
fn flush_if_there<T: Files>(rt: &T, path: &str) -> io::Result<()> {
    match flush_folder(rt, path) {
        Err(error) if error.kind() != ErrorKind::NotFound => Err(error),
        _ => Ok(()),
    }
}

/// Flushes those of these folders that are there, in their order.
pub(crate) fn flush_folders<T: Files>(rt: &T, paths: &[&str]) -> io::Result<()> {
    for path in paths {
        flush_if_there(rt, path)?;
    }
    Ok(())
}
