//! Folders that belong to a desk or a shelf, in which no message file may lie.

use ill_files::paths::{MAIL_FOLDER, folder_of, is_same};
use ill_files::shelf::is_shelf;
use std::alloc::Global;
use std::io::ErrorKind;
use std::rt::Files;
use std::{fs, io};

/// The greatest depth of a folder below a folder of message files at which `is_within` finds it. The folder of a
/// claimed message file is at this depth below the folder of its desk's file.
const DEPTH: usize = 3;

/// Returns true if `path` leads to `folder`, or to a folder at most three levels below it.
pub fn is_within<T: Files>(rt: &T, alloc: Global, path: &str, folder: &str) -> io::Result<bool> {
    let outer = fs::metadata(rt, folder)?;
    let mut inner = String::from_str(alloc, path)?;
    for _ in 0..=DEPTH {
        if is_same(&fs::metadata(rt, inner.as_str())?, &outer) {
            return Ok(true);
        }
        inner.push_str("/..")?;
    }
    Ok(false)
}

/// Returns true if `folder` has the desk's file `file`, is a shelf, or is within the folder of message files of any
/// desk. Files there belong to desks, so no message file may be there.
pub(crate) fn is_reserved<T: Files>(
    rt: &T,
    alloc: Global,
    file: &str,
    folder: &str,
) -> io::Result<bool> {
    Ok(
        is_one(rt, folder, folder_of(file))?
            || is_shelf(rt, alloc, folder)?
            || is_within_message_file(rt, alloc, folder)?,
    )
}

/// Returns true if a part of the path of `folder`, with its links resolved, ends with `.mail`, as a desk's message
/// files does. If the system does not tell that path, it returns false.
fn is_within_message_file<T: Files>(rt: &T, alloc: Global, folder: &str) -> io::Result<bool> {
    match rt.canonicalize(alloc, folder) {
        Ok(path) => Ok(
            path.as_str()
                .split('/')
                .any(|part| part.ends_with(MAIL_FOLDER)),
        ),
        Err(error) if error.kind() == ErrorKind::OutOfMemory => Err(error),
        Err(_) => Ok(false),
    }
}

/// Returns true if two paths lead to one file or folder. If one of them leads nowhere, it returns false.
pub(crate) fn is_one<T: Files>(rt: &T, one: &str, other: &str) -> io::Result<bool> {
    match (fs::metadata(rt, one), fs::metadata(rt, other)) {
        (Ok(one), Ok(other)) => Ok(is_same(&one, &other)),
        (Err(error), _) | (_, Err(error)) if error.kind() == ErrorKind::OutOfMemory => Err(error),
        _ => Ok(false),
    }
}
