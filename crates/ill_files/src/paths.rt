//! The paths of files, and the files that stand beside a desk.

ghost use Rattle.std.specs.Prelude.{◌≡◌, ◌==◌, ◌++◌, codes, nat_eq, string_bytes, IfOk};
ghost use Rattle.std.specs.List.{ends_with, list_any};
ghost use Rattle.ill_files.specs.Paths.{is_beside};

use ill_values::OutOfMemory;
use std::alloc::Global;
use std::fs::Metadata;
use std::io::{BufRead, BufReader, ErrorKind};
use std::os::unix::fs::MetadataExt;
use std::path::Path;
use std::rt::Files;
use std::{fs, io};

/// The ending of the name of the file of messages that came, after the name of the desk's file.
pub const CAME: &str = ".came";

/// The ending of the name of the file of notes, after the name of the desk's file.
pub const NOTES: &str = ".notes";

/// The ending of the name of the file of the diary, after the name of the desk's file.
pub const DIARY: &str = ".diary";

/// The endings of the names of the files to which commands append.
pub const KEPT: [&str; 3] = [CAME, NOTES, DIARY];

/// The endings of the names of the files, and of the folder, that lie beside the file of a desk.
pub const BESIDE: [&str; 7] = [".new", ".lck", CAME, NOTES, DIARY, MAIL_FOLDER, RETIRED];

/// The number of bytes of names that are read from a folder at once. Any name fits.
const NAMES: usize = 4096;

/// The ending of the name of the folder of message files, after the name of the desk's file.
pub const MAIL_FOLDER: &str = ".mail";

/// The ending of the name of the file that marks a retired group, after the name of its desk.
pub const RETIRED: &str = ".retired";

/// Returns the names in `folder`, each as its bytes. They are not sorted.
pub fn raw_names<T: Files>(rt: &T, alloc: Global, folder: &str) -> io::Result<Vec<Vec<u8>>> {
    let folder = format!(in alloc; "{folder}/")?;
    let reader = BufReader::with_capacity(alloc, NAMES, rt.open_dir(folder.as_str())?)?;
    let mut names = Vec::new(alloc);
    for name in reader.split(alloc, 0) {
        names.push(name?)?;
    }
    Ok(names)
}

/// Returns true if `path` has the ending of what lies beside the file of a desk.
pub fn is_beside(path: &str) -> bool
    ensures { result ≡ is_beside path.now }
{
    has_ending(path, &BESIDE)
}

/// Returns true if `path` has one of `endings`.
fn has_ending(path: &str, endings: &[&str]) -> bool
    ensures { result ≡ list_any (λ ending. ends_with nat_eq path.now ending.now) endings.now }
{
    endings
        .iter()
        .any(|ending| path.as_bytes().ends_with(ending.as_bytes()))
}

/// Returns the folder of the file at `path`. It is `.` if the path names no folder.
pub fn folder_of(path: &str) -> &str {
    match Path::new(path).parent() {
        Some(folder) if !folder.as_str().is_empty() => folder.as_str(),
        _ => ".",
    }
}

/// Returns the path of the file `name` in `folder`. Returns `None` if the name is no UTF-8, since a path is a text.
pub fn path_of(alloc: Global, folder: &str, name: &[u8]) -> io::Result<Option<String>> {
    match str::from_utf8(name) {
        Ok(name) => Ok(Some(joined(alloc, folder, name)?)),
        Err(_) => Ok(None),
    }
}

/// Returns the path of `name` in `folder`, with one allocation.
pub fn joined(alloc: Global, folder: &str, name: &str) -> Result<String, OutOfMemory>
    ensures { IfOk result (λ path. string_bytes path ≡ folder.now ++ (codes "/" ++ name.now)) }
{
    let size = folder.len().saturating_add(name.len()).saturating_add(1);
    let mut path = String::with_capacity(alloc, size)?;
    path.push_str(folder)?;
    path.push_str("/")?;
    path.push_str(name)?;
    Ok(path)
}

/// Returns true if `one` and `other` are the metadata of one file or folder.
pub fn is_same(one: &Metadata, other: &Metadata) -> bool {
    (one.dev(), one.ino()) == (other.dev(), other.ino())
}

/// Returns true if there is a file, a folder or a link at `path`.
pub fn is_there<T: Files>(rt: &T, path: &str) -> io::Result<bool> {
    match fs::symlink_metadata(rt, path) {
        Ok(_) => Ok(true),
        Err(error) if error.kind() == ErrorKind::NotFound => Ok(false),
        Err(error) => Err(error),
    }
}
