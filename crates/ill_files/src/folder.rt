//! The desks at paths: a path is that of a desk's file, or of a folder of desks.

ghost use Rattle.std.specs.Prelude.{◌≡◌, ◌⊎◌, ◌==◌, [], ◌∷◌, ◌++◌, length, map, string_bytes, IfOk, OnOk};
ghost use Rattle.std.specs.List.{ends_with};
ghost use Rattle.ill_files.specs.Folders.{AreFoundAt, GetsFiles, IsEntryOf, IsFoundAt, IsWithoutSlashes};
ghost use Rattle.ill_files.specs.Opening.{names_answer};

use crate::paths::{BESIDE, joined, raw_names};
use crate::shelf::{is_named_on_shelf, is_shelf};
use ill_text::fault::{STORE_FAILED, ToolFault};
use ill_text::warning::warn;
use ill_values::OutOfMemory;
use std::alloc::Global;
use std::io::{BufRead, ErrorKind, Write};
use std::rt::Files;
use std::{fs, io};

/// The desks at some paths.
#[derive(Drop)]
pub struct Found {
    /// The paths of their files.
    pub files: Vec<String>,
    /// The names in folders that are no text, after the path of their folder. An escape replaces each byte that is no
    /// printable character of ASCII.
    pub unnamed: Vec<String>,
}

/// Returns the desks at `paths`, in their order. A folder is replaced by its desks, in the order of their names. If it
/// cannot be read, it is itself among the files, and fails there.
///
/// The desks of a folder are its regular files, without the files beside a desk. Names that begin with a dot are left
/// out too. If there is a shelf in the folder, only the names of its desks are those of desks.
pub fn desk_paths<T: Files>(rt: &T, alloc: Global, paths: &[&str]) -> Result<Found, OutOfMemory>
    ensures { IfOk result (λ found. AreFoundAt (map (λ path. path.now) paths.now)
        (map (λ file. string_bytes file) found.files.items)) }
{
    let mut found = Found {
        files: Vec::new(alloc),
        unnamed: Vec::new(alloc),
    };
    for path in paths {
        push_path(rt, &mut found, path)?;
    }
    Ok(found)
}

/// Appends to `found` the file at `path`, or the desks in a folder at `path`.
fn push_path<T: Files>(rt: &T, found: &mut Found, path: &str) -> Result<(), OutOfMemory>
    ensures { OnOk result (GetsFiles (IsFoundAt path.now) (map (λ file. string_bytes file) found.old.files.items)
        (map (λ file. string_bytes file) found.new.files.items)) }
{
    let alloc = *found.files.allocator();
    match names_at(rt, alloc, path) {
        Ok(names) => push_names(rt, found, without_slashes(path), &names),
        Err(error) if error.kind() == ErrorKind::OutOfMemory => Err(OutOfMemory),
        Err(_) => {
            found.files.push(String::from_str(alloc, path)?)?;
            Ok(())
        }
    }
}

/// Returns `path` without the slashes at its end.
fn without_slashes(path: &str) -> &str
    ensures { IsWithoutSlashes path.now result.now }
{
    path.trim_end_matches('/')
}

/// Returns the names in the folder at `path` that may be those of desks, sorted. Fails if no folder is there.
fn names_at<T: Files>(rt: &T, alloc: Global, path: &str) -> io::Result<Vec<Vec<u8>>> {
    if !fs::metadata(rt, path)?.is_dir() {
        return Err(ErrorKind::NotADirectory.into());
    }
    let folder = without_slashes(path);
    let is_shelf = is_shelf(rt, alloc, folder)?;
    let mut names = Vec::new(alloc);
    for name in raw_names(rt, alloc, folder)? {
        if may_be_desk(&name) && (!is_shelf || is_on_shelf(alloc, &name)?) {
            names.push(name)?;
        }
    }
    names.sort()?;
    Ok(names)
}

/// Returns true if a file named `name` in a folder may be a desk.
fn may_be_desk(name: &[u8]) -> bool {
    !name.starts_with(b".")
        && !BESIDE
            .iter()
            .any(|ending| name.ends_with(ending.as_bytes()))
}

/// Returns true if `name` is that of a shelf's own desk, or of the desk of a group. A name that is no UTF-8 is neither.
fn is_on_shelf(alloc: Global, name: &[u8]) -> Result<bool, OutOfMemory> {
    match str::from_utf8(name) {
        Ok(name) => is_named_on_shelf(alloc, name),
        Err(_) => Ok(false),
    }
}

/// Appends to `found` the desks of `folder` with these names.
fn push_names<T: Files>(
    rt: &T,
    found: &mut Found,
    folder: &str,
    names: &[Vec<u8>],
) -> Result<(), OutOfMemory>
    ensures { OnOk result (GetsFiles (IsEntryOf folder.now) (map (λ file. string_bytes file) found.old.files.items)
        (map (λ file. string_bytes file) found.new.files.items)) }
{
    for name in names {
        push_name(rt, found, folder, name)?;
    }
    Ok(())
}

/// Appends the path of the desk `name` in `folder` to the files of `found`. If `name` is no UTF-8, it appends the path
/// with escapes to the unnamed instead.
fn push_name<T: Files>(
    rt: &T,
    found: &mut Found,
    folder: &str,
    name: &[u8],
) -> Result<(), OutOfMemory>
    ensures { OnOk result (GetsFiles (IsEntryOf folder.now) (map (λ file. string_bytes file) found.old.files.items)
        (map (λ file. string_bytes file) found.new.files.items)) }
{
    let alloc = *found.files.allocator();
    match str::from_utf8(name) {
        Ok(name) => push_file(rt, &mut found.files, joined(alloc, folder, name)?),
        Err(_) => {
            let shown = format!(in alloc; "{folder}/{}", name.escape_ascii())?;
            found.unnamed.push(shown)?;
            Ok(())
        }
    }
}

/// Appends `path` to `files`, unless something else than a regular file is there.
fn push_file<T: Files>(rt: &T, files: &mut Vec<String>, path: String) -> Result<(), OutOfMemory>
    ensures { OnOk result ((files.new.items ≡ files.old.items) ⊎ (files.new.items ≡ files.old.items ++ path ∷ [])) }
{
    match fs::symlink_metadata(rt, path.as_str()) {
        Ok(found) if !found.is_file() => {}
        _ => files.push(path)?,
    }
    Ok(())
}

/// Writes a line to `errors` for each of the names `unnamed`. Returns true if there are none, else the fault of a
/// folder that cannot be read.
pub fn warn_of_names<E: Write>(
    alloc: Global,
    unnamed: &[String],
    errors: &mut E,
) -> Result<bool, ToolFault>
    ensures { result ≡ names_answer (length unnamed.now == 0) }
{
    for name in unnamed {
        warn(alloc, name.as_bytes(), ": no UTF-8", errors);
    }
    if unnamed.is_empty() {
        Ok(true)
    } else {
        Err(STORE_FAILED)
    }
}
