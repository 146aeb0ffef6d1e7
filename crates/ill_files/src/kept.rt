//! The files beside a desk to which commands append: the messages that came, the notes of staff and the diary. No
//! decision of a command depends on one.

ghost use Rattle.std.specs.Prelude.{IfErr};
ghost use Rattle.ill_text.specs.Fault.{IsOpenFault};

use crate::paths::{CAME, DIARY, NOTES};
use ill_der::{DerFault, Feed};
use ill_saved::{DeskFault, FileStore, RECORD_LIMIT, Store};
use ill_text::fault::{STORE_FAILED, ToolFault};
use ill_values::OutOfMemory;
use std::alloc::Global;
use std::fs::{Metadata, OpenFile, OpenOptions};
use std::io::{ErrorKind, Write};
use std::os::unix::fs::{MetadataExt, OpenOptionsExt, lchown};
use std::rt::Files;
use std::{fs, io};

/// A file beside a desk to which commands append.
#[derive(Clone, Copy)]
pub enum Kept {
    /// The messages that came to the desk, one after another.
    Came,
    /// The notes of staff on loans, a line a note.
    Notes,
    /// The diary, a line for each message that was issued or taken.
    Diary,
}

impl Kept {
    /// Returns the ending of its name, after the name of the desk's file.
    fn ending<'a>(self) -> &'a str {
        match self {
            Kept::Came => CAME,
            Kept::Notes => NOTES,
            Kept::Diary => DIARY,
        }
    }

    /// Returns the number of bytes of an incomplete message or line at the end of `bytes`.
    fn torn(self, alloc: Global, bytes: &[u8]) -> Result<usize, ToolFault>
        ensures { IfErr result IsOpenFault }
    {
        match self {
            Kept::Came => torn_message(alloc, bytes),
            Kept::Notes | Kept::Diary => Ok(torn_line(bytes)),
        }
    }
}

/// The open file beside a desk. A write appends to it, and a flush makes it durable.
#[derive(Drop)]
pub struct KeptFile<F> {
    file: F,
    /// The number of bytes that were cut off at the end of the file when it was opened.
    torn: usize,
    /// Set if a write or a flush has failed.
    has_failed: bool,
}

impl<F> KeptFile<F> {
    /// Returns true if a write or a flush of the file has failed.
    pub fn has_failed(&self) -> bool {
        self.has_failed
    }

    /// Returns the number of bytes that were cut off at its end when it was opened.
    pub fn torn(&self) -> usize {
        self.torn
    }
}

impl<F: Write + OpenFile> Write for KeptFile<F> {
    fn write(&mut self, bytes: &[u8]) -> io::Result<usize> {
        let written = self.file.write(bytes);
        self.has_failed |= written.is_err();
        written
    }

    fn flush(&mut self) -> io::Result<()> {
        let flushed = self.file.sync_all();
        self.has_failed |= flushed.is_err();
        flushed
    }
}

/// Opens the file `kept` beside the file of `desk`, and makes it if it does not exist. It cuts off the part of a
/// message or of a line that a crash has left at the end. Other bytes that are no message are a failure, and are not
/// cut off.
pub fn open_kept<T: Files>(
    rt: &T,
    alloc: Global,
    desk: &str,
    kept: Kept,
) -> Result<KeptFile<T::File>, ToolFault>
    ensures { IfErr result IsOpenFault }
{
    let path = path(alloc, desk, kept)?;
    let path = path.as_str();
    if load(rt, alloc, path)?.is_none() && make(rt, path, desk).is_err() {
        return Err(STORE_FAILED);
    }
    let bytes = load(rt, alloc, path)?.unwrap_or(Vec::new(alloc));
    let torn = kept.torn(alloc, &bytes)?;
    match append(rt, path, bytes.len().saturating_sub(torn)) {
        Ok(file) => Ok(KeptFile {
            file,
            torn,
            has_failed: false,
        }),
        Err(_) => Err(STORE_FAILED),
    }
}

/// Returns the bytes of the file `kept` beside the file of `desk`. There are none without a file.
pub fn kept_bytes<T: Files>(
    rt: &T,
    alloc: Global,
    desk: &str,
    kept: Kept,
) -> Result<Vec<u8>, ToolFault>
    ensures { IfErr result IsOpenFault }
{
    let path = path(alloc, desk, kept)?;
    Ok(load(rt, alloc, path.as_str())?.unwrap_or(Vec::new(alloc)))
}

/// Returns the path of the file `kept` beside the file of `desk`.
fn path(alloc: Global, desk: &str, kept: Kept) -> Result<String, OutOfMemory> {
    let mut path = String::from_str(alloc, desk)?;
    path.push_str(kept.ending())?;
    Ok(path)
}

/// Loads the file at `path` as a desk loads its record, so that its bytes and its name are durable.
fn load<T: Files>(rt: &T, alloc: Global, path: &str) -> Result<Option<Vec<u8>>, ToolFault>
    ensures { IfErr result IsOpenFault }
{
    let mut store = FileStore::at(rt, alloc, path, RECORD_LIMIT)?;
    match store.load(alloc) {
        Ok(bytes) => Ok(bytes),
        Err(fault) => Err(DeskFault::from(fault).into()),
    }
}

/// Makes the file at `path`, with the group and the permissions of the file `desk`. It gets the owner of that file too,
/// if the system allows that. If the group cannot be set, only the user who made the new file may read or write it. The
/// same holds if the file `desk` does not exist yet.
fn make<T: Files>(rt: &T, path: &str, desk: &str) -> io::Result<()> {
    let other = metadata_of(rt, desk)?;
    let mut options = OpenOptions::new();
    options.write(true);
    options.create_new(true);
    options.mode(0o600);
    let file = options.open(rt, path)?;
    match other {
        Some(other) => share(rt, path, &file, &other),
        None => Ok(()),
    }
}

/// Returns the metadata of the file at `path`, if it is there.
fn metadata_of<T: Files>(rt: &T, path: &str) -> io::Result<Option<Metadata>> {
    match fs::symlink_metadata(rt, path) {
        Ok(found) => Ok(Some(found)),
        Err(error) if error.kind() == ErrorKind::NotFound => Ok(None),
        Err(error) => Err(error),
    }
}

/// Gives `file`, at `path`, the group, the permissions and the owner that `other` tells, as `make` does.
fn share<T: Files>(rt: &T, path: &str, file: &T::File, other: &Metadata) -> io::Result<()> {
    if lchown(rt, path, None, Some(other.gid())).is_ok() {
        file.set_permissions(other.permissions())?;
        let _ = lchown(rt, path, Some(other.uid()), None);
    }
    Ok(())
}

/// Returns the number of bytes of an incomplete APDU at the end of `bytes`.
fn torn_message(alloc: Global, bytes: &[u8]) -> Result<usize, ToolFault>
    ensures { IfErr result IsOpenFault }
{
    let mut feed = Feed::new(alloc);
    drop(feed.push(bytes)?);
    match feed.end() {
        Ok(()) => Ok(0),
        Err(DerFault::Short(size)) => Ok(usize::from(size)),
        Err(_) => Err(STORE_FAILED),
    }
}

/// Returns the number of bytes after the last line of `bytes`.
fn torn_line(bytes: &[u8]) -> usize {
    let mut torn = 0_usize;
    for byte in bytes {
        torn = if *byte == b'\n' {
            0
        } else {
            torn.saturating_add(1)
        };
    }
    torn
}

/// Opens the file at `path` to append to its first `size` bytes, and cuts off the others.
fn append<T: Files>(rt: &T, path: &str, size: usize) -> io::Result<T::File> {
    let size = size as u64;
    let mut options = OpenOptions::new();
    options.append(true);
    let file = options.open(rt, path)?;
    if file.metadata()?.len() > size {
        file.set_len(size)?;
        file.sync_all()?;
    }
    Ok(file)
}
