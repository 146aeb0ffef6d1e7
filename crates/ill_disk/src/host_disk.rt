//! A record in a file of the host's, as a disk. In this crate only this module and `regular_file` use the files of the
//! host.

ghost use Rattle.std.specs.Prelude.{◌≡◌, ◌≤◌, ◌++◌, codes, length, IfOk, IfSome, string_bytes};
ghost use Rattle.ill_disk.specs.HostDisk.{HostDiskOf, folder_of, host_state};

use crate::disk::{Disk, DiskFault};
use crate::regular_file;
use crate::regular_file::{Identity, NEW};
use std::alloc::{AllocError, Global};
use std::fs::{Metadata, OpenFile};
use std::io::{ErrorKind, Read, Write};
use std::marker::Model;
use std::path::Path;
use std::rt::Files;
use std::{fs, io, mem, str};

/// The folder of a record in a file of the host's. The path of a call is a path of the host's into this folder.
///
/// A save of the record makes a new file beside it, whose name ends with `.new`. The disk keeps the record or the new
/// file open from its read or its making to its flush. So a flush is one of the file that was read or made.
///
/// No contract says what a file of the host's holds, so this disk is not correct. docs/STORES.md says, call by call,
/// what the host has to do.
#[derive(Drop)]
pub struct HostDisk<'a, R: Files> {
    rt: &'a R,
    /// The path of the record.
    path: String,
    /// The path of the new file beside it.
    new_path: String,
    /// The file from which the record was last read, or which was last renamed over the record.
    known: Known,
    /// The file of the record that `look_up` found.
    found: Option<Metadata>,
    /// The open folder, from `look_up` to the flush of its names.
    folder: OpenFolder<R::File>,
    /// The file that is open until it is flushed.
    open: OpenOne<R::File>,
}

/// The file of the record, as this disk knows it.
#[derive(Clone, Copy, PartialEq, Eq)]
enum Known {
    /// The record was neither read nor replaced.
    Nothing,
    /// There was no file.
    Absent,
    /// The record was in this file.
    File(Identity),
}

impl Known {
    /// Returns true if `found` is the known file, or if `found` and the known file are both none. Also returns true if
    /// the record was neither read nor replaced.
    fn fits(self, found: Option<&Metadata>) -> bool {
        match (self, found) {
            (Known::Nothing, _) | (Known::Absent, None) => true,
            (Known::File(known), Some(found)) => known == Identity::of(found),
            _ => false,
        }
    }
}

/// The folder of the record.
#[derive(Drop)]
enum OpenFolder<F> {
    /// It is not open.
    Closed,
    /// This user may not read it.
    Hidden,
    /// It is open.
    Open(F),
}

/// The file that is open until it is flushed.
#[derive(Drop)]
enum OpenOne<F> {
    /// None is open.
    Nothing,
    /// The record, which was read.
    Record(F),
    /// The new file, which was made.
    New(F),
    /// The identity of the new file, which was flushed and closed.
    Flushed(Identity),
}

/// In proofs a `HostDisk` is the path of the record alone. The path of the new file is this path followed by `.new`.
impl<'a, R: Files> Model for HostDisk<'a, R> {
    ghost Value = { HostDiskOf };

    ghost view = { λ d. record { path = string_bytes d.path } };

    ghost invariant = { λ d. string_bytes d.new_path ≡ string_bytes d.path ++ codes ".new" };
}

impl<'a, R: Files> HostDisk<'a, R> {
    /// Returns the folder of the record at `path`, which need not exist. Touches no file.
    ///
    /// A new file gets the group, the permissions and the owner of the record, as far as the system allows.
    pub fn at(rt: &'a R, alloc: Global, path: &str) -> Result<HostDisk<'a, R>, AllocError>
        ensures { IfOk result (λ disk. disk ≡ record { path = path.now }) }
    {
        let mut new_path = String::from_str(alloc, path)?;
        new_path.push_str(NEW)?;
        Ok(HostDisk {
            rt,
            path: String::from_str(alloc, path)?,
            new_path,
            known: Known::Nothing,
            found: None,
            folder: OpenFolder::Closed,
            open: OpenOne::Nothing,
        })
    }

    /// Returns true if these are the bytes of the record's path.
    fn is_record(&self, path: &[u8]) -> bool {
        path == self.path.as_bytes()
    }

    /// Returns true if these are the bytes of the new file's path.
    fn is_new(&self, path: &[u8]) -> bool {
        path == self.new_path.as_bytes()
    }

    /// Closes what is open.
    fn close(&mut self) {
        self.found = None;
        self.folder = OpenFolder::Closed;
        self.open = OpenOne::Nothing;
    }

    /// Opens the record for reading, if there is one, and remembers its file.
    fn open_record(&mut self) -> io::Result<Option<R::File>> {
        match regular_file::open(self.rt, self.path.as_str())? {
            Some((file, identity)) => {
                self.known = Known::File(identity);
                Ok(Some(file))
            }
            None => {
                self.known = Known::Absent;
                Ok(None)
            }
        }
    }

    /// Reads the record, and keeps its file open. Returns `None` if there is no file. More than `limit` bytes are
    /// `TooLarge`.
    fn read_record(&mut self, alloc: Global, limit: usize) -> Result<Option<Vec<u8>>, DiskFault>
        ensures { IfOk result (λ found. IfSome found (λ b. length b.items ≤ limit)) }
    {
        self.close();
        let opened = match self.open_record() {
            Ok(opened) => opened,
            Err(error) => return Err(fault_of(&error)),
        };
        let Some(file) = opened else {
            return Ok(None);
        };
        let (bytes, file) = read_all(alloc, file, limit)?;
        self.open = OpenOne::Record(file);
        Ok(Some(bytes))
    }

    /// Looks up the record, and opens its folder. A file other than the known one is a fault. An empty path names no
    /// file, and touches nothing.
    fn look_up_record(&mut self) -> io::Result<()> {
        self.close();
        if self.path.is_empty() {
            return Err(ErrorKind::NotFound.into());
        }
        let found = regular_file::find(self.rt, self.path.as_str())?;
        if !self.known.fits(found.as_ref()) {
            return Err(ErrorKind::AlreadyExists.into());
        }
        self.found = found;
        self.folder = self.open_folder()?;
        Ok(())
    }

    /// Creates the new file with these bytes, and keeps it open. It gets the group, the permissions and the owner of
    /// the record that was looked up.
    fn create_beside(&mut self, bytes: &[u8]) -> io::Result<()> {
        let record = self.found.as_ref();
        let path = self.new_path.as_str();
        let mut file = regular_file::create(self.rt, path, record)?;
        if let Some(record) = record {
            regular_file::share_like(self.rt, path, &file, record)?;
        }
        file.write_all(bytes)?;
        self.open = OpenOne::New(file);
        Ok(())
    }

    /// Flushes the file at a path. The record counts as flushed if the file system has no such call.
    fn flush_at(&mut self, path: &[u8]) -> io::Result<()> {
        match mem::replace(&mut self.open, OpenOne::Nothing) {
            OpenOne::Record(file) if self.is_record(path) => flush_if_supported(&file),
            OpenOne::New(file) if self.is_new(path) => {
                file.sync_all()?;
                self.open = OpenOne::Flushed(Identity::of(&file.metadata()?));
                Ok(())
            }
            _ => match regular_file::open(self.rt, path_of(path)?)? {
                Some((file, _)) => file.sync_all(),
                None => Err(ErrorKind::NotFound.into()),
            },
        }
    }

    /// Renames a file. The new file that replaces the record is known from then on.
    fn rename_at(&mut self, from: &[u8], to: &[u8]) -> io::Result<()> {
        fs::rename(self.rt, path_of(from)?, path_of(to)?)?;
        if self.is_new(from)
            && self.is_record(to)
            && let OpenOne::Flushed(identity) = self.open
        {
            self.known = Known::File(identity);
        }
        Ok(())
    }

    /// Opens the folder that holds the record. It is `Hidden` if this user may not read it.
    fn open_folder(&self) -> io::Result<OpenFolder<R::File>> {
        match fs::open(self.rt, folder_of(self.path.as_str())) {
            Ok(folder) => Ok(OpenFolder::Open(folder)),
            Err(error) if error.kind() == ErrorKind::PermissionDenied => Ok(OpenFolder::Hidden),
            Err(error) => Err(error),
        }
    }

    /// Flushes the names in the folder. They count as flushed if this user may not read the folder, or if the file
    /// system lacks the call. They also do if there was no record, and there is no folder.
    fn flush_folder(&mut self) -> io::Result<()> {
        let folder = match mem::replace(&mut self.folder, OpenFolder::Closed) {
            OpenFolder::Closed => match self.open_folder() {
                Err(error) if error.kind() == ErrorKind::NotFound && self.known == Known::Absent =>
                    {
                        return Ok(());
                    }
                opened => opened?,
            },
            opened => opened,
        };
        match folder {
            OpenFolder::Open(folder) => flush_if_supported(&folder),
            OpenFolder::Closed | OpenFolder::Hidden => Ok(()),
        }
    }
}

/// Flushes an opened file or folder. It counts as flushed if the file system has no such call.
fn flush_if_supported<F: OpenFile>(opened: &F) -> io::Result<()> {
    match opened.sync_all() {
        Err(error) if regular_file::is_unsupported(error.kind()) => Ok(()),
        flushed => flushed,
    }
}

/// Returns the folder that holds the file at a path, or `.` if the path names no folder.
fn folder_of(path: &str) -> &str
    ensures { result.now ≡ folder_of path.now }
{
    match Path::new(path).parent() {
        Some(folder) if !folder.as_str().is_empty() => folder.as_str(),
        _ => ".",
    }
}

/// Returns the path that these bytes encode, or `InvalidInput` if they are no UTF-8.
pub fn path_of(path: &[u8]) -> io::Result<&str> {
    match str::from_utf8(path) {
        Ok(path) => Ok(path),
        Err(_) => Err(ErrorKind::InvalidInput.into()),
    }
}

/// Returns the fault of a call that takes no memory, for the error of the host.
fn fault_of(error: &io::Error) -> DiskFault {
    match error.kind() {
        ErrorKind::NotFound => DiskFault::NotFound,
        _ => DiskFault::Failed,
    }
}

/// Returns the answer of a call, for the answer of the host.
fn answer_of(answer: io::Result<()>) -> Result<(), DiskFault> {
    match answer {
        Ok(()) => Ok(()),
        Err(error) => Err(fault_of(&error)),
    }
}

/// Reads all bytes of a file, and gives the file back. More than `limit` are `TooLarge`.
fn read_all<F: Read + Drop>(alloc: Global, file: F, limit: usize) -> Result<(Vec<u8>, F), DiskFault>
    ensures { IfOk result (λ read. length read.0.items ≤ limit) }
{
    let mut bytes = Vec::new(alloc);
    let mut file = file.take((limit as u64).saturating_add(1));
    match file.read_to_end(&mut bytes) {
        Ok(_) if bytes.len() > limit => Err(DiskFault::TooLarge),
        Ok(_) => Ok((bytes, file.into_inner())),
        Err(error) => Err(error.into()),
    }
}

/// Each call is that of the system, but for two things. A path is looked up before it is opened, so no link is
/// followed. The new file beside the record gets the record's group, permissions and owner.
impl<'a, R: Files> Disk for HostDisk<'a, R> {
    ghost state = { host_state };

    fn read(
        &mut self,
        alloc: Global,
        path: &[u8],
        limit: usize,
    ) -> Result<Option<Vec<u8>>, DiskFault> {
        if self.is_record(path) {
            return self.read_record(alloc, limit);
        }
        let opened = match path_of(path) {
            Ok(path) => regular_file::open(self.rt, path),
            Err(error) => Err(error),
        };
        match opened {
            Ok(None) => Ok(None),
            Ok(Some((file, _))) => Ok(Some(read_all(alloc, file, limit)?.0)),
            Err(error) => Err(fault_of(&error)),
        }
    }

    fn look_up(&mut self, path: &[u8]) -> Result<(), DiskFault> {
        if self.is_record(path) {
            return answer_of(self.look_up_record());
        }
        let found = match path_of(path) {
            Ok(path) => regular_file::find(self.rt, path),
            Err(error) => Err(error),
        };
        match found {
            Ok(_) => Ok(()),
            Err(error) => Err(fault_of(&error)),
        }
    }

    fn create_new(&mut self, path: &[u8], bytes: &[u8]) -> Result<(), DiskFault> {
        if self.is_new(path) {
            return answer_of(self.create_beside(bytes));
        }
        answer_of(create_alone(self.rt, path, bytes))
    }

    fn flush(&mut self, path: &[u8]) -> Result<(), DiskFault> {
        answer_of(self.flush_at(path))
    }

    fn rename(&mut self, from: &[u8], to: &[u8]) -> Result<(), DiskFault> {
        answer_of(self.rename_at(from, to))
    }

    fn remove(&mut self, path: &[u8]) -> Result<(), DiskFault> {
        answer_of(match path_of(path) {
            Ok(path) => fs::remove_file(self.rt, path),
            Err(error) => Err(error),
        })
    }

    fn flush_names(&mut self) -> Result<(), DiskFault> {
        answer_of(self.flush_folder())
    }
}

/// Creates a file with these bytes at a free path.
fn create_alone<R: Files>(rt: &R, path: &[u8], bytes: &[u8]) -> io::Result<()> {
    regular_file::create(rt, path_of(path)?, None)?.write_all(bytes)
}
