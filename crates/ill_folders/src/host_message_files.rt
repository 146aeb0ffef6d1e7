//! Message files in files of the host's, as a disk. Only this file names the calls of the system that settle and send a
//! message file.

ghost use Rattle.ill_folders.specs.HostMessageFiles.{host_message_files};

use crate::folders::{flush_folder, make_folder};
use ill_disk::{Disk, DiskFault, HostDisk, path_of, regular_file};
use ill_files::durable::{Owner, flush};
use ill_files::paths::folder_of;
use ill_message_disk::{Found, MessageDisk};
use std::alloc::Global;
use std::fs::{Metadata, OpenOptions};
use std::io::{ErrorKind, Write};
use std::os::unix::fs::{MetadataExt, OpenOptionsExt};
use std::rt::Files;
use std::{fs, io, mem};

/// The files of message files on the host. A path of a call is a path of the host's.
///
/// A new file is kept open from its making to its flush. So a flush is one of the file that was made.
///
/// No contract says what a folder of the host's has, so this disk is not correct. docs/STORES.md says, call by call,
/// what the host has to do.
#[derive(Drop)]
pub struct HostMessageFiles<'r, T: Files> {
    rt: &'r T,
    alloc: Global,
    /// The owner of what is made, who alone may read it. Without an owner, what is made belongs to the user of the run.
    owner: Option<Owner>,
    /// Set if folders are flushed.
    is_flushing: bool,
    /// The file that was made, until it is flushed.
    made: Option<Made<T::File>>,
}

/// A file that was made at a path, and is open.
#[derive(Drop)]
struct Made<F> {
    path: String,
    file: F,
}

impl<'r, T: Files> HostMessageFiles<'r, T> {
    /// Returns the files of message files. What is made belongs to `owner`, if there is one. Touches no file.
    pub fn at(rt: &'r T, alloc: Global, owner: Option<Owner>) -> HostMessageFiles<'r, T> {
        HostMessageFiles {
            rt,
            alloc,
            owner,
            is_flushing: true,
            made: None,
        }
    }

    /// Returns the files of message files, of which no folder is flushed. Touches no file.
    pub fn unflushed(rt: &'r T, alloc: Global) -> HostMessageFiles<'r, T> {
        HostMessageFiles {
            rt,
            alloc,
            owner: None,
            is_flushing: false,
            made: None,
        }
    }

    /// Makes a file of `bytes` at a free path, and keeps it open.
    fn create(&mut self, path: &str, bytes: &[u8]) -> io::Result<()> {
        let place = String::from_str(self.alloc, path)?;
        let mut options = OpenOptions::new();
        options.write(true);
        options.create_new(true);
        if self.owner.is_some() {
            options.mode(0o600);
        }
        let mut file = options.open(self.rt, path)?;
        file.write_all(bytes)?;
        if let Some(owner) = self.owner {
            owner.take(self.rt, path);
        }
        self.made = Some(Made { path: place, file });
        Ok(())
    }

    /// Flushes the file at `path`. If it was made there and is still open, it is not opened again.
    fn flush_at(&mut self, path: &str) -> io::Result<()> {
        match mem::replace(&mut self.made, None) {
            Some(made) if made.path.as_str() == path => flush(&made.file),
            _ => self.flush_unopened(path),
        }
    }

    /// Opens the file at `path`, and flushes it.
    fn flush_unopened(&self, path: &str) -> io::Result<()> {
        match regular_file::open(self.rt, path)? {
            Some((file, _)) => flush(&file),
            None => Err(ErrorKind::NotFound.into()),
        }
    }

    /// Flushes the folder of `path`, if folders are flushed.
    fn flush_folder_of(&self, path: &str) -> io::Result<()> {
        if self.is_flushing {
            flush_folder(self.rt, folder_of(path))
        } else {
            Ok(())
        }
    }

    /// Makes the folder `path` for the owner of what is made, if it does not exist. Without an owner that is a fault.
    fn make_own(&self, path: &str) -> io::Result<()> {
        match self.owner {
            Some(owner) => make_folder(self.rt, path, owner),
            None => Err(ErrorKind::Unsupported.into()),
        }
    }
}

/// Returns the error of the host for the fault of a call.
pub(crate) fn error_of(fault: DiskFault) -> io::Error {
    match fault {
        DiskFault::OutOfMemory => ErrorKind::OutOfMemory.into(),
        DiskFault::Failed | DiskFault::NotFound | DiskFault::TooLarge => ErrorKind::Other.into(),
    }
}

/// Returns the size of a file. Anything but a regular file has the greatest, so it is taken for no file of message
/// files.
fn size_of(found: &Metadata) -> u64 {
    if found.is_file() {
        found.len()
    } else {
        u64::MAX
    }
}

/// Returns the number of a file: that of its device, and its own on the device.
fn number_of(found: &Metadata) -> u128 {
    (u128::from(found.dev()) << 64) | u128::from(found.ino())
}

/// Each call is one of the system. `read` and `look_up` are those of `HostDisk`, as for a record. `flush_names` fails.
impl<'r, T: Files> Disk for HostMessageFiles<'r, T> {
    ghost state = { λ _. host_message_files };

    fn read(
        &mut self,
        alloc: Global,
        path: &[u8],
        limit: usize,
    ) -> Result<Option<Vec<u8>>, DiskFault> {
        HostDisk::at(self.rt, alloc, path_of(path)?)?.read(alloc, path, limit)
    }

    fn look_up(&mut self, path: &[u8]) -> Result<(), DiskFault> {
        HostDisk::at(self.rt, self.alloc, path_of(path)?)?.look_up(path)
    }

    fn create_new(&mut self, path: &[u8], bytes: &[u8]) -> Result<(), DiskFault> {
        Ok(self.create(path_of(path)?, bytes)?)
    }

    fn flush(&mut self, path: &[u8]) -> Result<(), DiskFault> {
        Ok(self.flush_at(path_of(path)?)?)
    }

    fn rename(&mut self, from: &[u8], to: &[u8]) -> Result<(), DiskFault> {
        Ok(fs::rename(self.rt, path_of(from)?, path_of(to)?)?)
    }

    fn remove(&mut self, path: &[u8]) -> Result<(), DiskFault> {
        Ok(fs::remove_file(self.rt, path_of(path)?)?)
    }

    /// Fails, since no folder of the host's has all names.
    fn flush_names(&mut self) -> Result<(), DiskFault> {
        Err(DiskFault::Failed)
    }
}

impl<'r, T: Files> MessageDisk for HostMessageFiles<'r, T> {
    fn find(&mut self, path: &[u8]) -> Result<Option<Found>, DiskFault> {
        match fs::symlink_metadata(self.rt, path_of(path)?) {
            Ok(found) => Ok(Some(Found {
                file: number_of(&found),
                size: size_of(&found),
            })),
            Err(error) if error.kind() == ErrorKind::NotFound => Ok(None),
            Err(error) => Err(error.into()),
        }
    }

    fn link(&mut self, from: &[u8], to: &[u8]) -> Result<(), DiskFault> {
        Ok(fs::hard_link(self.rt, path_of(from)?, path_of(to)?)?)
    }

    fn flush_name(&mut self, path: &[u8]) -> Result<(), DiskFault> {
        Ok(self.flush_folder_of(path_of(path)?)?)
    }

    fn make_folder(&mut self, path: &[u8]) -> Result<(), DiskFault> {
        Ok(self.make_own(path_of(path)?)?)
    }

    fn remove_folder(&mut self, path: &[u8]) -> Result<(), DiskFault> {
        Ok(fs::remove_dir(self.rt, path_of(path)?)?)
    }
}
