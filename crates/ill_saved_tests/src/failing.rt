//! Wraps the files of the system, so that one call fails, or a lookup tells something false.

use ill_saved::LockFiles;
use std::alloc::{AllocError, Allocator, Global};
use std::cell::Cell;
use std::fs::{File, Metadata, OpenFile, OpenOptions, Permissions};
use std::io;
use std::io::{Error, ErrorKind, Read, Seek, SeekFrom, Write};
use std::os::unix::fs::MetadataExt;
use std::rc::Rc;
use std::rt::Files;

/// The files of the system, whose calls are counted. After a given count of calls, the next call fails and does
/// nothing.
#[derive(Drop)]
pub struct Failing<'a> {
    /// The files of the system.
    rt: &'a HostRuntime,
    /// The count of calls before the one that fails.
    left: CallsLeft,
    /// The false result of each lookup.
    deceit: Deceit<'a>,
    /// The permissions of the file that was made last, at its making.
    made: Cell<u32>,
    /// The owner that the last `lchown` with an owner asked for, if there was one.
    given: Cell<Option<u32>>,
}

/// The false result of a lookup.
#[derive(Clone, Copy)]
pub enum Deceit<'a> {
    /// No lookup is false.
    None,
    /// After the lookup the file becomes a link to this path.
    Swapped(&'a str),
    /// The lookup tells of the file at this path.
    TellsOf(&'a str),
}

/// An open file. Its reads, its writes, and the calls `sync_all` and `set_permissions` are counted.
#[derive(Drop)]
pub struct FailingFile {
    /// The open file of the system.
    file: File,
    /// The count of calls, which all files share.
    left: CallsLeft,
}

/// The calls that are left before one fails.
#[derive(Drop)]
struct CallsLeft {
    /// The count of calls before the one that fails.
    calls: Rc<Cell<u32>>,
    /// The kind of the error that the failing call returns.
    fault: ErrorKind,
}

impl<'a> Failing<'a> {
    /// Returns files of which one call fails with `fault`, after `calls` others.
    pub fn after(
        rt: &'a HostRuntime,
        alloc: Global,
        calls: u32,
        fault: ErrorKind,
    ) -> Result<Failing<'a>, AllocError> {
        let calls = Rc::new(alloc, Cell::new(calls))?;
        Ok(Failing {
            rt,
            left: CallsLeft { calls, fault },
            deceit: Deceit::None,
            made: Cell::new(0),
            given: Cell::new(None),
        })
    }

    /// Returns files of which no call fails, and each lookup tells something false.
    pub fn deceiving(
        rt: &'a HostRuntime,
        alloc: Global,
        deceit: Deceit<'a>,
    ) -> Result<Failing<'a>, AllocError> {
        let mut files = Failing::after(rt, alloc, u32::MAX, ErrorKind::Other)?;
        files.deceit = deceit;
        Ok(files)
    }

    /// Returns the permissions of the file that was made last, at its making.
    pub fn made(&self) -> u32 {
        self.made.get()
    }

    /// Returns the owner that the last `lchown` with an owner asked for, if there was one.
    pub fn given(&self) -> Option<u32> {
        self.given.get()
    }

    /// Returns the result of a lookup of `path`, which is false if `deceit` says so.
    fn look_up(&self, path: &str) -> io::Result<Metadata> {
        match self.deceit {
            Deceit::None => self.rt.symlink_metadata(path),
            Deceit::TellsOf(other) => self.rt.symlink_metadata(other),
            Deceit::Swapped(target) => {
                let found = self.rt.symlink_metadata(path)?;
                self.rt.remove_file(path)?;
                self.rt.symlink(target, path)?;
                Ok(found)
            }
        }
    }
}

impl CallsLeft {
    /// Counts a call, and fails if its turn has come.
    fn pass(&self) -> io::Result<()> {
        let calls = self.calls.get();
        self.calls.set(calls.wrapping_sub(1));
        if calls == 0 {
            Err(Error::from(self.fault))
        } else {
            Ok(())
        }
    }

    /// Returns the count for another file, which shares it.
    fn share(&self) -> Result<CallsLeft, AllocError> {
        Ok(CallsLeft {
            calls: self.calls.clone()?,
            fault: self.fault,
        })
    }
}

/// Passes each call on to the files of the system. The calls with `pass` are counted, and one of them fails.
impl<'a> Files for Failing<'a> {
    type File = FailingFile;

    type Dir = <HostRuntime as Files>::Dir;

    fn open_file(&self, how: &OpenOptions, path: &str) -> io::Result<FailingFile> {
        self.left.pass()?;
        let file = self.rt.open_file(how, path)?;
        if how.asks_create_new() {
            self.made.set(file.metadata()?.mode() & 0o777);
        }
        Ok(FailingFile {
            file,
            left: self.left.share()?,
        })
    }

    fn open_dir(&self, path: &str) -> io::Result<Self::Dir> {
        self.rt.open_dir(path)
    }

    fn metadata(&self, path: &str) -> io::Result<Metadata> {
        self.rt.metadata(path)
    }

    fn symlink_metadata(&self, path: &str) -> io::Result<Metadata> {
        self.left.pass()?;
        self.look_up(path)
    }

    fn copy(&self, from: &str, to: &str) -> io::Result<u64> {
        self.rt.copy(from, to)
    }

    fn rename(&self, from: &str, to: &str) -> io::Result<()> {
        self.left.pass()?;
        self.rt.rename(from, to)
    }

    fn remove_file(&self, path: &str) -> io::Result<()> {
        self.left.pass()?;
        self.rt.remove_file(path)
    }

    fn lchown(&self, path: &str, owner: Option<u32>, group: Option<u32>) -> io::Result<()> {
        self.left.pass()?;
        self.given.set(owner.or(self.given.get()));
        self.rt.lchown(path, owner, group)
    }

    fn create_dir(&self, path: &str) -> io::Result<()> {
        self.rt.create_dir(path)
    }

    fn remove_dir(&self, path: &str) -> io::Result<()> {
        self.rt.remove_dir(path)
    }

    fn remove_dir_all<B: Allocator>(&self, alloc: B, path: &str) -> io::Result<()> {
        self.rt.remove_dir_all(alloc, path)
    }
}

/// Passes a lock on to the files of the system, and counts the call. A pause takes no time.
impl LockFiles for Failing<'_> {
    fn try_lock(&self, file: &FailingFile) -> io::Result<bool> {
        self.left.pass()?;
        self.rt.try_lock(&file.file)
    }

    fn pause(&self) {}
}

/// Passes each call on to the open file of the system. `sync_all` and `set_permissions` are counted.
impl OpenFile for FailingFile {
    fn metadata(&self) -> io::Result<Metadata> {
        self.file.metadata()
    }

    fn set_len(&self, size: u64) -> io::Result<()> {
        self.file.set_len(size)
    }

    fn sync_all(&self) -> io::Result<()> {
        self.left.pass()?;
        self.file.sync_all()
    }

    fn sync_data(&self) -> io::Result<()> {
        self.file.sync_data()
    }

    fn set_permissions(&self, permissions: Permissions) -> io::Result<()> {
        self.left.pass()?;
        self.file.set_permissions(permissions)
    }
}

/// Counts each read, and passes it on.
impl Read for FailingFile {
    fn read(&mut self, buf: &mut [u8]) -> io::Result<usize> {
        self.left.pass()?;
        self.file.read(buf)
    }
}

/// Counts each write, and passes it on. A flush is not counted.
impl Write for FailingFile {
    fn write(&mut self, buf: &[u8]) -> io::Result<usize> {
        self.left.pass()?;
        self.file.write(buf)
    }

    fn flush(&mut self) -> io::Result<()> {
        self.file.flush()
    }
}

/// Passes each seek on, and does not count it.
impl Seek for FailingFile {
    fn seek(&mut self, to: SeekFrom) -> io::Result<u64> {
        self.file.seek(to)
    }
}
