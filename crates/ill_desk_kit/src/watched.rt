//! Files that observe a lock, beside a rival for this lock.

use ill_saved::LockFiles;
use std::alloc::Allocator;
use std::cell::Cell;
use std::fs::{Metadata, OpenOptions};
use std::rt::Files;
use std::{fs, io};

/// Files that observe each opening and each replacement of one record, and if its lock is free then.
#[derive(Drop)]
pub struct Watched<'a, R: LockFiles> {
    /// The files of the system.
    rt: &'a R,
    /// The path of the record.
    record: &'a str,
    /// The path of the file whose lock is observed.
    lock: &'a str,
    /// The other program that uses the lock.
    rival: Rival,
    /// The observations so far.
    seen: Cell<Seen>,
}

/// Another program that uses the lock. It does one thing.
#[derive(Clone, Copy)]
pub enum Rival {
    /// Holds the lock at the first tries, this many.
    Holds(u32),
    /// Removes the file of the lock after it was opened, before the first try.
    Removes,
    /// Replaces the file of the lock after it was opened, before the first try.
    Replaces,
    /// Replaces the file of the lock while the command holds it, before the record is replaced.
    ReplacesHeld,
}

impl Rival {
    /// Returns the number of first tries at which the rival holds the lock.
    fn tries_held(self) -> u32 {
        match self {
            Rival::Holds(tries) => tries,
            Rival::Removes | Rival::Replaces | Rival::ReplacesHeld => 0,
        }
    }
}

/// The content of the file by which a rival replaces that of the lock.
const CONTENT: &str = "rival";

/// The counts of observations.
#[derive(Clone, Copy)]
pub struct Seen {
    /// The openings of the record.
    pub openings: u32,
    /// The replacements of the record.
    pub replacements: u32,
    /// The openings and replacements while the lock was free.
    pub unlocked: u32,
    /// The pauses before another try of the lock.
    pub pauses: u32,
}

impl<'a, R: LockFiles> Watched<'a, R> {
    /// Returns files that observe the record at the path `record`, and the lock of the file at the path `lock`. `rival`
    /// is the other program that uses the lock.
    pub fn new(rt: &'a R, record: &'a str, lock: &'a str, rival: Rival) -> Watched<'a, R> {
        let seen = Seen {
            openings: 0,
            replacements: 0,
            unlocked: 0,
            pauses: 0,
        };
        Watched {
            rt,
            record,
            lock,
            rival,
            seen: Cell::new(seen),
        }
    }

    /// Returns the observations so far.
    pub fn seen(&self) -> Seen {
        self.seen.get()
    }

    /// If `path` is the path of the record, adds `openings` and `replacements` to their counts. If the lock is free
    /// then, it counts that too.
    fn see(&self, path: &str, openings: u32, replacements: u32) {
        if path != self.record {
            return;
        }
        let seen = self.seen.get();
        self.seen.set(Seen {
            openings: seen.openings.wrapping_add(openings),
            replacements: seen.replacements.wrapping_add(replacements),
            unlocked: seen.unlocked.wrapping_add(u32::from(self.is_free())),
            pauses: seen.pauses,
        });
    }

    /// Returns true if another program could take the lock. Also returns true if the file of the lock cannot be opened.
    fn is_free(&self) -> bool {
        match fs::open(self.rt, self.lock) {
            Ok(file) => self.rt.try_lock(&file).unwrap_or(true),
            Err(_) => true,
        }
    }

    /// Lets the rival act before the first try of the lock.
    fn act_before_the_first_try(&self) -> io::Result<()> {
        match self.rival {
            Rival::Removes => fs::remove_file(self.rt, self.lock),
            Rival::Replaces => self.replace_lock(),
            Rival::Holds(_) | Rival::ReplacesHeld => Ok(()),
        }
    }

    /// Lets the rival act before a file is moved to `path`.
    fn act_before_a_rename(&self, path: &str) -> io::Result<()> {
        if path == self.record && matches!(self.rival, Rival::ReplacesHeld) {
            return self.replace_lock();
        }
        Ok(())
    }

    /// Replaces the file of the lock by another file.
    fn replace_lock(&self) -> io::Result<()> {
        fs::remove_file(self.rt, self.lock)?;
        fs::write(self.rt, self.lock, CONTENT.as_bytes())
    }
}

/// The rival holds the lock at the first tries, or acts before the first one. A pause follows each try that fails. It
/// is counted, and takes no time.
impl<R: LockFiles> LockFiles for Watched<'_, R> {
    fn try_lock(&self, file: &R::File) -> io::Result<bool> {
        let pauses = self.seen.get().pauses;
        if pauses < self.rival.tries_held() {
            return Ok(false);
        }
        if pauses == 0 {
            self.act_before_the_first_try()?;
        }
        self.rt.try_lock(file)
    }

    fn pause(&self) {
        let seen = self.seen.get();
        self.seen.set(Seen {
            pauses: seen.pauses.wrapping_add(1),
            ..seen
        });
    }
}

/// Passes each call on to the files of the system. Openings and renames of the record are observed. The rival may act
/// before a rename.
impl<R: LockFiles> Files for Watched<'_, R> {
    type File = R::File;

    type Dir = R::Dir;

    fn open_file(&self, how: &OpenOptions, path: &str) -> io::Result<R::File> {
        self.see(path, 1, 0);
        self.rt.open_file(how, path)
    }

    fn open_dir(&self, path: &str) -> io::Result<R::Dir> {
        self.rt.open_dir(path)
    }

    fn metadata(&self, path: &str) -> io::Result<Metadata> {
        self.rt.metadata(path)
    }

    fn symlink_metadata(&self, path: &str) -> io::Result<Metadata> {
        self.rt.symlink_metadata(path)
    }

    fn copy(&self, from: &str, to: &str) -> io::Result<u64> {
        self.rt.copy(from, to)
    }

    fn rename(&self, from: &str, to: &str) -> io::Result<()> {
        self.see(to, 0, 1);
        self.act_before_a_rename(to)?;
        self.rt.rename(from, to)
    }

    fn remove_file(&self, path: &str) -> io::Result<()> {
        self.rt.remove_file(path)
    }

    fn lchown(&self, path: &str, owner: Option<u32>, group: Option<u32>) -> io::Result<()> {
        self.rt.lchown(path, owner, group)
    }

    fn create_dir(&self, path: &str) -> io::Result<()> {
        self.rt.create_dir(path)
    }

    fn remove_dir(&self, path: &str) -> io::Result<()> {
        self.rt.remove_dir(path)
    }

    fn remove_dir_all<B: Allocator>(&self, alloc: B, path: &str) -> io::Result<()> {
        self.rt.remove_dir_all(alloc, path)
    }
}
