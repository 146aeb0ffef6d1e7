//! Calls stores in real files, and looks at the files of their folder.

ghost use Rattle.std.specs.Prelude.{◌≡◌, IfErr};
ghost use Rattle.ill_store.specs.declared.store.StoreFault.TheVariants.{Failed};
ghost use Rattle.ill_store.specs.Store.{failed_file};

use crate::failing::{Deceit, Failing};
use ill_saved::{FileLock, FileStore, LockFault, LockFiles, Store, StoreFault};
use ill_saved_kit::{FileCall, Folder, Line, Names, write_loaded, write_saved};
use ill_test_kit::marks::TRIES;
use ill_test_kit::{marks, named, number_in};
use ill_values::OutOfMemory;
use std::alloc::Global;
use std::fs::Permissions;
use std::io::ErrorKind;
use std::os::unix::fs::{MetadataExt, PermissionsExt};
use std::rt::Files;
use std::{fs, io};

/// A folder, and the store in one of its files.
#[derive(Drop)]
pub struct FileBench<'a> {
    /// The folder of the files.
    folder: Folder<'a>,
    /// The store that the last `at` made.
    store: Option<FileStore<'a, HostRuntime>>,
}

impl<'a> FileBench<'a> {
    /// Returns a bench that has nothing but `folder`.
    pub fn new(folder: Folder<'a>) -> FileBench<'a> {
        FileBench {
            folder,
            store: None,
        }
    }

    /// Performs the call that `words` name, and writes its answer: `load` or `save` on the store of the bench, or a
    /// call on a file. Returns None if they name no call.
    pub fn call(&mut self, line: &mut Line, names: &Names, words: &str) -> Option<()> {
        let (word, others) = words.split_once(' ').unwrap_or((words, ""));
        match word {
            "load" | "save" => self.call_laid(line, word, &names.bytes(others, 0)?),
            _ => {
                let call = self.folder.call(words)?;
                self.call_at(line, names, &call)
            }
        }
    }

    /// Performs a call on a file.
    fn call_at(&mut self, line: &mut Line, names: &Names, call: &FileCall<'_>) -> Option<()> {
        match call.word {
            "at" => self.lay(line, call.path(), call.words),
            "failing" => self.failing(line, names, call),
            "making" => self.making(line, names, call),
            "swapped" => self.swapped(line, call.path(), call.words),
            "owned" => self.owned(line, names, call),
            _ => self.call_system(line, names, call),
        }
    }

    /// Performs a call of the system.
    fn call_system(&self, line: &mut Line, names: &Names, call: &FileCall<'_>) -> Option<()> {
        match call.word {
            "put" => self.put(line, names, call),
            "folder" => write_done(line, "made", fs::create_dir(self.folder.rt, call.path())),
            "link" => write_done(
                line,
                "linked",
                self.folder.rt.symlink(call.words, call.path()),
            ),
            "shows" => self.folder.show(line, call.path()),
            "lock" => self.lock(line, self.folder.rt, call.path()),
            "held" => self.held(line, call.path()),
            "mode" => self.mode(line, call.path()),
            "change" => self.change_mode(line, call.path(), call.words),
            _ => None,
        }
    }

    /// Performs `at NAME LIMIT`: makes a store in this file.
    fn lay(&mut self, line: &mut Line, path: &str, limit: &str) -> Option<()> {
        let limit = number_in(limit)?;
        let store = store_at(self.folder.rt, self.folder.alloc, path, limit).ok()?;
        drop(self.store.replace(store));
        line.text("laid");
        Some(())
    }

    /// Performs `load` or `save BYTES` on the store that `at` made.
    fn call_laid(&mut self, line: &mut Line, call: &str, bytes: &[u8]) -> Option<()> {
        let store = self.store.as_mut()?;
        match call {
            "load" => write_loaded(line, load_again(store, self.folder.alloc)),
            _ => write_saved(line, save_quietly(store, self.folder.alloc, bytes)),
        }
        Some(())
    }

    /// Takes the lock of the file over `files`, frees it again, and writes the answer.
    fn lock<R: LockFiles>(&self, line: &mut Line, files: &R, path: &str) -> Option<()> {
        for _ in 0..TRIES {
            marks::begin(self.folder.alloc);
            let taken = taken_or_fault(files, self.folder.alloc, path);
            let says_memory = matches!(taken, Err(LockFault::OutOfMemory));
            if !marks::is_refused(self.folder.alloc, says_memory) {
                write_lock(line, taken);
                return Some(());
            }
        }
        None
    }

    /// Performs `held NAME`: takes the lock of the file, while another opening holds it. No call of `files` fails, and
    /// their pauses take no time.
    fn held(&self, line: &mut Line, path: &str) -> Option<()> {
        let holder = FileLock::take(self.folder.rt, self.folder.alloc, path).ok()?;
        let files = self.failing_files("4294967295", "fault")?;
        let printed = self.lock(line, &files, path);
        drop(holder);
        printed
    }

    /// Performs `failing NAME COUNT FAULT load`, `failing NAME COUNT FAULT save BYTES` or
    /// `failing NAME COUNT FAULT lock`. The call has a new store or lock, over files of which one call fails with this
    /// fault, after COUNT others.
    fn failing(&self, line: &mut Line, names: &Names, call: &FileCall<'_>) -> Option<()> {
        let (count, words) = call.words.split_once(' ')?;
        let (fault, words) = words.split_once(' ')?;
        let (word, bytes) = words.split_once(' ').unwrap_or((words, ""));
        let files = self.failing_files(count, fault)?;
        match word {
            "load" => self.load_over(line, &files, call.path()),
            "lock" => self.lock(line, &files, call.path()),
            "save" => self.save_over(line, &files, call.path(), &names.bytes(bytes, 0)?),
            _ => None,
        }
    }

    /// Returns files of which one call fails, by the words for its count and its fault.
    fn failing_files(&self, count: &str, fault: &str) -> Option<Failing<'a>> {
        let (count, fault) = (number_in(count)?, named(&FAULTS, fault)?);
        Failing::after(self.folder.rt, self.folder.alloc, count, fault).ok()
    }

    /// Loads from a new store over `files`, with a limit of 100 bytes, and writes the answer.
    fn load_over(&self, line: &mut Line, files: &Failing<'a>, path: &str) -> Option<()> {
        let mut store = FileStore::at(files, self.folder.alloc, path, 100).ok()?;
        write_loaded(line, load(&mut store, self.folder.alloc));
        Some(())
    }

    /// Saves `bytes` in a new store over `files`, with a limit of 100 bytes, and writes the answer.
    fn save_over(
        &self,
        line: &mut Line,
        files: &Failing<'a>,
        path: &str,
        bytes: &[u8],
    ) -> Option<()> {
        let mut store = FileStore::at(files, self.folder.alloc, path, 100).ok()?;
        write_saved(line, save(&mut store, self.folder.alloc, bytes));
        Some(())
    }

    /// Performs `put NAME BYTES`: writes a file with these bytes.
    fn put(&self, line: &mut Line, names: &Names, call: &FileCall<'_>) -> Option<()> {
        let bytes = names.bytes(call.words, 0)?;
        write_done(
            line,
            "put",
            fs::write(self.folder.rt, call.path(), bytes.as_slice()),
        )
    }

    /// Performs `mode NAME`: writes the permissions of the file in octal.
    fn mode(&self, line: &mut Line, path: &str) -> Option<()> {
        let found = fs::metadata(self.folder.rt, path).ok()?;
        write_octal(self.folder.alloc, line, found.mode() & 0o777)
    }

    /// Performs `change NAME MODE`: sets the permissions of the file, given in octal.
    fn change_mode(&self, line: &mut Line, path: &str, mode: &str) -> Option<()> {
        let mode = u32::from_str_radix(mode, 8).ok()?;
        let changed = fs::set_permissions(self.folder.rt, path, Permissions::from_mode(mode));
        write_done(line, "changed", changed)
    }

    /// Performs `making NAME BYTES`: saves, and writes the permissions of the new file at its making.
    fn making(&self, line: &mut Line, names: &Names, call: &FileCall<'_>) -> Option<()> {
        let files = Failing::after(
            self.folder.rt,
            self.folder.alloc,
            u32::MAX,
            ErrorKind::Other,
        )
        .ok()?;
        self.save_over(line, &files, call.path(), &names.bytes(call.words, 0)?)?;
        line.text(", made ");
        write_octal(self.folder.alloc, line, files.made())
    }

    /// Performs `swapped NAME TARGET`: loads a record that becomes a link to TARGET right after the lookup.
    fn swapped(&self, line: &mut Line, path: &str, target: &str) -> Option<()> {
        let files = Failing::deceiving(
            self.folder.rt,
            self.folder.alloc,
            Deceit::Swapped(target),
        ).ok()?;
        self.load_over(line, &files, path)
    }

    /// Performs `owned NAME OTHER BYTES`: saves over a record whose lookup tells of the file OTHER. Then writes the
    /// owner to whom the new file was given.
    fn owned(&self, line: &mut Line, names: &Names, call: &FileCall<'_>) -> Option<()> {
        let (other, bytes) = call.words.split_once(' ')?;
        let files = Failing::deceiving(
            self.folder.rt,
            self.folder.alloc,
            Deceit::TellsOf(other),
        ).ok()?;
        self.save_over(line, &files, call.path(), &names.bytes(bytes, 0)?)?;
        line.text(", given to ");
        write_owner(line, files.given());
        Some(())
    }
}

/// The words of the faults of files.
static FAULTS: [(&str, ErrorKind); 6] = [
    ("fault", ErrorKind::Other),
    ("not-found", ErrorKind::NotFound),
    ("memory", ErrorKind::OutOfMemory),
    ("denied", ErrorKind::PermissionDenied),
    ("unsupported", ErrorKind::Unsupported),
    ("invalid", ErrorKind::InvalidInput),
];

/// Returns the store in the file at `path`. While an allocation is refused, it is made again.
fn store_at<'a>(
    rt: &'a HostRuntime,
    alloc: Global,
    path: &str,
    limit: u32,
) -> Result<FileStore<'a, HostRuntime>, OutOfMemory> {
    for _ in 0..TRIES {
        marks::begin(alloc);
        let store = FileStore::at(rt, alloc, path, limit);
        if !marks::is_refused(alloc, store.is_err()) {
            return store;
        }
    }
    Err(OutOfMemory)
}

/// Loads, and repeats that while an allocation is refused.
fn load_again(
    store: &mut FileStore<'_, HostRuntime>,
    alloc: Global,
) -> Result<Option<Vec<u8>>, StoreFault> {
    for _ in 0..TRIES {
        marks::begin(alloc);
        let loaded = load(store, alloc);
        if !marks::is_refused(alloc, matches!(&loaded, Err(StoreFault::OutOfMemory))) {
            return loaded;
        }
    }
    Err(StoreFault::OutOfMemory)
}

/// Saves as a quiet call, since a save takes no memory.
fn save_quietly(
    store: &mut FileStore<'_, HostRuntime>,
    alloc: Global,
    bytes: &[u8],
) -> Result<(), StoreFault> {
    marks::begin_quiet(alloc);
    let saved = save(store, alloc, bytes);
    marks::end_quiet(alloc);
    saved
}

/// Takes the lock of the file at `path`, frees it again, and returns the fault, if it was not taken.
fn taken_or_fault<R: LockFiles>(files: &R, alloc: Global, path: &str) -> Result<(), LockFault> {
    drop(FileLock::wait_for(files, alloc, path)?);
    Ok(())
}

/// Writes `taken`, or the fault of a lock.
fn write_lock(line: &mut Line, taken: Result<(), LockFault>) {
    match taken {
        Ok(()) => line.text("taken"),
        Err(fault) => line.show(&fault),
    }
}

/// Loads. The contract proves that a failure only raises the count of failures.
fn load<R: Files>(
    store: &mut FileStore<'_, R>,
    alloc: Global,
) -> Result<Option<Vec<u8>>, StoreFault>
    ensures { IfErr result (λ fault. fault ≡ Failed → store.new ≡ failed_file store.old) }
{
    store.load(alloc)
}

/// Saves. The contract proves that a failure only raises the count of failures.
fn save<R: Files>(
    store: &mut FileStore<'_, R>,
    alloc: Global,
    bytes: &[u8],
) -> Result<(), StoreFault>
    ensures { IfErr result (λ fault. (fault ≡ Failed) × (store.new ≡ failed_file store.old)) }
{
    store.save(alloc, bytes)
}

/// Writes `word` if the call with the result `done` has succeeded, and else returns None.
fn write_done(line: &mut Line, word: &str, done: io::Result<()>) -> Option<()> {
    done.ok()?;
    line.text(word);
    Some(())
}

/// Writes a number in octal.
fn write_octal(alloc: Global, line: &mut Line, number: u32) -> Option<()> {
    let digits = format!(in alloc; "{number:o}").ok()?;
    line.text(digits.as_str());
    Some(())
}

/// Writes the owner to whom a file was given, or `nobody`.
fn write_owner(line: &mut Line, owner: Option<u32>) {
    match owner {
        Some(owner) => line.show(&owner),
        None => line.text("nobody"),
    }
}
