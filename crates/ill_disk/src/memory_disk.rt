//! A disk in memory, which keeps what a crash may leave.

ghost use Rattle.std.specs.Prelude.{◌≡◌, ◌<◌, ◌≤◌, ◌++◌, [], ◌∷◌, map, length, IfOk, IfSome, IfErr, OnOk, OnErr, IsErrOf, is_some, true, false, slice_get, Option, Some, None, Ok, option_map, bytes_eq};
ghost use Rattle.ill_disk.specs.Disk as disks;
ghost use Rattle.ill_disk.specs.Disk.{Crash, found_at, without, with_name, bytes_of, content, after_change, after_flush, after_flush_names, after_remove, after_rename, flush_found, empty_disk, IsWhole};
ghost use Rattle.ill_disk.specs.Calls.{Changes, Creates, IsLonger, unchanged};
ghost use Rattle.ill_disk.specs.MemoryDisk.{memory_state, IsMadeBy, lists_of, names_after, file_after_crash};
ghost use Rattle.ill_disk.specs.declared.disk.DiskFault.TheVariants.{Failed, NotFound, TooLarge};

use crate::disk::{Disk, DiskFault};
use std::alloc::{AllocError, Global};
use std::marker::Model;

/// A file in memory.
#[derive(Drop)]
struct MemoryFile {
    bytes: Vec<u8>,
    /// If true, each crash leaves the bytes.
    is_flushed: bool,
}

impl Model for MemoryFile {
    ghost Value = { disks.File };

    ghost view = { λ f. record { bytes = f.bytes.items; is_flushed = f.is_flushed } };
}

/// A name in memory.
#[derive(Drop)]
struct MemoryName {
    path: Vec<u8>,
    /// The place of the file in the list of all files.
    file: usize,
}

impl Model for MemoryName {
    ghost Value = { disks.Name };

    ghost view = { λ n. record { path = n.path.items; file = n.file } };
}

/// A change of names.
#[derive(Clone, Copy)]
enum Change<'a> {
    /// A file is made at a path. The number is its place in the list of all files.
    Make(&'a [u8], usize),
    /// A path is removed.
    Remove(&'a [u8]),
    /// The first path is renamed to the second. The number is the place of the file in the list of all files.
    Rename(&'a [u8], &'a [u8], usize),
}

/// A disk in memory, for tests. It keeps each list of names that a crash may leave.
#[derive(Drop)]
pub struct MemoryDisk {
    alloc: Global,
    files: Vec<MemoryFile>,
    names: Vec<MemoryName>,
    may_stand: Vec<Vec<MemoryName>>,
}

/// In proofs it is a `Disk` of the model, and it is whole.
impl Model for MemoryDisk {
    ghost Value = { disks.Disk };

    ghost view = { λ d. record { files = d.files.items; names = d.names.items; may_stand = lists_of d.may_stand.items } };

    ghost invariant = { λ d. IsWhole (record { files = d.files.items; names = d.names.items; may_stand = lists_of d.may_stand.items }) };
}

impl MemoryFile {
    /// Returns a file of these bytes that is not flushed.
    fn new(alloc: Global, bytes: &[u8]) -> Result<MemoryFile, AllocError>
        ensures { IfOk result (λ file. file ≡ record { bytes = bytes.now; is_flushed = false }) }
    {
        Ok(MemoryFile {
            bytes: Vec::from_slice(alloc, bytes)?,
            is_flushed: false,
        })
    }

    /// Returns the bytes. More than `limit` are `TooLarge`. It never answers `Failed`.
    fn read(&self, alloc: Global, limit: usize) -> Result<Vec<u8>, DiskFault>
        ensures bytes { IfOk result (λ bytes. bytes.items ≡ self.now.bytes) }
        ensures within { IfOk result (λ bytes. length bytes.items ≤ limit) }
        ensures large { IsErrOf result TooLarge → limit < length self.now.bytes }
        ensures cause { IsErrOf result Failed → ⊥ }
    {
        if self.bytes.len() > limit {
            return Err(DiskFault::TooLarge);
        }
        Ok(Vec::from_slice(alloc, &self.bytes)?)
    }

    /// Returns a copy of the file.
    fn copy(&self, alloc: Global) -> Result<MemoryFile, AllocError>
        ensures { IfOk result (λ file. file ≡ self.now) }
    {
        Ok(MemoryFile {
            bytes: Vec::from_slice(alloc, &self.bytes)?,
            is_flushed: self.is_flushed,
        })
    }

    /// Flushes the file.
    fn flush(&mut self)
        ensures { self.new ≡ record self.old { is_flushed = true } }
    {
        self.is_flushed = true;
    }
}

impl MemoryName {
    /// Returns a name of this file at this path.
    fn new(alloc: Global, path: &[u8], file: usize) -> Result<MemoryName, AllocError>
        ensures { IfOk result (λ name. name ≡ record { path = path.now; file = file }) }
    {
        Ok(MemoryName {
            path: Vec::from_slice(alloc, path)?,
            file,
        })
    }

    /// Returns a copy of the name.
    fn copy(&self, alloc: Global) -> Result<MemoryName, AllocError>
        ensures { IfOk result (λ name. name ≡ self.now) }
    {
        MemoryName::new(alloc, &self.path, self.file)
    }

    /// Returns true if the name is at this path.
    fn is_at(&self, path: &[u8]) -> bool
        ensures { result ≡ bytes_eq path.now self.now.path }
    {
        path == self.path.as_slice()
    }

    /// Returns the file that the name gives, as a place in the list of all files.
    fn file(&self) -> usize
        ensures { result ≡ self.now.file }
    {
        self.file
    }
}

/// Returns the file that `names` give at `path`, if any, as a place in the list of all files.
fn find(names: &[MemoryName], path: &[u8]) -> Option<usize>
    ensures { result ≡ found_at path.now names.now }
{
    for name in names {
        if name.is_at(path) {
            return Some(name.file());
        }
    }
    None
}

/// Appends copies of `names` to `all`. If memory runs out, some may have been appended.
fn add_names(
    alloc: Global,
    all: &mut Vec<MemoryName>,
    names: &[MemoryName],
) -> Result<(), AllocError>
    ensures { IfOk result (λ _. all.new.items ≡ all.old.items ++ names.now) }
{
    for name in names {
        all.push(name.copy(alloc)?)?;
    }
    Ok(())
}

/// Appends copies of `names` without the one of `path` to `all`. If memory runs out, some may have been appended.
fn add_without(
    alloc: Global,
    all: &mut Vec<MemoryName>,
    path: &[u8],
    names: &[MemoryName],
) -> Result<(), AllocError>
    ensures { IfOk result (λ _. all.new.items ≡ all.old.items ++ without path.now names.now) }
{
    for name in names {
        if !name.is_at(path) {
            all.push(name.copy(alloc)?)?;
        }
    }
    Ok(())
}

/// Returns copies of `names` with `file` put at `path`.
fn put(
    alloc: Global,
    names: &[MemoryName],
    path: &[u8],
    file: usize,
) -> Result<Vec<MemoryName>, AllocError>
    ensures { IfOk result (λ put. put.items ≡ with_name path.now file names.now) }
{
    let mut put = Vec::new(alloc);
    put.push(MemoryName::new(alloc, path, file)?)?;
    add_without(alloc, &mut put, path, names)?;
    Ok(put)
}

/// Returns copies of `names` without the one of `path`.
fn take_out(alloc: Global, names: &[MemoryName], path: &[u8]) -> Result<Vec<MemoryName>, AllocError>
    ensures { IfOk result (λ rest. rest.items ≡ without path.now names.now) }
{
    let mut rest = Vec::new(alloc);
    add_without(alloc, &mut rest, path, names)?;
    Ok(rest)
}

/// Returns copies of `names` after `change`.
fn change_names(
    alloc: Global,
    names: &[MemoryName],
    change: Change<'_>,
) -> Result<Vec<MemoryName>, AllocError>
    ensures { IfOk result (λ changed. changed.items ≡ names_after change.entry names.now) }
{
    match change {
        Change::Make(path, file) => put(alloc, names, path, file),
        Change::Remove(path) => take_out(alloc, names, path),
        Change::Rename(from, to, file) => {
            let rest = take_out(alloc, names, from)?;
            put(alloc, &rest, to, file)
        }
    }
}

/// Appends copies of `lists` to `all`.
fn add_lists(
    alloc: Global,
    all: &mut Vec<Vec<MemoryName>>,
    lists: &[Vec<MemoryName>],
) -> Result<(), AllocError>
    ensures { IfOk result (λ _. lists_of all.new.items ≡ lists_of all.old.items ++ lists_of lists.now) }
{
    for names in lists {
        let mut copy = Vec::new(alloc);
        add_names(alloc, &mut copy, names)?;
        all.push(copy)?;
    }
    Ok(())
}

/// Appends copies of `lists`, each after `change`, to `all`.
fn add_changed(
    alloc: Global,
    all: &mut Vec<Vec<MemoryName>>,
    lists: &[Vec<MemoryName>],
    change: Change<'_>,
) -> Result<(), AllocError>
    ensures { IfOk result (λ _. lists_of all.new.items ≡
        lists_of all.old.items ++ map (names_after change.entry) (lists_of lists.now)) }
{
    for names in lists {
        all.push(change_names(alloc, names, change)?)?;
    }
    Ok(())
}

/// Returns the lists that may stand after `change` if `lists` might stand before: each as it is, and each after
/// `change`.
fn both(
    alloc: Global,
    lists: &[Vec<MemoryName>],
    change: Change<'_>,
) -> Result<Vec<Vec<MemoryName>>, AllocError>
    ensures { IfOk result (λ all. lists_of all.items ≡
        lists_of lists.now ++ map (names_after change.entry) (lists_of lists.now)) }
{
    let mut all = Vec::new(alloc);
    add_lists(alloc, &mut all, lists)?;
    add_changed(alloc, &mut all, lists, change)?;
    Ok(all)
}

/// Returns a copy of the list at place `which` of `lists`. If there is none, the fault is `Failed`.
fn copy_list(
    alloc: Global,
    lists: &[Vec<MemoryName>],
    which: usize,
) -> Result<Vec<MemoryName>, DiskFault>
    ensures list { IfOk result (λ names. slice_get (lists_of lists.now) which ≡ Some names.items) }
    ensures cause { IsErrOf result Failed → length lists.now ≤ which }
{
    let Some(list) = lists.get(which) else {
        return Err(DiskFault::Failed);
    };
    let mut names = Vec::new(alloc);
    add_names(alloc, &mut names, list)?;
    Ok(names)
}

/// Returns a copy of the names as the one list that may stand.
fn one_list(alloc: Global, names: &[MemoryName]) -> Result<Vec<Vec<MemoryName>>, AllocError>
    ensures { IfOk result (λ lists. lists_of lists.items ≡ names.now ∷ []) }
{
    let mut copy = Vec::new(alloc);
    add_names(alloc, &mut copy, names)?;
    let mut lists = Vec::new(alloc);
    lists.push(copy)?;
    Ok(lists)
}

/// Flushes the file at place `file` of `files`, if there is one.
fn flush_at(files: &mut [MemoryFile], file: usize)
    ensures { files.new ≡ flush_found files.old (Some file) }
{
    if file < files.len() {
        files[file].flush();
    }
}

/// Returns `file` as a crash may leave it: flushed, with its bytes if it was flushed before, and else with none.
fn crash_file(alloc: Global, file: &MemoryFile) -> Result<MemoryFile, AllocError>
    ensures { IfOk result (λ after. after ≡ file_after_crash file.now) }
{
    let bytes = if file.is_flushed {
        Vec::from_slice(alloc, &file.bytes)?
    } else {
        Vec::new(alloc)
    };
    Ok(MemoryFile {
        bytes,
        is_flushed: true,
    })
}

/// Returns copies of the files.
fn copy_files(alloc: Global, files: &[MemoryFile]) -> Result<Vec<MemoryFile>, AllocError>
    ensures { IfOk result (λ copies. copies.items ≡ files.now) }
{
    let mut copies = Vec::new(alloc);
    for file in files {
        copies.push(file.copy(alloc)?)?;
    }
    Ok(copies)
}

/// Returns the files as a crash may leave them, each by `crash_file`.
fn crash_files(alloc: Global, files: &[MemoryFile]) -> Result<Vec<MemoryFile>, AllocError>
    ensures { IfOk result (λ after. after.items ≡ map file_after_crash files.now) }
{
    let mut after = Vec::new(alloc);
    for file in files {
        after.push(crash_file(alloc, file)?)?;
    }
    Ok(after)
}

/// Returns the bytes of the file at place `file` of `files`, if there is one. More than `limit` bytes are `TooLarge`.
fn read_at(
    alloc: Global,
    files: &[MemoryFile],
    file: usize,
    limit: usize,
) -> Result<Option<Vec<u8>>, DiskFault>
    ensures bytes { IfOk result (λ found. option_map (λ b. b.items) found ≡ bytes_of files.now (Some file)) }
    ensures within { IfOk result (λ found. IfSome found (λ b. length b.items ≤ limit)) }
    ensures large { IsErrOf result TooLarge → IsLonger limit (bytes_of files.now (Some file)) }
    ensures cause { IsErrOf result Failed → ⊥ }
{
    match files.get(file) {
        None => Ok(None),
        Some(found) => Ok(Some(found.read(alloc, limit)?)),
    }
}

impl MemoryDisk {
    /// Returns a disk on which no file was ever made.
    pub fn new(alloc: Global) -> Result<MemoryDisk, DiskFault>
        ensures empty { IfOk result (λ disk. disk ≡ empty_disk) }
        ensures cause { IsErrOf result Failed → ⊥ }
    {
        let mut may_stand = Vec::new(alloc);
        may_stand.push(Vec::new(alloc))?;
        Ok(MemoryDisk {
            alloc,
            files: Vec::new(alloc),
            names: Vec::new(alloc),
            may_stand,
        })
    }

    /// Returns a copy of the disk.
    pub fn copy(&self, alloc: Global) -> Result<MemoryDisk, AllocError>
        ensures copied { IfOk result (λ copy. copy ≡ self.now) }
        ensures whole { IsWhole self.now }
    {
        let mut names = Vec::new(alloc);
        add_names(alloc, &mut names, &self.names)?;
        let mut may_stand = Vec::new(alloc);
        add_lists(alloc, &mut may_stand, &self.may_stand)?;
        Ok(MemoryDisk {
            alloc,
            files: copy_files(alloc, &self.files)?,
            names,
            may_stand,
        })
    }

    /// Returns the number of lists of names that a crash may leave.
    pub fn count_lists(&self) -> usize
        ensures { result ≡ length self.now.may_stand }
    {
        self.may_stand.len()
    }

    /// Returns a disk that a crash may leave. It has the list of names at place `which`, and no bytes in files that are
    /// not flushed. Fails if there is no such list.
    pub fn after_crash(&self, alloc: Global, which: usize) -> Result<MemoryDisk, DiskFault>
        ensures crash { IfOk result (λ after. Crash self.now after) }
        ensures names { IfOk result (λ after. slice_get self.now.may_stand which ≡ Some after.names) }
        ensures cause { IsErrOf result Failed → length self.now.may_stand ≤ which }
    {
        let names = copy_list(alloc, &self.may_stand, which)?;
        Ok(MemoryDisk {
            alloc,
            files: crash_files(alloc, &self.files)?,
            may_stand: one_list(alloc, &names)?,
            names,
        })
    }

    /// Changes the names, or nothing if memory runs out. The file of `change` must be a place in the list of all files.
    fn change(&mut self, change: Change<'_>) -> Result<(), AllocError>
        requires { IsMadeBy (length self.old.files) change }
        ensures done { OnOk result (self.new ≡ after_change (names_after change.entry) self.old) }
        ensures failed { OnErr result (self.new ≡ self.old) }
    {
        let names = change_names(self.alloc, &self.names, change)?;
        self.may_stand = both(self.alloc, &self.may_stand, change)?;
        self.names = names;
        Ok(())
    }
}

/// A call that fails changes nothing: all memory is taken before the first change. `create_new` alone answers `Failed`,
/// if a file stands at the path.
impl Disk for MemoryDisk {
    ghost state = { memory_state };

    fn read(
        &mut self,
        alloc: Global,
        path: &[u8],
        limit: usize,
    ) -> Result<Option<Vec<u8>>, DiskFault>
        ensures bytes { IfOk result (λ found. option_map (λ b. b.items) found ≡ content path.now self.old) }
        ensures within { IfOk result (λ found. IfSome found (λ b. length b.items ≤ limit)) }
        ensures state { self.new ≡ self.old }
        ensures longer { IsErrOf result TooLarge → IsLonger limit (content path.now self.old) }
        ensures cause { IsErrOf result Failed → ⊥ }
        ensures whole { IsWhole self.old }
    {
        match find(&self.names, path) {
            None => Ok(None),
            Some(file) => read_at(alloc, &self.files, file, limit),
        }
    }

    fn look_up(&mut self, path: &[u8]) -> Result<(), DiskFault>
        ensures done { result ≡ Ok tt }
        ensures state { self.new ≡ self.old }
        ensures whole { IsWhole self.old }
    {
        let _ = find(&self.names, path);
        Ok(())
    }

    fn create_new(&mut self, path: &[u8], bytes: &[u8]) -> Result<(), DiskFault>
        ensures free { OnOk result (found_at path.now self.old.names ≡ None) }
        ensures state { Creates path.now bytes.now self.old result self.new }
        ensures unchanged { OnErr result (self.new ≡ self.old) }
        ensures cause { IsErrOf result Failed → is_some (found_at path.now self.old.names) ≡ true }
        ensures whole { IsWhole self.old }
    {
        if find(&self.names, path).is_some() {
            return Err(DiskFault::Failed);
        }
        let change = Change::Make(path, self.files.len());
        let names = change_names(self.alloc, &self.names, change)?;
        let may_stand = both(self.alloc, &self.may_stand, change)?;
        self.files.push(MemoryFile::new(self.alloc, bytes)?)?;
        self.names = names;
        self.may_stand = may_stand;
        Ok(())
    }

    fn flush(&mut self, path: &[u8]) -> Result<(), DiskFault>
        ensures found { OnOk result (is_some (found_at path.now self.old.names) ≡ true) }
        ensures state { Changes (after_flush path.now) self.old result self.new }
        ensures unchanged { OnErr result (self.new ≡ self.old) }
        ensures none { OnErr result (found_at path.now self.old.names ≡ None) }
        ensures cause { IfErr result (λ fault. fault ≡ NotFound) }
        ensures whole { IsWhole self.old }
    {
        match find(&self.names, path) {
            None => Err(DiskFault::NotFound),
            Some(file) => {
                flush_at(&mut self.files, file);
                Ok(())
            }
        }
    }

    fn rename(&mut self, from: &[u8], to: &[u8]) -> Result<(), DiskFault>
        ensures found { OnOk result (is_some (found_at from.now self.old.names) ≡ true) }
        ensures state { Changes (after_rename from.now to.now) self.old result self.new }
        ensures unchanged { OnErr result (self.new ≡ self.old) }
        ensures none { IsErrOf result NotFound → found_at from.now self.old.names ≡ None }
        ensures cause { IsErrOf result Failed → ⊥ }
        ensures whole { IsWhole self.old }
    {
        match find(&self.names, from) {
            None => Err(DiskFault::NotFound),
            Some(file) => Ok(self.change(Change::Rename(from, to, file))?),
        }
    }

    fn remove(&mut self, path: &[u8]) -> Result<(), DiskFault>
        ensures found { OnOk result (is_some (found_at path.now self.old.names) ≡ true) }
        ensures state { Changes (after_remove path.now) self.old result self.new }
        ensures unchanged { OnErr result (self.new ≡ self.old) }
        ensures none { IsErrOf result NotFound → found_at path.now self.old.names ≡ None }
        ensures cause { IsErrOf result Failed → ⊥ }
        ensures whole { IsWhole self.old }
    {
        match find(&self.names, path) {
            None => Err(DiskFault::NotFound),
            Some(_) => Ok(self.change(Change::Remove(path))?),
        }
    }

    fn flush_names(&mut self) -> Result<(), DiskFault>
        ensures state { Changes after_flush_names self.old result self.new }
        ensures unchanged { OnErr result (self.new ≡ self.old) }
        ensures cause { IsErrOf result Failed → ⊥ }
        ensures whole { IsWhole self.old }
    {
        self.may_stand = one_list(self.alloc, &self.names)?;
        Ok(())
    }
}
