//! A disk in memory that has message files. It is correct, and keeps what a crash may leave.

ghost use Rattle.std.specs.Prelude.{◌≡◌, ◌<◌, ◌≤◌, ◌++◌, ℕ, List, [], ◌∷◌, map, length, IfOk, IfSome, IfErr, OnOk, OnErr, IsErrOf, is_some, true, false, slice_get, Option, Some, None, Ok, option_map, bytes_eq};
ghost use Rattle.ill_disk.specs.Disk as disks;
ghost use Rattle.ill_disk.specs.Disk.{Crash, found_at, without, with_name, bytes_of, content, after_change, after_flush, after_flush_names, after_remove, after_rename, flush_found, empty_disk, IsWhole};
ghost use Rattle.ill_disk.specs.Calls.{Changes, Creates, IsLonger, unchanged};
ghost use Rattle.ill_disk.specs.MemoryDisk.{memory_state, lists_of, file_after_crash};
ghost use Rattle.ill_message_disk.specs.MessageFileCalls.{after_flush_name, with_found, Finds, Links};
ghost use Rattle.ill_message_disk_kit.specs.MemoryMessageFiles.{IsBelow, IsMadeBy, names_after};
ghost use Rattle.ill_disk.specs.declared.disk.DiskFault.TheVariants.{Failed, NotFound, TooLarge};

use ill_disk::{Disk, DiskFault};
use ill_message_disk::{Found, MessageDisk};
use std::alloc::{AllocError, Global};
use std::marker::Model;

/// A file in memory.
#[derive(Drop)]
struct MemoryFile {
    bytes: Vec<u8>,
    is_flushed: bool,
}

// The value of a file has its bytes, and if they are flushed.
impl Model for MemoryFile {
    ghost Value = { disks.File };

    ghost view = { λ f. record { bytes = f.bytes.items; is_flushed = f.is_flushed } };
}

/// A name in memory.
#[derive(Drop)]
struct MemoryName {
    path: Vec<u8>,
    file: usize,
}

// The value of a name has its path, and the place of its file among all files.
impl Model for MemoryName {
    ghost Value = { disks.Name };

    ghost view = { λ n. record { path = n.path.items; file = n.file } };
}

/// A change of names.
#[derive(Clone, Copy)]
enum Change<'a> {
    /// A file is made at a path.
    Make(&'a [u8], usize),
    /// A path is removed.
    Remove(&'a [u8]),
    /// The first path is renamed to the second, at which the file then stands.
    Rename(&'a [u8], &'a [u8], usize),
}

/// A disk in memory that has message files, for tests. It keeps each list of names that a crash may leave.
///
/// It passes its first calls, and each later one fails and changes nothing. So a test can let it crash at any moment of
/// a run.
#[derive(Drop)]
pub struct MemoryMessageDisk {
    alloc: Global,
    files: Vec<MemoryFile>,
    names: Vec<MemoryName>,
    may_stand: Vec<Vec<MemoryName>>,
    calls: u32,
}

// The value of the disk has its files, its names and the lists that may stand. By the invariant it is whole: each name
// is of a file that was made.
impl Model for MemoryMessageDisk {
    ghost Value = { disks.Disk };

    ghost view = { λ d. record { files = d.files.items; names = d.names.items; may_stand = lists_of d.may_stand.items } };

    ghost invariant = { λ d. IsWhole (record { files = d.files.items; names = d.names.items; may_stand = lists_of d.may_stand.items }) };
}

impl MemoryFile {
    /// Returns a file of these bytes that is not flushed.
    fn new(alloc: Global, bytes: &[u8]) -> Result<MemoryFile, AllocError>
        ensures { IfOk result (λ file. file ≡ record { bytes = bytes.now; is_flushed = false }) }
    {
        Ok(MemoryFile {
            bytes: Vec::from_slice(alloc, bytes)?,
            is_flushed: false,
        })
    }

    /// Returns the bytes. If there are more than `limit`, fails with `TooLarge`.
    fn read(&self, alloc: Global, limit: usize) -> Result<Vec<u8>, DiskFault>
        ensures bytes { IfOk result (λ bytes. bytes.items ≡ self.now.bytes) }
        ensures within { IfOk result (λ bytes. length bytes.items ≤ limit) }
        ensures large { IsErrOf result TooLarge → limit < length self.now.bytes }
    {
        if self.bytes.len() > limit {
            return Err(DiskFault::TooLarge);
        }
        Ok(Vec::from_slice(alloc, &self.bytes)?)
    }

    /// Returns the number of bytes.
    fn size(&self) -> u64
        ensures { result ≡ length self.now.bytes }
    {
        self.bytes.len() as u64
    }

    /// Returns the file as a crash leaves it: with its bytes if it is flushed, and else with none.
    fn after_crash(&self, alloc: Global) -> Result<MemoryFile, AllocError>
        ensures { IfOk result (λ after. after ≡ file_after_crash self.now) }
    {
        let bytes = if self.is_flushed {
            Vec::from_slice(alloc, &self.bytes)?
        } else {
            Vec::new(alloc)
        };
        Ok(MemoryFile {
            bytes,
            is_flushed: true,
        })
    }

    /// Flushes the file.
    fn flush(&mut self)
        ensures { self.new ≡ record self.old { is_flushed = true } }
    {
        self.is_flushed = true;
    }
}

impl MemoryName {
    /// Returns a name of this file at this path.
    fn new(alloc: Global, path: &[u8], file: usize) -> Result<MemoryName, AllocError>
        ensures { IfOk result (λ name. name ≡ record { path = path.now; file = file }) }
    {
        Ok(MemoryName {
            path: Vec::from_slice(alloc, path)?,
            file,
        })
    }

    /// Returns a copy of the name.
    fn copy(&self, alloc: Global) -> Result<MemoryName, AllocError>
        ensures { IfOk result (λ name. name ≡ self.now) }
    {
        MemoryName::new(alloc, &self.path, self.file)
    }

    /// Returns true if the name is at this path.
    fn is_at(&self, path: &[u8]) -> bool
        ensures { result ≡ bytes_eq path.now self.now.path }
    {
        path == self.path.as_slice()
    }

    /// Returns the file.
    fn file(&self) -> usize
        ensures { result ≡ self.now.file }
    {
        self.file
    }
}

/// Returns the file that stands at `path`, or `None` if none does.
fn find(names: &[MemoryName], path: &[u8]) -> Option<usize>
    ensures { result ≡ found_at path.now names.now }
{
    for name in names {
        if name.is_at(path) {
            return Some(name.file());
        }
    }
    None
}

/// Appends copies of `names` to `all`.
fn add_names(
    alloc: Global,
    all: &mut Vec<MemoryName>,
    names: &[MemoryName],
) -> Result<(), AllocError>
    ensures { IfOk result (λ _. all.new.items ≡ all.old.items ++ names.now) }
{
    for name in names {
        all.push(name.copy(alloc)?)?;
    }
    Ok(())
}

/// Appends copies of `names` to `all`, but for the name at `path`.
fn add_without(
    alloc: Global,
    all: &mut Vec<MemoryName>,
    path: &[u8],
    names: &[MemoryName],
) -> Result<(), AllocError>
    ensures { IfOk result (λ _. all.new.items ≡ all.old.items ++ without path.now names.now) }
{
    for name in names {
        if !name.is_at(path) {
            all.push(name.copy(alloc)?)?;
        }
    }
    Ok(())
}

/// Returns copies of `names` with `file` put at `path`.
fn put(
    alloc: Global,
    names: &[MemoryName],
    path: &[u8],
    file: usize,
) -> Result<Vec<MemoryName>, AllocError>
    ensures { IfOk result (λ put. put.items ≡ with_name path.now file names.now) }
{
    let mut put = Vec::new(alloc);
    put.push(MemoryName::new(alloc, path, file)?)?;
    add_without(alloc, &mut put, path, names)?;
    Ok(put)
}

/// Returns copies of `names` without the one at `path`.
fn take_out(alloc: Global, names: &[MemoryName], path: &[u8]) -> Result<Vec<MemoryName>, AllocError>
    ensures { IfOk result (λ rest. rest.items ≡ without path.now names.now) }
{
    let mut rest = Vec::new(alloc);
    add_without(alloc, &mut rest, path, names)?;
    Ok(rest)
}

/// Returns copies of `names` after `change`.
fn change_names(
    alloc: Global,
    names: &[MemoryName],
    change: Change<'_>,
) -> Result<Vec<MemoryName>, AllocError>
    ensures { IfOk result (λ changed. changed.items ≡ names_after change.entry names.now) }
{
    match change {
        Change::Make(path, file) => put(alloc, names, path, file),
        Change::Remove(path) => take_out(alloc, names, path),
        Change::Rename(from, to, file) => {
            let rest = take_out(alloc, names, from)?;
            put(alloc, &rest, to, file)
        }
    }
}

/// Returns the change that puts `found`, which stands at `path`, there again. If nothing stands there, it removes
/// `path`.
fn settling<'a>(path: &'a [u8], found: Option<usize>) -> Change<'a>
    ensures names { (names : List disks.Name) → names_after result names ≡ with_found path.now found names }
    ensures made { (count : ℕ) → IsBelow count found → IsMadeBy count result }
{
    match found {
        Some(file) => Change::Make(path, file),
        None => Change::Remove(path),
    }
}

/// Appends copies of `lists` to `all`.
fn add_lists(
    alloc: Global,
    all: &mut Vec<Vec<MemoryName>>,
    lists: &[Vec<MemoryName>],
) -> Result<(), AllocError>
    ensures { IfOk result (λ _. lists_of all.new.items ≡ lists_of all.old.items ++ lists_of lists.now) }
{
    for names in lists {
        let mut copy = Vec::new(alloc);
        add_names(alloc, &mut copy, names)?;
        all.push(copy)?;
    }
    Ok(())
}

/// Appends copies of `lists` to `all`, each after `change`.
fn add_changed(
    alloc: Global,
    all: &mut Vec<Vec<MemoryName>>,
    lists: &[Vec<MemoryName>],
    change: Change<'_>,
) -> Result<(), AllocError>
    ensures { IfOk result (λ _. lists_of all.new.items ≡
        lists_of all.old.items ++ map (names_after change.entry) (lists_of lists.now)) }
{
    for names in lists {
        all.push(change_names(alloc, names, change)?)?;
    }
    Ok(())
}

/// Returns the lists that may stand after a change: each as it is, and each with the change.
fn both(
    alloc: Global,
    lists: &[Vec<MemoryName>],
    change: Change<'_>,
) -> Result<Vec<Vec<MemoryName>>, AllocError>
    ensures { IfOk result (λ all. lists_of all.items ≡
        lists_of lists.now ++ map (names_after change.entry) (lists_of lists.now)) }
{
    let mut all = Vec::new(alloc);
    add_lists(alloc, &mut all, lists)?;
    add_changed(alloc, &mut all, lists, change)?;
    Ok(all)
}

/// Returns a copy of the list at the place `which` of `lists`. Fails if there is no such list.
fn copy_list(
    alloc: Global,
    lists: &[Vec<MemoryName>],
    which: usize,
) -> Result<Vec<MemoryName>, DiskFault>
    ensures list { IfOk result (λ names. slice_get (lists_of lists.now) which ≡ Some names.items) }
    ensures cause { IsErrOf result Failed → length lists.now ≤ which }
{
    let Some(list) = lists.get(which) else {
        return Err(DiskFault::Failed);
    };
    let mut names = Vec::new(alloc);
    add_names(alloc, &mut names, list)?;
    Ok(names)
}

/// Returns the files as a crash leaves them.
fn crash_files(alloc: Global, files: &[MemoryFile]) -> Result<Vec<MemoryFile>, AllocError>
    ensures { IfOk result (λ after. after.items ≡ map file_after_crash files.now) }
{
    let mut after = Vec::new(alloc);
    for file in files {
        after.push(file.after_crash(alloc)?)?;
    }
    Ok(after)
}

/// Returns a list of lists that has a copy of `names` alone. After a crash or a flush of all names it is what may
/// stand.
fn one_list(alloc: Global, names: &[MemoryName]) -> Result<Vec<Vec<MemoryName>>, AllocError>
    ensures { IfOk result (λ lists. lists_of lists.items ≡ names.now ∷ []) }
{
    let mut copy = Vec::new(alloc);
    add_names(alloc, &mut copy, names)?;
    let mut lists = Vec::new(alloc);
    lists.push(copy)?;
    Ok(lists)
}

/// Flushes the file `file`, if it was made.
fn flush_at(files: &mut [MemoryFile], file: usize)
    ensures { files.new ≡ flush_found files.old (Some file) }
{
    if file < files.len() {
        files[file].flush();
    }
}

/// Returns the bytes of the file `file`, or `None` if it was not made. If there are more than `limit`, fails with
/// `TooLarge`.
fn read_at(
    alloc: Global,
    files: &[MemoryFile],
    file: usize,
    limit: usize,
) -> Result<Option<Vec<u8>>, DiskFault>
    ensures bytes { IfOk result (λ found. option_map (λ b. b.items) found ≡ bytes_of files.now (Some file)) }
    ensures within { IfOk result (λ found. IfSome found (λ b. length b.items ≤ limit)) }
    ensures large { IsErrOf result TooLarge → IsLonger limit (bytes_of files.now (Some file)) }
{
    match files.get(file) {
        None => Ok(None),
        Some(found) => Ok(Some(found.read(alloc, limit)?)),
    }
}

impl MemoryMessageDisk {
    /// Returns a disk on which no file was ever made. Its first `calls` calls do not fail.
    pub fn new(alloc: Global, calls: u32) -> Result<MemoryMessageDisk, DiskFault>
        ensures empty { IfOk result (λ disk. disk ≡ empty_disk) }
        ensures cause { IsErrOf result Failed → ⊥ }
    {
        let mut may_stand = Vec::new(alloc);
        may_stand.push(Vec::new(alloc))?;
        Ok(MemoryMessageDisk {
            alloc,
            files: Vec::new(alloc),
            names: Vec::new(alloc),
            may_stand,
            calls,
        })
    }

    /// Returns the number of lists of names that a crash may leave.
    pub fn count_lists(&self) -> usize
        ensures { result ≡ length self.now.may_stand }
    {
        self.may_stand.len()
    }

    /// Returns a disk that a crash may leave, whose first `calls` calls do not fail. It has the list of names at place
    /// `which`, and no bytes in files that are not flushed. Fails if there is no such list.
    pub fn after_crash(&self, which: usize, calls: u32) -> Result<MemoryMessageDisk, DiskFault>
        ensures crash { IfOk result (λ after. Crash self.now after) }
        ensures names { IfOk result (λ after. slice_get self.now.may_stand which ≡ Some after.names) }
        ensures cause { IsErrOf result Failed → length self.now.may_stand ≤ which }
    {
        let names = copy_list(self.alloc, &self.may_stand, which)?;
        Ok(MemoryMessageDisk {
            alloc: self.alloc,
            files: crash_files(self.alloc, &self.files)?,
            may_stand: one_list(self.alloc, &names)?,
            names,
            calls,
        })
    }

    /// Lets the next `calls` calls pass. Each later one fails.
    pub fn allow(&mut self, calls: u32)
        ensures { self.new ≡ self.old }
    {
        self.calls = calls;
    }

    /// Takes one of the calls that do not fail away. Fails if none is left.
    fn burn(&mut self) -> Result<(), DiskFault>
        ensures same { self.new ≡ self.old }
        ensures cause { IfErr result (λ fault. fault ≡ Failed) }
        ensures whole { IsWhole self.old }
    {
        if self.calls == 0 {
            return Err(DiskFault::Failed);
        }
        self.calls -= 1;
        Ok(())
    }

    /// Changes the names by `change`. A crash may then leave each list of names with the change or without it. If
    /// memory runs out, changes nothing.
    fn change(&mut self, change: Change<'_>) -> Result<(), AllocError>
        requires { IsMadeBy (length self.old.files) change }
        ensures done { OnOk result (self.new ≡ after_change (names_after change.entry) self.old) }
        ensures failed { OnErr result (self.new ≡ self.old) }
    {
        let names = change_names(self.alloc, &self.names, change)?;
        self.may_stand = both(self.alloc, &self.may_stand, change)?;
        self.names = names;
        Ok(())
    }
}

/// Each call takes one of the calls that do not fail away. A call that fails changes nothing: all memory is taken
/// before the first change.
impl Disk for MemoryMessageDisk {
    ghost state = { memory_state };

    fn read(
        &mut self,
        alloc: Global,
        path: &[u8],
        limit: usize,
    ) -> Result<Option<Vec<u8>>, DiskFault>
        ensures bytes { IfOk result (λ found. option_map (λ b. b.items) found ≡ content path.now self.old) }
        ensures within { IfOk result (λ found. IfSome found (λ b. length b.items ≤ limit)) }
        ensures state { self.new ≡ self.old }
        ensures longer { IsErrOf result TooLarge → IsLonger limit (content path.now self.old) }
        ensures whole { IsWhole self.old }
    {
        self.burn()?;
        match find(&self.names, path) {
            None => Ok(None),
            Some(file) => read_at(alloc, &self.files, file, limit),
        }
    }

    fn look_up(&mut self, _path: &[u8]) -> Result<(), DiskFault>
        ensures state { self.new ≡ self.old }
        ensures whole { IsWhole self.old }
    {
        self.burn()
    }

    fn create_new(&mut self, path: &[u8], bytes: &[u8]) -> Result<(), DiskFault>
        ensures free { OnOk result (found_at path.now self.old.names ≡ None) }
        ensures state { Creates path.now bytes.now self.old result self.new }
        ensures unchanged { OnErr result (self.new ≡ self.old) }
        ensures whole { IsWhole self.old }
    {
        self.burn()?;
        if find(&self.names, path).is_some() {
            return Err(DiskFault::Failed);
        }
        let change = Change::Make(path, self.files.len());
        let names = change_names(self.alloc, &self.names, change)?;
        let may_stand = both(self.alloc, &self.may_stand, change)?;
        self.files.push(MemoryFile::new(self.alloc, bytes)?)?;
        self.names = names;
        self.may_stand = may_stand;
        Ok(())
    }

    fn flush(&mut self, path: &[u8]) -> Result<(), DiskFault>
        ensures found { OnOk result (is_some (found_at path.now self.old.names) ≡ true) }
        ensures state { Changes (after_flush path.now) self.old result self.new }
        ensures unchanged { OnErr result (self.new ≡ self.old) }
        ensures none { IsErrOf result NotFound → found_at path.now self.old.names ≡ None }
        ensures whole { IsWhole self.old }
    {
        self.burn()?;
        match find(&self.names, path) {
            None => Err(DiskFault::NotFound),
            Some(file) => {
                flush_at(&mut self.files, file);
                Ok(())
            }
        }
    }

    fn rename(&mut self, from: &[u8], to: &[u8]) -> Result<(), DiskFault>
        ensures found { OnOk result (is_some (found_at from.now self.old.names) ≡ true) }
        ensures state { Changes (after_rename from.now to.now) self.old result self.new }
        ensures unchanged { OnErr result (self.new ≡ self.old) }
        ensures none { IsErrOf result NotFound → found_at from.now self.old.names ≡ None }
        ensures whole { IsWhole self.old }
    {
        self.burn()?;
        match find(&self.names, from) {
            None => Err(DiskFault::NotFound),
            Some(file) => Ok(self.change(Change::Rename(from, to, file))?),
        }
    }

    fn remove(&mut self, path: &[u8]) -> Result<(), DiskFault>
        ensures found { OnOk result (is_some (found_at path.now self.old.names) ≡ true) }
        ensures state { Changes (after_remove path.now) self.old result self.new }
        ensures unchanged { OnErr result (self.new ≡ self.old) }
        ensures none { IsErrOf result NotFound → found_at path.now self.old.names ≡ None }
        ensures whole { IsWhole self.old }
    {
        self.burn()?;
        match find(&self.names, path) {
            None => Err(DiskFault::NotFound),
            Some(_) => Ok(self.change(Change::Remove(path))?),
        }
    }

    fn flush_names(&mut self) -> Result<(), DiskFault>
        ensures state { Changes after_flush_names self.old result self.new }
        ensures unchanged { OnErr result (self.new ≡ self.old) }
        ensures whole { IsWhole self.old }
    {
        self.burn()?;
        self.may_stand = one_list(self.alloc, &self.names)?;
        Ok(())
    }
}

/// `find`, `link` and `flush_name` take calls away and fail as the calls of `Disk` do. A call for a folder changes
/// nothing and does not fail, since the disk has no folders.
impl MessageDisk for MemoryMessageDisk {
    fn find(&mut self, path: &[u8]) -> Result<Option<Found>, DiskFault>
        ensures finds { Finds path.now self.old result self.new }
        ensures whole { IsWhole self.old }
    {
        self.burn()?;
        match find(&self.names, path) {
            None => Ok(None),
            Some(file) => Ok(found_file(&self.files, file)),
        }
    }

    fn link(&mut self, from: &[u8], to: &[u8]) -> Result<(), DiskFault>
        ensures links { Links from.now to.now self.old result self.new }
        ensures whole { IsWhole self.old }
    {
        self.burn()?;
        if find(&self.names, to).is_some() {
            return Err(DiskFault::Failed);
        }
        match find(&self.names, from) {
            None => Err(DiskFault::NotFound),
            Some(file) => Ok(self.change(Change::Make(to, file))?),
        }
    }

    fn flush_name(&mut self, path: &[u8]) -> Result<(), DiskFault>
        ensures state { Changes (after_flush_name path.now) self.old result self.new }
        ensures whole { IsWhole self.old }
    {
        self.burn()?;
        let change = settling(path, find(&self.names, path));
        let names = change_names(self.alloc, &self.names, change)?;
        let mut may_stand = Vec::new(self.alloc);
        add_changed(self.alloc, &mut may_stand, &self.may_stand, change)?;
        self.names = names;
        self.may_stand = may_stand;
        Ok(())
    }

    fn make_folder(&mut self, _path: &[u8]) -> Result<(), DiskFault> {
        Ok(())
    }

    fn remove_folder(&mut self, _path: &[u8]) -> Result<(), DiskFault> {
        Ok(())
    }
}

/// Returns the number `file` and the size of that file, or `None` if it was not made.
fn found_file(files: &[MemoryFile], file: usize) -> Option<Found>
    ensures file { option_map (λ f. f.file) result ≡ option_map (λ f. file) (slice_get files.now file) }
    ensures size { option_map (λ f. f.size) result ≡ option_map length (bytes_of files.now (Some file)) }
{
    match files.get(file) {
        Some(found) => Some(Found {
            file: file as u128,
            size: found.size(),
        }),
        None => None,
    }
}
