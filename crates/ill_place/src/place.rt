//! The place of a desk: the path of its file, and the files in which desks are kept.

ghost use Rattle.std.specs.Prelude.{◌≡◌, ℕ, List, None, IfOk, IfErr, IsErrOf};
ghost use Rattle.ill_saved.specs.Desk.{DeskOf};
ghost use Rattle.ill_saved.specs.ManySides.{DeskContents};
ghost use Rattle.ill_place.specs.BadPlaces.{IsElsewhere};
ghost use Rattle.ill_place.specs.Place.{IsAt, OpensAs, StartsAt, place_of};
ghost use Rattle.ill_saved.specs.declared.fault.DeskFault.TheVariants.{NoRecord};
ghost use Rattle.ill_text.specs.Fault.{IsOpenFault};
ghost use Rattle.ill_text.specs.declared.fault.ToolFault.TheVariants.{Desk};

use ill_saved::{Desk, DeskFault, FileLock, FileStore, LockFiles, RECORD_LIMIT, Role, Store};
use ill_text::fault::ToolFault;
use ill_values::OutOfMemory;
use std::alloc::Global;

/// The files in which desks are kept. Nothing is known of them but the contracts of `store` and `lock`. So a command
/// over any such files can show only the desk that it has opened at a path.
pub trait DeskFiles {
    /// The store of the record in a file.
    type DeskStore: Store + Drop;

    /// The lock of a file. While it is held, no other command has the desk.
    type DeskLock: Lock + Drop;

    /// Returns the store in the file at `path`, which need not exist.
    fn store(&self, alloc: Global, path: &str) -> Result<Self::DeskStore, OutOfMemory>
        ensures { IfOk result (IsAt (place_of Self.DeskStore.state path.now)) };

    /// Takes the lock of the file at `path`.
    fn lock(&self, alloc: Global, path: &str) -> Result<Self::DeskLock, ToolFault>
        ensures guards { IfOk result (λ lock. Self.DeskLock.path lock ≡ path.now) }
        ensures faults { IfErr result IsOpenFault };
}

/// The lock of a file.
pub trait Lock {
    /// Returns the path of the file that the lock guards.
    ghost path: { Self → List ℕ };
}

impl<'a, T: LockFiles> Lock for FileLock<'a, T> {
    ghost path = { λ lock. lock };
}

/// The files of the host.
#[derive(Drop)]
pub struct HostFiles<'a, T> {
    rt: &'a T,
}

impl<'a, T> HostFiles<'a, T> {
    /// Returns the files of the host.
    pub fn of(rt: &'a T) -> HostFiles<'a, T> {
        HostFiles { rt }
    }
}

impl<'a, T: LockFiles> DeskFiles for HostFiles<'a, T> {
    type DeskStore = FileStore<'a, T>;

    type DeskLock = FileLock<'a, T>;

    fn store(&self, alloc: Global, path: &str) -> Result<FileStore<'a, T>, OutOfMemory> {
        FileStore::at(self.rt, alloc, path, RECORD_LIMIT)
    }

    fn lock(&self, alloc: Global, path: &str) -> Result<FileLock<'a, T>, ToolFault> {
        match FileLock::take(self.rt, alloc, path) {
            Ok(lock) => Ok(lock),
            Err(fault) => Err(DeskFault::from(fault).into()),
        }
    }
}

/// The place of a desk: the files in which it is kept, and its path there.
#[derive(Drop)]
pub struct DeskPlace<'a, D> {
    /// The files.
    pub files: &'a D,
    /// The path of the desk's file.
    pub path: &'a str,
}

/// The place of a shelf: the files in which its desks are kept, and its folder there.
#[derive(Drop)]
pub struct ShelfPlace<'a, D> {
    /// The files.
    pub files: &'a D,
    /// The path of the shelf's folder.
    pub folder: &'a str,
}

/// A desk at its place, and the lock of its file. A drop drops the desk first, and then the lock.
pub struct LockedAt<D: DeskFiles> {
    /// The desk.
    pub desk: Desk<D::DeskStore>,
    /// The lock, which is let go last.
    pub lock: D::DeskLock,
}

impl<D: DeskFiles> Drop for LockedAt<D> {
    /// Lets the desk go, and then the lock.
    fn drop(self) {
        let LockedAt { desk, lock } = self;
        drop(desk);
        drop(lock);
    }
}

impl<D: DeskFiles> DeskPlace<'_, D> {
    /// Returns the store of the desk's record, which need not exist.
    pub fn store(&self, alloc: Global) -> Result<D::DeskStore, OutOfMemory>
        ensures { IfOk result (IsAt (place_of D.DeskStore.state self.now.path.now)) }
    {
        self.files.store(alloc, self.path)
    }

    /// Takes the lock of the desk's file.
    pub fn lock(&self, alloc: Global) -> Result<D::DeskLock, ToolFault>
        ensures guards { IfOk result (λ lock. D.DeskLock.path lock ≡ self.now.path.now) }
        ensures faults { IfErr result IsOpenFault }
    {
        self.files.lock(alloc, self.path)
    }

    /// Loads the desk.
    pub fn open(&self, alloc: Global) -> Result<Desk<D::DeskStore>, ToolFault>
        ensures starts { IfOk result (StartsAt (place_of D.DeskStore.state self.now.path.now)) }
        ensures faults { IfErr result IsOpenFault }
    {
        start(alloc, self.store(alloc)?)
    }

    /// Loads the desk under the lock of its file.
    pub fn open_locked(&self, alloc: Global) -> Result<LockedAt<D>, ToolFault>
        ensures starts { IfOk result (λ locked. StartsAt (place_of D.DeskStore.state self.now.path.now) locked.desk) }
        ensures guards { IfOk result (λ locked. D.DeskLock.path locked.lock ≡ self.now.path.now) }
        ensures faults { IfErr result IsOpenFault }
    {
        let lock = self.lock(alloc)?;
        let desk = self.open(alloc)?;
        Ok(LockedAt { desk, lock })
    }

    /// Loads the desk under `lock`, the lock of its file. If the file has no record and there is a `role`, it begins a
    /// desk of that role. Nothing of it is saved yet. Without a `role` it fails with `NoRecord`.
    pub fn open_or_begin(
        &self,
        alloc: Global,
        lock: D::DeskLock,
        role: Option<Role>,
    ) -> Result<LockedAt<D>, ToolFault>
        ensures opens { IfOk result (λ locked. OpensAs role (place_of D.DeskStore.state self.now.path.now) locked.desk) }
        ensures guards { IfOk result (λ locked. locked.lock ≡ lock) }
        ensures faults { IfErr result IsOpenFault }
        ensures missing { IsErrOf result (Desk NoRecord) → role ≡ None }
    {
        let desk = start_or_begin(alloc, self.store(alloc)?, role)?;
        Ok(LockedAt { desk, lock })
    }
}

/// Loads the desk whose record `store` has. Fails if there is no record.
#[tactic(auto, using(crate::proofs::PlaceLemmas::started))]
fn start<S: Store + Drop>(alloc: Global, store: S) -> Result<Desk<S>, ToolFault>
    ensures starts { (path : List ℕ) → IsAt (place_of S.state path) store
        → IfOk result (StartsAt (place_of S.state path)) }
    ensures faults { IfErr result IsOpenFault }
{
    match Desk::start(alloc, store) {
        Ok(desk) => Ok(desk),
        Err((fault, _)) => Err(fault.into()),
    }
}

/// Loads the desk whose record `store` has. If there is no record, it begins a desk of `role`, or fails without a
/// `role`.
#[tactic(auto, using(crate::proofs::PlaceLemmas::opened))]
fn start_or_begin<S: Store + Drop>(
    alloc: Global,
    store: S,
    role: Option<Role>,
) -> Result<Desk<S>, ToolFault>
    ensures opens { (path : List ℕ) → IsAt (place_of S.state path) store
        → IfOk result (OpensAs role (place_of S.state path)) }
    ensures faults { IfErr result IsOpenFault }
    ensures missing { IsErrOf result (Desk NoRecord) → role ≡ None }
{
    match Desk::start(alloc, store) {
        Ok(desk) => Ok(desk),
        Err((DeskFault::NoRecord, store)) => begin(alloc, store, role),
        Err((fault, _)) => Err(fault.into()),
    }
}

/// Begins a desk of `role` over `store`, which has no record. Without a `role` it fails with `NoRecord`.
#[tactic(auto, using(crate::proofs::PlaceLemmas::opened_new))]
fn begin<S: Store + Drop>(alloc: Global, store: S, role: Option<Role>) -> Result<Desk<S>, ToolFault>
    ensures begins { (path : List ℕ) → IsAt (place_of S.state path) store
        → IfOk result (OpensAs role (place_of S.state path)) }
    ensures faults { IfErr result IsOpenFault }
    ensures missing { IsErrOf result (Desk NoRecord) → role ≡ None }
{
    let Some(role) = role else {
        return Err(ToolFault::Desk(DeskFault::NoRecord));
    };
    match Desk::create(alloc, store, role) {
        Ok(desk) => Ok(desk),
        Err((fault, _)) => Err(fault.into()),
    }
}

/// A desk of another path or with other sides than its record was not loaded from a place, nor was one that has a
/// message which may not be sent.
#[tactic(auto, using(crate::proofs::PlaceLemmas::none_elsewhere))]
pub fn no_other_desk_starts_at_a_place<S: Store>()
    ensures { (path : List ℕ) (desk : DeskOf DeskContents S) →
        IsElsewhere (place_of S.state path) desk → StartsAt (place_of S.state path) desk → ⊥ }
{}
