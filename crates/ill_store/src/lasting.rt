//! The calls of a disk that load and save a record so that it lasts.

ghost use Rattle.std.specs.Prelude.{◌≡◌, ◌≤◌, length, IfOk, IfSome};
ghost use Rattle.ill_store.specs.DiskStore.{DiskLoads, DiskPlaces, DiskSaves};

use ill_disk::{Disk, DiskFault};
use std::alloc::Global;

/// Loads the record at `path`, or `None` if no file stands there. From then on each crash of a correct disk leaves it.
/// More than `limit` bytes are `TooLarge`.
///
/// Flushes its file, if there is one, and then the names.
pub fn load<D: Disk>(
    disk: &mut D,
    alloc: Global,
    path: &[u8],
    limit: usize,
) -> Result<Option<Vec<u8>>, DiskFault>
    ensures loads { DiskLoads (λ b. b.items) path.now (D.state disk.old) result (D.state disk.new) }
    ensures within { IfOk result (λ found. IfSome found (λ b. length b.items ≤ limit)) }
{
    match disk.read(alloc, path, limit)? {
        None => {
            disk.flush_names()?;
            Ok(None)
        }
        Some(found) => {
            disk.flush(path)?;
            disk.flush_names()?;
            Ok(Some(found))
        }
    }
}

/// Saves `bytes` at `path`. Once it is done, each crash of a correct disk leaves `bytes`. If it fails, a crash leaves
/// what a crash before the save might have left, or `bytes`. `temporary` must be another path than `path`.
///
/// Looks up the record, and removes what an earlier save has left at `temporary`. Places the new record, and flushes
/// the names. If the new record cannot be placed, removes what stands at `temporary`.
pub fn save<D: Disk>(
    disk: &mut D,
    path: &[u8],
    temporary: &[u8],
    bytes: &[u8],
) -> Result<(), DiskFault>
    requires { temporary.now ≡ path.now → ⊥ }
    ensures { DiskSaves path.now bytes.now (D.state disk.old) result (D.state disk.new) }
{
    disk.look_up(path)?;
    match disk.remove(temporary) {
        Ok(()) | Err(DiskFault::NotFound) => {}
        Err(fault) => return Err(fault),
    }
    match place(disk, path, temporary, bytes) {
        Ok(()) => disk.flush_names(),
        Err(fault) => {
            let _ = disk.remove(temporary);
            Err(fault)
        }
    }
}

/// Makes a new file of `bytes` at `temporary`, flushes it, and renames it over the record.
fn place<D: Disk>(
    disk: &mut D,
    path: &[u8],
    temporary: &[u8],
    bytes: &[u8],
) -> Result<(), DiskFault>
    requires { temporary.now ≡ path.now → ⊥ }
    ensures { DiskPlaces temporary.now path.now bytes.now (D.state disk.old) result (D.state disk.new) }
{
    disk.create_new(temporary, bytes)?;
    disk.flush(temporary)?;
    disk.rename(temporary, path)
}
