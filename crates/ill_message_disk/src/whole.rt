//! A new file that is put at a path, whole or not at all.

ghost use Rattle.std.specs.Prelude.{◌≡◌, Some};
ghost use Rattle.ill_store.specs.DiskStore.{DiskPlaces};
ghost use Rattle.ill_message_disk.specs.Keeping.{PutsFile};
ghost use Rattle.ill_message_disk.specs.Whole.{PutsWhole};

use ill_disk::{Disk, DiskFault};

/// Puts a new file of `bytes` at `path`, in place of what stands there. Whatever crash comes, `path` has what it had,
/// or all of `bytes`.
///
/// Removes what an earlier call has left at `temporary`. Makes the new file there, flushes it, and renames it to
/// `path`. If that fails, removes what stands at `temporary`. The name is not flushed.
pub fn put_whole<D: Disk>(
    disk: &mut D,
    temporary: &[u8],
    path: &[u8],
    bytes: &[u8],
) -> Result<(), DiskFault>
    ensures { (temporary.now ≡ path.now → ⊥) → PutsWhole temporary.now path.now bytes.now (D.state disk.old) result (D.state disk.new) }
{
    let _ = disk.remove(temporary);
    match place(disk, temporary, path, bytes) {
        Ok(()) => Ok(()),
        Err(fault) => {
            let _ = disk.remove(temporary);
            Err(fault)
        }
    }
}

/// Makes a new file of `bytes` at `temporary`, flushes it, and renames it to `path`.
fn place<D: Disk>(
    disk: &mut D,
    temporary: &[u8],
    path: &[u8],
    bytes: &[u8],
) -> Result<(), DiskFault>
    ensures places { (temporary.now ≡ path.now → ⊥) → DiskPlaces temporary.now path.now bytes.now (D.state disk.old) result (D.state disk.new) }
    ensures puts { (temporary.now ≡ path.now → ⊥) → PutsFile (record { path = path.now; temporary = temporary.now }) (Some bytes.now)
        (D.state disk.old) result (D.state disk.new) }
{
    disk.create_new(temporary, bytes)?;
    disk.flush(temporary)?;
    disk.rename(temporary, path)
}
