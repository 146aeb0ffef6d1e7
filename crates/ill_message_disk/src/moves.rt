//! The moves of a message file on a disk: a call removes it, quarantines it or gives it back.

ghost use Rattle.std.specs.Prelude.{◌≡◌, ◌⊎◌, [], ◌∷◌, Some, true};
ghost use Rattle.ill_disk.specs.Disk.{found_at};
ghost use Rattle.ill_disk.specs.Calls.{Answers};
ghost use Rattle.ill_message_disk.specs.MessageFileCalls.{Brings, Clears, Tells};
ghost use Rattle.ill_message_disk.specs.Touches.{Touches};
ghost use Rattle.ill_message_disk.specs.Spots.{FlushesClaim, GivesMessageFileBack, HasFileAt, QuarantinesMessageFile, RemovesMessageFile, StaysThere, quarantined_paths, are_apart};

use crate::message_disk::MessageDisk;
use crate::spot::Spot;
use ill_disk::DiskFault;

/// Returns true if the file with the number `file` stands at `path`.
fn stands_at<D: MessageDisk>(disk: &mut D, path: &[u8], file: u128) -> Result<bool, DiskFault>
    ensures { Answers (Tells path.now file) (D.state disk.old) result (D.state disk.new) }
{
    match disk.find(path)? {
        Some(found) => Ok(found.file == file),
        None => Ok(false),
    }
}

/// Removes `path`, if a file stands there.
pub fn clear<D: MessageDisk>(disk: &mut D, path: &[u8]) -> Result<(), DiskFault>
    ensures { Answers (Clears path.now) (D.state disk.old) result (D.state disk.new) }
{
    match disk.remove(path) {
        Ok(()) => Ok(()),
        Err(DiskFault::NotFound) => Ok(()),
        Err(fault) => Err(fault),
    }
}

/// Returns true if the file of a message file stands at its claimed path.
fn is_claimed<D: MessageDisk>(disk: &mut D, spot: &Spot) -> Result<bool, DiskFault>
    ensures tells { Answers (Tells spot.now.claimed spot.now.file) (D.state disk.old) result (D.state disk.new) }
    ensures apart { are_apart spot.now ≡ true }
{
    stands_at(disk, spot.claimed(), spot.file())
}

/// Removes the claimed path of a message file, if a file stands there.
fn clear_claimed<D: MessageDisk>(disk: &mut D, spot: &Spot) -> Result<(), DiskFault>
    ensures { Answers (Clears spot.now.claimed) (D.state disk.old) result (D.state disk.new) }
{
    clear(disk, spot.claimed())
}

/// Removes the file of a claimed message file. A message file that waits already, or stands in quarantine, stays there
/// with its claimed name. If another file stands at its claimed path, nothing is done.
pub fn remove_message_file<D: MessageDisk>(disk: &mut D, spot: &Spot) -> Result<(), DiskFault>
    ensures { RemovesMessageFile spot.now (D.state disk.old) result (D.state disk.new) }
{
    if !is_claimed(disk, spot)? {
        return Ok(());
    }
    if is_waiting(disk, spot)? {
        return Ok(());
    }
    if is_quarantined(disk, spot)? {
        return Ok(());
    }
    clear_claimed(disk, spot)
}

/// Returns true if the file of a message file stands at its path in quarantine.
fn is_quarantined<D: MessageDisk>(disk: &mut D, spot: &Spot) -> Result<bool, DiskFault>
    ensures { Answers (Tells spot.now.quarantined spot.now.file) (D.state disk.old) result (D.state disk.new) }
{
    stands_at(disk, spot.quarantined(), spot.file())
}

/// Flushes the claimed name of a message file. Fails if its file does not stand there.
pub(crate) fn flush_claim<D: MessageDisk>(disk: &mut D, spot: &Spot) -> Result<(), DiskFault>
    ensures { FlushesClaim spot.now (D.state disk.old) result (D.state disk.new) }
{
    if !is_claimed(disk, spot)? {
        return Err(DiskFault::NotFound);
    }
    disk.flush_name(spot.claimed())
}

/// Quarantines a claimed message file, with the line `why` in the file of the reason. The reason is written and flushed
/// first.
///
/// A message file that waits already stays there. If another file stands at its claimed path, nothing is done. A file
/// that stands at its path in quarantine is replaced.
pub fn quarantine_message_file<D: MessageDisk>(
    disk: &mut D,
    spot: &Spot,
    why: &[u8],
) -> Result<(), DiskFault>
    ensures { QuarantinesMessageFile spot.now (D.state disk.old) result (D.state disk.new) }
{
    if !is_claimed(disk, spot)? {
        return Ok(());
    }
    if is_waiting(disk, spot)? {
        return Ok(());
    }
    write_reason(disk, spot.reason(), why)?;
    bring(disk, spot.claimed(), spot.quarantined())
}

/// Returns true if the file of a message file stands in the folder from which it was claimed.
fn is_waiting<D: MessageDisk>(disk: &mut D, spot: &Spot) -> Result<bool, DiskFault>
    ensures { Answers (Tells spot.now.waiting spot.now.file) (D.state disk.old) result (D.state disk.new) }
{
    stands_at(disk, spot.waiting(), spot.file())
}

/// Writes the line `why` to the file at `path`. A file of that size there is taken to have the line, and stays.
fn write_reason<D: MessageDisk>(disk: &mut D, path: &[u8], why: &[u8]) -> Result<(), DiskFault>
    ensures { Touches (path.now ∷ []) (D.state disk.old) (D.state disk.new) }
{
    match disk.find(path) {
        Ok(Some(found)) if found.size == why.len() as u64 => Ok(()),
        _ => write_anew(disk, path, why),
    }
}

/// Writes `line` to a new file at `path`, in place of what stands there, and flushes it.
pub fn write_anew<D: MessageDisk>(disk: &mut D, path: &[u8], line: &[u8]) -> Result<(), DiskFault>
    ensures { Touches (path.now ∷ []) (D.state disk.old) (D.state disk.new) }
{
    clear(disk, path)?;
    disk.create_new(path, line)?;
    disk.flush(path)
}

/// Renames the file at `from` to `to`, if there is one.
fn bring<D: MessageDisk>(disk: &mut D, from: &[u8], to: &[u8]) -> Result<(), DiskFault>
    ensures { Answers (Brings from.now to.now) (D.state disk.old) result (D.state disk.new) }
{
    match disk.rename(from, to) {
        Ok(()) => Ok(()),
        Err(DiskFault::NotFound) => Ok(()),
        Err(fault) => Err(fault),
    }
}

/// Gives a claimed message file back to the folder from which it was claimed. If a file stands at its name there, the
/// message file stays claimed.
///
/// The message file gets its old name in the folder beside the claimed one. That name is flushed before the claimed one
/// is removed. Else a loss of power might leave the removal alone, and the message file would have no name. If the disk
/// gives no second name, the message file is renamed.
pub fn give_message_file_back<D: MessageDisk>(disk: &mut D, spot: &Spot) -> Result<(), DiskFault>
    ensures { GivesMessageFileBack spot.now (D.state disk.old) (D.state disk.new) }
{
    if !is_claimed(disk, spot)? {
        return Ok(());
    }
    match disk.link(spot.claimed(), spot.waiting()) {
        Ok(()) => end_giving(disk, spot),
        Err(_) => {
            give_back_alone(disk, spot);
            Ok(())
        }
    }
}

/// Flushes the name of a message file in the folder from which it was claimed, and then removes its claimed one.
fn end_giving<D: MessageDisk>(disk: &mut D, spot: &Spot) -> Result<(), DiskFault>
    requires { HasFileAt spot.now.waiting spot.now (D.state disk.old) }
    ensures { StaysThere (spot.now.claimed ∷ spot.now.waiting ∷ []) spot.now (D.state disk.old) (D.state disk.new) }
{
    disk.flush_name(spot.waiting())?;
    clear_claimed(disk, spot)
}

/// Gives back a message file that gets no second name. If a killed run has given it back already, its claimed name is
/// removed. If its name is free in the folder from which it was claimed, it is renamed.
fn give_back_alone<D: MessageDisk>(disk: &mut D, spot: &Spot)
    requires { HasFileAt spot.now.claimed spot.now (D.state disk.old) }
    ensures { GivesMessageFileBack spot.now (D.state disk.old) (D.state disk.new) }
{
    match disk.find(spot.waiting()) {
        Ok(Some(found)) => end_if_given(disk, spot, found.file),
        Ok(None) => {
            let _ = bring(disk, spot.claimed(), spot.waiting());
        }
        Err(_) => {}
    }
}

/// Ends the giving back of a message file whose file is `file`: flushes its name in the folder, and removes its claimed
/// one. `file` stands at the name of the message file in the folder. If it is another file, does nothing.
fn end_if_given<D: MessageDisk>(disk: &mut D, spot: &Spot, file: u128)
    requires { (D.state disk.old).is_correct ≡ true → found_at spot.now.waiting (D.state disk.old).now.names ≡ Some file }
    ensures { ((D.state disk.new) ≡ (D.state disk.old)) ⊎ StaysThere (spot.now.claimed ∷ spot.now.waiting ∷ []) spot.now (D.state disk.old) (D.state disk.new) }
{
    if file == spot.file() {
        let _ = end_giving(disk, spot);
    }
}
