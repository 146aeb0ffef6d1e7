//! The file of a key: its 32 bytes, which nobody but the owner of the file may read or write.

ghost use Rattle.std.specs.Prelude.{IfErr};
ghost use Rattle.ill_key.specs.KeyCommand.{IsKeyFault};

use ill_files::durable::flush;
use ill_files::paths::folder_of;
use ill_saved::DeskFault;
use ill_seal::Key;
use ill_text::fault::{BadKey, STORE_FAILED, ToolFault};
use std::fs::{Metadata, OpenFile, OpenOptions};
use std::io::{ErrorKind, Read, Write};
use std::os::unix::fs::{FileTypeExt, MetadataExt, OpenOptionsExt};
use std::rt::Files;
use std::{fs, io};

/// The number of bytes of a key.
const SIZE: usize = 32;

/// The permissions of a key file: its owner reads and writes it.
const OWNER: u32 = 0o600;

/// The permissions of all users but the owner. A key file has none of them.
const OTHERS: u32 = 0o077;

/// The device of the system's randomness.
const RANDOMNESS: &str = "/dev/urandom";

/// Reads the key in the file at `path`. Fails if no regular file of 32 bytes is there, others than its owner may use
/// it, or it cannot be read.
pub fn read_key<T: Files>(rt: &T, path: &str) -> Result<Key, ToolFault>
    ensures { IfErr result IsKeyFault }
{
    let found = found_at(fs::metadata(rt, path))?;
    refuse_unfit(&found)?;
    let mut file = found_at(fs::open(rt, path))?;
    let opened = found_at(file.metadata())?;
    refuse_unfit(&opened)?;
    let bytes = found_at(bytes_of(&mut file))?;
    Ok(Key::new(bytes))
}

/// Returns `found`, the answer of a call on the file of a key. An error becomes a fault: out of memory, missing or
/// unreadable.
fn found_at<A: Drop>(found: io::Result<A>) -> Result<A, ToolFault>
    ensures { IfErr result IsKeyFault }
{
    match found {
        Ok(found) => Ok(found),
        Err(error) if error.kind() == ErrorKind::OutOfMemory => Err(ToolFault::OutOfMemory),
        Err(error) if error.kind() == ErrorKind::NotFound => Err(ToolFault::Key(BadKey::Missing)),
        Err(_) => Err(ToolFault::Key(BadKey::Unreadable)),
    }
}

/// Fails if `found` is the metadata of no key file: it has another kind or size, or permissions for others.
fn refuse_unfit(found: &Metadata) -> Result<(), ToolFault>
    ensures { IfErr result IsKeyFault }
{
    if !found.is_file() || found.len() != SIZE as u64 {
        return Err(ToolFault::Key(BadKey::Size));
    }
    if found.mode() & OTHERS != 0 {
        return Err(ToolFault::Key(BadKey::Open));
    }
    Ok(())
}

/// Returns the first bytes of `file`, as many as a key has.
fn bytes_of<F: Read>(file: &mut F) -> io::Result<[u8; 32]> {
    let mut bytes = [0; SIZE];
    file.read_exact(&mut bytes)?;
    Ok(bytes)
}

/// Returns a new key of the system's randomness. Fails if this cannot be read, or is no device.
pub fn new_key<T: Files>(rt: &T) -> Result<Key, ToolFault>
    ensures { IfErr result IsKeyFault }
{
    let mut device = fs::open(rt, RANDOMNESS)?;
    if !device.metadata()?.file_type().is_char_device() {
        return Err(STORE_FAILED);
    }
    Ok(Key::new(bytes_of(&mut device)?))
}

/// Makes the file of `key` at `path`, and makes it durable. Fails with `Exists` if a file is there. If it fails later,
/// it removes the file that it made.
pub fn make_key_file<T: Files>(rt: &T, path: &str, key: &Key) -> Result<(), ToolFault>
    ensures { IfErr result IsKeyFault }
{
    let mut file = match create(rt, path) {
        Ok(file) => file,
        Err(error) if error.kind() == ErrorKind::AlreadyExists => {
            return Err(ToolFault::Desk(DeskFault::Exists));
        }
        Err(error) => return Err(error.into()),
    };
    let made = fill(rt, &mut file, path, key);
    if made.is_err() {
        let _ = fs::remove_file(rt, path);
    }
    Ok(made?)
}

/// Creates the file at `path`, which must not exist.
fn create<T: Files>(rt: &T, path: &str) -> io::Result<T::File> {
    let mut options = OpenOptions::new();
    options.write(true);
    options.create_new(true);
    options.mode(OWNER);
    options.open(rt, path)
}

/// Writes `key` into the new `file` at `path`, and makes the file and its name durable.
fn fill<T: Files>(rt: &T, file: &mut T::File, path: &str, key: &Key) -> io::Result<()> {
    file.write_all(key.bytes())?;
    flush(file)?;
    flush(&fs::open(rt, folder_of(path))?)
}
