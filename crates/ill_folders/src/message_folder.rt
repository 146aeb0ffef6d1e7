//! A folder into which message files are written.

ghost use Rattle.std.specs.Prelude.{List, Option, Some, None};
ghost use Rattle.ill_night.specs.Outbox.{Letter};

use crate::host_message_files::HostMessageFiles;
use ill_disk::DiskFault;
use ill_message_disk::put_whole;
use ill_night::outgoing::Outgoing;
use ill_text::fault::{STORE_FAILED, ToolFault};
use ill_values::OutOfMemory;
use std::alloc::Global;
use std::rt::Files;

/// A folder of message files, with one message in each file. Whoever moves the message files may put anything there at
/// any moment.
#[derive(Drop)]
pub struct MessageFolder<'r, 'a, R: Files> {
    rt: &'r R,
    alloc: Global,
    /// The path of the folder.
    path: &'a str,
    /// The name of a message file that could not be put there.
    failed: Option<Vec<u8>>,
}

impl<'r, 'a, R: Files> MessageFolder<'r, 'a, R> {
    /// Returns the folder at `path`.
    pub fn at(rt: &'r R, alloc: Global, path: &'a str) -> MessageFolder<'r, 'a, R> {
        MessageFolder {
            rt,
            alloc,
            path,
            failed: None,
        }
    }

    /// Returns the path of the message file that could not be put there, or `None` if no put has failed.
    pub fn failed(&self) -> Result<Option<String>, OutOfMemory> {
        let Some(name) = &self.failed else {
            return Ok(None);
        };
        let folder = self.path;
        let name = str::from_utf8(name).unwrap_or_default();
        Ok(Some(format!(in self.alloc; "{folder}/{name}")?))
    }

    /// Puts a message into a new file with the name `name`. So the message file `name` is there whole, or unchanged,
    /// even after a loss of power. The new file is made under the name of its message file after a dot, so only a run
    /// that holds the desk that sends this message file writes it. It follows no link. The new file is made at a path
    /// without a file, and the rename replaces a link.
    fn write(&self, name: &[u8], bytes: &[u8]) -> Result<(), DiskFault> {
        let folder = self.path;
        let name = str::from_utf8(name).unwrap_or_default();
        let new = format!(in self.alloc; "{folder}/.{name}")?;
        let place = format!(in self.alloc; "{folder}/{name}")?;
        let mut disk = HostMessageFiles::at(self.rt, self.alloc, None);
        put_whole(&mut disk, new.as_bytes(), place.as_bytes(), bytes)
    }
}

impl<'r, 'a, R: Files> Outgoing for MessageFolder<'r, 'a, R> {
    ghost MessageFiles = { List Letter };

    // The message files in the folder are not known, since others may put anything there.
    ghost message_files = { λ _. None };

    ghost after = { λ there letter. there };

    fn put(&mut self, name: &[u8], bytes: &[u8]) -> Result<(), ToolFault> {
        match self.write(name, bytes) {
            Ok(()) => Ok(()),
            Err(DiskFault::OutOfMemory) => Err(ToolFault::OutOfMemory),
            Err(_) => {
                self.failed = Some(Vec::from_slice(self.alloc, name)?);
                Err(STORE_FAILED)
            }
        }
    }
}
