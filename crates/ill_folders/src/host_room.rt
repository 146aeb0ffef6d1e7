//! The room of a desk's message files in folders of the host's.

ghost use Rattle.ill_folders.specs.HostRoom.{host_room};

use crate::claiming_folder::{
    ClaimedMessageFile, MessageFilePaths, give_back, give_back_durably, remove,
};
use crate::message_file::MessageFiles;
use ill_night::person::print_for_person;
use ill_night::verdict::{MessageFile, Unfit, Verdict, push_unfit};
use ill_room::room::Room;
use ill_saved::Role;
use ill_text::fault::{STORE_FAILED, ToolFault};
use ill_text::warning::warn;
use std::alloc::Global;
use std::io::Write;
use std::rt::Files;
use std::{fs, io};

/// The text about the file of the messages that ask, after the path of the desk's file.
pub const NOT_ASKED: &str = ".mail/asked cannot be read or written";

/// The message files that a run has found in the folders of a desk. A message file that could not be claimed stays in
/// its folder.
///
/// No contract says what a folder of the host's has, so this room is not correct. docs/STORES.md says what each call
/// does there.
#[derive(Drop)]
pub struct HostRoom<'r, 'a, T: Files> {
    rt: &'r T,
    alloc: Global,
    place: MessageFilePaths<'a>,
    found: &'a MessageFiles,
    /// Set if a line is written about each message file that wants a person.
    is_telling: bool,
    /// How a message file is given back.
    giving: Giving,
}

/// How a message file is given back to the folder from which it was claimed.
#[derive(Clone, Copy)]
enum Giving {
    /// Message files of other desks have left that folder, too. So it is not flushed.
    Unflushed,
    /// The folder is flushed, once the message files that have left it are durable.
    First,
    /// The folder is flushed. The message files that have left it are durable already.
    Flushed,
}

impl<'r, 'a, T: Files> HostRoom<'r, 'a, T> {
    /// Returns the room of the message files `found` at `place`. If `is_telling` is set, it writes a line about each
    /// message file that wants a person.
    pub fn at(
        rt: &'r T,
        alloc: Global,
        place: MessageFilePaths<'a>,
        found: &'a MessageFiles,
        is_telling: bool,
    ) -> HostRoom<'r, 'a, T> {
        HostRoom {
            rt,
            alloc,
            place,
            found,
            is_telling,
            giving: if place.is_sorted {
                Giving::Unflushed
            } else {
                Giving::First
            },
        }
    }

    /// Gives a claimed message file back to the folder from which it came, as `giving` says.
    fn give(&mut self, claimed: ClaimedMessageFile<'_>) -> io::Result<()> {
        match self.giving {
            Giving::Unflushed => return give_back(self.rt, self.alloc, claimed),
            Giving::First => {
                self.place.claiming_folder.flush(self.rt, &self.found.runs)?;
                self.giving = Giving::Flushed;
            }
            Giving::Flushed => {}
        }
        give_back_durably(self.rt, self.alloc, claimed)
    }

    /// Returns message file `number`, and its file. Returns `None` if the message file could
    /// not be claimed.
    fn claimed(&self, number: usize) -> Option<(&'a MessageFile, ClaimedMessageFile<'a>)> {
        match (
            self.found.message_files.get(number),
            self.found.files.get(number),
        ) {
            (Some(message_file), Some(Some(file))) => Some((
                message_file,
                ClaimedMessageFile {
                    file: file.as_str(),
                    folder: self.place.folder,
                    name: &message_file.name,
                },
            )),
            _ => None,
        }
    }

    /// Quarantines a message file under the digest of its bytes that were read. The reason `unfit` goes into a file
    /// beside it.
    fn move_to_quarantine(
        &self,
        message_file: &MessageFile,
        claimed: ClaimedMessageFile<'_>,
        unfit: Unfit,
    ) -> io::Result<()> {
        let digest = message_file.digest(self.alloc)?;
        let mut why = Vec::new(self.alloc);
        push_unfit(&mut why, unfit)?;
        why.push(b'\n')?;
        self.place
            .claiming_folder
            .quarantine(self.rt, claimed, digest.as_str(), &why)
    }
}

impl<'r, 'a, T: Files> Room for HostRoom<'r, 'a, T> {
    ghost state = { λ room. host_room };

    fn remove(&mut self, number: usize) -> Result<(), ToolFault> {
        match self.claimed(number) {
            Some((_, claimed)) => Ok(remove(self.rt, self.alloc, claimed)?),
            None => Ok(()),
        }
    }

    fn quarantine(&mut self, number: usize, unfit: Unfit) -> Result<(), ToolFault> {
        match self.claimed(number) {
            Some((message_file, claimed)) => Ok(self.move_to_quarantine(
                message_file,
                claimed,
                unfit,
            )?),
            None => Ok(()),
        }
    }

    fn give_back(&mut self, number: usize) -> Result<(), ToolFault> {
        match self.claimed(number) {
            Some((_, claimed)) => Ok(self.give(claimed)?),
            None => Ok(()),
        }
    }

    fn keep_asked<E: Write>(&mut self, asked: &[u8], errors: &mut E) -> Result<(), ToolFault> {
        match self
            .place
            .claiming_folder
            .keep_asked(self.rt, self.alloc, asked)
        {
            Ok(()) => Ok(()),
            Err(error) if error.kind() == io::ErrorKind::OutOfMemory => Err(ToolFault::OutOfMemory),
            Err(_) => {
                warn(self.alloc, self.place.file.as_bytes(), NOT_ASKED, errors);
                Err(STORE_FAILED)
            }
        }
    }

    fn print_for_person<E: Write>(&self, role: Role, verdicts: &[Verdict], errors: &mut E) {
        if self.is_telling {
            print_for_person(
                self.alloc,
                role,
                &self.found.message_files,
                verdicts,
                errors,
            );
        }
    }

    fn clear(&mut self) {
        remove_runs(self.rt, self.found);
    }
}

/// Removes the folders of runs that have no message file left. A folder with message files stays.
pub fn remove_runs<T: Files>(rt: &T, found: &MessageFiles) {
    for run in &found.runs {
        let _ = fs::remove_dir(rt, run.as_str());
    }
}
