//! The letters that come to a shelf with a key. Each is opened, and the messages in it are put into a folder of the
//! shelf, from which it then takes its message files.
//!
//! A letter is claimed into a folder where nobody else may write. Its file is removed only once the disk has its
//! messages. So the next run opens a letter again that a killed run has left. A message that was put already takes its
//! own place.

ghost use Rattle.std.specs.Prelude.{◌≡◌, IfErr, IfOk};
ghost use Rattle.ill_night.specs.Outbox.{PutsOne};
ghost use Rattle.ill_sorting.specs.Opened.{file_of_message, message_name, opened_answer};
ghost use Rattle.ill_text.specs.Fault.{IsOpenFault};

use ill_files::durable::flush;
use ill_files::machine::Machine;
use ill_files::open::lock;
use ill_files::shelf::Shelf;
use ill_folders::claiming_folder::{
    ClaimedMessageFile, ClaimingFolder, give_back, open_box, remove_if_there,
};
use ill_folders::fault_lines::{NO_BOX, NO_RUN, NOT_READ};
use ill_folders::folders::open_own_folder;
use ill_folders::host_room::remove_runs;
use ill_folders::message_file::{MessageFiles, Opening, Source, begin_run, claim_message_files};
use ill_folders::message_folder::MessageFolder;
use ill_folders::reserved::is_within;
use ill_key::Key;
use ill_key::role::other_sender;
use ill_night::outgoing::Outgoing;
use ill_night::person::print_for_person;
use ill_night::verdict::{MessageFile, Unfit, Verdict, push_unfit};
use ill_saved::{LockFiles, Role};
use ill_text::fault::{STORE_FAILED, ToolFault};
use ill_text::warning::warn;
use ill_values::OutOfMemory;
use sha2::{Digest, Sha256};
use std::alloc::Global;
use std::io::{ErrorKind, Write};
use std::rt::Files;
use std::{fs, io, slice};

/// The name, before `.mail`, of the folder of letters that are not opened yet.
const LETTERS: &str = ".letters";

/// The name of the folder of the messages in letters.
const OPENED: &str = ".opened";

/// The number of hexadecimal digits of the digest of a message in the name of its file.
const DIGITS: usize = 32;

/// The text about a letter that is not opened.
const NOT_OPENED: &str = " is not opened, and stays among the letters that were claimed";

/// The result of the opening of letters.
#[derive(Clone, Copy)]
pub struct Opened {
    /// Set if a file waits for the next run.
    pub is_waiting: bool,
    /// Set unless a file was quarantined, which is no letter that the other library has sealed with the key.
    pub are_sealed: bool,
}

/// Returns the answer of letters that were opened: `Deferred` if a file waits, else true if no file was quarantined.
pub fn opened_answer(opened: Opened) -> Result<bool, ToolFault>
    ensures { result ≡ opened_answer opened.is_waiting opened.are_sealed }
{
    if opened.is_waiting {
        Err(ToolFault::Deferred)
    } else {
        Ok(opened.are_sealed)
    }
}

/// Returns the path of the folder of the messages in the letters of `shelf`. Makes the folder if it does not exist.
pub fn opened_folder<T: Files>(
    rt: &T,
    alloc: Global,
    shelf: &Shelf<'_>,
) -> Result<String, ToolFault>
    ensures { IfErr result IsOpenFault }
{
    let folder = format!(in alloc; "{}/{OPENED}", shelf.folder)?;
    let own = shelf.own_desk(alloc)?;
    open_own_folder(rt, folder.as_str(), own.as_str())?;
    Ok(folder)
}

/// The folders between which letters are opened.
#[derive(Clone, Copy)]
pub struct Unpacking<'a> {
    /// The folder to which the letters come.
    pub folder: &'a str,
    /// The key with which they are sealed.
    pub key: &'a Key,
    /// The folder into which their messages are put.
    pub opened: &'a str,
}

/// Opens the letters that have come to `shelf`, and puts the messages in them into the folder of `unpacking`. It writes
/// a line to the errors about each other file.
pub fn open_letters<T: LockFiles, W: Write, E: Write>(
    machine: &mut Machine<'_, T, W, E>,
    shelf: &Shelf<'_>,
    unpacking: Unpacking<'_>,
) -> Result<Opened, ToolFault>
    ensures faults { IfErr result IsOpenFault }
    ensures silent { machine.new.writer ≡ machine.old.writer }
{
    let own = shelf.own_desk(machine.alloc)?;
    let held = lock(machine.rt, machine.alloc, own.as_str())?;
    let opened = open_under_lock(machine, shelf, unpacking, own.as_str());
    drop(held);
    opened
}

/// Does what `open_letters` does, under the lock of `own`, the file of the shelf's own desk.
fn open_under_lock<T: LockFiles, W: Write, E: Write>(
    machine: &mut Machine<'_, T, W, E>,
    shelf: &Shelf<'_>,
    unpacking: Unpacking<'_>,
    own: &str,
) -> Result<Opened, ToolFault>
    ensures faults { IfErr result IsOpenFault }
    ensures silent { machine.new.writer ≡ machine.old.writer }
{
    let letters = format!(in machine.alloc; "{}/{LETTERS}", shelf.folder)?;
    let claiming_folder = open_box(machine.rt, machine.alloc, letters.as_str(), own);
    let claiming_folder = machine.report_fault_at(claiming_folder, letters.as_str(), NO_BOX)?;
    let run = begin_run(machine.rt, machine.alloc, &claiming_folder);
    let run = machine.report_fault_at(run, letters.as_str(), NO_RUN)?;
    let found = claim_letters(machine, shelf, unpacking, &claiming_folder, run.as_str());
    let found = machine.report_fault_at(found, unpacking.folder, NOT_READ)?;
    Ok(unpack(machine, shelf, unpacking, &found)?)
}

/// Claims the letters of the folder of `unpacking` into the folder `run`. Fails if the letters lie within the shelf,
/// since files there belong to a desk.
fn claim_letters<T: Files, W, E>(
    machine: &Machine<'_, T, W, E>,
    shelf: &Shelf<'_>,
    unpacking: Unpacking<'_>,
    claiming_folder: &ClaimingFolder,
    run: &str,
) -> Result<MessageFiles, ToolFault>
    ensures { IfErr result IsOpenFault }
{
    if is_within(machine.rt, machine.alloc, unpacking.folder, shelf.folder)? {
        return Err(STORE_FAILED);
    }
    let source = Source {
        folder: unpacking.folder,
        opening: Some(Opening {
            key: unpacking.key,
            sender: other_sender(shelf.role),
        }),
    };
    claim_message_files(machine.rt, machine.alloc, claiming_folder, source, run)
}

/// Puts the messages in the letters `found` into their folder, and removes each letter whose messages the disk has. Any
/// other file is quarantined or given back, and a line tells a person.
fn unpack<T: Files, W: Write, E: Write>(
    machine: &mut Machine<'_, T, W, E>,
    shelf: &Shelf<'_>,
    unpacking: Unpacking<'_>,
    found: &MessageFiles,
) -> io::Result<Opened>
    ensures silent { machine.new.writer ≡ machine.old.writer }
{
    let own = shelf.own_desk(machine.alloc)?;
    let mut letters = Letters {
        rt: machine.rt,
        alloc: machine.alloc,
        role: shelf.role,
        unpacking,
        quarantined: ClaimingFolder::open(machine.rt, machine.alloc, own.as_str(), own.as_str())?,
        kept: Vec::new(machine.alloc),
        opened: Opened {
            is_waiting: found.waiting > 0,
            are_sealed: true,
        },
    };
    letters.open_all(found, &mut machine.errors)?;
    letters.remove_opened(found)?;
    remove_runs(machine.rt, found);
    Ok(letters.opened)
}

/// The state of the opening of letters.
#[derive(Drop)]
struct Letters<'a, T: Files> {
    rt: &'a T,
    alloc: Global,
    role: Role,
    unpacking: Unpacking<'a>,
    /// The folder of message files of the shelf's own desk, in which files that are no letters are quarantined.
    quarantined: ClaimingFolder,
    /// The numbers of the letters of which a message could not be put. Their files stay.
    kept: Vec<usize>,
    opened: Opened,
}

impl<T: Files> Letters<'_, T> {
    /// Puts each message of a sealed letter into the folder of messages, and settles the other files.
    fn open_all<E: Write>(&mut self, found: &MessageFiles, errors: &mut E) -> io::Result<()> {
        for (message_file, file) in found.message_files.iter().zip(&found.files) {
            match self.open_one(message_file, file.as_ref(), errors) {
                Ok(()) => {}
                Err(error) if error.kind() == ErrorKind::OutOfMemory => return Err(error),
                Err(_) => self.keep(message_file, errors)?,
            }
        }
        Ok(())
    }

    /// Puts a message of a sealed letter into the folder `.opened`, or settles `file` if it is no such letter.
    fn open_one<E: Write>(
        &mut self,
        message_file: &MessageFile,
        file: Option<&String>,
        errors: &mut E,
    ) -> io::Result<()> {
        match (&message_file.bytes, message_file.letter) {
            (Some(message), Some(_)) => self.put(message),
            (Some(bytes), None) => {
                let verdict = Verdict::without_message(bytes, Unfit::NotSealed);
                self.settle(message_file, file, verdict, errors)
            }
            (None, letter) => self.settle(message_file, file, Verdict::unread(letter), errors),
        }
    }

    /// Puts `message` into the folder of messages.
    fn put(&self, message: &[u8]) -> io::Result<()> {
        let mut folder = MessageFolder::at(self.rt, self.alloc, self.unpacking.opened);
        match put_message(self.alloc, message, &mut folder) {
            Ok(()) => Ok(()),
            Err(ToolFault::OutOfMemory) => Err(ErrorKind::OutOfMemory.into()),
            Err(_) => Err(ErrorKind::Other.into()),
        }
    }

    /// Settles the file of `message_file`, which is no sealed letter: it is quarantined or given back, as `verdict`
    /// says. A line to `errors` tells a person. If the message file could not be claimed, it has no `file`, and waits.
    fn settle<E: Write>(
        &mut self,
        message_file: &MessageFile,
        file: Option<&String>,
        verdict: Verdict,
        errors: &mut E,
    ) -> io::Result<()> {
        print_for_person(
            self.alloc,
            self.role,
            slice::from_ref(message_file),
            &[verdict],
            errors,
        );
        match (verdict, file) {
            (Verdict::Quarantined(unfit), Some(file)) => {
                self.opened.are_sealed = false;
                self.move_to_quarantine(message_file, self.claimed(message_file, file), unfit)
            }
            (_, Some(file)) => {
                self.opened.is_waiting = true;
                give_back(self.rt, self.alloc, self.claimed(message_file, file))
            }
            (_, None) => {
                self.opened.is_waiting = true;
                Ok(())
            }
        }
    }

    /// Returns the file of a message file as one that was claimed.
    fn claimed<'m>(
        &'m self,
        message_file: &'m MessageFile,
        file: &'m String,
    ) -> ClaimedMessageFile<'m> {
        ClaimedMessageFile {
            file: file.as_str(),
            folder: self.unpacking.folder,
            name: &message_file.name,
        }
    }

    /// Quarantines a file, under the digest of the bytes that were read of it, with the reason `unfit`.
    fn move_to_quarantine(
        &self,
        message_file: &MessageFile,
        claimed: ClaimedMessageFile<'_>,
        unfit: Unfit,
    ) -> io::Result<()> {
        let digest = message_file.digest(self.alloc)?;
        let mut why = Vec::new(self.alloc);
        push_unfit(&mut why, unfit)?;
        why.push(b'\n')?;
        self.quarantined
            .quarantine(self.rt, claimed, digest.as_str(), &why)
    }

    /// Keeps the file of a message file among the claimed ones, for the next run, and writes a line about it. A letter
    /// has one line.
    fn keep<E: Write>(&mut self, message_file: &MessageFile, errors: &mut E) -> io::Result<()> {
        self.opened.is_waiting = true;
        if let Some(letter) = message_file.letter {
            if self.kept.contains(&letter.number) {
                return Ok(());
            }
            self.kept.push(letter.number)?;
        }
        warn(self.alloc, &message_file.name, NOT_OPENED, errors);
        Ok(())
    }

    /// Makes the names of the messages durable, and then removes the files of the letters whose messages were all put.
    fn remove_opened(&self, found: &MessageFiles) -> io::Result<()> {
        flush(&fs::open(self.rt, self.unpacking.opened)?)?;
        for (message_file, file) in found.message_files.iter().zip(&found.files) {
            if let (Some(letter), Some(file)) = (message_file.letter, file)
                && letter.is_sealed
                && !self.kept.contains(&letter.number)
            {
                remove_if_there(self.rt, file.as_str())?;
            }
        }
        Ok(())
    }
}

/// Puts `message` into `out`. Its name there is made of its digest, so equal messages are one message file.
fn put_message<O: Outgoing>(alloc: Global, message: &[u8], out: &mut O) -> Result<(), ToolFault>
    ensures { PutsOne O.after (file_of_message message.now) (O.message_files out.old) (O.message_files out.new) result }
{
    match message_name(alloc, message) {
        Ok(name) => out.put(&name, message),
        Err(_) => Err(ToolFault::OutOfMemory),
    }
}

/// Returns the name of the message file of `message`.
fn message_name(alloc: Global, message: &[u8]) -> Result<Vec<u8>, OutOfMemory>
    ensures { IfOk result (λ name. name.items ≡ message_name message.now) }
{
    let mut digits = hex::encode(alloc, Sha256::digest(message))?.into_bytes();
    digits.truncate(DIGITS);
    let mut name = Vec::from_slice(alloc, b"message-")?;
    name.extend_from_slice(&digits)?;
    Ok(name)
}
