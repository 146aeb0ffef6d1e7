//! The sorting of the message files that have come to a shelf: each goes to the desk of its message's group.
//!
//! A message file is claimed into a folder of the shelf, and renamed from there into the folder `.mail` of a desk. So
//! the next run sorts a message file that a killed run has claimed. A message whose group has no desk goes to the
//! shelf's own desk. That desk answers as a desk without the loan. It gets no message that would begin a loan.

ghost use Rattle.std.specs.Prelude.{◌≡◌, IfErr};
ghost use Rattle.ill_sorting.specs.Sorting.{route_of};
ghost use Rattle.ill_text.specs.Fault.{IsOpenFault};

use crate::last_words::LastWords;
use ill_der::{ApduView, BodyView, encode};
use ill_desk::new::run_desk_new;
use ill_files::home::{Home, home_at};
use ill_files::machine::Machine;
use ill_files::open::lock;
use ill_files::paths::{CAME, MAIL_FOLDER, RETIRED, path_of};
use ill_files::shelf::{Shelf, names_of_desks, refuse_retired};
use ill_folders::claiming_folder::{
    ClaimedMessageFile, ClaimingFolder, give_back, open_box, remove_if_there,
};
use ill_folders::fault_lines::{NO_BOX, NO_RUN, NOT_READ};
use ill_folders::host_room::remove_runs;
use ill_folders::message_file::{MessageFiles, Source, begin_run, claim_message_files, new_run};
use ill_folders::reserved::is_within;
use ill_night::message::message_in;
use ill_night::verdict::MessageFile;
use ill_saved::{DeskFault, FileStore, LockFiles, RECORD_LIMIT, Role};
use ill_text::fault::{STORE_FAILED, ToolFault};
use ill_text::warning::{warn, warn_of_message};
use ill_values::Apdu;
use std::alloc::Global;
use std::io::{ErrorKind, Write, sink};
use std::path::Path;
use std::rt::Files;
use std::{fs, io};

/// The greatest number of desks that the message files of one run make, so that strangers cannot fill a disk.
const NEW_DESKS: usize = 16;

/// The way of a message file.
#[derive(Clone, Copy)]
pub enum Route {
    /// To the desk of its group.
    Home,
    /// To the desk of its group, which is made for it.
    New,
    /// Back to its folder, where it waits for the next run.
    Back,
    /// Nowhere, since its group is retired: its file is removed.
    Gone,
    /// To the shelf's own desk.
    Stray,
}

/// Returns the way of a message file, by the role of the shelf and the home of its message's group. `is_request` is set
/// if the message is an ILL-Request, and `has_room` if this run may make further desks.
pub fn route_of(role: Role, home: Home, is_request: bool, has_room: bool) -> Route
    ensures { result ≡ route_of role home is_request has_room }
{
    match (home, role) {
        (Home::Desk, _) => Route::Home,
        (Home::Retired, _) => Route::Gone,
        (Home::Lost, _) => Route::Back,
        (Home::Nothing, Role::Responder) if is_request => {
            if has_room { Route::New } else { Route::Back }
        }
        (Home::Nothing, _) => Route::Stray,
    }
}

/// The folder from which a shelf takes its message files.
#[derive(Clone, Copy)]
pub struct MessageFilesFrom<'a> {
    /// Its path.
    pub folder: &'a str,
    /// Set if the shelf has put the message files there, which are messages in letters that it has opened.
    pub is_own: bool,
}

/// Sorts the message files of a folder to the desks of `shelf`. Returns true if a message file waits for the next run,
/// or a desk is lost. It writes lines to the errors about waiting message files, lost and new desks, and message files
/// of retired groups. `copies` is the folder that has copies of the desks, if the run makes any.
pub fn sort_message_files<T: LockFiles, W: Write, E: Write>(
    machine: &mut Machine<'_, T, W, E>,
    shelf: &Shelf<'_>,
    from: MessageFilesFrom<'_>,
    copies: Option<&str>,
) -> Result<bool, ToolFault>
    ensures faults { IfErr result IsOpenFault }
    ensures silent { machine.new.writer ≡ machine.old.writer }
{
    let own = shelf.own_desk(machine.alloc)?;
    let held = lock(machine.rt, machine.alloc, own.as_str())?;
    let sorted = sort_under_lock(machine, shelf, from, copies);
    drop(held);
    sorted
}

/// Does what `sort_message_files` does, under the lock of the shelf's own desk.
fn sort_under_lock<T: LockFiles, W: Write, E: Write>(
    machine: &mut Machine<'_, T, W, E>,
    shelf: &Shelf<'_>,
    from: MessageFilesFrom<'_>,
    copies: Option<&str>,
) -> Result<bool, ToolFault>
    ensures faults { IfErr result IsOpenFault }
    ensures silent { machine.new.writer ≡ machine.old.writer }
{
    let unsorted = shelf.unsorted(machine.alloc)?;
    let own = shelf.own_desk(machine.alloc)?;
    let claiming_folder = open_box(machine.rt, machine.alloc, unsorted.as_str(), own.as_str());
    let claiming_folder = machine.report_fault_at(claiming_folder, unsorted.as_str(), NO_BOX)?;
    let run = begin_run(machine.rt, machine.alloc, &claiming_folder);
    let run = machine.report_fault_at(run, unsorted.as_str(), NO_RUN)?;
    let sources = Sources {
        from,
        copies,
        claiming_folder: &claiming_folder,
        run: run.as_str(),
    };
    let found = claim_from(machine.rt, machine.alloc, shelf, sources);
    let found = machine.report_fault_at(found, from.folder, NOT_READ)?;
    Ok(sort_found(machine, shelf, sources, &found)?)
}

/// The folders of a run that sorts message files.
#[derive(Clone, Copy)]
struct Sources<'a> {
    /// The folder from which the message files come.
    from: MessageFilesFrom<'a>,
    /// The folder that has copies of the desks, if the run makes any.
    copies: Option<&'a str>,
    /// The folder of the message files that are not sorted yet.
    claiming_folder: &'a ClaimingFolder,
    /// The folder of this run in it.
    run: &'a str,
}

/// Claims the message files of the folder of `sources`. Fails if others bring the message files, and the folder lies
/// within the shelf: files there belong to a desk.
fn claim_from<T: Files>(
    rt: &T,
    alloc: Global,
    shelf: &Shelf<'_>,
    sources: Sources<'_>,
) -> Result<MessageFiles, ToolFault>
    ensures { IfErr result IsOpenFault }
{
    let Sources {
        claiming_folder,
        from,
        run,
        ..
    } = sources;
    if !from.is_own && is_within(rt, alloc, from.folder, shelf.folder)? {
        return Err(STORE_FAILED);
    }
    let source = Source {
        folder: from.folder,
        opening: None,
    };
    claim_message_files(rt, alloc, claiming_folder, source, run)
}

/// Sorts the claimed message files `found`, and writes a line about each lost desk. Returns true if a desk is lost, or
/// a message file waits for the next run.
fn sort_found<T: LockFiles, W: Write, E: Write>(
    machine: &mut Machine<'_, T, W, E>,
    shelf: &Shelf<'_>,
    sources: Sources<'_>,
    found: &MessageFiles,
) -> io::Result<bool>
    ensures silent { machine.new.writer ≡ machine.old.writer }
{
    let mut sorting = Sorting {
        rt: machine.rt,
        alloc: machine.alloc,
        shelf: *shelf,
        sources,
        boxes: Vec::new(machine.alloc),
        made: 0,
        lost: Vec::new(machine.alloc),
        mark: None,
        words: Vec::new(machine.alloc),
        is_waiting: found.waiting > 0,
    };
    sorting.print_lost_desks(&mut machine.errors)?;
    sorting.sort_all(found, &mut machine.errors)?;
    sorting.keep_words()?;
    remove_runs(machine.rt, found);
    Ok(sorting.is_waiting)
}

/// The text after the name of a message file that cannot be claimed or read now.
const NOT_READ_NOW: &str = " left not-read";

/// The text after the name of a claimed message file whose sorting has failed.
const NOT_SORTED: &str = " is not sorted, and stays among the mails that were claimed";

/// The text after the name of a message file that would make one desk too many.
const NO_ROOM: &str = " left: mail has made 16 desks in this run, and makes no more";

/// The text after the path of a lost desk.
const LOST: &str = " is lost: mail for it is left, until it is there again";

/// The text about a message file whose group is retired, and whose loan has no last word.
const RETIRED_GROUP: &str = "removed: its group is retired";

/// The text after the path of a desk that was made for a message file.
const NEW_GROUP: &str = " is made: mail begins its group";

/// The message files that one run of the shelf sorts to a desk from one folder.
#[derive(Drop)]
struct SortedBox {
    /// The path of the desk's file.
    desk: String,
    /// The folder in which the message files were claimed, where their names differ.
    from: String,
    /// The folder into which the message files are renamed.
    run: String,
}

/// The state of the sorting of message files.
#[derive(Drop)]
struct Sorting<'a, T: LockFiles> {
    rt: &'a T,
    alloc: Global,
    shelf: Shelf<'a>,
    sources: Sources<'a>,
    /// The folders into which this run has renamed message files.
    boxes: Vec<SortedBox>,
    /// The number of desks that were made.
    made: usize,
    /// The paths of the lost desks about which a line was written.
    lost: Vec<String>,
    /// The mark that was read last.
    mark: Option<LastWords>,
    /// The last words of retired groups that message files ask for.
    words: Vec<Apdu>,
    /// Set if a message file waits for the next run, or a desk is lost.
    is_waiting: bool,
}

impl<T: LockFiles> Sorting<'_, T> {
    /// Writes a line about each lost desk: a file that lies beside a desk, or a copy of it, is there without the desk.
    fn print_lost_desks<E: Write>(&mut self, errors: &mut E) -> io::Result<()> {
        for ending in [CAME, MAIL_FOLDER] {
            self.print_lost_in(self.shelf.folder, ending, errors)?;
        }
        let Some(copies) = self.sources.copies else {
            return Ok(());
        };
        for ending in ["", RETIRED] {
            self.print_lost_in(copies, ending, errors)?;
        }
        Ok(())
    }

    /// Writes a line about each lost desk of which a file is in `folder`. The name of the file is that of the desk, and
    /// then `ending`.
    fn print_lost_in<E: Write>(
        &mut self,
        folder: &str,
        ending: &str,
        errors: &mut E,
    ) -> io::Result<()> {
        let shelf = self.shelf;
        for name in names_of_desks(self.rt, self.alloc, folder, shelf.role, ending)? {
            let desk = format!(in self.alloc; "{}/{name}", shelf.folder)?;
            if let Home::Lost = self.home_of(desk.as_str())? {
                self.print_lost(desk, errors)?;
            }
        }
        Ok(())
    }

    /// Returns the home of the group of `desk`. If only a copy of the desk or of its mark is there, the desk is lost.
    fn home_of(&self, desk: &str) -> io::Result<Home> {
        let home = home_at(self.rt, self.alloc, desk)?;
        let (Home::Nothing, Some(copies)) = (home, self.sources.copies) else {
            return Ok(home);
        };
        let name = Path::new(desk).file_name().unwrap_or(desk);
        let copy = format!(in self.alloc; "{copies}/{name}")?;
        match home_at(self.rt, self.alloc, copy.as_str())? {
            Home::Nothing => Ok(Home::Nothing),
            _ => Ok(Home::Lost),
        }
    }

    /// Writes a line about the lost desk `desk`, once in a run.
    fn print_lost<E: Write>(&mut self, desk: String, errors: &mut E) -> io::Result<()> {
        if !self.lost.contains(&desk) {
            self.leave(desk.as_bytes(), LOST, errors);
            self.lost.push(desk)?;
        }
        Ok(())
    }

    /// Sorts the message files `found`. A message file that cannot be sorted waits for the next run.
    fn sort_all<E: Write>(&mut self, found: &MessageFiles, errors: &mut E) -> io::Result<()> {
        for (message_file, file) in found.message_files.iter().zip(&found.files) {
            match self.sort_message_file(message_file, file.as_ref(), errors) {
                Ok(()) => {}
                Err(error) if error.kind() == ErrorKind::OutOfMemory => return Err(error),
                Err(_) => self.leave(&message_file.name, NOT_SORTED, errors),
            }
        }
        Ok(())
    }

    /// Sorts a message file, if it could be claimed and read.
    fn sort_message_file<E: Write>(
        &mut self,
        message_file: &MessageFile,
        file: Option<&String>,
        errors: &mut E,
    ) -> io::Result<()> {
        let Some(file) = file else {
            self.leave(&message_file.name, NOT_READ_NOW, errors);
            return Ok(());
        };
        match &message_file.bytes {
            Some(bytes) => self.sort_bytes(message_file, bytes, file.as_str(), errors),
            None => {
                self.leave(&message_file.name, NOT_READ_NOW, errors);
                self.give_back(message_file, file.as_str())
            }
        }
    }

    /// Gives a message file back to the folder from which it was claimed.
    fn give_back(&self, message_file: &MessageFile, file: &str) -> io::Result<()> {
        let claimed = ClaimedMessageFile {
            file,
            folder: self.sources.from.folder,
            name: &message_file.name,
        };
        give_back(self.rt, self.alloc, claimed)
    }

    /// Sorts a message file with these bytes. Bytes that are no message are for the shelf's own desk.
    fn sort_bytes<E: Write>(
        &mut self,
        message_file: &MessageFile,
        bytes: &[u8],
        file: &str,
        errors: &mut E,
    ) -> io::Result<()> {
        match message_in(bytes) {
            Ok(message) => self.sort_message(message_file, &message, file, errors),
            Err(_) => self.move_to_quarantine(message_file, file),
        }
    }

    /// Sorts a message file with the message `message`.
    fn sort_message<E: Write>(
        &mut self,
        message_file: &MessageFile,
        message: &ApduView<'_>,
        file: &str,
        errors: &mut E,
    ) -> io::Result<()> {
        let shelf = self.shelf;
        let desk = shelf.desk_of(self.alloc, message.group())?;
        let is_request = matches!(message.body(), BodyView::IllRequest { .. });
        let home = self.home_of(desk.as_str())?;
        match route_of(shelf.role, home, is_request, self.made < NEW_DESKS) {
            Route::Home => self.hand_over(message_file, file, desk),
            Route::New => {
                make_desk(self.rt, self.alloc, shelf.role, desk.as_str()).map_err(error_of)?;
                self.made = self.made.saturating_add(1);
                warn(self.alloc, desk.as_bytes(), NEW_GROUP, errors);
                self.hand_over(message_file, file, desk)
            }
            Route::Back => {
                self.print_back(message_file, home, desk, errors)?;
                self.give_back(message_file, file)
            }
            Route::Gone => {
                self.answer(message_file, message, desk.as_str(), errors)?;
                remove_if_there(self.rt, file)
            }
            Route::Stray => self.move_to_quarantine(message_file, file),
        }
    }

    /// Adds the last word of the loan of `message` to the words that message files ask for. The group of its desk
    /// `desk` is retired. If the loan has no last word, it writes a line about `message_file`, once a month for each
    /// group.
    fn answer<E: Write>(
        &mut self,
        message_file: &MessageFile,
        message: &ApduView<'_>,
        desk: &str,
        errors: &mut E,
    ) -> io::Result<()> {
        if let Some(word) = self.last_word(desk, message)? {
            return self.add_word(word);
        }
        let Sources {
            claiming_folder,
            run,
            ..
        } = self.sources;
        let name = Path::new(desk).file_name().unwrap_or(desk);
        if claiming_folder.is_to_print(self.rt, self.alloc, name, run)? {
            warn_of_message(
                self.alloc,
                &message_file.name,
                message,
                RETIRED_GROUP,
                errors,
            );
        }
        Ok(())
    }

    /// Returns the last word of the loan of `message`, if the mark of the group of `desk` has one. Message files come
    /// in the order of their groups, so a mark is read once.
    fn last_word(&mut self, desk: &str, message: &ApduView<'_>) -> io::Result<Option<Apdu>> {
        let is_read = match &self.mark {
            Some(mark) => mark.is_of(desk),
            None => false,
        };
        if !is_read {
            self.mark = Some(LastWords::read(self.rt, self.alloc, desk)?);
        }
        match &self.mark {
            Some(mark) => mark.find(self.alloc, message),
            None => Ok(None),
        }
    }

    /// Adds a last word that a message file asks for, if it was not asked for before in this run.
    fn add_word(&mut self, word: Apdu) -> io::Result<()> {
        if !self.words.contains(&word) {
            self.words.push(word)?;
        }
        Ok(())
    }

    /// Keeps the last words that message files ask for. They replace the words that the run before has kept.
    fn keep_words(&self) -> io::Result<()> {
        let mut bytes = Vec::new(self.alloc);
        for word in &self.words {
            bytes.extend_from_slice(&encode(self.alloc, word)?)?;
        }
        self.sources
            .claiming_folder
            .keep_asked(self.rt, self.alloc, &bytes)
    }

    /// Renames the file of a message file into the message files of the shelf's own desk.
    fn move_to_quarantine(&mut self, message_file: &MessageFile, file: &str) -> io::Result<()> {
        let shelf = self.shelf;
        let own = shelf.own_desk(self.alloc)?;
        self.hand_over(message_file, file, own)
    }

    /// Renames the file of a message file into the message files of `desk`. If another run has removed their folder, it
    /// makes it again.
    fn hand_over(
        &mut self,
        message_file: &MessageFile,
        file: &str,
        desk: String,
    ) -> io::Result<()> {
        let place = self.place_of(file, desk)?;
        match self.rename_into(place, message_file, file) {
            Err(error) if error.kind() == ErrorKind::NotFound => {
                self.renew(place)?;
                self.rename_into(place, message_file, file)
            }
            renamed => renamed,
        }
    }

    /// Renames the file of a message file into the folder with the index `place` in `boxes`.
    fn rename_into(&self, place: usize, message_file: &MessageFile, file: &str) -> io::Result<()> {
        let Some(sorted) = self.boxes.get(place) else {
            return Ok(());
        };
        match path_of(self.alloc, sorted.run.as_str(), &message_file.name)? {
            Some(path) => fs::rename(self.rt, file, path.as_str()),
            None => Ok(()),
        }
    }

    /// Returns the index in `boxes` of the folder into which `file` is renamed for `desk`. Files from different folders
    /// go to different folders. A folder is made for its first file.
    fn place_of(&mut self, file: &str, desk: String) -> io::Result<usize> {
        let from = Path::new(file)
            .parent()
            .map(|folder| folder.as_str())
            .unwrap_or_default();
        let known = self.boxes.iter().position(|sorted| sorted.desk == desk
            && sorted.from.as_str() == from);
        if let Some(place) = known {
            return Ok(place);
        }
        let run = self.run_at(desk.as_str())?;
        let from = String::from_str(self.alloc, from)?;
        self.boxes.push(SortedBox { desk, from, run })?;
        Ok(self.boxes.len().saturating_sub(1))
    }

    /// Makes the folder with the index `place` in `boxes` again, with another path.
    fn renew(&mut self, place: usize) -> io::Result<()> {
        let run = match self.boxes.get(place) {
            Some(sorted) => self.run_at(sorted.desk.as_str())?,
            None => return Ok(()),
        };
        if let Some(sorted) = self.boxes.get_mut(place) {
            sorted.run = run;
        }
        Ok(())
    }

    /// Makes a new folder for message files that go to `desk`, and returns its path.
    fn run_at(&self, desk: &str) -> io::Result<String> {
        let claiming_folder = ClaimingFolder::open(self.rt, self.alloc, desk, desk)?;
        new_run(self.rt, self.alloc, &claiming_folder)
    }

    /// Writes a line with the reason why `message_file` for `desk` is given back. The desk is lost, or this run may
    /// make no more.
    fn print_back<E: Write>(
        &mut self,
        message_file: &MessageFile,
        home: Home,
        desk: String,
        errors: &mut E,
    ) -> io::Result<()> {
        self.is_waiting = true;
        match home {
            Home::Lost => self.print_lost(desk, errors),
            _ => {
                self.leave(&message_file.name, NO_ROOM, errors);
                Ok(())
            }
        }
    }

    /// Writes a line about a message file that waits for the next run.
    fn leave<E: Write>(&mut self, name: &[u8], text: &str, errors: &mut E) {
        self.is_waiting = true;
        warn(self.alloc, name, text, errors);
    }
}

/// Makes the desk of a group at the path `desk`. If the desk exists, that is no failure. Fails if the group is retired.
pub fn make_desk<T: LockFiles>(
    rt: &T,
    alloc: Global,
    role: Role,
    desk: &str,
) -> Result<(), ToolFault>
    ensures { IfErr result IsOpenFault }
{
    let held = lock(rt, alloc, desk)?;
    let made = make_under_lock(rt, alloc, role, desk);
    drop(held);
    made
}

/// Does what `make_desk` does, under the lock of the desk's file.
fn make_under_lock<T: Files>(rt: &T, alloc: Global, role: Role, desk: &str) -> Result<(), ToolFault>
    ensures { IfErr result IsOpenFault }
{
    refuse_retired(rt, alloc, desk)?;
    let store = FileStore::at(rt, alloc, desk, RECORD_LIMIT)?;
    match run_desk_new(alloc, store, role, &mut sink()) {
        Ok(_) | Err((ToolFault::Desk(DeskFault::Exists), _)) => Ok(()),
        Err((ToolFault::OutOfMemory, _)) => Err(ToolFault::OutOfMemory),
        Err(_) => Err(STORE_FAILED),
    }
}

/// Returns the error of a desk that could not be made.
fn error_of(fault: ToolFault) -> io::Error {
    match fault {
        ToolFault::OutOfMemory => ErrorKind::OutOfMemory.into(),
        _ => ErrorKind::Other.into(),
    }
}
