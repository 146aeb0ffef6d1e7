//! A room on a disk.

ghost use Rattle.std.specs.Prelude.{◌≡◌, IfErr, IfOk};
ghost use Rattle.ill_room.specs.Room.{Answers, GivesBack, Keeps, Moves, is_correct_room};
ghost use Rattle.ill_room.specs.declared.room.Place.TheVariants as places;
ghost use Rattle.ill_message_disk.specs.Runs as runs;
ghost use Rattle.ill_message_disk.specs.Runs.{AnyMessageFile, AreKept, MessageFilesSurvive};
ghost use Rattle.ill_disk_room.specs.DiskRooms.{room_state};
ghost use Rattle.ill_text.specs.Fault.{IsFileFault};

use crate::calls::{
    flush_claims_of, give_back_from, keep_asked_in, quarantine_unfit, remove_folders, remove_from,
};
use ill_message_disk::{MessageDisk, MessageRun};
use ill_night::person::print_for_person;
use ill_night::verdict::{MessageFile, Unfit, Verdict};
use ill_room::room::Room;
use ill_saved::Role;
use ill_text::fault::ToolFault;
use ill_text::warning::warn;
use std::alloc::Global;
use std::io::Write;
use std::marker::Model;

/// The text about the file of the messages that ask, after the path of the desk's file.
const NOT_ASKED: &str = ".mail/asked cannot be read or written";

/// The room of the message files of a run on a disk. The place of a message file is where its file has a name on the
/// disk.
///
/// The room is as correct as its disk. Before and after each call each crash leaves each message file a name, unless it
/// is gone. During a call no crash loses a message file, but the one that `remove` removes.
#[derive(Drop)]
pub struct DiskRoom<'a, D: MessageDisk> {
    alloc: Global,
    run: MessageRun<D>,
    /// The path of the desk's file, for lines about faults.
    file: &'a [u8],
    /// The message files of the run, if a line is written about each that wants a person.
    printed: Option<&'a [MessageFile]>,
    /// The folders of runs, which are removed if they are empty.
    folders: &'a [Vec<u8>],
}

// The value of a room is its run. By the invariant each message file of the run is gone, or each crash leaves it.
impl<'a, D: MessageDisk> Model for DiskRoom<'a, D> {
    ghost Value = { runs.MessageRunOf D };

    ghost view = { λ r. r.run };

    ghost invariant = { λ r. AreKept D.state r.run };
}

impl<'a, D: MessageDisk + Drop> DiskRoom<'a, D> {
    /// Returns the room of the message files of `run`, after it has flushed the claimed name of each. Fails if a
    /// message file does not stand at its claimed path, or a flush fails. Lines about faults name `file`. If there are
    /// message files `printed`, the room writes a line about each of them that wants a person. `clear` removes those of
    /// `folders` that are empty.
    pub fn at(
        alloc: Global,
        run: MessageRun<D>,
        file: &'a [u8],
        printed: Option<&'a [MessageFile]>,
        folders: &'a [Vec<u8>],
    ) -> Result<DiskRoom<'a, D>, ToolFault>
        ensures message_files { IfOk result (λ room. room.spots ≡ run.spots) }
        ensures correct { IfOk result (λ room. (D.state room.disk).is_correct ≡ (D.state run.disk).is_correct) }
        ensures faults { IfErr result IsFileFault }
    {
        let mut run = run;
        match flush_claims_of(&mut run) {
            Ok(()) => Ok(DiskRoom {
                alloc,
                run,
                file,
                printed,
                folders,
            }),
            Err(fault) => Err(fault),
        }
    }
}

impl<'a, D: MessageDisk> DiskRoom<'a, D> {
    /// Returns the run, to look at.
    pub fn run(&self) -> &MessageRun<D>
        ensures run { result.now ≡ self.now }
        ensures kept { AreKept D.state self.now }
    {
        &self.run
    }
}

/// Writes a line about the messages that ask at the desk in `file`, if `kept` is a fault other than a lack of memory.
/// `kept` is the answer of the call that was to keep them.
fn warn_unless_kept<E: Write>(
    alloc: Global,
    file: &[u8],
    kept: Result<(), ToolFault>,
    errors: &mut E,
) {
    match kept {
        Ok(()) | Err(ToolFault::OutOfMemory) => {}
        Err(_) => warn(alloc, file, NOT_ASKED, errors),
    }
}

/// Each call that moves a message file, keeps messages or removes folders is a call of the run. On a correct disk these
/// calls do all that `Room` asks. `print_for_person` writes lines about the message files `printed`, if there are any.
impl<'a, D: MessageDisk> Room for DiskRoom<'a, D> {
    ghost state = { λ room. room_state D.state room };

    fn remove(&mut self, number: usize) -> Result<(), ToolFault>
        ensures moves { Answers is_correct_room (Moves places.Gone number) (room_state D.state self.old) result
            (room_state D.state self.new) }
        ensures faults { IfErr result IsFileFault }
        ensures survive { MessageFilesSurvive D.state (λ other. other ≡ number → ⊥) self.old self.new }
    {
        remove_from(&mut self.run, number)
    }

    fn quarantine(&mut self, number: usize, unfit: Unfit) -> Result<(), ToolFault>
        ensures moves { Answers is_correct_room (Moves places.Quarantined number) (room_state D.state self.old) result
            (room_state D.state self.new) }
        ensures faults { IfErr result IsFileFault }
        ensures survive { MessageFilesSurvive D.state AnyMessageFile self.old self.new }
    {
        quarantine_unfit(self.alloc, &mut self.run, number, unfit)
    }

    fn give_back(&mut self, number: usize) -> Result<(), ToolFault>
        ensures moves { Answers is_correct_room (GivesBack number) (room_state D.state self.old) result
            (room_state D.state self.new) }
        ensures faults { IfErr result IsFileFault }
        ensures survive { MessageFilesSurvive D.state AnyMessageFile self.old self.new }
    {
        give_back_from(&mut self.run, number)
    }

    fn keep_asked<E: Write>(&mut self, asked: &[u8], errors: &mut E) -> Result<(), ToolFault>
        ensures keeps { Answers is_correct_room (Keeps asked.now) (room_state D.state self.old) result
            (room_state D.state self.new) }
        ensures faults { IfErr result IsFileFault }
        ensures survive { MessageFilesSurvive D.state AnyMessageFile self.old self.new }
    {
        let kept = keep_asked_in(&mut self.run, asked);
        warn_unless_kept(self.alloc, self.file, kept, errors);
        kept
    }

    fn print_for_person<E: Write>(&self, role: Role, verdicts: &[Verdict], errors: &mut E) {
        if let Some(message_files) = self.printed {
            print_for_person(self.alloc, role, message_files, verdicts, errors);
        }
    }

    fn clear(&mut self)
        ensures { room_state D.state self.new ≡ room_state D.state self.old }
    {
        remove_folders(&mut self.run, self.folders);
    }
}
