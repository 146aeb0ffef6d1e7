//! The room of a desk's message files.

ghost use Rattle.std.specs.Prelude.{◌≡◌, IfErr};
ghost use Rattle.ill_room.specs.Room.{Answers, GivesBack, Keeps, Moves, RoomState, is_correct_room};
ghost use Rattle.ill_room.specs.declared.room.Place.TheVariants as places;
ghost use Rattle.ill_text.specs.Fault.{IsFileFault};

use ill_night::verdict::{Unfit, Verdict};
use ill_saved::Role;
use ill_text::fault::ToolFault;
use std::io::Write;

/// The place of a message file that a run has found.
#[derive(Clone, Copy, Debug, PartialEq, Eq, Hash)]
pub enum Place {
    /// In its folder, where it waits for the next run.
    Waiting,
    /// Among the message files that the run has claimed.
    Claimed,
    /// Quarantined, for a person.
    Quarantined,
    /// Removed.
    Gone,
}

/// The room of a desk's message files: the message files that a run has found, and the messages that ask.
///
/// A message file is known by its number in the run, from 0 on. A message file that is not claimed stays where it is. A
/// call that is done has done as its clause says. A call that failed has done so too, or has changed nothing. The
/// clauses say this of a correct room alone. A fault is `STORE_FAILED`, or memory ran out.
pub trait Room {
    /// Returns the state: the place of each message file, and the messages that ask. Its part `is_correct` is true if
    /// the room does as it answers.
    ghost state: { Self → RoomState };

    /// Removes message file `number`.
    fn remove(&mut self, number: usize) -> Result<(), ToolFault>
        ensures moves { Answers is_correct_room (Moves places.Gone number) (state self.old) result (state self.new) }
        ensures faults { IfErr result IsFileFault };

    /// Quarantines message file `number` for a person, with the reason `unfit`.
    fn quarantine(&mut self, number: usize, unfit: Unfit) -> Result<(), ToolFault>
        ensures moves { Answers is_correct_room (Moves places.Quarantined number) (state self.old) result (state self.new) }
        ensures faults { IfErr result IsFileFault };

    /// Gives message file `number` back to the folder from which it was claimed. If another message file of
    /// its name has come there, it stays claimed.
    fn give_back(&mut self, number: usize) -> Result<(), ToolFault>
        ensures moves { Answers is_correct_room (GivesBack number) (state self.old) result (state self.new) }
        ensures faults { IfErr result IsFileFault };

    /// Keeps `asked`, messages that ask, one after another. They replace the ones of the run before. If that fails, a
    /// line to `errors` tells it.
    fn keep_asked<E: Write>(&mut self, asked: &[u8], errors: &mut E) -> Result<(), ToolFault>
        ensures keeps { Answers is_correct_room (Keeps asked.now) (state self.old) result (state self.new) }
        ensures faults { IfErr result IsFileFault };

    /// Writes a line to `errors` for each message file of the run that wants a person. A message file does by its
    /// verdict among `verdicts`, at a desk of the role `role`. A room that has no message files to tell of writes
    /// nothing.
    fn print_for_person<E: Write>(&self, role: Role, verdicts: &[Verdict], errors: &mut E);

    /// Removes what the run has made in the room and what is empty now. Moves no message file.
    fn clear(&mut self)
        ensures { state self.new ≡ state self.old };
}
