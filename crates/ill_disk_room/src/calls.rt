//! The calls of a room, by those of a run on a disk.

ghost use Rattle.std.specs.Prelude.{◌≡◌, IfErr, OnOk};
ghost use Rattle.ill_room.specs.Room.{Answers, GivesBack, Keeps, Moves, is_correct_room};
ghost use Rattle.ill_room.specs.declared.room.Place.TheVariants as places;
ghost use Rattle.ill_message_disk.specs.Runs.{AnyMessageFile, AreKept, MessageFilesSurvive, run_state};
ghost use Rattle.ill_disk_room.specs.DiskRooms.{Agree, room_state};
ghost use Rattle.ill_text.specs.Fault.{IsFileFault};

use ill_disk::DiskFault;
use ill_message_disk::{MessageDisk, MessageRun};
use ill_night::verdict::{Unfit, push_unfit};
use ill_text::fault::{STORE_FAILED, ToolFault};
use std::alloc::Global;

/// Returns the answer of a room for the answer of its run. If the run's memory ran out, so did the room's. Each other
/// fault becomes `STORE_FAILED`.
fn answer_of(answer: Result<(), DiskFault>) -> Result<(), ToolFault>
    ensures agree { Agree answer result }
    ensures faults { IfErr result IsFileFault }
{
    match answer {
        Ok(()) => Ok(()),
        Err(DiskFault::OutOfMemory) => Err(ToolFault::OutOfMemory),
        Err(DiskFault::Failed | DiskFault::NotFound | DiskFault::TooLarge) => Err(STORE_FAILED),
    }
}

/// Flushes the claimed name of each message file of which a run takes care, so that each crash leaves these message
/// files. Fails if a file does not stand at its claimed path, or a flush fails.
pub(crate) fn flush_claims_of<D: MessageDisk>(run: &mut MessageRun<D>) -> Result<(), ToolFault>
    ensures kept { OnOk result (AreKept D.state run.new) }
    ensures faults { IfErr result IsFileFault }
    ensures message_files { run.new.spots ≡ run.old.spots }
    ensures correct { (D.state run.new.disk).is_correct ≡ (D.state run.old.disk).is_correct }
{
    match run.flush_claims() {
        Ok(()) => Ok(()),
        Err(fault) => answer_of(Err(fault)),
    }
}

/// Removes message file `number` of a run. A message file that is not claimed stays.
pub(crate) fn remove_from<D: MessageDisk>(
    run: &mut MessageRun<D>,
    number: usize,
) -> Result<(), ToolFault>
    ensures moves { Answers is_correct_room (Moves places.Gone number) (room_state D.state run.old) result
        (room_state D.state run.new) }
    ensures faults { IfErr result IsFileFault }
    ensures survive { MessageFilesSurvive D.state (λ other. other ≡ number → ⊥) run.old run.new }
    ensures kept { AreKept D.state run.old → AreKept D.state run.new }
{
    answer_of(run.remove(number))
}

/// Quarantines message file `number` of a run, with the line `why`.
fn quarantine_from<D: MessageDisk>(
    run: &mut MessageRun<D>,
    number: usize,
    why: &[u8],
) -> Result<(), ToolFault>
    ensures moves { Answers is_correct_room (Moves places.Quarantined number) (room_state D.state run.old) result
        (room_state D.state run.new) }
    ensures faults { IfErr result IsFileFault }
    ensures survive { MessageFilesSurvive D.state AnyMessageFile run.old run.new }
    ensures kept { AreKept D.state run.old → AreKept D.state run.new }
{
    answer_of(run.quarantine(number, why))
}

/// Returns the line that tells `unfit`, the reason why a message file is quarantined.
fn reason_of(alloc: Global, unfit: Unfit) -> Result<Vec<u8>, ToolFault>
    ensures { IfErr result IsFileFault }
{
    let mut why = Vec::new(alloc);
    push_unfit(&mut why, unfit)?;
    why.push(b'\n')?;
    Ok(why)
}

/// Quarantines message file `number` of a run, with the line of the reason `unfit`. If memory runs out for
/// the line, changes nothing.
#[tactic(auto, using(crate::proofs::RoomOnDisk::fails_in_room, crate::proofs::RoomOnDisk::all_survive))]
pub(crate) fn quarantine_unfit<D: MessageDisk>(
    alloc: Global,
    run: &mut MessageRun<D>,
    number: usize,
    unfit: Unfit,
) -> Result<(), ToolFault>
    ensures moves { Answers is_correct_room (Moves places.Quarantined number) (room_state D.state run.old) result
        (room_state D.state run.new) }
    ensures faults { IfErr result IsFileFault }
    ensures survive { MessageFilesSurvive D.state AnyMessageFile run.old run.new }
    ensures kept { AreKept D.state run.old → AreKept D.state run.new }
{
    match reason_of(alloc, unfit) {
        Ok(why) => quarantine_from(run, number, &why),
        Err(fault) => Err(fault),
    }
}

/// Gives message file `number` of a run back to the folder from which it was claimed. If another message file
/// of its name has come there, or is in the run, it stays claimed.
pub(crate) fn give_back_from<D: MessageDisk>(
    run: &mut MessageRun<D>,
    number: usize,
) -> Result<(), ToolFault>
    ensures moves { Answers is_correct_room (GivesBack number) (room_state D.state run.old) result
        (room_state D.state run.new) }
    ensures faults { IfErr result IsFileFault }
    ensures survive { MessageFilesSurvive D.state AnyMessageFile run.old run.new }
    ensures kept { AreKept D.state run.old → AreKept D.state run.new }
{
    answer_of(run.give_back(number))
}

/// Keeps `asked`, messages that ask, in a run.
pub(crate) fn keep_asked_in<D: MessageDisk>(
    run: &mut MessageRun<D>,
    asked: &[u8],
) -> Result<(), ToolFault>
    ensures keeps { Answers is_correct_room (Keeps asked.now) (room_state D.state run.old) result
        (room_state D.state run.new) }
    ensures faults { IfErr result IsFileFault }
    ensures survive { MessageFilesSurvive D.state AnyMessageFile run.old run.new }
    ensures kept { AreKept D.state run.old → AreKept D.state run.new }
{
    answer_of(run.keep_asked(asked))
}

/// Removes those of `folders` that are empty.
pub(crate) fn remove_folders<D: MessageDisk>(run: &mut MessageRun<D>, folders: &[Vec<u8>])
    ensures state { run_state D.state run.new ≡ run_state D.state run.old }
    ensures disk { D.state run.new.disk ≡ D.state run.old.disk }
    ensures message_files { run.new.spots ≡ run.old.spots }
{
    for folder in folders {
        run.remove_folder(folder);
    }
}
