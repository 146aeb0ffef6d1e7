//! The settling of the files of message files, after a run has saved their messages.

ghost use Rattle.std.specs.Prelude.{slice_get, IfErr};
ghost use Rattle.ill_room.specs.Room.{Answers, EndsRun, SettlesAs, SettlesAt, SettlesEach, SettlesOne, is_correct_room};
ghost use Rattle.ill_text.specs.Fault.{IsFileFault};

use crate::room::Room;
use ill_night::verdict::{MessageFile, Verdict};
use ill_text::fault::{STORE_FAILED, ToolFault};
use ill_text::warning::warn;
use std::alloc::Global;
use std::io::Write;

/// The text about a message file whose file could not be removed, quarantined or given back.
const STUCK: &str = " is not settled, and stays among the mails that were claimed";

/// The message files of a run, and the verdict of each.
#[derive(Clone, Copy)]
pub struct Judged<'a> {
    /// The message files.
    pub message_files: &'a [MessageFile],
    /// The verdicts, in the order of the message files.
    pub verdicts: &'a [Verdict],
}

/// Ends a run: keeps `asked`, the messages that ask, and then settles the files of the message files as
/// `settle_message_files` does.
#[tactic(auto, using(crate::proofs::RoomLemmas::run_unkept, crate::proofs::RoomLemmas::run_kept))]
pub fn end_run<R: Room, E: Write>(
    alloc: Global,
    room: &mut R,
    judged: Judged<'_>,
    asked: &[u8],
    errors: &mut E,
) -> Result<(), ToolFault>
    ensures ends { Answers is_correct_room (EndsRun asked.now judged.entry.verdicts.now) (R.state room.old) result (R.state room.new) }
    ensures faults { IfErr result IsFileFault }
{
    match room.keep_asked(asked, errors) {
        Ok(()) => settle_message_files(alloc, room, judged, errors),
        Err(fault) => Err(fault),
    }
}

/// Settles the file of each message file by its verdict. It removes the file of a done message file, and quarantines a
/// message file that no desk will ever take. It gives the others back to their folder. If that fails for a file, a line
/// to `errors` names its message file, and the further files are settled. The call then fails with `STORE_FAILED`. If
/// memory runs out, all further files stay.
fn settle_message_files<R: Room, E: Write>(
    alloc: Global,
    room: &mut R,
    judged: Judged<'_>,
    errors: &mut E,
) -> Result<(), ToolFault>
    ensures settles { Answers is_correct_room (SettlesAs judged.entry.verdicts.now) (R.state room.old) result (R.state room.new) }
    ensures faults { IfErr result IsFileFault }
{
    match settle_each(alloc, room, judged, errors) {
        Ok(all_done) => {
            room.clear();
            if all_done { Ok(()) } else { Err(STORE_FAILED) }
        }
        Err(fault) => Err(fault),
    }
}

/// Settles the file of each message file, and returns true if no call failed. Writes a line to `errors` for each
/// message file whose call failed. If memory runs out, it fails, and all further files stay.
#[tactic(auto, using(crate::proofs::RoomLemmas::none_settled, crate::proofs::RoomLemmas::each_settled))]
fn settle_each<R: Room, E: Write>(
    alloc: Global,
    room: &mut R,
    judged: Judged<'_>,
    errors: &mut E,
) -> Result<bool, ToolFault>
    ensures settles { Answers is_correct_room (SettlesEach judged.entry.verdicts.now) (R.state room.old) result (R.state room.new) }
    ensures faults { IfErr result IsFileFault }
{
    let mut all_done = true;
    for number in 0..judged.verdicts.len() {
        match settle_at(room, number, judged.verdicts) {
            Ok(()) => {}
            Err(ToolFault::OutOfMemory) => return Err(ToolFault::OutOfMemory),
            Err(_) => {
                warn_of_stuck(alloc, judged.message_files, number, errors);
                all_done = false;
            }
        }
    }
    Ok(all_done)
}

/// Writes a line to `errors` about message file `number` of `message_files`, which could not be settled.
/// Without such a message file, writes nothing.
fn warn_of_stuck<E: Write>(
    alloc: Global,
    message_files: &[MessageFile],
    number: usize,
    errors: &mut E,
) {
    if let Some(stuck) = message_files.get(number) {
        warn(alloc, &stuck.name, STUCK, errors);
    }
}

/// Settles the file of message file `number` by its verdict among `verdicts`. Without a verdict, does
/// nothing.
fn settle_at<R: Room>(room: &mut R, number: usize, verdicts: &[Verdict]) -> Result<(), ToolFault>
    ensures settles { Answers is_correct_room (SettlesAt number (slice_get verdicts.now number)) (R.state room.old) result
        (R.state room.new) }
    ensures faults { IfErr result IsFileFault }
{
    match verdicts.get(number) {
        Some(verdict) => settle(room, number, *verdict),
        None => Ok(()),
    }
}

/// Settles the file of message file `number` by `verdict`: removes it, quarantines it or gives it back.
fn settle<R: Room>(room: &mut R, number: usize, verdict: Verdict) -> Result<(), ToolFault>
    ensures settles { Answers is_correct_room (SettlesOne number verdict) (R.state room.old) result (R.state room.new) }
    ensures faults { IfErr result IsFileFault }
{
    match verdict {
        Verdict::Done(_) => room.remove(number),
        Verdict::Quarantined(unfit) => room.quarantine(number, unfit),
        Verdict::Deferred(_) => room.give_back(number),
    }
}
