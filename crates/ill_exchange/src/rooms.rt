//! A night in its rooms: message files are taken and settled, the desk is copied, and its messages are sent. No file is
//! named here.

ghost use Rattle.std.specs.Prelude.{◌≡◌, Ok, Result, option_map};
ghost use Rattle.std.specs.List.{zip};
ghost use Rattle.ill_desk.specs.Performing.{command_state, view_of, with_kept};
ghost use Rattle.ill_exchange.specs.Nights.{EndsAfterSending, EntersDueDeeds, FinishesNight, PerformsDueDeeds, SendsAll, SendsAsked, SettlesRun, night_ending};
ghost use Rattle.ill_exchange.specs.Rooms.{asked_in, NightInRooms, NightOver, PutsAsked, SendsAfter, SendsInRooms, SendsThenSigns, TakesFound, TakesInRoom, night_of, out_state, rooms_state};
ghost use Rattle.ill_inbox.specs.Inbox.{Succeeded, answered_with, arrived_of};
ghost use Rattle.ill_night.specs.Outbox.{asked_by};
ghost use Rattle.ill_room.specs.Room.{Answers};
ghost use Rattle.ill_room.specs.Backup.{Signs, is_correct_backup};
ghost use Rattle.ill_room.specs.Sealed.{PutsWith, sealing_of};
ghost use Rattle.ill_text.specs.declared.fault.ToolFault.{ToolFault};
ghost use Rattle.ill_text.specs.Diary.{diary_state};

use ill_files::machine::Machine;
use ill_inbox::dates::{DatesRun, run_desk_dates_entered};
use ill_inbox::deed_diary::DeedDiary;
use ill_inbox::inbox::run_desk_inbox;
use ill_inbox::objects::sent_text;
use ill_inbox::tally::Tally;
use ill_night::asked::asked_by;
use ill_night::night::Dates;
use ill_night::outgoing::Outgoing;
use ill_night::person::wants_person;
use ill_night::verdict::{Batch, Verdict};
use ill_room::backup::Backup;
use ill_room::letters::file_verdicts;
use ill_room::room::Room;
use ill_room::sealed::{Seal, run_outbox_with};
use ill_room::settle::{Judged, end_run};
use ill_saved::{Desk, Store};
use ill_text::fault::ToolFault;
use ill_text::form::Form;
use ill_text::output::write_and_flush;
use ill_values::Day;
use std::alloc::Global;
use std::io::Write;

/// The rooms of a night.
#[derive(Drop)]
pub struct Rooms<R: Room, B: Backup, O: Outgoing, D> {
    /// The message files that have come.
    pub incoming: R,
    /// The diary of the deeds of the day.
    pub diary: DeedDiary<D>,
    /// The copy of the desk, and the sign of life.
    pub backup: B,
    /// The outlet of the messages that leave.
    pub out: O,
}

/// The work of a night.
#[derive(Clone, Copy)]
pub struct Plan<'a> {
    /// The message files of the run. A room knows them by their places in this batch.
    pub batch: Batch<'a>,
    /// The day of the run, and the deeds that it makes a responder do.
    pub dates: Option<(Day, Dates)>,
    /// The key and the sender of the letters in which the messages leave, if there is a key.
    pub seal: Option<Seal<'a>>,
}

/// Performs a night of `desk` in `rooms`. It takes the message files of `plan`, and performs the deeds of its day. Then
/// it copies the desk, sends its messages, and gives a sign of life. Messages that came are written to `came`. Returns
/// true if no message file wants a person, and false if one does. Fails with `Deferred` if message files wait.
///
/// The message files of a letter share its file, which is settled by the worst of their verdicts. The desk is saved
/// with all that the message files have brought. Only then is the file of a message file removed, quarantined or given
/// back. If the message files cannot be taken, nothing is sent. If the copy fails, nothing is sent. The sign of life is
/// given only after all messages were sent. All this holds whichever call fails.
pub fn night_in<
    T,
    S: Store,
    R: Room,
    B: Backup,
    O: Outgoing,
    D: Write,
    F: Write,
    W: Write,
    E: Write,
>(
    machine: &mut Machine<'_, T, W, E>,
    desk: &mut Desk<S>,
    rooms: &mut Rooms<R, B, O, D>,
    plan: &Plan<'_>,
    came: &mut F,
) -> Result<bool, ToolFault>
    ensures over { NightOver (arrived_of plan.now.batch) plan.now.dates
        (with_kept (F.contents came.old) (command_state (view_of S.state desk.old) (W.contents machine.old.writer))) result
        (with_kept (F.contents came.new) (command_state (view_of S.state desk.new) (W.contents machine.new.writer))) }
    ensures rooms { NightInRooms (PutsWith O.after (option_map sealing_of plan.now.seal)) plan.now.batch.message_files.now (view_of S.state desk.new)
        (rooms_state R.state B.state O.message_files rooms.old) (rooms_state R.state B.state O.message_files rooms.new) }
{
    match take_in(machine, desk, &mut rooms.incoming, &plan.batch, came) {
        Ok(verdicts) => finish_in(machine, desk, rooms, plan, &verdicts),
        Err(fault) => Err(fault),
    }
}

/// Takes the message files of `batch` at `desk`, and then settles their files in `room`, only after the desk is saved.
/// Messages that came are written to `came`. Returns the verdict of each message file.
pub fn take_in<T, S: Store, R: Room, F: Write, W: Write, E: Write>(
    machine: &mut Machine<'_, T, W, E>,
    desk: &mut Desk<S>,
    room: &mut R,
    batch: &Batch<'_>,
    came: &mut F,
) -> Result<Vec<Verdict>, ToolFault>
    ensures takes { TakesFound (arrived_of batch.now)
        (with_kept (F.contents came.old) (command_state (view_of S.state desk.old) (W.contents machine.old.writer)))
        (answered_with (λ verdicts. night_of (arrived_of batch.now) verdicts.items) result)
        (with_kept (F.contents came.new) (command_state (view_of S.state desk.new) (W.contents machine.new.writer))) }
    ensures room { TakesInRoom batch.now.message_files.now (view_of S.state desk.new) (R.state room.old)
        (answered_with (λ verdicts. verdicts.items) result) (R.state room.new) }
{
    match run_desk_inbox(machine.alloc, desk, batch, came, &mut machine.writer) {
        Ok(verdicts) => settle_run(machine, desk, room, batch, verdicts),
        Err(fault) => Err(fault),
    }
}

/// Ends a run over the message files of `batch`, and returns their `verdicts`. It tells a person of the message files
/// that want one, keeps the messages that ask, and then settles the files.
fn settle_run<T, S: Store, R: Room, W: Write, E: Write>(
    machine: &mut Machine<'_, T, W, E>,
    desk: &Desk<S>,
    room: &mut R,
    batch: &Batch<'_>,
    verdicts: Vec<Verdict>,
) -> Result<Vec<Verdict>, ToolFault>
    requires ended { Succeeded batch.now.message_files.now verdicts.items (view_of S.state desk.now) }
    ensures settles { SettlesRun batch.now.message_files.now batch.now.waiting (Ok verdicts.items)
        (answered_with (λ verdicts. night_of (arrived_of batch.now) verdicts.items) result) }
    ensures room { TakesInRoom batch.now.message_files.now (view_of S.state desk.now) (R.state room.old)
        (answered_with (λ verdicts. verdicts.items) result) (R.state room.new) }
    ensures silent { machine.new.writer ≡ machine.old.writer }
{
    room.print_for_person(desk.sides().role(), &verdicts, &mut machine.errors);
    let asked = asked_by(machine.alloc, desk, batch.message_files, &verdicts)?;
    let settled = file_verdicts(machine.alloc, batch.message_files, &verdicts)?;
    let judged = Judged {
        message_files: batch.message_files,
        verdicts: &settled,
    };
    match end_run(machine.alloc, room, judged, &asked, &mut machine.errors) {
        Ok(()) => Ok(verdicts),
        Err(fault) => Err(fault),
    }
}

/// Performs the deeds of the day, copies the desk, and sends its messages. The message files were taken before, with
/// `verdicts`. The result is that of `night_in`.
fn finish_in<T, S: Store, R: Room, B: Backup, O: Outgoing, D: Write, W: Write, E: Write>(
    machine: &mut Machine<'_, T, W, E>,
    desk: &mut Desk<S>,
    rooms: &mut Rooms<R, B, O, D>,
    plan: &Plan<'_>,
    verdicts: &[Verdict],
) -> Result<bool, ToolFault>
    ensures finishes { FinishesNight (asked_in plan.now) (Ok (night_of (arrived_of plan.now.batch) verdicts.now))
        (command_state (view_of S.state desk.old) (W.contents machine.old.writer)) result
        (command_state (view_of S.state desk.new) (W.contents machine.new.writer)) }
    ensures sends { SendsAfter (PutsWith O.after (option_map sealing_of plan.now.seal)) plan.now.batch.message_files.now (Ok verdicts.now) desk.new.live
        (out_state B.state O.message_files rooms.old) (out_state B.state O.message_files rooms.new) }
    ensures incoming { rooms.new.incoming ≡ rooms.old.incoming }
{
    match act_on_dates(machine, desk, plan, &mut rooms.diary) {
        Ok(()) => send_in(machine, desk, rooms, plan, verdicts),
        Err(fault) => Err(fault),
    }
}

/// Performs the deeds that are due on the day of `plan`, if it has a day. Each done deed is entered in `diary` before
/// the save.
fn act_on_dates<T, S: Store, D: Write, W: Write, E>(
    machine: &mut Machine<'_, T, W, E>,
    desk: &mut Desk<S>,
    plan: &Plan<'_>,
    diary: &mut DeedDiary<D>,
) -> Result<(), ToolFault>
    ensures performs { PerformsDueDeeds plan.now.batch.form plan.now.dates
        (command_state (view_of S.state desk.old) (W.contents machine.old.writer)) result
        (command_state (view_of S.state desk.new) (W.contents machine.new.writer)) }
    ensures entered { EntersDueDeeds plan.now.dates diary.old.begin.items desk.old.live result
        (diary_state (D.contents diary.old.diary.stream) diary.old.diary.has_failed)
        (diary_state (D.contents diary.new.diary.stream) diary.new.diary.has_failed) }
{
    let Some((today, which)) = plan.dates else {
        return Ok(());
    };
    let dates = DatesRun {
        today,
        which,
        form: plan.batch.form,
    };
    run_desk_dates_entered(machine.alloc, desk, dates, diary, &mut machine.writer)
}

/// Copies the desk, and then sends its messages as `send_copied` does. If the copy fails, nothing is sent.
#[tactic(auto, using(crate::proofs::RoomsLemmas::sends_copied, crate::proofs::RoomsLemmas::sends_nothing))]
fn send_in<T, S: Store, R: Room, B: Backup, O: Outgoing, D, W: Write, E: Write>(
    machine: &mut Machine<'_, T, W, E>,
    desk: &Desk<S>,
    rooms: &mut Rooms<R, B, O, D>,
    plan: &Plan<'_>,
    verdicts: &[Verdict],
) -> Result<bool, ToolFault>
    ensures all { SendsAll plan.now.batch.form (night_of (arrived_of plan.now.batch) verdicts.now) desk.now.live
        (W.contents machine.old.writer) (W.contents machine.new.writer) result }
    ensures sends { SendsInRooms (PutsWith O.after (option_map sealing_of plan.now.seal)) (asked_by desk.now.live (zip plan.now.batch.message_files.now verdicts.now)) desk.now.live
        (out_state B.state O.message_files rooms.old) (out_state B.state O.message_files rooms.new) }
    ensures incoming { rooms.new.incoming ≡ rooms.old.incoming }
{
    match rooms.backup.copy(desk, &mut machine.errors) {
        Ok(()) => send_copied(machine, desk, rooms, plan, verdicts),
        Err(fault) => Err(fault),
    }
}

/// Sends the messages of the loans that want sending, and then gives a sign of life. If a deed of the day has ended a
/// loan, its messages are sent if a message of the loan came.
#[tactic(auto, using(crate::proofs::RoomsLemmas::signs_after, crate::proofs::RoomsLemmas::signs_never))]
fn send_copied<T, S: Store, R: Room, B: Backup, O: Outgoing, D, W: Write, E: Write>(
    machine: &mut Machine<'_, T, W, E>,
    desk: &Desk<S>,
    rooms: &mut Rooms<R, B, O, D>,
    plan: &Plan<'_>,
    verdicts: &[Verdict],
) -> Result<bool, ToolFault>
    ensures all { SendsAll plan.now.batch.form (night_of (arrived_of plan.now.batch) verdicts.now) desk.now.live
        (W.contents machine.old.writer) (W.contents machine.new.writer) result }
    ensures sends { SendsThenSigns (PutsWith O.after (option_map sealing_of plan.now.seal)) (asked_by desk.now.live (zip plan.now.batch.message_files.now verdicts.now)) desk.now.live
        (out_state B.state O.message_files rooms.old) (out_state B.state O.message_files rooms.new) }
    ensures incoming { rooms.new.incoming ≡ rooms.old.incoming }
{
    let asked = match asked_by(machine.alloc, desk, plan.batch.message_files, verdicts) {
        Ok(asked) => asked,
        Err(_) => return Err(ToolFault::OutOfMemory),
    };
    let sending = Sending {
        asking: &asked,
        seal: plan.seal,
        form: plan.batch.form,
    };
    match put_asked(machine, desk, sending, &mut rooms.out) {
        Ok(()) => sign(
            machine,
            &mut rooms.backup,
            ending(desk, &plan.batch, verdicts),
        ),
        Err(fault) => Err(fault),
    }
}

/// The arguments of a sending.
#[derive(Clone, Copy)]
pub(crate) struct Sending<'a> {
    /// The messages that ask, one after another.
    pub asking: &'a [u8],
    /// The key and the sender of the letters in which the messages leave, if there is a key.
    pub seal: Option<Seal<'a>>,
    /// The form in which the number of messages is printed.
    pub form: Form,
}

/// Puts the messages of the loans that want sending into `out`, and writes their number. They leave as `sending` says.
pub(crate) fn put_asked<T, S: Store, O: Outgoing, W: Write, E>(
    machine: &mut Machine<'_, T, W, E>,
    desk: &Desk<S>,
    sending: Sending<'_>,
    out: &mut O,
) -> Result<(), ToolFault>
    ensures sends { SendsAsked sending.entry.form sending.entry.asking.now desk.now.live.held (W.contents machine.old.writer)
        (W.contents machine.new.writer) result }
    ensures puts { PutsAsked (PutsWith O.after (option_map sealing_of sending.entry.seal)) sending.entry.asking.now desk.now.live (O.message_files out.old)
        (O.message_files out.new) result }
{
    let sent = run_outbox_with(machine.alloc, desk, sending.asking, sending.seal, out)?;
    let text = sent_text(machine.alloc, sending.form, sent)?;
    write_and_flush(&mut machine.writer, &text)
}

/// Gives a sign of life, and returns `ending`, the result of the night. If the sign fails, it returns that fault.
fn sign<T, B: Backup, W, E: Write>(
    machine: &mut Machine<'_, T, W, E>,
    backup: &mut B,
    ending: Result<bool, ToolFault>,
) -> Result<bool, ToolFault>
    ensures ends { EndsAfterSending ending (Ok tt) result }
    ensures signs { (answer : Result (Unit {0}) ToolFault) ×
        Answers is_correct_backup Signs (B.state backup.old) answer (B.state backup.new) }
    ensures silent { machine.new.writer ≡ machine.old.writer }
{
    match backup.sign(&mut machine.errors) {
        Ok(()) => ending,
        Err(fault) => Err(fault),
    }
}

/// Returns the result of a night: `Deferred` if message files wait, false if a message file wants a person, else true.
fn ending<S: Store>(
    desk: &Desk<S>,
    batch: &Batch<'_>,
    verdicts: &[Verdict],
) -> Result<bool, ToolFault>
    ensures { result ≡ night_ending desk.now.live.role (night_of (arrived_of batch.now) verdicts.now) }
{
    if Tally::of(verdicts).is_waiting(batch.waiting) {
        return Err(ToolFault::Deferred);
    }
    Ok(!wants_person(desk.sides().role(), batch.message_files, verdicts))
}
