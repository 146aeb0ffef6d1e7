//! The commands that exchange the messages of a desk by folders of message files: `inbox`, `outbox` and `exchange`.
//! Each holds the lock of the desk's file from before the load to its end.

ghost use Rattle.std.specs.Prelude.{◌≡◌, is_some, IfErr};
ghost use Rattle.ill_exchange.specs.Nights.{ExchangesAt, ExchangesAtFile, InboxAtFile, OutboxAtFile, SendsFrom, SendsOn, SendsTo, TakesMessageFiles, asked_night, ending_of, taken_of};
ghost use Rattle.ill_inbox.specs.Inbox.{answered_with};
ghost use Rattle.ill_desk.specs.Performing.{command_state, view_of};
ghost use Rattle.ill_text.specs.declared.form.Form.TheVariants as forms;
ghost use Rattle.ill_place.specs.Place.{place_of};
ghost use Rattle.ill_text.specs.Fault.{IsOpenFault};

use crate::backup::HostBackup;
use crate::outlet::Outlet;
use crate::rooms::{Plan, Rooms, Sending, night_in, take_in};
use crate::sending::send_asked;
use ill_files::came::{CameFile, open_came};
use ill_files::diary::{ReopenedDiary, RunDiary, open_run_diary, warn_of_diary};
use ill_files::machine::Machine;
use ill_files::open::all_succeed;
use ill_files::paths::folder_of;
use ill_folders::claiming_folder::{ClaimingFolder, MessageFilePaths, asked_bytes, open_box};
use ill_folders::fault_lines::{NO_BOX, NO_RUN, NOT_READ, report_fault_of_message_file};
use ill_folders::host_room::{HostRoom, NOT_ASKED};
use ill_folders::message_file::{
    Incoming, MessageFiles, Opening, Source, begin_run, claim_message_files, sorted_message_files,
};
use ill_folders::message_folder::MessageFolder;
use ill_folders::places::{Places, look_at_out, look_at_places};
use ill_inbox::deed_diary::DeedDiary;
use ill_inbox::tally::Tally;
use ill_key::Key;
use ill_key::role::{other_sender, own_sender};
use ill_night::night::Night;
use ill_night::outbox::run_desk_outbox_stream;
use ill_night::verdict::{Batch, Verdict};
use ill_place::place::{DeskFiles, DeskPlace};
use ill_room::sealed::Seal;
use ill_saved::{Desk, Role, Store};
use ill_text::diary::{WithDiary, begin_text};
use ill_text::fault::ToolFault;
use ill_text::form::Form;
use std::alloc::Global;
use std::io::Write;
use std::rt::Files;

/// The text after the path of a desk whose file of messages that came has failed.
const NO_CAME: &str = ".came cannot be read or written";

/// `ill inbox`: takes the message files of the folder of `incoming` at the desk of `place`. Returns true if no message
/// file was quarantined or in conflict. Fails with `Deferred` if message files wait for the next run.
pub fn inbox<T: Files, D: DeskFiles, W: Write, E: Write>(
    machine: &mut Machine<'_, T, W, E>,
    place: &DeskPlace<'_, D>,
    incoming: Incoming<'_, '_, '_>,
) -> Result<bool, ToolFault>
    ensures { InboxAtFile (place_of D.DeskStore.state place.now.path.now) (W.contents machine.old.writer)
        (W.contents machine.new.writer) result }
{
    let mut locked = place.open_locked(machine.alloc)?;
    let taken = take_message_files(machine, place.path, incoming, &mut locked.desk);
    drop(locked);
    end(taken)
}

/// The message files that a run has taken, with the verdict of each.
#[derive(Drop)]
struct Taken {
    found: MessageFiles,
    verdicts: Vec<Verdict>,
}

/// Returns the result of `inbox` by the message files that a run has `taken`. It is the fault `Deferred` if message
/// files wait. Else it is true if no message file was quarantined or in conflict.
fn end(taken: Result<Taken, ToolFault>) -> Result<bool, ToolFault>
    ensures { result ≡ ending_of (answered_with taken_of taken) }
{
    match taken {
        Ok(taken) => Tally::of(&taken.verdicts).ending(taken.found.waiting),
        Err(fault) => Err(fault),
    }
}

/// Takes the message files of `incoming` at `desk`, whose path is `file`. What came and the lines of the diary go to
/// the files beside that path. The files of message files are removed only after the desk is saved.
fn take_message_files<T: Files, S: Store, W: Write, E: Write>(
    machine: &mut Machine<'_, T, W, E>,
    file: &str,
    incoming: Incoming<'_, '_, '_>,
    desk: &mut Desk<S>,
) -> Result<Taken, ToolFault>
    ensures { TakesMessageFiles forms.Lines (command_state (view_of S.state desk.old) (W.contents machine.old.writer))
        (answered_with taken_of result)
        (command_state (view_of S.state desk.new) (W.contents machine.new.writer)) }
{
    let opened = open_message_files(machine, file, incoming, desk.sides().role())?;
    let OpenedMessageFiles {
        claiming_folder,
        mut came,
        diary,
        found,
    } = opened;
    let RunDiary {
        came: mut came_diary,
        begin,
    } = diary;
    drop(begin);
    let mut kept = WithDiary {
        came: &mut came,
        diary: &mut came_diary,
    };
    let batch = batch_of(&found, Form::Lines);
    let place = MessageFilePaths {
        file,
        folder: incoming.folder,
        is_sorted: incoming.is_sorted,
        claiming_folder: &claiming_folder,
    };
    let mut room = HostRoom::at(machine.rt, machine.alloc, place, &found, false);
    let taken = take_in(machine, desk, &mut room, &batch, &mut kept);
    warn_of_streams(machine, file, &came, came_diary.has_failed());
    match taken {
        Ok(verdicts) => Ok(Taken { found, verdicts }),
        Err(fault) => Err(fault),
    }
}

/// Returns the message files of a run as a batch, which is printed in the form `form`.
fn batch_of(found: &MessageFiles, form: Form) -> Batch<'_>
    ensures message_files { result.message_files.now ≡ found.now.message_files.items }
    ensures waiting { result.waiting ≡ found.now.waiting }
    ensures form { result.form ≡ form }
{
    Batch {
        message_files: &found.message_files,
        waiting: found.waiting,
        form,
    }
}

/// The message files of a desk, opened for a run.
#[derive(Drop)]
struct OpenedMessageFiles<F> {
    claiming_folder: ClaimingFolder,
    /// The file of the messages that came.
    came: CameFile<F>,
    /// The diary of the run.
    diary: RunDiary<F>,
    /// The message files that the run has found.
    found: MessageFiles,
}

/// Opens the folder of message files and the files beside the desk of `role` in `file`. Then it finds the message files
/// of `incoming`.
fn open_message_files<T: Files, W: Write, E: Write>(
    machine: &mut Machine<'_, T, W, E>,
    file: &str,
    incoming: Incoming<'_, '_, '_>,
    role: Role,
) -> Result<OpenedMessageFiles<T::File>, ToolFault>
    ensures faults { IfErr result IsOpenFault }
    ensures silent { machine.new.writer ≡ machine.old.writer }
{
    let claiming_folder = machine.report_fault_at(
        open_box(machine.rt, machine.alloc, file, file),
        file,
        NO_BOX,
    )?;
    let came = machine.report_fault_at(open_came(machine.rt, machine.alloc, file), file, NO_CAME)?;
    let begin = begin_text(machine.alloc, incoming.stamp);
    let diary = open_run_diary(machine.rt, machine.alloc, file, begin, &mut machine.errors);
    let place = MessageFilePaths {
        file,
        folder: incoming.folder,
        is_sorted: incoming.is_sorted,
        claiming_folder: &claiming_folder,
    };
    let found = find_message_files(machine, &place, incoming, role)?;
    Ok(OpenedMessageFiles {
        claiming_folder,
        came,
        diary,
        found,
    })
}

/// Writes a line to the errors if `came`, the file of the messages that came, has failed. It writes another if the
/// diary `is_incomplete`. Each begins with `file`, the path of the desk.
fn warn_of_streams<T, F, W, E: Write>(
    machine: &mut Machine<'_, T, W, E>,
    file: &str,
    came: &CameFile<F>,
    is_incomplete: bool,
)
    ensures { machine.new.writer ≡ machine.old.writer }
{
    warn_of_diary(machine.alloc, file, is_incomplete, &mut machine.errors);
    if came.has_failed() {
        machine.warn(file, NO_CAME);
    }
}

/// Reads the message files of the desk of `role` at `place`. It claims them from the folder of `incoming`, unless a
/// shelf has sorted them to the desk.
fn find_message_files<T: Files, W: Write, E: Write>(
    machine: &mut Machine<'_, T, W, E>,
    place: &MessageFilePaths<'_>,
    incoming: Incoming<'_, '_, '_>,
    role: Role,
) -> Result<MessageFiles, ToolFault>
    ensures faults { IfErr result IsOpenFault }
    ensures silent { machine.new.writer ≡ machine.old.writer }
{
    if incoming.is_sorted {
        let found = sorted_message_files(machine.rt, machine.alloc, place, role);
        return machine.report_fault_at(found, place.file, NO_BOX);
    }
    let run = begin_run(machine.rt, machine.alloc, place.claiming_folder);
    let run = machine.report_fault_at(run, place.file, NO_RUN)?;
    let source = Source {
        folder: place.folder,
        opening: open_with(incoming.key, role),
    };
    let found = claim_message_files(
        machine.rt,
        machine.alloc,
        place.claiming_folder,
        source,
        run.as_str(),
    );
    machine.report_fault_at(found, place.folder, NOT_READ)
}

/// Returns the key and the sender of the letters that come to a desk of this role, if there is a key.
fn open_with<'k>(key: Option<&'k Key>, role: Role) -> Option<Opening<'k>> {
    match key {
        Some(key) => Some(Opening {
            key,
            sender: other_sender(role),
        }),
        None => None,
    }
}

/// Returns the key and the sender of the letters that leave a desk of this role, if there is a key.
fn seal_with<'k>(key: Option<&'k Key>, role: Role) -> Option<Seal<'k>> {
    match key {
        Some(key) => Some(Seal {
            key,
            sender: own_sender(role),
        }),
        None => None,
    }
}

/// `ill outbox`: puts the messages of the loans that want sending into `folder`. Without a folder it writes them to the
/// output, one after another. Returns true, or the fault.
pub fn outbox<T: Files, D: DeskFiles, W: Write, E: Write>(
    machine: &mut Machine<'_, T, W, E>,
    place: &DeskPlace<'_, D>,
    folder: Option<Outlet<'_>>,
) -> Result<bool, ToolFault>
    ensures { OutboxAtFile (is_some folder.entry) (place_of D.DeskStore.state place.now.path.now)
        (W.contents machine.old.writer) (W.contents machine.new.writer) result }
{
    let locked = place.open_locked(machine.alloc)?;
    let sent = send_from(machine, place.path, &locked.desk, folder);
    drop(locked);
    all_succeed(sent)
}

/// Puts the messages of the loans that want sending at `desk` into `folder`. Without a folder it writes them to the
/// output, one after another. `file` is the path of the desk.
fn send_from<T: Files, S: Store, W: Write, E: Write>(
    machine: &mut Machine<'_, T, W, E>,
    file: &str,
    desk: &Desk<S>,
    folder: Option<Outlet<'_>>,
) -> Result<(), ToolFault>
    ensures { SendsFrom (is_some folder.entry) desk.now.live.held (W.contents machine.old.writer) (W.contents machine.new.writer) result }
{
    match folder {
        Some(folder) => send_into(machine, file, desk, folder),
        None => send_on(machine, file, desk),
    }
}

/// Writes the messages of the loans that want sending to the output, one after another. The messages that ask are read
/// beside the desk's path `file`.
fn send_on<T: Files, S: Store, W: Write, E: Write>(
    machine: &mut Machine<'_, T, W, E>,
    file: &str,
    desk: &Desk<S>,
) -> Result<(), ToolFault>
    ensures { SendsOn desk.now.live.held (W.contents machine.old.writer) (W.contents machine.new.writer) result }
{
    let asking = machine.report_fault_at(asking(machine.rt, machine.alloc, file), file, NOT_ASKED)?;
    run_desk_outbox_stream(machine.alloc, desk, &asking, &mut machine.writer)
}

/// Puts the messages of the loans that want sending into the folder of `outlet`, and writes their number. The messages
/// that ask are read beside the desk's path `file`.
fn send_to<T: Files, S: Store, W: Write, E: Write>(
    machine: &mut Machine<'_, T, W, E>,
    file: &str,
    desk: &Desk<S>,
    outlet: Outlet<'_>,
) -> Result<(), ToolFault>
    ensures { SendsTo desk.now.live.held (W.contents machine.old.writer) (W.contents machine.new.writer) result }
{
    let asking = machine.report_fault_at(asking(machine.rt, machine.alloc, file), file, NOT_ASKED)?;
    let sending = Sending {
        asking: &asking,
        seal: seal_with(outlet.key, desk.sides().role()),
        form: Form::Lines,
    };
    send_asked(machine, desk, sending, outlet.folder)
}

/// Does what `send_to` does, after it has looked at the folder of `outlet`. Fails if no message files may be there.
fn send_into<T: Files, S: Store, W: Write, E: Write>(
    machine: &mut Machine<'_, T, W, E>,
    file: &str,
    desk: &Desk<S>,
    outlet: Outlet<'_>,
) -> Result<(), ToolFault>
    ensures { SendsTo desk.now.live.held (W.contents machine.old.writer) (W.contents machine.new.writer) result }
{
    look_at_out(machine, file, outlet.folder)?;
    send_to(machine, file, desk, outlet)
}

/// Returns the messages that ask at the desk in `file`.
fn asking<T: Files>(rt: &T, alloc: Global, file: &str) -> Result<Vec<u8>, ToolFault>
    ensures { IfErr result IsOpenFault }
{
    Ok(asked_bytes(rt, alloc, file)?)
}

/// `ill exchange`: takes the message files that have come, performs the deeds of the day, copies the desk, and sends
/// its messages. With `key`, message files come and go in sealed letters alone. Returns true if no message file wants a
/// person, and false if one does. Fails with `Deferred` if message files wait for the next run.
pub fn exchange<T: Files, D: DeskFiles, W: Write, E: Write>(
    machine: &mut Machine<'_, T, W, E>,
    place: &DeskPlace<'_, D>,
    night: &Night<'_>,
    key: Option<&Key>,
) -> Result<bool, ToolFault>
    ensures { ExchangesAtFile (asked_night night.now) (place_of D.DeskStore.state place.now.path.now)
        (W.contents machine.old.writer) (W.contents machine.new.writer) result }
{
    let mut locked = place.open_locked(machine.alloc)?;
    look_at_night(machine, place.path, night)?;
    let done = exchange_at(machine, place.path, night, key, &mut locked.desk);
    drop(locked);
    done
}

/// Fails if a path of `night` is misplaced for the desk in `file`, before anything is done. For a desk of a shelf it
/// does nothing: the shelf has looked at these paths before.
fn look_at_night<T: Files, W: Write, E: Write>(
    machine: &mut Machine<'_, T, W, E>,
    file: &str,
    night: &Night<'_>,
) -> Result<(), ToolFault>
    ensures faults { IfErr result IsOpenFault }
    ensures silent { machine.new.writer ≡ machine.old.writer }
{
    if night.is_on_shelf {
        return Ok(());
    }
    let places = Places {
        file,
        original: file,
        copies: night.copy.map(folder_of),
    };
    look_at_places(machine, &places, night)
}

/// Exchanges the message file of `desk`, whose path is `file`, in the folders and files of `night`. The result is that
/// of `exchange`.
fn exchange_at<'a, T: Files, S: Store, W: Write, E: Write>(
    machine: &mut Machine<'_, T, W, E>,
    file: &'a str,
    night: &'a Night<'a>,
    key: Option<&'a Key>,
    desk: &mut Desk<S>,
) -> Result<bool, ToolFault>
    ensures { ExchangesAt (asked_night night.now)
        (command_state (view_of S.state desk.old) (W.contents machine.old.writer)) result
        (command_state (view_of S.state desk.new) (W.contents machine.new.writer)) }
{
    let incoming = incoming_of(night, key);
    let role = desk.sides().role();
    let opened = match open_message_files(machine, file, incoming, role) {
        Ok(opened) => opened,
        Err(fault) => return Err(fault),
    };
    let OpenedMessageFiles {
        claiming_folder,
        mut came,
        diary,
        found,
    } = opened;
    let RunDiary {
        came: mut came_diary,
        begin,
    } = diary;
    let mut kept = WithDiary {
        came: &mut came,
        diary: &mut came_diary,
    };
    let plan = Plan {
        batch: batch_of(&found, night.form),
        dates: night.dates,
        seal: seal_with(key, role),
    };
    let place = MessageFilePaths {
        file,
        folder: incoming.folder,
        is_sorted: incoming.is_sorted,
        claiming_folder: &claiming_folder,
    };
    let again = ReopenedDiary::beside(machine.rt, machine.alloc, file);
    let mut rooms = Rooms {
        incoming: HostRoom::at(machine.rt, machine.alloc, place, &found, true),
        diary: DeedDiary::new(begin, again),
        backup: HostBackup::at(machine.rt, machine.alloc, file, night),
        out: MessageFolder::at(machine.rt, machine.alloc, night.outgoing),
    };
    let done = night_in(machine, desk, &mut rooms, &plan, &mut kept);
    let is_incomplete = came_diary.has_failed() || rooms.diary.has_failed();
    warn_of_streams(machine, file, &came, is_incomplete);
    report_fault_of_message_file(machine, done, &rooms.out)
}

/// Returns the folder from which the message files of `night` come. They are in sealed letters if there is a `key`.
fn incoming_of<'a>(night: &'a Night<'a>, key: Option<&'a Key>) -> Incoming<'a, 'a, 'a> {
    Incoming {
        folder: night.incoming,
        is_sorted: night.is_on_shelf,
        stamp: &night.stamp,
        key,
    }
}
