//! The commands on the desk at a place. Their arguments are values that were read before, except the words of an
//! action. A command that may change the desk's file holds its lock from before the load to its end.

ghost use Rattle.std.specs.Prelude.{◌≡◌, option_copied};
ghost use Rattle.ill_show.specs.ItemLine.{item_of};
ghost use Rattle.ill_commands.specs.AtFile.{ActsAtFile, ActsOn, LoanAtFile, NewAtFile, SendsAtFile, ShowsFile, SlipAtFile, TakesAtFile, TakesHere, PrintsItem, VerifiesFile, message_of};
ghost use Rattle.ill_commands.specs.Streams.{streams_of};
ghost use Rattle.ill_desk.specs.ActAs.{RunsActAs, asking_of};
ghost use Rattle.ill_desk.specs.Performing.{command_state, view_of};
ghost use Rattle.ill_files.specs.Opening.{after_writing, all_succeed};
ghost use Rattle.ill_place.specs.Place.{place_of};
ghost use Rattle.ill_saved.specs.Desk.{DeskOf};
ghost use Rattle.ill_saved.specs.ManySides.{DeskContents};

use crate::late_diary::late_entry;
use ill_annex::{read_diary, read_notes};
use ill_desk::act_as::{ActionView, action_line, run_desk_act_as};
use ill_desk::new::run_desk_new;
use ill_desk::send::run_desk_send;
use ill_desk::take::{TakeForm, run_desk_take_as};
use ill_files::came::{came_bytes, open_came};
use ill_files::diary::{open_came_diary, warn_of_diary};
use ill_files::machine::Machine;
use ill_files::open::{after_writing, all_succeed, end};
use ill_place::place::{DeskFiles, DeskPlace, LockedAt};
use ill_saved::{Desk, Role, Side, Store};
use ill_show::item_line::write_item;
use ill_show::loan::{Beside, LoanView, run_desk_loan};
use ill_show::numbers::push_printed;
use ill_show::status::run_desk_status_as;
use ill_show::verify::run_desk_verify;
use ill_slip::slip::run_desk_slip;
use ill_text::diary::{Stamp, WithDiary, begin_text};
use ill_text::fault::ToolFault;
use ill_text::form::Form;
use ill_values::{Number, TxnId};
use std::alloc::Global;
use std::io::{Read, Write, sink};
use std::rt::Files;

/// `ill new`: begins a desk of `role` at `place`, and writes `done`. Returns true, or the fault.
pub fn new<T, D: DeskFiles, W: Write, E: Write>(
    machine: &mut Machine<'_, T, W, E>,
    place: &DeskPlace<'_, D>,
    role: Role,
) -> Result<bool, ToolFault>
    ensures { NewAtFile (place_of D.DeskStore.state place.now.path.now) role (W.contents machine.old.writer)
        (W.contents machine.new.writer) result }
{
    let lock = place.lock(machine.alloc)?;
    let store = place.store(machine.alloc)?;
    let begun = run_desk_new(machine.alloc, store, role, &mut machine.writer);
    drop(lock);
    end(begun)
}

/// `ill act`: performs the action of `view`, or tries it. If `is_long` is set, the item of the loan is written too. The
/// result is that of `run_desk_act_as`: false if the loan has changed since it was seen.
pub fn act<T: Files, D: DeskFiles, W: Write, E: Write>(
    machine: &mut Machine<'_, T, W, E>,
    place: &DeskPlace<'_, D>,
    view: &ActionView<'_>,
    is_long: bool,
) -> Result<bool, ToolFault>
    ensures { ActsAtFile (place_of D.DeskStore.state place.now.path.now) (asking_of view.now) is_long
        (W.contents machine.old.writer) (W.contents machine.new.writer) result }
{
    let locked = place.open_locked(machine.alloc)?;
    act_at(machine, place.path, locked, view, is_long)
}

/// Performs or tries the action of `view` at `locked`, the desk in `file`. Then it lets the desk and its lock go. If
/// the day of the action is given, the action is entered in the diary beside `file`. The diary is made if it does not
/// exist, but a refused action makes none. Writes a line to the errors if the loan has few numbers left.
pub fn act_at<T: Files, D: DeskFiles, W: Write, E: Write>(
    machine: &mut Machine<'_, T, W, E>,
    file: &str,
    mut locked: LockedAt<D>,
    view: &ActionView<'_>,
    is_long: bool,
) -> Result<bool, ToolFault>
    ensures { (desk : DeskOf DeskContents D.DeskStore) × ActsOn (asking_of view.now) is_long
        (command_state (view_of D.DeskStore.state locked.desk) (W.contents machine.old.writer)) result
        (command_state (view_of D.DeskStore.state desk) (W.contents machine.new.writer)) }
{
    let acted = act_and_enter(machine, file, &mut locked.desk, view);
    let printed = print_item(
        machine.alloc,
        locked.desk.sides().get(view.txn),
        is_long,
        acted,
        &mut machine.writer,
    );
    if acted.is_ok() {
        print_numbers_of(
            machine.alloc,
            file,
            &locked.desk,
            view.txn,
            &mut machine.errors,
        );
    }
    drop(locked);
    printed
}

/// Performs or tries the action of `view` at `desk`. If the day of the action is given, the action is entered in the
/// diary beside the desk's path `file`.
fn act_and_enter<T: Files, S: Store, W: Write, E: Write>(
    machine: &mut Machine<'_, T, W, E>,
    file: &str,
    desk: &mut Desk<S>,
    view: &ActionView<'_>,
) -> Result<bool, ToolFault>
    ensures { RunsActAs (asking_of view.now)
        (command_state (view_of S.state desk.old) (W.contents machine.old.writer)) result
        (command_state (view_of S.state desk.new) (W.contents machine.new.writer)) }
{
    let line = action_line(machine.alloc, desk, view);
    let mut entry = late_entry(machine.rt, machine.alloc, file, line, &mut machine.errors);
    let acted = run_desk_act_as(machine.alloc, desk, view, &mut entry, &mut machine.writer);
    let has_failed = entry.has_failed();
    drop(entry);
    warn_of_diary(machine.alloc, file, has_failed, &mut machine.errors);
    acted
}

/// Writes the item of the loan of `side` after the line of an action, if `is_long` is set and the answer `acted` is no
/// fault. Returns that answer, or the fault of the writing.
fn print_item<W: Write>(
    alloc: Global,
    side: Option<&Side>,
    is_long: bool,
    acted: Result<bool, ToolFault>,
    writer: &mut W,
) -> Result<bool, ToolFault>
    ensures { PrintsItem is_long (item_of (option_copied side.entry)) acted (W.contents writer.old) (W.contents writer.new) result }
{
    if acted.is_err() || !is_long {
        return acted;
    }
    after_writing(write_item(alloc, side, writer), acted)
}

/// Writes to `errors` the count of the numbers that the loan `txn` has left, if these are few. The line begins with
/// `file`, the path of the desk.
fn print_numbers_of<S: Store, E: Write>(
    alloc: Global,
    file: &str,
    desk: &Desk<S>,
    txn: &TxnId,
    errors: &mut E,
) {
    let mut line = Vec::new(alloc);
    if let Some(side) = desk.sides().get(txn)
        && push_printed(&mut line, file, side).is_ok()
    {
        let _ = errors.write_all(&line);
    }
}

/// The form in which APDUs are taken, and the stamp of the lines of the diary.
#[derive(Clone, Copy)]
pub struct TakeView<'a, 'b> {
    /// The form.
    pub form: TakeForm,
    /// The stamp, if a day is given. Only messages that are kept are entered.
    pub stamp: &'a Option<Stamp<'b>>,
}

/// `ill take`: takes the APDUs of the input `reader` at the desk of `place`. It holds the lock of the desk's file until
/// the input ends. Returns true if no APDU was refused or in conflict.
pub fn take<T: Files, D: DeskFiles, R: Read, W: Write, E: Write>(
    machine: &mut Machine<'_, T, W, E>,
    place: &DeskPlace<'_, D>,
    view: &TakeView<'_, '_>,
    reader: &mut R,
) -> Result<bool, ToolFault>
    ensures { TakesAtFile (place_of D.DeskStore.state place.now.path.now) view.now.form
        (streams_of (R.remaining reader.old) (W.contents machine.old.writer)) result
        (streams_of (R.remaining reader.new) (W.contents machine.new.writer)) }
{
    let mut locked = place.open_locked(machine.alloc)?;
    let taken = take_at(machine, place.path, &mut locked.desk, view, reader);
    drop(locked);
    taken
}

/// Takes the APDUs of the input `reader` at `desk`, as `take` does. If `view` asks to keep them, they go to the file of
/// messages that came, beside the desk's path `file`. With a day they go to the diary too. If the file of messages
/// cannot be opened, nothing is taken.
pub(crate) fn take_at<T: Files, S: Store, R: Read, W: Write, E: Write>(
    machine: &mut Machine<'_, T, W, E>,
    file: &str,
    desk: &mut Desk<S>,
    view: &TakeView<'_, '_>,
    reader: &mut R,
) -> Result<bool, ToolFault>
    ensures { TakesHere view.now.form (view_of S.state desk.old) (view_of S.state desk.new)
        (streams_of (R.remaining reader.old) (W.contents machine.old.writer)) result
        (streams_of (R.remaining reader.new) (W.contents machine.new.writer)) }
{
    if !view.form.is_kept {
        return run_desk_take_as(
            machine.alloc,
            desk,
            view.form,
            &mut sink(),
            reader,
            &mut machine.writer,
        );
    }
    let mut came = open_came(machine.rt, machine.alloc, file)?;
    let begin = begin_text(machine.alloc, view.stamp);
    let mut diary = open_came_diary(machine.rt, machine.alloc, file, begin, &mut machine.errors);
    let mut kept = WithDiary {
        came: &mut came,
        diary: &mut diary,
    };
    let taken = run_desk_take_as(
        machine.alloc,
        desk,
        view.form,
        &mut kept,
        reader,
        &mut machine.writer,
    );
    warn_of_diary(machine.alloc, file, diary.has_failed(), &mut machine.errors);
    taken
}

/// `ill send`: writes the bytes of the message `number` of the transaction `txn`. Returns true, or the fault.
pub fn send<T, D: DeskFiles, W: Write, E: Write>(
    machine: &mut Machine<'_, T, W, E>,
    place: &DeskPlace<'_, D>,
    txn: &TxnId,
    number: Number,
) -> Result<bool, ToolFault>
    ensures { SendsAtFile (place_of D.DeskStore.state place.now.path.now) (message_of txn.now number)
        (W.contents machine.old.writer) (W.contents machine.new.writer) result }
{
    let desk = place.open(machine.alloc)?;
    let sent = run_desk_send(machine.alloc, &desk, txn, number, &mut machine.writer);
    drop(desk);
    all_succeed(sent)
}

/// `ill status`: writes the state of each loan of the desk of `place`, in `form`. Returns true, or the fault.
pub fn status<T, D: DeskFiles, W: Write, E: Write>(
    machine: &mut Machine<'_, T, W, E>,
    place: &DeskPlace<'_, D>,
    form: Form,
) -> Result<bool, ToolFault>
    ensures { ShowsFile (place_of D.DeskStore.state place.now.path.now) form
        (W.contents machine.old.writer) (W.contents machine.new.writer) result }
{
    let desk = place.open(machine.alloc)?;
    let shown = run_desk_status_as(machine.alloc, &desk, form, &mut machine.writer);
    drop(desk);
    all_succeed(shown)
}

/// `ill loan`: shows all that is known of the transaction of `view`, or draws it. Returns true, or the fault.
pub fn loan<T: Files, D: DeskFiles, W: Write, E: Write>(
    machine: &mut Machine<'_, T, W, E>,
    place: &DeskPlace<'_, D>,
    view: &LoanView<'_>,
) -> Result<bool, ToolFault>
    ensures { LoanAtFile (place_of D.DeskStore.state place.now.path.now) view.now.form view.now.txn.now
        (W.contents machine.old.writer) (W.contents machine.new.writer) result }
{
    let diary = read_diary(machine.rt, machine.alloc, place.path, &mut machine.errors)?;
    let notes = read_notes(machine.rt, machine.alloc, place.path)?;
    let desk = place.open(machine.alloc)?;
    let came = came_bytes(machine.rt, machine.alloc, place.path)?;
    let beside = Beside {
        notes: &notes,
        diary: &diary,
        came: &came,
    };
    let shown = run_desk_loan(machine.alloc, &desk, view, &beside, &mut machine.writer);
    drop(desk);
    all_succeed(shown)
}

/// `ill slip`: writes the slip of the transaction `txn`. Returns true, or the fault.
pub fn slip<T, D: DeskFiles, W: Write, E: Write>(
    machine: &mut Machine<'_, T, W, E>,
    place: &DeskPlace<'_, D>,
    txn: &TxnId,
) -> Result<bool, ToolFault>
    ensures { SlipAtFile (place_of D.DeskStore.state place.now.path.now) txn.now
        (W.contents machine.old.writer) (W.contents machine.new.writer) result }
{
    let desk = place.open(machine.alloc)?;
    let written = run_desk_slip(machine.alloc, &desk, txn, &mut machine.writer);
    drop(desk);
    all_succeed(written)
}

/// `ill verify`: checks the record in the file of `place`, and writes its numbers in `form`. Returns true if it is a
/// record, else the fault.
pub fn verify<T, D: DeskFiles, W: Write, E: Write>(
    machine: &mut Machine<'_, T, W, E>,
    place: &DeskPlace<'_, D>,
    form: Form,
) -> Result<bool, ToolFault>
    ensures { VerifiesFile (place_of D.DeskStore.state place.now.path.now) form
        (W.contents machine.old.writer) (W.contents machine.new.writer) result }
{
    let mut store = place.store(machine.alloc)?;
    let verified = run_desk_verify(machine.alloc, &mut store, form, &mut machine.writer);
    drop(store);
    all_succeed(verified)
}
