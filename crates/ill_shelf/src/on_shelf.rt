//! The commands on a shelf. A command in one transaction does at the desk of its group what the command for one desk
//! does.

ghost use Rattle.std.specs.Prelude.{◌≡◌, true, is_some, map, option_map, string_bytes, IfErr, IfOk};
ghost use Rattle.ill_files.specs.ShelfNames.{AreOnShelf};
ghost use Rattle.ill_commands.specs.AtFile.{ShowsFile, message_of};
ghost use Rattle.ill_commands.specs.Note.{text_of};
ghost use Rattle.ill_desk.specs.ActAs.{asking_of};
ghost use Rattle.ill_place.specs.Place.{OpensAs, place_of, shelf_of};
ghost use Rattle.ill_exchange.specs.Nights.{ExchangesAtFile, InboxAtFile, OutboxAtFile, asked_night};
ghost use Rattle.ill_shelf.specs.Home.{ActsAtHome, BeginsShelf, IsHome, LoanAtHome, NotesAtHome, SendsAtHome, SlipAtHome, role_to_begin};
ghost use Rattle.ill_shelf.specs.Shelf.{Headed, IsFurther, VisitsShelf, is_lines};
ghost use Rattle.ill_text.specs.Fault.{IsOpenFault};

use crate::last_words::send_last_words;
use crate::visit::{Visit, visit_all};
use ill_commands::commands::{act_at, loan, new, slip};
use ill_commands::letters::send_with;
use ill_commands::note::{NoteView, note};
use ill_desk::act_as::ActionView;
use ill_exchange::backup::heartbeat;
use ill_exchange::outlet::Outlet;
use ill_files::durable::error_of_store;
use ill_files::home::refuse_lost;
use ill_files::machine::Machine;
use ill_files::paths::RETIRED;
use ill_files::shelf::{Shelf, names_of_desks, own_path, refuse_retired, retired_path};
use ill_folders::claiming_folder::remove_if_there;
use ill_folders::message_file::Incoming;
use ill_folders::places::{Places, look_at_places};
use ill_key::Key;
use ill_night::night::Night;
use ill_place::place::{DeskFiles, DeskPlace, LockedAt, ShelfPlace};
use ill_saved::{FileStore, LockFiles, RECORD_LIMIT, Role, Store};
use ill_show::loan::LoanView;
use ill_sorting::last_words::load_mark;
use ill_sorting::sorting::{MessageFilesFrom, sort_message_files};
use ill_text::diary::Stamp;
use ill_text::fault::{STORE_FAILED, ToolFault, graver};
use ill_text::form::Form;
use ill_values::{Number, TxnId};
use std::alloc::Global;
use std::fs::DirBuilder;
use std::io::{self, ErrorKind, Write};
use std::rt::Files;

/// `ill shelf new`: begins a shelf of `role` in the folder of `place`. The folder is made if it is not there.
pub fn new_shelf<T: Files, D: DeskFiles, W: Write, E: Write>(
    machine: &mut Machine<'_, T, W, E>,
    place: &ShelfPlace<'_, D>,
    role: Role,
) -> Result<bool, ToolFault>
    ensures { BeginsShelf (shelf_of D.DeskStore.state place.now.folder.now) role (W.contents machine.old.writer)
        (W.contents machine.new.writer) result }
{
    make_shelf_folder(machine.rt, place.folder)?;
    let own = own_path(machine.alloc, place.folder)?;
    let desk = DeskPlace {
        files: place.files,
        path: own.as_str(),
    };
    new(machine, &desk, role)
}

/// Makes the folder of a shelf, if it is not there. Fails if `folder` is empty.
fn make_shelf_folder<T: Files>(rt: &T, folder: &str) -> Result<(), ToolFault>
    ensures { IfErr result IsOpenFault }
{
    if folder.is_empty() {
        return Err(STORE_FAILED);
    }
    match DirBuilder::new().create(rt, folder) {
        Err(error) if error.kind() != ErrorKind::AlreadyExists => Err(error.into()),
        _ => Ok(()),
    }
}

/// `ill shelf act`: performs the action of `view`, at the desk of its group. If `is_long` is set, the item of the loan
/// is written too. A new group is begun only if `is_new_group` is set.
pub fn act_on_shelf<T: Files, D: DeskFiles, W: Write, E: Write>(
    machine: &mut Machine<'_, T, W, E>,
    place: &ShelfPlace<'_, D>,
    view: &ActionView<'_>,
    is_long: bool,
    is_new_group: bool,
) -> Result<bool, ToolFault>
    ensures { ActsAtHome (shelf_of D.DeskStore.state place.now.folder.now) (record {
      asking = asking_of view.now;
      is_long = is_long;
      is_new_group = is_new_group;
    }) (W.contents machine.old.writer) (W.contents machine.new.writer) result }
{
    let shelf = Shelf::open(machine.rt, machine.alloc, place.folder)?;
    let file = shelf.desk_of(machine.alloc, view.txn.group())?;
    let role = role_to_begin(is_new_group, shelf.role);
    let desk = DeskPlace {
        files: place.files,
        path: file.as_str(),
    };
    let locked = open_or_begin(machine.rt, machine.alloc, &desk, role)?;
    act_at(machine, desk.path, locked, view, is_long)
}

/// Returns the role of a desk that may be begun: `role` if `is_new_group` is set, else `None`.
fn role_to_begin(is_new_group: bool, role: Role) -> Option<Role>
    ensures { result ≡ role_to_begin is_new_group role }
{
    if is_new_group { Some(role) } else { None }
}

/// Opens the desk at `place` under the lock of its file. If the file is not there and there is a `role`, it begins a
/// desk of that role, of which nothing is saved yet. Fails if the group is retired, or its desk is lost.
fn open_or_begin<T: Files, D: DeskFiles>(
    rt: &T,
    alloc: Global,
    place: &DeskPlace<'_, D>,
    role: Option<Role>,
) -> Result<LockedAt<D>, ToolFault>
    ensures opens { IfOk result (λ locked. OpensAs role (place_of D.DeskStore.state place.now.path.now) locked.desk) }
    ensures faults { IfErr result IsOpenFault }
{
    let lock = place.lock(alloc)?;
    refuse_retired(rt, alloc, place.path)?;
    refuse_lost(rt, alloc, place.path)?;
    place.open_or_begin(alloc, lock, role)
}

/// `ill shelf send`: writes the bytes of the message `number` of `txn`. With `key_file` it writes the message in a
/// sealed letter.
pub fn send_on_shelf_with<T: Files, D: DeskFiles, W: Write, E: Write>(
    machine: &mut Machine<'_, T, W, E>,
    place: &ShelfPlace<'_, D>,
    key_file: Option<&str>,
    txn: &TxnId,
    number: Number,
) -> Result<bool, ToolFault>
    ensures { SendsAtHome (shelf_of D.DeskStore.state place.now.folder.now)
        (option_map (λ file. file.now) key_file.entry) (message_of txn.now number)
        (W.contents machine.old.writer) (W.contents machine.new.writer) result }
{
    let file = home_of(machine.rt, machine.alloc, place.folder, txn)?;
    let desk = DeskPlace {
        files: place.files,
        path: file.as_str(),
    };
    send_with(machine, &desk, key_file, txn, number)
}

/// `ill shelf loan`: shows all that is known of a transaction, or draws it.
pub fn loan_on_shelf<T: Files, D: DeskFiles, W: Write, E: Write>(
    machine: &mut Machine<'_, T, W, E>,
    place: &ShelfPlace<'_, D>,
    view: &LoanView<'_>,
) -> Result<bool, ToolFault>
    ensures { LoanAtHome (shelf_of D.DeskStore.state place.now.folder.now) view.now.form view.now.txn.now
        (W.contents machine.old.writer)
        (W.contents machine.new.writer) result }
{
    let file = home_of(machine.rt, machine.alloc, place.folder, view.txn)?;
    let desk = DeskPlace {
        files: place.files,
        path: file.as_str(),
    };
    loan(machine, &desk, view)
}

/// `ill shelf note`: keeps a note on a transaction, beside the desk of its group.
pub fn note_on_shelf<T: Files, D: DeskFiles, W: Write, E: Write>(
    machine: &mut Machine<'_, T, W, E>,
    place: &ShelfPlace<'_, D>,
    view: &NoteView<'_>,
) -> Result<bool, ToolFault>
    ensures { NotesAtHome (shelf_of D.DeskStore.state place.now.folder.now) view.now.txn.now (text_of view.now)
        (W.contents machine.old.writer)
        (W.contents machine.new.writer) result }
{
    let file = home_of(machine.rt, machine.alloc, place.folder, view.txn)?;
    let desk = DeskPlace {
        files: place.files,
        path: file.as_str(),
    };
    note(machine, &desk, view)
}

/// `ill shelf slip`: writes the slip of the transaction `txn`, at the desk of its group.
pub fn slip_on_shelf<T: Files, D: DeskFiles, W: Write, E: Write>(
    machine: &mut Machine<'_, T, W, E>,
    place: &ShelfPlace<'_, D>,
    txn: &TxnId,
) -> Result<bool, ToolFault>
    ensures { SlipAtHome (shelf_of D.DeskStore.state place.now.folder.now) txn.now (W.contents machine.old.writer)
        (W.contents machine.new.writer) result }
{
    let file = home_of(machine.rt, machine.alloc, place.folder, txn)?;
    let desk = DeskPlace {
        files: place.files,
        path: file.as_str(),
    };
    slip(machine, &desk, txn)
}

/// Returns the path of the desk of the group of `txn`, and does not look for the desk. Fails if the shelf is not
/// opened, the group is retired or that cannot be read, or memory runs out.
fn home_of<T: Files>(rt: &T, alloc: Global, folder: &str, txn: &TxnId) -> Result<String, ToolFault>
    ensures home { IfOk result (λ path. IsHome folder.now txn.now.group (string_bytes path)) }
    ensures faults { IfErr result IsOpenFault }
{
    let shelf = Shelf::open(rt, alloc, folder)?;
    let file = shelf.desk_of(alloc, txn.group())?;
    refuse_retired(rt, alloc, file.as_str())?;
    Ok(file)
}

/// `ill shelf status`: shows the sides of each desk in `form`. Returns true, or the gravest fault of a desk.
pub fn status_of_shelf<T: Files, D: DeskFiles, W: Write, E: Write>(
    machine: &mut Machine<'_, T, W, E>,
    place: &ShelfPlace<'_, D>,
    form: Form,
) -> Result<bool, ToolFault>
    ensures { VisitsShelf place.now.folder.now
        (Headed D.DeskStore.state (is_lines form) (λ desk. ShowsFile desk form))
        (W.contents machine.old.writer) (W.contents machine.new.writer) result }
{
    let shelf = Shelf::open(machine.rt, machine.alloc, place.folder)?;
    let desks = shelf.desks(machine.rt, machine.alloc)?;
    visit_all(machine, place.files, &desks, &Visit::Status(form))
}

/// `ill shelf outbox`: puts the messages of the loans that want sending into the folder of `outlet`. The last words of
/// retired groups go there too. Without an outlet it writes the messages one after another, and no last words.
pub fn outbox_of_shelf<T: Files, D: DeskFiles, W: Write, E: Write>(
    machine: &mut Machine<'_, T, W, E>,
    place: &ShelfPlace<'_, D>,
    outlet: Option<Outlet<'_>>,
) -> Result<bool, ToolFault>
    ensures { VisitsShelf place.now.folder.now
        (Headed D.DeskStore.state (is_some outlet.entry) (OutboxAtFile (is_some outlet.entry)))
        (W.contents machine.old.writer) (W.contents machine.new.writer) result }
{
    let shelf = Shelf::open(machine.rt, machine.alloc, place.folder)?;
    let desks = shelf.desks(machine.rt, machine.alloc)?;
    let answer = visit_all(machine, place.files, &desks, &Visit::Outbox(outlet));
    graver(answer, send_words_to(machine, &shelf, outlet))
}

/// Sends the last words of retired groups into the folder of `outlet`. Without an outlet it does nothing.
fn send_words_to<T: Files, W: Write, E: Write>(
    machine: &mut Machine<'_, T, W, E>,
    shelf: &Shelf<'_>,
    outlet: Option<Outlet<'_>>,
) -> Result<bool, ToolFault>
    ensures further { IsFurther result }
    ensures silent { machine.new.writer ≡ machine.old.writer }
{
    match outlet {
        Some(outlet) => match send_last_words(machine, shelf, outlet) {
            Ok(_) => Ok(true),
            Err(fault) => Err(fault),
        },
        None => Ok(true),
    }
}

/// `ill shelf inbox`: takes the message files of the folder of `incoming`, each at the desk of its group. Returns the
/// gravest answer of the desks, and at least `Deferred` if message files wait.
pub fn inbox_of_shelf<T: LockFiles, D: DeskFiles, W: Write, E: Write>(
    machine: &mut Machine<'_, T, W, E>,
    place: &ShelfPlace<'_, D>,
    incoming: Incoming<'_, '_, '_>,
) -> Result<bool, ToolFault>
    ensures { VisitsShelf place.now.folder.now (Headed D.DeskStore.state true InboxAtFile)
        (W.contents machine.old.writer) (W.contents machine.new.writer) result }
{
    let shelf = Shelf::open(machine.rt, machine.alloc, place.folder)?;
    take_at_desks(machine, place.files, &shelf, incoming, false)
}

/// Sorts the message files of `incoming`, and takes each at the desk of its group. `is_own` is set if the shelf has put
/// the message files into their folder itself. The result is that of `inbox_of_shelf`.
pub(crate) fn take_at_desks<T: LockFiles, D: DeskFiles, W: Write, E: Write>(
    machine: &mut Machine<'_, T, W, E>,
    files: &D,
    shelf: &Shelf<'_>,
    incoming: Incoming<'_, '_, '_>,
    is_own: bool,
) -> Result<bool, ToolFault>
    ensures { VisitsShelf shelf.now.folder.now (Headed D.DeskStore.state true InboxAtFile)
        (W.contents machine.old.writer) (W.contents machine.new.writer) result }
{
    let from = MessageFilesFrom {
        folder: incoming.folder,
        is_own,
    };
    let is_waiting = sort_message_files(machine, shelf, from, None)?;
    let desks = desks_and_own(machine.rt, machine.alloc, shelf)?;
    let answer = visit_all(machine, files, &desks, &Visit::Inbox(incoming));
    graver(answer, waiting(is_waiting))
}

/// Returns the paths of the desks of `shelf`, and then the path of the shelf's own desk.
fn desks_and_own<T: Files>(
    rt: &T,
    alloc: Global,
    shelf: &Shelf<'_>,
) -> Result<Vec<String>, ToolFault>
    ensures on_shelf { IfOk result (λ desks. AreOnShelf shelf.now.folder.now (map (λ path. string_bytes path) desks.items)) }
    ensures faults { IfErr result IsOpenFault }
{
    let mut desks = shelf.desks(rt, alloc)?;
    desks.push(shelf.own_desk(alloc)?)?;
    Ok(desks)
}

/// Returns the fault `Deferred` if message files wait, else true.
fn waiting(is_waiting: bool) -> Result<bool, ToolFault>
    ensures { IsFurther result }
{
    if is_waiting {
        Err(ToolFault::Deferred)
    } else {
        Ok(true)
    }
}

/// `ill shelf exchange`: sorts the message files that have come, and performs `night` at each desk. Returns the gravest
/// answer of the desks and of the end of the night.
pub fn exchange_of_shelf<T: LockFiles, D: DeskFiles, W: Write, E: Write>(
    machine: &mut Machine<'_, T, W, E>,
    place: &ShelfPlace<'_, D>,
    night: &Night<'_>,
) -> Result<bool, ToolFault>
    ensures { VisitsShelf place.now.folder.now
        (Headed D.DeskStore.state (is_lines night.now.form) (ExchangesAtFile (asked_night night.now)))
        (W.contents machine.old.writer) (W.contents machine.new.writer) result }
{
    let shelf = look_at_shelf(machine, place.folder, night)?;
    let way = Way {
        incoming: night.incoming,
        key: None,
    };
    exchange_at_desks(machine, place.files, &shelf, night, way)
}

/// Opens the shelf in `folder`. Fails if a path of `night` is misplaced, before anything is done.
pub(crate) fn look_at_shelf<'a, T: LockFiles, W: Write, E: Write>(
    machine: &mut Machine<'_, T, W, E>,
    folder: &'a str,
    night: &Night<'_>,
) -> Result<Shelf<'a>, ToolFault>
    ensures folder { IfOk result (λ shelf. shelf.folder.now ≡ folder.now) }
    ensures faults { IfErr result IsOpenFault }
    ensures silent { machine.new.writer ≡ machine.old.writer }
{
    let shelf = Shelf::open(machine.rt, machine.alloc, folder)?;
    let own = shelf.own_desk(machine.alloc)?;
    let places = Places {
        file: own.as_str(),
        original: shelf.folder,
        copies: night.copy,
    };
    look_at_places(machine, &places, night)?;
    Ok(shelf)
}

/// The way on which the message files of a night come and go.
#[derive(Clone, Copy)]
pub(crate) struct Way<'a> {
    /// The folder from which the message files come. With a key, it is that of the messages in letters that the shelf
    /// has opened.
    pub incoming: &'a str,
    /// The key of the letters in which messages leave, if there is one.
    pub key: Option<&'a Key>,
}

impl<'a> Way<'a> {
    /// Returns the way of messages in letters that are sealed with `key`. Those that have come were put into
    /// `incoming`.
    pub fn sealed(incoming: &'a str, key: &'a Key) -> Way<'a> {
        Way {
            incoming,
            key: Some(key),
        }
    }
}

/// Performs `night` at each desk of `shelf`, whose message files come and go on `way`. The result is that of
/// `exchange_of_shelf`.
pub(crate) fn exchange_at_desks<T: LockFiles, D: DeskFiles, W: Write, E: Write>(
    machine: &mut Machine<'_, T, W, E>,
    files: &D,
    shelf: &Shelf<'_>,
    night: &Night<'_>,
    way: Way<'_>,
) -> Result<bool, ToolFault>
    ensures { VisitsShelf shelf.now.folder.now
        (Headed D.DeskStore.state (is_lines night.now.form) (ExchangesAtFile (asked_night night.now)))
        (W.contents machine.old.writer) (W.contents machine.new.writer) result }
{
    let from = MessageFilesFrom {
        folder: way.incoming,
        is_own: way.key.is_some(),
    };
    let is_waiting = sort_message_files(machine, shelf, from, night.copy)?;
    let desks = desks_and_own(machine.rt, machine.alloc, shelf)?;
    let visit = Visit::Exchange(at_each(night, way.incoming), way.key);
    let answer = visit_all(machine, files, &desks, &visit);
    let ending = Ending {
        night,
        key: way.key,
        is_waiting,
    };
    let further = end_night(machine, shelf, &ending, answer);
    graver(answer, further)
}

/// Returns the night of each desk of a shelf, whose message files come from `incoming`. It has no sign of life, which
/// is given once, at the end.
fn at_each<'a>(night: &Night<'a>, incoming: &'a str) -> Night<'a>
    ensures { asked_night result ≡ asked_night night.now }
{
    Night {
        incoming,
        outgoing: night.outgoing,
        dates: night.dates,
        stamp: same_stamp(&night.stamp),
        copy: night.copy,
        heartbeat: None,
        form: night.form,
        is_on_shelf: true,
    }
}

/// Returns a copy of `stamp`.
fn same_stamp<'a>(stamp: &Option<Stamp<'a>>) -> Option<Stamp<'a>> {
    match stamp {
        Some(stamp) => Some(Stamp {
            day: stamp.day,
            by: stamp.by,
        }),
        None => None,
    }
}

/// The end of a night of a shelf.
#[derive(Clone, Copy)]
struct Ending<'a, 'b> {
    /// The arguments of the night.
    night: &'b Night<'a>,
    /// The key of the letters in which messages leave, if there is one.
    key: Option<&'a Key>,
    /// Set if message files wait for the next run.
    is_waiting: bool,
}

/// Copies the marks of retired groups to the folder of copies, and sends the last words of these groups. So no last
/// word leaves that the copies do not have. Then it gives the sign of life of the night, unless a desk has failed:
/// `answer` is the gravest answer of the desks. It returns the fault `Deferred` if message files wait, else true.
fn end_night<T: Files, W: Write, E: Write>(
    machine: &mut Machine<'_, T, W, E>,
    shelf: &Shelf<'_>,
    ending: &Ending<'_, '_>,
    answer: Result<bool, ToolFault>,
) -> Result<bool, ToolFault>
    ensures further { IsFurther result }
    ensures silent { machine.new.writer ≡ machine.old.writer }
{
    let night = ending.night;
    if let Some(folder) = night.copy
        && let Err(error) = copy_marks(machine.rt, machine.alloc, shelf, folder)
    {
        return machine.report_fault_at(Err(error.into()), folder, NO_MARKS);
    }
    let outlet = Outlet {
        folder: night.outgoing,
        key: ending.key,
    };
    let sent = send_last_words(machine, shelf, outlet)?;
    if let Some(sent) = sent.unless_failed(answer) {
        let own = shelf.own_desk(machine.alloc)?;
        if let Err(fault) = heartbeat(machine, night.heartbeat, own.as_str(), sent) {
            return Err(fault);
        }
    }
    waiting(ending.is_waiting)
}

/// The text after the path of a folder of copies into which a mark cannot be copied.
const NO_MARKS: &str = " does not have the marks of all retired groups";

/// Writes the mark of each retired group into `folder`, the folder of copies. It removes the copy of its desk there.
fn copy_marks<T: Files>(rt: &T, alloc: Global, shelf: &Shelf<'_>, folder: &str) -> io::Result<()> {
    for name in names_of_desks(rt, alloc, shelf.folder, shelf.role, RETIRED)? {
        let desk = format!(in alloc; "{}/{name}", shelf.folder)?;
        let copy = format!(in alloc; "{folder}/{name}")?;
        let mark = load_mark(rt, alloc, desk.as_str())?;
        if mark != load_mark(rt, alloc, copy.as_str())? {
            save_mark(rt, alloc, copy.as_str(), mark)?;
        }
        remove_if_there(rt, copy.as_str())?;
    }
    Ok(())
}

/// Saves `mark`, the mark that the group of `desk` is retired, and makes it durable with its folder. Without a mark it
/// does nothing.
pub(crate) fn save_mark<T: Files>(
    rt: &T,
    alloc: Global,
    desk: &str,
    mark: Option<Vec<u8>>,
) -> io::Result<()> {
    let path = retired_path(alloc, desk)?;
    match mark {
        Some(mark) => save_file(rt, alloc, path.as_str(), &mark),
        None => Ok(()),
    }
}

/// Saves `bytes` in the file at `path`, and makes it durable with its folder.
pub(crate) fn save_file<T: Files>(
    rt: &T,
    alloc: Global,
    path: &str,
    bytes: &[u8],
) -> io::Result<()> {
    let mut store = FileStore::at(rt, alloc, path, RECORD_LIMIT)?;
    match store.save(alloc, bytes) {
        Ok(()) => Ok(()),
        Err(fault) => Err(error_of_store(fault)),
    }
}
