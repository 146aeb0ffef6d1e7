//! The commands on the message files of a shelf, with a key or without one. With a key all messages come and go in
//! sealed letters.

ghost use Rattle.std.specs.Prelude.{true, Some, is_some, option_map};
ghost use Rattle.ill_exchange.specs.Keyed.{WithKey};
ghost use Rattle.ill_exchange.specs.Nights.{ExchangesAtFile, InboxAtFile, OutboxAtFile, asked_night};
ghost use Rattle.ill_shelf.specs.Shelf.{Headed, OpensShelf, VisitsShelf, VisitsWith, is_lines};

use crate::on_shelf::{
    Way, exchange_at_desks, exchange_of_shelf, inbox_of_shelf, look_at_shelf, outbox_of_shelf,
    take_at_desks,
};
use ill_exchange::outlet::Outlet;
use ill_files::machine::Machine;
use ill_files::shelf::Shelf;
use ill_folders::message_file::Incoming;
use ill_key::key_file::read_key;
use ill_night::night::Night;
use ill_place::place::{DeskFiles, ShelfPlace};
use ill_saved::LockFiles;
use ill_sorting::opened::{Unpacking, open_letters, opened_answer, opened_folder};
use ill_text::diary::Stamp;
use ill_text::fault::{ToolFault, graver};
use std::io::Write;

/// `ill shelf inbox`: takes the message files of the folder of `incoming`, each at the desk of its group. With
/// `key_file` it takes sealed letters alone. Returns the gravest answer of the desks and of the sorting.
pub fn inbox_of_shelf_with<T: LockFiles, D: DeskFiles, W: Write, E: Write>(
    machine: &mut Machine<'_, T, W, E>,
    place: &ShelfPlace<'_, D>,
    key_file: Option<&str>,
    incoming: &Incoming<'_, '_, '_>,
) -> Result<bool, ToolFault>
    ensures { VisitsWith (option_map (λ file. file.now) key_file.entry) place.now.folder.now
        (Headed D.DeskStore.state true InboxAtFile)
        (W.contents machine.old.writer) (W.contents machine.new.writer) result }
{
    match key_file {
        Some(key_file) => inbox_sealed(machine, place, key_file, incoming),
        None => inbox_of_shelf(machine, place, *incoming),
    }
}

/// `ill shelf inbox --key`: opens the letters of the folder of `incoming` with the key in `key_file`. Then it takes the
/// messages in them.
#[tactic(auto, using(crate::proofs::ShelfLemmas::not_opened, crate::proofs::ShelfLemmas::no_key))]
fn inbox_sealed<T: LockFiles, D: DeskFiles, W: Write, E: Write>(
    machine: &mut Machine<'_, T, W, E>,
    place: &ShelfPlace<'_, D>,
    key_file: &str,
    incoming: &Incoming<'_, '_, '_>,
) -> Result<bool, ToolFault>
    ensures { OpensShelf place.now.folder.now (Headed D.DeskStore.state true InboxAtFile)
        (W.contents machine.old.writer) (W.contents machine.new.writer) result }
{
    let key = read_key(machine.rt, key_file)?;
    let shelf = Shelf::open(machine.rt, machine.alloc, place.folder)?;
    let messages = opened_folder(machine.rt, machine.alloc, &shelf)?;
    let unpacking = Unpacking {
        folder: incoming.folder,
        key: &key,
        opened: messages.as_str(),
    };
    let opened = open_letters(machine, &shelf, unpacking)?;
    let message_files = message_files_in(messages.as_str(), incoming.stamp);
    let done = take_at_desks(machine, place.files, &shelf, message_files, true);
    graver(done, opened_answer(opened))
}

/// Returns `folder`, into which the shelf has put messages, as the folder from which message files come. `stamp` begins
/// the lines of the diary.
fn message_files_in<'a, 'b, 'c>(
    folder: &'a str,
    stamp: &'b Option<Stamp<'c>>,
) -> Incoming<'a, 'b, 'c> {
    Incoming {
        folder,
        is_sorted: true,
        stamp,
        key: None,
    }
}

/// `ill shelf outbox`: puts the messages of the loans that want sending into the folder `outgoing`. With `key_file`
/// they leave in sealed letters. Without a folder it writes them one after another, unsealed.
pub fn outbox_of_shelf_with<T: LockFiles, D: DeskFiles, W: Write, E: Write>(
    machine: &mut Machine<'_, T, W, E>,
    place: &ShelfPlace<'_, D>,
    key_file: Option<&str>,
    outgoing: Option<&str>,
) -> Result<bool, ToolFault>
    ensures { WithKey (option_map (λ file. file.now) key_file.entry)
        (VisitsShelf place.now.folder.now
        (Headed D.DeskStore.state (is_some outgoing.entry) (OutboxAtFile (is_some outgoing.entry))))
        (W.contents machine.old.writer) (W.contents machine.new.writer) result }
{
    match outgoing {
        Some(out) => outbox_into(machine, place, key_file, out),
        None => outbox_of_shelf(machine, place, None),
    }
}

/// Puts the messages of the loans that want sending into the folder `out`. With `key_file` they leave in sealed
/// letters.
fn outbox_into<T: LockFiles, D: DeskFiles, W: Write, E: Write>(
    machine: &mut Machine<'_, T, W, E>,
    place: &ShelfPlace<'_, D>,
    key_file: Option<&str>,
    out: &str,
) -> Result<bool, ToolFault>
    ensures { WithKey (option_map (λ file. file.now) key_file.entry)
        (VisitsShelf place.now.folder.now (Headed D.DeskStore.state true (OutboxAtFile true)))
        (W.contents machine.old.writer) (W.contents machine.new.writer) result }
{
    match key_file {
        Some(key_file) => outbox_sealed(machine, place, key_file, out),
        None => outbox_of_shelf(machine, place, Some(Outlet::plain(out))),
    }
}

/// `ill shelf outbox --key`: puts the messages of the loans that want sending into the folder `out`, in letters.
fn outbox_sealed<T: LockFiles, D: DeskFiles, W: Write, E: Write>(
    machine: &mut Machine<'_, T, W, E>,
    place: &ShelfPlace<'_, D>,
    key_file: &str,
    out: &str,
) -> Result<bool, ToolFault>
    ensures { WithKey (Some key_file.now)
        (VisitsShelf place.now.folder.now (Headed D.DeskStore.state true (OutboxAtFile true)))
        (W.contents machine.old.writer) (W.contents machine.new.writer) result }
{
    let key = read_key(machine.rt, key_file)?;
    outbox_of_shelf(machine, place, Some(Outlet::sealed(out, &key)))
}

/// `ill shelf exchange`: performs `night` at each desk. With `key_file` all messages come and go in sealed letters.
/// Returns the gravest answer of the desks, the sorting and the end of the night.
pub fn exchange_of_shelf_with<T: LockFiles, D: DeskFiles, W: Write, E: Write>(
    machine: &mut Machine<'_, T, W, E>,
    place: &ShelfPlace<'_, D>,
    key_file: Option<&str>,
    night: &Night<'_>,
) -> Result<bool, ToolFault>
    ensures { VisitsWith (option_map (λ file. file.now) key_file.entry) place.now.folder.now
        (Headed D.DeskStore.state (is_lines night.now.form) (ExchangesAtFile (asked_night night.now)))
        (W.contents machine.old.writer) (W.contents machine.new.writer) result }
{
    match key_file {
        Some(key_file) => exchange_sealed(machine, place, key_file, night),
        None => exchange_of_shelf(machine, place, night),
    }
}

/// `ill shelf exchange --key`: performs the nights of the desks, whose messages come and go in sealed letters.
#[tactic(auto, using(crate::proofs::ShelfLemmas::not_opened, crate::proofs::ShelfLemmas::no_key))]
fn exchange_sealed<T: LockFiles, D: DeskFiles, W: Write, E: Write>(
    machine: &mut Machine<'_, T, W, E>,
    place: &ShelfPlace<'_, D>,
    key_file: &str,
    night: &Night<'_>,
) -> Result<bool, ToolFault>
    ensures { OpensShelf place.now.folder.now
        (Headed D.DeskStore.state (is_lines night.now.form) (ExchangesAtFile (asked_night night.now)))
        (W.contents machine.old.writer) (W.contents machine.new.writer) result }
{
    let key = read_key(machine.rt, key_file)?;
    let shelf = look_at_shelf(machine, place.folder, night)?;
    let messages = opened_folder(machine.rt, machine.alloc, &shelf)?;
    let unpacking = Unpacking {
        folder: night.incoming,
        key: &key,
        opened: messages.as_str(),
    };
    let opened = open_letters(machine, &shelf, unpacking)?;
    let way = Way::sealed(messages.as_str(), &key);
    let done = exchange_at_desks(machine, place.files, &shelf, night, way);
    graver(done, opened_answer(opened))
}
