//! The commands `inbox`, `outbox` and `exchange` with a key: all messages come and go in sealed letters.

ghost use Rattle.std.specs.Prelude.{true, Some, is_some, option_map};
ghost use Rattle.ill_exchange.specs.Keyed.{WithKey};
ghost use Rattle.ill_exchange.specs.Nights.{ExchangesAtFile, InboxAtFile, OutboxAtFile, asked_night};
ghost use Rattle.ill_place.specs.Place.{place_of};

use crate::exchange::{exchange, inbox, outbox};
use crate::outlet::Outlet;
use ill_files::machine::Machine;
use ill_folders::message_file::Incoming;
use ill_key::Key;
use ill_key::key_file::read_key;
use ill_night::night::Night;
use ill_place::place::{DeskFiles, DeskPlace};
use ill_text::diary::Stamp;
use ill_text::fault::ToolFault;
use std::io::Write;
use std::rt::Files;

/// `ill inbox`: takes the message files of the folder of `incoming`, as `inbox` does. With `key_file` it takes sealed
/// letters alone.
pub fn inbox_with<T: Files, D: DeskFiles, W: Write, E: Write>(
    machine: &mut Machine<'_, T, W, E>,
    place: &DeskPlace<'_, D>,
    key_file: Option<&str>,
    incoming: &Incoming<'_, '_, '_>,
) -> Result<bool, ToolFault>
    ensures { WithKey (option_map (λ file. file.now) key_file.entry)
        (InboxAtFile (place_of D.DeskStore.state place.now.path.now)) (W.contents machine.old.writer)
        (W.contents machine.new.writer) result }
{
    match key_file {
        Some(key_file) => inbox_sealed(machine, place, key_file, incoming),
        None => inbox(machine, place, *incoming),
    }
}

/// `ill inbox --key`: takes the letters of the folder of `incoming`, which the key in `key_file` opens.
fn inbox_sealed<T: Files, D: DeskFiles, W: Write, E: Write>(
    machine: &mut Machine<'_, T, W, E>,
    place: &DeskPlace<'_, D>,
    key_file: &str,
    incoming: &Incoming<'_, '_, '_>,
) -> Result<bool, ToolFault>
    ensures { WithKey (Some key_file.now) (InboxAtFile (place_of D.DeskStore.state place.now.path.now))
        (W.contents machine.old.writer) (W.contents machine.new.writer) result }
{
    let key = read_key(machine.rt, key_file)?;
    let sealed = sealed_in(incoming.folder, incoming.stamp, &key);
    inbox(machine, place, sealed)
}

/// Returns `folder` as the one from which letters come that are sealed with `key`. `stamp` begins the lines of the
/// diary.
fn sealed_in<'a, 'b, 'c>(
    folder: &'a str,
    stamp: &'b Option<Stamp<'c>>,
    key: &'a Key,
) -> Incoming<'a, 'b, 'c> {
    Incoming {
        folder,
        is_sorted: false,
        stamp,
        key: Some(key),
    }
}

/// `ill outbox`: puts the messages of the loans that want sending into `folder`. With `key_file` they leave in sealed
/// letters. Without a folder it writes them to the output one after another, unsealed, also with `key_file`.
pub fn outbox_with<T: Files, D: DeskFiles, W: Write, E: Write>(
    machine: &mut Machine<'_, T, W, E>,
    place: &DeskPlace<'_, D>,
    key_file: Option<&str>,
    folder: Option<&str>,
) -> Result<bool, ToolFault>
    ensures { WithKey (option_map (λ file. file.now) key_file.entry)
        (OutboxAtFile (is_some folder.entry) (place_of D.DeskStore.state place.now.path.now))
        (W.contents machine.old.writer) (W.contents machine.new.writer) result }
{
    match folder {
        Some(folder) => outbox_into(machine, place, key_file, folder),
        None => outbox(machine, place, None),
    }
}

/// Puts the messages of the loans that want sending into `folder`. With `key_file` they leave in sealed letters.
fn outbox_into<T: Files, D: DeskFiles, W: Write, E: Write>(
    machine: &mut Machine<'_, T, W, E>,
    place: &DeskPlace<'_, D>,
    key_file: Option<&str>,
    folder: &str,
) -> Result<bool, ToolFault>
    ensures { WithKey (option_map (λ file. file.now) key_file.entry)
        (OutboxAtFile true (place_of D.DeskStore.state place.now.path.now)) (W.contents machine.old.writer)
        (W.contents machine.new.writer) result }
{
    match key_file {
        Some(key_file) => outbox_sealed(machine, place, key_file, folder),
        None => outbox(machine, place, Some(Outlet::plain(folder))),
    }
}

/// `ill outbox --key`: puts the messages of the loans that want sending into `folder`, in letters.
fn outbox_sealed<T: Files, D: DeskFiles, W: Write, E: Write>(
    machine: &mut Machine<'_, T, W, E>,
    place: &DeskPlace<'_, D>,
    key_file: &str,
    folder: &str,
) -> Result<bool, ToolFault>
    ensures { WithKey (Some key_file.now) (OutboxAtFile true (place_of D.DeskStore.state place.now.path.now))
        (W.contents machine.old.writer) (W.contents machine.new.writer)
        result }
{
    let key = read_key(machine.rt, key_file)?;
    outbox(machine, place, Some(Outlet::sealed(folder, &key)))
}

/// `ill exchange`: performs `night` at the desk of `place`, as `exchange` does. With `key_file` all messages come and
/// go in sealed letters.
pub fn exchange_with<T: Files, D: DeskFiles, W: Write, E: Write>(
    machine: &mut Machine<'_, T, W, E>,
    place: &DeskPlace<'_, D>,
    key_file: Option<&str>,
    night: &Night<'_>,
) -> Result<bool, ToolFault>
    ensures { WithKey (option_map (λ file. file.now) key_file.entry)
        (ExchangesAtFile (asked_night night.now) (place_of D.DeskStore.state place.now.path.now))
        (W.contents machine.old.writer) (W.contents machine.new.writer) result }
{
    match key_file {
        Some(key_file) => exchange_sealed(machine, place, key_file, night),
        None => exchange(machine, place, night, None),
    }
}

/// `ill exchange --key`: performs `night`, whose messages come and go in letters that are sealed with the key in
/// `key_file`.
fn exchange_sealed<T: Files, D: DeskFiles, W: Write, E: Write>(
    machine: &mut Machine<'_, T, W, E>,
    place: &DeskPlace<'_, D>,
    key_file: &str,
    night: &Night<'_>,
) -> Result<bool, ToolFault>
    ensures { WithKey (Some key_file.now)
        (ExchangesAtFile (asked_night night.now) (place_of D.DeskStore.state place.now.path.now))
        (W.contents machine.old.writer)
        (W.contents machine.new.writer) result }
{
    let key = read_key(machine.rt, key_file)?;
    exchange(machine, place, night, Some(&key))
}
