//! The command `take` on a shelf: each APDU of the input is taken at the desk of its group.

ghost use Rattle.std.specs.Prelude.{◌≡◌, IfErr, IfOk, option_map, string_bytes};
ghost use Rattle.ill_der.specs.ShortForm.{encoding};
ghost use Rattle.ill_commands.specs.Letters.{TakesSealed, TakesWith};
ghost use Rattle.ill_commands.specs.Streams.{streams_of};
ghost use Rattle.ill_place.specs.Place.{shelf_of};
ghost use Rattle.ill_shelf.specs.Home.{IsDeskFor};
ghost use Rattle.ill_shelf.specs.Shelf.{TakesAtShelf, TakesAtHome};
ghost use Rattle.ill_text.specs.Fault.{IsOpenFault};

use ill_commands::commands::{TakeView, take};
use ill_der::{ApduView, BodyView, Handler, encode};
use ill_files::home::home_at;
use ill_files::machine::Machine;
use ill_files::shelf::Shelf;
use ill_key::key_file::read_key;
use ill_key::letter::open_letter;
use ill_key::role::other_sender;
use ill_place::place::{DeskFiles, DeskPlace, ShelfPlace};
use ill_saved::{DeskFault, LockFiles};
use ill_sorting::sorting::{Route, make_desk, route_of};
use ill_text::fault::ToolFault;
use ill_text::input::{Counted, handle_input};
use ill_values::OutOfMemory;
use std::alloc::Global;
use std::io::{Read, Write};

/// `ill shelf take`: takes the APDUs of the input `reader`, each at the desk of its group. Returns true if no APDU was
/// refused or in conflict. It stops at the first fault.
fn take_on_shelf<T: LockFiles, D: DeskFiles, R: Read, W: Write, E: Write>(
    machine: &mut Machine<'_, T, W, E>,
    place: &ShelfPlace<'_, D>,
    view: &TakeView<'_, '_>,
    reader: &mut R,
) -> Result<bool, ToolFault>
    ensures { TakesAtShelf (shelf_of D.DeskStore.state place.now.folder.now) view.now.form
        (streams_of (R.remaining reader.old) (W.contents machine.old.writer)) result
        (streams_of (R.remaining reader.new) (W.contents machine.new.writer)) }
{
    let shelf = Shelf::open(machine.rt, machine.alloc, place.folder)?;
    let mut taken = Counted::new(TakesHome {
        files: place.files,
        shelf,
        view: *view,
        all_fine: true,
    });
    match handle_input(machine.alloc, reader, machine, &mut taken) {
        Ok(_) => Ok(taken.handler.all_fine),
        Err(fault) => Err(fault),
    }
}

/// `ill shelf take`: takes the messages of the input `reader`, as `take_on_shelf` does. With `key_file` the input is
/// one sealed letter, whose messages are taken.
pub fn take_on_shelf_with<T: LockFiles, D: DeskFiles, R: Read, W: Write, E: Write>(
    machine: &mut Machine<'_, T, W, E>,
    place: &ShelfPlace<'_, D>,
    key_file: Option<&str>,
    view: &TakeView<'_, '_>,
    reader: &mut R,
) -> Result<bool, ToolFault>
    ensures { TakesWith (option_map (λ file. file.now) key_file.entry)
        (TakesAtShelf (shelf_of D.DeskStore.state place.now.folder.now) view.now.form)
        (streams_of (R.remaining reader.old) (W.contents machine.old.writer)) result
        (streams_of (R.remaining reader.new) (W.contents machine.new.writer)) }
{
    match key_file {
        Some(key_file) => take_letter_on_shelf(machine, place, key_file, view, reader),
        None => take_on_shelf(machine, place, view, reader),
    }
}

/// `ill shelf take --key`: opens the letter on the input, and takes its messages, each at the desk of its group.
fn take_letter_on_shelf<T: LockFiles, D: DeskFiles, R: Read, W: Write, E: Write>(
    machine: &mut Machine<'_, T, W, E>,
    place: &ShelfPlace<'_, D>,
    key_file: &str,
    view: &TakeView<'_, '_>,
    reader: &mut R,
) -> Result<bool, ToolFault>
    ensures { TakesSealed (TakesAtShelf (shelf_of D.DeskStore.state place.now.folder.now) view.now.form)
        (streams_of (R.remaining reader.old) (W.contents machine.old.writer)) result
        (streams_of (R.remaining reader.new) (W.contents machine.new.writer)) }
{
    let key = read_key(machine.rt, key_file)?;
    let shelf = Shelf::open(machine.rt, machine.alloc, place.folder)?;
    let sender = other_sender(shelf.role);
    match open_letter(machine.alloc, &key, sender, reader) {
        Ok(text) => take_on_shelf(machine, place, view, &mut text.as_slice()),
        Err(fault) => Err(fault),
    }
}

/// A handler that takes each APDU at the desk of its group, and records if all went well.
#[derive(Drop)]
struct TakesHome<'a, 'b, 'c, D> {
    /// The files in which the desks are kept.
    files: &'a D,
    shelf: Shelf<'a>,
    /// The form in which each APDU is taken, and the stamp of the diary.
    view: TakeView<'b, 'c>,
    /// Set if no APDU was refused or in conflict so far.
    all_fine: bool,
}

impl<T: LockFiles, D: DeskFiles, W: Write, E: Write> Handler<Machine<'_, T, W, E>>
    for TakesHome<'_, '_, '_, D> {
    type Fault = ToolFault;

    ghost handles = { λ old apdu result new. TakesAtHome D.DeskStore.state
        (record {
          folder = old.0.shelf.folder.now;
          form = old.0.view.form;
          all_fine = old.0.all_fine;
          written = W.contents old.1.writer;
        })
        apdu result
        (record {
          folder = new.0.shelf.folder.now;
          form = new.0.view.form;
          all_fine = new.0.all_fine;
          written = W.contents new.1.writer;
        }) };

    fn handle(
        &mut self,
        alloc: Global,
        machine: &mut Machine<'_, T, W, E>,
        apdu: &ApduView<'_>,
    ) -> Result<(), ToolFault> {
        let file = match desk_for(machine.rt, alloc, &self.shelf, apdu) {
            Ok(file) => file,
            Err(fault) => return Err(fault),
        };
        let bytes = match encoded(alloc, apdu) {
            Ok(bytes) => bytes,
            Err(_) => return Err(ToolFault::OutOfMemory),
        };
        let mut input = bytes.as_slice();
        let desk = DeskPlace {
            files: self.files,
            path: file.as_str(),
        };
        match take(machine, &desk, &self.view, &mut input) {
            Ok(is_success) => {
                self.all_fine = self.all_fine && is_success;
                Ok(())
            }
            Err(fault) => Err(fault),
        }
    }
}

/// Returns the bytes of `apdu`.
fn encoded(alloc: Global, apdu: &ApduView<'_>) -> Result<Vec<u8>, OutOfMemory>
    ensures { IfOk result (λ bytes. bytes.items ≡ encoding apdu.now) }
{
    let apdu = apdu.to_apdu(alloc)?;
    encode(alloc, &apdu)
}

/// Returns the path of the desk that takes `apdu`: the desk of its group, if it exists. An ILL-Request to a responder's
/// shelf makes the desk of a new group. Fails if the group is retired, or its desk is lost. The APDUs of any other
/// group go to the shelf's own desk.
#[tactic(auto, using(crate::proofs::HomeLemmas::home_is_for, crate::proofs::HomeLemmas::own_is_for))]
fn desk_for<T: LockFiles>(
    rt: &T,
    alloc: Global,
    shelf: &Shelf<'_>,
    apdu: &ApduView<'_>,
) -> Result<String, ToolFault>
    ensures desk { IfOk result (λ path. IsDeskFor shelf.now.folder.now apdu.now.txn.group (string_bytes path)) }
    ensures faults { IfErr result IsOpenFault }
{
    let desk = shelf.desk_of(alloc, apdu.group())?;
    let home = home_at(rt, alloc, desk.as_str())?;
    let is_request = matches!(apdu.body(), BodyView::IllRequest { .. });
    match route_of(shelf.role, home, is_request, true) {
        Route::Home => Ok(desk),
        Route::New => match make_desk(rt, alloc, shelf.role, desk.as_str()) {
            Ok(()) => Ok(desk),
            Err(fault) => Err(fault),
        },
        Route::Gone => Err(ToolFault::Desk(DeskFault::NoSuchTransaction)),
        Route::Back => Err(ToolFault::Desk(DeskFault::NoRecord)),
        Route::Stray => Ok(shelf.own_desk(alloc)?),
    }
}
