//! The commands `take` and `send` with a key, at the desk of a place: the messages come and go in sealed letters.

ghost use Rattle.std.specs.Prelude.{◌≡◌, option_map};
ghost use Rattle.ill_saved.specs.ManySides.{found_by, many_sides, txn_held};
ghost use Rattle.ill_seal.specs.Letter.{sealed};
ghost use Rattle.ill_key.specs.Letter.{other_sender, own_sender};
ghost use Rattle.ill_desk.specs.Performing.{view_of};
ghost use Rattle.ill_desk.specs.Send.{RunsSendAs};
ghost use Rattle.ill_commands.specs.AtFile.{TakesAtFile, TakesHere, message_of};
ghost use Rattle.ill_commands.specs.Letters.{OpensOrStays, SendsLetterAtFile, SendsWith, TakesLetter, TakesSealed, TakesWith};
ghost use Rattle.ill_place.specs.Place.{place_of};
ghost use Rattle.ill_commands.specs.Streams.{streams_of};

use crate::commands::{TakeView, send, take, take_at};
use ill_files::machine::Machine;
use ill_files::open::all_succeed;
use ill_key::Key;
use ill_key::key_file::read_key;
use ill_key::letter::{open_letter, write_letter};
use ill_key::role::{other_sender, own_sender};
use ill_place::place::{DeskFiles, DeskPlace};
use ill_saved::{Desk, Store};
use ill_text::fault::ToolFault;
use ill_values::{Number, TxnId};
use std::io::{Read, Write};
use std::rt::Files;

/// The way in which a letter is taken: the key that opens it, and the form of `take`.
#[derive(Clone, Copy)]
struct LetterForm<'a, 'b, 'c> {
    key: &'a Key,
    view: TakeView<'b, 'c>,
}

/// `ill take`: takes the messages of the input `reader`, as `take` does. With `key_file` the input is one sealed
/// letter, whose messages are taken.
pub fn take_with<T: Files, D: DeskFiles, R: Read, W: Write, E: Write>(
    machine: &mut Machine<'_, T, W, E>,
    place: &DeskPlace<'_, D>,
    key_file: Option<&str>,
    view: &TakeView<'_, '_>,
    reader: &mut R,
) -> Result<bool, ToolFault>
    ensures { TakesWith (option_map (λ file. file.now) key_file.entry)
        (TakesAtFile (place_of D.DeskStore.state place.now.path.now) view.now.form)
        (streams_of (R.remaining reader.old) (W.contents machine.old.writer)) result
        (streams_of (R.remaining reader.new) (W.contents machine.new.writer)) }
{
    match key_file {
        Some(key_file) => take_letter(machine, place, key_file, view, reader),
        None => take(machine, place, view, reader),
    }
}

/// `ill send`: writes the bytes of the message `number` of `txn`. With `key_file` it writes the message in a sealed
/// letter.
pub fn send_with<T: Files, D: DeskFiles, W: Write, E: Write>(
    machine: &mut Machine<'_, T, W, E>,
    place: &DeskPlace<'_, D>,
    key_file: Option<&str>,
    txn: &TxnId,
    number: Number,
) -> Result<bool, ToolFault>
    ensures { SendsWith (place_of D.DeskStore.state place.now.path.now) (option_map (λ file. file.now) key_file.entry)
        (message_of txn.now number) (W.contents machine.old.writer) (W.contents machine.new.writer) result }
{
    match key_file {
        Some(key_file) => send_letter(machine, place, key_file, txn, number),
        None => send(machine, place, txn, number),
    }
}

/// `ill take --key`: opens the letter on the input with the key in `key_file`, and takes its messages in their order.
/// If the input is not one letter of the other library, it fails with `NotSealed`, and the desk is unchanged.
fn take_letter<T: Files, D: DeskFiles, R: Read, W: Write, E: Write>(
    machine: &mut Machine<'_, T, W, E>,
    place: &DeskPlace<'_, D>,
    key_file: &str,
    view: &TakeView<'_, '_>,
    reader: &mut R,
) -> Result<bool, ToolFault>
    ensures { TakesSealed (TakesAtFile (place_of D.DeskStore.state place.now.path.now) view.now.form)
        (streams_of (R.remaining reader.old) (W.contents machine.old.writer)) result
        (streams_of (R.remaining reader.new) (W.contents machine.new.writer)) }
{
    let key = read_key(machine.rt, key_file)?;
    let mut locked = place.open_locked(machine.alloc)?;
    let letter = LetterForm {
        key: &key,
        view: *view,
    };
    let taken = take_letter_at(machine, place.path, &mut locked.desk, &letter, reader);
    drop(locked);
    taken
}

/// Opens the letter on the input, and takes its messages at `desk`, as `take_at` does. Messages that are kept go to the
/// files beside the desk's path `file`. If the input is no letter of the other role, `desk` is unchanged.
fn take_letter_at<T: Files, S: Store, R: Read, W: Write, E: Write>(
    machine: &mut Machine<'_, T, W, E>,
    file: &str,
    desk: &mut Desk<S>,
    letter: &LetterForm<'_, '_, '_>,
    reader: &mut R,
) -> Result<bool, ToolFault>
    ensures taken { TakesLetter letter.now.key.now (other_sender (many_sides.role desk.old.live))
        (TakesHere letter.now.view.form (view_of S.state desk.old) (view_of S.state desk.new))
        (streams_of (R.remaining reader.old) (W.contents machine.old.writer)) result
        (streams_of (R.remaining reader.new) (W.contents machine.new.writer)) }
    ensures unchanged { OpensOrStays letter.now.key.now (other_sender (many_sides.role desk.old.live))
        (view_of S.state desk.new ≡ view_of S.state desk.old) (R.remaining reader.old) (R.remaining reader.new) }
{
    let sender = other_sender(desk.role());
    match open_letter(machine.alloc, letter.key, sender, reader) {
        Ok(text) => take_at(machine, file, desk, &letter.view, &mut text.as_slice()),
        Err(fault) => Err(fault),
    }
}

/// `ill send --key`: writes the letter that has the message `number` of `txn`, sealed with the key in `key_file`.
fn send_letter<T: Files, D: DeskFiles, W: Write, E: Write>(
    machine: &mut Machine<'_, T, W, E>,
    place: &DeskPlace<'_, D>,
    key_file: &str,
    txn: &TxnId,
    number: Number,
) -> Result<bool, ToolFault>
    ensures { SendsLetterAtFile (place_of D.DeskStore.state place.now.path.now) (message_of txn.now number)
        (W.contents machine.old.writer) (W.contents machine.new.writer) result }
{
    let key = read_key(machine.rt, key_file)?;
    let desk = place.open(machine.alloc)?;
    let sent = send_letter_of(machine, &desk, &key, txn, number);
    drop(desk);
    all_succeed(sent)
}

/// Writes the letter that has the message `number` of the side of `txn` at `desk`, sealed with `key`.
fn send_letter_of<T, S: Store, W: Write, E: Write>(
    machine: &mut Machine<'_, T, W, E>,
    desk: &Desk<S>,
    key: &Key,
    txn: &TxnId,
    number: Number,
) -> Result<(), ToolFault>
    ensures { RunsSendAs (sealed key.now (own_sender (many_sides.role desk.now.live)))
        (found_by txn_held txn.now desk.now.live.held) number (W.contents machine.old.writer)
        (W.contents machine.new.writer) result }
{
    let sender = own_sender(desk.role());
    match desk.message_of(machine.alloc, txn, number) {
        Ok(message) => write_letter(machine.alloc, key, sender, &message, &mut machine.writer),
        Err(fault) => Err(fault.into()),
    }
}
