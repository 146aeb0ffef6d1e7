//! The command `note`, at the desk of a place. Nothing that leaves the desk depends on a note.

ghost use Rattle.ill_record.specs.Sides.{side_with};
ghost use Rattle.ill_desk.specs.Take.{KeepsPrefix};
ghost use Rattle.ill_beside.specs.Notes.{kept_line};
ghost use Rattle.ill_place.specs.Place.{place_of};
ghost use Rattle.ill_commands.specs.Note.{KeepsAtFile, KeepsNote, NotesAtFile, RunsNote, text_of};

use ill_beside::notes::{kept_line, note_text};
use ill_desk::take::keep_bytes;
use ill_files::machine::Machine;
use ill_files::notes::open_notes;
use ill_files::open::all_succeed;
use ill_place::place::{DeskFiles, DeskPlace};
use ill_saved::{DeskFault, Sides};
use ill_text::fault::ToolFault;
use ill_text::output::write_whole;
use ill_values::TxnId;
use std::alloc::Global;
use std::io::Write;
use std::rt::Files;

/// A note on a loan.
#[derive(Clone, Copy)]
pub struct NoteView<'a> {
    /// The transaction.
    pub txn: &'a TxnId,
    /// The words of the note. If they are empty, they remove the note.
    pub words: &'a [&'a str],
}

/// `ill note`: keeps the note of `view` beside the desk at `place`, which must hold the loan (else
/// `NoSuchTransaction`). The lock of the desk's file is held until the note is durable. Returns true, or the fault.
pub fn note<T: Files, D: DeskFiles, W: Write, E: Write>(
    machine: &mut Machine<'_, T, W, E>,
    place: &DeskPlace<'_, D>,
    view: &NoteView<'_>,
) -> Result<bool, ToolFault>
    ensures { NotesAtFile (place_of D.DeskStore.state place.now.path.now) view.now.txn.now (text_of view.now)
        (W.contents machine.old.writer) (W.contents machine.new.writer) result }
{
    let locked = place.open_locked(machine.alloc)?;
    let kept = keep_if_held(machine, place.path, locked.desk.sides(), view);
    drop(locked);
    all_succeed(kept)
}

/// Keeps the note of `view` beside `file`, if `sides` have its loan. Else it fails with `NoSuchTransaction`.
fn keep_if_held<T: Files, W: Write, E: Write>(
    machine: &mut Machine<'_, T, W, E>,
    file: &str,
    sides: &Sides,
    view: &NoteView<'_>,
) -> Result<(), ToolFault>
    ensures { KeepsNote (side_with view.now.txn.now sides.now.sides) (kept_line view.now.txn.now (text_of view.now))
        (W.contents machine.old.writer) (W.contents machine.new.writer) result }
{
    match sides.get(view.txn) {
        Some(_) => keep_at(machine, file, view),
        None => Err(ToolFault::Desk(DeskFault::NoSuchTransaction)),
    }
}

/// Keeps the note of `view` in the file of notes beside `file`. Writes a line to the errors if a part of a line was cut
/// off at the end of that file.
fn keep_at<T: Files, W: Write, E: Write>(
    machine: &mut Machine<'_, T, W, E>,
    file: &str,
    view: &NoteView<'_>,
) -> Result<(), ToolFault>
    ensures { KeepsAtFile (kept_line view.now.txn.now (text_of view.now)) (W.contents machine.old.writer)
        (W.contents machine.new.writer) result }
{
    let mut notes = open_notes(machine.rt, machine.alloc, file)?;
    if notes.torn() > 0 {
        machine.warn(file, TORN);
    }
    keep_note(machine.alloc, &mut notes, view, &mut machine.writer)
}

/// The text that follows the path of a desk whose file of notes ended within a line.
const TORN: &str = ".notes ended within a line, which is cut off";

/// Keeps the note of `view` in `notes`, and then writes the line `done`.
pub fn keep_note<F: Write, W: Write>(
    alloc: Global,
    notes: &mut F,
    view: &NoteView<'_>,
    writer: &mut W,
) -> Result<(), ToolFault>
    ensures { RunsNote (kept_line view.now.txn.now (text_of view.now)) (F.contents notes.old) (F.contents notes.new)
        (W.contents writer.old) (W.contents writer.new) result }
{
    match keep_line(alloc, notes, view) {
        Ok(()) => write_whole(writer, b"done\n"),
        Err(fault) => Err(fault),
    }
}

/// Keeps the line of the note of `view` in `notes`.
fn keep_line<F: Write>(alloc: Global, notes: &mut F, view: &NoteView<'_>) -> Result<(), ToolFault>
    ensures { KeepsPrefix (kept_line view.now.txn.now (text_of view.now)) (F.contents notes.old) (F.contents notes.new) result }
{
    let text = note_text(alloc, view.words)?;
    let line = kept_line(alloc, view.txn, text.as_str())?;
    keep_bytes(notes, &line)
}
