//! The command `take`.

ghost use Rattle.std.specs.Prelude.{◌≡◌, None, true};
ghost use Rattle.ill_der.specs.ShortForm.{encoding};
ghost use Rattle.ill_saved.specs.OneSide.{one_side};
ghost use Rattle.ill_saved.specs.ManySides.{many_sides};
ghost use Rattle.ill_desk.specs.Performing.{command_state, view_of, with_input, with_kept};
ghost use Rattle.ill_text.specs.Fault.{CountsToolFailure};
ghost use Rattle.ill_desk.specs.Take.{CountsTaking, KeepsBefore, KeepsBorrowed, KeepsPrefix, KeepsTaken, RunsTake, RunsTaking, SavesTaken, TakesAndSaves, borrowed_parts, kept_text, progress, TakesMessage};
ghost use Rattle.ill_desk.specs.Telling.{short, wording};

use crate::refusal::refused;
use crate::side_line::{PrintedMessage, report_message};
use ill_core::Taking;
use ill_der::{ApduView, Handler, encode};
use ill_saved::{AnyDesk, Desk, Desk1, Holdings, ManySides, OneSide, Store};
use ill_text::fault::{STORE_FAILED, ToolFault};
use ill_text::input::{Counted, handle_input};
use ill_text::output::write_and_flush;
use ill_values::Apdu;
use ill_words::{DeskOutcome, Outcome};
use std::alloc::Global;
use std::io::{Read, Sink, Write, sink};

/// Takes each APDU of the input, up to its end. For each it writes a line of its outcome and of the side after it. Only
/// a taken APDU is saved, before its line is written. Returns true if none was refused or in conflict.
///
/// After a faulty APDU or one too many, the APDUs before it are taken and saved, and their lines written. The same
/// holds if the reader fails or memory runs out. If a save fails, its APDU is taken in memory. A message that it has
/// issued may not be sent. If the writer fails, the saved record remains.
pub fn run_take<S: Store, R: Read, W: Write>(
    alloc: Global,
    desk: &mut Desk1<S>,
    reader: &mut R,
    writer: &mut W,
) -> Result<bool, ToolFault>
    ensures runs { RunsTake short one_side
        (with_input (R.remaining reader.old) (command_state (view_of S.state desk.old) (W.contents writer.old))) result
        (with_input (R.remaining reader.new) (command_state (view_of S.state desk.new) (W.contents writer.new))) }
    ensures counted { CountsToolFailure result (S.state desk.old.store).failures (S.state desk.new.store).failures }
{
    run_desk_take_as(alloc, desk, TakeForm::SHORT, &mut sink(), reader, writer)
}

/// Takes each APDU of the input at `desk`, as `run_take` does. Each is taken by the side of its transaction, whose line
/// is written. If the desk lacks the transaction and the APDU does not begin it, the outcome is `no-such-transaction`.
/// If the desk has no room for it, the outcome is `desk-full`. After these refusals it takes the next APDU.
pub fn run_desk_take<S: Store, R: Read, W: Write>(
    alloc: Global,
    desk: &mut Desk<S>,
    reader: &mut R,
    writer: &mut W,
) -> Result<bool, ToolFault>
    ensures runs { RunsTake short many_sides
        (with_input (R.remaining reader.old) (command_state (view_of S.state desk.old) (W.contents writer.old))) result
        (with_input (R.remaining reader.new) (command_state (view_of S.state desk.new) (W.contents writer.new))) }
    ensures counted { CountsToolFailure result (S.state desk.old.store).failures (S.state desk.new.store).failures }
{
    run_desk_take_as(alloc, desk, TakeForm::SHORT, &mut sink(), reader, writer)
}

/// The form of `take`: how it prints a message, and if it keeps it.
#[derive(Clone, Copy)]
pub struct TakeForm {
    /// Set if each line has the heading of the message: `GROUP TRANSACTION TYPE NUMBER OUTCOME STATE DUE
    /// RELEASED/ISSUED`. After it come the lines of its further fields, each with two spaces before it.
    pub is_long: bool,
    /// Set if each taken message is kept.
    pub is_kept: bool,
}

impl TakeForm {
    /// The form of short lines that keeps no message.
    const SHORT: TakeForm = TakeForm {
        is_long: false,
        is_kept: false,
    };
}

/// Takes each APDU of the input as `run_desk_take` does, in the form `form`. The bytes of a message that is kept are
/// written to `came` and flushed before the desk is saved. So no saved message is lost. A message that is kept but not
/// saved is kept twice if it is taken again.
///
/// If a message cannot be kept, it is taken in memory and not saved. This is a failure of the store.
pub fn run_desk_take_as<H: Holdings, S: Store, F: Write, R: Read, W: Write>(
    alloc: Global,
    desk: &mut AnyDesk<H, S>,
    form: TakeForm,
    came: &mut F,
    reader: &mut R,
    writer: &mut W,
) -> Result<bool, ToolFault>
    ensures runs { RunsTaking form.is_kept (wording form.is_long) H.effects
        (with_input (R.remaining reader.old) (with_kept (F.contents came.old)
        (command_state (view_of S.state desk.old) (W.contents writer.old)))) result
        (with_input (R.remaining reader.new) (with_kept (F.contents came.new)
        (command_state (view_of S.state desk.new) (W.contents writer.new)))) }
    ensures counted { CountsTaking form.is_kept result (S.state desk.old.store).failures (S.state desk.new.store).failures }
{
    let mut taken = Counted::new(TakesEach {
        desk,
        came,
        form,
        all_fine: true,
    });
    take_input(alloc, &mut taken, reader, writer)
}

/// Takes each APDU of the input with `taken`, which has taken none before. Returns true if none was refused or in
/// conflict.
fn take_input<H: Holdings, S: Store, F: Write, R: Read, W: Write>(
    alloc: Global,
    taken: &mut Counted<TakesEach<'_, '_, H, S, F>>,
    reader: &mut R,
    writer: &mut W,
) -> Result<bool, ToolFault>
    requires none { taken.old.count ≡ 0 }
    requires fine { taken.old.handler.all_fine ≡ true }
    ensures runs { RunsTaking taken.old.handler.form.is_kept (wording taken.old.handler.form.is_long) H.effects
        (with_input (R.remaining reader.old) (with_kept (F.contents taken.old.handler.came.now)
        (command_state (view_of S.state taken.old.handler.desk.now) (W.contents writer.old)))) result
        (with_input (R.remaining reader.new) (with_kept (F.contents taken.new.handler.came.now)
        (command_state (view_of S.state taken.new.handler.desk.now) (W.contents writer.new)))) }
    ensures same_keeper { taken.new.handler.desk.ghost_name ≡ taken.old.handler.desk.ghost_name }
    ensures same_came { taken.new.handler.came.ghost_name ≡ taken.old.handler.came.ghost_name }
    ensures counted { CountsTaking taken.old.handler.form.is_kept result
        (S.state taken.old.handler.desk.now.store).failures (S.state taken.new.handler.desk.now.store).failures }
{
    match handle_input(alloc, reader, writer, taken) {
        Ok(_) => Ok(taken.handler.all_fine),
        Err(fault) => Err(fault),
    }
}

/// A handler that takes each APDU at `desk`, in the form `form`. If the form says so, it keeps taken ones in `came`.
/// It writes the text of each. `all_fine` is true if none was refused or in conflict so far.
#[derive(Drop)]
struct TakesEach<'a, 'b, H: Holdings, S: Store, F: Write> {
    desk: &'a mut AnyDesk<H, S>,
    came: &'b mut F,
    form: TakeForm,
    all_fine: bool,
}

impl<H: Holdings, S: Store, F: Write> TakesEach<'_, '_, H, S, F> {
    /// Takes `apdu`, which was read as `read`. If it was taken, it is kept as the form says, and saved. Then its text
    /// is written.
    fn take_and_print<W: Write>(
        &mut self,
        alloc: Global,
        writer: &mut W,
        apdu: &Apdu,
        read: &ApduView<'_>,
    ) -> Result<(), ToolFault>
        requires same { read.now ≡ apdu.now }
        ensures takes { TakesMessage self.old.form.is_kept (wording self.old.form.is_long) H.effects
            (progress (with_kept (F.contents self.old.came.now)
            (command_state (view_of S.state self.old.desk.now) (W.contents writer.old))) self.old.all_fine)
            apdu.now result
            (progress (with_kept (F.contents self.new.came.now)
            (command_state (view_of S.state self.new.desk.now) (W.contents writer.new))) self.new.all_fine) }
        ensures same_form { self.new.form ≡ self.old.form }
        ensures keeps { KeepsBorrowed self.old.form.is_kept result
            (borrowed_parts self.old.desk.ghost_name self.old.came.ghost_name (S.state self.old.desk.now.store).failures)
            (borrowed_parts self.new.desk.ghost_name self.new.came.ghost_name (S.state self.new.desk.now.store).failures) }
    {
        let is_kept = self.form.is_kept;
        match take_and_save(alloc, self.desk, is_kept, self.came, apdu) {
            Ok(outcome) => {
                let printed = PrintedMessage {
                    apdu: read,
                    is_long: self.form.is_long,
                };
                let now = self.desk.shown(H::key_of(apdu));
                match report_message(alloc, writer, &printed, outcome, now) {
                    Ok(fine) => {
                        self.all_fine &= fine;
                        Ok(())
                    }
                    Err(fault) => Err(fault),
                }
            }
            Err(fault) => Err(fault),
        }
    }
}

impl<H: Holdings, S: Store, F: Write, W: Write> Handler<W> for TakesEach<'_, '_, H, S, F> {
    type Fault = ToolFault;

    ghost handles = { λ old apdu result new. TakesMessage old.0.form.is_kept (wording old.0.form.is_long) H.effects
        (progress (with_kept (F.contents old.0.came.now)
        (command_state (view_of S.state old.0.desk.now) (W.contents old.1))) old.0.all_fine)
        apdu result
        (progress (with_kept (F.contents new.0.came.now)
        (command_state (view_of S.state new.0.desk.now) (W.contents new.1))) new.0.all_fine)
        × (new.0.form ≡ old.0.form)
        × KeepsBorrowed old.0.form.is_kept result
        (borrowed_parts old.0.desk.ghost_name old.0.came.ghost_name (S.state old.0.desk.now.store).failures)
        (borrowed_parts new.0.desk.ghost_name new.0.came.ghost_name (S.state new.0.desk.now.store).failures) };

    fn handle(
        &mut self,
        alloc: Global,
        writer: &mut W,
        apdu: &ApduView<'_>,
    ) -> Result<(), ToolFault> {
        match apdu.to_apdu(alloc) {
            Ok(owned) => self.take_and_print(alloc, writer, &owned, apdu),
            Err(_) => Err(ToolFault::OutOfMemory),
        }
    }
}

/// Takes `apdu`. If it was taken and `is_kept` is set, it is kept in `came`. Then the desk is saved. Returns the
/// outcome.
fn take_and_save<H: Holdings, S: Store, F: Write>(
    alloc: Global,
    desk: &mut AnyDesk<H, S>,
    is_kept: bool,
    came: &mut F,
    apdu: &Apdu,
) -> Result<DeskOutcome, ToolFault>
    ensures takes { TakesAndSaves H.effects
        (view_of S.state desk.old)
        apdu.now result
        (view_of S.state desk.new) }
    ensures keeps { KeepsTaken is_kept apdu.now result
        (with_kept (F.contents came.old) (command_state (view_of S.state desk.old) None))
        (with_kept (F.contents came.new) (command_state (view_of S.state desk.new) None)) }
    ensures counted { CountsTaking is_kept result (S.state desk.old.store).failures
        (S.state desk.new.store).failures }
{
    match desk.take(alloc, apdu) {
        Ok(Taking::Taken) => match keep_and_save(alloc, desk, is_kept, came, apdu) {
            Ok(()) => Ok(DeskOutcome::Plain(Outcome::Answered(Taking::Taken))),
            Err(fault) => Err(fault),
        },
        Ok(taking) => Ok(DeskOutcome::Plain(Outcome::Answered(taking))),
        Err(fault) => refused(fault),
    }
}

/// Keeps `apdu`, which was taken, in `came` if `is_kept` is set. Then it saves the desk.
fn keep_and_save<H: Holdings, S: Store, F: Write>(
    alloc: Global,
    desk: &mut AnyDesk<H, S>,
    is_kept: bool,
    came: &mut F,
    apdu: &Apdu,
) -> Result<(), ToolFault>
    ensures saves { SavesTaken H.effects
        (view_of S.state desk.old) result
        (view_of S.state desk.new) }
    ensures keeps { KeepsBefore (kept_text is_kept apdu.now) result
        (with_kept (F.contents came.old) (command_state (view_of S.state desk.old) None))
        (with_kept (F.contents came.new) (command_state (view_of S.state desk.new) None)) }
    ensures counted { CountsTaking is_kept result (S.state desk.old.store).failures
        (S.state desk.new.store).failures }
{
    if is_kept {
        keep(alloc, came, apdu)?;
    }
    match desk.save(alloc) {
        Ok(()) => Ok(()),
        Err(fault) => Err(fault.into()),
    }
}

/// Keeps the message `apdu`: its bytes are written and flushed.
fn keep<F: Write>(alloc: Global, came: &mut F, apdu: &Apdu) -> Result<(), ToolFault>
    ensures { KeepsPrefix (encoding apdu.now) (F.contents came.old) (F.contents came.new) result }
{
    let bytes = encode(alloc, apdu)?;
    keep_bytes(came, &bytes)
}

/// Keeps `bytes` of messages: they are written and flushed. If that fails, it is a failure of the store.
pub fn keep_bytes<F: Write>(came: &mut F, bytes: &[u8]) -> Result<(), ToolFault>
    ensures { KeepsPrefix bytes.now (F.contents came.old) (F.contents came.new) result }
{
    match write_and_flush(came, bytes) {
        Ok(()) => Ok(()),
        Err(_) => Err(STORE_FAILED),
    }
}
