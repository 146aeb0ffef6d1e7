//! The command `inbox`: a desk takes many message files, and saves once.

ghost use Rattle.std.specs.Prelude.{◌≡◌, ◌≤◌, [], ◌∷◌, ◌++◌, Ok, None, IfErr, IfOk, OnOk};
ghost use Rattle.ill_text.specs.declared.fault.ToolFault.TheVariants.{OutOfMemory};
ghost use Rattle.ill_saved.specs.ManySides.{many_sides};
ghost use Rattle.ill_desk.specs.Performing.{SavesOnce, command_state, handed, is_change, view_of, with_kept};
ghost use Rattle.ill_desk.specs.Take.{KeepsBefore};
ghost use Rattle.ill_night.specs.MessageFiles.{message_in};
ghost use Rattle.ill_inbox.specs.Inbox.{Succeeded, HandsOver, RunsInbox, after_all, after_message_file, after_message, answered_with, arrived_of, concluded, kept_bytes, sorting_of, with_message};
ghost use Rattle.ill_inbox.specs.Objects.{printed_message, printed_verdict};

use crate::objects::{print_message, print_tally, print_verdict};
use crate::tally::Tally;
use ill_core::Taking;
use ill_der::ApduView;
use ill_desk::refusal::refused;
use ill_desk::take::keep_bytes;
use ill_night::message::message_in;
use ill_night::verdict::{Batch, MessageFile, Verdict};
use ill_saved::{AnyDesk, Desk, Holdings, Shown, Store};
use ill_text::fault::ToolFault;
use ill_text::form::Form;
use ill_text::output::write_and_flush;
use ill_values::{Apdu, OutOfMemory as NoMemory};
use ill_words::{DeskOutcome, Outcome};
use std::alloc::Global;
use std::io::Write;

/// Takes the message of each message file of `batch` at `desk`, in their order. It writes the taken messages to `came`
/// and flushes them. If there are any, it then saves the desk once. Then it writes the verdict of each message file and
/// the counts, in the form of `batch`, and flushes them. The last count is the number of further message files. It
/// returns the verdicts.
///
/// Only after `Ok` may the file of a message file be removed. After every fault the store has its old record, or the
/// one with all message files. Unless the fault is `Write`, nothing was written to `writer`.
pub fn run_desk_inbox<S: Store, F: Write, W: Write>(
    alloc: Global,
    desk: &mut Desk<S>,
    batch: &Batch<'_>,
    came: &mut F,
    writer: &mut W,
) -> Result<Vec<Verdict>, ToolFault>
    ensures runs { RunsInbox many_sides (arrived_of batch.now)
        (with_kept (F.contents came.old) (command_state (view_of S.state desk.old) (W.contents writer.old)))
        (answered_with (λ verdicts. verdicts.items) result)
        (with_kept (F.contents came.new) (command_state (view_of S.state desk.new) (W.contents writer.new))) }
    ensures ended { IfOk result (λ verdicts. Succeeded batch.now.message_files.now verdicts.items
        (view_of S.state desk.new)) }
    ensures never_fewer { (S.state desk.old.store).failures ≤ (S.state desk.new.store).failures }
{
    run_inbox(alloc, desk, batch, came, writer)
}

/// Does what `run_desk_inbox` does, at a desk of any kind.
fn run_inbox<H: Holdings, S: Store, F: Write, W: Write>(
    alloc: Global,
    desk: &mut AnyDesk<H, S>,
    batch: &Batch<'_>,
    came: &mut F,
    writer: &mut W,
) -> Result<Vec<Verdict>, ToolFault>
    ensures runs { RunsInbox H.effects (arrived_of batch.now)
        (with_kept (F.contents came.old) (command_state (view_of S.state desk.old) (W.contents writer.old)))
        (answered_with (λ verdicts. verdicts.items) result)
        (with_kept (F.contents came.new) (command_state (view_of S.state desk.new) (W.contents writer.new))) }
    ensures never_fewer { (S.state desk.old.store).failures ≤ (S.state desk.new.store).failures }
{
    let sorted = sort(alloc, desk, batch)?;
    if let Err(fault) = keep_and_save(alloc, desk, came, &sorted.kept) {
        return Err(fault);
    }
    match write_and_flush(writer, &sorted.printed) {
        Ok(()) => Ok(sorted.verdicts),
        Err(fault) => Err(fault),
    }
}

/// The verdicts on the message files of a run so far, what is printed of them, and the bytes of taken messages.
#[derive(Drop)]
pub(crate) struct Sorted {
    /// The form in which the message files are printed.
    form: Form,
    /// The verdicts of the message files, in their order.
    verdicts: Vec<Verdict>,
    /// The lines or objects of the message files.
    printed: Vec<u8>,
    /// The bytes of the messages that were taken.
    kept: Vec<u8>,
}

/// Hands the messages of all message files to their sides, in their order. It prints the message files and their
/// messages, and then the counts.
fn sort<H: Holdings, S: Store>(
    alloc: Global,
    desk: &mut AnyDesk<H, S>,
    batch: &Batch<'_>,
) -> Result<Sorted, ToolFault>
    ensures sorted { IfOk result (λ sorted. sorting_of desk.new.live sorted
        ≡ concluded batch.now.waiting (after_all H.effects (arrived_of batch.now) desk.old.live)) }
    ensures fault { IfErr result (λ fault. fault ≡ OutOfMemory) }
    ensures store { desk.new.store ≡ desk.old.store }
{
    let mut sorted = sort_message_files(alloc, desk, batch)?;
    let tally = Tally::of(&sorted.verdicts);
    match print_tally(&mut sorted.printed, sorted.form, &tally, batch.waiting) {
        Ok(()) => Ok(sorted),
        Err(_) => Err(ToolFault::OutOfMemory),
    }
}

/// Hands the messages of all message files to their sides, in their order. It prints the message files and their
/// messages, but not the counts.
fn sort_message_files<H: Holdings, S: Store>(
    alloc: Global,
    desk: &mut AnyDesk<H, S>,
    batch: &Batch<'_>,
) -> Result<Sorted, ToolFault>
    ensures sorted { IfOk result (λ sorted. sorting_of desk.new.live sorted
        ≡ after_all H.effects (arrived_of batch.now) desk.old.live) }
    ensures fault { IfErr result (λ fault. fault ≡ OutOfMemory) }
    ensures store { desk.new.store ≡ desk.old.store }
{
    let mut sorted = Sorted {
        form: batch.form,
        verdicts: Vec::new(alloc),
        printed: Vec::new(alloc),
        kept: Vec::new(alloc),
    };
    for message_file in batch.message_files {
        if let Err(fault) = sorted.sort_message_file(alloc, desk, message_file) {
            return Err(fault);
        }
    }
    Ok(sorted)
}

impl Sorted {
    /// Hands the message of `message_file` to its side, if it has one, and adds its verdict.
    fn sort_message_file<H: Holdings, S: Store>(
        &mut self,
        alloc: Global,
        desk: &mut AnyDesk<H, S>,
        message_file: &MessageFile,
    ) -> Result<(), ToolFault>
        ensures sorted { OnOk result (sorting_of desk.new.live self.new
            ≡ after_message_file H.effects (sorting_of desk.old.live self.old) message_file.now) }
        ensures fault { IfErr result (λ fault. fault ≡ OutOfMemory) }
        ensures store { desk.new.store ≡ desk.old.store }
    {
        match &message_file.bytes {
            Some(bytes) => self.sort_bytes(alloc, desk, &message_file.name, bytes),
            None => self.settle(&message_file.name, Verdict::unread(message_file.letter)),
        }
    }

    /// Hands the message in `bytes`, of the message file `name`, to its side, and adds the verdict.
    fn sort_bytes<H: Holdings, S: Store>(
        &mut self,
        alloc: Global,
        desk: &mut AnyDesk<H, S>,
        name: &[u8],
        bytes: &[u8],
    ) -> Result<(), ToolFault>
        ensures sorted { OnOk result (sorting_of desk.new.live self.new
            ≡ after_message H.effects name.now bytes.now (message_in bytes.now)
            (sorting_of desk.old.live self.old)) }
        ensures fault { IfErr result (λ fault. fault ≡ OutOfMemory) }
        ensures store { desk.new.store ≡ desk.old.store }
    {
        match message_in(bytes) {
            Ok(read) => match self.sort_message(alloc, desk, bytes, &read) {
                Ok(outcome) => self.settle(name, Verdict::of(desk.role(), outcome)),
                Err(fault) => Err(fault),
            },
            Err(unfit) => self.settle(name, Verdict::without_message(bytes, unfit)),
        }
    }

    /// Hands the message `read`, which stands in `bytes`, to its side. It prints the message, and keeps its bytes if it
    /// was taken. It returns the outcome.
    fn sort_message<H: Holdings, S: Store>(
        &mut self,
        alloc: Global,
        desk: &mut AnyDesk<H, S>,
        bytes: &[u8],
        read: &ApduView<'_>,
    ) -> Result<DeskOutcome, ToolFault>
        ensures handed { IfOk result (λ outcome.
            handed H.effects desk.old.live read.now ≡ (Ok outcome, desk.new.live)) }
        ensures sorted { IfOk result (λ outcome. sorting_of desk.new.live self.new
            ≡ with_message H.effects bytes.now read.now outcome desk.new.live
            (sorting_of desk.old.live self.old)) }
        ensures fault { IfErr result (λ fault. fault ≡ OutOfMemory) }
        ensures store { desk.new.store ≡ desk.old.store }
    {
        let apdu = read.to_apdu(alloc)?;
        let outcome = deliver(alloc, desk, &apdu)?;
        let now = desk.shown(H::key_of(&apdu)).once_saved();
        self.tell(bytes, read, outcome, now)?;
        Ok(outcome)
    }

    /// Tells the message `read`, which stands in `bytes`, and keeps its bytes if it was taken.
    fn tell(
        &mut self,
        bytes: &[u8],
        read: &ApduView<'_>,
        outcome: DeskOutcome,
        now: Shown,
    ) -> Result<(), NoMemory>
        ensures verdicts { self.new.verdicts ≡ self.old.verdicts }
        ensures form { self.new.form ≡ self.old.form }
        ensures printed { OnOk result (self.new.printed.items ≡ self.old.printed.items
            ++ printed_message self.old.form read.now outcome now) }
        ensures kept { OnOk result (self.new.kept.items ≡ self.old.kept.items ++ kept_bytes outcome bytes.now) }
    {
        print_message(&mut self.printed, self.form, read, outcome, now)?;
        if is_change(outcome) {
            self.kept.extend_from_slice(bytes)?;
        }
        Ok(())
    }

    /// Adds the verdict of a message file, and prints it if it stays.
    fn settle(&mut self, name: &[u8], verdict: Verdict) -> Result<(), ToolFault>
        ensures verdicts { OnOk result (self.new.verdicts.items ≡ self.old.verdicts.items ++ verdict ∷ []) }
        ensures form { self.new.form ≡ self.old.form }
        ensures printed { OnOk result (self.new.printed.items ≡ self.old.printed.items
            ++ printed_verdict self.old.form name.now verdict) }
        ensures kept { self.new.kept ≡ self.old.kept }
        ensures fault { IfErr result (λ fault. fault ≡ OutOfMemory) }
    {
        print_verdict(&mut self.printed, self.form, name, verdict)?;
        self.verdicts.push(verdict)?;
        Ok(())
    }
}

/// Hands `apdu` to its side, and returns the outcome. It fails if memory runs out.
fn deliver<H: Holdings, S: Store>(
    alloc: Global,
    desk: &mut AnyDesk<H, S>,
    apdu: &Apdu,
) -> Result<DeskOutcome, ToolFault>
    ensures handed { HandsOver H.effects desk.old.live apdu.now result desk.new.live }
    ensures fault { IfErr result (λ fault. fault ≡ OutOfMemory) }
    ensures store { desk.new.store ≡ desk.old.store }
{
    match desk.take(alloc, apdu) {
        Ok(taking) => Ok(DeskOutcome::Plain(Outcome::Answered(taking))),
        Err(fault) => refused(fault),
    }
}

/// Returns true for a change, which must be saved: an action was done, or a message was taken.
fn is_change(outcome: DeskOutcome) -> bool
    ensures { result ≡ is_change outcome }
{
    matches!(
        outcome,
        DeskOutcome::Plain(Outcome::Done | Outcome::Answered(Taking::Taken))
    )
}

/// Writes the bytes `kept` of the taken messages to `came`, and then saves once. Without taken messages it does
/// nothing. If the bytes cannot be written, it saves nothing.
fn keep_and_save<H: Holdings, S: Store, F: Write>(
    alloc: Global,
    desk: &mut AnyDesk<H, S>,
    came: &mut F,
    kept: &[u8],
) -> Result<(), ToolFault>
    ensures saves { SavesOnce H.effects kept.now
        (view_of S.state desk.old) result
        (view_of S.state desk.new) }
    ensures keeps { KeepsBefore kept.now result
        (with_kept (F.contents came.old) (command_state (view_of S.state desk.old) None))
        (with_kept (F.contents came.new) (command_state (view_of S.state desk.new) None)) }
    ensures never_fewer { (S.state desk.old.store).failures ≤ (S.state desk.new.store).failures }
{
    if kept.is_empty() {
        return Ok(());
    }
    keep_bytes(came, kept)?;
    match desk.save(alloc) {
        Ok(()) => Ok(()),
        Err(fault) => Err(fault.into()),
    }
}
