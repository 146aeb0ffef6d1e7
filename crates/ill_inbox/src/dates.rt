//! The deeds that a date makes due for a responder. They are Overdue in an overdue loan, and Expire of a request whose
//! expiry date is past.

ghost use Rattle.std.specs.Prelude.{◌≡◌, ◌++◌, map, slice_get, IfErr, IfOk, OnOk};
ghost use Rattle.std.specs.Option.{option_to_list};
ghost use Rattle.ill_text.specs.declared.fault.ToolFault.TheVariants.{OutOfMemory};
ghost use Rattle.ill_core.specs.Verbs.{deed_verb, verb_name};
ghost use Rattle.ill_text.specs.Fault.{CountsToolFailure};
ghost use Rattle.ill_text.specs.LongLines.{word};
ghost use Rattle.ill_desk.specs.Telling.{done_line};
ghost use Rattle.ill_desk.specs.Performing.{SavesOnce, command_state, view_of};
ghost use Rattle.ill_text.specs.declared.form.Form.TheVariants as forms;
ghost use Rattle.ill_inbox.specs.Objects.{printed_deed};
ghost use Rattle.ill_inbox.specs.Dates.{RunsDates, RunsDeeds, after_deed, after_deeds, all_due, deed_at, deed_by_date, printed_deeds, doing, due_at, due_in, is_overdue, may_expire};
ghost use Rattle.ill_text.specs.Diary.{diary_state};
ghost use Rattle.ill_inbox.specs.DeedDiary.{EntersDeeds, lines_of_dates, lines_of_doing};

use crate::deed_diary::DeedDiary;
use crate::due::Due;
use crate::objects::push_deed_object;
use ill_core::{Deed, State};
use ill_desk::side_line::push_done_line;
use ill_night::night::Dates;
use ill_saved::{Action, AnyDesk, Desk, DeskFault, Holdings, Role, Shown, Side, Sides, Store};
use ill_text::fault::ToolFault;
use ill_text::form::Form;
use ill_text::long_lines::push_word;
use ill_text::output::write_and_flush;
use ill_values::{Day, OutOfMemory as NoMemory, TxnId};
use ill_words::waiting::is_sooner;
use std::alloc::Global;
use std::io::Write;

/// The dates of a run: a day, the deeds that it may make due, and the form in which they are printed.
#[derive(Clone, Copy)]
pub struct DatesRun {
    /// The day.
    pub today: Day,
    /// The kinds of deeds.
    pub which: Dates,
    /// The form.
    pub form: Form,
}

/// Deeds that are due in a run.
#[derive(Clone, Copy)]
pub(crate) struct DuesOn<'a> {
    /// The day.
    pub today: Day,
    /// The deeds, in the order of their loans.
    pub dues: &'a [Due],
    /// The form in which they are printed.
    pub form: Form,
}

/// Performs the deeds of the kinds `which` that are due on the day `today`, in the order of the desk's loans. If any
/// was done, it then saves the desk once. For each done deed it writes a line, and then it flushes these lines:
/// `GROUP TRANSACTION VERB done STATE DUE RELEASED/ISSUED`. A refused deed changes nothing, and has no line. At the
/// desk of a requester nothing is done.
///
/// After every fault the store has its old record, or the one with all deeds. Unless the fault is `Write`, nothing was
/// written.
pub fn run_desk_dates<S: Store, W: Write>(
    alloc: Global,
    desk: &mut Desk<S>,
    today: Day,
    which: Dates,
    writer: &mut W,
) -> Result<(), ToolFault>
    ensures runs { RunsDates forms.Lines which today (command_state (view_of S.state desk.old) (W.contents writer.old)) result
        (command_state (view_of S.state desk.new) (W.contents writer.new)) }
    ensures counted { CountsToolFailure result (S.state desk.old.store).failures (S.state desk.new.store).failures }
{
    let dates = DatesRun {
        today,
        which,
        form: Form::Lines,
    };
    run_desk_dates_entered(alloc, desk, dates, &mut DeedDiary::none(alloc), writer)
}

/// Performs the deeds that are due on the day of `dates`, as `run_desk_dates` does, and prints them in its form. Each
/// done deed is entered in `diary` before the save.
pub fn run_desk_dates_entered<S: Store, D: Write, W: Write>(
    alloc: Global,
    desk: &mut Desk<S>,
    dates: DatesRun,
    diary: &mut DeedDiary<D>,
    writer: &mut W,
) -> Result<(), ToolFault>
    ensures runs { RunsDates dates.form dates.which dates.today (command_state (view_of S.state desk.old) (W.contents writer.old)) result
        (command_state (view_of S.state desk.new) (W.contents writer.new)) }
    ensures entered { EntersDeeds result (lines_of_dates dates.which dates.today diary.old.begin.items desk.old.live)
        (diary_state (D.contents diary.old.diary.stream) diary.old.diary.has_failed)
        (diary_state (D.contents diary.new.diary.stream) diary.new.diary.has_failed) }
    ensures counted { CountsToolFailure result (S.state desk.old.store).failures (S.state desk.new.store).failures }
{
    let DatesRun { today, which, form } = dates;
    match all_due(alloc, desk.sides(), today, which) {
        Ok(dues) => {
            let on_day = DuesOn {
                today,
                dues: &dues,
                form,
            };
            run_deeds(alloc, desk, on_day, diary, writer)
        }
        Err(_) => Err(ToolFault::OutOfMemory),
    }
}

/// Returns the deeds of the kinds `which` that are due on the day `today` in the loans of `sides`, in their order.
fn all_due(alloc: Global, sides: &Sides, today: Day, which: Dates) -> Result<Vec<Due>, NoMemory>
    ensures { IfOk result (λ dues. dues.items ≡ all_due which today sides.now.sides) }
{
    let mut dues = Vec::new(alloc);
    for place in 0..sides.len() {
        push_due_at(&mut dues, sides, place, today, which)?;
    }
    Ok(dues)
}

/// Appends to `dues` the deed that is due in the loan at `place`, if there is one.
fn push_due_at(
    dues: &mut Vec<Due>,
    sides: &Sides,
    place: usize,
    today: Day,
    which: Dates,
) -> Result<(), NoMemory>
    ensures { OnOk result (dues.new.items ≡ dues.old.items
        ++ option_to_list (due_at which today (slice_get sides.now.sides place))) }
{
    match sides.at(place) {
        Some(side) => push_due(dues, side, today, which),
        None => Ok(()),
    }
}

/// Appends to `dues` the deed that is due in the loan of `side`, if there is one.
fn push_due(dues: &mut Vec<Due>, side: &Side, today: Day, which: Dates) -> Result<(), NoMemory>
    ensures { OnOk result (dues.new.items ≡ dues.old.items
        ++ option_to_list (due_in which today side.now)) }
{
    if let Some(deed) = deed_by_date(which, today, side) {
        let txn = side.txn().copy(*dues.allocator())?;
        dues.push(Due { txn, deed })?;
    }
    Ok(())
}

/// Returns the deed that is due in the loan of `side`, if there is one. A requester has no deeds.
fn deed_by_date(which: Dates, today: Day, side: &Side) -> Option<Deed>
    ensures { result ≡ deed_by_date which today side.now }
{
    match side.role() {
        Role::Requester => None,
        Role::Responder => deed_at(which, today, side.state(), side.due()),
    }
}

/// Returns the deed to attempt in a responder's loan in `state`, due on `due`, if there is one. Expire is attempted for
/// each open request, and refused if the request has not expired.
fn deed_at(which: Dates, today: Day, state: State, due: Option<Day>) -> Option<Deed>
    ensures { result ≡ deed_at which today state due }
{
    if which.overdue && is_overdue(today, state, due) {
        return Some(Deed::Overdue);
    }
    if which.expire && may_expire(state) {
        return Some(Deed::Expire);
    }
    None
}

/// Returns true if the item is out, and its due date is before the day `today`.
fn is_overdue(today: Day, state: State, due: Option<Day>) -> bool
    ensures { result ≡ is_overdue today state due }
{
    matches!(state, State::Shipped | State::RenewPending) && is_sooner(due, Some(today))
}

/// Returns true if a request in `state` may still expire.
fn may_expire(state: State) -> bool
    ensures { result ≡ may_expire state }
{
    matches!(state, State::InProcess | State::Conditional)
}

/// Performs the deeds of `on_day` in their order, enters the done ones in `diary`, saves once, and prints them.
fn run_deeds<H: Holdings<Key = TxnId>, S: Store, D: Write, W: Write>(
    alloc: Global,
    desk: &mut AnyDesk<H, S>,
    on_day: DuesOn<'_>,
    diary: &mut DeedDiary<D>,
    writer: &mut W,
) -> Result<(), ToolFault>
    ensures runs { RunsDeeds on_day.entry.form H.effects (after_deeds H.effects on_day.entry.today desk.old.live on_day.entry.dues.now)
        (command_state (view_of S.state desk.old) (W.contents writer.old)) result
        (command_state (view_of S.state desk.new) (W.contents writer.new)) }
    ensures entered { EntersDeeds result (lines_of_doing H.effects diary.old.begin.items
        (after_deeds H.effects on_day.entry.today desk.old.live on_day.entry.dues.now))
        (diary_state (D.contents diary.old.diary.stream) diary.old.diary.has_failed)
        (diary_state (D.contents diary.new.diary.stream) diary.new.diary.has_failed) }
    ensures counted { CountsToolFailure result (S.state desk.old.store).failures
        (S.state desk.new.store).failures }
{
    let done = perform(alloc, desk, on_day.today, on_day.dues)?;
    let printed = printed_deeds(alloc, on_day.form, desk, &done)?;
    let entries = diary.lines(alloc, desk, &done)?;
    diary.enter(&entries);
    if let Err(fault) = save_any(alloc, desk, &done) {
        return Err(fault);
    }
    match write_and_flush(writer, &printed) {
        Ok(()) => Ok(()),
        Err(_) => Err(ToolFault::Write),
    }
}

/// Performs `dues` on the day `today`, in their order, and returns the ones that were done. It fails if memory runs
/// out.
fn perform<'a, H: Holdings<Key = TxnId>, S: Store>(
    alloc: Global,
    desk: &mut AnyDesk<H, S>,
    today: Day,
    dues: &'a [Due],
) -> Result<Vec<&'a Due>, ToolFault>
    ensures performed { IfOk result (λ done. doing desk.new.live (map (λ due. due.now) done.items)
        ≡ after_deeds H.effects today desk.old.live dues.now) }
    ensures fault { IfErr result (λ fault. fault ≡ OutOfMemory) }
    ensures store { desk.new.store ≡ desk.old.store }
{
    let mut done = Vec::new(alloc);
    for due in dues {
        if let Err(fault) = perform_one(alloc, desk, today, due, &mut done) {
            return Err(fault);
        }
    }
    Ok(done)
}

/// Performs `due` on the day `today`, and appends it to `done` if it is not refused.
fn perform_one<'a, H: Holdings<Key = TxnId>, S: Store>(
    alloc: Global,
    desk: &mut AnyDesk<H, S>,
    today: Day,
    due: &'a Due,
    done: &mut Vec<&'a Due>,
) -> Result<(), ToolFault>
    ensures performed { OnOk result (doing desk.new.live (map (λ due. due.now) done.new.items)
        ≡ after_deed H.effects today (doing desk.old.live (map (λ due. due.now) done.old.items)) due.now) }
    ensures fault { IfErr result (λ fault. fault ≡ OutOfMemory) }
    ensures store { desk.new.store ≡ desk.old.store }
{
    match desk.act_on(alloc, &due.txn, &Action::Deed(due.deed, today)) {
        Ok(()) => Ok(done.push(due)?),
        Err(DeskFault::OutOfMemory) => Err(ToolFault::OutOfMemory),
        Err(_) => Ok(()),
    }
}

/// Saves all sides at once, if `done` has a deed.
fn save_any<H: Holdings, S: Store>(
    alloc: Global,
    desk: &mut AnyDesk<H, S>,
    done: &[&Due],
) -> Result<(), ToolFault>
    ensures saves { SavesOnce H.effects (map (λ due. due.now) done.now)
        (view_of S.state desk.old) result
        (view_of S.state desk.new) }
    ensures counted { CountsToolFailure result (S.state desk.old.store).failures
        (S.state desk.new.store).failures }
{
    if done.is_empty() {
        return Ok(());
    }
    match desk.save(alloc) {
        Ok(()) => Ok(()),
        Err(fault) => Err(fault.into()),
    }
}

/// Returns the lines or objects of the deeds of `done`, with the state of each loan once all is saved.
fn printed_deeds<H: Holdings<Key = TxnId>, S: Store>(
    alloc: Global,
    form: Form,
    desk: &AnyDesk<H, S>,
    done: &[&Due],
) -> Result<Vec<u8>, NoMemory>
    ensures { IfOk result (λ printed. printed.items
        ≡ printed_deeds form H.effects desk.now.live (map (λ due. due.now) done.now)) }
{
    let mut printed = Vec::new(alloc);
    for due in done {
        push_deed(&mut printed, form, desk, due)?;
    }
    Ok(printed)
}

/// Appends the line or the object of the deed `due`, with its loan as it is once all is saved.
fn push_deed<H: Holdings<Key = TxnId>, S: Store>(
    printed: &mut Vec<u8>,
    form: Form,
    desk: &AnyDesk<H, S>,
    due: &Due,
) -> Result<(), NoMemory>
    ensures { OnOk result (printed.new.items ≡ printed.old.items ++ printed_deed form H.effects desk.now.live due.now) }
{
    let now = desk.shown(&due.txn).once_saved();
    match form {
        Form::Lines => push_deed_line(printed, due, now),
        Form::Json => push_deed_object(printed, due, now),
    }
}

/// Appends the line of the deed `due`, with its loan shown as `now`.
fn push_deed_line(lines: &mut Vec<u8>, due: &Due, now: Shown) -> Result<(), NoMemory>
    ensures { OnOk result (lines.new.items ≡ lines.old.items ++ (word due.now.txn.group ++ (word due.now.txn.transaction
        ++ (word (verb_name (deed_verb due.now.deed)) ++ done_line now)))) }
{
    push_word(lines, due.txn.group())?;
    push_word(lines, due.txn.transaction())?;
    push_word(lines, due.deed.verb().name().as_bytes())?;
    push_done_line(lines, now)
}
