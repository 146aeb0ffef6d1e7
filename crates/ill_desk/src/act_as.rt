//! The command `act` of a person who says what was seen of the loan, or who asks what would come.

ghost use Rattle.std.specs.Prelude.{◌≡◌, false, map, option_map, Some, IfOk};
ghost use Rattle.ill_saved.specs.ManySides.{many_sides};
ghost use Rattle.ill_text.specs.Diary.{diary_state};
ghost use Rattle.ill_text.specs.Fault.{CountsToolFailure};
ghost use Rattle.ill_desk.specs.Act.{RunsAct, EntersDone};
ghost use Rattle.ill_desk.specs.Actions.{action_named};
ghost use Rattle.ill_desk.specs.Performing.{command_state, view_of};
ghost use Rattle.ill_desk.specs.Telling.{shown_at, WritesOutcome};
ghost use Rattle.ill_desk.specs.ActAs.{EntersUnlessTried, action_line, asking_of, words_line, changed_line, is_as_seen, not_done, RunsActAs, RunsOrTries, RunsTrial, TriesAction, WritesChange, tried_shown, trial_line};

use crate::act::{KeyedAction, named, perform};
use crate::refusal::refused;
use crate::side_line::report;
use ill_core::Taking;
use ill_saved::{Action, Desk, Shown, Store};
use ill_text::diary::{Entry, Stamp, diary_line};
use ill_text::fault::ToolFault;
use ill_text::output::write_whole;
use ill_values::{Day, OutOfMemory, TxnId};
use ill_words::{DeskOutcome, Outcome, push_shown};
use std::alloc::Global;
use std::io::Write;

/// An action that a person asks for.
#[derive(Clone, Copy)]
pub struct ActionView<'a> {
    /// The transaction.
    pub txn: &'a TxnId,
    /// The day of the action, if it is given.
    pub today: Option<Day>,
    /// The name of the person who acts, if one is named.
    pub by: Option<&'a str>,
    /// The words of the action.
    pub words: &'a [&'a str],
    /// The text that the loan was shown with, as `SHIPPED 20250315 2/2`, if the action is to be done on that alone.
    pub seen: Option<&'a str>,
    /// Set if the action is only tried.
    pub is_trial: bool,
}

/// Returns the line of a diary that names the action of `view` at `desk`, as the next message of its loan. The line
/// is empty without a day, without words, and if the action is only tried.
pub fn action_line<S: Store>(
    alloc: Global,
    desk: &Desk<S>,
    view: &ActionView<'_>,
) -> Result<Vec<u8>, OutOfMemory>
    ensures { IfOk result (λ line. line.items ≡ action_line (asking_of view.now) (option_map (λ name. name.now) view.now.by)
        (shown_at many_sides view.now.txn.now desk.now.live).issued) }
{
    if view.is_trial {
        return Ok(Vec::new(alloc));
    }
    words_line(alloc, view, desk.shown(view.txn).issued)
}

/// Returns the line of a diary that names the action of `view`, as the next message of a loan with `issued` messages.
/// The line is empty without a day or without words.
fn words_line(alloc: Global, view: &ActionView<'_>, issued: u8) -> Result<Vec<u8>, OutOfMemory>
    ensures { IfOk result (λ line. line.items ≡ words_line view.now.today (option_map (λ name. name.now) view.now.by)
        view.now.txn.now (map (λ word. word.now) view.now.words.now) issued) }
{
    let (Some(day), Some(verb)) = (view.today, view.words.first()) else {
        return Ok(Vec::new(alloc));
    };
    let stamp = Stamp { day, by: view.by };
    diary_line(alloc, &stamp, view.txn, verb, u32::from(issued) + 1)
}

/// Performs the action of `view`, as `run_desk_act` does. If it is done, `entry` is entered before the save. If
/// `view` says what was seen, and the loan is shown otherwise now, nothing is done. Then a line with `changed` and
/// what is shown is written, and the answer is false.
///
/// If the action is only tried, its line is written as if it was saved, and nothing is saved. The caller must not use
/// the desk after that: its sides in memory are those after the action.
#[tactic(auto, using(crate::proofs::ActLemmas::enters_unasked, crate::proofs::ActLemmas::enters_unseen))]
pub fn run_desk_act_as<S: Store, D: Write, W: Write>(
    alloc: Global,
    desk: &mut Desk<S>,
    view: &ActionView<'_>,
    entry: &mut Entry<D>,
    writer: &mut W,
) -> Result<bool, ToolFault>
    ensures runs { RunsActAs (asking_of view.now)
        (command_state (view_of S.state desk.old) (W.contents writer.old)) result
        (command_state (view_of S.state desk.new) (W.contents writer.new)) }
    ensures entered { EntersUnlessTried view.now.is_trial result entry.old.line.items
        (diary_state (D.contents entry.old.diary.stream) entry.old.diary.has_failed)
        (diary_state (D.contents entry.new.diary.stream) entry.new.diary.has_failed) }
    ensures counted { CountsToolFailure result (S.state desk.old.store).failures (S.state desk.new.store).failures }
{
    match is_as_seen(alloc, view.seen, desk.shown(view.txn)) {
        Ok(true) => act_or_try(alloc, desk, view, entry, writer),
        Ok(false) => print_change(alloc, desk.shown(view.txn), writer),
        Err(_) => Err(ToolFault::OutOfMemory),
    }
}

/// Performs the action of `view`, or only tries it. The caller has found that the loan is as it was seen.
fn act_or_try<S: Store, D: Write, W: Write>(
    alloc: Global,
    desk: &mut Desk<S>,
    view: &ActionView<'_>,
    entry: &mut Entry<D>,
    writer: &mut W,
) -> Result<bool, ToolFault>
    ensures runs { RunsOrTries (asking_of view.now)
        (command_state (view_of S.state desk.old) (W.contents writer.old)) result
        (command_state (view_of S.state desk.new) (W.contents writer.new)) }
    ensures entered { EntersUnlessTried view.now.is_trial result entry.old.line.items
        (diary_state (D.contents entry.old.diary.stream) entry.old.diary.has_failed)
        (diary_state (D.contents entry.new.diary.stream) entry.new.diary.has_failed) }
    ensures counted { CountsToolFailure result (S.state desk.old.store).failures (S.state desk.new.store).failures }
{
    if view.is_trial {
        try_words(alloc, desk, view, writer)
    } else {
        act_words(alloc, desk, view, entry, writer)
    }
}

/// Performs the action of `view`, as `run_desk_act` does. If it is done, `entry` is entered before the save.
fn act_words<S: Store, D: Write, W: Write>(
    alloc: Global,
    desk: &mut Desk<S>,
    view: &ActionView<'_>,
    entry: &mut Entry<D>,
    writer: &mut W,
) -> Result<bool, ToolFault>
    ensures runs { RunsAct many_sides view.now.txn.now
        (action_named desk.old.live.role view.now.today (map (λ word. word.now) view.now.words.now))
        (command_state (view_of S.state desk.old) (W.contents writer.old)) result
        (command_state (view_of S.state desk.new) (W.contents writer.new)) }
    ensures entered { EntersDone result entry.old.line.items
        (diary_state (D.contents entry.old.diary.stream) entry.old.diary.has_failed)
        (diary_state (D.contents entry.new.diary.stream) entry.new.diary.has_failed) }
    ensures counted { CountsToolFailure result (S.state desk.old.store).failures (S.state desk.new.store).failures }
{
    match named(alloc, desk.role(), view.today, view.words) {
        Ok(action) => {
            let keyed = KeyedAction {
                key: view.txn,
                action: &action,
            };
            perform(alloc, desk, &keyed, entry, writer)
        }
        Err(fault) => Err(fault),
    }
}

/// Returns true if `seen` is the text of a side shown as `now`, or if `seen` is `None`.
fn is_as_seen(alloc: Global, seen: Option<&str>, now: Shown) -> Result<bool, OutOfMemory>
    ensures { IfOk result (λ is. is ≡ is_as_seen (option_map (λ text. text.now) seen.entry) now) }
{
    match seen {
        None => Ok(true),
        Some(seen) => {
            let mut text = Vec::new(alloc);
            push_shown(&mut text, now)?;
            Ok(seen.as_bytes() == text.as_slice())
        }
    }
}

/// Writes the line that tells that a side, which is shown as `now`, was not seen so. Returns false.
fn print_change<W: Write>(alloc: Global, now: Shown, writer: &mut W) -> Result<bool, ToolFault>
    ensures { WritesChange now (W.contents writer.old) (W.contents writer.new) result }
{
    match changed_text(alloc, now) {
        Ok(line) => printed(write_whole(writer, &line)),
        Err(_) => Err(ToolFault::OutOfMemory),
    }
}

/// Returns the line that tells that a side, which is shown as `now`, was not seen so.
fn changed_text(alloc: Global, now: Shown) -> Result<Vec<u8>, OutOfMemory>
    ensures { IfOk result (λ line. line.items ≡ changed_line now) }
{
    let mut line = Vec::new(alloc);
    line.extend_from_slice(b"changed ")?;
    push_shown(&mut line, now)?;
    line.push(b'\n')?;
    Ok(line)
}

/// Returns the answer after a line that tells a change: false, or the fault of the writing.
fn printed(written: Result<(), ToolFault>) -> Result<bool, ToolFault>
    ensures { result ≡ not_done written }
{
    match written {
        Ok(()) => Ok(false),
        Err(fault) => Err(fault),
    }
}

/// Performs the action of `view` in memory alone, and writes the line that it would have after a save. If the words
/// name no action, the fault is `Arguments`.
fn try_words<S: Store, W: Write>(
    alloc: Global,
    desk: &mut Desk<S>,
    view: &ActionView<'_>,
    writer: &mut W,
) -> Result<bool, ToolFault>
    ensures runs { RunsTrial many_sides view.now.txn.now
        (action_named desk.old.live.role view.now.today (map (λ word. word.now) view.now.words.now))
        (command_state (view_of S.state desk.old) (W.contents writer.old)) result
        (command_state (view_of S.state desk.new) (W.contents writer.new)) }
    ensures store { desk.new.store ≡ desk.old.store }
{
    match named(alloc, desk.role(), view.today, view.words) {
        Ok(action) => try_action(alloc, desk, view.txn, &action, writer),
        Err(fault) => Err(fault),
    }
}

/// Performs `action` in the transaction `txn` in memory alone, and writes the line that it would have after a save.
fn try_action<S: Store, W: Write>(
    alloc: Global,
    desk: &mut Desk<S>,
    txn: &TxnId,
    action: &Action,
    writer: &mut W,
) -> Result<bool, ToolFault>
    ensures runs { RunsTrial many_sides txn.now (Some action.now)
        (command_state (view_of S.state desk.old) (W.contents writer.old)) result
        (command_state (view_of S.state desk.new) (W.contents writer.new)) }
    ensures store { desk.new.store ≡ desk.old.store }
{
    match act_unsaved(alloc, desk, txn, action) {
        Ok(outcome) => report_trial(alloc, writer, outcome, desk.shown(txn)),
        Err(fault) => Err(fault),
    }
}

/// Performs `action` in the transaction `txn` in memory alone. The store is unchanged.
fn act_unsaved<S: Store>(
    alloc: Global,
    desk: &mut Desk<S>,
    txn: &TxnId,
    action: &Action,
) -> Result<DeskOutcome, ToolFault>
    ensures tries { TriesAction many_sides txn.now (view_of S.state desk.old) action.now result (view_of S.state desk.new) }
    ensures store { desk.new.store ≡ desk.old.store }
{
    match desk.act_on(alloc, txn, action) {
        Ok(()) => Ok(DeskOutcome::Plain(Outcome::Done)),
        Err(fault) => refused(fault),
    }
}

/// Writes the line of an action that was tried, with this outcome. `now` has the shown parts of its side in memory.
/// Returns true if the action was done.
fn report_trial<W: Write>(
    alloc: Global,
    writer: &mut W,
    outcome: DeskOutcome,
    now: Shown,
) -> Result<bool, ToolFault>
    ensures { WritesOutcome trial_line (W.contents writer.old) (W.contents writer.new) outcome now result }
{
    report(alloc, writer, outcome, tried_shown(outcome, now))
}

/// Returns the parts of a side that the line of a trial shows. If the action was done, all messages count as released.
fn tried_shown(outcome: DeskOutcome, now: Shown) -> Shown
    ensures { result ≡ tried_shown outcome now }
{
    match outcome {
        DeskOutcome::Plain(Outcome::Done | Outcome::Answered(Taking::Taken)) => now.once_saved(),
        _ => now,
    }
}
