//! The command `act`.

ghost use Rattle.std.specs.Prelude.{◌≡◌, map, Some, IfOk, IfErr};
ghost use Rattle.ill_record.specs.Side.{role_of};
ghost use Rattle.ill_desk.specs.Actions.{action_named};
ghost use Rattle.ill_saved.specs.OneSide.{one_side};
ghost use Rattle.ill_saved.specs.ManySides.{many_sides};
ghost use Rattle.ill_desk.specs.Performing.{command_state, view_of};
ghost use Rattle.ill_text.specs.Diary.{diary_state};
ghost use Rattle.ill_text.specs.Fault.{CountsToolFailure};
ghost use Rattle.ill_desk.specs.Act.{ActsAndSaves, EntersDone, FailsToName, RunsAct, fine_of};

use crate::action::action;
use crate::refusal::refused;
use crate::side_line::report;
use ill_saved::{Action, AnyDesk, Desk, Desk1, Holdings, Role, Store};
use ill_text::diary::Entry;
use ill_text::fault::ToolFault;
use ill_values::{Day, TxnId};
use ill_words::{DeskOutcome, Outcome};
use std::alloc::Global;
use std::io::Write;

/// Performs the action that `words` name and saves it. Then it writes a line of the outcome and of the side after it.
/// Returns true if the action was done. A refused action changes and saves nothing.
///
/// A responder acts on the day `today`; a requester needs none. If `words` name no action, the fault is `Arguments`. If
/// the save fails, the action is done in memory, and its message may not be sent. If the writer fails, or memory runs
/// out for the line, the saved record remains.
pub fn run_act<S: Store, W: Write>(
    alloc: Global,
    desk: &mut Desk1<S>,
    today: Option<Day>,
    words: &[&str],
    writer: &mut W,
) -> Result<bool, ToolFault>
    ensures runs { RunsAct one_side tt
        (action_named (role_of desk.old.live.side) today (map (λ word. word.now) words.now))
        (command_state (view_of S.state desk.old) (W.contents writer.old)) result
        (command_state (view_of S.state desk.new) (W.contents writer.new)) }
    ensures counted { CountsToolFailure result (S.state desk.old.store).failures (S.state desk.new.store).failures }
{
    match named(alloc, desk.role(), today, words) {
        Ok(action) => {
            let keyed = KeyedAction {
                key: &(),
                action: &action,
            };
            perform(alloc, desk, &keyed, &mut Entry::none(alloc), writer)
        }
        Err(fault) => Err(fault),
    }
}

/// Performs the action that `words` name on the side of `txn` at `desk`, as `run_act` does. If the desk lacks the
/// transaction and the action does not begin it, the outcome is `no-such-transaction`. If the desk has no room for it,
/// the outcome is `desk-full`. Both are refusals. `words` are read before the transaction is looked for.
pub fn run_desk_act<S: Store, W: Write>(
    alloc: Global,
    desk: &mut Desk<S>,
    txn: &TxnId,
    today: Option<Day>,
    words: &[&str],
    writer: &mut W,
) -> Result<bool, ToolFault>
    ensures runs { RunsAct many_sides txn.now
        (action_named desk.old.live.role today (map (λ word. word.now) words.now))
        (command_state (view_of S.state desk.old) (W.contents writer.old)) result
        (command_state (view_of S.state desk.new) (W.contents writer.new)) }
    ensures counted { CountsToolFailure result (S.state desk.old.store).failures (S.state desk.new.store).failures }
{
    match named(alloc, desk.role(), today, words) {
        Ok(action) => {
            let keyed = KeyedAction {
                key: txn,
                action: &action,
            };
            perform(alloc, desk, &keyed, &mut Entry::none(alloc), writer)
        }
        Err(fault) => Err(fault),
    }
}

/// Returns the action that `words` name at a side of `role`. If they name none, the fault is `Arguments`. If memory
/// runs out, it is `OutOfMemory`.
pub(crate) fn named(
    alloc: Global,
    role: Role,
    today: Option<Day>,
    words: &[&str],
) -> Result<Action, ToolFault>
    ensures action { IfOk result (λ action. action_named role today (map (λ word. word.now) words.now) ≡ Some action) }
    ensures fault { IfErr result (λ fault. FailsToName (action_named role today (map (λ word. word.now) words.now)) fault) }
{
    match action(alloc, role, today, words) {
        Ok(Some(action)) => Ok(action),
        Ok(None) => Err(ToolFault::Arguments),
        Err(_) => Err(ToolFault::OutOfMemory),
    }
}

/// An action, and the key of the side that performs it.
#[derive(Drop)]
pub(crate) struct KeyedAction<'a, K> {
    /// The key of the side.
    pub(crate) key: &'a K,
    /// The action.
    pub(crate) action: &'a Action,
}

/// Performs `keyed` at `desk`, saves it, and writes the line of the side. If the action is done, `entry` is entered
/// before the save. Returns true if the action was done, and false if it was refused.
#[tactic(auto, using(crate::proofs::ActLemmas::enters_printed))]
pub(crate) fn perform<H: Holdings, S: Store, D: Write, W: Write>(
    alloc: Global,
    desk: &mut AnyDesk<H, S>,
    keyed: &KeyedAction<'_, H::Key>,
    entry: &mut Entry<D>,
    writer: &mut W,
) -> Result<bool, ToolFault>
    ensures runs { RunsAct H.effects keyed.now.key.now (Some keyed.now.action.now)
        (command_state (view_of S.state desk.old) (W.contents writer.old)) result
        (command_state (view_of S.state desk.new) (W.contents writer.new)) }
    ensures entered { EntersDone result entry.old.line.items
        (diary_state (D.contents entry.old.diary.stream) entry.old.diary.has_failed)
        (diary_state (D.contents entry.new.diary.stream) entry.new.diary.has_failed) }
    ensures counted { CountsToolFailure result (S.state desk.old.store).failures
        (S.state desk.new.store).failures }
{
    match act_and_save(alloc, desk, keyed.key, keyed.action, entry) {
        Ok(outcome) => report(alloc, writer, outcome, desk.shown(keyed.key)),
        Err(fault) => Err(fault),
    }
}

/// Performs `action` on the side `key`. If it was done, it enters `entry`, and then saves the desk. Returns the
/// outcome.
#[tactic(auto, using(crate::proofs::ActLemmas::enters_nothing))]
fn act_and_save<H: Holdings, S: Store, D: Write>(
    alloc: Global,
    desk: &mut AnyDesk<H, S>,
    key: &H::Key,
    action: &Action,
    entry: &mut Entry<D>,
) -> Result<DeskOutcome, ToolFault>
    ensures acts { ActsAndSaves H.effects key.now
        (view_of S.state desk.old)
        action.now result
        (view_of S.state desk.new) }
    ensures entered { EntersDone (fine_of result) entry.old.line.items
        (diary_state (D.contents entry.old.diary.stream) entry.old.diary.has_failed)
        (diary_state (D.contents entry.new.diary.stream) entry.new.diary.has_failed) }
    ensures counted { CountsToolFailure result (S.state desk.old.store).failures
        (S.state desk.new.store).failures }
{
    match desk.act_on(alloc, key, action) {
        Ok(()) => {
            entry.enter();
            match desk.save(alloc) {
                Ok(()) => Ok(DeskOutcome::Plain(Outcome::Done)),
                Err(fault) => Err(fault.into()),
            }
        }
        Err(fault) => refused(fault),
    }
}
