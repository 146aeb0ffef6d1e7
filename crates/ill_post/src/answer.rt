//! The answer to a form that was sent.

ghost use Rattle.std.specs.Prelude.{◌≡◌};
ghost use Rattle.ill_text.specs.Diary.{diary_state};
ghost use Rattle.ill_post.specs.Post.{ActsAndSaves, AnswersPost, EntersPost, IsFreshness, Performs, form_shown, state_of, printed};

use crate::stamp::stamp_of;
use ill_saved::{Action, Desk, DeskFault, Store};
use ill_text::diary::Entry;
use ill_values::TxnId;
use std::alloc::Global;
use std::io::Write;

/// A form that was sent from the page of a loan.
#[derive(Drop)]
pub struct Form<'a> {
    /// The transaction of the loan.
    pub txn: &'a TxnId,
    /// The stamp that the loan had on the page.
    pub stamp: &'a [u8],
    /// The action, if the form names one.
    pub action: Option<Action>,
}

/// The answer to a form. Unless it is `Done`, nothing changed.
#[derive(Clone, Copy, Debug, PartialEq, Eq)]
pub enum Posted {
    /// The loan is no longer as the page showed it.
    Changed,
    /// The form names no action of this desk.
    NoAction,
    /// The action was refused.
    Refused(DeskFault),
    /// The action was performed, and saved.
    Done,
}

/// Performs the action of `form`, and saves the desk, if the loan still has the stamp of the form. If the action is
/// done, `entry` is entered in the diary before the save.
pub fn post<S: Store, D: Write>(
    alloc: Global,
    desk: &mut Desk<S>,
    form: &Form<'_>,
    entry: &mut Entry<D>,
) -> Result<Posted, DeskFault>
    ensures answers { AnswersPost (form_shown form.now) (state_of S.state desk.old) result (state_of S.state desk.new) }
    ensures entered { EntersPost result entry.old.line.items
        (diary_state (D.contents entry.old.diary.stream) entry.old.diary.has_failed)
        (diary_state (D.contents entry.new.diary.stream) entry.new.diary.has_failed) }
{
    match is_fresh(alloc, desk, form) {
        Ok(true) => perform(alloc, desk, form, entry),
        Ok(false) => Ok(Posted::Changed),
        Err(fault) => Err(fault),
    }
}

/// Returns true if the loan of `form` still has the stamp of the form.
fn is_fresh<S: Store>(alloc: Global, desk: &Desk<S>, form: &Form<'_>) -> Result<bool, DeskFault>
    ensures { IsFreshness (form_shown form.now) desk.now.live result }
{
    let now = stamp_of(alloc, desk.sides().get(form.txn))?;
    Ok(now.as_bytes() == form.stamp)
}

/// Performs the action of `form`, whose loan is as the page showed it, and saves the desk. If the form names no action,
/// it does nothing.
fn perform<S: Store, D: Write>(
    alloc: Global,
    desk: &mut Desk<S>,
    form: &Form<'_>,
    entry: &mut Entry<D>,
) -> Result<Posted, DeskFault>
    ensures performs { Performs form.now.action form.now.txn.now (state_of S.state desk.old) result
        (state_of S.state desk.new) }
    ensures entered { EntersPost result entry.old.line.items
        (diary_state (D.contents entry.old.diary.stream) entry.old.diary.has_failed)
        (diary_state (D.contents entry.new.diary.stream) entry.new.diary.has_failed) }
{
    match &form.action {
        Some(action) => printed(act_and_save(alloc, desk, form.txn, action, entry)),
        None => Ok(Posted::NoAction),
    }
}

/// Performs `action` in the loan of `txn`. If the action was done, it enters `entry` in the diary, and then saves the
/// desk.
fn act_and_save<S: Store, D: Write>(
    alloc: Global,
    desk: &mut Desk<S>,
    txn: &TxnId,
    action: &Action,
    entry: &mut Entry<D>,
) -> Result<(), DeskFault>
    ensures acts { ActsAndSaves txn.now action.now (state_of S.state desk.old) result (state_of S.state desk.new) }
    ensures entered { EntersPost (printed result) entry.old.line.items
        (diary_state (D.contents entry.old.diary.stream) entry.old.diary.has_failed)
        (diary_state (D.contents entry.new.diary.stream) entry.new.diary.has_failed) }
{
    match desk.act(alloc, txn, action) {
        Ok(()) => {
            entry.enter();
            desk.save(alloc)
        }
        Err(fault) => Err(fault),
    }
}

/// Returns the answer to a form whose action had the result `acted`. A refusal is an answer. Another fault stays one.
fn printed(acted: Result<(), DeskFault>) -> Result<Posted, DeskFault>
    ensures { result ≡ printed acted }
{
    match acted {
        Ok(()) => Ok(Posted::Done),
        Err(fault) => match fault {
            DeskFault::Core(_) | DeskFault::NoSuchTransaction | DeskFault::DeskFull => {
                Ok(Posted::Refused(fault))
            }
            fault => Err(fault),
        },
    }
}
