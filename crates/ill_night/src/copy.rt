//! Copies all that a desk holds to another store.

ghost use Rattle.std.specs.Prelude.{◌≡◌, ◌≤◌, All, Decides, Ok, map, IfErr, IfOk, OnOk};
ghost use Rattle.ill_record.specs.Side.{issued_of, IsPrefix};
ghost use Rattle.ill_saved.specs.ManySides.{sides_held};
ghost use Rattle.ill_record.specs.RecordsV2.{records_at, sides_encoding};
ghost use Rattle.ill_text.specs.Fault.{CountsToolFailure, IsFileFault};
ghost use Rattle.ill_text.specs.Known.{known};
ghost use Rattle.ill_text.specs.declared.fault.ToolFault.TheVariants.{OutOfMemory};
ghost use Rattle.ill_night.specs.Copy.{Copies};
ghost use Rattle.ill_night.specs.CopyOver.{CopiesOver, HasLoan, ReplacesKnown, ReplacesRead, ReplacesSides};

use ill_saved::{
    Desk, DeskFault, RecordFault, Side, Sides, Store, StoreFault, decode_record2, encode_record2,
};
use ill_text::fault::{STORE_FAILED, ToolFault};
use ill_words::sides::all_of;
use std::alloc::Global;

/// The result of a copy.
#[derive(Clone, Copy, Debug, PartialEq, Eq, Hash)]
pub enum Copied {
    /// The store has the record of the desk.
    Done,
    /// The store has a record with something that the desk lacks, and keeps it.
    HasMore,
    /// The store has something that is no record, and keeps it.
    NoRecord,
}

/// Copies `desk` as `run_desk_copy` does, if the desk extends the record in `copy`, or if `copy` has no content. Else
/// `copy` is unchanged, and the result says why. The desk is another one, or an older state of it, or `copy` has no
/// record.
pub fn run_desk_copy_over<S: Store, C: Store>(
    alloc: Global,
    desk: &Desk<S>,
    copy: &mut C,
) -> Result<Copied, ToolFault>
    ensures copies { CopiesOver (sides_held desk.now.live) (known (C.state copy.old)) result
        (known (C.state copy.new)) }
    ensures never_fewer { (C.state copy.old).failures ≤ (C.state copy.new).failures }
{
    let judged = judge_copy(alloc, desk.sides(), copy)?;
    if judged != Copied::Done {
        return Ok(judged);
    }
    match run_desk_copy(alloc, desk, copy) {
        Ok(()) => Ok(Copied::Done),
        Err(fault) => Err(fault),
    }
}

/// Returns the result that a copy of `own` to `copy` has, by what `copy` has. It changes nothing. It fails if the
/// load of `copy` fails or memory runs out.
fn judge_copy<C: Store>(alloc: Global, own: &Sides, copy: &mut C) -> Result<Copied, ToolFault>
    ensures judged { IfOk result (ReplacesKnown own.now (known (C.state copy.old))) }
    ensures fault { IfErr result IsFileFault }
    ensures copy { known (C.state copy.new) ≡ known (C.state copy.old) }
    ensures never_fewer { (C.state copy.old).failures ≤ (C.state copy.new).failures }
{
    match copy.load(alloc) {
        Ok(Some(bytes)) => judge_record(alloc, own, &bytes),
        Ok(None) => Ok(Copied::Done),
        Err(StoreFault::OutOfMemory) => Err(ToolFault::OutOfMemory),
        Err(_) => Err(STORE_FAILED),
    }
}

/// Returns the result that a copy of `own` over the record `bytes` has. It fails if memory runs out.
fn judge_record(alloc: Global, own: &Sides, bytes: &[u8]) -> Result<Copied, ToolFault>
    ensures judged { IfOk result (ReplacesRead own.now (records_at bytes.now)) }
    ensures fault { IfErr result (λ fault. fault ≡ OutOfMemory) }
{
    match decode_record2(alloc, bytes) {
        Ok(copied) => judge_sides(alloc, own, &copied),
        Err(RecordFault::OutOfMemory) => Err(ToolFault::OutOfMemory),
        Err(_) => Ok(Copied::NoRecord),
    }
}

/// Returns the result that a copy of `own` over the sides `copied` has. It fails if memory runs out.
fn judge_sides(alloc: Global, own: &Sides, copied: &Sides) -> Result<Copied, ToolFault>
    ensures judged { IfOk result (ReplacesSides own.now copied.now) }
    ensures fault { IfErr result (λ fault. fault ≡ OutOfMemory) }
{
    let all = all_of(alloc, copied)?;
    if own.role() == copied.role() && have_all(own, &all) {
        Ok(Copied::Done)
    } else {
        Ok(Copied::HasMore)
    }
}

/// Returns true if `own` has the loan of each of `copied`, with at least its messages.
fn have_all(own: &Sides, copied: &[&Side]) -> bool
    ensures { Decides result (All (HasLoan own.now.sides) (map (λ side. side.now) copied.now)) }
{
    for side in copied {
        if !has_loan(own, side) {
            return false;
        }
    }
    true
}

/// Returns true if `own` has the loan of `copied`, with at least its messages.
fn has_loan(own: &Sides, copied: &Side) -> bool
    ensures { Decides result (HasLoan own.now.sides copied.now) }
{
    match own.get(copied.txn()) {
        Some(side) => has_messages(side, copied),
        None => false,
    }
}

/// Returns true if the messages of `copied` are the first ones of `own`.
fn has_messages(own: &Side, copied: &Side) -> bool
    ensures { Decides result (IsPrefix (issued_of copied.now) (issued_of own.now)) }
{
    ill_values::laws::equal_apdus();
    own.all_issued().starts_with(copied.all_issued())
}

/// Saves the record of all that `desk` holds to the store `copy`. Nothing changes at the desk.
///
/// It is the record that `Desk::save` would write, with changes that are not saved yet. A desk that starts from the
/// copy holds these loans again.
pub fn run_desk_copy<S: Store, C: Store>(
    alloc: Global,
    desk: &Desk<S>,
    copy: &mut C,
) -> Result<(), ToolFault>
    ensures copies { Copies (sides_encoding (sides_held desk.now.live))
        (known (C.state copy.old)) result (known (C.state copy.new)) }
    ensures again { OnOk result (records_at (sides_encoding (sides_held desk.now.live))
        ≡ Ok (sides_held desk.now.live)) }
    ensures counted { CountsToolFailure result (C.state copy.old).failures (C.state copy.new).failures }
{
    ill_saved::laws::sides_read_again();
    let record = encode_record2(alloc, desk.sides())?;
    match copy.save(alloc, &record) {
        Ok(()) => Ok(()),
        Err(fault) => Err(DeskFault::from(fault).into()),
    }
}
