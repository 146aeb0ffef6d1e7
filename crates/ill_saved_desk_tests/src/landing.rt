//! Tests what a save commits, and that a save without memory commits nothing.

use crate::actions::action;
use crate::desk_kind::DeskKind;
use crate::desk_view::DeskView;
use crate::desks::{DeskCall, WrittenCall, answer_of, is_memory, perform, write_answer};
use crate::memory_desk::MemoryDesk;
use ill_desk_kit::plan_of;
use ill_saved::{AnyDesk, MemoryStore, NextCall, Role};
use ill_saved_kit::{Line, role_of};
use ill_test_kit::marks;
use ill_test_kit::marks::TRIES;
use ill_values::TxnId;
use std::alloc::Global;

/// An ILL-Request in transaction G1, T1, with number 1.
const REQUEST: &[u8] = b"\x61\x16\x80\x01\x01\xA1\x08\x81\x02G1\x82\x02T1\x82\x01\x01\x86\x04Maps";

/// Performs `landing ROLE PLAN`. A requester with a saved request cancels, or a responder with a saved request answers.
/// Then it saves under this plan, and restarts from the committed record.
pub fn write<H: DeskKind>(alloc: Global, line: &mut Line, words: &str) -> Option<()> {
    let (role, plan) = words.split_once(' ')?;
    let (role, plan) = (role_of(role)?, plan_of(plan)?);
    let txn = TxnId::new(alloc, b"G1", b"T1").ok()?;
    for _ in 0..TRIES {
        let mut desk: MemoryDesk<H> = created(alloc, role)?;
        let is_again = save(alloc, line, &mut desk, &txn, plan);
        drop(desk);
        if !is_again? {
            return Some(());
        }
    }
    None
}

/// Returns a desk with a new store, in transaction G1, T1.
fn created<H: DeskKind>(alloc: Global, role: Role) -> Option<MemoryDesk<H>> {
    let txn = TxnId::new(alloc, b"G1", b"T1").ok()?;
    AnyDesk::begin(alloc, MemoryStore::new(alloc), H::first(role, txn)).ok()
}

/// Saves the desk twice, the second time under `plan`. Returns true if an allocation of the second save was refused,
/// and it commits nothing. Returns None if it commits something. Else writes the answers, and returns false.
fn save<H: DeskKind>(
    alloc: Global,
    line: &mut Line,
    desk: &mut MemoryDesk<H>,
    txn: &TxnId,
    plan: NextCall,
) -> Option<bool> {
    begin(alloc, desk, txn)?;
    let committed = DeskView::of(alloc, desk, Some(txn));
    act_again(alloc, desk, txn)?;
    let before = DeskView::of(alloc, desk, Some(txn));
    desk.set_next(plan);
    marks::begin(alloc);
    let answer = answer_of(alloc, desk, &DeskCall::Save);
    if marks::is_refused(alloc, is_memory(&answer)) {
        return is_committed(alloc, desk, &before, &committed).then_some(true);
    }
    write_answer(
        line,
        "saved",
        answer,
        &before,
        &DeskView::of(alloc, desk, Some(txn)),
    );
    line.text(", ");
    let written = WrittenCall {
        call: DeskCall::Restart,
        txn: Some(txn),
        word: "restarted",
    };
    perform(alloc, line, desk, &written);
    Some(false)
}

/// Returns true if the desk equals `before`, and after a restart equals `committed`.
fn is_committed<H: DeskKind>(
    alloc: Global,
    desk: &mut MemoryDesk<H>,
    before: &DeskView,
    committed: &DeskView,
) -> bool {
    let is_kept = before.is_of(alloc, desk);
    desk.set_next(NextCall::Works);
    is_kept && desk.restart(alloc).is_ok() && committed.is_of(alloc, desk)
}

/// Makes the desk ask or take a request, and saves it.
fn begin<H: DeskKind>(alloc: Global, desk: &mut MemoryDesk<H>, txn: &TxnId) -> Option<()> {
    match desk.role() {
        Role::Requester => act(alloc, desk, txn, "request none Maps")?,
        Role::Responder => drop(desk.take_bytes(alloc, REQUEST).ok()?),
    }
    desk.save(alloc).ok()
}

/// Performs a second action, which is not saved.
fn act_again<H: DeskKind>(alloc: Global, desk: &mut MemoryDesk<H>, txn: &TxnId) -> Option<()> {
    let words = match desk.role() {
        Role::Requester => "cancel",
        Role::Responder => "20250301 answer unfilled",
    };
    act(alloc, desk, txn, words)
}

/// Performs the action that `words` encode.
fn act<H: DeskKind>(
    alloc: Global,
    desk: &mut MemoryDesk<H>,
    txn: &TxnId,
    words: &str,
) -> Option<()> {
    let action = action(alloc, words)?;
    desk.act_on(alloc, H::key(txn), &action).ok()
}
