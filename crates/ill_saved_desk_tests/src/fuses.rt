//! Calls a desk whose store fails from some call on.

use crate::desk_kind::DeskKind;
use crate::desk_view::DeskView;
use crate::desks::{act, save};
use crate::words::write_fault;
use ill_core::State;
use ill_saved::{AnyDesk, DeskFault, FuseStore, ManySides, MemoryStore, OneSide, Role, Store};
use ill_saved_kit::Line;
use ill_test_kit::number_in;
use ill_values::TxnId;
use std::alloc::Global;

/// A store that fails from some call on.
type Fused = FuseStore<MemoryStore>;

/// The new desk, or the fault and the store that was handed back.
type Begun<H, S> = Result<AnyDesk<H, S>, (DeskFault, S)>;

/// Performs `fuse CALLS`: a requester asks, saves, cancels and saves again. Its store passes this many calls on, and
/// then fails. Then a new desk starts from the committed record.
pub fn fuse(alloc: Global, line: &mut Line, words: &str) -> Option<()> {
    fuse_with::<OneSide>(alloc, line, words, ["request none Maps", "cancel"])
}

/// Performs `fuse-many CALLS`: a desk of many transactions asks in one and saves, and then in another.
pub fn fuse_many(alloc: Global, line: &mut Line, words: &str) -> Option<()> {
    let actions = ["G1 T1 request none Maps", "G1 T2 request none Atlas"];
    fuse_with::<ManySides>(alloc, line, words, actions)
}

/// Performs two actions, each with a save, over a store that fails from some call on.
fn fuse_with<H: DeskKind>(
    alloc: Global,
    line: &mut Line,
    words: &str,
    actions: [&str; 2],
) -> Option<()> {
    let calls = number_in(words)?;
    let txn = TxnId::new(alloc, b"G1", b"T1").ok()?;
    let store = FuseStore::new(MemoryStore::new(alloc), calls);
    let begun = AnyDesk::begin(alloc, store, H::first(Role::Requester, txn));
    let store = perform::<H>(alloc, line, begun, actions);
    line.text(", ");
    let started: Begun<H, MemoryStore> = AnyDesk::start(alloc, store);
    write_begun(alloc, line, &started);
    Some(())
}

/// Performs the actions of the desk, if it has begun, and returns the store.
fn perform<H: DeskKind>(
    alloc: Global,
    line: &mut Line,
    begun: Begun<H, Fused>,
    actions: [&str; 2],
) -> MemoryStore {
    write_begun(alloc, line, &begun);
    match begun {
        Ok(mut desk) => {
            act_and_save(alloc, line, &mut desk, actions);
            desk.close().open()
        }
        Err((_, store)) => store.open(),
    }
}

/// Performs each action with a save after it.
fn act_and_save<H: DeskKind, S: Store>(
    alloc: Global,
    line: &mut Line,
    desk: &mut AnyDesk<H, S>,
    actions: [&str; 2],
) {
    for words in actions {
        line.text(", ");
        let _ = act(alloc, line, desk, words);
        line.text(", ");
        save(alloc, line, desk);
    }
}

/// Writes that a desk has begun, and the view of it, or else the fault.
fn write_begun<H: DeskKind, S: Store>(alloc: Global, line: &mut Line, begun: &Begun<H, S>) {
    match begun {
        Ok(desk) => {
            line.text("done");
            DeskView::of(alloc, desk, None).write(line);
        }
        Err((fault, _)) => write_fault(line, *fault, State::Idle),
    }
}
