//! Lets the cases treat desks of one transaction and of many alike.

use crate::idle::idle;
use crate::memory_desk::Begun;
use ill_saved::{
    AnyDesk, Desk, Desk1, Holdings, ManySides, MemoryStore, OneSide, Role, Side, Store,
};
use ill_saved_kit::{Tries, role_of, split_txn};
use ill_values::TxnId;
use std::alloc::Global;

/// The cases call a desk by these functions, with one side or with many.
pub trait DeskKind: Holdings {
    /// Returns the name of the side of `txn`.
    fn key(txn: &TxnId) -> &Self::Key;

    /// Returns the arguments of a beginning. A desk of one side begins with that of `txn`.
    fn first(role: Role, txn: TxnId) -> Self::First;

    /// Creates a desk over `store` with the role that `words` name, and for one side with their transaction. It begins
    /// a try of `tries` before. Returns None if the words name no role or transaction.
    fn create(alloc: Global, tries: &Tries, store: MemoryStore, words: &str) -> Option<Begun<Self>>;

    /// Returns the number of sides.
    fn count<S: Store>(desk: &AnyDesk<Self, S>) -> usize;

    /// Returns the side at `place`.
    fn side_at<S: Store>(desk: &AnyDesk<Self, S>, place: usize) -> Option<&Side>;
}

/// A desk of one transaction. Its side needs no name, and stands at each place.
impl DeskKind for OneSide {
    fn key(_txn: &TxnId) -> &() {
        &()
    }

    fn first(role: Role, txn: TxnId) -> (Role, TxnId) {
        (role, txn)
    }

    fn create(
        alloc: Global,
        tries: &Tries,
        store: MemoryStore,
        words: &str,
    ) -> Option<Begun<OneSide>> {
        let first = idle(alloc, words)?;
        tries.begin();
        Some(Desk1::create(alloc, store, first))
    }

    fn count<S: Store>(_desk: &Desk1<S>) -> usize {
        1
    }

    fn side_at<S: Store>(desk: &Desk1<S>, _place: usize) -> Option<&Side> {
        Some(desk.side())
    }
}

/// A desk of many transactions. Each side has its transaction as its name.
impl DeskKind for ManySides {
    fn key(txn: &TxnId) -> &TxnId {
        txn
    }

    fn first(role: Role, _txn: TxnId) -> Role {
        role
    }

    fn create(
        alloc: Global,
        tries: &Tries,
        store: MemoryStore,
        words: &str,
    ) -> Option<Begun<ManySides>> {
        let role = role_of(words)?;
        tries.begin();
        Some(Desk::create(alloc, store, role))
    }

    fn count<S: Store>(desk: &Desk<S>) -> usize {
        desk.sides().len()
    }

    fn side_at<S: Store>(desk: &Desk<S>, place: usize) -> Option<&Side> {
        desk.sides().at(place)
    }
}

/// Returns the transaction of a call, and the words after it. At a desk of many transactions `words` begin with it. A
/// desk of one side has its own, and all words remain.
pub fn txn_in<'a, H: DeskKind, S: Store>(
    alloc: Global,
    desk: &AnyDesk<H, S>,
    words: &'a str,
) -> Option<(TxnId, &'a str)> {
    if desk.first_key().is_none() {
        return split_txn(alloc, words);
    }
    Some((H::side_at(desk, 0)?.txn().copy(alloc).ok()?, words))
}
