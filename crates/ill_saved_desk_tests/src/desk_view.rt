//! Views a desk, so that two views can be compared.

use crate::desk_kind::DeskKind;
use ill_core::State;
use ill_saved::{AnyDesk, Shown, Side, Store, encode_record};
use ill_saved_kit::{Line, Tries, write_day};
use ill_test_kit::marks;
use ill_values::TxnId;
use std::alloc::Global;

/// The view of a desk. A refused call must not change the records, nor the counts of released messages.
#[derive(Drop)]
pub struct DeskView {
    /// The records of all sides and the counts of their released messages, or `None` if memory ran out.
    kept: Option<Vec<u8>>,
    /// The shown parts of one side, if the call is for one side.
    standing: Option<Shown>,
    /// The count of sides that a desk of many transactions holds.
    held: Option<usize>,
}

impl DeskView {
    /// Returns the view of a desk, and of its side in the transaction `txn`. A desk of one side always shows that side.
    pub fn of<H: DeskKind, S: Store>(
        alloc: Global,
        desk: &AnyDesk<H, S>,
        txn: Option<&TxnId>,
    ) -> DeskView {
        let is_of_many = desk.first_key().is_none();
        DeskView {
            kept: kept_by(alloc, desk),
            standing: standing_in(alloc, desk, txn),
            held: is_of_many.then_some(H::count(desk)),
        }
    }

    /// Returns the marks around a call of the desk.
    pub fn tries(&self, alloc: Global) -> Tries {
        Tries::of(alloc, self.kept.as_ref().map_or(0, |kept| kept.len()))
    }

    /// Returns true if the desk still has the records and released messages of this view.
    pub fn is_of<H: DeskKind, S: Store>(&self, alloc: Global, desk: &AnyDesk<H, S>) -> bool {
        self.kept.is_some() && self.kept == kept_by(alloc, desk)
    }

    /// Returns the state of the side, or IDLE if the view shows none.
    pub fn state(&self) -> State {
        match self.standing {
            Some(standing) => standing.state,
            None => State::Idle,
        }
    }

    /// Writes the shown parts of the side, and the count of sides.
    pub fn write(&self, line: &mut Line) {
        if let Some(standing) = self.standing {
            write_shown(line, standing);
        }
        if let Some(held) = self.held {
            line.text("; ");
            line.show(&held);
            line.text(" held");
        }
    }

    /// Writes the view after a call that must change nothing. If the records or counts differ from those of `before`,
    /// writes `CHANGED` too.
    pub fn write_after(&self, line: &mut Line, before: &DeskView) {
        self.write(line);
        if self.kept.is_none() || self.kept != before.kept {
            line.text(" CHANGED");
        }
    }
}

/// Writes the state and the due date, and the counts of released and issued messages.
pub fn write_shown(line: &mut Line, shown: Shown) {
    line.text(" ");
    line.show(&shown.state);
    write_day(line, " ", shown.due);
    line.text(if shown.due.is_some() { " " } else { " - " });
    line.show(&shown.released);
    line.text("/");
    line.show(&shown.issued);
}

/// Returns the shown parts of the side of `txn`, or of the only side. This takes no memory.
fn standing_in<H: DeskKind, S: Store>(
    alloc: Global,
    desk: &AnyDesk<H, S>,
    txn: Option<&TxnId>,
) -> Option<Shown> {
    marks::begin_quiet(alloc);
    let standing = standing_of(desk, txn);
    marks::end_quiet(alloc);
    standing
}

/// Returns the shown parts of the side of `txn`, or of the only side.
fn standing_of<H: DeskKind, S: Store>(desk: &AnyDesk<H, S>, txn: Option<&TxnId>) -> Option<Shown> {
    match desk.first_key() {
        Some(key) => Some(desk.shown(key)),
        None => Some(desk.shown(H::key(txn?))),
    }
}

/// Returns the records of all sides, each after the count of its released messages, or None if memory runs out.
fn kept_by<H: DeskKind, S: Store>(alloc: Global, desk: &AnyDesk<H, S>) -> Option<Vec<u8>> {
    let mut kept = Vec::new(alloc);
    for place in 0..H::count(desk) {
        let side = H::side_at(desk, place)?;
        push_kept(alloc, &mut kept, side, desk.shown(H::key(side.txn())))?;
    }
    Some(kept)
}

/// Adds the count of released messages, and the record of `side`.
fn push_kept(alloc: Global, kept: &mut Vec<u8>, side: &Side, shown: Shown) -> Option<()> {
    let record = encode_record(alloc, side).ok()?;
    kept.push(shown.released).ok()?;
    kept.extend_from_slice(&record).ok()
}
