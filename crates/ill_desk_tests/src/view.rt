//! Views the sides in memory.

use ill_saved::{Desk, Desk1, Side, Store, encode_record, encode_record2};
use ill_test_kit::Page;
use std::alloc::Global;

/// The record of the sides, and the count of released messages of each.
#[derive(Drop)]
pub struct View {
    /// The record of the sides.
    record: Vec<u8>,
    /// The count of released messages of each side.
    released: Vec<u8>,
}

impl View {
    /// Returns a view of no sides.
    pub fn none(alloc: Global) -> View {
        View {
            record: Vec::new(alloc),
            released: Vec::new(alloc),
        }
    }

    /// Returns the view of one side.
    pub fn of_side<S: Store>(alloc: Global, desk: &Desk1<S>) -> Option<View> {
        Some(View {
            record: encode_record(alloc, desk.side()).ok()?,
            released: Vec::from_slice(alloc, &[desk.released()]).ok()?,
        })
    }

    /// Returns the view of a desk of many transactions.
    pub fn of_desk<S: Store>(alloc: Global, desk: &Desk<S>) -> Option<View> {
        let mut released = Vec::new(alloc);
        for place in 0..desk.sides().len() {
            let side = desk.sides().at(place)?;
            released.push(desk.released(side.txn())).ok()?;
        }
        let record = encode_record2(alloc, desk.sides()).ok()?;
        Some(View { record, released })
    }

    /// Returns true if both views are equal.
    pub fn is(&self, other: &View) -> bool {
        self.has_record_of(other) && self.released.as_slice() == other.released.as_slice()
    }

    /// Returns true if both views have equal records.
    pub fn has_record_of(&self, other: &View) -> bool {
        self.record.as_slice() == other.record.as_slice()
    }

    /// Returns true if both views have equal counts of released messages. A side that `other` lacks must have released
    /// none.
    pub fn releases_as(&self, other: &View) -> bool {
        match self.released.strip_prefix(other.released.as_slice()) {
            Some(others) => others.iter().all(|count| *count == 0),
            None => false,
        }
    }
}

/// Prints the state of a side, its due date, and the counts of its released and issued messages.
pub fn print_side(page: &mut Page, side: &Side, released: u8) {
    page.show(&side.state());
    page.text(" ");
    match side.due() {
        Some(day) => page.push(&day.digits()),
        None => page.text("-"),
    }
    page.text(" ");
    page.show(&released);
    page.text("/");
    page.show(&side.issued_count());
}
