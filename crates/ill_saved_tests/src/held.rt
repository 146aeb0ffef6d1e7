//! Puts sides into the `Sides` of one library, one after another.

use crate::calls::SidesCall;
use ill_core::Wish;
use ill_saved::{
    Action, Role, Side, Sides, SidesFault, decode_record, encode_record, encode_record2,
};
use ill_saved_kit::{
    Line, all_encoded, all_written_and_read, longest_side, numbered, role_of, split_txn,
    write_count_and_role, write_head,
};
use ill_test_kit::marks::TRIES;
use ill_test_kit::{count_in, marks, number_in};
use ill_values::Item;
use std::alloc::Global;

/// Performs a call with words on `sides`, the sides of the bench, and writes its answer. Returns `None` for `put`,
/// which has bytes.
pub fn call(
    alloc: Global,
    line: &mut Line,
    sides: &mut Option<Sides>,
    call: SidesCall,
    words: &str,
) -> Option<()> {
    match call {
        SidesCall::Lay => lay(alloc, line, sides, words),
        SidesCall::Fill => fill(alloc, line, sides.as_mut()?, words),
        SidesCall::Get => get(alloc, line, sides.as_ref()?, words),
        SidesCall::At => at(alloc, line, sides.as_ref()?, words),
        SidesCall::Put => None,
        SidesCall::PutLongest => put_longest(alloc, line, sides.as_mut()?),
        SidesCall::Again => write_again(alloc, line, sides.as_ref()?),
    }
}

/// Performs `sides ROLE`: puts an empty `Sides` of this role on the bench. This takes no memory.
fn lay(alloc: Global, line: &mut Line, sides: &mut Option<Sides>, words: &str) -> Option<()> {
    let role = role_of(words)?;
    marks::begin_quiet(alloc);
    let none = Sides::new(alloc, role);
    marks::end_quiet(alloc);
    write_count_and_role(alloc, line, sides.insert(none.ok()?));
    Some(())
}

/// Performs `fill COUNT`: puts requesters that have asked, in the transactions 0 to COUNT - 1 of the group G1.
fn fill(alloc: Global, line: &mut Line, sides: &mut Sides, words: &str) -> Option<()> {
    for number in 0..u16::try_from(number_in(words)?).ok()? {
        let side = asking(alloc, number)?;
        if sides.put(alloc, side).is_err() {
            return None;
        }
    }
    write_count_and_role(alloc, line, sides);
    Some(())
}

/// Returns a requester that has asked, in the transaction with this number.
fn asking(alloc: Global, number: u16) -> Option<Side> {
    let mut side = Side::idle(alloc, Role::Requester, numbered(alloc, number)?);
    let item = Item::new(alloc, b"Maps").ok()?;
    let request = Action::Wish(Wish::Request { expiry: None, item });
    side.act(alloc, &request).ok()?;
    Some(side)
}

/// Performs `put RECORD`: puts the side with this record.
pub fn put(alloc: Global, line: &mut Line, sides: &mut Sides, record: &[u8]) -> Option<()> {
    let side = decode_record(alloc, record).ok()?;
    put_side(alloc, line, sides, side);
    Some(())
}

/// Performs `put-longest`: puts a side with the longest record.
fn put_longest(alloc: Global, line: &mut Line, sides: &mut Sides) -> Option<()> {
    put_side(alloc, line, sides, longest_side(alloc)?);
    Some(())
}

/// Puts a side, and writes the answer.
fn put_side(alloc: Global, line: &mut Line, sides: &mut Sides, side: Side) {
    match put_again(alloc, sides, side) {
        Ok(()) => line.text("done"),
        Err((fault, side)) => {
            line.text(fault_word(fault));
            line.text(", back ");
            write_head(line, side.state(), side.txn());
        }
    }
    line.text("; ");
    write_count_and_role(alloc, line, sides);
}

/// Puts a side, and repeats that while an allocation is refused. A refused call must hand the side back and change
/// nothing.
fn put_again(alloc: Global, sides: &mut Sides, side: Side) -> Result<(), (SidesFault, Side)> {
    let before = (
        encode_record2(alloc, sides).ok(),
        encode_record(alloc, &side).ok(),
    );
    let mut side = side;
    for _ in 0..TRIES {
        marks::begin(alloc);
        let answer = sides.put(alloc, side);
        let says_memory = matches!(&answer, Err((SidesFault::OutOfMemory, _)));
        if !marks::is_refused(alloc, says_memory) {
            return answer;
        }
        match answer {
            Err((_, back)) if is_as_before(alloc, sides, &back, &before) => side = back,
            answer => return answer,
        }
    }
    Err((SidesFault::OutOfMemory, side))
}

/// The record of the sides, and the record of the side that is put.
type Before = (Option<Vec<u8>>, Option<Vec<u8>>);

/// Returns true if the sides and the side that was handed back still have their records.
fn is_as_before(alloc: Global, sides: &Sides, back: &Side, before: &Before) -> bool {
    let (all, one) = before;
    let is_same = *all == encode_record2(alloc, sides).ok()
        && *one == encode_record(alloc, back).ok();
    is_same && all.is_some() && one.is_some()
}

/// Returns the word of a fault.
fn fault_word(fault: SidesFault) -> &'static str {
    match fault {
        SidesFault::OtherRole => "other-role",
        SidesFault::Idle => "idle",
        SidesFault::Twice => "twice",
        SidesFault::Full => "full",
        SidesFault::OutOfMemory => "memory",
    }
}

/// Performs `get GROUP TRANSACTION`: writes the side of this transaction.
fn get(alloc: Global, line: &mut Line, sides: &Sides, words: &str) -> Option<()> {
    let (txn, _) = split_txn(alloc, words)?;
    marks::begin_quiet(alloc);
    let found = sides.get(&txn);
    marks::end_quiet(alloc);
    write_found(line, found);
    Some(())
}

/// Performs `at PLACE`: writes the side at this place.
fn at(alloc: Global, line: &mut Line, sides: &Sides, words: &str) -> Option<()> {
    let place = count_in(words)?;
    marks::begin_quiet(alloc);
    let found = sides.at(place);
    marks::end_quiet(alloc);
    write_found(line, found);
    Some(())
}

/// Writes a side that was found, or `none`.
fn write_found(line: &mut Line, side: Option<&Side>) {
    match side {
        Some(side) => write_head(line, side.state(), side.txn()),
        None => line.text("none"),
    }
}

/// Performs `again`: writes the size of the record of the sides, which is read back as equal sides.
fn write_again(alloc: Global, line: &mut Line, sides: &Sides) -> Option<()> {
    let record = all_encoded(alloc, sides).ok()?;
    let again = all_written_and_read(alloc, sides).ok()?;
    line.show(&record.len());
    line.text(" octets; ");
    write_count_and_role(alloc, line, &again);
    Some(())
}
