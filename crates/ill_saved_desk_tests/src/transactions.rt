//! Performs the calls that only a desk of many transactions has.

use crate::actions::action;
use crate::calls::ManyCall;
use crate::desk_view::write_shown;
use ill_saved::{Desk, MemoryStore, Role, Shown, Store};
use ill_saved_kit::{Line, numbered, write_count_and_role};
use ill_test_kit::number_in;
use ill_values::{Apdu, Body, Item, Number, TxnId};
use std::alloc::Global;

/// Performs a call, and writes its answer.
pub fn call(
    alloc: Global,
    line: &mut Line,
    desk: &mut Desk<MemoryStore>,
    call: ManyCall,
    words: &str,
) -> Option<()> {
    match call {
        ManyCall::Begin => begin(alloc, line, desk, words),
        ManyCall::Each => write_each(alloc, line, desk),
        ManyCall::Create | ManyCall::Start | ManyCall::Fuse | ManyCall::Landing => None,
    }
}

/// Performs `begin COUNT`: begins the transactions 0 to COUNT - 1 of the group G1.
fn begin(alloc: Global, line: &mut Line, desk: &mut Desk<MemoryStore>, words: &str) -> Option<()> {
    for number in 0..u16::try_from(number_in(words)?).ok()? {
        begin_one(alloc, desk, numbered(alloc, number)?)?;
    }
    write_count_and_role(alloc, line, desk.sides());
    Some(())
}

/// Begins a transaction: a requester asks, or a responder takes a request.
fn begin_one(alloc: Global, desk: &mut Desk<MemoryStore>, txn: TxnId) -> Option<()> {
    match desk.sides().role() {
        Role::Requester => desk
            .act(alloc, &txn, &action(alloc, "request none Maps")?)
            .ok(),
        Role::Responder => desk.take(alloc, &request(alloc, txn)?).map(|_| ()).ok(),
    }
}

/// Returns an ILL-Request of the transaction `txn`.
fn request(alloc: Global, txn: TxnId) -> Option<Apdu> {
    let item = Item::new(alloc, b"Maps").ok()?;
    let body = Body::IllRequest { expiry: None, item };
    let number = Number::new(1)?;
    Some(Apdu { txn, number, body })
}

/// Performs `each`: writes the view of each side, in the order in which they began.
fn write_each<S: Store>(alloc: Global, line: &mut Line, desk: &Desk<S>) -> Option<()> {
    write_count_and_role(alloc, line, desk.sides());
    for place in 0..desk.sides().len() {
        let side = desk.sides().at(place)?;
        line.text(",");
        line.qualifier(side.txn().group());
        line.qualifier(side.txn().transaction());
        write_shown(line, Shown::of(side, desk.released(side.txn())));
    }
    Some(())
}
