//! Makes the side with the longest record. A function returns `None` if memory runs out.

use ill_core::{Responder, State};
use ill_saved::Side;
use ill_values::{Apdu, Body, Day, Item, Number, TxnId};
use std::alloc::Global;

/// Returns a responder with the longest qualifiers, request and messages: a Shipped, and 254 renewals.
pub fn longest_side(alloc: Global) -> Option<Side> {
    let txn = TxnId::new(alloc, &[b'g'; 64], &[b't'; 64]).ok()?;
    let due = Day::new(2025, 3, 15).ok()?;
    let issued = issued(alloc, &txn, due)?;
    let request = Some(request(alloc, &txn, due)?);
    let state = State::Shipped;
    Responder::of_parts(txn, state, None, None, None, false, request, issued).map(Side::Responder)
}

/// Returns the longest request, with number 255.
fn request(alloc: Global, txn: &TxnId, day: Day) -> Option<Apdu> {
    let item = Item::new(alloc, &[b'm'; 200]).ok()?;
    let expiry = Some(day);
    apdu(alloc, txn, 255, Body::IllRequest { expiry, item })
}

/// Returns the 255 messages that the responder has issued.
fn issued(alloc: Global, txn: &TxnId, due: Day) -> Option<Vec<Apdu>> {
    let mut issued = Vec::new(alloc);
    issued
        .push(apdu(alloc, txn, 1, Body::Shipped { due })?)
        .ok()?;
    for number in 2..=255 {
        issued.push(renewal(alloc, txn, due, number)?).ok()?;
    }
    Some(issued)
}

/// Returns the Renew-Answer yes with this number.
fn renewal(alloc: Global, txn: &TxnId, due: Day, number: u8) -> Option<Apdu> {
    let granted = Some(due.after(u32::from(number)).ok()?);
    let answers = Number::new(255)?;
    apdu(alloc, txn, number, Body::RenewAnswer { answers, granted })
}

/// Returns a message of the transaction `txn`.
fn apdu(alloc: Global, txn: &TxnId, number: u8, body: Body) -> Option<Apdu> {
    let number = Number::new(number)?;
    let txn = txn.copy(alloc).ok()?;
    Some(Apdu { txn, number, body })
}
