//! Names sides by words, and writes the sides of one library. A function returns `None` if its words are wrong, or if
//! memory runs out.

use crate::coding::all_encoded;
use crate::line::Line;
use crate::records::write_head;
use ill_saved::{Role, Sides};
use ill_test_kit::{marks, named};
use ill_values::TxnId;
use std::alloc::Global;

/// The words of the two roles.
static ROLES: [(&str, Role); 2] = [
    ("requester", Role::Requester),
    ("responder", Role::Responder),
];

/// Returns the role that `word` names.
pub fn role_of(word: &str) -> Option<Role> {
    named(&ROLES, word)
}

/// Returns the transaction that `words` begin with, as `GROUP TRANSACTION`, and the words after it.
pub fn split_txn<'a>(alloc: Global, words: &'a str) -> Option<(TxnId, &'a str)> {
    let (group, words) = words.split_once(' ')?;
    let (transaction, words) = words.split_once(' ').unwrap_or((words, ""));
    let txn = TxnId::new(alloc, group.as_bytes(), transaction.as_bytes()).ok()?;
    Some((txn, words))
}

/// Returns the id of the transaction with this number, in the group G1.
pub fn numbered(alloc: Global, number: u16) -> Option<TxnId> {
    let transaction = format!(in alloc; "{number}").ok()?;
    TxnId::new(alloc, b"G1", transaction.as_bytes()).ok()
}

/// Writes the count of sides, and the role of all.
pub fn write_count_and_role(alloc: Global, line: &mut Line, sides: &Sides) {
    marks::begin_quiet(alloc);
    let (count, role) = (sides.len(), sides.role());
    marks::end_quiet(alloc);
    line.show(&count);
    line.text(match role {
        Role::Requester => " requester",
        Role::Responder => " responder",
    });
}

/// Writes the count and the role of `sides`, and the head of each. Tells if `bytes` are their record.
pub fn write_sides(alloc: Global, line: &mut Line, sides: &Sides, bytes: &[u8]) {
    write_count_and_role(alloc, line, sides);
    for place in 0..sides.len() {
        if let Some(side) = sides.at(place) {
            line.text(", ");
            write_head(line, side.state(), side.txn());
        }
    }
    line.text(if is_record_of(alloc, sides, bytes) {
        "; the same bytes"
    } else {
        "; other bytes"
    });
}

/// Returns true if `bytes` are the record of `sides`.
fn is_record_of(alloc: Global, sides: &Sides, bytes: &[u8]) -> bool {
    match all_encoded(alloc, sides) {
        Ok(record) => record.as_slice() == bytes,
        Err(_) => false,
    }
}
