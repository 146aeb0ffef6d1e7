//! Writes the parts of a side, and tells if bytes are its record.

use crate::again::written_and_read;
use crate::coding::encoded;
use crate::line::Line;
use crate::runs::Run;
use ill_core::{Requester, Responder, State};
use ill_saved::Side;
use ill_values::{Apdu, Body, Day, Number, TxnId};
use std::alloc::Global;

/// Writes the parts of a side. Tells if `bytes` are its record and the side can be read back from its record.
pub fn write_side(alloc: Global, line: &mut Line, side: &Side, bytes: &[u8]) {
    match side {
        Side::Requester(requester) => write_requester(line, requester),
        Side::Responder(responder) => write_responder(line, responder),
    }
    write_issued(alloc, line, side);
    let is_same = match encoded(alloc, side) {
        Ok(record) => record.as_slice() == bytes && written_and_read(alloc, side).map(drop).is_ok(),
        Err(_) => false,
    };
    line.text(if is_same {
        "; the same bytes"
    } else {
        "; OTHER BYTES"
    });
}

/// Writes the parts of a requester.
fn write_requester(line: &mut Line, side: &Requester) {
    line.text("requester ");
    write_head(line, side.state(), side.txn());
    write_number(line, " held ", side.held());
    write_number(line, " accepted ", side.accepted());
    write_day(line, " due ", side.due());
    write_mark(line, " received", side.is_received());
    write_mark(line, " checked-in", side.is_checked_in());
    write_mark(line, " declined", side.is_declined());
}

/// Writes the parts of a responder.
fn write_responder(line: &mut Line, side: &Responder) {
    line.text("responder ");
    write_head(line, side.state(), side.txn());
    write_number(line, " accepted ", side.accepted());
    write_number(line, " outstanding ", side.outstanding());
    write_number(line, " cancel ", side.last_cancel());
    write_number(line, " renew ", side.last_renew());
    write_day(line, " due ", side.due());
    write_mark(line, " received", side.is_received());
    write_request(line, side.request());
}

/// Writes the number of an ILL-Request and its fields, if there is one.
fn write_request(line: &mut Line, request: Option<&Apdu>) {
    if let Some(request) = request {
        write_number(line, " request ", Some(request.number));
        line.text(" ");
        write_body(line, &request.body);
    }
}

/// Writes a state, and the transaction.
pub fn write_head(line: &mut Line, state: State, txn: &TxnId) {
    line.show(&state);
    line.qualifier(txn.group());
    line.qualifier(txn.transaction());
}

/// Writes a number after its label, if there is one.
fn write_number(line: &mut Line, label: &str, number: Option<Number>) {
    if let Some(number) = number {
        line.text(label);
        line.count(number.get());
    }
}

/// Writes a day after its label, if there is one.
pub fn write_day(line: &mut Line, label: &str, day: Option<Day>) {
    if let Some(day) = day {
        line.text(label);
        line.ascii(&day.digits());
    }
}

/// Writes the label of a mark if it is set.
fn write_mark(line: &mut Line, label: &str, is_set: bool) {
    if is_set {
        line.text(label);
    }
}

/// Writes the type of a message and its other fields.
fn write_body(line: &mut Line, body: &Body) {
    write_name(line, body);
    match body {
        Body::IllRequest { expiry, item } => {
            write_day(line, " ", *expiry);
            line.text(" ");
            line.ascii(item.text());
        }
        Body::ConditionalReply { answers, yes } => write_reply(line, *answers, *yes),
        Body::CancelReply { answers, yes } => write_reply(line, *answers, *yes),
        Body::Shipped { due } => write_day(line, " ", Some(*due)),
        Body::Overdue { due } => write_day(line, " ", Some(*due)),
        Body::Renew { wished } => write_day(line, " ", *wished),
        Body::RenewAnswer { answers, granted } => {
            write_reply(line, *answers, granted.is_some());
            write_day(line, " ", *granted);
        }
        _ => {}
    }
}

/// Writes the type of a message, and the result of an ILL-Answer.
fn write_name(line: &mut Line, body: &Body) {
    line.text(body.type_name());
    if let Body::IllAnswer { result } = body {
        line.text(" ");
        line.text(result.name());
    }
}

/// Writes the yes or no of a reply, and the number that it answers.
fn write_reply(line: &mut Line, answers: Number, yes: bool) {
    line.text(if yes { " yes to " } else { " no to " });
    line.show(&answers.get());
}

/// Writes the messages that a side has issued, each after its number.
fn write_issued(alloc: Global, line: &mut Line, side: &Side) {
    let mut run = Run::new(alloc, "; ", 1);
    for index in 0..side.issued_count() {
        run.push(line, issued(alloc, side, index + 1));
    }
    run.write(line);
}

/// Returns the message that a side has issued with the number `value`, as text. Its fields must have that number and
/// the transaction of the side.
fn issued(alloc: Global, side: &Side, value: u8) -> Line {
    let mut line = Line::new(alloc, None);
    match find(side, value) {
        Some((apdu, txn)) if apdu.number.get() == value && apdu.txn == *txn => {
            write_body(&mut line, &apdu.body);
        }
        _ => line.text("ANOTHER MESSAGE"),
    }
    line
}

/// Returns the message with the number `value`, and the transaction of the side.
fn find(side: &Side, value: u8) -> Option<(&Apdu, &TxnId)> {
    let number = Number::new(value)?;
    match side {
        Side::Requester(side) => Some((side.issued(number)?, side.txn())),
        Side::Responder(side) => Some((side.issued(number)?, side.txn())),
    }
}
