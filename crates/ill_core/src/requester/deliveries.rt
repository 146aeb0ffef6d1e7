//! Defines the requester's table of deliveries: the messages of a responder.

ghost use Rattle.std.specs.Prelude.{◌≡◌, ◌==◌, ◌&&◌, Ok, List, filter, option_copied};
ghost use Rattle.ill_values.specs.Bodies.{is_cancel, is_renew};
ghost use Rattle.ill_core.specs.Issued.{is_message_with};
ghost use Rattle.ill_core.specs.Dates.{is_due_on, is_after_due};
ghost use Rattle.ill_core.specs.Tables.{are_met};
ghost use Rattle.ill_core.specs.RequesterDeliveries.{take_message};
ghost use Rattle.ill_core.specs.RequesterTables.{is_dated, number_guards, cancel_guards, renew_guards, due_guards, delivery_guards, delivery_rows, delivery_row};

use super::Requester;
use super::standing::{DUE, FREES, HOLDS, MARK};
use crate::date::{is_after, is_due_on};
use crate::issued::Sought;
use crate::kind::{ResponderKind as Kind, number_in};
use crate::number::is_at_most;
use crate::state::State::{
    Cancelled, Conditional, NotReceivedOverdue, NotSupplied, Overdue, Pending, Recall, Received,
    RenewOverdue, Shipped,
};
use crate::table::Then::{Conflict, Repeat, Stale, Stay, To};
use crate::table::{
    ANY, CANCEL_PENDING, CANCELLED, CONDITIONAL, Guards, NONE, NOT_RECEIVED_OVERDUE, NOT_SUPPLIED,
    OVERDUE, PENDING, RECALL, RECEIVED, RENEW_OVERDUE, RENEW_PENDING, RETURNED, Row, SHIPPED, find,
};
use crate::taking::Taking;
use ill_values::{Apdu, Body, Day, Number};

// The bits of the guards on a message with number k, which answers message c and has date d.
const PASSED: u16 = 1; // k is at most the number of the conditions accepted last.

const HELD: u16 = 1 << 1; // Conditions k are held.

const LAST_CANCEL: u16 = 1 << 2; // c is the last Cancel.

const WAS_CANCEL: u16 = 1 << 3; // Message c of the requester is a Cancel.

const NOT_DUE: u16 = 1 << 4; // d is not the due date.

const LATER: u16 = 1 << 5; // d is after the due date.

const LAST_RENEW: u16 = 1 << 6; // c is the last Renew.

const WAS_RENEW: u16 = 1 << 7; // Message c of the requester is a Renew.

const UNMARKED: u16 = 1 << 8; // The checked-in mark is not set.

// The guards of a renewal: c is the last Renew, and d is after the due date.
const RENEWS: u16 = LAST_RENEW | LATER;

// Sets of states. In `OPEN` the request is neither shipped nor ended.
const OPEN: u16 = PENDING | CONDITIONAL | CANCEL_PENDING;

const WAITING: u16 = CANCEL_PENDING; // The requester waits for the answer to a Cancel.

// A Renew waits for its Renew-Answer.
const RENEWING: u16 = RENEW_PENDING | RENEW_OVERDUE;

// The item was shipped, and is neither recalled nor returned.
const LENT: u16 = SHIPPED | RECEIVED | OVERDUE | NOT_RECEIVED_OVERDUE | RENEWING;

const SHIPPED_OR_LATER: u16 = LENT | RECALL | RETURNED;

// The responder has reported that the item is overdue.
const REMINDED: u16 = NOT_RECEIVED_OVERDUE | OVERDUE | RENEW_OVERDUE;

/// Lists the rows of deliveries, ordered by kind. Each has its kind, states, guards, effect and changes. Within a kind,
/// the first row that fits decides.
const ROWS: [Row<Kind>; 30] = [
    Row(Kind::Conditions, ANY, PASSED, Repeat, NONE),
    Row(Kind::Conditions, CONDITIONAL, HELD, Repeat, NONE),
    Row(Kind::Conditions, PENDING, NONE, To(Conditional), HOLDS),
    Row(Kind::Promise, PENDING, NONE, Stay, NONE),
    Row(Kind::NoSupply, NOT_SUPPLIED, NONE, Repeat, NONE),
    Row(Kind::NoSupply, OPEN, NONE, To(NotSupplied), FREES),
    Row(Kind::Expired, NOT_SUPPLIED, NONE, Repeat, NONE),
    Row(Kind::Expired, OPEN, NONE, To(NotSupplied), FREES),
    Row(Kind::CancelYes, WAITING, LAST_CANCEL, To(Cancelled), NONE),
    Row(Kind::CancelYes, CANCELLED, LAST_CANCEL, Repeat, NONE),
    Row(Kind::CancelYes, ANY, WAS_CANCEL, Stale, NONE),
    Row(Kind::CancelNo, WAITING, LAST_CANCEL, To(Pending), NONE),
    Row(Kind::CancelNo, ANY, WAS_CANCEL, Stale, NONE),
    Row(Kind::Shipped, OPEN, NONE, To(Shipped), DUE | FREES),
    Row(Kind::Shipped, SHIPPED_OR_LATER, NONE, Repeat, NONE),
    Row(Kind::Overdue, SHIPPED_OR_LATER, NOT_DUE, Stale, NONE),
    Row(Kind::Overdue, SHIPPED, NONE, To(NotReceivedOverdue), NONE),
    Row(Kind::Overdue, RECEIVED, NONE, To(Overdue), NONE),
    Row(Kind::Overdue, RENEW_PENDING, NONE, To(RenewOverdue), NONE),
    Row(Kind::Overdue, REMINDED, NONE, Repeat, NONE),
    Row(Kind::RenewYes, RENEWING, RENEWS, To(Received), DUE),
    Row(Kind::RenewYes, RENEWING, LAST_RENEW, Conflict, NONE),
    Row(Kind::RenewYes, ANY, WAS_RENEW, Stale, NONE),
    Row(Kind::RenewNo, RENEW_PENDING, LAST_RENEW, To(Received), NONE),
    Row(Kind::RenewNo, RENEW_OVERDUE, LAST_RENEW, To(Overdue), NONE),
    Row(Kind::RenewNo, ANY, WAS_RENEW, Stale, NONE),
    Row(Kind::Recall, LENT, NONE, To(Recall), NONE),
    Row(Kind::Recall, RECALL, NONE, Repeat, NONE),
    Row(Kind::CheckedIn, RETURNED, UNMARKED, Stay, MARK),
    Row(Kind::CheckedIn, RETURNED, NONE, Repeat, NONE),
];

/// The index of the first row of each kind, and then the number of rows.
const BEGINNINGS: [usize; 13] = [0, 3, 4, 6, 8, 11, 13, 15, 20, 23, 26, 28, 30];

/// Follows the first row that fits a message, and returns the answer. If no row fits, the answer is a conflict.
pub fn take_message(requester: &mut Requester, apdu: &Apdu) -> Taking
    ensures { (Ok result, requester.new) ≡ take_message requester.old apdu.now apdu.now.body }
{
    let state = requester.standing.state;
    match row_of(requester, apdu) {
        Some(row) => {
            let next = requester
                .standing
                .after(row, number_in(apdu), apdu.body.date());
            requester.standing = next;
            row.3.taking(state)
        }
        None => Taking::Conflict(state),
    }
}

/// Returns the first row that fits a message, or `None`.
fn row_of(requester: &Requester, apdu: &Apdu) -> Option<&'static Row<Kind>>
    ensures { option_copied result ≡ delivery_row requester.now apdu.now }
{
    let arrival = Arrival {
        requester,
        number: number_in(apdu),
        date: apdu.body.date(),
    };
    let rows = rows_of(Kind::of(&apdu.body)?);
    find(rows, requester.standing.state, &arrival)
}

/// Returns the rows of a kind.
fn rows_of(kind: Kind) -> &'static [Row<Kind>]
    ensures { result.now ≡ delivery_rows kind }
{
    let place = kind.place();
    &ROWS[BEGINNINGS[place]..BEGINNINGS[place + 1]]
}

/// A message, with the record to which it is delivered. `number` is the number that it answers, or else its own. `date`
/// is the due date in it.
#[derive(Drop)]
struct Arrival<'a> {
    requester: &'a Requester,
    number: Number,
    date: Option<Day>,
}

/// Tests the guards that the rows of deliveries ask for.
impl Guards for Arrival<'_> {
    ghost guards = { λ a. delivery_guards a.requester.now a.number a.date };

    fn hold(&self, asked: u16) -> bool {
        let requester = self.requester;
        number_holds(requester, self.number, asked)
            & cancel_holds(requester, self.number, asked)
            & renew_holds(requester, self.number, asked)
            & due_holds(requester, &self.date, asked)
    }
}

/// Returns true if the guards in `asked` on conditions with `number` hold.
fn number_holds(requester: &Requester, number: Number, asked: u16) -> bool
    ensures { result ≡ are_met asked (number_guards requester.now number) }
{
    if asked & PASSED != 0 && !is_at_most(number, requester.accepted()) {
        return false;
    }
    asked & HELD == 0 || requester.standing.held == Some(number)
}

/// Returns true if the guards in `asked` on an answer to Cancel `number` hold.
fn cancel_holds(requester: &Requester, number: Number, asked: u16) -> bool
    ensures { result ≡ are_met asked (cancel_guards requester.now number) }
{
    if asked & LAST_CANCEL != 0 && requester.issued.last(Sought::CancelNumber) != Some(number) {
        return false;
    }
    asked & WAS_CANCEL == 0 || was_cancel(requester, number)
}

/// Returns true if the guards in `asked` on an answer to Renew `number` hold.
fn renew_holds(requester: &Requester, number: Number, asked: u16) -> bool
    ensures { result ≡ are_met asked (renew_guards requester.now number) }
{
    if asked & LAST_RENEW != 0 && requester.issued.last(Sought::RenewNumber) != Some(number) {
        return false;
    }
    asked & WAS_RENEW == 0 || was_renew(requester, number)
}

/// Returns true if the guards in `asked` on `date` and on the checked-in mark hold.
fn due_holds(requester: &Requester, date: &Option<Day>, asked: u16) -> bool
    ensures { result ≡ are_met asked (due_guards requester.now date.now) }
{
    if asked & NOT_DUE != 0 && is_due(requester, date) {
        return false;
    }
    if asked & LATER != 0 && !is_later(requester, date) {
        return false;
    }
    asked & UNMARKED == 0 || !requester.standing.checked_in
}

/// Returns true if `date` is there, and is the due date.
fn is_due(requester: &Requester, date: &Option<Day>) -> bool
    ensures { result ≡ is_dated (λ d. is_due_on d requester.now.due) date.now }
{
    match date {
        Some(day) => is_due_on(*day, requester.standing.due),
        None => false,
    }
}

/// Returns true if `date` is there, and is after the due date.
fn is_later(requester: &Requester, date: &Option<Day>) -> bool
    ensures { result ≡ is_dated (λ d. is_after_due d requester.now.due) date.now }
{
    match date {
        Some(day) => is_after(*day, requester.standing.due),
        None => false,
    }
}

/// Returns true if the requester issued a Cancel with `number`.
fn was_cancel(requester: &Requester, number: Number) -> bool
    ensures { result ≡ is_message_with is_cancel requester.now.issued number }
{
    match requester.issued.get(number) {
        Some(apdu) => matches!(apdu.body, Body::Cancel),
        None => false,
    }
}

/// Returns true if the requester issued a Renew with `number`.
fn was_renew(requester: &Requester, number: Number) -> bool
    ensures { result ≡ is_message_with is_renew requester.now.issued number }
{
    match requester.issued.get(number) {
        Some(apdu) => matches!(apdu.body, Body::Renew { .. }),
        None => false,
    }
}
