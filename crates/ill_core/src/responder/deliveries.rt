//! Defines the responder's table of deliveries: the messages of a requester.

ghost use Rattle.std.specs.Prelude.{◌≡◌, true, OnOk, OnErr, IfErr, None, filter, option_copied};
ghost use Rattle.ill_values.specs.Bodies.{names_conditions};
ghost use Rattle.ill_core.specs.Issued.{is_same_txn, is_message_with};
ghost use Rattle.ill_core.specs.Tables.{are_met};
ghost use Rattle.ill_core.specs.ResponderDeliveries.{MayRunOutOfMemory, takes_memory, take_message};
ghost use Rattle.ill_core.specs.ResponderTables.{request_after, issued_after, number_refusal, IsRefused, reply_guards, past_guards, delivery_guards, delivery_rows, delivery_row};

use super::Responder;
use super::standing::{ACCEPTS, CANCELS, ENDS, KEEPS, RECEIVES, RENEWS};
use crate::issued::Issued;
use crate::kind::{RequesterKind as Kind, number_in};
use crate::number::is_at_most;
use crate::refusal::Refusal;
use crate::state::State::{
    CancelPending, InProcess, NotSupplied, RenewOverdue, RenewPending, Returned,
};
use crate::table::Then::{Repeat, Stale, Stay, To};
use crate::table::{
    ANY, CHECKED_IN, CONDITIONAL, Guards, IDLE, IN_PROCESS, NONE, NOT_SUPPLIED, OVERDUE, RECALL,
    RENEW_OVERDUE, RENEW_PENDING, RETURNED, Row, SHIPPED, find,
};
use crate::taking::Taking;
use ill_values::{AnswerResult, Apdu, Body, Number};
use std::alloc::Global;

// The bits of the guards on a message with number n, which answers message c.
const OUTSTANDING: u16 = 1; // c is outstanding.

const ACCEPTED: u16 = 1 << 1; // c is accepted.

const WAS_CONDITIONAL: u16 = 1 << 2; // Message c of the responder names conditions.

const PAST_CANCEL: u16 = 1 << 3; // n is at most the last Cancel.

const PAST_RENEW: u16 = 1 << 4; // n is at most the last Renew.

const UNMARKED: u16 = 1 << 5; // The received mark is not set.

// Sets of states. In `OPEN` the request is open, and no Cancel waits for its answer.
const OPEN: u16 = IN_PROCESS | CONDITIONAL;

// The item was shipped, and no Returned was taken.
const LENT: u16 = SHIPPED | RENEW_PENDING | OVERDUE | RENEW_OVERDUE | RECALL;

// A Returned was taken.
const BACK: u16 = RETURNED | CHECKED_IN;

const SHIPPED_OR_LATER: u16 = LENT | BACK;

/// Lists the rows of deliveries, ordered by kind. Each has its kind, states, guards, effect and changes. Within a kind,
/// the first row that fits decides.
const ROWS: [Row<Kind>; 16] = [
    Row(Kind::Request, IDLE, NONE, To(InProcess), KEEPS),
    Row(Kind::Request, ANY, NONE, Repeat, NONE),
    Row(Kind::Yes, CONDITIONAL, OUTSTANDING, To(InProcess), ACCEPTS),
    Row(Kind::Yes, ANY, ACCEPTED, Repeat, NONE),
    Row(Kind::Yes, ANY, WAS_CONDITIONAL, Stale, NONE),
    Row(Kind::No, OPEN, NONE, To(NotSupplied), ENDS),
    Row(Kind::No, NOT_SUPPLIED, NONE, Repeat, NONE),
    Row(Kind::Cancel, ANY, PAST_CANCEL, Repeat, NONE),
    Row(Kind::Cancel, OPEN, NONE, To(CancelPending), CANCELS),
    Row(Kind::Received, SHIPPED_OR_LATER, UNMARKED, Stay, RECEIVES),
    Row(Kind::Received, SHIPPED_OR_LATER, NONE, Repeat, NONE),
    Row(Kind::Renew, ANY, PAST_RENEW, Repeat, NONE),
    Row(Kind::Renew, SHIPPED, NONE, To(RenewPending), RENEWS),
    Row(Kind::Renew, OVERDUE, NONE, To(RenewOverdue), RENEWS),
    Row(Kind::Returned, LENT, NONE, To(Returned), NONE),
    Row(Kind::Returned, BACK, NONE, Repeat, NONE),
];

/// The index of the first row of each kind, and then the number of rows.
const BEGINNINGS: [usize; 8] = [0, 2, 5, 7, 9, 11, 14, 16];

/// Follows the first row that fits a message, and returns the answer. If no row fits, the answer is a conflict. Only an
/// ILL-Request that is kept and a Conditional-Reply no take memory.
pub fn take_message(
    responder: &mut Responder,
    alloc: Global,
    apdu: &Apdu,
) -> Result<Taking, Refusal>
    requires same { is_same_txn apdu.now.txn responder.old.txn ≡ true }
    ensures { MayRunOutOfMemory (take_message responder.old apdu.now apdu.now.body)
        (takes_memory responder.old apdu.now.body) responder.old result responder.new }
{
    let state = responder.standing.state;
    match row_of(responder, apdu) {
        Some(row) => {
            let next = responder.standing.after(row, number_in(apdu));
            grow(
                &mut responder.request,
                &mut responder.issued,
                alloc,
                row.4,
                apdu,
            )?;
            responder.standing = next;
            Ok(row.3.taking(state))
        }
        None => Ok(Taking::Conflict(state)),
    }
}

/// Returns the first row that fits a message, or `None`.
fn row_of(responder: &Responder, apdu: &Apdu) -> Option<&'static Row<Kind>>
    ensures { option_copied result ≡ delivery_row responder.now apdu.now }
{
    let arrival = Arrival {
        responder,
        number: number_in(apdu),
    };
    find(
        rows_of(Kind::of(&apdu.body)?),
        responder.standing.state,
        &arrival,
    )
}

/// Returns the rows of a kind.
fn rows_of(kind: Kind) -> &'static [Row<Kind>]
    ensures { result.now ≡ delivery_rows kind }
{
    let place = kind.place();
    &ROWS[BEGINNINGS[place]..BEGINNINGS[place + 1]]
}

/// Issues an ILL-Answer unfilled if `changes` has `ENDS`, or keeps `apdu` as the request if it has `KEEPS`. If this is
/// refused, nothing changes.
fn grow(
    request: &mut Option<Apdu>,
    issued: &mut Issued,
    alloc: Global,
    changes: u16,
    apdu: &Apdu,
) -> Result<(), Refusal>
    ensures txn { issued.new.txn ≡ issued.old.txn }
    ensures request { OnOk result (request.new ≡ request_after changes request.old apdu.now) }
    ensures issued { OnOk result
        (issued.new.apdus ≡ issued_after changes issued.old.txn issued.old.apdus) }
    ensures numbered { OnOk result (number_refusal changes issued.old.apdus ≡ None) }
    ensures request_unchanged { OnErr result (request.new ≡ request.old) }
    ensures issued_unchanged { OnErr result (issued.new ≡ issued.old) }
    ensures refused { IfErr result (λ refusal. IsRefused changes issued.old.apdus refusal) }
{
    if changes & ENDS != 0 {
        let number = issued.next_number()?;
        let result = AnswerResult::Unfilled;
        return issued.issue(alloc, number, Body::IllAnswer { result });
    }
    if changes & KEEPS != 0 {
        *request = Some(apdu.copy(alloc)?);
    }
    Ok(())
}

/// A message, with the record to which it is delivered. `number` is the number that it answers, or else its own.
#[derive(Drop)]
struct Arrival<'a> {
    responder: &'a Responder,
    number: Number,
}

/// Tests the guards that the rows of deliveries ask for.
impl Guards for Arrival<'_> {
    ghost guards = { λ a. delivery_guards a.responder.now a.number };

    fn hold(&self, asked: u16) -> bool {
        let responder = self.responder;
        reply_holds(responder, self.number, asked) & past_holds(responder, self.number, asked)
    }
}

/// Returns true if the guards in `asked` on an answer to conditions `number` hold.
fn reply_holds(responder: &Responder, number: Number, asked: u16) -> bool
    ensures { result ≡ are_met asked (reply_guards responder.now number) }
{
    if asked & OUTSTANDING != 0 && responder.outstanding() != Some(number) {
        return false;
    }
    if asked & ACCEPTED != 0 && responder.standing.accepted != Some(number) {
        return false;
    }
    asked & WAS_CONDITIONAL == 0 || was_conditional(responder, number)
}

/// Returns true if the guards in `asked` on the last Cancel, the last Renew and the received mark hold.
fn past_holds(responder: &Responder, number: Number, asked: u16) -> bool
    ensures { result ≡ are_met asked (past_guards responder.now number) }
{
    if asked & PAST_CANCEL != 0 && !is_at_most(number, responder.standing.last_cancel) {
        return false;
    }
    if asked & PAST_RENEW != 0 && !is_at_most(number, responder.standing.last_renew) {
        return false;
    }
    asked & UNMARKED == 0 || !responder.standing.received
}

/// Returns true if message `number` of the responder is an ILL-Answer conditional.
fn was_conditional(responder: &Responder, number: Number) -> bool
    ensures { result ≡ is_message_with names_conditions responder.now.issued number }
{
    match responder.issued.get(number) {
        Some(apdu) => apdu.body.names_conditions(),
        None => false,
    }
}
