//! Defines the table of a responder's deeds.

ghost use Rattle.std.specs.Prelude.{◌≡◌, Bool, [], filter, option_copied};
ghost use Rattle.ill_core.specs.Kinds.{deed_kind};
ghost use Rattle.ill_core.specs.ResponderActions.{expiry_of};
ghost use Rattle.ill_core.specs.ResponderTables.{deed_rows, deed_row, check, check_date, deed_body, HasValueFor};

use super::{Deed, Responder};
use crate::date::is_after;
use crate::kind::{ResponderKind as Kind, known_value};
use crate::refusal::Refusal;
use crate::state::State::{
    self, Cancelled, CheckedIn, Conditional, InProcess, NotSupplied, Overdue, Recall, RenewOverdue,
    Shipped,
};
use crate::table::Then::{Stay, To};
use crate::table::{
    CANCEL_PENDING, CONDITIONAL, Guards, IN_PROCESS, NONE, OVERDUE, RENEW_OVERDUE, RENEW_PENDING,
    RETURNED, Row, SHIPPED, find,
};
use ill_values::{Body, Day};

// Sets of states. In `OPEN` the request is open, and no Cancel waits for its answer.
const OPEN: u16 = IN_PROCESS | CONDITIONAL;

// A Renew waits for its Renew-Answer.
const RENEWING: u16 = RENEW_PENDING | RENEW_OVERDUE;

/// Lists the rows of deeds, ordered by kind. Each has its kind, states, guards, effect and changes. Within a kind, the
/// first row that fits decides.
const ROWS: [Row<Kind>; 14] = [
    Row(Kind::Conditions, IN_PROCESS, NONE, To(Conditional), NONE),
    Row(Kind::Promise, IN_PROCESS, NONE, Stay, NONE),
    Row(Kind::NoSupply, IN_PROCESS, NONE, To(NotSupplied), NONE),
    Row(Kind::Expired, OPEN, NONE, To(NotSupplied), NONE),
    Row(Kind::CancelYes, CANCEL_PENDING, NONE, To(Cancelled), NONE),
    Row(Kind::CancelNo, CANCEL_PENDING, NONE, To(InProcess), NONE),
    Row(Kind::Shipped, IN_PROCESS, NONE, To(Shipped), NONE),
    Row(Kind::Overdue, SHIPPED, NONE, To(Overdue), NONE),
    Row(Kind::Overdue, RENEW_PENDING, NONE, To(RenewOverdue), NONE),
    Row(Kind::RenewYes, RENEWING, NONE, To(Shipped), NONE),
    Row(Kind::RenewNo, RENEW_PENDING, NONE, To(Shipped), NONE),
    Row(Kind::RenewNo, RENEW_OVERDUE, NONE, To(Overdue), NONE),
    Row(Kind::Recall, SHIPPED | OVERDUE, NONE, To(Recall), NONE),
    Row(Kind::CheckedIn, RETURNED, NONE, To(CheckedIn), NONE),
];

/// The index of the first row of each kind, and then the number of rows.
const BEGINNINGS: [usize; 13] = [0, 1, 2, 3, 4, 5, 6, 7, 9, 10, 12, 13, 14];

/// Returns the first row that fits `state` and `deed`, or `None`.
pub fn row_of(state: State, deed: &Deed) -> Option<&'static Row<Kind>>
    ensures { option_copied result ≡ deed_row state deed.now }
{
    find(rows_of(kind_of(deed)), state, &NoGuards)
}

/// Returns the rows of a kind.
fn rows_of(kind: Kind) -> &'static [Row<Kind>]
    ensures { result.now ≡ deed_rows kind }
{
    let place = kind.place();
    &ROWS[BEGINNINGS[place]..BEGINNINGS[place + 1]]
}

/// Returns the kind of the message that a deed issues.
fn kind_of(deed: &Deed) -> Kind
    ensures { result ≡ deed_kind deed.now }
{
    match deed {
        Deed::Answer(answer) => Kind::of_answer(*answer),
        Deed::CancelReply { yes: true } => Kind::CancelYes,
        Deed::CancelReply { yes: false } => Kind::CancelNo,
        Deed::Ship { .. } => Kind::Shipped,
        Deed::RenewAnswer { granted: Some(_) } => Kind::RenewYes,
        Deed::RenewAnswer { granted: None } => Kind::RenewNo,
        Deed::Overdue => Kind::Overdue,
        Deed::Recall => Kind::Recall,
        Deed::CheckIn => Kind::CheckedIn,
        Deed::Expire => Kind::Expired,
    }
}

/// The empty set of guards: no row of deeds asks for one.
struct NoGuards;

/// Tests no guard, so the answer is always true.
impl Guards for NoGuards {
    ghost guards = { λ _. [] };

    fn hold(&self, _asked: u16) -> bool {
        true
    }
}

/// Refuses a deed that its date or `today` forbids.
pub fn check_date(responder: &Responder, deed: &Deed, today: Day) -> Result<(), Refusal>
    ensures { result ≡ check_date responder.now deed.now today }
{
    match deed {
        Deed::Ship { due } => check(!(*due < today), Refusal::DateEarlier),
        Deed::RenewAnswer { granted: Some(day) } => {
            check(is_after(*day, responder.due()), Refusal::DateNotLater)
        }
        Deed::Overdue => check(is_after(today, responder.due()), Refusal::NotDue),
        Deed::Expire => check(is_after(today, expiry(responder)), Refusal::NotExpired),
        _ => Ok(()),
    }
}

/// Returns `Ok` if the deed is allowed, and else `refusal`.
fn check(is_allowed: bool, refusal: Refusal) -> Result<(), Refusal>
    ensures { result ≡ check is_allowed refusal }
{
    if is_allowed { Ok(()) } else { Err(refusal) }
}

/// Returns the expiry date of the request, or `None`.
fn expiry(responder: &Responder) -> Option<Day>
    ensures { result ≡ expiry_of responder.now.request }
{
    match &responder.request {
        Some(request) => match &request.body {
            Body::IllRequest { expiry, .. } => *expiry,
            _ => None,
        },
        None => None,
    }
}

/// Returns the body of the message that a deed issues.
pub fn body_of(responder: &Responder, deed: &Deed) -> Body
    requires known { HasValueFor responder.now deed.now }
    ensures { result ≡ deed_body responder.now deed.now }
{
    let standing = responder.standing;
    match deed {
        Deed::Answer(result) => Body::IllAnswer { result: *result },
        Deed::CancelReply { yes } => Body::CancelReply {
            answers: known_value(standing.last_cancel),
            yes: *yes,
        },
        Deed::Ship { due } => Body::Shipped { due: *due },
        Deed::RenewAnswer { granted } => Body::RenewAnswer {
            answers: known_value(standing.last_renew),
            granted: *granted,
        },
        Deed::Overdue => Body::Overdue {
            due: known_value(responder.due()),
        },
        Deed::Recall => Body::Recall,
        Deed::CheckIn => Body::CheckedIn,
        Deed::Expire => Body::Expired,
    }
}
