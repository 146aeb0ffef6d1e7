//! Defines the table of a requester's wishes.

ghost use Rattle.std.specs.Prelude.{◌≡◌, IsOk, IsSome, IfOk, IfErr, option_copied};
ghost use Rattle.std.specs.Option.{unwrap_or};
ghost use Rattle.ill_core.specs.declared.refusal.Refusal.TheVariants as refusals;
ghost use Rattle.ill_core.specs.Kinds.{wish_kind};
ghost use Rattle.ill_core.specs.RequesterActions.{transition_of};
ghost use Rattle.ill_core.specs.RequesterTables.{wish_guards, wish_rows, wish_row, wish_body};

use super::standing::FREES;
use super::{Requester, Wish};
use crate::kind::{RequesterKind as Kind, known_value};
use crate::refusal::Refusal;
use crate::state::State::{
    CancelPending, Overdue, Pending, Received, RenewOverdue, RenewPending, Returned,
};
use crate::table::Then::{Stay, To};
use crate::table::{
    CONDITIONAL, Guards, IDLE, NONE, NOT_RECEIVED_OVERDUE, OVERDUE, PENDING, RECALL, RECEIVED,
    RENEW_OVERDUE, RENEW_PENDING, Row, SHIPPED, find,
};
use ill_values::{Body, Number};
use std::alloc::Global;

// The bits of the guards.
const UNDECLINED: u16 = 1; // The held conditions were not declined.

const IS_HERE: u16 = 1 << 1; // A Received was issued.

const NOT_HERE: u16 = 1 << 2; // No Received was issued.

// Sets of states. In `KEPT` the requester has the item, and no Recall was taken.
const KEPT: u16 = RECEIVED | RENEW_PENDING | OVERDUE | RENEW_OVERDUE;

/// Lists the rows of wishes, ordered by kind. Each has its kind, states, guards, effect and changes. Within a kind, the
/// first row that fits decides.
const ROWS: [Row<Kind>; 11] = [
    Row(Kind::Request, IDLE, NONE, To(Pending), NONE),
    Row(Kind::Yes, CONDITIONAL, UNDECLINED, To(Pending), FREES),
    Row(Kind::No, CONDITIONAL, UNDECLINED, Stay, NONE),
    Row(Kind::Cancel, PENDING, NONE, To(CancelPending), NONE),
    Row(Kind::Received, SHIPPED, NONE, To(Received), NONE),
    Row(
        Kind::Received,
        NOT_RECEIVED_OVERDUE,
        NONE,
        To(Overdue),
        NONE,
    ),
    Row(Kind::Received, RECALL, NOT_HERE, Stay, NONE),
    Row(Kind::Renew, RECEIVED, NONE, To(RenewPending), NONE),
    Row(Kind::Renew, OVERDUE, NONE, To(RenewOverdue), NONE),
    Row(Kind::Returned, KEPT, NONE, To(Returned), NONE),
    Row(Kind::Returned, RECALL, IS_HERE, To(Returned), NONE),
];

/// The index of the first row of each kind, and then the number of rows.
const BEGINNINGS: [usize; 8] = [0, 1, 2, 3, 4, 7, 9, 11];

/// Returns the first row that fits a wish, or `None`.
pub fn row_of(requester: &Requester, wish: &Wish) -> Option<&'static Row<Kind>>
    ensures { option_copied result ≡ wish_row requester.now wish.now }
{
    find(rows_of(kind_of(wish)), requester.standing.state, requester)
}

/// Returns the rows of a kind.
fn rows_of(kind: Kind) -> &'static [Row<Kind>]
    ensures { result.now ≡ wish_rows kind }
{
    let place = kind.place();
    &ROWS[BEGINNINGS[place]..BEGINNINGS[place + 1]]
}

/// Returns the kind of the message that a wish issues.
fn kind_of(wish: &Wish) -> Kind
    ensures { result ≡ wish_kind wish.now }
{
    match wish {
        Wish::Request { .. } => Kind::Request,
        Wish::Cancel => Kind::Cancel,
        Wish::Reply { yes: true } => Kind::Yes,
        Wish::Reply { yes: false } => Kind::No,
        Wish::Receive => Kind::Received,
        Wish::Renew { .. } => Kind::Renew,
        Wish::Return => Kind::Returned,
    }
}

/// Tests the guards that the rows of wishes ask for.
impl Guards for Requester {
    ghost guards = { wish_guards };

    fn hold(&self, asked: u16) -> bool {
        if asked & UNDECLINED != 0 && self.is_declined() {
            return false;
        }
        if asked & NOT_HERE != 0 && self.is_received() {
            return false;
        }
        asked & IS_HERE == 0 || self.is_received()
    }
}

/// Returns the body of the APDU that a wish with a transition issues. Fails with `OutOfMemory` if its item cannot be
/// copied.
pub fn body_of(requester: &Requester, alloc: Global, wish: &Wish) -> Result<Body, Refusal>
    requires done { IsOk (transition_of requester.now wish.now) }
    ensures value { IfOk result (λ body. body ≡ wish_body requester.now wish.now) }
    ensures memory { IfErr result (λ refusal. refusal ≡ refusals.OutOfMemory) }
{
    let body = match wish {
        Wish::Request { expiry, item } => {
            let item = item.copy(alloc)?;
            Body::IllRequest {
                expiry: *expiry,
                item,
            }
        }
        Wish::Cancel => Body::Cancel,
        Wish::Reply { yes } => Body::ConditionalReply {
            answers: known_value(requester.standing.held),
            yes: *yes,
        },
        Wish::Receive => Body::Received,
        Wish::Renew { wished } => Body::Renew { wished: *wished },
        Wish::Return => Body::Returned,
    };
    Ok(body)
}
