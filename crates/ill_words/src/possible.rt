//! The actions that a day allows.

ghost use Rattle.std.specs.Prelude.{◌≡◌, Some, Option, not, option_map, IfOk};
ghost use Rattle.std.specs.Result.{is_ok};
ghost use Rattle.ill_values.specs.Day.{Date};
ghost use Rattle.ill_core.specs.Dates.{is_before};
ghost use Rattle.ill_core.specs.Verbs.{is_verb_among, requester_verbs};
ghost use Rattle.ill_core.specs.Requester.{RequesterRecord};
ghost use Rattle.ill_core.specs.Responder.{ResponderRecord};
ghost use Rattle.ill_core.specs.ResponderActions.{expiry_of, transition_of};
ghost use Rattle.ill_core.specs.declared.responder.Deed.TheVariants as deeds;
ghost use Rattle.ill_core.specs.declared.verb.Verb.TheVariants as verbs;
ghost use Rattle.ill_record.specs.declared.side.Side.TheVariants as sides;
ghost use Rattle.ill_words.specs.Possible.{is_allowed, is_past, last_day, possible_on, request_of, item_asked};

use ill_core::Verb;
use ill_saved::Side;
use ill_values::{Apdu, Body, Day, Item, OutOfMemory};
use std::alloc::Global;

/// Returns the request of a loan, if the loan has begun.
pub fn request(side: &Side) -> Option<&Apdu>
    ensures { option_map (λ apdu. apdu.now) result ≡ request_of side.now }
{
    match side {
        Side::Requester(requester) => requester.all_issued().first(),
        Side::Responder(responder) => responder.request(),
    }
}

/// Returns the expiry date of the request of a loan, if the loan has begun and its request has one.
pub fn expiry(side: &Side) -> Option<Day>
    ensures { result ≡ expiry_of (request_of side.now) }
{
    match &request(side)?.body {
        Body::IllRequest { expiry, .. } => *expiry,
        _ => None,
    }
}

/// Returns the actions that the side may do on the day `today`. Without a day, returns those that it may do on some
/// day.
pub fn possible_on(alloc: Global, today: Option<Day>, side: &Side) -> Result<Vec<Verb>, OutOfMemory>
    ensures { IfOk result (λ verbs. verbs.items ≡ possible_on today side.now) }
{
    Ok(
        side.verbs()
            .iter()
            .copied()
            .filter(|verb| is_allowed(today, side, *verb))
            .collect(alloc)?,
    )
}

/// Returns true if the day `today` allows the action `verb`. Without a day, returns true if some day allows it.
fn is_allowed(today: Option<Day>, side: &Side, verb: Verb) -> bool
    ensures { result ≡ is_allowed today side.now verb }
{
    match verb {
        Verb::Overdue => is_past(today, side.due()),
        Verb::Expire => is_past(today, expiry(side)),
        _ => true,
    }
}

/// Returns true if the day `limit` is past on the day `today`. Without `today`, returns true if `limit` is past on some
/// day. Without `limit`, returns false.
fn is_past(today: Option<Day>, limit: Option<Day>) -> bool
    ensures { result ≡ is_past today limit }
{
    match (today, limit) {
        (Some(today), Some(limit)) => limit < today,
        (None, Some(limit)) => !is_last(limit),
        (_, None) => false,
    }
}

/// Returns true if `day` is the last day of the calendar.
fn is_last(day: Day) -> bool
    ensures { is_before day last_day ≡ not result }
{
    day.year() == 9999 && day.month() == 12 && day.day() == 31
}

/// Each of a requester's actions is possible on each day.
pub fn requester_verbs_are_possible()
    ensures { (today : Option Date) (x : RequesterRecord) → possible_on today (sides.Requester x) ≡ requester_verbs x }
{}

/// An Overdue is possible on a day exactly if the responder's state and due date allow it on that day.
pub fn overdue_is_possible_when_it_is_due()
    ensures { (today : Date) (y : ResponderRecord) → is_verb_among (possible_on (Some today) (sides.Responder y)) verbs.Overdue
        ≡ is_ok (transition_of y deeds.Overdue today) }
{}

/// An Expire is possible on a day exactly if the responder's state and the expiry date allow it that day.
pub fn expire_is_possible_when_it_has_expired()
    ensures { (today : Date) (y : ResponderRecord) → is_verb_among (possible_on (Some today) (sides.Responder y)) verbs.Expire
        ≡ is_ok (transition_of y deeds.Expire today) }
{}

/// Returns the item in the request of a loan, if the loan has begun.
pub fn item_asked(side: &Side) -> Option<&Item>
    ensures { option_map (λ item. item.now) result ≡ item_asked (request_of side.now) }
{
    match &request(side)?.body {
        Body::IllRequest { item, .. } => Some(item),
        _ => None,
    }
}
