//! The loans that wait for this library, and their order by urgency.

ghost use Rattle.std.specs.Prelude.{◌≡◌, map, is_none, IfOk};
ghost use Rattle.ill_words.specs.Waiting.{deadline_of, is_pressing, turn_on, is_sooner, most_urgent_first, waits_by_date};

use crate::possible::expiry;
use crate::sides::all_of;
use ill_core::Turn;
use ill_saved::{Side, Sides};
use ill_values::{Day, OutOfMemory};
use std::alloc::Global;

/// Returns the deadline of a loan, if it has one: its due date, or else the expiry date of its request.
pub(crate) fn deadline(side: &Side) -> Option<Day>
    ensures { result ≡ deadline_of side.now }
{
    match side.due() {
        None => expiry(side),
        due => due,
    }
}

/// Returns the turn of a loan on the day `today`. If its deadline is past and this library can act, the turn is this
/// library's. Without a day it is the turn by the record.
pub fn turn_on(today: Option<Day>, side: &Side) -> Turn
    ensures { result ≡ turn_on today side.now }
{
    if is_pressing(today, side) {
        return Turn::Mine;
    }
    side.turn()
}

/// Returns true if the deadline of a loan is before the day `today`, and this library can act in it. It cannot act in a
/// loan that is over.
fn is_pressing(today: Option<Day>, side: &Side) -> bool
    ensures { result ≡ is_pressing today side.now }
{
    match today {
        Some(_) => is_sooner(deadline(side), today) && !side.verbs().is_empty(),
        None => false,
    }
}

/// Returns true if a loan waits for this library on a day after its deadline. It does if it has a deadline, and this
/// library can act in it.
pub fn waits_by_date(side: &Side) -> bool
    ensures { result ≡ waits_by_date side.now }
{
    deadline(side).is_some() && !side.verbs().is_empty()
}

/// Returns true if the deadline `day` is before `other`. Any deadline is before none.
pub fn is_sooner(day: Option<Day>, other: Option<Day>) -> bool
    ensures { result ≡ is_sooner day other }
{
    match (day, other) {
        (Some(day), Some(other)) => day < other,
        (day, _) => day.is_some(),
    }
}

/// Returns all loans in the order of their deadlines, and loans without one last. Loans with equal deadlines stay in
/// the order in which they were begun.
pub fn most_urgent_first<'a>(alloc: Global, sides: &'a Sides) -> Result<Vec<&'a Side>, OutOfMemory>
    ensures { IfOk result (λ ordered. map (λ side. side.now) ordered.items
        ≡ most_urgent_first sides.now.sides) }
{
    let mut ordered = all_of(alloc, sides)?;
    ordered.sort_by_cached_key(|side| urgency(side))?;
    Ok(ordered)
}

/// Returns the key by which loans are sorted: true if the loan has no deadline, and the deadline. False comes before
/// true, so loans without a deadline come last.
fn urgency(side: &Side) -> (bool, Option<Day>)
    ensures { result ≡ (is_none (deadline_of side.now), deadline_of side.now) }
{
    let deadline = deadline(side);
    (deadline.is_none(), deadline)
}
