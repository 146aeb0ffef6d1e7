//! Defines how the dates of a loan stand to a day: past, soon, or neither.

ghost use Rattle.std.specs.Prelude.{◌≡◌};
ghost use Rattle.ill_core.specs.Dates.{is_after_due};
ghost use Rattle.ill_work.specs.Dates.{is_due_within};
ghost use Rattle.ill_work.specs.Table.{dates_on};

use ill_saved::Side;
use ill_values::Day;
use ill_words::possible::expiry;

/// Says which dates of a loan are past or soon on a day.
#[derive(Clone, Copy)]
pub(crate) struct Dates {
    /// True if the expiry date of the request is past.
    pub has_expired: bool,
    /// True if the due date is past.
    pub is_overdue: bool,
    /// True if the due date is past, or at most a number of days away that the caller chose.
    pub is_due_soon: bool,
}

/// No date of a loan is past, and none is soon.
pub(crate) const NO_DATE_PRESSES: Dates = Dates {
    has_expired: false,
    is_overdue: false,
    is_due_soon: false,
};

/// Returns how the dates of `side` stand to the day `today`. A due date is soon if it is at most `ahead` days away.
pub(crate) fn dates_on(today: Day, ahead: u32, side: &Side) -> Dates
    ensures { result ≡ dates_on today ahead side.now }
{
    Dates {
        has_expired: is_past(today, expiry(side)),
        is_overdue: is_past(today, side.due()),
        is_due_soon: is_due_within(today, ahead, side.due()),
    }
}

/// Returns true if there is a date, and the day `today` is after it.
fn is_past(today: Day, date: Option<Day>) -> bool
    ensures { result ≡ is_after_due today date }
{
    match date {
        Some(date) => date < today,
        None => false,
    }
}

/// Returns true if there is a due date, and it is at most `ahead` days after the day `today`. If the calendar ends
/// before that day, it returns true for each due date.
fn is_due_within(today: Day, ahead: u32, due: Option<Day>) -> bool
    ensures { result ≡ is_due_within today ahead due }
{
    match (due, today.after(ahead)) {
        (Some(due), Ok(last)) => due <= last,
        (Some(_), Err(_)) => true,
        (None, _) => false,
    }
}
