//! Compares a day with a date that may be absent.

ghost use Rattle.std.specs.Prelude.{◌≡◌};
ghost use Rattle.ill_core.specs.Dates.{is_due_on, is_after_due};

use ill_values::Day;

/// Returns true if there is a due date, and `day` is that day.
pub fn is_due_on(day: Day, due: Option<Day>) -> bool
    ensures { result ≡ is_due_on day due }
{
    match due {
        Some(due) => day == due,
        None => false,
    }
}

/// Returns true if there is a date, and `day` is after it.
pub fn is_after(day: Day, date: Option<Day>) -> bool
    ensures { result ≡ is_after_due day date }
{
    match date {
        Some(date) => date < day,
        None => false,
    }
}
