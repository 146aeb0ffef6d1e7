//! Spans of days, and the number of days from one day to another.

ghost use Rattle.std.specs.Prelude.{◌≡◌, ◌≤◌, ◌+ℤ◌, ◌-ℤ◌, pos};
ghost use Rattle.jiff_core.specs.Calendar.{day_count};
ghost use Rattle.jiff_core.specs.Date.{IsYmd};
ghost use Rattle.ill_figures.specs.Days.{day_number, days_between, days_from, is_in, span_between};

use ill_values::Day;
use jiff_core::civil::Date;

/// A span of days. Both days are in it.
#[derive(Clone, Copy)]
pub struct Span {
    /// The first day.
    pub first: Day,
    /// The last day.
    pub last: Day,
}

impl Span {
    /// Returns the span from `first` to `last`, if `last` is not before `first`.
    pub fn new(first: Day, last: Day) -> Option<Span>
        ensures { result ≡ span_between first last }
    {
        if last < first {
            None
        } else {
            Some(Span { first, last })
        }
    }

    /// Returns true if `day` is known and in the span.
    pub(crate) fn has(&self, day: Option<Day>) -> bool
        ensures { result ≡ is_in self.now day }
    {
        match day {
            Some(day) => !(day < self.first) && !(self.last < day),
            None => false,
        }
    }
}

/// Returns the number of days from `first` to `last`, if both are known and `last` is not before `first`.
pub(crate) fn days_from(first: Option<Day>, last: Option<Day>) -> Option<u32>
    ensures { result ≡ days_from first last }
{
    match (first, last) {
        (Some(first), Some(last)) => days_between(first, last),
        _ => None,
    }
}

/// Returns the number of days from `first` to `last`, if `last` is not before `first`.
fn days_between(first: Day, last: Day) -> Option<u32>
    ensures { result ≡ days_between first last }
{
    number(last).checked_sub(number(first))
}

/// Returns the number of days from 1 January of the year -9999 to `day`.
fn number(day: Day) -> u32
    ensures { pos result ≡ pos (day_number day) -ℤ pos (day_count (pos 1970) 1 1) +ℤ pos 4_371_587 }
{
    civil(day).days_since_min()
}

/// Returns `day` as a date of jiff.
fn civil(day: Day) -> Date
    ensures { IsYmd (pos day.year) (pos day.month) (pos day.day) result }
{
    Date {
        year: day.year() as i16,
        month: day.month(),
        day: day.day(),
    }
}
