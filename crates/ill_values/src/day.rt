//! Defines calendar days.

ghost use Rattle.std.specs.Prelude.{◌≡◌, ◌+◌, ◌-◌, ◌*◌, ◌%◌, ◌<◌, ◌≤◌, Some, pos, ◌≤ℤ◌, unsigned_abs, length, slice_index, EachIndex};
ghost use Rattle.std.specs.List.{list_all};
ghost use Rattle.std.specs.Char.{is_ascii_digit};
ghost use Rattle.std.specs.Bool.{OnTrue};
ghost use Rattle.std.specs.Int.{IsInRange};
ghost use Rattle.std.specs.Fmt.{padded};
ghost use Rattle.ill_values.specs.Day.{Date, IsDate, is_in_year, eight_digits, two_digits_at, date_of, date_text, iso_text, read_date, day_after};
ghost use Rattle.jiff.specs.Words.{IsYmd};

use crate::fault::DayFault;
use jiff::{ToSpan, civil};
use std::marker::Model;
use std::str::FromStr;
use std::{fmt, str};

/// The largest number of days in a span of jiff. From 1 January 1900, the first day of this profile, this many days
/// lead past the last, 31 December 9999. So `after` may refuse a larger number.
const MAX_DAYS: u32 = 7_304_484;

/// A day of the Gregorian calendar, from 1 January 1900 to 31 December 9999.
///
/// Days are ordered by the calendar. A day is displayed by its eight digits, as `20250315`.
#[derive(Clone, Copy, Debug, PartialEq, Eq, PartialOrd, Ord, Hash)]
pub struct Day {
    year: u16,
    month: u8,
    day: u8,
}

/// In proofs a day is a `Date` in range. `inverse` gives the fields of the day with that date.
impl Model for Day {
    ghost Value = { Date };

    ghost view = { λ d. record { year = d.year; month = d.month; day = d.day } };

    ghost invariant = { λ d. IsDate (record { year = d.year; month = d.month; day = d.day }) };

    ghost inverse = { λ d. record { year = d.year; month = d.month; day = d.day } };
}

impl Day {
    /// Returns the day with this year, month (1 to 12) and day of the month (1 to 31).
    ///
    /// The fault is `OutOfRange` if the year is not from 1900 to 9999. It is `NotADate` if the calendar lacks the day.
    pub fn new(year: u16, month: u8, day: u8) -> Result<Day, DayFault>
        ensures { result ≡ date_of year month day }
    {
        if year < 1900 || year > 9999 {
            return Err(DayFault::OutOfRange);
        }
        if is_in_calendar(year, month, day) {
            Ok(Day { year, month, day })
        } else {
            Err(DayFault::NotADate)
        }
    }

    /// Returns the day with the eight ASCII digits `text`, as `20250315`. The fault of any other text is `NotDigits`.
    /// If the digits give no day, the fault is that of `new`.
    pub fn read(text: &[u8]) -> Result<Day, DayFault>
        ensures { result ≡ read_date text.now }
    {
        if !is_eight_digits(text) {
            return Err(DayFault::NotDigits);
        }
        let year = u16::from(two_digits(text, 0)) * 100 + u16::from(two_digits(text, 2));
        Day::new(year, two_digits(text, 4), two_digits(text, 6))
    }

    /// Returns the year, 1900 to 9999.
    pub fn year(&self) -> u16
        ensures value { result ≡ self.now.year }
        ensures date { IsDate self.now }
    {
        self.year
    }

    /// Returns the month, 1 to 12.
    pub fn month(&self) -> u8
        ensures value { result ≡ self.now.month }
        ensures date { IsDate self.now }
    {
        self.month
    }

    /// Returns the day of the month, 1 to 31.
    pub fn day(&self) -> u8
        ensures value { result ≡ self.now.day }
        ensures date { IsDate self.now }
    {
        self.day
    }

    /// Returns the day as eight ASCII digits, as `20250315`.
    pub fn digits(&self) -> [u8; 8]
        ensures value { result ≡ date_text self.now }
        ensures date { IsDate self.now }
    {
        [
            last_digit(self.year / 1000),
            last_digit(self.year / 100),
            last_digit(self.year / 10),
            last_digit(self.year),
            last_digit(u16::from(self.month / 10)),
            last_digit(u16::from(self.month)),
            last_digit(u16::from(self.day / 10)),
            last_digit(u16::from(self.day)),
        ]
    }

    /// Returns the day with hyphens between year, month and day, as `2025-03-15` (ISO 8601-1, extended
    /// format).
    pub fn iso(&self) -> [u8; 10]
        ensures value { result ≡ iso_text self.now }
        ensures date { IsDate self.now }
    {
        let [y1, y2, y3, y4, m1, m2, d1, d2] = self.digits();
        [y1, y2, y3, y4, b'-', m1, m2, b'-', d1, d2]
    }

    /// Returns the day that is `days` days later, or `OutOfRange` if it is after 31 December 9999.
    pub fn after(&self, days: u32) -> Result<Day, DayFault>
        ensures value { result ≡ day_after days self.now }
        ensures date { IsDate self.now }
    {
        let date = self.to_civil();
        if days > MAX_DAYS {
            return Err(DayFault::OutOfRange);
        }
        match date.checked_add(i64::from(days).days()) {
            Ok(later) => Day::from_civil(later),
            Err(_) => Err(DayFault::OutOfRange),
        }
    }

    /// Returns the day as a date of jiff.
    fn to_civil(self) -> civil::Date
        ensures valid { IsDate self }
        ensures value { IsYmd (pos self.year) (pos self.month) (pos self.day) result }
    {
        civil::date(self.year as i16, self.month as i8, self.day as i8)
    }

    /// Returns `date`, a date of jiff, as a day, or `OutOfRange` if its year is not from 1900 to 9999. The year may not
    /// be negative.
    fn from_civil(date: civil::Date) -> Result<Day, DayFault>
        requires { pos 0 ≤ℤ date.year }
        ensures { result ≡ date_of (unsigned_abs date.year) date.month date.day }
    {
        Day::new(date.year() as u16, date.month() as u8, date.day() as u8)
    }
}

/// Reads the eight digits of a day, as `Day::read` does.
impl FromStr for Day {
    type Err = DayFault;

    ghost from_str_gives = { λ text result. result ≡ read_date text };

    fn from_str(text: &str) -> Result<Day, DayFault> {
        Day::read(text.as_bytes())
    }
}

impl fmt::Display for Day {
    ghost output = { λ day. Some (date_text day) };

    ghost styled_output = { λ day spec. Some (padded spec (date_text day)) };

    fn fmt<W: fmt::Write>(&self, f: &mut fmt::Formatter<W>) -> fmt::Result {
        match str::from_utf8(&self.digits()) {
            Ok(digits) => f.pad(digits),
            Err(_) => unreachable!(),
        }
    }
}

/// Returns true if the calendar has this day. `year` must be at most 9999, but may be before 1900.
fn is_in_calendar(year: u16, month: u8, day: u8) -> bool
    requires { year ≤ 9999 }
    ensures { result ≡ is_in_year year month day }
{
    if month > 12 || day > 31 {
        return false;
    }
    civil::Date::new(year as i16, month as i8, day as i8).is_ok()
}

/// Returns true if `text` is eight ASCII digits.
fn is_eight_digits(text: &[u8]) -> bool
    ensures value { result ≡ eight_digits text.now }
    ensures length { OnTrue result (length text.now ≡ 8) }
    ensures digits { OnTrue result (EachIndex text.now
        (λ k. IsInRange 48 57 (slice_index text.now k))) }
{
    text.len() == 8 && is_digits(text)
}

/// Returns true if each byte of `text` is an ASCII digit.
fn is_digits(text: &[u8]) -> bool
    ensures value { result ≡ list_all is_ascii_digit text.now }
    ensures each { OnTrue result (EachIndex text.now
        (λ k. IsInRange 48 57 (slice_index text.now k))) }
{
    text.iter().all(|byte| byte.is_ascii_digit())
}

/// Returns the value of the two digits of `text` from index `place` on. `text` must be eight ASCII digits.
fn two_digits(text: &[u8], place: usize) -> u8
    requires place { place < 7 }
    requires length { length text.now ≡ 8 }
    requires digits { EachIndex text.now (λ k. IsInRange 48 57 (slice_index text.now k)) }
    ensures value { result ≡ two_digits_at text.now place }
    ensures bound { result ≤ 99 }
{
    (text[place] - b'0') * 10 + (text[place + 1] - b'0')
}

/// Returns the last decimal digit of `number`, in ASCII.
fn last_digit(number: u16) -> u8
    ensures { result ≡ 48 + number % 10 }
{
    b'0' + (number % 10) as u8
}
