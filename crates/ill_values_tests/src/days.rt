//! Tests of days: their parts, texts, faults and order, and the sum of a day and a count of days.

use ill_values::{Day, DayFault};
use std::test::Fail;

/// A year, month and day, with the digits of the day that they make, or the fault.
struct PartsRow {
    /// The year, the month and the day.
    parts: (u16, u8, u8),
    /// The digits of the day, or the fault.
    made: Result<&'static str, DayFault>,
}

/// The cases of `Day::new`. A year out of range is found before a wrong month.
const PARTS: [PartsRow; 13] = [
    PartsRow {
        parts: (2025, 3, 15),
        made: Ok("20250315"),
    },
    PartsRow {
        parts: (1900, 1, 1),
        made: Ok("19000101"),
    },
    PartsRow {
        parts: (9999, 12, 31),
        made: Ok("99991231"),
    },
    PartsRow {
        parts: (2000, 2, 29),
        made: Ok("20000229"),
    },
    PartsRow {
        parts: (2024, 2, 29),
        made: Ok("20240229"),
    },
    PartsRow {
        parts: (1899, 12, 31),
        made: Err(DayFault::OutOfRange),
    },
    PartsRow {
        parts: (10000, 1, 1),
        made: Err(DayFault::OutOfRange),
    },
    PartsRow {
        parts: (1899, 13, 1),
        made: Err(DayFault::OutOfRange),
    },
    PartsRow {
        parts: (1900, 2, 29),
        made: Err(DayFault::NotADate),
    },
    PartsRow {
        parts: (2025, 4, 31),
        made: Err(DayFault::NotADate),
    },
    PartsRow {
        parts: (2025, 13, 1),
        made: Err(DayFault::NotADate),
    },
    PartsRow {
        parts: (2025, 0, 1),
        made: Err(DayFault::NotADate),
    },
    PartsRow {
        parts: (2025, 1, 0),
        made: Err(DayFault::NotADate),
    },
];

#[test]
fn days_are_made_of_their_parts(rt: HostRuntime) {
    for row in &PARTS {
        let (year, month, day) = row.parts;
        match (Day::new(year, month, day), row.made) {
            (Ok(made), Ok(digits)) => {
                assert!(rt; made.digits().as_slice() == digits.as_bytes(), "{digits}");
                assert!(rt; Day::read(digits.as_bytes()) == Ok(made), "{digits} read");
            }
            (made, wanted) => {
                assert!(rt; made.err() == wanted.err(), "{year}-{month}-{day}");
            }
        }
    }
}

/// A day in three encodings: its digits, its parts, and the ISO text with hyphens.
struct IsoRow {
    /// The digits of the day.
    digits: &'static str,
    /// The year, the month and the day.
    parts: (u16, u8, u8),
    /// The text of the day with hyphens.
    iso: &'static str,
}

/// The cases of the encodings of a day.
const ISO: [IsoRow; 3] = [
    IsoRow {
        digits: "20250315",
        parts: (2025, 3, 15),
        iso: "2025-03-15",
    },
    IsoRow {
        digits: "19000101",
        parts: (1900, 1, 1),
        iso: "1900-01-01",
    },
    IsoRow {
        digits: "99991231",
        parts: (9999, 12, 31),
        iso: "9999-12-31",
    },
];

#[test]
fn days_show_their_parts(rt: HostRuntime) -> Result<(), Fail> {
    for row in &ISO {
        let day = Day::read(row.digits.as_bytes())?;
        let parts = (day.year(), day.month(), day.day());
        assert!(rt; parts == row.parts, "parts of {}", row.digits);
        assert!(rt; day.iso().as_slice() == row.iso.as_bytes(), "{}", row.iso);
        let shown = format!(in rt.alloc(); "{day}")?;
        assert!(rt; shown.as_str() == row.digits, "{} shown", row.digits);
    }
    Ok(())
}

/// A text that is no day, and the fault of reading it.
struct TextRow {
    /// The text that is read.
    text: &'static str,
    /// The fault of reading it.
    fault: DayFault,
}

/// The cases of texts that are no day.
const NO_DAYS: [TextRow; 8] = [
    TextRow {
        text: "20250229",
        fault: DayFault::NotADate,
    },
    TextRow {
        text: "18991231",
        fault: DayFault::OutOfRange,
    },
    TextRow {
        text: "",
        fault: DayFault::NotDigits,
    },
    TextRow {
        text: "2025031",
        fault: DayFault::NotDigits,
    },
    TextRow {
        text: "202503150",
        fault: DayFault::NotDigits,
    },
    TextRow {
        text: "2025-1-1",
        fault: DayFault::NotDigits,
    },
    TextRow {
        text: "2025031/",
        fault: DayFault::NotDigits,
    },
    TextRow {
        text: "2025031:",
        fault: DayFault::NotDigits,
    },
];

#[test]
fn texts_that_are_no_days(rt: HostRuntime) {
    for row in &NO_DAYS {
        let fault = Day::read(row.text.as_bytes()).err();
        assert!(rt; fault == Some(row.fault), "\"{}\"", row.text);
        let fault = row.text.parse::<Day>().err();
        assert!(rt; fault == Some(row.fault), "\"{}\" parsed", row.text);
    }
}

/// A day, a count of days, and the day that many days later. `None` means that it would be after the last day.
struct LaterRow {
    /// The digits of the first day.
    start: &'static str,
    /// The count of days that are added.
    days: u32,
    /// The digits of the later day.
    later: Option<&'static str>,
}

/// The cases of `Day::after`. The last three counts are the largest in a span of jiff, and two above it.
const LATER: [LaterRow; 10] = [
    LaterRow {
        start: "20250315",
        days: 0,
        later: Some("20250315"),
    },
    LaterRow {
        start: "20240228",
        days: 2,
        later: Some("20240301"),
    },
    LaterRow {
        start: "20231231",
        days: 1,
        later: Some("20240101"),
    },
    LaterRow {
        start: "19000228",
        days: 1,
        later: Some("19000301"),
    },
    LaterRow {
        start: "19000101",
        days: 2_958_463,
        later: Some("99991231"),
    },
    LaterRow {
        start: "99991231",
        days: 1,
        later: None,
    },
    LaterRow {
        start: "19000101",
        days: 2_958_464,
        later: None,
    },
    LaterRow {
        start: "19000101",
        days: 7_304_484,
        later: None,
    },
    LaterRow {
        start: "19000101",
        days: 7_304_485,
        later: None,
    },
    LaterRow {
        start: "19000101",
        days: u32::MAX,
        later: None,
    },
];

#[test]
fn days_so_many_days_later(rt: HostRuntime) -> Result<(), Fail> {
    for row in &LATER {
        let found = Day::read(row.start.as_bytes())?.after(row.days);
        let wanted = match row.later {
            Some(later) => Ok(Day::read(later.as_bytes())?),
            None => Err(DayFault::OutOfRange),
        };
        assert!(rt; found == wanted, "{} days after {}", row.days, row.start);
    }
    Ok(())
}

#[test]
fn days_are_equal_and_ordered_as_the_calendar_has_them(rt: HostRuntime) -> Result<(), Fail> {
    for (before, after) in &[("20250228", "20250301"), ("20241231", "20250101")] {
        let first = Day::read(before.as_bytes())?;
        let second = Day::read(after.as_bytes())?;
        assert!(rt; first < second, "{before} is before {after}");
        assert!(rt; !(second < first), "{after} is not before {before}");
        assert!(rt; first == first, "{before} is itself");
        assert!(rt; first != second, "{before} is not {after}");
    }
    Ok(())
}
