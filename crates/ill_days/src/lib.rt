//! The two texts in which a day is given: its eight digits, and as programs and browsers write it, with hyphens.
#![tactic(auto)]

ghost use Rattle.std.specs.Prelude.{◌≡◌, option_map};
ghost use Rattle.ill_days.specs.Days.{is_dashed, read_day, undashed};

pub mod laws;

use ill_values::{Day, DayFault};

/// Returns the day of `text`, which is eight digits, as `20250315`, or has hyphens, as `2025-03-15` (ISO 8601-1, the
/// basic and the extended format). The fault of any other text is that of `Day::read`.
pub fn read_day(text: &[u8]) -> Result<Day, DayFault>
    ensures { result ≡ read_day text.now }
{
    match undashed(text) {
        Some(digits) => Day::read(&digits),
        None => Day::read(text),
    }
}

/// Returns the eight bytes of `text` beside the two hyphens of a day, or None if `text` does not have that shape. The
/// bytes may be no digits.
pub fn undashed(text: &[u8]) -> Option<[u8; 8]>
    ensures { result ≡ undashed text.now }
{
    if !is_dashed(text) {
        return None;
    }
    Some([
        text[0], text[1], text[2], text[3], text[5], text[6], text[8], text[9],
    ])
}

/// Returns true if `text` has ten bytes, with hyphens after four and after seven of them.
fn is_dashed(text: &[u8]) -> bool
    ensures { result ≡ is_dashed text.now }
{
    text.len() == 10 && text[4] == b'-' && text[7] == b'-'
}
