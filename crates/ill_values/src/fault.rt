//! Defines the reasons to refuse a value.

ghost use Rattle.std.specs.Prelude.{◌≡◌};
ghost use Rattle.ill_values.specs.declared.fault.TextFault.TheVariants.{OutOfMemory};

use std::alloc::{AllocError, AllocFailed};
use thiserror::Error;

/// The reason why bytes gave no qualifier or no item. It is a fault of the bytes, or memory ran out. Of several faults
/// of one text it is the first in this order.
#[derive(Clone, Copy, Debug, PartialEq, Eq, Hash, Error)]
pub enum TextFault {
    /// The text has no bytes.
    #[error("the text is empty")]
    Empty,
    /// The text has more than 64 bytes (a qualifier) or more than 200 (an item).
    #[error("the text is too long")]
    TooLong,
    /// A qualifier has a byte outside 0x20 to 0x7E. Or an item is not UTF-8, or has a control character of ASCII.
    #[error("the text has a byte that may not stand there")]
    BadByte,
    /// The text has no fault, but memory ran out.
    #[error("out of memory")]
    OutOfMemory,
}

/// The reason why a text, or numbers, gave no `Day`. The day may not exist, or may be out of the range of `Day`. Of
/// several faults it is the first in this order.
#[derive(Clone, Copy, Debug, PartialEq, Eq, Hash, Error)]
pub enum DayFault {
    /// The text is not exactly eight ASCII digits. Only `Day::read` and `Day::from_str` return this.
    #[error("a date is eight digits")]
    NotDigits,
    /// The year is not from 1900 to 9999, or `Day::after` would lead past 31 December 9999.
    #[error("the years are 1900 to 9999")]
    OutOfRange,
    /// The year is in range, but has no day with this month and this day of the month.
    #[error("the calendar has no such day")]
    NotADate,
}

/// The fault of a text that is not the name of a value of the type that is read.
#[derive(Clone, Copy, Debug, PartialEq, Eq, Hash, Error)]
#[error("the text is no name")]
pub struct UnknownName;

/// The fault of the value 0, which is the number of no message.
#[derive(Clone, Copy, Debug, PartialEq, Eq, Hash, Error)]
#[error("a number is 1 to 255")]
pub struct NotANumber;

impl From<AllocError> for TextFault {
    ghost from_gives = { λ _ fault. fault ≡ OutOfMemory };

    fn from(_error: AllocError) -> TextFault {
        TextFault::OutOfMemory
    }
}

impl<T: Drop> From<AllocFailed<T>> for TextFault {
    ghost from_gives = { λ _ fault. fault ≡ OutOfMemory };

    fn from(_error: AllocFailed<T>) -> TextFault {
        TextFault::OutOfMemory
    }
}
