//! Defines the numbers of messages.

ghost use Rattle.std.specs.Prelude.{◌≡◌, ℕ, ◌≤◌, ◌<◌, ◌↔◌, Some, IsSome, IfSome, MatchResult};
ghost use Rattle.std.specs.Fmt.{decimal};

use crate::fault::NotANumber;
use std::fmt;
use std::marker::Model;

/// The number of a message among those that one side issued in a transaction: 1 to 255.
///
/// It replaces the service date and time of ISO 10161-1 in this profile.
#[derive(Clone, Copy, Debug, PartialEq, Eq, PartialOrd, Ord, Hash)]
pub struct Number {
    value: u8,
}

/// In proofs a number is a natural number of at least 1. `inverse` gives the field of that number.
impl Model for Number {
    ghost Value = { ℕ };

    ghost view = { λ n. n.value };

    ghost invariant = { λ n. 1 ≤ n.value };

    ghost inverse = { λ n. record { value = n } };
}

impl Number {
    /// Returns the number with this value, or `None` if `value` is 0.
    pub fn new(value: u8) -> Option<Number>
        ensures numbers { IsSome result ↔ (1 ≤ value) }
        ensures value { IfSome result (λ n. n ≡ value) }
    {
        if value == 0 {
            None
        } else {
            Some(Number { value })
        }
    }

    /// Returns the value of the number, from 1 to 255.
    pub fn get(&self) -> u8
        ensures value { result ≡ self.now }
        ensures from { 1 ≤ result }
        ensures to { result ≤ 255 }
    {
        self.value
    }
}

impl From<Number> for u8 {
    ghost from_gives = { λ number value. value ≡ number };

    fn from(number: Number) -> u8 {
        number.get()
    }
}

impl TryFrom<u8> for Number {
    type Error = NotANumber;

    ghost try_from_gives = { λ value result. MatchResult result (λ number. number ≡ value) (λ _. value ≡ 0) };

    fn try_from(value: u8) -> Result<Number, NotANumber> {
        Number::new(value).ok_or(NotANumber)
    }
}

impl fmt::Display for Number {
    ghost output = { λ number. Some (decimal number) };

    fn fmt<W: fmt::Write>(&self, f: &mut fmt::Formatter<W>) -> fmt::Result {
        self.value.fmt(f)
    }
}
