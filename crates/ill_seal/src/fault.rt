//! The faults of bytes that are no sealed letter, and of a text that is no key.

ghost use Rattle.std.specs.Prelude.{◌≡◌};
ghost use Rattle.ill_seal.specs.declared.fault.KeyFault.TheVariants as keys;

use std::alloc::{AllocError, AllocFailed};
use thiserror::Error;

/// The first fault of bytes that are no letter of the expected sender, sealed with the expected key.
#[derive(Clone, Copy, Debug, PartialEq, Eq, Error)]
pub enum SealFault {
    /// The bytes are too few for a sealed letter.
    #[error("too short for a sealed letter")]
    Short,
    /// The bytes do not begin with the mark of a sealed letter.
    #[error("no sealed letter")]
    Mark,
    /// The letter is not of the expected sender.
    #[error("a letter of another sender")]
    Sender,
    /// The seal does not fit: the letter was sealed with another key, or was changed.
    #[error("not sealed with this key")]
    Seal,
}

/// The reason why a text gave no key: the first fault of the text, or that memory ran out.
#[derive(Clone, Copy, Debug, PartialEq, Eq, Error)]
pub enum KeyFault {
    /// The text has anything but 68 hexadecimal digits, besides white space.
    #[error("no key: it has 17 groups of four digits or letters from a to f")]
    Digits,
    /// The last group does not fit the others.
    #[error("a slip: the last group does not fit the others")]
    Check,
    /// Memory ran out.
    #[error("memory")]
    OutOfMemory,
}

// A failed allocation is the fault `OutOfMemory`.
impl From<AllocError> for KeyFault {
    ghost from_gives = { λ _ fault. fault ≡ keys.OutOfMemory };

    fn from(_error: AllocError) -> KeyFault {
        KeyFault::OutOfMemory
    }
}

// A failed allocation is the fault `OutOfMemory`, and the value that found no room is dropped.
impl<T: Drop> From<AllocFailed<T>> for KeyFault {
    ghost from_gives = { λ _ fault. fault ≡ keys.OutOfMemory };

    fn from(_error: AllocFailed<T>) -> KeyFault {
        KeyFault::OutOfMemory
    }
}
