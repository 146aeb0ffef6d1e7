//! Defines the refusals of an action or a message.

ghost use Rattle.std.specs.Prelude.{◌≡◌};
ghost use Rattle.ill_core.specs.declared.refusal.Refusal.TheVariants.{OutOfMemory};
ghost use Rattle.ill_core.specs.Words.{refusal_name};

use crate::state::State;
use std::alloc::{AllocError, AllocFailed};
use thiserror::Error;

/// The cause for which a side refused an action or a message. The record is unchanged.
///
/// If more than one cause applies, it is the first in this order.
#[derive(Clone, Copy, Debug, PartialEq, Eq, Hash, Error)]
pub enum Refusal {
    /// The APDU belongs to another transaction. Only `take` returns this.
    #[error("the APDU is of another transaction")]
    OtherTransaction,
    /// The APDU has a type that this side itself issues. Only `take` returns this.
    #[error("the APDU is one that this role issues")]
    WrongRole,
    /// The action has no place in this state, which is the side's own.
    #[error("not in the state {0}")]
    NotNow(State),
    /// The due date of a `Ship` is before today.
    #[error("the due date is before today")]
    DateEarlier,
    /// The due date that a `RenewAnswer` grants is not after the present one.
    #[error("the new due date is not after the present one")]
    DateNotLater,
    /// The due date of an `Overdue` has not passed: it is today or later.
    #[error("the item is not overdue yet")]
    NotDue,
    /// The expiry date of the request has not passed, or there is none.
    #[error("the request has not expired")]
    NotExpired,
    /// The side has issued 255 messages, and no number is left for another.
    #[error("all 255 numbers are used")]
    NumbersUsed,
    /// Memory ran out.
    #[error("out of memory")]
    OutOfMemory,
}

impl Refusal {
    /// Returns the name of the refusal, as `not-now`.
    pub fn name(self) -> &'static str
        ensures { result.now ≡ refusal_name self }
    {
        match self {
            Refusal::OtherTransaction => "other-transaction",
            Refusal::WrongRole => "wrong-role",
            Refusal::NotNow(_) => "not-now",
            Refusal::DateEarlier => "date-earlier",
            Refusal::DateNotLater => "date-not-later",
            Refusal::NotDue => "not-due",
            Refusal::NotExpired => "not-expired",
            Refusal::NumbersUsed => "numbers-used",
            Refusal::OutOfMemory => "memory",
        }
    }
}

/// Turns an allocation that was refused into `OutOfMemory`.
impl From<AllocError> for Refusal {
    ghost from_gives = { λ _ refusal. refusal ≡ OutOfMemory };

    fn from(_error: AllocError) -> Refusal {
        Refusal::OutOfMemory
    }
}

/// Turns an allocation that was refused, with the value that was to be stored, into `OutOfMemory`.
impl<T: Drop> From<AllocFailed<T>> for Refusal {
    ghost from_gives = { λ _ refusal. refusal ≡ OutOfMemory };

    fn from(_error: AllocFailed<T>) -> Refusal {
        Refusal::OutOfMemory
    }
}
