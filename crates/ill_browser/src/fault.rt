//! The faults with which a request is refused.

ghost use Rattle.std.specs.Prelude.{◌≡◌};
ghost use Rattle.ill_browser.specs.declared.fault.VisitFault.TheVariants.{OutOfMemory};

use std::alloc::{AllocError, AllocFailed};
use thiserror::Error;

/// The reason for which a request is refused. Of several reasons it is the first in this order, but `OutOfMemory` may
/// come before others.
#[derive(Clone, Copy, Debug, Drop, PartialEq, Eq, Error)]
pub enum VisitFault {
    /// The path is not that of the program.
    #[error("no such page")]
    NoPage,
    /// The method is neither GET nor POST.
    #[error("no such method")]
    Method,
    /// The request does not show that a page of this program sent the form.
    #[error("foreign")]
    Foreign,
    /// Nobody is named who sent the form, and the operator wants a name.
    #[error("nobody")]
    NoUser,
    /// The body is no form.
    #[error("no form")]
    NoForm,
    /// The number of bytes in the body is not said in decimal digits.
    #[error("no length")]
    NoLength,
    /// The body has more than `BODY_LIMIT` bytes.
    #[error("too long")]
    TooLong,
    /// The body broke off, or could not be read.
    #[error("cut")]
    Cut,
    /// The fields name no loan, no act, no note, no day or no page. Or two fields have a name that may be there once.
    /// Or a field has an unknown name, or a form has a query.
    #[error("fields")]
    Fields,
    /// Memory ran out.
    #[error("memory")]
    OutOfMemory,
}

// A failed allocation is the fault `OutOfMemory`.
impl From<AllocError> for VisitFault {
    ghost from_gives = { λ _ refusal. refusal ≡ OutOfMemory };

    fn from(_error: AllocError) -> VisitFault {
        VisitFault::OutOfMemory
    }
}

// A failed allocation that gives back its value is the fault `OutOfMemory` too.
impl<T: Drop> From<AllocFailed<T>> for VisitFault {
    ghost from_gives = { λ _ refusal. refusal ≡ OutOfMemory };

    fn from(_error: AllocFailed<T>) -> VisitFault {
        VisitFault::OutOfMemory
    }
}
