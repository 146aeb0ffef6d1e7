//! The faults of a saved record, and of putting a side.

ghost use Rattle.std.specs.Prelude.{◌≡◌};
ghost use Rattle.ill_record.specs.Layout.{record_fault};
ghost use Rattle.ill_record.specs.Faults.{place_of};
ghost use Rattle.ill_record.specs.declared.fault.RecordFault.TheVariants.{OutOfMemory};
ghost use Rattle.ill_record.specs.declared.fault.SidesFault.TheVariants as sides;

use crate::side::Side;
use std::alloc::{AllocError, AllocFailed};
use thiserror::Error;

/// Why decoding a saved record failed: the first fault of the bytes, or a lack of memory. Offsets are in bytes from
/// the first byte of the record.
#[derive(Clone, Copy, Debug, PartialEq, Eq, Hash, Error)]
pub enum RecordFault {
    /// The bytes end within a field, or before a field that must follow. For `decode_record2`, fewer than 39 bytes that
    /// do not begin with `ILL1` are short.
    #[error("short")]
    Short,
    /// The bytes at this offset encode no value of their field, or they follow the end of the record.
    #[error("bad at {0}")]
    Bad(u32),
    /// Each field has a value, but no side has all these values together. Or no desk holds all these sides together.
    #[error("inconsistent")]
    Inconsistent,
    /// Memory ran out. Later checks were not made.
    #[error("memory")]
    OutOfMemory,
    /// The last 32 octets are not the digest of the octets before them: the record was damaged. Only a record of
    /// many sides has a digest.
    #[error("digest")]
    Digest,
}

impl RecordFault {
    /// Returns the offset of the fault, if it has one.
    pub fn at(self) -> Option<u32>
        ensures { result ≡ place_of self }
    {
        match self {
            RecordFault::Bad(at) => Some(at),
            _ => None,
        }
    }
}

/// The first fault of bytes without the layout of a record.
#[derive(Clone, Copy)]
pub enum LayoutFault {
    /// The bytes end within a field, or before a field that must follow.
    Short,
    /// The bytes at this offset encode no value of their field, or they follow the end of the record.
    Bad(u32),
}

impl From<LayoutFault> for RecordFault {
    ghost from_gives = { λ layout fault. fault ≡ record_fault layout };

    fn from(fault: LayoutFault) -> RecordFault {
        match fault {
            LayoutFault::Short => RecordFault::Short,
            LayoutFault::Bad(at) => RecordFault::Bad(at),
        }
    }
}

impl From<AllocError> for RecordFault {
    ghost from_gives = { λ _ fault. fault ≡ OutOfMemory };

    fn from(_error: AllocError) -> RecordFault {
        RecordFault::OutOfMemory
    }
}

impl<T: Drop> From<AllocFailed<T>> for RecordFault {
    ghost from_gives = { λ _ fault. fault ≡ OutOfMemory };

    fn from(_error: AllocFailed<T>) -> RecordFault {
        RecordFault::OutOfMemory
    }
}

/// The reason to refuse a side that was to be put among others. The reasons are checked in this order.
#[derive(Clone, Copy, Debug, PartialEq, Eq, Hash, Error)]
pub enum SidesFault {
    /// The side is of the other role.
    #[error("other-role")]
    OtherRole,
    /// The side is idle: it has issued and taken nothing.
    #[error("idle")]
    Idle,
    /// A side of this transaction is already held.
    #[error("twice")]
    Twice,
    /// 1,000 sides are already held.
    #[error("full")]
    Full,
    /// Memory ran out.
    #[error("memory")]
    OutOfMemory,
}

impl From<AllocError> for SidesFault {
    ghost from_gives = { λ _ fault. fault ≡ sides.OutOfMemory };

    fn from(_error: AllocError) -> SidesFault {
        SidesFault::OutOfMemory
    }
}

impl<T: Drop> From<AllocFailed<T>> for SidesFault {
    ghost from_gives = { λ _ fault. fault ≡ sides.OutOfMemory };

    fn from(_error: AllocFailed<T>) -> SidesFault {
        SidesFault::OutOfMemory
    }
}

/// Returns the fault of a `put`, without the side that comes with it.
impl From<(SidesFault, Side)> for SidesFault {
    ghost from_gives = { λ refused fault. fault ≡ refused.0 };

    fn from((fault, _): (SidesFault, Side)) -> SidesFault {
        fault
    }
}
