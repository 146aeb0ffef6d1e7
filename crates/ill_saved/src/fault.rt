//! The fault of a desk.

ghost use Rattle.std.specs.Prelude.{◌≡◌};
ghost use Rattle.ill_saved.specs.Faults.{of_bytes, of_core, of_store, of_record};
ghost use Rattle.ill_saved.specs.declared.fault.DeskFault.TheVariants as desks;

use ill_core::Refusal;
use ill_der::DerFault;
use ill_record::RecordFault;
use ill_store::StoreFault;
use std::alloc::{AllocError, AllocFailed};
use thiserror::Error;

/// The fault of a call of a desk.
#[derive(Clone, Copy, Debug, PartialEq, Eq, Hash, Error)]
pub enum DeskFault {
    /// The side refused the action or the message. This is never `Refusal::OutOfMemory`.
    #[error("{0}")]
    Core(Refusal),
    /// The bytes do not begin with an APDU. This is never `DerFault::OutOfMemory`.
    #[error("{0}")]
    Bytes(DerFault),
    /// More bytes follow the APDU.
    #[error("trailing")]
    Trailing,
    /// The side has issued no message with this number.
    #[error("no-such-message")]
    NoSuchMessage,
    /// The message was issued but not saved, so it may not be sent.
    #[error("not-saved")]
    NotSaved,
    /// A new desk was asked for, but the store has a record.
    #[error("exists")]
    Exists,
    /// The desk was to start from the store's record, but the store has none.
    #[error("no-record")]
    NoRecord,
    /// The store did not load or save. This is never `StoreFault::OutOfMemory`.
    #[error("store {0}")]
    Store(StoreFault),
    /// The bytes in the store are no record. This is never `RecordFault::OutOfMemory`.
    #[error("record {0}")]
    Saved(RecordFault),
    /// Memory ran out.
    #[error("memory")]
    OutOfMemory,
    /// The desk holds no side of this transaction, and the call may not begin one.
    #[error("no-such-transaction")]
    NoSuchTransaction,
    /// The desk holds 1,000 sides, and there is no room for one more.
    #[error("desk-full")]
    DeskFull,
}

/// Returns the fault of a desk for a fault of the bytes of an APDU. A lack of memory becomes the desk's own.
impl From<DerFault> for DeskFault {
    ghost from_gives = { λ bytes fault. fault ≡ of_bytes bytes };

    fn from(fault: DerFault) -> DeskFault {
        match fault {
            DerFault::OutOfMemory => DeskFault::OutOfMemory,
            other => DeskFault::Bytes(other),
        }
    }
}

/// Returns the fault of a desk for a refusal of a side. A lack of memory becomes the desk's own.
impl From<Refusal> for DeskFault {
    ghost from_gives = { λ refusal fault. fault ≡ of_core refusal };

    fn from(refusal: Refusal) -> DeskFault {
        match refusal {
            Refusal::OutOfMemory => DeskFault::OutOfMemory,
            other => DeskFault::Core(other),
        }
    }
}

/// Returns the fault of a desk for a fault of its store. A lack of memory becomes the desk's own.
impl From<StoreFault> for DeskFault {
    ghost from_gives = { λ stored fault. fault ≡ of_store stored };

    fn from(fault: StoreFault) -> DeskFault {
        match fault {
            StoreFault::OutOfMemory => DeskFault::OutOfMemory,
            other => DeskFault::Store(other),
        }
    }
}

/// Returns the fault of a desk for a fault of its record. A lack of memory becomes the desk's own.
impl From<RecordFault> for DeskFault {
    ghost from_gives = { λ saved fault. fault ≡ of_record saved };

    fn from(fault: RecordFault) -> DeskFault {
        match fault {
            RecordFault::OutOfMemory => DeskFault::OutOfMemory,
            other => DeskFault::Saved(other),
        }
    }
}

impl From<AllocError> for DeskFault {
    ghost from_gives = { λ _ fault. fault ≡ desks.OutOfMemory };

    fn from(_error: AllocError) -> DeskFault {
        DeskFault::OutOfMemory
    }
}

impl<T: Drop> From<AllocFailed<T>> for DeskFault {
    ghost from_gives = { λ _ fault. fault ≡ desks.OutOfMemory };

    fn from(_error: AllocFailed<T>) -> DeskFault {
        DeskFault::OutOfMemory
    }
}

/// Returns the fault of a desk that did not begin, without the store that comes with it.
impl<S: Drop> From<(DeskFault, S)> for DeskFault {
    ghost from_gives = { λ refused fault. fault ≡ refused.0 };

    fn from((fault, _): (DeskFault, S)) -> DeskFault {
        fault
    }
}
