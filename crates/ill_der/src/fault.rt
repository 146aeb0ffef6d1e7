//! The faults of bytes that do not begin with an APDU, and those of reading and writing an APDU.

ghost use Rattle.std.specs.Prelude.{◌≡◌};
ghost use Rattle.ill_der.specs.Faults.{place_of};
ghost use Rattle.ill_der.specs.Stream.{read_fault};
ghost use Rattle.ill_der.specs.declared.fault.DerFault.TheVariants as ders;
ghost use Rattle.ill_der.specs.declared.fault.ReadFault.TheVariants as reads;
ghost use Rattle.ill_der.specs.declared.fault.WriteFault.TheVariants as writes;

use std::alloc::{AllocError, AllocFailed};
use thiserror::Error;

/// The first fault of bytes that do not begin with an APDU. For bytes that begin with one it says that memory ran out.
/// Offsets are in bytes from the first byte of the APDU.
#[derive(Clone, Copy, Debug, PartialEq, Eq, Hash, Error)]
pub enum DerFault {
    /// The bytes end before the APDU does. The field is the number of the bytes.
    #[error("short at {0}")]
    Short(u16),
    /// The identifier at this offset is not the expected one, or a field is missing at this offset. Or bytes follow the
    /// last field, and the first of them has this offset.
    #[error("tag at {0}")]
    Tag(u16),
    /// The length at this offset is not in its shortest form. Or it is too large for an APDU or for the element around
    /// it. Or the end of the element around it cuts it off.
    #[error("length at {0}")]
    Length(u16),
    /// The contents at this offset encode no value of their field.
    #[error("field at {0}")]
    Field(u16),
    /// The bytes begin with an APDU, but memory ran out.
    #[error("memory")]
    OutOfMemory,
}

impl DerFault {
    /// Returns the offset of the fault, if it has one. The offset of `Short` is the end of the bytes.
    pub fn at(self) -> Option<u16>
        ensures { result ≡ place_of self }
    {
        match self {
            DerFault::Short(at) | DerFault::Tag(at) | DerFault::Length(at) | DerFault::Field(at) =>
                Some(at),
            DerFault::OutOfMemory => None,
        }
    }
}

/// A fault of reading an APDU.
#[derive(Clone, Copy, Debug, PartialEq, Eq, Hash, Error)]
pub enum ReadFault {
    /// The bytes that were read do not begin with an APDU. This is never `DerFault::OutOfMemory`.
    #[error("{0}")]
    Bytes(DerFault),
    /// The reader failed. The bytes read before are lost.
    #[error("read")]
    Read,
    /// One whole APDU was read, but memory ran out.
    #[error("memory")]
    OutOfMemory,
}

/// A fault of writing an APDU.
#[derive(Clone, Copy, Debug, PartialEq, Eq, Hash, Error)]
pub enum WriteFault {
    /// The writer failed, or took no byte. A prefix of the APDU may have been written.
    #[error("write")]
    Write,
    /// Memory ran out before anything was written.
    #[error("memory")]
    OutOfMemory,
}

impl From<AllocError> for DerFault {
    ghost from_gives = { λ _ fault. fault ≡ ders.OutOfMemory };

    fn from(_error: AllocError) -> DerFault {
        DerFault::OutOfMemory
    }
}

impl<T: Drop> From<AllocFailed<T>> for DerFault {
    ghost from_gives = { λ _ fault. fault ≡ ders.OutOfMemory };

    fn from(_error: AllocFailed<T>) -> DerFault {
        DerFault::OutOfMemory
    }
}

impl From<DerFault> for ReadFault {
    ghost from_gives = { λ bytes fault. fault ≡ read_fault bytes };

    fn from(fault: DerFault) -> ReadFault {
        match fault {
            DerFault::OutOfMemory => ReadFault::OutOfMemory,
            other => ReadFault::Bytes(other),
        }
    }
}

impl From<AllocError> for ReadFault {
    ghost from_gives = { λ _ fault. fault ≡ reads.OutOfMemory };

    fn from(_error: AllocError) -> ReadFault {
        ReadFault::OutOfMemory
    }
}

impl<T: Drop> From<AllocFailed<T>> for ReadFault {
    ghost from_gives = { λ _ fault. fault ≡ reads.OutOfMemory };

    fn from(_error: AllocFailed<T>) -> ReadFault {
        ReadFault::OutOfMemory
    }
}

impl From<AllocError> for WriteFault {
    ghost from_gives = { λ _ fault. fault ≡ writes.OutOfMemory };

    fn from(_error: AllocError) -> WriteFault {
        WriteFault::OutOfMemory
    }
}

impl<T: Drop> From<AllocFailed<T>> for WriteFault {
    ghost from_gives = { λ _ fault. fault ≡ writes.OutOfMemory };

    fn from(_error: AllocFailed<T>) -> WriteFault {
        WriteFault::OutOfMemory
    }
}
