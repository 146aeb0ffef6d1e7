//! Defines the faults for which a simulation stops.

ghost use Rattle.std.specs.Prelude.{◌≡◌};
ghost use Rattle.ill_script.specs.declared.fault.SimFault.TheVariants.{OutOfMemory};

use std::alloc::{AllocError, AllocFailed};
use thiserror::Error;

/// The fault for which a simulation stops. Text that was written before stays written.
#[derive(Clone, Copy, Debug, PartialEq, Eq, Hash, Error)]
pub enum SimFault {
    /// The line of the script with this number, from 1 on, is bad.
    #[error("script at line {0}")]
    Script(u32),
    /// The reader failed.
    #[error("read")]
    Read,
    /// The writer failed.
    #[error("write")]
    Write,
    /// Memory ran out.
    #[error("memory")]
    OutOfMemory,
}

// A failed allocation is the fault `OutOfMemory`.
impl From<AllocError> for SimFault {
    ghost from_gives = { λ _ fault. fault ≡ OutOfMemory };

    fn from(_error: AllocError) -> SimFault {
        SimFault::OutOfMemory
    }
}

// A failed allocation is the fault `OutOfMemory`, and the value that found no room is dropped.
impl<T: Drop> From<AllocFailed<T>> for SimFault {
    ghost from_gives = { λ _ fault. fault ≡ OutOfMemory };

    fn from(_error: AllocFailed<T>) -> SimFault {
        SimFault::OutOfMemory
    }
}
