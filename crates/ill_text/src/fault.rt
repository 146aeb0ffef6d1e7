//! The faults that stop a command.

ghost use Rattle.std.specs.Prelude.{◌≡◌};
ghost use Rattle.ill_text.specs.Fault.{IsFileFault, IsOpenFault, desk_fault};
ghost use Rattle.ill_text.specs.declared.fault.ToolFault.TheVariants.{OutOfMemory};
ghost use Rattle.ill_text.specs.Visits.{graver};

use ill_der::DerFault;
use ill_saved::{DeskFault, StoreFault};
use std::alloc::{AllocError, AllocFailed};
use std::io;
use std::io::ErrorKind;
use thiserror::Error;

/// The fault of a file that cannot be read or written.
pub const STORE_FAILED: ToolFault = ToolFault::Desk(DeskFault::Store(StoreFault::Failed));

/// The reason why a key cannot be used: a fault of its file, or of the text from which it is made.
#[derive(Clone, Copy, Debug, PartialEq, Eq, Hash, Error)]
pub enum BadKey {
    /// There is no file of the key.
    #[error("missing")]
    Missing,
    /// The file of the key cannot be read.
    #[error("unreadable")]
    Unreadable,
    /// Others than its owner may read or write the file.
    #[error("open")]
    Open,
    /// The file has not exactly 32 bytes, or is no regular file.
    #[error("size")]
    Size,
    /// The text of the key has anything but 68 hexadecimal digits, besides white space.
    #[error("digits")]
    Digits,
    /// The last group of the text does not fit the others.
    #[error("check")]
    Check,
}

/// The fault that stopped a command. Lines that were written before it remain.
#[derive(Clone, Copy, Debug, PartialEq, Eq, Hash, Error)]
pub enum ToolFault {
    /// An argument is invalid: a role, a number, a day, a group or a transaction. Or the words of an action name no
    /// action of this side. One of them may be empty or have a space, or a due day `+N` may be beyond the calendar. Or
    /// a responder's action has no day.
    #[error("arguments")]
    Arguments,
    /// The input has bytes that are no APDU. This is never `DerFault::OutOfMemory`.
    #[error("{0}")]
    Der(DerFault),
    /// The input has more than 100,000 APDUs.
    #[error("too-many")]
    TooMany,
    /// The line of the script with this number, from 1 on, is bad.
    #[error("script at line {0}")]
    Script(u32),
    /// The side refused, its store or another file failed, or its record is invalid. This is never
    /// `DeskFault::OutOfMemory`.
    #[error("{0}")]
    Desk(DeskFault),
    /// A key cannot be used.
    #[error("key {0}")]
    Key(BadKey),
    /// The input is no letter of the other library that is sealed with the key.
    #[error("not-sealed")]
    NotSealed,
    /// Message files of a folder wait for the next run. All else was done.
    #[error("left")]
    Deferred,
    /// The reader failed.
    #[error("read")]
    Read,
    /// The writer failed.
    #[error("write")]
    Write,
    /// Memory ran out.
    #[error("memory")]
    OutOfMemory,
}

/// Returns the fault of a command whose desk had a fault (`desk_fault`).
impl From<DeskFault> for ToolFault {
    ghost from_gives = { λ fault tool. tool ≡ desk_fault fault };

    fn from(fault: DeskFault) -> ToolFault {
        match fault {
            DeskFault::OutOfMemory => ToolFault::OutOfMemory,
            other => ToolFault::Desk(other),
        }
    }
}

/// Returns `OutOfMemory`.
impl From<AllocError> for ToolFault {
    ghost from_gives = { λ _ tool. tool ≡ OutOfMemory };

    fn from(_error: AllocError) -> ToolFault {
        ToolFault::OutOfMemory
    }
}

/// Returns `OutOfMemory`, and drops what the failure holds.
impl<T: Drop> From<AllocFailed<T>> for ToolFault {
    ghost from_gives = { λ _ tool. tool ≡ OutOfMemory };

    fn from(_error: AllocFailed<T>) -> ToolFault {
        ToolFault::OutOfMemory
    }
}

/// Returns `OutOfMemory` if memory ran out, and `STORE_FAILED` for any other error.
impl From<io::Error> for ToolFault {
    ghost from_gives = { λ _ tool. IsFileFault tool × IsOpenFault tool };

    fn from(error: io::Error) -> ToolFault {
        if error.kind() == ErrorKind::OutOfMemory {
            return ToolFault::OutOfMemory;
        }
        STORE_FAILED
    }
}

/// Returns the fault of a command for that of a desk (`desk_fault`), and drops the store that the desk gave back with
/// it.
impl<S: Drop> From<(DeskFault, S)> for ToolFault {
    ghost from_gives = { λ refused tool. tool ≡ desk_fault refused.0 };

    fn from((fault, _): (DeskFault, S)) -> ToolFault {
        fault.into()
    }
}

/// Returns the fault as it is, and drops the store that came back with it.
impl<S: Drop> From<(ToolFault, S)> for ToolFault {
    ghost from_gives = { λ refused tool. tool ≡ refused.0 };

    fn from((fault, _): (ToolFault, S)) -> ToolFault {
        fault
    }
}

/// Returns the graver of two answers. A fault is the gravest, then message files that wait (`Deferred`), then something
/// that wants a person (`Ok(false)`). Of two other faults it is the first.
pub fn graver(
    one: Result<bool, ToolFault>,
    other: Result<bool, ToolFault>,
) -> Result<bool, ToolFault>
    ensures { result ≡ graver one other }
{
    match (one, other) {
        (Ok(one), Ok(other)) => Ok(one && other),
        (Ok(_), Err(fault)) => Err(fault),
        (Err(fault), Ok(_)) => Err(fault),
        (Err(one), Err(other)) => Err(if one == ToolFault::Deferred {
            other
        } else {
            one
        }),
    }
}
