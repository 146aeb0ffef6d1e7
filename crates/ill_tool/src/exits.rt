//! The exit statuses of commands.

ghost use Rattle.std.specs.Prelude.{◌≡◌, ◌≤◌};
ghost use Rattle.ill_tool.specs.ExitStatus.{desk_status, exit_status, status_of};

use ill_saved::DeskFault;
use ill_text::fault::ToolFault;

/// The exit status if the command was refused, or a message was refused or in conflict.
const REFUSED: u8 = 1;

/// The exit status if the arguments, the input or the record are invalid.
pub const BAD: u8 = 2;

/// The exit status if a file, a stream or memory failed, or if message files are left.
const FAILED: u8 = 3;

/// Returns the exit status of a command that ended with `outcome`. `Ok(true)` means that all went well, and `Ok(false)`
/// that something was refused or in conflict.
pub fn exit_status(outcome: Result<bool, ToolFault>) -> u8
    ensures status { result ≡ exit_status outcome }
    ensures most { result ≤ 3 }
{
    match outcome {
        Ok(true) => 0,
        Ok(false) => REFUSED,
        Err(fault) => status_after(fault),
    }
}

/// Returns the exit status for `fault`.
fn status_after(fault: ToolFault) -> u8
    ensures status { result ≡ status_of fault }
    ensures most { result ≤ 3 }
{
    match fault {
        ToolFault::Arguments
        | ToolFault::Der(_)
        | ToolFault::TooMany
        | ToolFault::Script(_)
        | ToolFault::Key(_)
        | ToolFault::NotSealed => BAD,
        ToolFault::Desk(fault) => status_after_desk(fault),
        ToolFault::Deferred | ToolFault::Read | ToolFault::Write | ToolFault::OutOfMemory => FAILED,
    }
}

/// Returns the exit status for a fault of a desk.
fn status_after_desk(fault: DeskFault) -> u8
    ensures status { result ≡ desk_status fault }
    ensures most { result ≤ 3 }
{
    match fault {
        DeskFault::Core(_)
        | DeskFault::NoSuchMessage
        | DeskFault::NotSaved
        | DeskFault::Exists
        | DeskFault::NoRecord
        | DeskFault::NoSuchTransaction
        | DeskFault::DeskFull => REFUSED,
        DeskFault::Bytes(_) | DeskFault::Trailing | DeskFault::Saved(_) => BAD,
        DeskFault::Store(_) | DeskFault::OutOfMemory => FAILED,
    }
}
