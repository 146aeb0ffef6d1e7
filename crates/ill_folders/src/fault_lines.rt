//! Lines about a file or a folder that stops a night.

ghost use Rattle.std.specs.Prelude.{◌≡◌, Ok};

use crate::message_folder::MessageFolder;
use ill_files::machine::Machine;
use ill_text::fault::ToolFault;
use std::io::Write;
use std::rt::Files;

/// The text after the path of a desk whose folder of message files cannot be opened.
pub const NO_BOX: &str = ".mail is no folder that its owner alone may enter";

/// The text after the path of a desk in whose folder of message files a run can make no folder.
pub const NO_RUN: &str = ".mail cannot be written";

/// The text after the path of a folder from which no message files can be read.
pub const NOT_READ: &str = " is no folder of mails that can be read";

/// The text after the path of a message file that cannot be put into OUT.
const NOT_SENT: &str = " is not written, so nothing more is sent";

/// The text after a path at which there should be a folder.
pub(crate) const NO_FOLDER: &str = " is no folder";

/// Returns `sent`, the answer of a sending into `out`. If a message file could not be put there, a line with the path
/// of the message file goes to the errors.
pub fn report_fault_of_message_file<A: Drop, T: Files, W: Write, E: Write>(
    machine: &mut Machine<'_, T, W, E>,
    sent: Result<A, ToolFault>,
    out: &MessageFolder<'_, '_, T>,
) -> Result<A, ToolFault>
    ensures answer { result ≡ sent }
    ensures silent { machine.new.writer ≡ machine.old.writer }
{
    match out.failed() {
        Ok(Some(path)) => machine.report_fault_at(sent, path.as_str(), NOT_SENT),
        _ => sent,
    }
}
