//! Writes the output of all commands.

ghost use Rattle.ill_text.specs.Output.{WritesPrefix};

use crate::fault::ToolFault;
use ill_der::write_bytes;
use std::io::Write;

/// Writes all of `bytes`. If the writer fails, a prefix of them is written, and the fault is `Write`.
pub fn write_whole<W: Write>(writer: &mut W, bytes: &[u8]) -> Result<(), ToolFault>
    ensures { WritesPrefix (W.contents writer.old) (W.contents writer.new) bytes.now result }
{
    match write_bytes(writer, bytes) {
        Ok(()) => Ok(()),
        Err(_) => Err(ToolFault::Write),
    }
}

/// Writes all of `bytes` and flushes the writer, so that none of them wait in it. If either fails, the fault is
/// `Write`.
pub fn write_and_flush<W: Write>(writer: &mut W, bytes: &[u8]) -> Result<(), ToolFault>
    ensures { WritesPrefix (W.contents writer.old) (W.contents writer.new) bytes.now result }
{
    write_whole(writer, bytes)?;
    let Ok(()) = writer.flush() else {
        return Err(ToolFault::Write);
    };
    Ok(())
}
