//! The file that keeps the messages that came to a desk. It lies beside the desk's file, and has these APDUs one after
//! another.

ghost use Rattle.std.specs.Prelude.{IfErr};
ghost use Rattle.ill_text.specs.Fault.{IsOpenFault};

pub use crate::kept::KeptFile as CameFile;
use crate::kept::{Kept, kept_bytes, open_kept};
use ill_text::fault::ToolFault;
use std::alloc::Global;
use std::rt::Files;

/// Opens the file beside the file of `desk`, as `open_kept` does.
pub fn open_came<T: Files>(
    rt: &T,
    alloc: Global,
    desk: &str,
) -> Result<CameFile<T::File>, ToolFault>
    ensures { IfErr result IsOpenFault }
{
    open_kept(rt, alloc, desk, Kept::Came)
}

/// Returns the bytes of the file beside the file of `desk`. There are none without a file.
pub fn came_bytes<T: Files>(rt: &T, alloc: Global, desk: &str) -> Result<Vec<u8>, ToolFault>
    ensures { IfErr result IsOpenFault }
{
    kept_bytes(rt, alloc, desk, Kept::Came)
}
