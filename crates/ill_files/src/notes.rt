//! The file that keeps the notes of staff on the loans of a desk. It lies beside the desk's file, and has a line a
//! note.

ghost use Rattle.std.specs.Prelude.{IfErr};
ghost use Rattle.ill_text.specs.Fault.{IsOpenFault};

use crate::kept::{Kept, KeptFile, kept_bytes, open_kept};
use ill_text::fault::ToolFault;
use std::alloc::Global;
use std::rt::Files;

/// Opens the file beside the file of `desk`, as `open_kept` does.
pub fn open_notes<T: Files>(
    rt: &T,
    alloc: Global,
    desk: &str,
) -> Result<KeptFile<T::File>, ToolFault>
    ensures { IfErr result IsOpenFault }
{
    open_kept(rt, alloc, desk, Kept::Notes)
}

/// Returns the bytes of the file beside the file of `desk`. There are none without a file.
pub fn notes_bytes<T: Files>(rt: &T, alloc: Global, desk: &str) -> Result<Vec<u8>, ToolFault>
    ensures { IfErr result IsOpenFault }
{
    kept_bytes(rt, alloc, desk, Kept::Notes)
}
