//! The guard of a shelf's desks: only the commands of the shelf change one, send from it, or keep notes beside it. So a
//! loan of the shelf has one home, the desk of its group.

ghost use Rattle.std.specs.Prelude.{IfErr};
ghost use Rattle.ill_line.specs.Asked.{asked, desk_at_stake};
ghost use Rattle.ill_line.specs.Guard.{IsGuarded, IsGuardedAt};
ghost use Rattle.ill_text.specs.Fault.{IsOpenFault};

use crate::request::Request;
use ill_files::paths::folder_of;
use ill_files::shelf::{is_named_on_shelf, is_shelf};
use ill_text::fault::ToolFault;
use std::alloc::Global;
use std::path::Path;
use std::rt::Files;

/// Refuses a request that would change a desk of a shelf, send from it, or keep a note beside it. Refuses also a key
/// with the name of such a desk. Fails if the folder of the file cannot be looked at, or memory runs out. Opens
/// nothing.
pub fn refuse_desk_of_shelf<T: Files>(
    rt: &T,
    alloc: Global,
    request: &Request<'_>,
) -> Result<(), ToolFault>
    ensures { IfErr result (IsGuarded (asked request.now)) }
{
    match request.desk_at_stake() {
        Some(file) => refuse_on_shelf(rt, alloc, file),
        None => Ok(()),
    }
}

/// Refuses `file` with `Arguments` if its name is that of a desk of a shelf, and its folder is a shelf.
fn refuse_on_shelf<T: Files>(rt: &T, alloc: Global, file: &str) -> Result<(), ToolFault>
    ensures { IfErr result (IsGuardedAt file.now) }
{
    let Some(name) = Path::new(file).file_name() else {
        return Ok(());
    };
    if is_named_on_shelf(alloc, name)? && has_shelf(rt, alloc, folder_of(file))? {
        return Err(ToolFault::Arguments);
    }
    Ok(())
}

/// Returns true if there is a shelf in `folder`. Fails if the folder cannot be looked at, or memory runs out.
fn has_shelf<T: Files>(rt: &T, alloc: Global, folder: &str) -> Result<bool, ToolFault>
    ensures { IfErr result IsOpenFault }
{
    Ok(is_shelf(rt, alloc, folder)?)
}
