//! The home of a group on a shelf: what stands at the path of its desk.

ghost use Rattle.std.specs.Prelude.{IfErr};
ghost use Rattle.ill_text.specs.Fault.{IsOpenFault};

use crate::paths::{CAME, MAIL_FOLDER, NOTES, is_there};
use crate::shelf::is_retired;
use ill_saved::DeskFault;
use ill_text::fault::ToolFault;
use std::alloc::Global;
use std::io;
use std::rt::Files;

/// The home of a group on a shelf.
#[derive(Clone, Copy)]
pub enum Home {
    /// The desk of the group.
    Desk,
    /// The mark of a retired group.
    Retired,
    /// No desk, but files that lie beside one: the file of the desk was lost.
    Lost,
    /// Nothing.
    Nothing,
}

/// Returns the home of the group whose desk has the path `desk`. A retired group has the mark, also if a desk is there.
pub fn home_at<T: Files>(rt: &T, alloc: Global, desk: &str) -> io::Result<Home> {
    if is_retired(rt, alloc, desk)? {
        return Ok(Home::Retired);
    }
    if is_there(rt, desk)? {
        return Ok(Home::Desk);
    }
    if is_lost(rt, alloc, desk)? {
        Ok(Home::Lost)
    } else {
        Ok(Home::Nothing)
    }
}

/// Returns true if a file or folder that may outlive the desk lies beside its path `desk`. Its group was then begun
/// before.
fn is_lost<T: Files>(rt: &T, alloc: Global, desk: &str) -> io::Result<bool> {
    for ending in [CAME, NOTES, MAIL_FOLDER] {
        let path = format!(in alloc; "{desk}{ending}")?;
        if is_there(rt, path.as_str())? {
            return Ok(true);
        }
    }
    Ok(false)
}

/// Fails with `NoRecord` if the desk at the path `desk` is lost (`Home::Lost`).
pub fn refuse_lost<T: Files>(rt: &T, alloc: Global, desk: &str) -> Result<(), ToolFault>
    ensures { IfErr result IsOpenFault }
{
    match home_at(rt, alloc, desk)? {
        Home::Lost => Err(ToolFault::Desk(DeskFault::NoRecord)),
        _ => Ok(()),
    }
}
