//! The paths of a run: folders in which message files may be, and files that a run writes beside them.

ghost use Rattle.std.specs.Prelude.{◌≡◌, IfErr};
ghost use Rattle.ill_text.specs.Fault.{IsOpenFault};

use crate::fault_lines::NO_FOLDER;
use crate::reserved::{is_one, is_reserved};
use ill_files::machine::Machine;
use ill_files::paths::folder_of;
use ill_night::night::Night;
use ill_text::fault::{STORE_FAILED, ToolFault};
use std::io::Write;
use std::rt::Files;
use std::{fs, io};

/// The text after the path of a folder in which no message file may be.
const RESERVED: &str = " is no folder for mails: it belongs to a desk or a shelf";

/// The text after the path of a folder that is given twice.
const BOTH: &str = " is IN as well as OUT";

/// The text after the folder of a copy or of a sign of life, if it is IN or OUT.
const AMONG_MESSAGE_FILES: &str = " lies in IN or OUT, where it would be a mail";

/// The text after the path of a copy, if it leads to the desk or the shelf itself.
const ORIGINAL: &str = " is the original, and no copy of it";

/// The places of the desks of a run.
#[derive(Clone, Copy)]
pub struct Places<'a> {
    /// The file of the desk, or of the shelf's own desk.
    pub file: &'a str,
    /// The file of the desk, or the folder of the shelf: the run copies it.
    pub original: &'a str,
    /// The folder that has the copies, if the run makes any.
    pub copies: Option<&'a str>,
}

/// A path that is no place for what a run puts there, and the text about it.
#[derive(Clone, Copy)]
struct Misplaced<'a> {
    path: &'a str,
    text: &'static str,
}

/// Fails if OUT, the folder at `out`, is no folder or is reserved (`is_reserved`). A line to the errors says which.
/// `file` is the file of the desk.
pub fn look_at_out<T: Files, W: Write, E: Write>(
    machine: &mut Machine<'_, T, W, E>,
    file: &str,
    out: &str,
) -> Result<(), ToolFault>
    ensures faults { IfErr result IsOpenFault }
    ensures silent { machine.new.writer ≡ machine.old.writer }
{
    machine.report_fault_at(find_folder(machine.rt, out), out, NO_FOLDER)?;
    if is_reserved(machine.rt, machine.alloc, file, out)? {
        return machine.report_fault_at(Err(STORE_FAILED), out, RESERVED);
    }
    Ok(())
}

/// Fails if there is no folder at `path`.
fn find_folder<T: Files>(rt: &T, path: &str) -> Result<(), ToolFault>
    ensures { IfErr result IsOpenFault }
{
    match fs::metadata(rt, path) {
        Ok(found) if found.is_dir() => Ok(()),
        _ => Err(STORE_FAILED),
    }
}

/// Looks at the folders of `night`, and at the paths of its copy and its sign of life, before anything is done. Fails
/// if one of them is misplaced, with a line to the errors.
pub fn look_at_places<T: Files, W: Write, E: Write>(
    machine: &mut Machine<'_, T, W, E>,
    places: &Places<'_>,
    night: &Night<'_>,
) -> Result<(), ToolFault>
    ensures faults { IfErr result IsOpenFault }
    ensures silent { machine.new.writer ≡ machine.old.writer }
{
    look_at_out(machine, places.file, night.outgoing)?;
    if let Some(copies) = places.copies {
        machine.report_fault_at(find_folder(machine.rt, copies), copies, NO_FOLDER)?;
    }
    match find_misplaced(machine.rt, places, night)? {
        None => Ok(()),
        Some(found) => machine.report_fault_at(Err(STORE_FAILED), found.path, found.text),
    }
}

/// Returns the first path of `night` that is misplaced, if there is one.
fn find_misplaced<'a, T: Files>(
    rt: &T,
    places: &Places<'a>,
    night: &Night<'a>,
) -> io::Result<Option<Misplaced<'a>>> {
    if is_one(rt, night.incoming, night.outgoing)? {
        return Ok(Some(Misplaced {
            path: night.outgoing,
            text: BOTH,
        }));
    }
    if let Some(path) = night.copy
        && is_one(rt, path, places.original)?
    {
        return Ok(Some(Misplaced {
            path,
            text: ORIGINAL,
        }));
    }
    for folder in [places.copies, night.heartbeat.map(folder_of)] {
        if let Some(path) = folder
            && (is_one(rt, path, night.incoming)? || is_one(rt, path, night.outgoing)?)
        {
            return Ok(Some(Misplaced {
                path,
                text: AMONG_MESSAGE_FILES,
            }));
        }
    }
    Ok(None)
}
