//! The lines about a fault of a shelf, or of the desk of a group on it.

use crate::file::explain_fault_at;
use crate::shown::Shown;
use clap::ArgMatches;
use ill_files::home::{Home, home_at};
use ill_files::shelf::Shelf;
use ill_line::command_line::Argument;
use ill_saved::{DeskFault, LockFiles};
use ill_values::OutOfMemory;
use std::alloc::Global;

/// Appends the cause of a fault of a command on a shelf.
pub fn explain_shelf_fault<T: LockFiles>(
    rt: &T,
    alloc: Global,
    text: &mut String,
    matches: &ArgMatches<'_>,
    fault: DeskFault,
) -> Result<(), OutOfMemory> {
    let folder = matches.get_str(Argument::File.id()).unwrap_or_default();
    let shown = Shown::of(folder);
    let Ok(shelf) = Shelf::open(rt, alloc, folder) else {
        return writeln!(text, "  {shown} is no shelf: `ill shelf new` begins one.");
    };
    if fault == DeskFault::Exists {
        return writeln!(text, "  {shown} is a shelf already.");
    }
    match matches.get_str(Argument::Group.id()) {
        Some(group) => {
            let desk = shelf.desk_of(alloc, group.as_bytes())?;
            explain_of_group(rt, alloc, text, desk.as_str(), fault)
        }
        None => writeln!(
            text,
            "  A line before names the folder, or the desk of {shown}."
        ),
    }
}

/// Appends the cause of `fault` at `desk`, the file of the desk of a group.
fn explain_of_group<T: LockFiles>(
    rt: &T,
    alloc: Global,
    text: &mut String,
    desk: &str,
    fault: DeskFault,
) -> Result<(), OutOfMemory> {
    let shown = Shown::of(desk);
    match home_at(rt, alloc, desk) {
        Ok(Home::Retired) => writeln!(text, "  The group of {shown} is retired."),
        Ok(Home::Lost) => writeln!(
            text,
            "  {shown} is lost, for what stood beside it is there: bring it back from its copy."
        ),
        Ok(Home::Nothing) => writeln!(
            text,
            "  {shown} is not there: `request` begins the group, with --new-group before it."
        ),
        _ => explain_fault_at(rt, text, desk, false, fault),
    }
}
