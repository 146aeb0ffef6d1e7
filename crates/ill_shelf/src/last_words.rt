//! The sending of the last words of retired groups.

ghost use Rattle.std.specs.Prelude.{◌≡◌, IfErr};
ghost use Rattle.ill_text.specs.Fault.{IsFileFault};

use ill_exchange::outlet::Outlet;
use ill_exchange::sending::{SentAll, send_words};
use ill_files::machine::Machine;
use ill_files::shelf::Shelf;
use ill_folders::claiming_folder::asked_bytes;
use ill_text::fault::ToolFault;
use ill_text::input::apdus_in;
use ill_values::Apdu;
use std::alloc::Global;
use std::io::{self, Write};
use std::rt::Files;

/// Puts the last words that were asked for at `shelf` into the folder of `outlet`.
pub(crate) fn send_last_words<T: Files, W: Write, E: Write>(
    machine: &mut Machine<'_, T, W, E>,
    shelf: &Shelf<'_>,
    outlet: Outlet<'_>,
) -> Result<SentAll, ToolFault>
    ensures faults { IfErr result IsFileFault }
    ensures silent { machine.new.writer ≡ machine.old.writer }
{
    let words = words_asked(machine.rt, machine.alloc, shelf)?;
    send_words(machine, &words, outlet)
}

/// Returns the last words that were asked for at `shelf`.
fn words_asked<T: Files>(rt: &T, alloc: Global, shelf: &Shelf<'_>) -> io::Result<Vec<Apdu>> {
    let unsorted = shelf.unsorted(alloc)?;
    let bytes = asked_bytes(rt, alloc, unsorted.as_str())?;
    Ok(apdus_in(alloc, &bytes)?)
}
