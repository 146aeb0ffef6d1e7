//! The commands `simulate` and `simulate-desks`.

ghost use Rattle.std.specs.Prelude.{◌≡◌};
ghost use Rattle.ill_values.specs.TxnId.{txn_id_of};
ghost use Rattle.ill_tool.specs.Simulate.{RunsSimulate, RunsSimulateDesks, sim_fault};

use ill_line::request::id;
use ill_text::fault::ToolFault;
use ill_world::{SimFault, simulate, simulate_desks};
use std::alloc::Global;
use std::io::{Read, Write};

/// Performs a script of both sides of the transaction with these qualifiers, and writes a line for each event. It
/// returns the number of events.
///
/// If the qualifiers are invalid, nothing is read or written. If a line of the script is bad or the reader fails, the
/// lines of all events before are written. If memory runs out, the lines of some of the first events are written. If
/// the writer fails, a prefix of this text is written.
pub fn run_simulate<R: Read, W: Write>(
    alloc: Global,
    group: &str,
    transaction: &str,
    reader: &mut R,
    writer: &mut W,
) -> Result<u32, ToolFault>
    ensures { RunsSimulate (txn_id_of group.now transaction.now)
        (R.remaining reader.old) (R.remaining reader.new)
        (W.contents writer.old) (W.contents writer.new) result }
{
    let txn = id(alloc, group, transaction)?;
    match simulate(alloc, &txn, reader, writer) {
        Ok(count) => Ok(count),
        Err(fault) => Err(fault_of(fault)),
    }
}

/// Performs a script of two desks, which names its transactions itself, and writes a line for each event. It returns
/// the number of events. If there is a fault, it has written the lines that `run_simulate` would have.
pub fn run_simulate_desks<R: Read, W: Write>(
    alloc: Global,
    reader: &mut R,
    writer: &mut W,
) -> Result<u32, ToolFault>
    ensures { RunsSimulateDesks (R.remaining reader.old) (R.remaining reader.new)
        (W.contents writer.old) (W.contents writer.new) result }
{
    match simulate_desks(alloc, reader, writer) {
        Ok(count) => Ok(count),
        Err(fault) => Err(fault_of(fault)),
    }
}

/// Returns the fault of the command for a fault of its simulation.
fn fault_of(fault: SimFault) -> ToolFault
    ensures { result ≡ sim_fault fault }
{
    match fault {
        SimFault::Script(line) => ToolFault::Script(line),
        SimFault::Read => ToolFault::Read,
        SimFault::Write => ToolFault::Write,
        SimFault::OutOfMemory => ToolFault::OutOfMemory,
    }
}
