//! A simulation performs a whole script, line by line.

ghost use Rattle.std.specs.Prelude.{List};
ghost use Rattle.ill_world.specs.declared.event.Event.{Event};
ghost use Rattle.ill_world.specs.World.{first_world};
ghost use Rattle.ill_world.specs.Safety.{IsSafeRun};
ghost use Rattle.ill_world.specs.Agreement.{IsAgreeingRun};
ghost use Rattle.ill_world.specs.Simulation.{Simulates, two_sides};

use crate::laws;
use crate::script::read_line;
use crate::world::World;
use ill_script::SimFault;
use ill_script::performer::{LineEffect, Performer};
use ill_script::script_line::ScriptLine;
use ill_script::simulation::Simulation;
use ill_script::trace_line::TraceLine;
use ill_values::{OutOfMemory, TxnId};
use std::alloc::Global;
use std::io::{Read, Write};

/// Performs a script from two idle sides on, and writes a line for each event, with both sides after it. Returns the
/// count of events. It reads at most 4,096 bytes at a time, and only if it has no whole line.
///
/// At a bad line, and if the reader fails, the lines of all events before are written. If memory runs out, the lines of
/// a prefix of the events are written. If the writer fails, a prefix of the trace is written.
///
/// Whatever the script says, each world that a line shows is safe, in memory and in the stores. A requester in
/// CANCELLED or NOT-SUPPLIED faces a responder in this state. A requester in SHIPPED or later faces a responder that
/// has shipped, and has granted its due date. Both sides agree, as `run` says.
pub fn simulate<R: Read, W: Write>(
    alloc: Global,
    txn: &TxnId,
    reader: &mut R,
    writer: &mut W,
) -> Result<u32, SimFault>
    ensures simulates { Simulates txn.now (R.remaining reader.old) (R.remaining reader.new)
        (W.contents writer.old) (W.contents writer.new) result }
    ensures safe { (events : List Event) → IsSafeRun (first_world txn.now) events }
    ensures agrees { (events : List Event) → IsAgreeingRun (first_world txn.now) events }
{
    laws::every_run_is_safe();
    laws::every_run_agrees();
    let simulation = Simulation::new(alloc, World::new(alloc, txn)?, ());
    simulation.run(alloc, reader, writer)
}

impl Performer for World {
    type Carried = ();

    ghost Event = { Event };

    ghost replay = { two_sides };

    /// Performs a line. If it has an event, its line of the trace is appended to `shown`.
    fn perform_line(
        &mut self,
        alloc: Global,
        _carried: &mut (),
        line: &[u8],
        shown: &mut TraceLine,
    ) -> Result<LineEffect, OutOfMemory> {
        match read_line(alloc, line)? {
            ScriptLine::Skipped => Ok(LineEffect::Nothing),
            ScriptLine::Event(event) => {
                let outcome = self.step(alloc, &event)?;
                self.push_line(&mut shown.text, shown.number, outcome)?;
                Ok(LineEffect::Event)
            }
            ScriptLine::Bad => Ok(LineEffect::BadLine),
        }
    }
}
