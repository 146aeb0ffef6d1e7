//! A simulation performs a whole script of two desks, line by line.

ghost use Rattle.std.specs.Prelude.{◌≡◌, ◌++◌, List, OnOk};
ghost use Rattle.ill_world.specs.declared.event.DeskEvent.{DeskEvent};
ghost use Rattle.ill_world.specs.Desks.{first_desks, desks_happen};
ghost use Rattle.ill_world.specs.DeskSafety.{IsRunOfEach, IsSafeDeskRun, IsAgreeingDeskRun};
ghost use Rattle.ill_world.specs.DeskScript.{EventIn, in_txn};
ghost use Rattle.ill_world.specs.DeskSimulation.{SimulatesDesks, two_desks};
ghost use Rattle.ill_world.specs.DeskTrace.{desk_line};

use crate::desk_laws;
use crate::desk_script::{DeskLine, read_desk_line};
use crate::desk_world::DeskWorld;
use crate::event::Event;
use ill_script::SimFault;
use ill_script::performer::{LineEffect, Performer};
use ill_script::script_line::ScriptLine;
use ill_script::simulation::Simulation;
use ill_script::trace_line::TraceLine;
use ill_values::{OutOfMemory, TxnId};
use std::alloc::Global;
use std::io::{Read, Write};

/// Performs a script of two desks, from desks on that hold nothing. For each event it writes a line, with both sides of
/// the transaction in use after it. Returns the count of events.
///
/// A line `use GROUP TRANSACTION` is no event: the lines after it are in this transaction. Before the first `use` every
/// event is a bad line. Otherwise it reads, writes and stops as `simulate` does.
///
/// Whatever the script says, in each transaction the desks are the world of two sides after its events. Each world that
/// a line shows is safe, and both sides agree, as `run_desks` says.
pub fn simulate_desks<R: Read, W: Write>(
    alloc: Global,
    reader: &mut R,
    writer: &mut W,
) -> Result<u32, SimFault>
    ensures simulates { SimulatesDesks (R.remaining reader.old) (R.remaining reader.new)
        (W.contents writer.old) (W.contents writer.new) result }
    ensures each { (events : List DeskEvent) → IsRunOfEach events }
    ensures safe { (events : List DeskEvent) → IsSafeDeskRun first_desks events }
    ensures agrees { (events : List DeskEvent) → IsAgreeingDeskRun first_desks events }
{
    desk_laws::desk_runs_are_runs();
    desk_laws::every_desk_run_is_safe();
    desk_laws::every_desk_run_agrees();
    let simulation = Simulation::new(alloc, DeskWorld::new(alloc)?, None);
    simulation.run(alloc, reader, writer)
}

impl Performer for DeskWorld {
    type Carried = Option<TxnId>;

    ghost Event = { EventIn };

    ghost replay = { two_desks };

    /// Performs a line. An event happens in the transaction `in_use`, and a line `use` puts another in use. If none is
    /// in use, an event is a bad line.
    fn perform_line(
        &mut self,
        alloc: Global,
        in_use: &mut Option<TxnId>,
        line: &[u8],
        shown: &mut TraceLine,
    ) -> Result<LineEffect, OutOfMemory> {
        match read_desk_line(alloc, line)? {
            DeskLine::Use(txn) => {
                *in_use = Some(txn);
                Ok(LineEffect::Nothing)
            }
            DeskLine::Plain(ScriptLine::Skipped) => Ok(LineEffect::Nothing),
            DeskLine::Plain(ScriptLine::Event(event)) => match in_use {
                Some(txn) => {
                    self.perform_in(alloc, txn, event, shown)?;
                    Ok(LineEffect::Event)
                }
                None => Ok(LineEffect::BadLine),
            },
            DeskLine::Plain(ScriptLine::Bad) => Ok(LineEffect::BadLine),
        }
    }
}

impl DeskWorld {
    /// Performs an event, and appends its line of the trace to `shown`. An event of one transaction is one of `txn`.
    fn perform_in(
        &mut self,
        alloc: Global,
        txn: &TxnId,
        event: Event,
        shown: &mut TraceLine,
    ) -> Result<(), OutOfMemory>
        ensures { OnOk result (
            let after = desks_happen self.old (in_txn txn.now event) in
            (self.new ≡ after.1)
            × (shown.new.text.items ≡ shown.old.text.items ++ desk_line shown.old.number txn.now after.0 after.1)) }
    {
        let event = event.in_txn(alloc, txn)?;
        let outcome = self.step(alloc, &event)?;
        self.push_line(&mut shown.text, shown.number, txn, outcome)
    }
}
