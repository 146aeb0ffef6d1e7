//! A simulation performs a whole script, line by line, whatever its lines say.

ghost use Rattle.std.specs.Prelude.{◌≡◌, ◌≤◌, ◌+◌, [], IfOk};
ghost use Rattle.std.specs.Io.KnownBytes.{prepend_known};
ghost use Rattle.ill_script.specs.Replay.{Replays, before_first};
ghost use Rattle.ill_script.specs.Simulating.{PerformsLine, StepsLine, FindsEnd, IsUsedUp};

use crate::ahead::Ahead;
use crate::fault::SimFault;
use crate::lines::{Found, next_line};
use crate::performer::{LineEffect, Performer};
use crate::trace_line::TraceLine;
use ill_der::write_bytes;
use std::alloc::Global;
use std::io::{Read, Write};

/// A script has at most `MAX_LINES` lines.
const MAX_LINES: u32 = 100_000;

/// A simulation of a script, before its next line.
#[derive(Drop)]
pub struct Simulation<T: Performer> {
    /// The performer of the lines.
    performer: T,
    /// The value that is carried to the next line.
    carried: T::Carried,
    /// The count of the events that have happened.
    count: u32,
    /// The line of the script that was read last.
    line: Vec<u8>,
    /// The bytes that were read of the script after that line.
    ahead: Ahead,
    /// The line of the trace for the line that was performed last.
    shown: TraceLine,
}

impl<T: Performer> Simulation<T> {
    /// Returns a simulation before line 1, with this performer and this value for the first line.
    pub fn new(alloc: Global, performer: T, carried: T::Carried) -> Simulation<T>
        ensures performer { result.performer ≡ performer }
        ensures carried { result.carried ≡ carried }
        ensures none { result.count ≡ 0 }
        ensures unread { result.ahead ≡ [] }
    {
        Simulation {
            performer,
            carried,
            count: 0,
            line: Vec::new(alloc),
            ahead: Ahead::new(),
            shown: TraceLine {
                number: 0,
                text: Vec::new(alloc),
            },
        }
    }

    /// Performs the whole script in `reader`, and writes its trace to `writer`. The simulation must be before line 1.
    /// Returns the number of events, or the fault that ended the script.
    pub fn run<R: Read, W: Write>(
        mut self,
        alloc: Global,
        reader: &mut R,
        writer: &mut W,
    ) -> Result<u32, SimFault>
        requires begins { self.count ≡ 0 }
        requires unread { self.ahead ≡ [] }
        ensures { Replays T.replay (before_first self.carried self.performer)
            (record { left = R.remaining reader.old; written = W.contents writer.old }) result
            (record { left = R.remaining reader.new; written = W.contents writer.new }) }
    {
        for before in 0..MAX_LINES {
            match self.step(alloc, reader, writer, before + 1) {
                Ok(true) => {}
                Ok(false) => return Ok(self.count),
                Err(fault) => return Err(fault),
            }
        }
        self.end(reader)
    }

    /// Performs the next line, which has `number`. Returns true if another line may follow, and false if the script has
    /// ended.
    fn step<R: Read, W: Write>(
        &mut self,
        alloc: Global,
        reader: &mut R,
        writer: &mut W,
        number: u32,
    ) -> Result<bool, SimFault>
        requires few { self.old.count + 1 ≤ number }
        requires number { number ≤ 100000 }
        ensures steps { StepsLine T.replay
            (record { number = number; carried = self.old.carried; world = self.old.performer; count = self.old.count })
            (record { left = prepend_known self.old.ahead (R.remaining reader.old); written = W.contents writer.old })
            result
            (record { number = number + 1; carried = self.new.carried; world = self.new.performer; count = self.new.count })
            (record { left = prepend_known self.new.ahead (R.remaining reader.new); written = W.contents writer.new }) }
        ensures used { IsUsedUp self.new.ahead result }
        ensures few { self.new.count ≤ self.old.count + 1 }
    {
        match next_line(reader, &mut self.ahead, &mut self.line)? {
            Found::Line => {
                self.perform_line(alloc, writer, number)?;
                Ok(true)
            }
            Found::Rest if self.line.is_empty() => Ok(false),
            Found::Rest => {
                self.perform_line(alloc, writer, number)?;
                Ok(false)
            }
            Found::TooLong => Err(SimFault::Script(number)),
        }
    }

    /// Performs the line that was read, which has `number`, and writes the text of its event. Fails with `Script` if
    /// the line is bad, with `Write` if the writer fails, or with `OutOfMemory`.
    fn perform_line<W: Write>(
        &mut self,
        alloc: Global,
        writer: &mut W,
        number: u32,
    ) -> Result<(), SimFault>
        requires few { self.old.count ≤ 100000 }
        ensures performs { PerformsLine T.replay (T.replay.says self.old.carried self.old.line.items).0 number
            (record { world = self.old.performer; count = self.old.count; written = W.contents writer.old })
            result
            (record { world = self.new.performer; count = self.new.count; written = W.contents writer.new }) }
        ensures carried { IfOk result (λ done.
            self.new.carried ≡ (T.replay.says self.old.carried self.old.line.items).1) }
        ensures ahead { self.new.ahead ≡ self.old.ahead }
        ensures few { self.new.count ≤ self.old.count + 1 }
    {
        let next = self.count + 1;
        self.shown.number = next;
        self.shown.text.clear();
        match self
            .performer
            .perform_line(alloc, &mut self.carried, &self.line, &mut self.shown)?
        {
            LineEffect::Nothing => Ok(()),
            LineEffect::Event => {
                self.count = next;
                match write_bytes(writer, &self.shown.text) {
                    Ok(()) => Ok(()),
                    Err(_) => Err(SimFault::Write),
                }
            }
            LineEffect::BadLine => Err(SimFault::Script(number)),
        }
    }

    /// Looks for the end of a script after the last line that it may have. Returns the number of events at the end.
    /// Fails with `Script` if another byte follows, or with `Read` if the reader fails.
    fn end<R: Read>(&mut self, reader: &mut R) -> Result<u32, SimFault>
        ensures end { FindsEnd self.old.count
            (prepend_known self.old.ahead (R.remaining reader.old))
            (prepend_known self.new.ahead (R.remaining reader.new)) result }
        ensures used { IsUsedUp self.new.ahead result }
    {
        match self.ahead.fill(reader) {
            Ok(true) => Err(SimFault::Script(MAX_LINES + 1)),
            Ok(false) => Ok(self.count),
            Err(fault) => Err(fault),
        }
    }
}
