//! Performs scripts, and prints their traces.

use crate::streams::{End, Streams};
use ill_test_kit::Page;
use ill_test_kit::marks::{self, TRIES};
use ill_values::TxnId;
use ill_world::{SimFault, simulate, simulate_desks};
use std::alloc::Global;

/// A trace of at most this many lines is printed whole.
const SHOWN: usize = 100;

/// Of a longer trace this many lines are printed at the beginning, and as many at the end.
const AT_AN_END: usize = 6;

/// In a script of at most this many bytes each allocation is refused once. A longer script gets ample memory.
const REFUSED: usize = 1_000;

/// This line tells that a script gave a wrong trace or answer when an allocation was refused.
const ANOTHER: &[u8] = b"ANOTHER TRACE WITHOUT MEMORY\n";

/// The simulation that performs a script.
#[derive(Clone, Copy)]
pub enum Simulation {
    /// The simulation of two sides, in the transaction of all tests.
    Sides,
    /// The simulation of two desks.
    Desks,
}

/// A script, and the simulation that performs it.
#[derive(Clone, Copy)]
pub struct Script<'a> {
    /// The simulation that performs the script.
    pub simulation: Simulation,
    /// The text of the script.
    pub bytes: &'a [u8],
}

/// The result of a script.
#[derive(PartialEq, Drop)]
pub struct ScriptResult {
    /// The trace that was written.
    pub trace: Vec<u8>,
    /// The answer of the simulation.
    pub answer: Result<u32, SimFault>,
}

impl ScriptResult {
    /// Returns true if this result is right after a refused allocation, given the result with ample memory. Either the
    /// results are equal, or the trace is a prefix of whole lines, and the answer is out of memory.
    fn is_right_after_refusal(&self, ample: &ScriptResult) -> bool {
        match self.answer {
            Err(SimFault::OutOfMemory) => {
                is_whole_lines(&self.trace) && ample.trace.starts_with(&self.trace)
            }
            _ => self == ample,
        }
    }
}

/// Returns the transaction of all tests of two sides.
pub fn txn(alloc: Global) -> Option<TxnId> {
    TxnId::new(alloc, b"G1", b"T1").ok()
}

/// Performs a script with ample memory, and returns the result. A short script is then performed with each allocation
/// refused once. For each wrong result of these the line `ANOTHER` is added to the trace that is returned.
pub fn perform(alloc: Global, script: Script<'_>, streams: Streams) -> Option<ScriptResult> {
    let (mut ample, _) = perform_once(alloc, script, streams, None)?;
    if script.bytes.len() > REFUSED {
        return Some(ample);
    }
    let most = ample.trace.len();
    for _ in 0..TRIES {
        let (told, is_refused) = perform_once(alloc, script, streams, Some(most))?;
        if !told.is_right_after_refusal(&ample) {
            ample.trace.extend_from_slice(ANOTHER).ok()?;
        }
        if !is_refused {
            return Some(ample);
        }
    }
    None
}

/// Performs a script from its beginning. If `most` is a count, the call is between marks, and its writer has memory for
/// this many bytes. Returns the result, and true if an allocation was refused.
fn perform_once(
    alloc: Global,
    script: Script<'_>,
    streams: Streams,
    most: Option<usize>,
) -> Option<(ScriptResult, bool)> {
    let txn = txn(alloc)?;
    let mut reader = streams.reader(alloc, script.bytes)?;
    let mut writer = streams.writer(alloc, most.unwrap_or(0))?;
    if most.is_some() {
        marks::begin(alloc);
    }
    let answer = match script.simulation {
        Simulation::Sides => simulate(alloc, &txn, &mut reader, &mut writer),
        Simulation::Desks => simulate_desks(alloc, &mut reader, &mut writer),
    };
    let says_memory = answer == Err(SimFault::OutOfMemory);
    let is_refused = most.is_some() && marks::is_refused_or_without(alloc, says_memory);
    let trace = writer.taken;
    Some((ScriptResult { trace, answer }, is_refused))
}

/// Performs a script whose reader ends as `end` says, and prints its trace and answer. Reading it byte by byte must not
/// change them.
pub fn print_script(alloc: Global, page: &mut Page, script: Script<'_>, end: End) -> Option<()> {
    let told = print_trace(alloc, page, script, end)?;
    page.text("\n");
    let slow = perform(alloc, script, Streams::Slow(end))?;
    if slow.trace.as_slice() != told.trace.as_slice() || slow.answer != told.answer {
        page.line("ONE BYTE AT A TIME:");
        page.push(&slow.trace);
        print_answer(page, &slow.answer);
        page.text("\n");
    }
    Some(())
}

/// Performs a script whose reader ends as `end` says. Prints its trace and answer, without the end of the line. Returns
/// the result.
pub fn print_trace(
    alloc: Global,
    page: &mut Page,
    script: Script<'_>,
    end: End,
) -> Option<ScriptResult> {
    let told = perform(alloc, script, Streams::Reader(end))?;
    print_lines(page, &told.trace);
    print_answer(page, &told.answer);
    Some(told)
}

/// Prints the answer of a simulation.
pub fn print_answer(page: &mut Page, answer: &Result<u32, SimFault>) {
    match answer {
        Ok(count) => {
            page.text("ok ");
            page.show(count);
        }
        Err(fault) => page.show(fault),
    }
}

/// Returns true if `text` is empty or ends with the end of a line.
pub fn is_whole_lines(text: &[u8]) -> bool {
    text.is_empty() || text.ends_with(b"\n")
}

/// Returns the count of lines in `text`.
pub fn line_count(text: &[u8]) -> usize {
    text.iter().filter(|byte| **byte == b'\n').count()
}

/// Prints the lines of a trace. Of a long trace only the first and the last lines are printed.
fn print_lines(page: &mut Page, trace: &[u8]) {
    let count = line_count(trace);
    if count <= SHOWN {
        return page.push(trace);
    }
    let after = count - AT_AN_END;
    for (index, line) in trace.split_inclusive(|byte| *byte == b'\n').enumerate() {
        if index < AT_AN_END || index >= after {
            page.push(line);
        } else if index == AT_AN_END {
            page.text(".. ");
            page.show(&(after - AT_AN_END));
            page.line(" lines ..");
        }
    }
}
