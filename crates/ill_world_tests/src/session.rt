//! Performs the lines of the input, one after another.

use crate::desks::{print_desk_exchange, print_desk_run, print_desk_steps};
use crate::performing::{Script, Simulation, print_script, print_trace};
use crate::places::{print_readers, print_writers};
use crate::scripts::push_line;
use crate::streams::End;
use crate::worlds::{print_ending, print_exchange, print_run, print_steps};
use ill_test_kit::{INDENT, Lines, Page};
use std::alloc::Global;

/// The answer to a line that is no case.
const NOT_UNDERSTOOD: &str = "NOT UNDERSTOOD";

/// The way in which a script is performed.
#[derive(Clone, Copy)]
enum Call {
    /// The reader ends after the script.
    Script,
    /// The reader fails after the script.
    Broken,
    /// The reader fails at each place in turn.
    Readers,
    /// The writer fails at each place in turn.
    Writers,
}

/// The kind of block that the next line is in.
#[derive(Drop)]
enum Block {
    /// The next line is in no block.
    Outside,
    /// Every line is a script of its own.
    Each(Simulation),
    /// The lines are one script.
    Script(Call, Simulation, Vec<u8>),
}

/// The block that the lines so far have begun.
#[derive(Drop)]
pub struct Session {
    /// The allocator of all values.
    alloc: Global,
    /// The block of the next line.
    block: Block,
}

/// A line that begins with `INDENT` is an old answer, and is dropped. A line that is no case is told on the page.
impl Lines for Session {
    fn perform(&mut self, page: &mut Page, line: &str) {
        if !line.starts_with(INDENT) && self.take(page, line).is_none() {
            page.line(NOT_UNDERSTOOD);
        }
    }

    fn end(&mut self, _page: &mut Page) -> Option<()> {
        Some(())
    }
}

impl Session {
    /// Returns a session before the first line.
    pub fn new(alloc: Global) -> Session {
        Session {
            alloc,
            block: Block::Outside,
        }
    }

    /// Prints a line and its answers. Returns `None` if the line is no case, or if memory runs out.
    fn take(&mut self, page: &mut Page, line: &str) -> Option<()> {
        page.line(line);
        let mut answers = Page::new(self.alloc);
        let understood = self.answer(&mut answers, line);
        page.page_after(INDENT.as_bytes(), &answers);
        understood
    }

    /// Performs a line by the block that it is in, and prints its answers. A line of a script only joins the script.
    fn answer(&mut self, answers: &mut Page, line: &str) -> Option<()> {
        if line == "end" {
            return self.end(answers);
        }
        match &mut self.block {
            Block::Outside => self.begin(answers, line),
            Block::Each(simulation) => print_alone(self.alloc, answers, *simulation, line),
            Block::Script(_, _, script) => push_line(script, line),
        }
    }

    /// Begins a block, or performs a line outside of blocks.
    fn begin(&mut self, answers: &mut Page, line: &str) -> Option<()> {
        let (word, name) = line.split_once(' ').unwrap_or((line, ""));
        match word {
            "" | "#" => return Some(()),
            "steps" => return print_steps(self.alloc, answers, name),
            "run" => return print_run(self.alloc, answers, name),
            "exchange" => return print_exchange(self.alloc, answers, name),
            "desk-steps" => return print_desk_steps(self.alloc, answers, name),
            "desk-run" => return print_desk_run(self.alloc, answers, name),
            "desk-exchange" => return print_desk_exchange(self.alloc, answers, name),
            "ending" => return print_ending(self.alloc, answers, name),
            _ => self.block = block_of(self.alloc, word)?,
        }
        Some(())
    }

    /// Ends a block, and performs its script.
    fn end(&mut self, answers: &mut Page) -> Option<()> {
        let block = std::mem::replace(&mut self.block, Block::Outside);
        match block {
            Block::Outside => None,
            Block::Each(_) => Some(()),
            Block::Script(call, simulation, script) => {
                let bytes = script.as_slice();
                print_called(self.alloc, answers, call, Script { simulation, bytes })
            }
        }
    }
}

/// Returns the block that begins with `word`, or `None` if no block begins with it.
fn block_of(alloc: Global, word: &str) -> Option<Block> {
    let (simulation, word) = match word.strip_prefix("desk-") {
        Some(word) => (Simulation::Desks, word),
        None => (Simulation::Sides, word),
    };
    match word {
        "each" => Some(Block::Each(simulation)),
        _ => Some(Block::Script(call_of(word)?, simulation, Vec::new(alloc))),
    }
}

/// Returns the call that `word` names, or `None` if it names none.
fn call_of(word: &str) -> Option<Call> {
    match word {
        "script" => Some(Call::Script),
        "broken" => Some(Call::Broken),
        "readers" => Some(Call::Readers),
        "writers" => Some(Call::Writers),
        _ => None,
    }
}

/// Performs a script in the way of `call`, and prints the result.
fn print_called(alloc: Global, page: &mut Page, call: Call, script: Script<'_>) -> Option<()> {
    match call {
        Call::Script => print_script(alloc, page, script, End::Stops),
        Call::Broken => print_script(alloc, page, script, End::Fails),
        Call::Readers => print_readers(alloc, page, script),
        Call::Writers => print_writers(alloc, page, script),
    }
}

/// Performs a line as a script of its own, and prints its trace and answer.
fn print_alone(alloc: Global, page: &mut Page, simulation: Simulation, line: &str) -> Option<()> {
    let mut bytes = Vec::new(alloc);
    push_line(&mut bytes, line)?;
    let bytes = bytes.as_slice();
    print_trace(alloc, page, Script { simulation, bytes }, End::Stops)?;
    page.text("\n");
    Some(())
}
