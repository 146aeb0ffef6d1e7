//! Performs the lines of the input, one after another.

use crate::block::Block;
use crate::names::{Names, Phrase};
use crate::words::{Word, words_of};
use ill_test_kit::{INDENT, Lines, Page, answer_lines};
use std::alloc::Global;
use std::{env, io};

/// The answer to a line that is no call.
const NOT_UNDERSTOOD: &str = "  NOT UNDERSTOOD";

/// This line says that no case has the wanted name.
const NO_SUCH_CASE: &str = "NO SUCH CASE";

/// A bench performs the calls of lines. A function returns `None` if its words are no call.
pub trait Performs {
    /// Begins a case: removes all that the cases before it have made.
    fn begin(&mut self) -> Option<()>;

    /// Performs the call that `word` and the words of `phrase` after it encode, and prints its answer.
    fn perform(&mut self, page: &mut Page, word: &str, phrase: Phrase<'_>) -> Option<()>;

    /// Ends the last case.
    fn end(&mut self) -> Option<()>;
}

/// Performs the lines of the standard input on `bench`, and prints their answers. If the program has an argument, only
/// the case of this name is performed.
pub fn answer_cases<B: Performs + Drop>(rt: &HostRuntime, bench: B) -> io::Result<()> {
    let alloc = rt.alloc();
    let arguments: Vec<String> = env::args(rt)?.collect(alloc)?;
    let wanted = arguments.get(1).map(|name| name.as_str());
    let mut session = Session::new(alloc, bench, wanted);
    let printed = answer_lines(rt, &mut session);
    drop(session);
    printed
}

/// A session: the bench, the names, and the block that the lines so far have set up.
#[derive(Drop)]
struct Session<'a, B: Performs> {
    /// The allocator of all values.
    alloc: Global,
    /// The bench with the names.
    bench: NamedBench<B>,
    /// The name of the case that is performed alone, if there is one.
    wanted: Option<&'a str>,
    /// True if the present case is performed.
    is_performing: bool,
    /// True if a case was performed.
    has_found_case: bool,
    /// The block that has begun, if there is one.
    block: Option<Block>,
}

/// The bench that performs lines, with the names that lines gave.
#[derive(Drop)]
struct NamedBench<B: Performs> {
    /// The allocator of all values.
    alloc: Global,
    /// The names that `let` lines gave.
    names: Names,
    /// The bench that performs calls.
    bench: B,
}

impl<'a, B: Performs> Session<'a, B> {
    /// Returns a session before the first line. If `wanted` names a case, only that case is performed.
    fn new(alloc: Global, bench: B, wanted: Option<&'a str>) -> Session<'a, B> {
        Session {
            alloc,
            bench: NamedBench {
                alloc,
                names: Names::new(alloc),
                bench,
            },
            wanted,
            is_performing: true,
            has_found_case: false,
            block: None,
        }
    }

    /// Returns true if the case `name` is performed.
    fn is_wanted(&self, name: &str) -> bool {
        match self.wanted {
            Some(wanted) => wanted == name,
            None => true,
        }
    }

    /// Performs a line, or adds it to the block. Returns `None` if the line is not understood or memory runs out.
    fn take(&mut self, page: &mut Page, line: &str) -> Option<()> {
        if let Some(words) = line.strip_prefix("each ") {
            page.line(line);
            return self.each(words);
        }
        if line == "end" {
            return self.end_block(page);
        }
        match &mut self.block {
            Some(block) => block.push(line),
            None => {
                self.bench.perform(page, line, line);
                Some(())
            }
        }
    }

    /// Begins a block, or adds values to the block that has begun.
    fn each(&mut self, words: &str) -> Option<()> {
        if self.block.is_none() {
            drop(self.block.replace(Block::new(self.alloc)));
        }
        self.block.as_mut()?.add_values(words)
    }

    /// Ends a block, and performs it.
    fn end_block(&mut self, page: &mut Page) -> Option<()> {
        let block = self.block.take()?;
        self.perform_block(page, &block)
    }

    /// Writes a block with the answers of its first case. After it writes each case with other answers.
    fn perform_block(&mut self, page: &mut Page, block: &Block) -> Option<()> {
        let first = self.bench.perform_block(block, 0)?;
        page.page(&first);
        page.line("end");
        for case in 1..block.cases() {
            self.perform_again(page, block, case, &first)?;
        }
        Some(())
    }

    /// Performs a block in a further case, and writes it if its answers differ from `first`.
    fn perform_again(
        &mut self,
        page: &mut Page,
        block: &Block,
        case: usize,
        first: &Page,
    ) -> Option<()> {
        let again = self.bench.perform_block(block, case)?;
        if again.bytes() != first.bytes() {
            page.text("  BUT WITH");
            page.line(block.values(case)?.as_str());
            page.page(&again);
        }
        Some(())
    }
}

impl<B: Performs> Lines for Session<'_, B> {
    fn perform(&mut self, page: &mut Page, line: &str) {
        if let Some(name) = line.strip_prefix("case ") {
            self.is_performing = self.is_wanted(name);
            self.has_found_case |= self.is_performing;
        }
        if !self.is_performing {
            return page.line(line);
        }
        if !line.starts_with(INDENT) && self.take(page, line).is_none() {
            page.line(NOT_UNDERSTOOD);
        }
    }

    /// Ends the last case. If no case was performed, prints that there is no such case.
    fn end(&mut self, page: &mut Page) -> Option<()> {
        self.bench.bench.end()?;
        if !self.has_found_case {
            page.line(NO_SUCH_CASE);
        }
        Some(())
    }
}

impl<B: Performs> NamedBench<B> {
    /// Performs the lines of a block in the case `case`, and prints them with their names in braces.
    fn perform_block(&mut self, block: &Block, case: usize) -> Option<Page> {
        let mut page = Page::new(self.alloc);
        for written in &block.lines {
            let line = block.line(written.as_str(), case)?;
            self.perform(&mut page, written.as_str(), line.as_str());
        }
        Some(page)
    }

    /// Prints the line `written`, performs `line`, and prints its answer.
    fn perform(&mut self, page: &mut Page, written: &str, line: &str) {
        page.line(written);
        if self.answer(page, line).is_none() {
            page.line(NOT_UNDERSTOOD);
        }
    }

    /// Performs a line that is no remark.
    fn answer(&mut self, page: &mut Page, line: &str) -> Option<()> {
        if line.is_empty() || line.starts_with('#') {
            return Some(());
        }
        let words = words_of(self.alloc, line)?;
        self.call(page, &words)
    }

    /// Performs the call of a line. `case` begins a case without the names of the last one, and `fresh` one with them.
    /// `let` gives a name, and the bench performs any other call.
    fn call(&mut self, page: &mut Page, words: &[Word]) -> Option<()> {
        let (first, others) = words.split_first()?;
        match first.text.as_str() {
            "case" => {
                self.names.begin_case();
                self.bench.begin()
            }
            "fresh" => self.bench.begin(),
            "let" => self.names.add(others),
            word => {
                let phrase = Phrase {
                    words: others,
                    names: &self.names,
                };
                self.bench.perform(page, word, phrase)
            }
        }
    }
}
