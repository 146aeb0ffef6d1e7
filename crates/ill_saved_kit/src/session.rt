//! Performs the lines of a transcript, one after another.

use crate::line::Line;
use crate::names::Names;
use crate::runs::Run;
use ill_test_kit::{INDENT, Lines, Page};
use std::alloc::Global;

/// The answer to a line that is no case.
const NOT_UNDERSTOOD: &str = "NOT UNDERSTOOD";

/// The text that begins the answer to a case of a family.
const BELOW_LINE: &str = "\n  ";

/// A test program performs the cases of its transcript by these functions.
pub trait Cases {
    /// A call that a case makes.
    type Call: Copy;

    /// Returns the call that the first word of a line names.
    fn call_of(word: &str) -> Option<Self::Call>;

    /// Returns the count of cases of a line. A family has more than one.
    fn count(names: &Names, call: Self::Call, words: &str) -> usize;

    /// Returns the octet for which the answer of the case `number` of a family has `#`, if there is one.
    fn octet(call: Self::Call, number: usize) -> Option<u8>;

    /// Performs a case, and writes its answer. Returns `None` if the words are no call, or what it calls is absent.
    fn answer(&mut self, line: &mut Line, call: Self::Call, words: &CaseWords<'_>) -> Option<()>;
}

/// The words of a case, and the names that earlier lines gave.
#[derive(Clone, Copy)]
pub struct CaseWords<'a> {
    /// The names that earlier lines gave.
    pub names: &'a Names,
    /// The words of the line after its first.
    pub text: &'a str,
    /// The number of the case in its family, from 0 on.
    pub number: usize,
}

impl CaseWords<'_> {
    /// Returns the bytes that the words encode.
    pub fn bytes(&self) -> Option<Vec<u8>> {
        self.names.bytes(self.text, self.number)
    }
}

/// The names that earlier lines gave, and the cases with all that they have made.
#[derive(Drop)]
pub struct Session<C: Cases> {
    /// The allocator of all values.
    alloc: Global,
    /// The names that `let` lines gave.
    names: Names,
    /// The object that performs the cases.
    cases: C,
}

impl<C: Cases> Session<C> {
    /// Returns a session before the first line.
    pub fn new(alloc: Global, cases: C) -> Session<C> {
        Session {
            alloc,
            names: Names::new(alloc),
            cases,
        }
    }

    /// Writes a line with its answers. A note and an empty line have none.
    fn write(&mut self, line: &mut Line, text: &str) {
        let (word, words) = text.split_once(' ').unwrap_or((text, ""));
        line.text(text);
        match word {
            "" | "#" => {}
            "let" => self.give_name(line, words),
            word => self.call(line, word, words),
        }
        line.text("\n");
    }

    /// Defines the name that a `let` line gives.
    fn give_name(&mut self, line: &mut Line, words: &str) {
        if self.names.add(words).is_none() {
            line.text(NOT_UNDERSTOOD);
        }
    }

    /// Performs the call that `word` names, and writes its answers.
    fn call(&mut self, line: &mut Line, word: &str, words: &str) {
        match C::call_of(word) {
            Some(call) => self.cases(line, call, words),
            None => line.text(NOT_UNDERSTOOD),
        }
    }

    /// Writes the answer of a line, or of each case of a family after its number, from 0 on.
    fn cases(&mut self, line: &mut Line, call: C::Call, words: &str) {
        line.text(":");
        let count = C::count(&self.names, call, words);
        if count > 1 {
            return self.family(line, call, words, count);
        }
        line.text(" ");
        let answer = self.case(call, words, 0);
        line.line(&answer);
    }

    /// Writes the answers of a family. Equal answers of neighbours are written once.
    fn family(&mut self, line: &mut Line, call: C::Call, words: &str, count: usize) {
        let mut run = Run::new(self.alloc, BELOW_LINE, 0);
        for number in 0..count {
            let answer = self.case(call, words, number);
            run.push(line, answer);
        }
        run.write(line);
    }

    /// Returns the answer of one case.
    fn case(&mut self, call: C::Call, text: &str, number: usize) -> Line {
        let mut line = Line::new(self.alloc, C::octet(call, number));
        let words = CaseWords {
            names: &self.names,
            text,
            number,
        };
        if self.cases.answer(&mut line, call, &words).is_none() {
            line.text(NOT_UNDERSTOOD);
        }
        line
    }
}

impl<C: Cases> Lines for Session<C> {
    /// Performs a line. Its old answer, after the case or below a family, is dropped.
    fn perform(&mut self, page: &mut Page, text: &str) {
        if !text.starts_with(INDENT) {
            let mut line = Line::new(self.alloc, None);
            self.write(&mut line, without_answer(text));
            page.page(line.page());
        }
    }

    fn end(&mut self, _page: &mut Page) -> Option<()> {
        Some(())
    }
}

/// Returns a case without its answer. Notes are unchanged.
fn without_answer(text: &str) -> &str {
    if text.starts_with('#') {
        return text;
    }
    let (case, _) = text.split_once(": ").unwrap_or((text, ""));
    case.strip_suffix(':').unwrap_or(case)
}
