//! Performs lines as cases, each on its own.

use crate::lines::{INDENT, Lines};
use crate::page::Page;
use std::alloc::Global;

/// A program of tests whose cases are single lines answers them by this function.
pub trait AnswersCases {
    /// Adds the answer to the case `line` to `page`, as whole lines. Returns `None` if `line` is no case.
    fn answer(&mut self, alloc: Global, page: &mut Page, line: &str) -> Option<()>;
}

/// Performs each line of the input as a case of `A`.
#[derive(Drop)]
pub struct Cases<A> {
    /// The allocator of all pages.
    alloc: Global,
    /// The object that answers each case.
    answers: A,
}

impl<A> Cases<A> {
    /// Returns the cases that `answers` answers.
    pub fn new(alloc: Global, answers: A) -> Cases<A> {
        Cases { alloc, answers }
    }
}

impl<A: AnswersCases> Lines for Cases<A> {
    /// Adds `line` and, if it is a case, its answer below it. A line that is itself an answer is dropped. An empty line
    /// and a line that begins with `#` are no cases.
    fn perform(&mut self, page: &mut Page, line: &str) {
        if line.starts_with(INDENT) {
            return;
        }
        page.line(line);
        if line.is_empty() || line.starts_with("#") {
            return;
        }
        let mut answer = Page::new(self.alloc);
        if self.answers.answer(self.alloc, &mut answer, line).is_none() {
            answer.line("no case");
        }
        page.page_after(INDENT.as_bytes(), &answer);
    }

    fn end(&mut self, _page: &mut Page) -> Option<()> {
        Some(())
    }
}
