//! Prints the answers to a case.

use crate::case::{Case, length_text};
use ill_browser::{LoanName, VisitFault, Wanted, read_wanted};
use ill_test_kit::marks::{TRIES, begin, is_refused, is_refused_or_without};
use ill_test_kit::{AnswersCases, Page};
use ill_values::Day;
use std::alloc::Global;

/// Answers the cases of requests.
#[derive(Drop)]
pub struct Requests;

impl AnswersCases for Requests {
    /// Adds the answer to the request that `line` describes, on a line. Returns None if `line` is no case.
    fn answer(&mut self, alloc: Global, page: &mut Page, line: &str) -> Option<()> {
        push_request(alloc, page, line)?;
        page.line("");
        Some(())
    }
}

/// Adds the answer to the request that a line describes. Returns None if it describes none.
fn push_request(alloc: Global, output: &mut Page, line: &str) -> Option<()> {
    match parts(line) {
        ("look", words) => push_answer(alloc, output, Case::look(), words),
        ("post", words) => {
            let (body, words) = parts(words);
            let length = length_text(alloc, body)?;
            push_answer(alloc, output, Case::post(body, length.as_str()), words)
        }
        _ => None,
    }
}

/// Returns the first word of `line`, and the words after it.
fn parts(line: &str) -> (&str, &str) {
    line.split_once(" ").unwrap_or((line, ""))
}

/// Adds the answer to `case` with the texts that `words` replace, and the number of bytes that were left. Returns None
/// if a word names no text.
fn push_answer<'a>(
    alloc: Global,
    output: &mut Page,
    mut case: Case<'a>,
    words: &'a str,
) -> Option<()> {
    for word in words.split(" ") {
        if !word.is_empty() {
            case.set(word)?;
        }
    }
    let answer = answer_of(alloc, &case)?;
    output.push(answer.bytes()?);
    Some(())
}

/// Makes the call of a case, and makes it again while one of its allocations is refused. Returns the page of its
/// answer.
///
/// To decode a value with `+`, the kit asks for the room of the whole value first. If that is refused, it asks for room
/// for one byte. So a call may do without one allocation for each such value, and for no other. Then its answer must be
/// the same as with the allocation. `left` counts the allocations that calls may still do without. `before` is the page
/// of the last call that did without one.
fn answer_of(alloc: Global, case: &Case<'_>) -> Option<Page> {
    let mut left = case.spaced_fields();
    let mut before = None;
    for _ in 0..TRIES {
        begin(alloc);
        let call = Call::made(alloc, case);
        if !call.is_refused(alloc, left > 0) {
            return call.told(alloc, before.as_ref());
        }
        if !call.says_memory() {
            left = left.saturating_sub(1);
            before = call.told(alloc, before.as_ref());
        }
    }
    None
}

/// A call of `read_wanted`.
#[derive(Drop)]
struct Call {
    /// The answer of the call.
    answer: Result<Wanted, VisitFault>,
    /// The number of bytes of the body that the call did not read.
    left: usize,
}

impl Call {
    /// Makes the call of a case.
    fn made(alloc: Global, case: &Case<'_>) -> Call {
        let mut reader = case.body.as_bytes();
        let answer = read_wanted(alloc, &case.rules, &case.visit, &mut reader);
        Call {
            answer,
            left: reader.len(),
        }
    }

    /// Returns true if the call answered out of memory.
    fn says_memory(&self) -> bool {
        matches!(&self.answer, Err(VisitFault::OutOfMemory))
    }

    /// Ends the marks of the call. Only if `may_do_without` is true, it may answer although an allocation was refused.
    /// Returns true if an allocation was refused.
    fn is_refused(&self, alloc: Global, may_do_without: bool) -> bool {
        if may_do_without {
            is_refused_or_without(alloc, self.says_memory())
        } else {
            is_refused(alloc, self.says_memory())
        }
    }

    /// Returns the page of the answer. `before` is the page of an earlier call that did without an allocation. If it
    /// has another answer, the page says so.
    fn told(&self, alloc: Global, before: Option<&Page>) -> Option<Page> {
        let mut page = Page::new(alloc);
        match &self.answer {
            Ok(wanted) => push_wanted(&mut page, wanted),
            Err(fault) => page.text(fault_word(*fault)),
        }
        page.text(", left ");
        page.show(&self.left);
        if before.is_some_and(|before| before.bytes() != page.bytes()) {
            page.text(", and another answer without a growth");
        }
        Some(page)
    }
}

/// Adds the page or the action that was asked for: a word, and its texts in brackets.
fn push_wanted(output: &mut Page, wanted: &Wanted) {
    match wanted {
        Wanted::Desks { find } => push_desks(output, find.as_ref()),
        Wanted::Loan(loan) => push_loan(output, "loan", loan),
        Wanted::Slip(loan) => push_loan(output, "slip", loan),
        Wanted::Figures { from, to } => push_figures(output, from, to),
        Wanted::Act { loan, stamp, words } => {
            push_loan(output, "act", loan);
            push_text(output, stamp);
            for word in words {
                push_text(output, word);
            }
        }
        Wanted::Note { loan, note } => {
            push_loan(output, "note", loan);
            push_text(output, note.as_bytes());
        }
    }
}

/// Adds the word `desks`, and the words to find, if there are any.
fn push_desks(output: &mut Page, find: Option<&String>) {
    output.text("desks");
    if let Some(words) = find {
        push_text(output, words.as_bytes());
    }
}

/// Adds the word `figures`, and the days of figures.
fn push_figures(output: &mut Page, from: &Day, to: &Day) {
    output.text("figures ");
    output.show(from);
    output.text(" ");
    output.show(to);
}

/// Adds a word, and the name of a loan.
fn push_loan(output: &mut Page, word: &str, loan: &LoanName) {
    output.text(word);
    push_text(output, &loan.desk);
    push_text(output, loan.txn.group());
    push_text(output, loan.txn.transaction());
}

/// Adds a text between brackets.
fn push_text(output: &mut Page, text: &[u8]) {
    output.text(" [");
    output.push(text);
    output.text("]");
}

/// Returns the word of a fault.
fn fault_word(fault: VisitFault) -> &'static str {
    match fault {
        VisitFault::NoPage => "NoPage",
        VisitFault::Method => "Method",
        VisitFault::Foreign => "Foreign",
        VisitFault::NoUser => "NoUser",
        VisitFault::NoForm => "NoForm",
        VisitFault::NoLength => "NoLength",
        VisitFault::TooLong => "TooLong",
        VisitFault::Cut => "Cut",
        VisitFault::Fields => "Fields",
        VisitFault::OutOfMemory => "OutOfMemory",
    }
}
