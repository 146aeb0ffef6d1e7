//! Performs scripts whose reader or writer fails at each place in turn.

use crate::performing::{Script, ScriptResult, is_whole_lines, line_count, perform, print_answer};
use crate::streams::{End, Streams};
use ill_test_kit::Page;
use std::alloc::Global;

/// The answers for each place in turn. An answer is printed only if it differs from the answer before it.
#[derive(Drop)]
struct Answers {
    /// The allocator of all pages.
    alloc: Global,
    /// The text that begins each line.
    label: &'static str,
    /// The answer at the last place.
    last: Page,
}

impl Answers {
    /// Returns no answers.
    fn new(alloc: Global, label: &'static str) -> Answers {
        Answers {
            alloc,
            label,
            last: Page::new(alloc),
        }
    }

    /// Adds the answer at `place`, with the count of performed events if `events` has it. Prints it on `page` if it
    /// differs from the answer before it.
    fn push(&mut self, page: &mut Page, place: usize, told: &ScriptResult, events: Option<usize>) {
        let mut text = Page::new(self.alloc);
        print_answer(&mut text, &told.answer);
        if let Some(events) = events {
            text.text(" behind ");
            text.show(&events);
            text.text(" events");
        }
        if text.bytes() == self.last.bytes() {
            return;
        }
        page.text(self.label);
        page.text("from ");
        page.show(&place);
        page.text(" on: ");
        page.push(text.bytes().unwrap_or(b"NOT WHOLE"));
        page.text("\n");
        self.last = text;
    }
}

/// Makes the reader fail before each byte of the script in turn, and at the end of the script. Then makes the reader be
/// interrupted at each of these places. Prints the answers.
pub fn print_readers(alloc: Global, page: &mut Page, script: Script<'_>) -> Option<()> {
    print_prefixes(alloc, page, script, End::Fails, "it fails, ")?;
    print_prefixes(alloc, page, script, End::Interrupts, "it is interrupted, ")
}

/// Performs each prefix of a script, after which the reader ends as `end` says. Prints the answers, each after `label`.
/// Each trace must be whole lines, and a prefix of the trace of the whole script.
fn print_prefixes(
    alloc: Global,
    page: &mut Page,
    script: Script<'_>,
    end: End,
    label: &'static str,
) -> Option<()> {
    let whole = perform(alloc, script, Streams::Reader(End::Stops))?;
    let mut answers = Answers::new(alloc, label);
    for place in 0..=script.bytes.len() {
        let prefix = Script {
            bytes: &script.bytes[..place],
            ..script
        };
        let told = perform(alloc, prefix, Streams::Reader(end))?;
        answers.push(page, place, &told, Some(line_count(&told.trace)));
        if !is_whole_lines(&told.trace) || !whole.trace.starts_with(&told.trace) {
            page.line("ANOTHER TRACE");
        }
    }
    Some(())
}

/// Makes the writer take each count of bytes of the trace in turn. After these bytes the writer fails, is interrupted,
/// or takes no bytes. Prints the answers.
pub fn print_writers(alloc: Global, page: &mut Page, script: Script<'_>) -> Option<()> {
    print_rooms(alloc, page, script, End::Fails, "it fails, ")?;
    print_rooms(alloc, page, script, End::Interrupts, "it is interrupted, ")?;
    print_rooms(alloc, page, script, End::Stops, "it takes no bytes, ")
}

/// Performs a script with a writer that ends as `end` says, after each count of bytes in turn. Prints the answers, each
/// after `label`. The writer must have taken this many bytes of the whole trace.
fn print_rooms(
    alloc: Global,
    page: &mut Page,
    script: Script<'_>,
    end: End,
    label: &'static str,
) -> Option<()> {
    let whole = perform(alloc, script, Streams::Reader(End::Stops))?;
    let mut answers = Answers::new(alloc, label);
    for room in 0..=whole.trace.len() {
        let told = perform(alloc, script, Streams::Writer(room, end))?;
        answers.push(page, room, &told, None);
        if told.trace.as_slice() != &whole.trace[..room] {
            page.line("ANOTHER TRACE");
        }
    }
    Some(())
}
