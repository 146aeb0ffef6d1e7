//! A past is a memory, and the lines that led to it. These lines make an equal memory again.
//!
//! Marks surround each call. If an allocation is refused, the lines before it are performed again, and then the call.
//! So each try begins with an equal memory. At the end each refused try is judged.

use crate::beginning::begin;
use crate::desk_call::{DeskCall, prefix_count};
use crate::memory::{Beginning, Memory};
use crate::memory_call::MemoryCall;
use crate::tries::{CallResult, Extent, fault};
use ill_session_kit::engine::print_fault;
use ill_session_kit::words::{Word, copied};
use ill_session_kit::{Names, Phrase, is_short};
use ill_test_kit::Page;
use ill_test_kit::marks::TRIES;
use std::alloc::Global;

/// The call of a line.
#[derive(Clone, Copy)]
pub enum LineCall {
    /// A side or a desk begins.
    Begin(Beginning),
    /// A desk begins by the engine of `new`.
    New,
    /// The next call of the store is planned.
    Next,
    /// A call is made on the memory.
    On(MemoryCall),
}

/// A line that was performed.
#[derive(Drop)]
struct Line {
    /// The call of the line.
    kind: LineCall,
    /// The words of the line.
    words: Vec<Word>,
}

/// A memory, and the lines that led to it.
#[derive(Drop)]
pub struct Past {
    /// The allocator of all values.
    alloc: Global,
    /// The memory on which the calls are printed.
    memory: Option<Memory>,
    /// An equal memory, on which calls are made with ample memory.
    ample: Option<Memory>,
    /// The lines since the memory began, or `None` if one of them is too long for a repetition.
    lines: Option<Vec<Line>>,
}

impl Past {
    /// Returns an empty memory without lines.
    pub fn new(alloc: Global) -> Past {
        Past {
            alloc,
            memory: None,
            ample: None,
            lines: None,
        }
    }

    /// Empties the memory.
    pub fn clear(&mut self) {
        drop(self.memory.take());
        drop(self.ample.take());
        drop(self.lines.take());
    }

    /// Performs a line, and prints its answer. A short call on the memory is made between marks, if the lines before it
    /// are known.
    pub fn perform(&mut self, page: &mut Page, kind: LineCall, phrase: Phrase<'_>) -> Option<()> {
        let is_short = is_short(phrase);
        match kind {
            LineCall::On(on) if is_short && self.lines.is_some() => {
                self.perform_marked(page, on, phrase)?;
            }
            _ => perform_line(self.alloc, page, &mut self.memory, kind, phrase)?,
        }
        self.remember(kind, phrase.words, is_short)
    }

    /// Performs a call between marks, and repeats it while an allocation is refused. Then judges the refused tries.
    fn perform_marked(
        &mut self,
        page: &mut Page,
        on: MemoryCall,
        phrase: Phrase<'_>,
    ) -> Option<()> {
        let mut tries = Vec::new(self.alloc);
        let mut prefixes = Vec::new(self.alloc);
        let mut done = self.try_often(page, on, phrase, &mut tries);
        if !tries.is_empty() {
            done = done.and(self.push_prefixes(on, phrase, &mut prefixes));
            print_faults(page, on, &tries, &prefixes);
        }
        drop(tries);
        drop(prefixes);
        done
    }

    /// Performs a call between marks until no allocation is refused. Adds each refused try to `tries`.
    fn try_often<'a>(
        &mut self,
        page: &mut Page,
        on: MemoryCall,
        phrase: Phrase<'a>,
        tries: &mut Vec<CallResult<'a>>,
    ) -> Option<()> {
        for _ in 0..TRIES {
            let memory = &mut self.memory;
            let mut seen = CallResult::of(self.alloc, on, phrase, Extent::Marked, memory)?;
            if !seen.call.base.was_refused {
                page.page(&seen.answer);
                drop(seen);
                return Some(());
            }
            let looked = seen.look(self.alloc, memory);
            tries.push(seen).ok().and(looked)?;
            again(self.alloc, phrase.names, self.lines.as_ref()?, memory)?;
        }
        None
    }

    /// Adds the results of no call, of the whole call, and of the call with each prefix of its messages.
    fn push_prefixes<'a>(
        &mut self,
        on: MemoryCall,
        phrase: Phrase<'a>,
        prefixes: &mut Vec<CallResult<'a>>,
    ) -> Option<()> {
        self.push_extent(on, phrase, Extent::Nothing, prefixes)?;
        self.push_extent(on, phrase, Extent::Whole, prefixes)?;
        for count in 0..prefix_count(self.alloc, on, phrase)? {
            self.push_extent(on, phrase, Extent::First(count), prefixes)?;
        }
        Some(())
    }

    /// Adds the result of the call as far as `extent` says. It is made on `ample`, after the lines before it.
    fn push_extent<'a>(
        &mut self,
        on: MemoryCall,
        phrase: Phrase<'a>,
        extent: Extent,
        prefixes: &mut Vec<CallResult<'a>>,
    ) -> Option<()> {
        let memory = &mut self.ample;
        again(self.alloc, phrase.names, self.lines.as_ref()?, memory)?;
        let mut seen = CallResult::of(self.alloc, on, phrase, extent, memory)?;
        let looked = seen.look(self.alloc, memory);
        prefixes.push(seen).ok().and(looked)
    }

    /// Adds a line that was performed to the lines. A line that begins anew replaces them, and a long one drops them.
    fn remember(&mut self, kind: LineCall, words: &[Word], is_short: bool) -> Option<()> {
        if begins_anew(kind, words) {
            drop(self.lines.replace(Vec::new(self.alloc)));
        }
        if !is_short {
            drop(self.lines.take());
        }
        match &mut self.lines {
            Some(lines) => {
                let words = copied(self.alloc, words)?;
                lines.push(Line { kind, words }).ok()
            }
            None => Some(()),
        }
    }
}

/// Prints each refused try with a wrong result.
fn print_faults(
    page: &mut Page,
    on: MemoryCall,
    tries: &[CallResult<'_>],
    prefixes: &[CallResult<'_>],
) {
    for seen in tries {
        if let Some(words) = fault(on, seen, prefixes) {
            print_fault(page, words);
        }
    }
}

/// Empties `memory`, and performs `lines` again on it. Their answers are dropped.
fn again(alloc: Global, names: &Names, lines: &[Line], memory: &mut Option<Memory>) -> Option<()> {
    drop(memory.take());
    let mut page = Page::new(alloc);
    for line in lines {
        let phrase = Phrase {
            words: &line.words,
            names,
        };
        perform_line(alloc, &mut page, memory, line.kind, phrase)?;
    }
    Some(())
}

/// Performs a line on the memory, and prints its answer.
fn perform_line(
    alloc: Global,
    page: &mut Page,
    memory: &mut Option<Memory>,
    kind: LineCall,
    phrase: Phrase<'_>,
) -> Option<()> {
    let mut call = DeskCall::of(alloc, phrase)?;
    let done = perform_call(alloc, page, memory, kind, &mut call);
    drop(call);
    done
}

/// Performs a call on the memory, and prints its answer.
fn perform_call(
    alloc: Global,
    page: &mut Page,
    memory: &mut Option<Memory>,
    kind: LineCall,
    call: &mut DeskCall<'_>,
) -> Option<()> {
    match kind {
        LineCall::Begin(beginning) => {
            let begun = Memory::begin(alloc, beginning, call.base.words)?;
            drop(memory.replace(begun));
            Some(())
        }
        LineCall::New => begin(alloc, page, memory, &mut call.base),
        LineCall::Next => memory.as_mut()?.plan(call.base.words),
        LineCall::On(on) => memory.as_mut()?.perform(alloc, page, on, call),
    }
}

/// Returns true if the line depends on no line before it.
fn begins_anew(kind: LineCall, words: &[Word]) -> bool {
    match kind {
        LineCall::Begin(_) => true,
        LineCall::New => !words.iter().any(|word| word.is("again")),
        LineCall::Next | LineCall::On(_) => false,
    }
}
