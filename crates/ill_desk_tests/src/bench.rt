//! The bench has a memory with one side or one desk, and calls engines on streams.

use crate::engines::ApduEngine;
use crate::memory::Beginning;
use crate::memory_call::MemoryCall;
use crate::past::{LineCall, Past};
use ill_session_kit::{Performs, Phrase, engine};
use ill_test_kit::{Page, named};
use std::alloc::Global;

/// A side or a desk in memory.
#[derive(Drop)]
pub struct Bench {
    /// The allocator of all values.
    alloc: Global,
    /// The memory, and the lines that led to it.
    past: Past,
}

/// The kind of call that the first word of a line names.
#[derive(Clone, Copy)]
enum Kind {
    /// A call that has no memory.
    Engine(ApduEngine),
    /// A call on the side or the desk in memory.
    Line(LineCall),
}

/// The first words of lines, and the calls that they name.
const KINDS: [(&str, Kind); 20] = [
    ("show", Kind::Engine(ApduEngine::Show)),
    ("check", Kind::Engine(ApduEngine::Check)),
    ("read", Kind::Engine(ApduEngine::Read)),
    ("write", Kind::Engine(ApduEngine::Write)),
    ("side", Kind::Line(LineCall::Begin(Beginning::Side))),
    ("desk", Kind::Line(LineCall::Begin(Beginning::Desk))),
    ("new", Kind::Line(LineCall::New)),
    ("next", Kind::Line(LineCall::Next)),
    ("save", Kind::Line(LineCall::On(MemoryCall::Save))),
    ("restart", Kind::Line(LineCall::On(MemoryCall::Restart))),
    ("act", Kind::Line(LineCall::On(MemoryCall::Act))),
    ("take", Kind::Line(LineCall::On(MemoryCall::Take))),
    ("inbox", Kind::Line(LineCall::On(MemoryCall::Inbox))),
    ("outbox", Kind::Line(LineCall::On(MemoryCall::Outbox))),
    ("stream", Kind::Line(LineCall::On(MemoryCall::Stream))),
    ("dates", Kind::Line(LineCall::On(MemoryCall::Dates))),
    ("copy", Kind::Line(LineCall::On(MemoryCall::Copy))),
    ("send", Kind::Line(LineCall::On(MemoryCall::Send))),
    ("status", Kind::Line(LineCall::On(MemoryCall::Status))),
    ("loan", Kind::Line(LineCall::On(MemoryCall::Loan))),
];

impl Bench {
    /// Returns a bench that has an empty memory.
    pub fn new(alloc: Global) -> Bench {
        Bench {
            alloc,
            past: Past::new(alloc),
        }
    }
}

impl Performs for Bench {
    /// Begins a case with an empty memory.
    fn begin(&mut self) -> Option<()> {
        self.past.clear();
        Some(())
    }

    /// Performs the call that `word` names, on the words of `phrase`. Returns None if `KINDS` has no such word.
    fn perform(&mut self, page: &mut Page, word: &str, phrase: Phrase<'_>) -> Option<()> {
        match named(&KINDS, word)? {
            Kind::Engine(called) => engine::perform(self.alloc, page, &called, phrase),
            Kind::Line(kind) => self.past.perform(page, kind, phrase),
        }
    }

    /// Does nothing after the last case.
    fn end(&mut self) -> Option<()> {
        Some(())
    }
}
