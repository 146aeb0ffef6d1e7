//! A call has words and streams.

use crate::names::{Names, Phrase};
use crate::streams::{bytes_of, reader_of, writer_of};
use crate::telling::{Telling, print_reader, print_value, print_writer};
use crate::words::{Word, cut};
use ill_test_kit::{Page, TestReader, TestWriter, marks};
use std::alloc::Global;
use std::fmt::Debug;

/// The writers of a call between marks have this room. No such call writes as much.
const ROOM: usize = 65_536;

/// An input of at most this many bytes is short enough for many tries of its call.
const SHORT: usize = 1_000;

/// The input of a call, and its results except its answer.
#[derive(Drop)]
pub struct Call<'a> {
    /// The words of the call.
    pub words: &'a [Word],
    /// The names that the words use.
    pub names: &'a Names,
    /// The reader of the call.
    pub source: TestReader,
    /// The writer for the output.
    pub output: TestWriter,
    /// The writer for faults.
    pub errors: TestWriter,
    /// True if the call answered out of memory.
    pub says_memory: bool,
    /// True if an allocation was refused, so that the call must be made again.
    pub was_refused: bool,
    /// True if marks surround the call.
    is_marked: bool,
    /// The words of the input.
    input: &'a [Word],
    /// The parts of the output and of the faults that are printed.
    tellings: (Telling, Telling),
}

/// The words of a call, and the words of its streams.
#[derive(Clone, Copy)]
struct Parts<'a> {
    /// The words of the call.
    words: &'a [Word],
    /// The words after `<`.
    input: Option<&'a [Word]>,
    /// The words after `>`.
    output: Option<&'a [Word]>,
    /// The words after `2>`.
    errors: Option<&'a [Word]>,
}

impl<'a> Parts<'a> {
    /// Splits the words of a call at the marks of its streams.
    fn of(words: &'a [Word]) -> Parts<'a> {
        let (words, errors) = cut(words, "2>");
        let (words, output) = cut(words, ">");
        let (words, input) = cut(words, "<");
        Parts {
            words,
            input,
            output,
            errors,
        }
    }
}

impl<'a> Call<'a> {
    /// Returns the call that `WORDS [< READER] [> WRITER] [2> WRITER]` encodes, or `None` if a stream is wrong.
    pub fn of(alloc: Global, phrase: Phrase<'a>) -> Option<Call<'a>> {
        let parts = Parts::of(phrase.words);
        let source = reader_of(alloc, phrase.names, parts.input.unwrap_or(&[]));
        let output = writer_of(alloc, phrase.names, parts.output);
        let errors = writer_of(alloc, phrase.names, parts.errors);
        match (source, output, errors) {
            (Some(source), Some((output, printed)), Some((errors, printed_errors))) => Some(Call {
                words: parts.words,
                names: phrase.names,
                source,
                output,
                errors,
                says_memory: false,
                was_refused: false,
                is_marked: false,
                input: parts.input.unwrap_or(&[]),
                tellings: (printed, printed_errors),
            }),
            _ => None,
        }
    }

    /// Surrounds the call with marks, and gives its writers room for all bytes. Returns `None` if memory runs out.
    pub fn mark(&mut self, alloc: Global) -> Option<()> {
        self.output.taken = Vec::with_capacity(alloc, ROOM).ok()?;
        self.errors.taken = Vec::with_capacity(alloc, ROOM).ok()?;
        self.is_marked = true;
        Some(())
    }

    /// Begins the marks, if the call has them.
    pub fn begin(&self, alloc: Global) {
        if self.is_marked {
            marks::begin(alloc);
        }
    }

    /// Ends the marks, and returns `answer`. Notes in this call if the answer was the fault `memory`, and if an
    /// allocation was refused.
    pub fn end<T: Drop, F: PartialEq + Drop>(
        &mut self,
        alloc: Global,
        answer: Result<T, F>,
        memory: &F,
    ) -> Result<T, F> {
        self.says_memory = is_fault(&answer, memory);
        self.was_refused = self.is_marked && marks::is_refused(alloc, self.says_memory);
        answer
    }

    /// Ends the marks of an engine, and returns `answer`. Notes in this call what `end` notes. Unlike another call, an
    /// engine may do without memory that only makes it faster.
    pub fn end_engine<T: Drop, F: PartialEq + Drop>(
        &mut self,
        alloc: Global,
        answer: Result<T, F>,
        memory: &F,
    ) -> Result<T, F> {
        self.says_memory = is_fault(&answer, memory);
        self.was_refused = self.is_marked && marks::is_refused_or_without(alloc, self.says_memory);
        answer
    }

    /// Returns the bytes of the input that come before a failure, or `None` if its words are wrong.
    pub fn input(&self) -> Option<Vec<u8>> {
        bytes_of(self.names, self.input)
    }

    /// Prints the output, the faults and the rest of the input.
    pub fn tell(&self, page: &mut Page) {
        print_writer(page, self.names, ">", &self.output, &self.tellings.0);
        print_writer(page, self.names, "!", &self.errors, &self.tellings.1);
        print_reader(page, self.names, &self.source);
    }

    /// Returns true if the call has written nothing.
    pub fn has_written_nothing(&self) -> bool {
        self.output.taken.is_empty() && self.errors.taken.is_empty()
    }

    /// Prints the output, the faults, the rest of the input, and `answer`.
    pub fn print_answer<T: Debug>(&self, page: &mut Page, answer: &T) {
        self.tell(page);
        print_value(page, answer);
    }
}

/// Returns true if `answer` is this fault.
fn is_fault<T, F: PartialEq>(answer: &Result<T, F>, fault: &F) -> bool {
    match answer {
        Ok(_) => false,
        Err(found) => *found == *fault,
    }
}

/// Returns true if the input of the call is short enough for many tries.
pub fn is_short(phrase: Phrase<'_>) -> bool {
    let input = Parts::of(phrase.words).input.unwrap_or(&[]);
    bytes_of(phrase.names, input).is_some_and(|bytes| bytes.len() <= SHORT)
}
