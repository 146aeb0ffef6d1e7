//! Performs a call that keeps nothing for the next call, such as an engine of a command on streams.
//!
//! Marks surround the call. If an allocation is refused, the call is made again. At the end each refused try is judged.

use crate::call::{Call, is_short};
use crate::names::Phrase;
use ill_test_kit::Page;
use ill_test_kit::marks::TRIES;
use std::alloc::Global;

/// A function that reads and writes streams.
pub trait Engine {
    /// Performs a call, and prints its answer. Returns `None` if the words are no call.
    fn answer(&self, alloc: Global, page: &mut Page, call: &mut Call<'_>) -> Option<()>;
}

/// A call that was made, and the lines of its answer.
#[derive(Drop)]
struct Try<'a> {
    /// The call, with its streams.
    call: Call<'a>,
    /// The lines of its answer.
    answer: Page,
}

/// Performs a call between marks, repeats it while an allocation is refused, and prints the answer. Returns `None` if
/// `phrase` is no call, or after `TRIES` tries.
pub fn perform<E: Engine>(
    alloc: Global,
    page: &mut Page,
    engine: &E,
    phrase: Phrase<'_>,
) -> Option<()> {
    let mut tries = Vec::new(alloc);
    let done = try_often(alloc, page, engine, phrase, &mut tries);
    drop(tries);
    done
}

/// Performs a call between marks until no allocation is refused, and prints the answer. Adds each refused try to
/// `tries`. Returns `None` as `perform` does.
fn try_often<'a, E: Engine>(
    alloc: Global,
    page: &mut Page,
    engine: &E,
    phrase: Phrase<'a>,
    tries: &mut Vec<Try<'a>>,
) -> Option<()> {
    for _ in 0..TRIES {
        let mut seen = Try {
            call: Call::of(alloc, phrase)?,
            answer: Page::new(alloc),
        };
        let done = perform_once(alloc, engine, phrase, &mut seen);
        if !seen.call.was_refused {
            page.page(&seen.answer);
            print_faults(page, tries, &seen);
            drop(seen);
            return done;
        }
        tries.push(seen).ok().and(done)?;
    }
    None
}

/// Performs the call of `seen`, and adds its answer to `seen`. Marks surround the call if its input is short enough for
/// many tries. Returns `None` if `phrase` is no call.
fn perform_once<E: Engine>(
    alloc: Global,
    engine: &E,
    phrase: Phrase<'_>,
    seen: &mut Try<'_>,
) -> Option<()> {
    if is_short(phrase) {
        seen.call.mark(alloc)?;
    }
    engine.answer(alloc, &mut seen.answer, &mut seen.call)
}

/// Prints each refused try with a wrong result. A try that answers out of memory must write only first lines of what
/// `last` wrote. Any other try must give the answer of `last`.
fn print_faults(page: &mut Page, tries: &[Try<'_>], last: &Try<'_>) {
    for seen in tries {
        let is_fine = if seen.call.says_memory {
            is_prefix(&seen.call.output.taken, &last.call.output.taken)
        } else {
            seen.answer.bytes() == last.answer.bytes()
        };
        if !is_fine {
            print_fault(page, "its answer");
        }
    }
}

/// Returns true if `prefix` is the first lines of `whole`, or all of it.
fn is_prefix(prefix: &[u8], whole: &[u8]) -> bool {
    let is_whole = prefix.is_empty() || prefix.ends_with(b"\n") || prefix.len() == whole.len();
    is_whole && whole.starts_with(prefix)
}

/// Prints the words of the wrong part of a refused try.
pub fn print_fault(page: &mut Page, words: &str) {
    page.text("  = a refused try: ");
    page.line(words);
}
