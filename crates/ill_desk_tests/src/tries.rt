//! Judges a call whose allocation was refused.
//!
//! The call either answers out of memory, or does without the memory and gives the usual result. If it answers out of
//! memory, each part of the result has several right values. They are the value without the call and the value after
//! the call. For some calls, they are also the values after some of its messages.

use crate::desk_call::DeskCall;
use crate::memory::Memory;
use crate::memory_call::MemoryCall;
use crate::view::View;
use ill_session_kit::Phrase;
use ill_test_kit::Page;
use std::alloc::Global;

/// The part of a call that is made.
#[derive(Clone, Copy)]
pub enum Extent {
    /// The call is not made.
    Nothing,
    /// The call is made with its first messages only, this many.
    First(usize),
    /// The whole call is made.
    Whole,
    /// The whole call is made, between marks.
    Marked,
}

/// The result of a call.
#[derive(Drop)]
pub struct CallResult<'a> {
    /// The call, with its streams.
    pub call: DeskCall<'a>,
    /// The lines of its answer.
    pub answer: Page,
    /// The live sides after it.
    live: View,
    /// The committed sides after it.
    committed: View,
}

/// A part of the result.
#[derive(Clone, Copy)]
enum Part {
    /// The bytes of the output.
    Output,
    /// The messages that were kept.
    KeptMessages,
    /// The live sides.
    Live,
    /// The committed sides.
    Committed,
}

/// The parts of the result, and the words that name them.
const PARTS: [(Part, &str); 4] = [
    (Part::Output, "what it wrote"),
    (Part::KeptMessages, "what it kept"),
    (Part::Live, "how all stands"),
    (Part::Committed, "what has landed"),
];

impl<'a> CallResult<'a> {
    /// Makes this extent of the call on the memory, and returns the result.
    pub fn of(
        alloc: Global,
        on: MemoryCall,
        phrase: Phrase<'a>,
        extent: Extent,
        memory: &mut Option<Memory>,
    ) -> Option<CallResult<'a>> {
        let mut seen = CallResult {
            call: DeskCall::of(alloc, phrase)?,
            answer: Page::new(alloc),
            live: View::none(alloc),
            committed: View::none(alloc),
        };
        let made = seen.make(alloc, on, extent, memory);
        if made.is_none() {
            drop(seen);
            return None;
        }
        Some(seen)
    }

    /// Makes the call `on` the desk in memory, as far as `extent` says.
    fn make(
        &mut self,
        alloc: Global,
        on: MemoryCall,
        extent: Extent,
        memory: &mut Option<Memory>,
    ) -> Option<()> {
        match extent {
            Extent::Nothing => return Some(()),
            Extent::First(count) => self.call.shorten(alloc, on, count)?,
            Extent::Whole => {}
            Extent::Marked => self.call.base.mark(alloc)?,
        }
        let (answer, call) = (&mut self.answer, &mut self.call);
        memory.as_mut()?.perform(alloc, answer, on, call)
    }

    /// Views the live sides, and then the committed sides. The memory is restarted for that.
    pub fn look(&mut self, alloc: Global, memory: &mut Option<Memory>) -> Option<()> {
        let memory = memory.as_mut()?;
        self.live = memory.view(alloc)?;
        memory.go_back(alloc)?;
        self.committed = memory.view(alloc)?;
        Some(())
    }

    /// Returns true if both results agree in this part.
    fn is_alike(&self, part: Part, other: &CallResult<'_>) -> bool {
        match part {
            Part::Output => self.call.base.output.taken.as_slice()
                == other.call.base.output.taken.as_slice(),
            Part::KeptMessages => self.call.base.errors.taken.as_slice()
                == other.call.base.errors.taken.as_slice(),
            Part::Live => self.live.has_record_of(&other.live),
            Part::Committed => self.committed.is(&other.committed),
        }
    }

    /// Returns true if both results agree in the answer and in all sides.
    fn is(&self, other: &CallResult<'_>) -> bool {
        self.answer.bytes() == other.answer.bytes()
            && self.live.is(&other.live)
            && self.committed.is(&other.committed)
    }
}

/// Returns the words of the first wrong part of a refused call, if there is one. The first two `prefixes` are the
/// results of no call and of the whole call. The others are the results of the call with each prefix of its messages.
pub fn fault(
    on: MemoryCall,
    seen: &CallResult<'_>,
    prefixes: &[CallResult<'_>],
) -> Option<&'static str> {
    let [before, after, between @ ..] = prefixes else {
        return Some("its fronts");
    };
    if !seen.call.base.says_memory {
        return if seen.is(after) {
            None
        } else {
            Some("its answer")
        };
    }
    for (part, words) in &PARTS {
        let is_end = seen.is_alike(*part, before) || seen.is_alike(*part, after);
        if !is_end && !is_between(on, *part, seen, between) {
            return Some(*words);
        }
    }
    if !seen.live.releases_as(&before.live) && !seen.live.releases_as(&seen.committed) {
        return Some("what may leave");
    }
    if seen.call.spoils_copy || !seen.call.letters.is_prefix_of(&after.call.letters) {
        return Some("what has left");
    }
    None
}

/// Returns true if this part may be that of a call that was made in part. A desk saves once for all message files, and
/// once for all deeds of a day.
fn is_between(
    on: MemoryCall,
    part: Part,
    seen: &CallResult<'_>,
    between: &[CallResult<'_>],
) -> bool {
    match (on, part) {
        (MemoryCall::Take, _) | (MemoryCall::Inbox, Part::Live) => {
            between.iter().any(|prefix| seen.is_alike(part, prefix))
        }
        (MemoryCall::Dates, Part::Live) => true,
        _ => false,
    }
}
