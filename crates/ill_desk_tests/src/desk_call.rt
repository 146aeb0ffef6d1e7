//! A call on the memory sends message files and copies a desk, besides what its streams show.

use crate::letters::Letters;
use crate::memory_call::MemoryCall;
use ill_der::view;
use ill_session_kit::{Call, Phrase};
use ill_test_kit::{Failure, TestReader};
use std::alloc::Global;

/// A call on the memory, and its results except its answer.
#[derive(Drop)]
pub struct DeskCall<'a> {
    /// The words and the streams.
    pub base: Call<'a>,
    /// The message files that the call has sent.
    pub letters: Letters,
    /// True if the call answered out of memory, and still has changed the store of the copy.
    pub spoils_copy: bool,
}

impl<'a> DeskCall<'a> {
    /// Returns the call that `phrase` encodes.
    pub fn of(alloc: Global, phrase: Phrase<'a>) -> Option<DeskCall<'a>> {
        Some(DeskCall {
            base: Call::of(alloc, phrase)?,
            letters: Letters::new(alloc, usize::MAX),
            spoils_copy: false,
        })
    }

    /// Reduces the call to the first `count` of its messages or message files.
    pub fn shorten(&mut self, alloc: Global, on: MemoryCall, count: usize) -> Option<()> {
        match on {
            MemoryCall::Take => {
                let bytes = self.base.input()?;
                let prefix = bytes.get(..ends(alloc, &bytes)?.get(count).copied()?)?;
                let prefix = Vec::from_slice(alloc, prefix).ok()?;
                self.base.source = TestReader::new(prefix, Failure::NEVER, Vec::new(alloc));
            }
            _ => self.base.words = self.base.words.get(..count)?,
        }
        Some(())
    }
}

/// Returns the count of prefixes of the messages or message files of a call. Other calls have none.
pub fn prefix_count(alloc: Global, on: MemoryCall, phrase: Phrase<'_>) -> Option<usize> {
    let call = Call::of(alloc, phrase)?;
    let count = match on {
        MemoryCall::Take => call
            .input()
            .and_then(|bytes| ends(alloc, &bytes))
            .map_or(0, |ends| ends.len()),
        MemoryCall::Inbox => call.words.len(),
        _ => 0,
    };
    drop(call);
    Some(count)
}

/// Returns the size of each prefix of whole messages, from 0 on.
fn ends(alloc: Global, bytes: &[u8]) -> Option<Vec<usize>> {
    let mut ends = Vec::new(alloc);
    let mut end = 0;
    for _ in 0..bytes.len() {
        ends.push(end).ok()?;
        match view(bytes.get(end..)?) {
            Ok((_, size)) => end = end.checked_add(size)?,
            Err(_) => return Some(ends),
        }
    }
    Some(ends)
}
