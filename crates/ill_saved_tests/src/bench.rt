//! The bench has a store in memory, the sides of one library, and a folder of files. At first it is empty.

use crate::calls::{Call, RecordCall, SidesCall, StoreCall, call_of};
use crate::files::FileBench;
use crate::{held, records};
use ill_saved::Sides;
use ill_saved_kit::{CaseWords, Cases, Folder, Line, Names, StoreBench};
use std::alloc::Global;

/// A store in memory and the sides of one library, if there are any, and a folder.
#[derive(Drop)]
pub struct Bench<'a> {
    /// The allocator of all values.
    alloc: Global,
    /// The store in memory.
    store: StoreBench,
    /// The sides of one library, if there are any.
    sides: Option<Sides>,
    /// The folder of the files, and the store in one of them.
    files: FileBench<'a>,
}

impl<'a> Cases for Bench<'a> {
    type Call = Call;

    /// Returns the call that the first word of a line names.
    fn call_of(word: &str) -> Option<Call> {
        call_of(word)
    }

    /// Returns the count of cases of a line. The cases of prefixes are the prefixes of all sizes.
    fn count(names: &Names, call: Call, words: &str) -> usize {
        if let Call::Record(RecordCall::Prefixes | RecordCall::RecordsPrefixes) = call {
            if let Some(bytes) = names.bytes(words, 0) {
                return bytes.len().saturating_add(1);
            }
        }
        names.cases(words)
    }

    /// Returns the octet for which `#` stands in the case `number`. Only the cases of `octets` have one.
    fn octet(call: Call, number: usize) -> Option<u8> {
        match call {
            Call::Record(RecordCall::Octets) => u8::try_from(number).ok(),
            _ => None,
        }
    }

    /// Performs a case, and writes its answer. Returns None if the words are no call.
    fn answer(&mut self, line: &mut Line, call: Call, words: &CaseWords<'_>) -> Option<()> {
        match call {
            Call::Record(call) => {
                let bytes = words.bytes()?;
                let prefix = records::prefix_of(call, &bytes, words.number);
                records::write(self.alloc, line, call, prefix)
            }
            Call::Store(call) => self.call_store(line, call, words),
            Call::Sides(call) => self.call_sides(line, call, words),
            Call::File => self.files.call(line, words.names, words.text),
        }
    }
}

impl<'a> Bench<'a> {
    /// Returns a bench that has nothing but `folder`.
    pub fn new(alloc: Global, folder: Folder<'a>) -> Bench<'a> {
        Bench {
            alloc,
            store: StoreBench::new(alloc),
            sides: None,
            files: FileBench::new(folder),
        }
    }

    /// Performs a call of the store, and writes its answer.
    fn call_store(
        &mut self,
        line: &mut Line,
        call: StoreCall,
        words: &CaseWords<'_>,
    ) -> Option<()> {
        match call {
            StoreCall::Make => {
                self.store.make(line);
                Some(())
            }
            StoreCall::Load => self.store.load(line),
            StoreCall::Next => self.store.plan(line, words.text),
            StoreCall::Save => self.store.save(line, &words.bytes()?),
        }
    }

    /// Performs a call of the sides, and writes its answer.
    fn call_sides(
        &mut self,
        line: &mut Line,
        call: SidesCall,
        words: &CaseWords<'_>,
    ) -> Option<()> {
        match call {
            SidesCall::Put => held::put(self.alloc, line, self.sides.as_mut()?, &words.bytes()?),
            call => held::call(self.alloc, line, &mut self.sides, call, words.text),
        }
    }
}
