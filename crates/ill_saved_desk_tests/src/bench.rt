//! The bench has a store in memory, or a desk with its store, and a folder of files. At first it is empty.

use crate::beginnings::{Beginning, put_desk_on_bench};
use crate::calls::{BytesCall, Call, ManyCall, WordsCall, call_of};
use crate::fuses::{fuse, fuse_many};
use crate::{desks, files, landing, transactions};
use ill_desk_kit::plan_of;
use ill_saved::{Desk, Desk1, ManySides, MemoryStore, NextCall, OneSide};
use ill_saved_kit::{CaseWords, Cases, Folder, Line, Names, StoreBench, write_side, write_sides};
use ill_test_kit::marks;
use std::alloc::Global;

/// A store, or a desk of one transaction or of many, and a folder.
#[derive(Drop)]
pub struct Bench<'a> {
    /// The allocator of all values.
    alloc: Global,
    /// The store, if no desk has it, and the plan of its next call.
    store: StoreBench,
    /// The desk of one transaction, if there is one.
    desk: Option<Desk1<MemoryStore>>,
    /// The desk of many transactions, if there is one.
    many: Option<Desk<MemoryStore>>,
    /// The folder of the files.
    folder: Folder<'a>,
}

impl<'a> Cases for Bench<'a> {
    type Call = Call;

    /// Returns the call that the first word of a line names.
    fn call_of(word: &str) -> Option<Call> {
        call_of(word)
    }

    /// Returns the count of cases of a line.
    fn count(names: &Names, _call: Call, words: &str) -> usize {
        names.cases(words)
    }

    /// Returns None: no case of a desk has an octet for `#`.
    fn octet(_call: Call, _number: usize) -> Option<u8> {
        None
    }

    /// Performs a case, and writes its answer. Returns None if the words are no call.
    fn answer(&mut self, line: &mut Line, call: Call, words: &CaseWords<'_>) -> Option<()> {
        match call {
            Call::Words(call) => self.call(line, call, words.text),
            Call::Bytes(call) => self.call_with(line, call, &words.bytes()?),
            Call::File => files::call(self.folder, line, words.names, words.text),
        }
    }
}

impl<'a> Bench<'a> {
    /// Returns a bench that has nothing but `folder`.
    pub fn new(alloc: Global, folder: Folder<'a>) -> Bench<'a> {
        Bench {
            alloc,
            store: StoreBench::new(alloc),
            desk: None,
            many: None,
            folder,
        }
    }

    /// Performs a call that takes words, and writes its answer.
    fn call(&mut self, line: &mut Line, call: WordsCall, words: &str) -> Option<()> {
        if call.spends_plan() {
            self.store.next = NextCall::Works;
        }
        match call {
            WordsCall::Store => self.make_store(line),
            WordsCall::Fuse => fuse(self.alloc, line, words),
            WordsCall::Landing => landing::write::<OneSide>(self.alloc, line, words),
            WordsCall::Load => self.store.load(line),
            WordsCall::Next => self.plan(line, words),
            WordsCall::Create => self.begin(line, Beginning::Create(words)),
            WordsCall::Start => self.begin(line, Beginning::Start),
            WordsCall::Close => self.close(line),
            WordsCall::Many(call) => self.call_many(line, call, words),
            call => self.call_desk(line, call, words),
        }
    }

    /// Performs a call that takes bytes, and writes its answer.
    fn call_with(&mut self, line: &mut Line, call: BytesCall, bytes: &[u8]) -> Option<()> {
        match call {
            BytesCall::Live => self.write_live(line, bytes),
            BytesCall::Save => self.save(line, bytes),
            call => self.call_desk_with(line, call, bytes),
        }
    }

    /// Performs a call with words on the desk of the bench.
    fn call_desk(&mut self, line: &mut Line, call: WordsCall, words: &str) -> Option<()> {
        match &mut self.many {
            Some(desk) => desks::call(self.alloc, line, desk, call, words),
            None => desks::call(self.alloc, line, self.desk.as_mut()?, call, words),
        }
    }

    /// Performs a call with bytes on the desk of the bench.
    fn call_desk_with(&mut self, line: &mut Line, call: BytesCall, bytes: &[u8]) -> Option<()> {
        match &mut self.many {
            Some(desk) => desks::call_with(self.alloc, line, desk, call, bytes),
            None => desks::call_with(self.alloc, line, self.desk.as_mut()?, call, bytes),
        }
    }

    /// Performs `live BYTES`: writes the live sides, and tells if `bytes` are their record.
    fn write_live(&self, line: &mut Line, bytes: &[u8]) -> Option<()> {
        match &self.many {
            Some(desk) => write_sides(self.alloc, line, desk.sides(), bytes),
            None => write_side(self.alloc, line, self.desk.as_ref()?.side(), bytes),
        }
        Some(())
    }

    /// Performs a call that only a desk of many transactions has.
    fn call_many(&mut self, line: &mut Line, call: ManyCall, words: &str) -> Option<()> {
        match call {
            ManyCall::Create => self.begin_many(line, Beginning::Create(words)),
            ManyCall::Start => self.begin_many(line, Beginning::Start),
            ManyCall::Fuse => fuse_many(self.alloc, line, words),
            ManyCall::Landing => landing::write::<ManySides>(self.alloc, line, words),
            call => transactions::call(self.alloc, line, self.many.as_mut()?, call, words),
        }
    }

    /// Performs `store`: puts an empty store on the bench.
    fn make_store(&mut self, line: &mut Line) -> Option<()> {
        drop(self.desk.take());
        drop(self.many.take());
        self.store.make(line);
        Some(())
    }

    /// Performs `save`: saves `bytes` in the store of the bench, or else saves its desk.
    fn save(&mut self, line: &mut Line, bytes: &[u8]) -> Option<()> {
        if self.store.memory.is_some() {
            return self.store.save(line, bytes);
        }
        let plan = self.store.next;
        self.store.next = NextCall::Works;
        match &mut self.many {
            Some(desk) => desks::save_under(self.alloc, line, desk, plan),
            None => desks::save_under(self.alloc, line, self.desk.as_mut()?, plan),
        }
        Some(())
    }

    /// Performs `next PLAN`: plans the next call of the store, which a desk may have.
    fn plan(&mut self, line: &mut Line, words: &str) -> Option<()> {
        if self.store.memory.is_some() {
            return self.store.plan(line, words);
        }
        let next = plan_of(words)?;
        self.plan_of_desk(next)?;
        self.store.next = next;
        line.text("planned");
        Some(())
    }

    /// Plans the next call of the desk's store. This takes no memory.
    fn plan_of_desk(&mut self, next: NextCall) -> Option<()> {
        marks::begin_quiet(self.alloc);
        match &mut self.many {
            Some(desk) => desk.set_next(next),
            None => self.desk.as_mut()?.set_next(next),
        }
        marks::end_quiet(self.alloc);
        Some(())
    }

    /// Performs `create ROLE GROUP TRANSACTION` or `start`: begins a desk over the store of the bench.
    fn begin(&mut self, line: &mut Line, beginning: Beginning<'_>) -> Option<()> {
        put_desk_on_bench(
            self.alloc,
            line,
            &mut self.store.memory,
            &mut self.desk,
            beginning,
        )
    }

    /// Performs `create-many ROLE` or `start-many`: begins a desk of many transactions over the store of the bench.
    fn begin_many(&mut self, line: &mut Line, beginning: Beginning<'_>) -> Option<()> {
        put_desk_on_bench(
            self.alloc,
            line,
            &mut self.store.memory,
            &mut self.many,
            beginning,
        )
    }

    /// Performs `close`: puts the store of the desk on the bench, with all that is committed in it.
    fn close(&mut self, line: &mut Line) -> Option<()> {
        let store = match self.many.take() {
            Some(desk) => desk.close(),
            None => self.desk.take()?.close(),
        };
        drop(self.store.memory.replace(store));
        line.text("closed");
        Some(())
    }
}
