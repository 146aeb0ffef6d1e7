//! The bench has a desk in memory, between two visits: only its store.

use crate::forms::{action, txn_before};
use crate::visit::{Visit, close, open};
use ill_desk_kit::plan_of;
use ill_post::stamp_of;
use ill_saved::{Desk, DeskFault, MemoryStore, NextCall};
use ill_session_kit::engine::print_fault;
use ill_session_kit::telling::{print_line, print_value};
use ill_session_kit::words::Word;
use ill_session_kit::{Performs, Phrase};
use ill_test_kit::Page;
use ill_test_kit::marks::{TRIES, tried};
use ill_values::OutOfMemory;
use ill_words::words::who;
use std::alloc::Global;
use std::mem::replace;

/// The store of a desk, and the plan of its next call in a visit.
#[derive(Drop)]
pub struct Bench {
    /// The allocator of all values.
    alloc: Global,
    /// The store, if a desk has begun.
    store: Option<MemoryStore>,
    /// The plan of the store's next call in the next visit.
    plan: NextCall,
}

impl Bench {
    /// Returns a bench without a desk.
    pub fn new(alloc: Global) -> Bench {
        Bench {
            alloc,
            store: None,
            plan: NextCall::Works,
        }
    }

    /// Performs `desk ROLE`: a desk begins, and is saved.
    fn begin_desk(&mut self, words: &[Word]) -> Option<()> {
        let role = who(words.first()?.text.as_bytes())?;
        match Desk::create(self.alloc, MemoryStore::new(self.alloc), role) {
            Ok(mut desk) => {
                let saved = desk.save(self.alloc);
                close(desk, &mut self.store);
                saved.ok()
            }
            Err(_) => None,
        }
    }

    /// Performs `next PLAN`: the next call of the store in the next visit is planned.
    fn plan(&mut self, words: &[Word]) -> Option<()> {
        self.plan = plan_of(words.first()?.text.as_str())?;
        Some(())
    }

    /// Performs `act GROUP TRANSACTION [DAY] WORDS` if `is_act` is true, and else `take BYTES`. The desk acts or takes
    /// a message, and is saved.
    fn call(&mut self, page: &mut Page, is_act: bool, phrase: Phrase<'_>) -> Option<()> {
        let mut desk = open(self.alloc, &mut self.store)?;
        let done = if is_act {
            act(self.alloc, &mut desk, phrase.words)
        } else {
            take(self.alloc, &mut desk, phrase)
        };
        let saved = desk.save(self.alloc);
        close(desk, &mut self.store);
        print_value(page, &done?);
        saved.ok()
    }

    /// Performs `stamp GROUP TRANSACTION`: prints the stamp of the loan.
    fn print_stamp(&mut self, page: &mut Page, words: &[Word]) -> Option<()> {
        let alloc = self.alloc;
        let (txn, _) = txn_before(alloc, words)?;
        let desk = open(alloc, &mut self.store)?;
        let stamp = tried(alloc, OutOfMemory, || {
            stamp_of(alloc, desk.sides().get(&txn))
        });
        close(desk, &mut self.store);
        print_line(page, "=", stamp.ok()?.as_str());
        Some(())
    }

    /// Performs a visit between marks, and repeats it while an allocation is refused. Then judges the refused tries.
    fn visit(&mut self, page: &mut Page, phrase: Phrase<'_>) -> Option<()> {
        let plan = replace(&mut self.plan, NextCall::Works);
        let mut tries = Vec::new(self.alloc);
        for _ in 0..TRIES {
            let seen = Visit::made(self.alloc, &mut self.store, plan, phrase)?;
            if !seen.call.was_refused {
                seen.tell(page);
                print_faults(page, &tries, &seen);
                return Some(());
            }
            tries.push(seen).ok()?;
        }
        None
    }
}

/// Prints what refused tries of the visit `whole` have spoiled.
fn print_faults(page: &mut Page, tries: &[Visit<'_>], whole: &Visit<'_>) {
    for seen in tries {
        if let Some(words) = seen.fault(whole) {
            print_fault(page, words);
        }
    }
}

/// Performs the action that `words` encode.
fn act(
    alloc: Global,
    desk: &mut Desk<MemoryStore>,
    words: &[Word],
) -> Option<Result<(), DeskFault>> {
    let (txn, words) = txn_before(alloc, words)?;
    Some(desk.act(alloc, &txn, &action(alloc, words)?))
}

/// Takes the message of these bytes.
fn take(
    alloc: Global,
    desk: &mut Desk<MemoryStore>,
    phrase: Phrase<'_>,
) -> Option<Result<(), DeskFault>> {
    let bytes = phrase.names.bytes(phrase.words)?;
    Some(desk.take_bytes(alloc, &bytes).map(|_| ()))
}

impl Performs for Bench {
    /// Begins a case: there is no desk, and nothing is planned.
    fn begin(&mut self) -> Option<()> {
        drop(self.store.take());
        self.plan = NextCall::Works;
        Some(())
    }

    /// Performs the call that `word` names, on the words of `phrase`. Returns None if it is no call of the bench.
    fn perform(&mut self, page: &mut Page, word: &str, phrase: Phrase<'_>) -> Option<()> {
        match word {
            "desk" => self.begin_desk(phrase.words),
            "next" => self.plan(phrase.words),
            "act" => self.call(page, true, phrase),
            "take" => self.call(page, false, phrase),
            "stamp" => self.print_stamp(page, phrase.words),
            "post" => self.visit(page, phrase),
            _ => None,
        }
    }

    /// Does nothing after the last case.
    fn end(&mut self) -> Option<()> {
        Some(())
    }
}
