//! Begins desks over a store in memory, and repeats that while an allocation is refused.

use crate::desk_kind::DeskKind;
use crate::desk_view::DeskView;
use crate::memory_desk::{Begun, MemoryDesk};
use crate::words::write_fault;
use ill_core::State;
use ill_saved::{AnyDesk, DeskFault, MemoryStore};
use ill_saved_kit::{Line, Tries, is_as_seen, seen};
use ill_test_kit::marks::TRIES;
use std::alloc::Global;

/// The way in which a desk begins.
#[derive(Clone, Copy)]
pub enum Beginning<'a> {
    /// The desk is created. The words tell its role and perhaps its transaction.
    Create(&'a str),
    /// The desk starts from the record in its store.
    Start,
}

/// Begins a desk over `store`, and puts it into `desk`. If that fails, puts the store back into `store`.
pub fn put_desk_on_bench<H: DeskKind>(
    alloc: Global,
    line: &mut Line,
    store: &mut Option<MemoryStore>,
    desk: &mut Option<MemoryDesk<H>>,
    beginning: Beginning<'_>,
) -> Option<()> {
    match begun(alloc, store.take()?, beginning)? {
        Ok(new) => {
            line.text("done");
            DeskView::of(alloc, &new, None).write(line);
            drop(desk.replace(new));
        }
        Err((fault, back)) => {
            write_fault(line, fault, State::Idle);
            drop(store.replace(back));
        }
    }
    Some(())
}

/// Begins a desk, and repeats that while an allocation is refused. A refused call must hand the store back unchanged.
fn begun<H: DeskKind>(
    alloc: Global,
    store: MemoryStore,
    beginning: Beginning<'_>,
) -> Option<Begun<H>> {
    let before = seen(alloc, &store);
    let tries = Tries::of(alloc, size_of(&before));
    let mut store = store;
    for _ in 0..TRIES {
        let begun = try_begin(alloc, &tries, store, beginning)?;
        if !tries.is_refused(matches!(&begun, Err((DeskFault::OutOfMemory, _)))) {
            return Some(begun);
        }
        let (fault, back) = match begun {
            Ok(desk) => return Some(Ok(desk)),
            Err(refused) => refused,
        };
        if !is_as_seen(alloc, &back, &before) {
            return Some(Err((fault, back)));
        }
        store = back;
    }
    None
}

/// Returns about the count of octets in a store. Its text has about four characters for each octet.
fn size_of(seen: &Option<String>) -> usize {
    seen.as_ref().map_or(0, |text| text.len() / 4)
}

/// Begins the marks of a try, and begins a desk in it.
fn try_begin<H: DeskKind>(
    alloc: Global,
    tries: &Tries,
    store: MemoryStore,
    beginning: Beginning<'_>,
) -> Option<Begun<H>> {
    match beginning {
        Beginning::Create(words) => H::create(alloc, tries, store, words),
        Beginning::Start => {
            tries.begin();
            Some(AnyDesk::start(alloc, store))
        }
    }
}
