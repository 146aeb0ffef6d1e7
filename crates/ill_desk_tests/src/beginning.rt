//! Begins desks over a store in memory, by the engine of `new`.

use crate::committed::print_committed;
use crate::memory::Memory;
use ill_desk::new::run_desk_new;
use ill_desk_kit::plan_of;
use ill_saved::MemoryStore;
use ill_session_kit::Call;
use ill_session_kit::words::Word;
use ill_test_kit::Page;
use ill_text::fault::ToolFault;
use ill_words::words::who;
use std::alloc::Global;

/// Performs `ROLE STORE`: begins a desk of this role, and prints the answer. Then prints the state of its sides, or the
/// committed bytes of the store that was handed back.
///
/// STORE is the plan of a new store: `works`, `fails-old` or `fails-new`. Or it is `again`, which takes the store of
/// the old memory.
pub fn begin(
    alloc: Global,
    page: &mut Page,
    memory: &mut Option<Memory>,
    call: &mut Call<'_>,
) -> Option<()> {
    let [role, store] = call.words else {
        return None;
    };
    let role = who(role.text.as_bytes())?;
    let store = store_of(alloc, memory, store)?;
    match run_desk_new(alloc, store, role, &mut call.output) {
        Ok(desk) => {
            let begun = Memory::Desk(desk);
            call.print_answer(page, &Ok::<(), ToolFault>(()));
            begun.print_begun(page);
            drop(memory.replace(begun));
            Some(())
        }
        Err((fault, mut store)) => {
            call.print_answer(page, &Err::<(), ToolFault>(fault));
            print_committed(alloc, page, call.names, &mut store)
        }
    }
}

/// Returns the store that `word` names. The memory is emptied.
fn store_of(alloc: Global, memory: &mut Option<Memory>, word: &Word) -> Option<MemoryStore> {
    let before = memory.take();
    if word.is("again") {
        before.and_then(Memory::into_store)
    } else {
        drop(before);
        new_store(alloc, word)
    }
}

/// Returns an empty store whose next call is planned.
fn new_store(alloc: Global, plan: &Word) -> Option<MemoryStore> {
    let next = plan_of(plan.text.as_str())?;
    let mut store = MemoryStore::new(alloc);
    store.set_next(next);
    Some(store)
}
