//! Prints what is committed in a store.

use ill_saved::{MemoryStore, Store};
use ill_session_kit::Names;
use ill_session_kit::telling::print_bytes;
use ill_test_kit::Page;
use std::alloc::Global;

/// Prints the bytes that are committed, if there are any.
pub fn print_committed(
    alloc: Global,
    page: &mut Page,
    names: &Names,
    store: &mut MemoryStore,
) -> Option<()> {
    if let Some(committed) = store.load(alloc).ok()? {
        print_bytes(page, names, "landed", &committed);
    }
    Some(())
}
