//! Tests a desk that starts from the longest record of one side.

use crate::desk_view::DeskView;
use crate::desks::write_begun;
use ill_saved::{Desk1, FileStore, Store, encode_record};
use ill_saved_kit::{Line, longest_side, written_and_read};
use ill_values::Number;
use std::alloc::Global;

/// The commands limit the file of a record to this many bytes.
const LIMIT: u32 = 65_535;

/// Saves the longest record in a file, and writes its size and the desk that starts from it. Then writes the answer of
/// a store whose limit is one byte too low.
pub fn write(rt: &HostRuntime, alloc: Global, line: &mut Line, path: &str) -> Option<()> {
    let size = save(&mut store(rt, alloc, path, LIMIT)?, alloc)?;
    line.show(&size);
    line.text(" bytes; started");
    write_started(rt, alloc, line, path)?;
    line.text("; a byte less ");
    write_start(alloc, line, store(rt, alloc, path, size.checked_sub(1)?)?);
    Some(())
}

/// Writes the answer of a desk that starts from `store`.
fn write_start<S: Store + Drop>(alloc: Global, line: &mut Line, store: S) {
    write_begun(line, Desk1::start(alloc, store));
}

/// Returns a store in the file at `path`.
fn store<'a>(
    rt: &'a HostRuntime,
    alloc: Global,
    path: &str,
    limit: u32,
) -> Option<FileStore<'a, HostRuntime>> {
    FileStore::at(rt, alloc, path, limit).ok()
}

/// Saves the longest record, and returns its size.
fn save<S: Store>(store: &mut S, alloc: Global) -> Option<u32> {
    let record = record(alloc)?;
    store.save(alloc, &record).ok()?;
    u32::try_from(record.len()).ok()
}

/// Returns the longest record.
fn record(alloc: Global) -> Option<Vec<u8>> {
    encode_record(alloc, &longest_side(alloc)?).ok()
}

/// Writes the desk that starts from the longest record.
fn write_started(rt: &HostRuntime, alloc: Global, line: &mut Line, path: &str) -> Option<()> {
    let desk = Desk1::start(alloc, store(rt, alloc, path, LIMIT)?).ok()?;
    let written = write_desk(alloc, line, &desk);
    drop(desk);
    written
}

/// Writes the view of a desk, and the size of its last message.
fn write_desk<S: Store + Drop>(alloc: Global, line: &mut Line, desk: &Desk1<S>) -> Option<()> {
    DeskView::of(alloc, desk, None).write(line);
    written_and_read(alloc, desk.side()).map(drop).ok()?;
    let message = desk.message(alloc, Number::new(255)?).ok()?;
    line.text(", the last message ");
    line.show(&message.len());
    Some(())
}
