//! Tests of what each crash leaves of a record.

use ill_disk::{Disk, DiskFault, DiskWithPast, MemoryDisk};
use ill_store::{DiskStore, Store, StoreFault};
use std::alloc::Global;
use std::process::Abort;
use std::test::Fail;

/// The path of the record.
const RECORD: &[u8] = b"record";

/// The path at which a save makes its new file.
const QUARANTINED: &[u8] = b"record.new";

/// Returns what a store on this disk loads.
fn loaded(alloc: Global, disk: MemoryDisk) -> Result<Option<Vec<u8>>, StoreFault> {
    let mut store = DiskStore::at(alloc, disk, RECORD, 100)?;
    store.load(alloc)
}

/// Returns a new disk on which a store has saved these bytes.
fn disk_with(alloc: Global, bytes: &[u8]) -> Result<MemoryDisk, Fail> {
    let disk = MemoryDisk::new(alloc)?;
    let mut store = DiskStore::at(alloc, disk, RECORD, 100)?;
    store.save(alloc, bytes)?;
    Ok(store.close())
}

/// Returns true if `found` is a record of these bytes.
pub fn is_found(found: &Option<Vec<u8>>, bytes: &[u8]) -> bool {
    matches!(found, Some(record) if record.as_slice() == bytes)
}

/// Returns true if the disk that a crash leaves with the list of names `which` has a record of these bytes.
fn has_after_crash(
    alloc: Global,
    disk: &MemoryDisk,
    which: usize,
    bytes: &[u8],
) -> Result<bool, Fail> {
    let after = disk.after_crash(alloc, which)?;
    Ok(is_found(&loaded(alloc, after)?, bytes))
}

/// Returns true if each disk that a crash leaves has the record `one` or `two`.
fn leaves_one_or_two(alloc: Global, disk: &MemoryDisk) -> Result<bool, Fail> {
    for which in 0..disk.count_lists() {
        if !has_after_crash(alloc, disk, which, b"one")?
            && !has_after_crash(alloc, disk, which, b"two")?
        {
            return Ok(false);
        }
    }
    Ok(true)
}

/// Performs a save of `two` that ends before the flush of the names.
fn cut_save(disk: &mut MemoryDisk) -> Result<(), DiskFault> {
    disk.create_new(QUARANTINED, b"two")?;
    disk.flush(QUARANTINED)?;
    disk.rename(QUARANTINED, RECORD)
}

/// Returns a disk on which a store has saved `one` and then `two`, with its past since `one`.
fn disk_with_two_saves(alloc: Global) -> Result<DiskWithPast, Fail> {
    let disk = DiskWithPast::new(alloc, disk_with(alloc, b"one")?);
    let mut store = DiskStore::at(alloc, disk, RECORD, 100)?;
    store.save(alloc, b"two")?;
    Ok(store.close())
}

/// Makes a record of the bytes `one`, and flushes its name alone.
fn create_unflushed(disk: &mut MemoryDisk) -> Result<(), DiskFault> {
    disk.create_new(RECORD, b"one")?;
    disk.flush_names()
}

/// Tests that calls fail on a disk that has the record `one` alone.
fn expect_failures(rt: &impl Abort, alloc: Global, disk: &mut MemoryDisk) {
    assert!(rt;
        disk.create_new(RECORD, b"two").is_err(),
        "create over a file"
    );
    assert!(rt; disk.flush(QUARANTINED).is_err(), "flush of none");
    assert!(rt; disk.rename(QUARANTINED, RECORD).is_err(), "rename of none");
    assert!(rt; disk.remove(QUARANTINED).is_err(), "remove of none");
    assert!(rt;
        disk.read(alloc, RECORD, 2).is_err(),
        "read beyond the limit"
    );
}

#[test]
fn a_new_disk_has_no_record(rt: HostRuntime) -> Result<(), Fail> {
    let disk = MemoryDisk::new(rt.alloc())?;
    assert!(rt; loaded(rt.alloc(), disk)?.is_none(), "a new disk");
    Ok(())
}

#[test]
fn a_record_that_was_saved_outlasts_each_crash(rt: HostRuntime) -> Result<(), Fail> {
    let disk = disk_with(rt.alloc(), b"one")?;
    assert!(rt; disk.count_lists() == 1, "one list");
    assert!(rt;
        has_after_crash(rt.alloc(), &disk, 0, b"one")?,
        "after a crash"
    );
    Ok(())
}

#[test]
fn a_save_that_is_cut_leaves_one_record_whole(rt: HostRuntime) -> Result<(), Fail> {
    let mut disk = disk_with(rt.alloc(), b"one")?;
    cut_save(&mut disk)?;
    assert!(rt; disk.count_lists() == 4, "four lists");
    for which in 0..4 {
        let wanted: &[u8] = if which < 2 { b"one" } else { b"two" };
        assert!(rt;
            has_after_crash(rt.alloc(), &disk, which, wanted)?,
            "list {which}"
        );
    }
    Ok(())
}

#[test]
fn a_save_that_is_cut_at_any_moment_leaves_one_record_whole(rt: HostRuntime) -> Result<(), Fail> {
    let disk = disk_with_two_saves(rt.alloc())?;
    assert!(rt; disk.past().len() == 5, "five calls");
    for moment in disk.past() {
        assert!(rt; leaves_one_or_two(rt.alloc(), moment)?, "one record");
    }
    assert!(rt; disk.disk().count_lists() == 1, "one list in the end");
    Ok(())
}

#[test]
fn a_file_that_is_not_flushed_loses_its_bytes(rt: HostRuntime) -> Result<(), Fail> {
    let mut disk = MemoryDisk::new(rt.alloc())?;
    create_unflushed(&mut disk)?;
    assert!(rt;
        has_after_crash(rt.alloc(), &disk, 0, b"")?,
        "after a crash"
    );
    Ok(())
}

#[test]
fn calls_fail_where_no_file_stands(rt: HostRuntime) -> Result<(), Fail> {
    let mut disk = disk_with(rt.alloc(), b"one")?;
    expect_failures(&rt, rt.alloc(), &mut disk);
    Ok(())
}

#[test]
fn a_record_that_was_removed_is_not_found(rt: HostRuntime) -> Result<(), Fail> {
    let mut disk = disk_with(rt.alloc(), b"one")?;
    disk.remove(RECORD)?;
    assert!(rt; loaded(rt.alloc(), disk)?.is_none(), "a removed record");
    Ok(())
}
