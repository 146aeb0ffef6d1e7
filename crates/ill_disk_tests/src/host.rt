//! Tests of a store in a folder of the host's.

use crate::records::is_found;
use ill_disk::HostDisk;
use ill_store::{DiskStore, Store, StoreFault};
use std::alloc::{AllocError, Global};
use std::test::Fail;
use std::{env, fs};

/// Returns the path of the file `name` in `folder`.
fn path_in(alloc: Global, folder: &str, name: &str) -> Result<String, AllocError> {
    let mut path = String::from_str(alloc, folder)?;
    path.push('/')?;
    path.push_str(name)?;
    Ok(path)
}

/// Returns true if `store`, which has no record, loads what it saves, and loads no record of more than three bytes.
fn loads_what_it_saves<S: Store>(alloc: Global, store: &mut S) -> Result<bool, StoreFault> {
    let is_new = store.load(alloc)?.is_none();
    store.save(alloc, b"one")?;
    store.save(alloc, b"two")?;
    let is_last = is_found(&store.load(alloc)?, b"two");
    store.save(alloc, b"three")?;
    Ok(is_new && is_last && store.load(alloc).is_err())
}

/// Returns true if a store at `path`, where no file is, loads what it saves.
fn is_success_at(rt: &HostRuntime, path: &str) -> Result<bool, Fail> {
    let disk = HostDisk::at(rt, rt.alloc(), path)?;
    let mut store = DiskStore::at(rt.alloc(), disk, path.as_bytes(), 3)?;
    Ok(loads_what_it_saves(rt.alloc(), &mut store)?)
}

#[test]
fn a_store_in_a_folder_of_the_host_loads_what_it_saved(rt: HostRuntime) -> Result<(), Fail> {
    let folder = env::temp_dir(&rt)?;
    let path = path_in(rt.alloc(), folder.as_str(), "ill_store.record")?;
    let _ = fs::remove_file(&rt, path.as_str());
    assert!(rt; is_success_at(&rt, path.as_str())?, "a store at a path");
    fs::remove_file(&rt, path.as_str())?;
    Ok(())
}
