//! A set of paths.

ghost use Rattle.std.specs.Prelude.{◌≡◌, [], OnOk};
ghost use Rattle.ill_message_disk.specs.Spots.{is_none_of};
ghost use Rattle.ill_message_disk.specs.TakenPaths.{GetsPath, is_same_path};
ghost use Rattle.indexmap.specs.IndexSet.{insert_key};

use indexmap::IndexSet;
use std::alloc::{AllocError, Global};
use std::marker::Model;

/// A set of paths.
#[derive(Drop)]
pub(crate) struct PathSet {
    paths: IndexSet<Vec<u8>>,
}

// The value of a set is the list of its paths.
impl Model for PathSet {
    ghost use Rattle.std.specs.Prelude.{ℕ, List, map};

    ghost Value = { List (List ℕ) };

    ghost view = { λ set. map (λ path. path.items) set.paths.keys };
}

impl PathSet {
    /// Returns a set without paths.
    pub(crate) fn new(alloc: Global) -> PathSet
        ensures { result ≡ [] }
    {
        PathSet {
            paths: IndexSet::new(alloc),
        }
    }

    /// Returns true if the set has not got `path`.
    pub(crate) fn lacks(&self, path: &[u8]) -> bool
        ensures { result ≡ is_none_of self.now path.now }
    {
        !self.paths.contains(path)
    }

    /// Puts `path` into the set.
    pub(crate) fn put(&mut self, path: &[u8]) -> Result<(), AllocError>
        ensures { OnOk result (GetsPath path.now self.old self.new) }
    {
        let path = Vec::from_slice(*self.paths.allocator(), path)?;
        insert_into(&mut self.paths, path)
    }
}

/// Inserts `path` into `paths`.
fn insert_into(paths: &mut IndexSet<Vec<u8>>, path: Vec<u8>) -> Result<(), AllocError>
    ensures { OnOk result (paths.new.keys ≡ insert_key is_same_path paths.old.keys path) }
{
    match paths.insert(path) {
        Ok(_) => Ok(()),
        Err(_) => Err(AllocError),
    }
}
