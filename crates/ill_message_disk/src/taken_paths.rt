//! The paths of the message files of a run, in sets.

ghost use Rattle.std.specs.Prelude.{◌≡◌, ◌∷◌, ◌++◌, [], List, Option, None, Some, IfSome, OnOk};
ghost use Rattle.ill_message_disk.specs.Spots.{SpotOf, is_none_of};
ghost use Rattle.ill_message_disk.specs.TakenPaths as taken;
ghost use Rattle.ill_message_disk.specs.TakenPaths.{AreKnown, GetsPaths, GetsThree, Shares, is_free, is_left, leaves_places};

use crate::path_set::PathSet;
use crate::spot::Spot;
use std::alloc::{AllocError, Global};
use std::marker::Model;
use std::mem;

/// The paths of the message files of a run, in sets. A look for a path takes no longer if there are more message files.
#[derive(Drop)]
pub(crate) struct TakenPaths {
    /// The paths at which the files of the message files may stand.
    places: PathSet,
    /// The paths that the message files leave or take.
    moves: PathSet,
    /// The paths at which two message files or more would wait if they were given back.
    shared: PathSet,
}

// The value of the sets has the paths of each set.
impl Model for TakenPaths {
    ghost Value = { taken.TakenOf };

    ghost view = { λ t. record { places = t.places; moves = t.moves; shared = t.shared } };
}

impl TakenPaths {
    /// Returns the paths of a run without message files.
    pub(crate) fn new(alloc: Global) -> TakenPaths
        ensures { result ≡ record { places = []; moves = []; shared = [] } }
    {
        TakenPaths {
            places: PathSet::new(alloc),
            moves: PathSet::new(alloc),
            shared: PathSet::new(alloc),
        }
    }

    /// Returns true if a message file takes no path of these message files, and none of these takes one of it.
    pub(crate) fn is_free(&self, spot: &Spot) -> bool
        ensures { result ≡ is_free self.now spot.now }
    {
        leaves_places(&self.places, spot) && is_left(&self.moves, spot)
    }

    /// Returns true if the waiting path of `spot` is not shared. Then at most one message file of the sets has come
    /// under its name.
    pub(crate) fn is_alone(&self, spot: &Spot) -> bool
        ensures { result ≡ is_none_of self.now.shared spot.now.waiting }
    {
        self.shared.lacks(spot.waiting())
    }

    /// Puts the paths of a message file into the sets.
    pub(crate) fn put(&mut self, spot: &Spot) -> Result<(), AllocError>
        ensures { OnOk result (GetsPaths spot.now self.old self.new) }
    {
        share(&mut self.shared, &self.places, spot.waiting())?;
        put_three(
            &mut self.places,
            spot.claimed(),
            spot.waiting(),
            spot.quarantined(),
        )?;
        put_three(
            &mut self.moves,
            spot.reason(),
            spot.claimed(),
            spot.quarantined(),
        )
    }
}

/// Returns true if no path that a message file leaves or takes is one of `places`.
fn leaves_places(places: &PathSet, spot: &Spot) -> bool
    ensures { result ≡ leaves_places places.now spot.now }
{
    places.lacks(spot.reason()) && places.lacks(spot.claimed()) && places.lacks(spot.quarantined())
}

/// Returns true if none of `moves` is a path at which the file of a message file may stand.
fn is_left(moves: &PathSet, spot: &Spot) -> bool
    ensures { result ≡ is_left moves.now spot.now }
{
    moves.lacks(spot.claimed()) && moves.lacks(spot.waiting()) && moves.lacks(spot.quarantined())
}

/// Puts `path` into `shared`, if `places` has it.
fn share(shared: &mut PathSet, places: &PathSet, path: &[u8]) -> Result<(), AllocError>
    ensures { OnOk result (Shares path.now places.now shared.old shared.new) }
{
    if places.lacks(path) {
        return Ok(());
    }
    shared.put(path)
}

/// Puts three paths into a set.
fn put_three(set: &mut PathSet, one: &[u8], two: &[u8], three: &[u8]) -> Result<(), AllocError>
    ensures { OnOk result (GetsThree one.now two.now three.now set.old set.new) }
{
    set.put(three)?;
    set.put(two)?;
    set.put(one)
}

/// Returns the sets of `taken`, if there are any, and leaves `None` there.
pub(crate) fn take_sets(taken: &mut Option<TakenPaths>) -> Option<TakenPaths>
    ensures taken { result ≡ taken.old }
    ensures none { taken.new ≡ None }
{
    mem::replace(taken, None)
}

/// Returns the sets with the paths of a message file, if there are sets and a message file. Returns `None` if memory
/// runs out.
pub(crate) fn with_paths(taken: Option<TakenPaths>, spot: &Option<Spot>) -> Option<TakenPaths>
    ensures { (spots : List (Option SpotOf)) → AreKnown taken spots → AreKnown result (spots ++ spot.now ∷ []) }
{
    match spot {
        Some(spot) => with_spot(taken, spot),
        None => taken,
    }
}

/// Returns the sets with the paths of a message file, if there are sets. Returns `None` if memory runs out.
fn with_spot(taken: Option<TakenPaths>, spot: &Spot) -> Option<TakenPaths>
    ensures { (spots : List (Option SpotOf)) → AreKnown taken spots → AreKnown result (spots ++ Some spot.now ∷ []) }
{
    match taken {
        Some(taken) => put_into(taken, spot),
        None => None,
    }
}

/// Returns the sets `taken` with the paths of a message file, or `None` if memory runs out.
fn put_into(taken: TakenPaths, spot: &Spot) -> Option<TakenPaths>
    ensures { IfSome result (λ sets. GetsPaths spot.now taken sets) }
{
    let mut taken = taken;
    match taken.put(spot) {
        Ok(()) => Some(taken),
        Err(_) => None,
    }
}
