//! The places of things in a list, by their keys. So the things with a key are found without a look at the others.

ghost use Rattle.std.specs.Prelude.{◌≡◌, ◌∷◌, ℕ, List, [], Option, Some, option_copied, option_map, slice_get, IfOk, OnOk};
ghost use Rattle.ill_beside.specs.Places.{places_of, ArePlaces, Enters, EntersAmong};

use ill_values::OutOfMemory;
use indexmap::IndexMap;
use std::alloc::Global;

/// A form of keys, for things of one type.
pub(crate) trait KeyForm<T> {
    /// Gives the key of a thing, if the thing has one.
    ghost key_of: { T → Option (List ℕ) };

    /// Returns the key of `thing`, if it has one.
    fn key_of(&self, alloc: Global, thing: &T) -> Result<Option<Vec<u8>>, OutOfMemory>
        ensures { IfOk result (λ key. option_map (λ k. k.items) key ≡ key_of thing.now) };
}

/// The places of things in a list, by their keys.
#[derive(Drop)]
pub(crate) struct Places {
    /// For each key, the places of the things with it, in their order.
    by_key: IndexMap<Vec<u8>, Vec<usize>>,
}

impl Places {
    /// Returns the places in an empty list.
    pub(crate) fn none(alloc: Global) -> Places
        ensures { result.by_key.entries ≡ [] }
    {
        Places {
            by_key: IndexMap::new(alloc),
        }
    }

    /// Returns the places of `things`, by the keys that `form` gives them.
    pub(crate) fn of<T, K: KeyForm<T>>(
        alloc: Global,
        things: &[T],
        form: &K,
    ) -> Result<Places, OutOfMemory>
        ensures { IfOk result (λ places. ArePlaces K.key_of places.by_key.entries things.now) }
    {
        let mut places = Places::none(alloc);
        for (place, thing) in things.iter().enumerate() {
            let key = form.key_of(alloc, thing)?;
            enter_thing(&mut places.by_key, key, place)?;
        }
        Ok(places)
    }

    /// Returns the places of the things with this key, in their order.
    pub(crate) fn with_key(&self, key: &Vec<u8>) -> &[usize]
        ensures { result.now ≡ places_of self.now.by_key.entries key.now }
    {
        match self.by_key.get(key) {
            Some(places) => places,
            None => &[],
        }
    }
}

/// Enters the `place` of a thing after the other places of its `key`. If the thing has no key, enters nothing.
fn enter_thing(
    by_key: &mut IndexMap<Vec<u8>, Vec<usize>>,
    key: Option<Vec<u8>>,
    place: usize,
) -> Result<(), OutOfMemory>
    ensures { OnOk result (Enters (option_map (λ k. k.items) key) place by_key.old.entries by_key.new.entries) }
{
    match key {
        Some(key) => enter(by_key, key, place),
        None => Ok(()),
    }
}

/// Enters `place` after the other places of `key`.
fn enter(
    by_key: &mut IndexMap<Vec<u8>, Vec<usize>>,
    key: Vec<u8>,
    place: usize,
) -> Result<(), OutOfMemory>
    ensures { OnOk result (Enters (Some key.items) place by_key.old.entries by_key.new.entries) }
{
    if enter_among(by_key, &key, place)? {
        return Ok(());
    }
    let places = first_place(*by_key.allocator(), place)?;
    match by_key.insert(key, places) {
        Ok(_) => Ok(()),
        Err(_) => Err(OutOfMemory),
    }
}

/// Enters `place` after the other places of `key`, and returns true. If there are no other places, enters nothing and
/// returns false.
fn enter_among(
    by_key: &mut IndexMap<Vec<u8>, Vec<usize>>,
    key: &Vec<u8>,
    place: usize,
) -> Result<bool, OutOfMemory>
    ensures { IfOk result (λ is. EntersAmong key.now place is by_key.old.entries by_key.new.entries) }
{
    match by_key.get_mut(key) {
        Some(places) => {
            places.push(place)?;
            Ok(true)
        }
        None => Ok(false),
    }
}

/// Returns a list that has `place` alone.
fn first_place(alloc: Global, place: usize) -> Result<Vec<usize>, OutOfMemory>
    ensures { IfOk result (λ places. places.items ≡ place ∷ []) }
{
    let mut places = Vec::new(alloc);
    places.push(place)?;
    Ok(places)
}

/// Returns the thing at `place` in `things`, if it is there.
pub(crate) fn thing_at<T>(things: &[T], place: usize) -> Option<&T>
    ensures { option_copied result ≡ slice_get things.now place }
{
    things.get(place)
}
