//! The sides of a desk as a list.

ghost use Rattle.std.specs.Prelude.{◌≡◌, ◌++◌, true, map, slice_get, IfOk, OnOk};
ghost use Rattle.std.specs.Option.{option_to_list};
ghost use Rattle.ill_record.specs.Sides.{are_apart};
ghost use Rattle.ill_saved.specs.ManySides.{sides_held};
ghost use Rattle.ill_words.specs.Sides.{held_of};

use ill_saved::{Desk, Side, Sides, Store};
use ill_values::OutOfMemory;
use std::alloc::Global;

/// Returns all sides, in the order in which they were begun.
pub fn all_of<'a>(alloc: Global, sides: &'a Sides) -> Result<Vec<&'a Side>, OutOfMemory>
    ensures { IfOk result (λ all. map (λ side. side.now) all.items ≡ sides.now.sides) }
{
    let mut all = Vec::new(alloc);
    for place in 0..sides.len() {
        push_at(&mut all, sides, place)?;
    }
    Ok(all)
}

/// Appends the side at `place` of `sides` to `all`, if there is one.
fn push_at<'a>(all: &mut Vec<&'a Side>, sides: &'a Sides, place: usize) -> Result<(), OutOfMemory>
    ensures { OnOk result (map (λ side. side.now) all.new.items
        ≡ map (λ side. side.now) all.old.items ++ option_to_list (slice_get sides.now.sides place)) }
{
    if let Some(side) = sides.at(place) {
        all.push(side)?;
    }
    Ok(())
}

/// A side of a desk, with the number of its released messages.
#[derive(Clone, Copy)]
pub struct HeldSide<'a> {
    pub side: &'a Side,
    pub released: u8,
}

/// Returns all sides of `desk` with the numbers of their released messages, in the order in which they were begun.
pub fn all_held<'a, S: Store>(
    alloc: Global,
    desk: &'a Desk<S>,
) -> Result<Vec<HeldSide<'a>>, OutOfMemory>
    ensures { IfOk result (λ all. map held_of all.items ≡ desk.now.live.held) }
{
    let mut all = Vec::new(alloc);
    for place in 0..desk.sides().len() {
        push_held_at(&mut all, desk, place)?;
    }
    Ok(all)
}

/// Appends the side at `place` of `desk` to `all`, with the number of its released messages, if there is one.
fn push_held_at<'a, S: Store>(
    all: &mut Vec<HeldSide<'a>>,
    desk: &'a Desk<S>,
    place: usize,
) -> Result<(), OutOfMemory>
    requires apart { are_apart (sides_held desk.now.live).sides ≡ true }
    ensures { OnOk result (map held_of all.new.items
        ≡ map held_of all.old.items ++ option_to_list (slice_get desk.now.live.held place)) }
{
    if let Some(side) = desk.sides().at(place) {
        let released = desk.released(side.txn());
        all.push(HeldSide { side, released })?;
    }
    Ok(())
}
