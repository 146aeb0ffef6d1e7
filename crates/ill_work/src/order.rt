//! Puts the loans of a desk in the order of their work, and counts the loans with one kind.

ghost use Rattle.std.specs.Prelude.{◌≡◌, map, IfOk, IsPermutation};
ghost use Rattle.std.specs.List.Sorted.{IsNonDecreasingBy};
ghost use Rattle.ill_work.specs.Order.{count_of, has_work, most_pressing_first, urgency_on};

use crate::work::Work;
use ill_saved::{Side, Sides};
use ill_values::{Day, OutOfMemory};
use ill_words::waiting::most_urgent_first;
use std::alloc::Global;

/// Returns all loans in the order of their work on the day `today`, the most pressing first. Loans with one kind of
/// work are in the order of their deadlines, and loans without a deadline last. Loans with equal deadlines stay in the
/// order in which they were begun. A due date is soon if it is at most `ahead` days away.
pub fn most_pressing_first<'a>(
    alloc: Global,
    sides: &'a Sides,
    today: Day,
    ahead: u32,
) -> Result<Vec<&'a Side>, OutOfMemory>
    ensures list { IfOk result (λ ordered. map (λ side. side.now) ordered.items
        ≡ most_pressing_first today ahead sides.now.sides) }
    ensures kept { IfOk result (λ ordered. IsPermutation sides.now.sides (map (λ side. side.now) ordered.items)) }
    ensures rises { IfOk result (λ ordered. IsNonDecreasingBy (λ side. urgency_on today ahead side.now) ordered.items) }
{
    let mut ordered = most_urgent_first(alloc, sides)?;
    ordered.sort_by_cached_key(|side| Work::of(side, today, ahead).urgency())?;
    Ok(ordered)
}

/// Returns the number of loans of `sides` with the work `work` on the day `today`. A due date is soon if it is at most
/// `ahead` days away.
pub fn count(sides: &[&Side], work: Work, today: Day, ahead: u32) -> usize
    ensures { result ≡ count_of today ahead work (map (λ side. side.now) sides.now) }
{
    sides
        .iter()
        .filter(|side| has_work(side, work, today, ahead))
        .count()
}

/// Returns true if `work` is the work with `side` on the day `today`. A due date is soon if it is at most `ahead` days
/// away.
fn has_work(side: &Side, work: Work, today: Day, ahead: u32) -> bool
    ensures { result ≡ has_work today ahead work side.now }
{
    Work::of(side, today, ahead) == work
}
