//! The counts of the loans of a desk.

ghost use Rattle.std.specs.Prelude.{◌≡◌, map, count_by};
ghost use Rattle.ill_work.specs.declared.work.Work.TheVariants.{Over};
ghost use Rattle.ill_list.specs.List.{has_work, is_to_do, counts_of};

use crate::wanted::{Wanted, has_work, is_to_do};
use ill_saved::{SIDES_LIMIT, Side};
use ill_work::Work;

/// The counts of the loans at a desk.
#[derive(Clone, Copy, Debug, PartialEq, Eq, Hash)]
pub(crate) struct Counts {
    /// All loans.
    pub loans: usize,
    /// The loans that are not over.
    pub open_loans: usize,
    /// The loans that want a hand.
    pub to_do: usize,
    /// The number of further loans for which there is room.
    pub room: usize,
}

impl Counts {
    /// Returns the counts of `sides`. `wanted` has the day on which loans want a hand.
    pub(crate) fn of(sides: &[&Side], wanted: &Wanted) -> Counts
        ensures { result ≡ counts_of wanted.now (map (λ side. side.now) sides.now) }
    {
        let loans = sides.len();
        Counts {
            loans,
            open_loans: loans.saturating_sub(count_over(sides, wanted)),
            to_do: count_to_do(sides, wanted),
            room: SIDES_LIMIT.saturating_sub(loans),
        }
    }
}

/// Returns the number of loans of `sides` that are over.
fn count_over(sides: &[&Side], wanted: &Wanted) -> usize
    ensures { result ≡ count_by (has_work wanted.now Over) (map (λ side. side.now) sides.now) }
{
    sides
        .iter()
        .filter(|side| has_work(wanted, Work::Over, side))
        .count()
}

/// Returns the number of loans of `sides` that want a hand.
fn count_to_do(sides: &[&Side], wanted: &Wanted) -> usize
    ensures { result ≡ count_by (is_to_do wanted.now) (map (λ side. side.now) sides.now) }
{
    sides.iter().filter(|side| is_to_do(wanted, side)).count()
}
