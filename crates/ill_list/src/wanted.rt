//! The loans that a list is asked for.

ghost use Rattle.std.specs.Prelude.{◌≡◌, filter, map, IfOk};
ghost use Rattle.ill_beside.specs.Since.{annex_of};
ghost use Rattle.ill_list.specs.List.{has_work, is_due_before, is_in, is_listed, is_mine, is_of_list, is_to_do, is_wanted, listed_of, lists, work_of};

use crate::listed_news::has_news;
use ill_beside::annex::Annex;
use ill_core::State;
use ill_saved::Side;
use ill_values::{Day, OutOfMemory};
use ill_words::waiting::is_sooner;
use ill_work::Work;
use std::alloc::Global;

/// The loans to list, by their work.
#[derive(Clone, Copy, Debug, PartialEq, Eq, Hash)]
pub enum Which {
    /// All loans.
    All,
    /// The loans that are not over.
    Open,
    /// The loans that want a hand, and those that have news.
    Mine,
}

/// The conditions on the loans to list. A listed loan meets all of them.
#[derive(Clone, Copy, Debug, PartialEq, Eq, Hash)]
pub struct Wanted {
    /// The work with the loans.
    pub which: Which,
    /// The day of the work, if it is given. Without a day no date is past, and none is soon.
    pub today: Option<Day>,
    /// A due date is soon if it is at most this many days away.
    pub ahead: u32,
    /// The day, if it is given, before which the loans are due.
    pub due_before: Option<Day>,
    /// The state of the loans, if it is given.
    pub state: Option<State>,
    /// Set if lines have the actions that are possible.
    pub has_actions: bool,
    /// Set if each line has the note of its loan below it.
    pub has_notes: bool,
    /// Set if a line below that of each loan has the day since which the loan stands as it does.
    pub has_since: bool,
    /// The day, if it is given, since which news are printed: what came to the loans on this day or later.
    pub since: Option<Day>,
}

impl Which {
    /// Returns true if a list of these loans has a loan for this work.
    fn lists(self, work: Work) -> bool
        ensures { result ≡ lists self work }
    {
        match self {
            Which::All => true,
            Which::Open => work != Work::Over,
            Which::Mine => work.wants_a_hand(),
        }
    }

    /// Returns true for `Mine`, the list of the loans that want a hand or have news.
    pub(crate) fn is_mine(self) -> bool
        ensures { result ≡ is_mine self }
    {
        matches!(self, Which::Mine)
    }
}

/// Returns the kind of work with the loan of `side` on the day of the list.
fn work(wanted: &Wanted, side: &Side) -> Work
    ensures { result ≡ work_of wanted.now side.now }
{
    Work::on(side, wanted.today, wanted.ahead)
}

/// Returns true if `kind` is the kind of work with the loan of `side`.
pub(crate) fn has_work(wanted: &Wanted, kind: Work, side: &Side) -> bool
    ensures { result ≡ has_work wanted.now kind side.now }
{
    work(wanted, side) == kind
}

/// Returns true if the loan of `side` wants a hand.
pub(crate) fn is_to_do(wanted: &Wanted, side: &Side) -> bool
    ensures { result ≡ is_to_do wanted.now side.now }
{
    work(wanted, side).wants_a_hand()
}

/// Returns the loans of `sides` that are listed, in their order. `annex` has their news. The contract compares the
/// loans themselves.
pub(crate) fn listed_of<'a>(
    alloc: Global,
    sides: &[&'a Side],
    wanted: &Wanted,
    annex: &Annex,
) -> Result<Vec<&'a Side>, OutOfMemory>
    ensures { IfOk result (λ listed. map (λ side. side.now) listed.items
        ≡ listed_of wanted.now (annex_of annex.now).news (map (λ side. side.now) sides.now)) }
{
    Ok(kept_listed(alloc, sides, wanted, annex)?)
}

/// Returns the references to the loans of `sides` that are listed, in their order. The contract compares the
/// references.
fn kept_listed<'a>(
    alloc: Global,
    sides: &[&'a Side],
    wanted: &Wanted,
    annex: &Annex,
) -> Result<Vec<&'a Side>, OutOfMemory>
    ensures { IfOk result (λ listed. listed.items
        ≡ filter (λ side. is_listed wanted.now (annex_of annex.now).news side.now) sides.now) }
{
    Ok(
        sides
            .iter()
            .copied()
            .filter(|side| is_listed(wanted, annex, side))
            .collect(alloc)?,
    )
}

/// Returns true if a list has the loan of `side`, and the loan meets the conditions on its due date and its state.
fn is_listed(wanted: &Wanted, annex: &Annex, side: &Side) -> bool
    ensures { result ≡ is_listed wanted.now (annex_of annex.now).news side.now }
{
    is_of_list(wanted, annex, side) && is_wanted(wanted, side)
}

/// Returns true if a list has the loan of `side` for its work. The list of what wants a hand has it for its news too.
pub(crate) fn is_of_list(wanted: &Wanted, annex: &Annex, side: &Side) -> bool
    ensures { result ≡ is_of_list wanted.now (annex_of annex.now).news side.now }
{
    wanted.which.lists(work(wanted, side)) || (wanted.which.is_mine() && has_news(annex, side))
}

/// Returns true if the loan of `side` meets the conditions on its due date and its state.
pub(crate) fn is_wanted(wanted: &Wanted, side: &Side) -> bool
    ensures { result ≡ is_wanted wanted.now side.now }
{
    is_due_before(wanted.due_before, side.due()) && is_in(wanted.state, side.state())
}

/// Returns true if a loan is due before `day`, or if there is no such day.
fn is_due_before(day: Option<Day>, due: Option<Day>) -> bool
    ensures { result ≡ is_due_before day due }
{
    match day {
        Some(_) => is_sooner(due, day),
        None => true,
    }
}

/// Returns true if `state` is the wanted state, or if no state is wanted.
fn is_in(wanted: Option<State>, state: State) -> bool
    ensures { result ≡ is_in wanted state }
{
    match wanted {
        Some(wanted) => wanted == state,
        None => true,
    }
}
