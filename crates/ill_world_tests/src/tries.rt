//! Calls worlds, and repeats a call while an allocation is refused.

use crate::performing::txn;
use ill_test_kit::Page;
use ill_test_kit::marks::{self, TRIES};
use ill_values::{OutOfMemory, TxnId};
use std::alloc::Global;

/// This line tells that a call with a refused allocation left a wrong state.
const CHANGED: &str = "CHANGED WITHOUT MEMORY";

/// A world of two sides or of two desks, as the tests call it.
pub trait Tried: Drop {
    /// An event of the world.
    type Event: Drop;

    /// The outcome of an event.
    type Outcome: Copy;

    /// Returns the world after `events`, from the first world on. Two sides are of `txn`.
    fn after(alloc: Global, txn: &TxnId, events: &[Self::Event]) -> Result<Self, OutOfMemory>;

    /// Performs an event, and returns its outcome.
    fn happen(&mut self, alloc: Global, event: &Self::Event) -> Result<Self::Outcome, OutOfMemory>;

    /// Performs a round.
    fn perform_round(&mut self, alloc: Global) -> Result<(), OutOfMemory>;

    /// Prints the part of the world that a test shows: both sides, with states, due dates and counts of messages.
    fn print(&self, alloc: Global, page: &mut Page) -> Option<()>;

    /// Prints all fields of the sides of the world. By these a test finds a change that `print` does not show.
    fn print_more(&self, alloc: Global, page: &mut Page) -> Option<()>;
}

/// Performs an event, and repeats it while an allocation is refused. A refused event must leave the world unchanged.
pub fn step<W: Tried>(
    alloc: Global,
    page: &mut Page,
    world: &mut W,
    event: &W::Event,
) -> Option<W::Outcome> {
    let before = all_of(alloc, world)?;
    for _ in 0..TRIES {
        marks::begin(alloc);
        let answer = world.happen(alloc, event);
        if !marks::is_refused(alloc, answer.is_err()) {
            return answer.ok();
        }
        if all_of(alloc, world)?.bytes() != before.bytes() {
            page.line(CHANGED);
        }
    }
    None
}

/// Returns the world after `events`. While an allocation is refused, the call is repeated from the first world.
pub fn run<W: Tried>(alloc: Global, events: &[W::Event]) -> Option<W> {
    let txn = txn(alloc)?;
    for _ in 0..TRIES {
        marks::begin(alloc);
        let world = W::after(alloc, &txn, events);
        if !marks::is_refused(alloc, world.is_err()) {
            return world.ok();
        }
    }
    None
}

/// Prints the world after `events` and a round. If the round is refused memory, a further round must lead to an equal
/// world. Then the test begins again from the first world.
pub fn print_exchange<W: Tried>(alloc: Global, page: &mut Page, events: &[W::Event]) -> Option<()> {
    let txn = txn(alloc)?;
    let mut last = Page::new(alloc);
    for time in 0..TRIES {
        let mut world = W::after(alloc, &txn, events).ok()?;
        let told = exchange(alloc, &mut world);
        drop(world);
        let told = told?;
        if time > 0 && told.all.bytes() != last.bytes() {
            page.line(CHANGED);
        }
        if !told.is_refused {
            page.page(&told.shown);
            return Some(());
        }
        last = told.all;
    }
    None
}

/// The world after a round.
#[derive(Drop)]
struct AfterRound {
    /// The part that `print` prints.
    shown: Page,
    /// The parts that `print` and `print_more` print.
    all: Page,
    /// True if an allocation of the round was refused, and a further round was performed.
    is_refused: bool,
}

/// Performs a round, and a further one if memory was refused.
fn exchange<W: Tried>(alloc: Global, world: &mut W) -> Option<AfterRound> {
    marks::begin(alloc);
    let answer = world.perform_round(alloc);
    let is_refused = marks::is_refused(alloc, answer.is_err());
    if is_refused {
        world.perform_round(alloc).ok()?;
    } else {
        answer.ok()?;
    }
    let mut shown = Page::new(alloc);
    world.print(alloc, &mut shown)?;
    Some(AfterRound {
        shown,
        all: all_of(alloc, world)?,
        is_refused,
    })
}

/// Returns a page with all that `print` and `print_more` print of the world.
fn all_of<W: Tried>(alloc: Global, world: &W) -> Option<Page> {
    let mut page = Page::new(alloc);
    world.print(alloc, &mut page)?;
    world.print_more(alloc, &mut page)?;
    Some(page)
}
