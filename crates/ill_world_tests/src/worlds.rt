//! Performs events of two sides as values, one by one or as a list, and prints the world after them. A function that
//! returns `None` was given an unknown name, or has no memory.

use crate::events::events;
use crate::list::EventList;
use crate::performing::txn;
use crate::tries::{self, Tried};
use ill_core::State;
use ill_der::encode;
use ill_saved::Role;
use ill_test_kit::Page;
use ill_test_kit::marks::{self, TRIES};
use ill_values::{Apdu, Day, OutOfMemory, TxnId};
use ill_world::{Event, Outcome, World, run};
use std::alloc::Global;

impl Tried for World {
    type Event = Event;

    type Outcome = Outcome;

    fn after(alloc: Global, txn: &TxnId, events: &[Event]) -> Result<World, OutOfMemory> {
        run(alloc, txn, events)
    }

    fn happen(&mut self, alloc: Global, event: &Event) -> Result<Outcome, OutOfMemory> {
        self.step(alloc, event)
    }

    fn perform_round(&mut self, alloc: Global) -> Result<(), OutOfMemory> {
        self.exchange(alloc)
    }

    /// Prints a part of both sides, with their issued messages, and the request that the responder has taken.
    fn print(&self, alloc: Global, page: &mut Page) -> Option<()> {
        print_world(alloc, page, self)
    }

    /// Prints all fields of the world, also the committed records and the sent messages, of which `print` prints
    /// nothing.
    fn print_more(&self, _alloc: Global, page: &mut Page) -> Option<()> {
        page.show_parts(self);
        Some(())
    }
}

/// Performs the named events one by one, and prints the outcome of each. At the end prints the state of both sides.
pub fn print_steps(alloc: Global, page: &mut Page, name: &str) -> Option<()> {
    let events = events(alloc, name)?;
    let mut world = first_world(alloc)?;
    let printed = perform_steps(alloc, page, &mut world, &events);
    drop(world);
    printed
}

/// Returns a world of two idle sides. While an allocation is refused, the call is repeated.
fn first_world(alloc: Global) -> Option<World> {
    let txn = txn(alloc)?;
    for _ in 0..TRIES {
        marks::begin(alloc);
        let world = World::new(alloc, &txn);
        if !marks::is_refused(alloc, world.is_err()) {
            return world.ok();
        }
    }
    None
}

/// Performs events, prints the outcome of each, and then prints the state of both sides.
fn perform_steps(
    alloc: Global,
    page: &mut Page,
    world: &mut World,
    events: &EventList<Event>,
) -> Option<()> {
    for event in events.all()? {
        print_step(alloc, page, world, event)?;
    }
    print_world(alloc, page, world)
}

/// Performs an event, and prints its outcome.
fn print_step(alloc: Global, page: &mut Page, world: &mut World, event: &Event) -> Option<()> {
    let outcome = tries::step(alloc, page, world, event)?;
    if takes_no_memory(outcome) && again(alloc, world, event) != Ok(outcome) {
        page.line("ANOTHER OUTCOME WITHOUT MEMORY");
    }
    let other = event.who().other();
    page.show_parts(&event.who());
    page.text(" ");
    page.show_parts(&outcome);
    page.text(", ");
    page.show_parts(&other);
    page.text(" has released ");
    page.show(&world.released(other));
    page.text("\n");
    Some(())
}

/// Returns true if the events of these tests with this outcome change nothing and take no memory.
fn takes_no_memory(outcome: Outcome) -> bool {
    matches!(
        outcome,
        Outcome::NoSuchMessage | Outcome::NotSaved | Outcome::NotSent | Outcome::Garbled
    )
}

/// Performs an event as a quiet call, which takes no memory, and returns its outcome.
fn again(alloc: Global, world: &mut World, event: &Event) -> Result<Outcome, OutOfMemory> {
    marks::begin_quiet(alloc);
    let answer = world.step(alloc, event);
    marks::end_quiet(alloc);
    answer
}

/// Performs the named events as a list, and prints the state of both sides at the end.
pub fn print_run(alloc: Global, page: &mut Page, name: &str) -> Option<()> {
    let events = events(alloc, name)?;
    let world: World = tries::run(alloc, events.all()?)?;
    let printed = print_world(alloc, page, &world);
    drop(world);
    printed
}

/// Performs the named events as a list, and then a round. Prints the state of both sides at the end.
pub fn print_exchange(alloc: Global, page: &mut Page, name: &str) -> Option<()> {
    let events = events(alloc, name)?;
    tries::print_exchange::<World>(alloc, page, events.all()?)
}

/// Performs the named events as a list, and prints the number of the message that has ended the request.
pub fn print_ending(alloc: Global, page: &mut Page, name: &str) -> Option<()> {
    let events = events(alloc, name)?;
    let world = run(alloc, &txn(alloc)?, events.all()?).ok()?;
    let ending = world.responder().ending();
    drop(world);
    match ending {
        Some(number) => {
            page.text("message ");
            page.show(&number.get());
            page.text("\n");
        }
        None => page.line("none"),
    }
    Some(())
}

/// The parts of a side that are printed.
#[derive(Clone, Copy)]
struct Seen<'a> {
    /// The role of the side.
    name: &'static str,
    /// The state of the side.
    state: State,
    /// The due date, if there is one.
    due: Option<Day>,
    /// The count of released messages.
    released: u8,
    /// The messages that the side has issued.
    issued: &'a [Apdu],
}

/// Prints the state of both sides and their issued messages, and the request that was taken.
fn print_world(alloc: Global, page: &mut Page, world: &World) -> Option<()> {
    marks::begin_quiet(alloc);
    let requester = seen_requester(world);
    let responder = seen_responder(world);
    let request = world.responder().request();
    marks::end_quiet(alloc);
    print_side(alloc, page, &requester)?;
    print_side(alloc, page, &responder)?;
    if let Some(request) = request {
        page.text("request");
        print_message(alloc, page, request)?;
    }
    Some(())
}

/// Returns the parts of the requester that are printed.
fn seen_requester(world: &World) -> Seen<'_> {
    let side = world.requester();
    Seen {
        name: "requester",
        state: side.state(),
        due: side.due(),
        released: world.released(Role::Requester),
        issued: side.all_issued(),
    }
}

/// Returns the parts of the responder that are printed.
fn seen_responder(world: &World) -> Seen<'_> {
    let side = world.responder();
    Seen {
        name: "responder",
        state: side.state(),
        due: side.due(),
        released: world.released(Role::Responder),
        issued: side.all_issued(),
    }
}

/// Prints a line with the role, the state, the due date and the counts of messages of a side. Then prints a line for
/// each message that the side has issued.
fn print_side(alloc: Global, page: &mut Page, side: &Seen<'_>) -> Option<()> {
    page.text(side.name);
    page.text(" ");
    page.show(&side.state);
    page.text(" ");
    match side.due {
        Some(due) => page.push(&due.digits()),
        None => page.text("-"),
    }
    page.text(" ");
    page.show(&side.released);
    page.text("/");
    page.show(&side.issued.len());
    page.text("\n");
    for apdu in side.issued {
        page.text("message");
        print_message(alloc, page, apdu)?;
    }
    Some(())
}

/// Prints the bytes of a message as hexadecimal digits.
fn print_message(alloc: Global, page: &mut Page, apdu: &Apdu) -> Option<()> {
    page.text(" ");
    page.hex(&encode(alloc, apdu).ok()?);
    page.text("\n");
    Some(())
}
