//! Performs events of two desks as values, one by one or as a list. A function that returns `None` was given an unknown
//! name, or has no memory.

use crate::list::EventList;
use crate::tries::{self, Tried};
use ill_core::{Deed, Wish};
use ill_saved::{Role, Side, Sides};
use ill_test_kit::{Page, marks};
use ill_values::{Day, Item, Number, OutOfMemory, TxnId};
use ill_world::{Bytes, DeskEvent, DeskOutcome, DeskWorld, push_side, run_desks};
use std::alloc::Global;

/// The transaction of the first loan.
const FIRST: &[u8] = b"T1";

/// The transaction of the second loan.
const SECOND: &[u8] = b"T2";

/// A Cancel of the second loan, which no requester has sent.
const OTHER_CANCEL: &[u8] = b"\x66\x10\x80\x01\x01\xA1\x08\x81\x02G1\x82\x02T2\x82\x01\x02";

/// The events of two desks.
type Events = EventList<DeskEvent>;

/// The transaction of two sides (`_txn`) is not used. Each event names its own.
impl Tried for DeskWorld {
    type Event = DeskEvent;

    type Outcome = DeskOutcome;

    fn after(alloc: Global, _txn: &TxnId, events: &[DeskEvent]) -> Result<DeskWorld, OutOfMemory> {
        run_desks(alloc, events)
    }

    fn happen(&mut self, alloc: Global, event: &DeskEvent) -> Result<DeskOutcome, OutOfMemory> {
        self.step(alloc, event)
    }

    fn perform_round(&mut self, alloc: Global) -> Result<(), OutOfMemory> {
        self.exchange(alloc)
    }

    /// Prints a line for each transaction, with a part of both sides: state, due date, and counts of messages.
    fn print(&self, alloc: Global, page: &mut Page) -> Option<()> {
        print_both(alloc, page, self)
    }

    /// Prints all fields of each side that a desk holds. Of a side, `print` prints only a part of a line.
    fn print_more(&self, _alloc: Global, page: &mut Page) -> Option<()> {
        print_held(page, self.requester())?;
        print_held(page, self.responder())
    }
}

/// Returns the events that `name` names, or `None` if it names none.
fn desk_events(alloc: Global, name: &str) -> Option<Events> {
    let mut events = Events::new(alloc);
    match name {
        "two-loans" => two_loans(&mut events, alloc),
        "two-losses" => two_losses(&mut events, alloc),
        "noise" => events.push(noise(alloc, Role::Responder)),
        "kinds" => kinds(&mut events, alloc),
        _ => return None,
    }
    Some(events)
}

/// Adds two requests. The responder's desk takes both, loses them in a restart, and takes both again.
fn two_loans(events: &mut Events, alloc: Global) {
    events.push(request(alloc, FIRST, b"Maps"));
    events.push(request(alloc, SECOND, b"Atlas"));
    events.push(Some(DeskEvent::Save(Role::Requester)));
    events.push(sent(alloc, Role::Requester, SECOND));
    events.push(delivered(alloc, SECOND));
    events.push(sent(alloc, Role::Requester, FIRST));
    events.push(delivered(alloc, FIRST));
    events.push(ship(alloc, FIRST));
    events.push(Some(DeskEvent::Restart(Role::Responder)));
    events.push(delivered(alloc, FIRST));
    events.push(recall(alloc, SECOND));
    events.push(delivered(alloc, SECOND));
}

/// Adds two requests. The first is lost on the way, and so is the Shipped of the second.
fn two_losses(events: &mut Events, alloc: Global) {
    events.push(request(alloc, FIRST, b"Maps"));
    events.push(request(alloc, SECOND, b"Atlas"));
    events.push(Some(DeskEvent::Save(Role::Requester)));
    events.push(sent(alloc, Role::Requester, FIRST));
    events.push(sent(alloc, Role::Requester, SECOND));
    events.push(delivered(alloc, SECOND));
    events.push(ship(alloc, SECOND));
    events.push(Some(DeskEvent::Save(Role::Responder)));
    events.push(sent(alloc, Role::Responder, SECOND));
}

/// Adds a Shipped and a Cancel that cross, before either is sent. Then adds events of each kind at each desk.
fn kinds(events: &mut Events, alloc: Global) {
    events.push(request(alloc, FIRST, b"Maps"));
    events.push(Some(DeskEvent::Save(Role::Requester)));
    events.push(sent(alloc, Role::Requester, FIRST));
    events.push(delivered(alloc, FIRST));
    events.push(ship(alloc, FIRST));
    events.push(Some(DeskEvent::Save(Role::Responder)));
    events.push(cancel(alloc));
    events.push(sent(alloc, Role::Requester, FIRST));
    push_faults(events, alloc, Role::Requester);
    events.push(request(alloc, SECOND, b"Atlas"));
    push_restart(events, Role::Requester);
    events.push(sent(alloc, Role::Responder, FIRST));
    events.push(delivered(alloc, FIRST));
    push_faults(events, alloc, Role::Responder);
    events.push(recall(alloc, FIRST));
    push_restart(events, Role::Responder);
}

/// Adds noise for `who`, and two saves of `who` that fail. Only the record of the second is committed.
fn push_faults(events: &mut Events, alloc: Global, who: Role) {
    events.push(noise(alloc, who));
    for committed in [false, true] {
        events.push(Some(DeskEvent::SaveFault {
            who,
            landed: committed,
        }));
    }
}

/// Adds a save and a restart of the desk `who`.
fn push_restart(events: &mut Events, who: Role) {
    events.push(Some(DeskEvent::Save(who)));
    events.push(Some(DeskEvent::Restart(who)));
}

/// Returns the id of a transaction of the group G1.
fn id(alloc: Global, transaction: &[u8]) -> Option<TxnId> {
    TxnId::new(alloc, b"G1", transaction).ok()
}

/// Returns the event of the wish for `item` in this transaction.
fn request(alloc: Global, transaction: &[u8], item: &[u8]) -> Option<DeskEvent> {
    let item = Item::new(alloc, item).ok()?;
    let request = Wish::Request { expiry: None, item };
    Some(DeskEvent::Wish(id(alloc, transaction)?, request))
}

/// Returns the event that the side of `who` in this transaction sends its message 1.
fn sent(alloc: Global, who: Role, transaction: &[u8]) -> Option<DeskEvent> {
    let one = Number::new(1)?;
    Some(DeskEvent::Send(who, id(alloc, transaction)?, one))
}

/// Returns the event that message 1 of the requester in this transaction reaches the responder.
fn delivered(alloc: Global, transaction: &[u8]) -> Option<DeskEvent> {
    let one = Number::new(1)?;
    Some(DeskEvent::Deliver(Role::Responder, id(alloc, transaction)?, one))
}

/// Returns the event of the deed Ship in this transaction, due on 15 March.
fn ship(alloc: Global, transaction: &[u8]) -> Option<DeskEvent> {
    let due = Day::new(2025, 3, 15).ok()?;
    deed(alloc, transaction, Deed::Ship { due })
}

/// Returns the event of the deed Recall in this transaction.
fn recall(alloc: Global, transaction: &[u8]) -> Option<DeskEvent> {
    deed(alloc, transaction, Deed::Recall)
}

/// Returns the event of the wish Cancel in the first transaction.
fn cancel(alloc: Global) -> Option<DeskEvent> {
    Some(DeskEvent::Wish(id(alloc, FIRST)?, Wish::Cancel))
}

/// Returns the event of this deed in this transaction, on 1 March.
fn deed(alloc: Global, transaction: &[u8], deed: Deed) -> Option<DeskEvent> {
    let today = Day::new(2025, 3, 1).ok()?;
    Some(DeskEvent::Deed(id(alloc, transaction)?, deed, today))
}

/// Returns the event that a forged Cancel reaches the desk `who`.
fn noise(alloc: Global, who: Role) -> Option<DeskEvent> {
    let bytes = Bytes::new(Vec::from_slice(alloc, OTHER_CANCEL).ok()?);
    Some(DeskEvent::Noise(who, bytes))
}

/// Performs the named events one by one, and prints a line for each.
pub fn print_desk_steps(alloc: Global, page: &mut Page, name: &str) -> Option<()> {
    let events = desk_events(alloc, name)?;
    let mut world = first_desks(alloc)?;
    let printed = perform_steps(alloc, page, &mut world, &events);
    drop(world);
    printed
}

/// Returns a world of two empty desks. This takes no memory.
fn first_desks(alloc: Global) -> Option<DeskWorld> {
    marks::begin_quiet(alloc);
    let world = DeskWorld::new(alloc);
    marks::end_quiet(alloc);
    world.ok()
}

/// Performs events, and prints a line for each. The line has the number and the outcome of the event, and both sides of
/// a transaction. This is the transaction that an event has named last, and at first `FIRST`.
fn perform_steps(
    alloc: Global,
    page: &mut Page,
    world: &mut DeskWorld,
    events: &Events,
) -> Option<()> {
    let first = id(alloc, FIRST)?;
    let mut shown = &first;
    let mut number: u32 = 0;
    for event in events.all()? {
        shown = named(event).unwrap_or(shown);
        number = number.checked_add(1)?;
        let outcome = tries::step(alloc, page, world, event)?;
        page.show(&number);
        page.text(" ");
        page.text(outcome.word());
        print_sides(alloc, page, world, shown)?;
    }
    Some(())
}

/// Performs the named events as a list, and prints both sides of each transaction.
pub fn print_desk_run(alloc: Global, page: &mut Page, name: &str) -> Option<()> {
    let events = desk_events(alloc, name)?;
    let world: DeskWorld = tries::run(alloc, events.all()?)?;
    let printed = print_both(alloc, page, &world);
    drop(world);
    printed
}

/// Performs the named events as a list, and then a round. Prints both sides of each transaction.
pub fn print_desk_exchange(alloc: Global, page: &mut Page, name: &str) -> Option<()> {
    let events = desk_events(alloc, name)?;
    tries::print_exchange::<DeskWorld>(alloc, page, events.all()?)
}

/// Prints all fields of each side in `sides`.
fn print_held(page: &mut Page, sides: &Sides) -> Option<()> {
    for place in 0..sides.len() {
        page.show_parts(sides.at(place)?);
    }
    Some(())
}

/// Prints a line for each transaction, with both its sides.
fn print_both(alloc: Global, page: &mut Page, world: &DeskWorld) -> Option<()> {
    page.text("T1");
    print_sides(alloc, page, world, &id(alloc, FIRST)?)?;
    page.text("T2");
    print_sides(alloc, page, world, &id(alloc, SECOND)?)
}

/// Returns the transaction that an event names, if it names one.
fn named(event: &DeskEvent) -> Option<&TxnId> {
    match event {
        DeskEvent::Wish(txn, _)
        | DeskEvent::Deed(txn, _, _)
        | DeskEvent::Send(_, txn, _)
        | DeskEvent::Deliver(_, txn, _) => Some(txn),
        _ => None,
    }
}

/// Prints the rest of a line: the state, the due date and the counts of messages of both sides of a transaction.
fn print_sides(alloc: Global, page: &mut Page, world: &DeskWorld, txn: &TxnId) -> Option<()> {
    page.text(" requester ");
    print_side(alloc, page, world, Role::Requester, txn)?;
    page.text(" responder ");
    print_side(alloc, page, world, Role::Responder, txn)?;
    page.text("\n");
    Some(())
}

/// Prints the state, the due date and the counts of messages of one side. If the desk does not hold it, it is idle.
fn print_side(
    alloc: Global,
    page: &mut Page,
    world: &DeskWorld,
    who: Role,
    txn: &TxnId,
) -> Option<()> {
    marks::begin_quiet(alloc);
    let (side, released) = (held(world, who, txn), world.released(who, txn));
    marks::end_quiet(alloc);
    match side {
        Some(side) => {
            let mut text = Vec::new(alloc);
            push_side(&mut text, side, released).ok()?;
            page.push(&text);
        }
        None => page.text("IDLE - 0/0"),
    }
    Some(())
}

/// Returns the side of a transaction at the desk of `who`, or `None` if the desk does not hold it.
fn held<'a>(world: &'a DeskWorld, who: Role, txn: &TxnId) -> Option<&'a Side> {
    match who {
        Role::Requester => world.requester().get(txn),
        Role::Responder => world.responder().get(txn),
    }
}
