//! Makes the lists of events of two sides. A function returns `None` if a value is invalid, or if there is no memory.

use crate::list::EventList;
use ill_core::{Deed, Wish};
use ill_saved::Role;
use ill_values::{AnswerResult, Day, Item, Number};
use ill_world::{Bytes, Event};
use std::alloc::Global;

/// A Cancel of the transaction of the tests.
const CANCEL: &[u8] = b"\x66\x10\x80\x01\x01\xA1\x08\x81\x02G1\x82\x02T1\x82\x01\x02";

/// A Cancel of another transaction.
const OTHER_CANCEL: &[u8] = b"\x66\x10\x80\x01\x01\xA1\x08\x81\x02G1\x82\x02T2\x82\x01\x02";

/// A Cancel of another transaction, without its last byte.
const CUT: &[u8] = b"\x66\x10\x80\x01\x01\xA1\x08\x81\x02G1\x82\x02T2\x82\x01";

/// The events of two sides.
type Events = EventList<Event>;

/// Returns the events that `name` names, or `None` if it names none.
pub fn events(alloc: Global, name: &str) -> Option<Events> {
    let mut events = Events::new(alloc);
    match name {
        "crossing" => crossing(&mut events, alloc),
        "refused" => refused(&mut events, alloc),
        "cancelled" => cancelled(&mut events, alloc),
        "declined" => declined(&mut events, alloc),
        "promised" => promised(&mut events, alloc),
        "renewing" => renewing(&mut events, alloc),
        "kinds" => kinds(&mut events, alloc),
        _ => return None,
    }
    Some(events)
}

/// Adds a Cancel and a Shipped that cross.
fn crossing(events: &mut Events, alloc: Global) {
    push_requested(events, alloc);
    events.push(ship());
    push_sent(events, Role::Responder, 1);
    events.push(Some(Event::Wish(Wish::Cancel)));
    push_sent(events, Role::Requester, 2);
    events.push(delivered(Role::Requester, 1));
    events.push(delivered(Role::Responder, 2));
}

/// Adds a Cancel that is refused, and another that is accepted.
fn cancelled(events: &mut Events, alloc: Global) {
    push_requested(events, alloc);
    events.push(Some(Event::Wish(Wish::Cancel)));
    push_delivered(events, Role::Requester, 2);
    events.push(deed(Deed::CancelReply { yes: false }));
    push_delivered(events, Role::Responder, 1);
    events.push(Some(Event::Wish(Wish::Cancel)));
    push_delivered(events, Role::Requester, 3);
    events.push(deed(Deed::CancelReply { yes: true }));
    push_delivered(events, Role::Responder, 2);
}

/// Adds conditions that are declined.
fn declined(events: &mut Events, alloc: Global) {
    push_requested(events, alloc);
    events.push(deed(Deed::Answer(AnswerResult::Conditional)));
    push_delivered(events, Role::Responder, 1);
    events.push(Some(Event::Wish(Wish::Reply { yes: false })));
    push_delivered(events, Role::Requester, 2);
    push_delivered(events, Role::Responder, 2);
}

/// Adds a request, and 256 promises to supply it, one more than there are numbers.
fn promised(events: &mut Events, alloc: Global) {
    push_requested(events, alloc);
    for _ in 0..256 {
        events.push(deed(Deed::Answer(AnswerResult::WillSupply)));
    }
}

/// Adds events that change no live record.
fn refused(events: &mut Events, alloc: Global) {
    events.push(Some(Event::Wish(Wish::Cancel)));
    events.push(deed(Deed::Expire));
    events.push(sent(Role::Responder, 1));
    events.push(delivered(Role::Responder, 1));
    events.push(noise(alloc, Role::Requester, b""));
    events.push(noise(alloc, Role::Requester, CANCEL));
    events.push(noise(alloc, Role::Responder, OTHER_CANCEL));
    events.push(Some(save_fault(Role::Requester, true)));
    events.push(Some(save_fault(Role::Responder, false)));
    events.push(Some(Event::Restart(Role::Responder)));
}

/// Adds a loan that is received, with a Renew and an Overdue that cross. Neither is saved yet.
fn renewing(events: &mut Events, alloc: Global) {
    push_requested(events, alloc);
    events.push(ship());
    push_delivered(events, Role::Responder, 1);
    events.push(Some(Event::Wish(Wish::Receive)));
    push_sent(events, Role::Requester, 2);
    events.push(Some(Event::Wish(Wish::Renew { wished: None })));
    events.push(overdue());
}

/// Adds a Renew and an Overdue that cross, and then events of each kind at each side.
fn kinds(events: &mut Events, alloc: Global) {
    renewing(events, alloc);
    push_unchanging(events, alloc, Role::Requester, 3);
    push_faults(events, Role::Requester);
    events.push(Some(Event::Wish(Wish::Return)));
    push_restart(events, Role::Requester);
    push_unchanging(events, alloc, Role::Responder, 2);
    events.push(delivered(Role::Responder, 2));
    push_faults(events, Role::Responder);
    events.push(deed(Deed::Recall));
    push_restart(events, Role::Responder);
}

/// Adds events at the side `who` that change nothing. Its message with the number `unsaved` must not be saved yet.
fn push_unchanging(events: &mut Events, alloc: Global, who: Role, unsaved: u8) {
    events.push(sent(who, unsaved));
    events.push(delivered(who, 3));
    events.push(noise(alloc, who, OTHER_CANCEL));
    events.push(noise(alloc, who, CUT));
    events.push(sent(who, 1));
    events.push(delivered(who, 1));
}

/// Adds two saves of `who` that fail. Only the record of the second is committed.
fn push_faults(events: &mut Events, who: Role) {
    for committed in [false, true] {
        events.push(Some(save_fault(who, committed)));
    }
}

/// Adds a save and a restart of the side `who`.
fn push_restart(events: &mut Events, who: Role) {
    events.push(Some(Event::Save(who)));
    events.push(Some(Event::Restart(who)));
}

/// Adds a request that reaches the responder.
fn push_requested(events: &mut Events, alloc: Global) {
    events.push(request(alloc));
    push_delivered(events, Role::Requester, 1);
}

/// Adds the save of the side `who`, the sending of its message `number`, and the delivery of this message.
fn push_delivered(events: &mut Events, who: Role, number: u8) {
    push_sent(events, who, number);
    events.push(delivered(who.other(), number));
}

/// Adds the save of the side `who`, and the sending of its message `number`.
fn push_sent(events: &mut Events, who: Role, number: u8) {
    events.push(Some(Event::Save(who)));
    events.push(sent(who, number));
}

/// Returns the event of the wish Request.
fn request(alloc: Global) -> Option<Event> {
    let item = Item::new(alloc, b"Maps").ok()?;
    Some(Event::Wish(Wish::Request { expiry: None, item }))
}

/// Returns the event of the deed Ship on 1 March, due on 15 March.
fn ship() -> Option<Event> {
    let due = Day::new(2025, 3, 15).ok()?;
    deed(Deed::Ship { due })
}

/// Returns the event of the deed Overdue on 16 March, the day after the due date.
fn overdue() -> Option<Event> {
    Some(Event::Deed(Deed::Overdue, Day::new(2025, 3, 16).ok()?))
}

/// Returns the event of this deed on 1 March.
fn deed(deed: Deed) -> Option<Event> {
    Some(Event::Deed(deed, Day::new(2025, 3, 1).ok()?))
}

/// Returns the event that a side sends this message.
fn sent(who: Role, number: u8) -> Option<Event> {
    Some(Event::Send(who, Number::new(number)?))
}

/// Returns the event that this message of the other side reaches `who`.
fn delivered(who: Role, number: u8) -> Option<Event> {
    Some(Event::Deliver(who, Number::new(number)?))
}

/// Returns the event that `bytes` reach a side as noise.
fn noise(alloc: Global, who: Role, bytes: &[u8]) -> Option<Event> {
    let bytes = Bytes::new(Vec::from_slice(alloc, bytes).ok()?);
    Some(Event::Noise(who, bytes))
}

/// Returns the event of a save that fails. If `committed`, the record is committed in spite of the failure.
fn save_fault(who: Role, committed: bool) -> Event {
    Event::SaveFault {
        who,
        landed: committed,
    }
}
