//! A world is two sides, with the messages that they have sent.

ghost use Rattle.std.specs.Prelude.{◌≡◌, ◌++◌, ◌∷◌, IfOk, OnOk};
ghost use Rattle.ill_values.specs.TxnId.{Qualifiers};
ghost use Rattle.ill_record.specs.declared.side.Side.TheVariants as sides;
ghost use Rattle.ill_world.specs.World as model;
ghost use Rattle.ill_world.specs.Trace.{line};
ghost use Rattle.ill_world.specs.Safety.{IsSafeRun};
ghost use Rattle.ill_world.specs.Agreement.{IsAgreeingRun, KeepsDates, Arrives};
ghost use Rattle.ill_world.specs.Invariant.{Invariant};
ghost use Rattle.ill_world.specs.PartyRefinement.{GivesOutcome};
ghost use Rattle.ill_world.specs.Round.{sends_and_delivers, half_of, round_of, Performs, CanAnswer, AreConverged};
ghost use Rattle.ill_world.specs.declared.event.Event.TheVariants.{Save};

use crate::event::Event;
use crate::laws;
use crate::party::Party;
use crate::trace::push_line;
use ill_core::{Requester, Responder, Wish};
use ill_saved::{Action, Role, Side};
use ill_values::{Number, OutOfMemory, TxnId};
use ill_words::Outcome;
use std::alloc::Global;
use std::marker::Model;

/// A world has two sides of one transaction, each with its store, and the messages that each has sent.
///
/// It begins with two idle sides, and changes by events.
#[derive(Debug, Drop)]
pub struct World {
    requester: Party,
    responder: Party,
}

/// Contracts see a world as the two parties of the model, which satisfy `Invariant` of some transaction.
impl Model for World {
    ghost Value = { model.Parties };

    ghost view = { λ w. record { requester = w.requester; responder = w.responder } };

    ghost invariant = { λ w. (txn : Qualifiers) ×
        Invariant txn (record { requester = w.requester; responder = w.responder }) };
}

impl World {
    /// Returns two idle sides of `txn`. Nothing is committed, and nothing was sent.
    pub fn new(alloc: Global, txn: &TxnId) -> Result<World, OutOfMemory>
        ensures { IfOk result (λ world. world ≡ model.first_world txn.now) }
    {
        laws::world_stands();
        let requester = Side::idle(alloc, Role::Requester, txn.copy(alloc)?);
        let responder = Side::idle(alloc, Role::Responder, txn.copy(alloc)?);
        Ok(World {
            requester: Party::new(alloc, requester)?,
            responder: Party::new(alloc, responder)?,
        })
    }

    /// Performs an event, and returns its outcome. If memory runs out, nothing has changed.
    ///
    /// Only `Done`, `Saved`, `Sent`, `Restarted`, `Answered(Taken)` and `Faulted` change the world. `Faulted` changes
    /// only the committed side. An event other than the requester's restart keeps or raises the requester's due date.
    /// One `Deliver` of the message that ended the request leads the requester to the states of this end. One `Deliver`
    /// of a Returned leads the responder to RETURNED or CHECKED-IN.
    pub fn step(&mut self, alloc: Global, event: &Event) -> Result<Outcome, OutOfMemory>
        ensures gives { GivesOutcome (model.happens self.old event.now) self.old result self.new }
        ensures dates { KeepsDates self.old event.now self.new }
        ensures arrives { Arrives self.old event.now }
    {
        laws::world_stands();
        laws::due_dates_stay();
        laws::one_arrival_is_enough();
        match event.who() {
            Role::Requester => perform(&mut self.requester, &self.responder, alloc, event),
            Role::Responder => perform(&mut self.responder, &self.requester, alloc, event),
        }
    }

    /// Performs a round. It saves the requester's side, and sends and delivers all its messages in order. Then it does
    /// so for the responder's side. If memory runs out, only a prefix of the events of the round has happened.
    ///
    /// If the responder had ended the request before, or had a number left, both sides are then converged.
    pub fn exchange(&mut self, alloc: Global) -> Result<(), OutOfMemory>
        ensures performs { Performs model.run_of (round_of self.old) self.old result self.new }
        ensures converged { OnOk result (CanAnswer self.old.responder.live → AreConverged self.new) }
    {
        let _ = &self.requester; // makes the invariant of this world known
        laws::one_round_is_enough();
        self.pass_on(alloc, Role::Requester)?;
        self.pass_on(alloc, Role::Responder)
    }

    /// Performs half of a round. It saves the side `who`, and sends and delivers all its messages in order.
    fn pass_on(&mut self, alloc: Global, who: Role) -> Result<(), OutOfMemory>
        ensures { Performs model.run_of (half_of who self.old) self.old result self.new }
    {
        let count = match who {
            Role::Requester => self.requester().issued_count(),
            Role::Responder => self.responder().issued_count(),
        };
        self.perform_all(alloc, &half_of_round(alloc, who, count)?)
    }

    /// Performs `events`, one after another. If memory runs out, only a prefix of them has happened.
    fn perform_all(&mut self, alloc: Global, events: &[Event]) -> Result<(), OutOfMemory>
        ensures { Performs model.run_of events.now self.old result self.new }
    {
        for event in events {
            self.step(alloc, event)?;
        }
        Ok(())
    }

    /// Returns the requester in memory.
    pub fn requester(&self) -> &Requester
        ensures { self.now.requester.live ≡ sides.Requester result.now }
    {
        match self.requester.side() {
            Side::Requester(requester) => requester,
            Side::Responder(_) => unreachable!(),
        }
    }

    /// Returns the responder in memory.
    pub fn responder(&self) -> &Responder
        ensures { self.now.responder.live ≡ sides.Responder result.now }
    {
        match self.responder.side() {
            Side::Responder(responder) => responder,
            Side::Requester(_) => unreachable!(),
        }
    }

    /// Appends the line of a trace for event `number`: its outcome, and this world after it.
    #[tactic(auto, unfolding(crate::specs::Trace::line))]
    pub(crate) fn push_line(
        &self,
        text: &mut Vec<u8>,
        number: u32,
        outcome: Outcome,
    ) -> Result<(), OutOfMemory>
        ensures { OnOk result (text.new.items ≡ text.old.items ++ line number outcome self.now) }
    {
        let (requester, responder) = (self.requester.shown(), self.responder.shown());
        push_line(text, number, outcome.word(), requester, responder)
    }

    /// Returns the count of a side's released messages. The messages with numbers up to it may be sent.
    pub fn released(&self, who: Role) -> u8
        ensures { result ≡ (model.party self.now who).released }
    {
        match who {
            Role::Requester => self.requester.released(),
            Role::Responder => self.responder.released(),
        }
    }
}

/// Returns the world after `events`, from two idle sides of `txn` on.
///
/// Every world on the way is safe, in memory and in the stores. A requester in CANCELLED or NOT-SUPPLIED faces a
/// responder in this state. A requester in SHIPPED or later faces a responder that has shipped, and has granted its due
/// date. Both sides agree. Each question has at most one answer, and the request at most one end. The requester's due
/// date is not after the responder's, and each record's claims on the other side are right.
pub fn run(alloc: Global, txn: &TxnId, events: &[Event]) -> Result<World, OutOfMemory>
    ensures runs { IfOk result (λ world. world ≡
        model.run_of (model.first_world txn.now) events.now) }
    ensures safe { IsSafeRun (model.first_world txn.now) events.now }
    ensures agrees { IsAgreeingRun (model.first_world txn.now) events.now }
{
    laws::every_run_is_safe();
    laws::every_run_agrees();
    let mut world = World::new(alloc, txn)?;
    for event in events {
        world.step(alloc, event)?;
    }
    Ok(world)
}

/// Returns the events of half of a round. The side `who` is saved, and each of its `count` messages is sent and
/// delivered.
fn half_of_round(alloc: Global, who: Role, count: u8) -> Result<Vec<Event>, OutOfMemory>
    ensures { IfOk result (λ events. events.items ≡ Save who ∷ sends_and_delivers who 1 count) }
{
    let mut events = Vec::new(alloc);
    events.push(Event::Save(who))?;
    events.append(&mut sends_and_delivers(alloc, who, count)?)?;
    Ok(events)
}

/// Returns the events by which the first `count` messages of a side are sent and delivered, one after another.
pub(crate) fn sends_and_delivers(
    alloc: Global,
    who: Role,
    count: u8,
) -> Result<Vec<Event>, OutOfMemory>
    ensures { IfOk result (λ events. events.items ≡ sends_and_delivers who 1 count) }
{
    let mut events = Vec::new(alloc);
    for index in 0..count {
        let Some(number) = Number::new(index + 1) else {
            unreachable!()
        };
        events.push(Event::Send(who, number))?;
        events.push(Event::Deliver(who.other(), number))?;
    }
    Ok(events)
}

/// Performs an event of `party`, and returns the outcome. The party `other` has sent the messages that may be delivered
/// to `party`.
fn perform(
    party: &mut Party,
    other: &Party,
    alloc: Global,
    event: &Event,
) -> Result<Outcome, OutOfMemory>
    ensures { GivesOutcome (model.happens_to party.old other.now.sent event.now)
        party.old result party.new }
{
    match event {
        Event::Wish(wish) => party.act(alloc, &Action::Wish(copy(alloc, wish)?)),
        Event::Deed(deed, today) => party.act(alloc, &Action::Deed(*deed, *today)),
        Event::Save(_) => party.save(alloc),
        Event::SaveFault { landed, .. } => party.fail_to_save(alloc, *landed),
        Event::Send(_, number) => party.send(alloc, *number),
        Event::Deliver(_, number) => match other.sent(*number) {
            Some(message) => party.take(alloc, message),
            None => Ok(Outcome::NotSent),
        },
        Event::Noise(_, bytes) => party.hear(alloc, bytes.as_slice()),
        Event::Restart(_) => party.restart(alloc),
    }
}

/// Returns a copy of the wish, on its own memory.
pub(crate) fn copy(alloc: Global, wish: &Wish) -> Result<Wish, OutOfMemory>
    ensures { IfOk result (λ copy. copy ≡ wish.now) }
{
    Ok(match wish {
        Wish::Request { expiry, item } => Wish::Request {
            expiry: *expiry,
            item: item.copy(alloc)?,
        },
        Wish::Cancel => Wish::Cancel,
        Wish::Reply { yes } => Wish::Reply { yes: *yes },
        Wish::Receive => Wish::Receive,
        Wish::Renew { wished } => Wish::Renew { wished: *wished },
        Wish::Return => Wish::Return,
    })
}
