//! A world of desks is two desks of many transactions, with the messages that they have sent.

ghost use Rattle.std.specs.Prelude.{◌≡◌, ◌++◌, ℕ, take, IfOk, OnOk};
ghost use Rattle.ill_values.specs.TxnId.{Qualifiers};
ghost use Rattle.ill_saved.specs.ManySides.{held_for, sides_held};
ghost use Rattle.ill_world.specs.World.{party};
ghost use Rattle.ill_world.specs.Desks as model;
ghost use Rattle.ill_world.specs.Desks.{plain, project, Projects};
ghost use Rattle.ill_world.specs.Agreement.{KeepsDates};
ghost use Rattle.ill_world.specs.DeskSafety.{DesksInvariant, ArrivesAt, IsRunOfEach, IsSafeDeskRun, IsAgreeingDeskRun};
ghost use Rattle.ill_world.specs.PartyRefinement.{GivesOutcome};
ghost use Rattle.ill_world.specs.DeskTrace.{desk_line};
ghost use Rattle.ill_world.specs.Round.{Performs, CanAnswer, AreConverged};
ghost use Rattle.ill_world.specs.DeskRound.{passes_side, saves_and_passes, desk_half_of, desk_round_of};

use crate::desk_laws;
use crate::desk_party::{DeskParty, heard};
use crate::event::DeskEvent;
use crate::trace::push_line;
use crate::world::{copy, sends_and_delivers};
use ill_saved::{Action, Role, Side, Sides};
use ill_values::{OutOfMemory, TxnId};
use ill_words::{DeskOutcome, Outcome};
use std::alloc::Global;
use std::marker::Model;

/// A world of desks has the desks of two libraries, with their stores and the messages that they have sent.
#[derive(Drop)]
pub struct DeskWorld {
    requester: DeskParty,
    responder: DeskParty,
}

/// Contracts see a world of desks as the two desks of the model, which satisfy `DesksInvariant`.
impl Model for DeskWorld {
    ghost Value = { model.DeskParties };

    ghost view = { λ w. record { requester = w.requester; responder = w.responder } };

    ghost invariant = { λ w. DesksInvariant (record { requester = w.requester; responder = w.responder }) };
}

impl DeskWorld {
    /// Returns two desks that hold nothing. Nothing is committed, and nothing was sent.
    pub fn new(alloc: Global) -> Result<DeskWorld, OutOfMemory>
        ensures { IfOk result (λ world. world ≡ model.first_desks) }
    {
        desk_laws::desks_stand();
        Ok(DeskWorld {
            requester: DeskParty::new(alloc, Role::Requester)?,
            responder: DeskParty::new(alloc, Role::Responder)?,
        })
    }

    /// Performs an event, and returns its outcome. If memory runs out, nothing has changed.
    ///
    /// In each transaction the event is one event of `World`, with the outcome of that event, or changes nothing. An
    /// event other than the requester's restart keeps or raises the requester's due date. One `Deliver` of the message
    /// that ended a request leads the requester's side to the states of this end. One `Deliver` of a Returned leads the
    /// responder's side to RETURNED or CHECKED-IN.
    pub fn step(&mut self, alloc: Global, event: &DeskEvent) -> Result<DeskOutcome, OutOfMemory>
        ensures gives { GivesOutcome (model.desks_happen self.old event.now) self.old result self.new }
        ensures projects { (txn : Qualifiers) → Projects txn self.old event.now }
        ensures dates { (txn : Qualifiers) →
            KeepsDates (project txn self.old) (plain event.now) (project txn self.new) }
        ensures arrives { ArrivesAt self.old event.now }
    {
        desk_laws::desks_stand();
        desk_laws::desk_events_are_events();
        desk_laws::due_dates_stay_at_desks();
        desk_laws::one_arrival_at_a_desk_is_enough();
        happen(&mut self.requester, &mut self.responder, alloc, event)
    }

    /// Performs a round. It saves the requester's desk, and sends and delivers all messages of its sides, in order.
    /// Then it does all this for the responder's desk. If memory runs out, only a prefix of the events of the round has
    /// happened.
    ///
    /// Both sides of a transaction are then converged, if its responder had ended the request or had numbers left.
    pub fn exchange(&mut self, alloc: Global) -> Result<(), OutOfMemory>
        ensures performs { Performs model.desks_run (desk_round_of self.old) self.old result self.new }
        ensures converged { OnOk result ((txn : Qualifiers) →
            CanAnswer (project txn self.old).responder.live → AreConverged (project txn self.new)) }
    {
        let _ = &self.requester; // makes the invariant of these desks known
        desk_laws::one_desk_round_is_enough();
        self.pass_on(alloc, Role::Requester)?;
        self.pass_on(alloc, Role::Responder)
    }

    /// Performs half of a round. It saves the desk `who`, and sends and delivers all messages of its sides, in order.
    fn pass_on(&mut self, alloc: Global, who: Role) -> Result<(), OutOfMemory>
        ensures { Performs model.desks_run (desk_half_of who self.old) self.old result self.new }
    {
        let events = half_of_desk_round(alloc, who, self.sides(who))?;
        self.perform_all(alloc, &events)
    }

    /// Performs `events`, one after another. If memory runs out, only a prefix of them has happened.
    fn perform_all(&mut self, alloc: Global, events: &[DeskEvent]) -> Result<(), OutOfMemory>
        ensures { Performs model.desks_run events.now self.old result self.new }
    {
        for event in events {
            self.step(alloc, event)?;
        }
        Ok(())
    }

    /// Returns the sides that the requester's desk holds in memory.
    pub fn requester(&self) -> &Sides
        ensures { result.now ≡ sides_held self.now.requester.live }
    {
        self.requester.sides()
    }

    /// Returns the sides that the responder's desk holds in memory.
    pub fn responder(&self) -> &Sides
        ensures { result.now ≡ sides_held self.now.responder.live }
    {
        self.responder.sides()
    }

    /// Returns the sides that the desk `who` holds in memory.
    fn sides(&self, who: Role) -> &Sides
        ensures { result.now ≡ sides_held (party self.now who).live }
    {
        match who {
            Role::Requester => self.requester(),
            Role::Responder => self.responder(),
        }
    }

    /// Returns the count of the released messages of `txn` at a desk. The messages with numbers up to it may be sent.
    /// If the side is not held, no message is released.
    pub fn released(&self, who: Role, txn: &TxnId) -> u8
        ensures { result ≡ (held_for txn.now (party self.now who).live).released }
    {
        match who {
            Role::Requester => self.requester.released(txn),
            Role::Responder => self.responder.released(txn),
        }
    }

    /// Appends the line of a trace for event `number`: its outcome, and both sides of a transaction after it.
    #[tactic(auto, unfolding(crate::specs::DeskTrace::desk_line))]
    pub(crate) fn push_line(
        &self,
        text: &mut Vec<u8>,
        number: u32,
        txn: &TxnId,
        outcome: DeskOutcome,
    ) -> Result<(), OutOfMemory>
        ensures { OnOk result (text.new.items ≡ text.old.items
            ++ desk_line number txn.now outcome self.now) }
    {
        let (requester, responder) = (self.requester.shown(txn), self.responder.shown(txn));
        push_line(text, number, outcome.word(), requester, responder)
    }
}

/// Returns the two desks after `events`, from desks on that hold nothing.
///
/// In each transaction the desks are the world of two sides after the events of this transaction. Every world on the
/// way is safe in each transaction, and both sides agree, as `run` says of one transaction.
pub fn run_desks(alloc: Global, events: &[DeskEvent]) -> Result<DeskWorld, OutOfMemory>
    ensures runs { IfOk result (λ world. world ≡ model.desks_run model.first_desks events.now) }
    ensures each { (n : ℕ) → IsRunOfEach (take n events.now) }
    ensures safe { IsSafeDeskRun model.first_desks events.now }
    ensures agrees { IsAgreeingDeskRun model.first_desks events.now }
{
    desk_laws::desk_runs_are_runs();
    desk_laws::every_desk_run_is_safe();
    desk_laws::every_desk_run_agrees();
    let mut world = DeskWorld::new(alloc)?;
    for event in events {
        world.step(alloc, event)?;
    }
    Ok(world)
}

/// Returns the events of half of a round. The desk `who` is saved, and all messages of `sides` are sent and delivered.
fn half_of_desk_round(
    alloc: Global,
    who: Role,
    sides: &Sides,
) -> Result<Vec<DeskEvent>, OutOfMemory>
    ensures { IfOk result (λ events. events.items ≡ saves_and_passes who sides.now.sides) }
{
    let mut events = Vec::new(alloc);
    events.push(DeskEvent::Save(who))?;
    for place in 0..sides.len() {
        let Some(side) = sides.at(place) else {
            unreachable!()
        };
        push_passes(&mut events, alloc, who, side)?;
    }
    Ok(events)
}

/// Appends the events by which all messages of a side are sent and delivered, one after another.
fn push_passes(
    events: &mut Vec<DeskEvent>,
    alloc: Global,
    who: Role,
    side: &Side,
) -> Result<(), OutOfMemory>
    ensures { OnOk result (events.new.items ≡ events.old.items ++ passes_side who side.now) }
{
    let passes = sends_and_delivers(alloc, who, side.issued_count())?;
    for event in passes {
        events.push(event.in_txn(alloc, side.txn())?)?;
    }
    Ok(())
}

/// Performs an event of two desks, at the desk of the event's role. Returns the outcome.
fn happen(
    requester: &mut DeskParty,
    responder: &mut DeskParty,
    alloc: Global,
    event: &DeskEvent,
) -> Result<DeskOutcome, OutOfMemory>
    ensures { GivesOutcome
        (model.desks_happen (record { requester = requester.old; responder = responder.old }) event.now)
        (record { requester = requester.old; responder = responder.old }) result
        (record { requester = requester.new; responder = responder.new }) }
{
    match event.who() {
        Role::Requester => perform(requester, responder, alloc, event),
        Role::Responder => perform(responder, requester, alloc, event),
    }
}

/// Performs an event of the desk `party`, and returns the outcome. The desk `other` has sent the messages that may be
/// delivered to `party`.
fn perform(
    party: &mut DeskParty,
    other: &DeskParty,
    alloc: Global,
    event: &DeskEvent,
) -> Result<DeskOutcome, OutOfMemory>
    ensures { GivesOutcome (model.desk_happens_to party.old other.now.sent event.now)
        party.old result party.new }
{
    match event {
        DeskEvent::Wish(txn, wish) => party.act(alloc, txn, &Action::Wish(copy(alloc, wish)?)),
        DeskEvent::Deed(txn, deed, today) => party.act(alloc, txn, &Action::Deed(*deed, *today)),
        DeskEvent::Save(_) => party.save(alloc),
        DeskEvent::SaveFault { landed, .. } => party.fail_to_save(alloc, *landed),
        DeskEvent::Send(_, txn, number) => party.send(alloc, txn, *number),
        DeskEvent::Deliver(_, txn, number) => match other.sent(txn, *number) {
            Some(message) => party.take(alloc, message),
            None => Ok(DeskOutcome::Plain(Outcome::NotSent)),
        },
        DeskEvent::Noise(_, bytes) => Ok(DeskOutcome::Plain(heard(alloc, bytes.as_slice())?)),
        DeskEvent::Restart(_) => party.restart(alloc),
    }
}
