//! A desk party is one of two desks, with its store and the messages that it has sent. A call that performs an event
//! returns the outcome. If memory runs out, the call changes nothing.

ghost use Rattle.std.specs.Prelude.{◌≡◌, option_map, IfOk};
ghost use Rattle.ill_der.specs.ShortForm.{apdu_at};
ghost use Rattle.ill_saved.specs.ManySides.{desk_acts, found_by, held_for, sides_held, txn_held};
ghost use Rattle.ill_world.specs.World as model;
ghost use Rattle.ill_world.specs.Desks as desks;
ghost use Rattle.ill_words.specs.declared.outcome.DeskOutcome.TheVariants as desk_outcomes;
ghost use Rattle.ill_words.specs.declared.outcome.Outcome.TheVariants as outcomes;
ghost use Rattle.ill_world.specs.PartyRefinement.{GivesOutcome};
ghost use Rattle.ill_world.specs.DeskTrace.{desk_shown};
ghost use Rattle.ill_world.specs.DeskRefinement.{desk_party_of, CanBeSeen, FaultSeen, IsReadyDesk};

use crate::desk_sent::DeskSent;
use crate::message::Message;
use ill_der::{DerFault, decode};
use ill_saved::{Action, Desk, DeskFault, MemoryStore, NextCall, Role, Shown, Sides, StoreFault};
use ill_values::{Number, OutOfMemory, TxnId};
use ill_words::{DeskOutcome, Outcome};
use std::alloc::Global;
use std::marker::Model;

/// A desk party has a desk, and the messages that it has sent.
#[derive(Drop)]
pub struct DeskParty {
    desk: Desk<MemoryStore>,
    sent: DeskSent,
}

/// Contracts see a desk party as a desk of the model. Its next save works, and its committed sides can be read.
impl Model for DeskParty {
    ghost Value = { desks.DeskParty };

    ghost view = { λ p. desk_party_of p.desk p.sent };

    ghost invariant = { λ p. IsReadyDesk p.desk };
}

impl DeskParty {
    /// Returns a desk of this role that holds nothing. Nothing is committed, and nothing was sent.
    pub fn new(alloc: Global, role: Role) -> Result<DeskParty, OutOfMemory>
        ensures { IfOk result (λ party. party ≡ desks.first_desk role) }
    {
        match Desk::create(alloc, MemoryStore::new(alloc), role) {
            Ok(desk) => Ok(DeskParty {
                desk,
                sent: DeskSent::nothing(alloc),
            }),
            Err((DeskFault::OutOfMemory, _)) => Err(OutOfMemory),
            Err(_) => unreachable!(),
        }
    }

    /// Performs an action of the library in a transaction.
    pub fn act(
        &mut self,
        alloc: Global,
        txn: &TxnId,
        action: &Action,
    ) -> Result<DeskOutcome, OutOfMemory>
        ensures { GivesOutcome (desks.desk_decides self.old (desk_acts self.old.live txn.now action.now))
            self.old result self.new }
    {
        match self.desk.act(alloc, txn, action) {
            Ok(()) => Ok(DeskOutcome::Plain(Outcome::Done)),
            Err(fault) => seen(fault),
        }
    }

    /// Takes a message of the other desk.
    pub fn take(&mut self, alloc: Global, message: &Message) -> Result<DeskOutcome, OutOfMemory>
        ensures { GivesOutcome (desks.desk_takes_message self.old message.now) self.old result self.new }
    {
        match self.desk.take_bytes(alloc, message.bytes()) {
            Ok(taking) => Ok(DeskOutcome::Plain(Outcome::Answered(taking))),
            Err(fault) => seen(fault),
        }
    }

    /// Saves the desk.
    pub fn save(&mut self, alloc: Global) -> Result<DeskOutcome, OutOfMemory>
        ensures { GivesOutcome (desk_outcomes.Plain outcomes.Saved, desks.desk_saves self.old)
            self.old result self.new }
    {
        ill_saved::laws::sides_read_again();
        match self.desk.save(alloc) {
            Ok(()) => Ok(DeskOutcome::Plain(Outcome::Saved)),
            Err(DeskFault::OutOfMemory) => Err(OutOfMemory),
            Err(_) => unreachable!(),
        }
    }

    /// Tries to save the desk, and fails. The new record is committed if `committed` is true.
    pub fn fail_to_save(
        &mut self,
        alloc: Global,
        committed: bool,
    ) -> Result<DeskOutcome, OutOfMemory>
        ensures { GivesOutcome (desk_outcomes.Plain outcomes.Faulted, desks.desk_fails_to_save self.old committed)
            self.old result self.new }
    {
        ill_saved::laws::sides_read_again();
        self.desk.set_next(if committed {
            NextCall::FailsNew
        } else {
            NextCall::FailsOld
        });
        match self.desk.save(alloc) {
            Err(DeskFault::Store(StoreFault::Failed)) => Ok(DeskOutcome::Plain(Outcome::Faulted)),
            Err(DeskFault::OutOfMemory) => {
                // The event has not happened, so that the next call of the store must work again.
                self.desk.set_next(NextCall::Works);
                Err(OutOfMemory)
            }
            _ => unreachable!(),
        }
    }

    /// Replaces the sides in memory by those that are committed.
    pub fn restart(&mut self, alloc: Global) -> Result<DeskOutcome, OutOfMemory>
        ensures { GivesOutcome (desk_outcomes.Plain outcomes.Restarted, desks.desk_restarts self.old)
            self.old result self.new }
    {
        match self.desk.restart(alloc) {
            Ok(()) => Ok(DeskOutcome::Plain(Outcome::Restarted)),
            Err(DeskFault::OutOfMemory) => Err(OutOfMemory),
            Err(_) => unreachable!(),
        }
    }

    /// Sends the message of `txn` with this number.
    pub fn send(
        &mut self,
        alloc: Global,
        txn: &TxnId,
        number: Number,
    ) -> Result<DeskOutcome, OutOfMemory>
        ensures { GivesOutcome (desks.desk_sends self.old txn.now number
            (found_by txn_held txn.now self.old.live.held)) self.old result self.new }
    {
        match self.desk.message(alloc, txn, number) {
            Ok(bytes) => {
                self.sent.put(alloc, txn, number, Message::new(bytes))?;
                Ok(DeskOutcome::Plain(Outcome::Sent))
            }
            Err(DeskFault::NoSuchMessage) => Ok(DeskOutcome::Plain(Outcome::NoSuchMessage)),
            Err(DeskFault::NotSaved) => Ok(DeskOutcome::Plain(Outcome::NotSaved)),
            Err(DeskFault::NoSuchTransaction) => Ok(DeskOutcome::NoSuchTransaction),
            Err(DeskFault::OutOfMemory) => Err(OutOfMemory),
            Err(_) => unreachable!(),
        }
    }

    /// Returns the message that was sent in `txn` under `number`, if there is one.
    pub fn sent(&self, txn: &TxnId, number: Number) -> Option<&Message>
        ensures { option_map (λ m. m.now) result
            ≡ model.sent_message (desks.sent_for txn.now self.now.sent) number }
    {
        self.sent.get(txn, number)
    }

    /// Returns the sides that are held in memory.
    pub fn sides(&self) -> &Sides
        ensures { result.now ≡ sides_held self.now.live }
    {
        self.desk.sides()
    }

    /// Returns the count of the released messages of `txn`.
    pub fn released(&self, txn: &TxnId) -> u8
        ensures { result ≡ (held_for txn.now self.now.live).released }
    {
        self.desk.released(txn)
    }

    /// Returns the parts of the side of `txn` that a trace shows. A side that is not held is idle.
    pub fn shown(&self, txn: &TxnId) -> Shown
        ensures { result ≡ desk_shown txn.now self.now }
    {
        self.desk.shown(txn)
    }
}

/// Returns the outcome of noise: bytes that the other desk has not sent. It is `Forged` if `bytes` are exactly one
/// APDU, of any transaction, and else `Garbled`.
pub fn heard(alloc: Global, bytes: &[u8]) -> Result<Outcome, OutOfMemory>
    ensures { IfOk result (λ outcome. outcome ≡ desks.desk_hears (apdu_at bytes.now)) }
{
    match decode(alloc, bytes) {
        Ok((_, size)) => Ok(if size == bytes.len() {
            Outcome::Forged
        } else {
            Outcome::Garbled
        }),
        Err(DerFault::OutOfMemory) => Err(OutOfMemory),
        Err(_) => Ok(Outcome::Garbled),
    }
}

/// Returns the outcome of a fault of an action or a message. Fails if the fault is out of memory.
fn seen(fault: DeskFault) -> Result<DeskOutcome, OutOfMemory>
    requires { CanBeSeen fault }
    ensures { FaultSeen fault result }
{
    match fault {
        DeskFault::Core(refusal) => Ok(DeskOutcome::Plain(Outcome::Refused(refusal))),
        DeskFault::DeskFull => Ok(DeskOutcome::DeskFull),
        DeskFault::NoSuchTransaction => Ok(DeskOutcome::NoSuchTransaction),
        DeskFault::OutOfMemory => Err(OutOfMemory),
        _ => unreachable!(),
    }
}
