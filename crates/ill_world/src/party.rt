//! A party is one of the two sides, with its store and the messages that it has sent. A call that performs an event
//! returns the outcome. If memory runs out, the call changes nothing.

ghost use Rattle.std.specs.Prelude.{◌≡◌, false, nat_le, option_map, IfOk};
ghost use Rattle.ill_der.specs.ShortForm.{apdu_at};
ghost use Rattle.ill_core.specs.Issued.{message};
ghost use Rattle.ill_record.specs.Side.{acts, issued_of, idle_of, txn_of};
ghost use Rattle.ill_world.specs.World as model;
ghost use Rattle.ill_words.specs.declared.outcome.Outcome.TheVariants as outcomes;
ghost use Rattle.ill_world.specs.Trace.{party_shown};
ghost use Rattle.ill_world.specs.PartyRefinement.{party_of, IsReady, GivesOutcome, is_of};

use crate::message::Message;
use crate::sent::Sent;
use ill_der::{DerFault, decode};
use ill_saved::{Action, Desk1, DeskFault, MemoryStore, NextCall, Shown, Side, StoreFault};
use ill_values::{Number, OutOfMemory};
use ill_words::Outcome;
use std::alloc::Global;
use std::marker::Model;

/// A party has the desk of one side, and the messages that the side has sent.
#[derive(Debug, Drop)]
pub struct Party {
    desk: Desk1<MemoryStore>,
    sent: Sent,
}

/// Contracts see a party as one of the model. Its next save works, and its committed side can be read.
impl Model for Party {
    ghost Value = { model.Party };

    ghost view = { λ p. party_of p.desk p.sent };

    ghost invariant = { λ p. IsReady p.desk };
}

impl Party {
    /// Returns the party of a new side. Nothing is committed, and nothing was sent.
    pub fn new(alloc: Global, first: Side) -> Result<Party, OutOfMemory>
        requires idle { first ≡ idle_of first }
        ensures { IfOk result (λ party. party ≡ model.first_party first) }
    {
        let sent = Sent::nothing(alloc)?;
        match Desk1::create(alloc, MemoryStore::new(alloc), first) {
            Ok(desk) => Ok(Party { desk, sent }),
            Err((DeskFault::OutOfMemory, _)) => Err(OutOfMemory),
            Err(_) => unreachable!(),
        }
    }

    /// Performs an action of the library.
    pub fn act(&mut self, alloc: Global, action: &Action) -> Result<Outcome, OutOfMemory>
        ensures { GivesOutcome (model.decides self.old (acts self.old.live action.now))
            self.old result self.new }
    {
        ill_saved::laws::rows_grow();
        match self.desk.act(alloc, action) {
            Ok(()) => Ok(Outcome::Done),
            Err(DeskFault::Core(refusal)) => Ok(Outcome::Refused(refusal)),
            Err(DeskFault::OutOfMemory) => Err(OutOfMemory),
            Err(_) => unreachable!(),
        }
    }

    /// Takes a message of the other side.
    pub fn take(&mut self, alloc: Global, message: &Message) -> Result<Outcome, OutOfMemory>
        ensures { GivesOutcome (model.takes_message self.old message.now) self.old result self.new }
    {
        ill_saved::laws::rows_grow();
        match self.desk.take_bytes(alloc, message.bytes()) {
            Ok(taking) => Ok(Outcome::Answered(taking)),
            Err(DeskFault::Core(refusal)) => Ok(Outcome::Refused(refusal)),
            Err(DeskFault::OutOfMemory) => Err(OutOfMemory),
            Err(_) => unreachable!(),
        }
    }

    /// Saves the side.
    pub fn save(&mut self, alloc: Global) -> Result<Outcome, OutOfMemory>
        ensures { GivesOutcome (outcomes.Saved, model.saves self.old) self.old result self.new }
    {
        ill_saved::laws::read_again();
        match self.desk.save(alloc) {
            Ok(()) => Ok(Outcome::Saved),
            Err(DeskFault::OutOfMemory) => Err(OutOfMemory),
            Err(_) => unreachable!(),
        }
    }

    /// Tries to save the side, and fails. The new record is committed if `committed` is true.
    pub fn fail_to_save(&mut self, alloc: Global, committed: bool) -> Result<Outcome, OutOfMemory>
        ensures { GivesOutcome (outcomes.Faulted, model.fails_to_save self.old committed)
            self.old result self.new }
    {
        ill_saved::laws::read_again();
        self.desk.set_next(if committed {
            NextCall::FailsNew
        } else {
            NextCall::FailsOld
        });
        match self.desk.save(alloc) {
            Err(DeskFault::Store(StoreFault::Failed)) => Ok(Outcome::Faulted),
            Err(DeskFault::OutOfMemory) => {
                // The event has not happened, so that the next call of the store must work again.
                self.desk.set_next(NextCall::Works);
                Err(OutOfMemory)
            }
            _ => unreachable!(),
        }
    }

    /// Replaces the side in memory by the one that is committed.
    pub fn restart(&mut self, alloc: Global) -> Result<Outcome, OutOfMemory>
        ensures { GivesOutcome (outcomes.Restarted, model.restarts self.old)
            self.old result self.new }
    {
        match self.desk.restart(alloc) {
            Ok(()) => Ok(Outcome::Restarted),
            Err(DeskFault::OutOfMemory) => Err(OutOfMemory),
            Err(_) => unreachable!(),
        }
    }

    /// Sends the message with this number.
    pub fn send(&mut self, alloc: Global, number: Number) -> Result<Outcome, OutOfMemory>
        ensures { GivesOutcome (model.sends self.old number (message (issued_of self.old.live) number)
            (nat_le number self.old.released)) self.old result self.new }
    {
        match self.desk.message(alloc, number) {
            Ok(bytes) => {
                self.sent.put(number, Message::new(bytes));
                Ok(Outcome::Sent)
            }
            Err(DeskFault::NoSuchMessage) => Ok(Outcome::NoSuchMessage),
            Err(DeskFault::NotSaved) => Ok(Outcome::NotSaved),
            Err(DeskFault::OutOfMemory) => Err(OutOfMemory),
            Err(_) => unreachable!(),
        }
    }

    /// Takes noise: bytes that the other side has not sent. They change nothing. Exactly one APDU of the transaction is
    /// `Forged`, and one of another transaction is refused. Other bytes are `Garbled`.
    pub fn hear(&mut self, alloc: Global, bytes: &[u8]) -> Result<Outcome, OutOfMemory>
        ensures { GivesOutcome (model.hears self.old (apdu_at bytes.now), self.old)
            self.old result self.new }
    {
        if self.is_forged(alloc, bytes)? {
            return Ok(Outcome::Forged);
        }
        self.refuse(alloc, bytes)
    }

    /// Returns true if `bytes` are exactly one APDU of this transaction.
    fn is_forged(&self, alloc: Global, bytes: &[u8]) -> Result<bool, OutOfMemory>
        ensures { IfOk result (λ forged. forged ≡ is_of (txn_of self.now.live) (apdu_at bytes.now)) }
    {
        match decode(alloc, bytes) {
            Ok((apdu, size)) => Ok(size == bytes.len() && apdu.txn == *self.side().txn()),
            Err(DerFault::OutOfMemory) => Err(OutOfMemory),
            Err(_) => Ok(false),
        }
    }

    /// Gives the desk bytes that are not exactly one APDU of this transaction. The outcome is `Refused` for exactly one
    /// APDU of another transaction, and else `Garbled`.
    fn refuse(&mut self, alloc: Global, bytes: &[u8]) -> Result<Outcome, OutOfMemory>
        requires other { is_of (txn_of self.old.live) (apdu_at bytes.now) ≡ false }
        ensures { GivesOutcome (model.hears self.old (apdu_at bytes.now), self.old)
            self.old result self.new }
    {
        match self.desk.take_bytes(alloc, bytes) {
            Err(DeskFault::Core(refusal)) => Ok(Outcome::Refused(refusal)),
            Err(DeskFault::Bytes(_) | DeskFault::Trailing) => Ok(Outcome::Garbled),
            Err(DeskFault::OutOfMemory) => Err(OutOfMemory),
            _ => unreachable!(),
        }
    }

    /// Returns the message that was sent under `number`, if there is one.
    pub fn sent(&self, number: Number) -> Option<&Message>
        ensures { option_map (λ m. m.now) result ≡ model.sent_message self.now.sent number }
    {
        self.sent.get(number)
    }

    /// Returns the side in memory.
    pub fn side(&self) -> &Side
        ensures { result.now ≡ self.now.live }
    {
        self.desk.side()
    }

    /// Returns the count of the released messages of the side.
    pub fn released(&self) -> u8
        ensures { result ≡ self.now.released }
    {
        self.desk.released()
    }

    /// Returns the parts of the side that a trace shows.
    pub fn shown(&self) -> Shown
        ensures { result ≡ party_shown self.now }
    {
        self.desk.shown(&())
    }
}
