//! An event may happen to two sides or two desks, and has an outcome.

ghost use Rattle.std.specs.Prelude.{◌≡◌, IfOk};
ghost use Rattle.ill_world.specs.World.{who_of};
ghost use Rattle.ill_world.specs.Desks.{plain};
ghost use Rattle.ill_world.specs.DeskScript.{in_txn};

use ill_core::{Deed, Wish};
use ill_saved::Role;
use ill_values::{Day, Number, OutOfMemory, TxnId};
use ill_words::Bytes;
use std::alloc::Global;

/// An event may happen to one of the two sides.
#[derive(Debug, PartialEq, Eq, Drop)]
pub enum Event {
    /// The requester's library has this wish.
    Wish(Wish),
    /// The responder's library does this deed, on this day.
    Deed(Deed, Day),
    /// The side is saved.
    Save(Role),
    /// The save of a side fails.
    SaveFault {
        /// The side whose save fails.
        who: Role,
        /// True if the new record is committed nevertheless.
        landed: bool,
    },
    /// The side sends its message with this number.
    Send(Role, Number),
    /// This side takes the message of the other side with this number.
    Deliver(Role, Number),
    /// This side gets bytes that the other side has not sent.
    Noise(Role, Bytes),
    /// The side in memory is replaced by the one that is committed.
    Restart(Role),
}

impl Event {
    /// Returns the role of the side to which the event happens.
    pub fn who(&self) -> Role
        ensures { result ≡ who_of self.now }
    {
        match self {
            Event::Wish(_) => Role::Requester,
            Event::Deed(_, _) => Role::Responder,
            Event::Save(who)
            | Event::SaveFault { who, .. }
            | Event::Send(who, _)
            | Event::Deliver(who, _)
            | Event::Noise(who, _)
            | Event::Restart(who) => *who,
        }
    }

    /// Returns the event of two desks. It names `txn` if it is an event of one transaction.
    pub(crate) fn in_txn(self, alloc: Global, txn: &TxnId) -> Result<DeskEvent, OutOfMemory>
        ensures { IfOk result (λ event. event ≡ in_txn txn.now self) }
    {
        Ok(match self {
            Event::Wish(wish) => DeskEvent::Wish(txn.copy(alloc)?, wish),
            Event::Deed(deed, today) => DeskEvent::Deed(txn.copy(alloc)?, deed, today),
            Event::Save(who) => DeskEvent::Save(who),
            Event::SaveFault { who, landed } => DeskEvent::SaveFault { who, landed },
            Event::Send(who, number) => DeskEvent::Send(who, txn.copy(alloc)?, number),
            Event::Deliver(who, number) => DeskEvent::Deliver(who, txn.copy(alloc)?, number),
            Event::Noise(who, bytes) => DeskEvent::Noise(who, bytes),
            Event::Restart(who) => DeskEvent::Restart(who),
        })
    }
}

/// An event may happen to one of two desks of many transactions. An event of one transaction names it. A save, a failed
/// save and a restart of a desk happen in each transaction. Noise happens in none.
#[derive(Debug, PartialEq, Eq, Drop)]
pub enum DeskEvent {
    /// The requester's library has this wish, in this transaction.
    Wish(TxnId, Wish),
    /// The responder's library does this deed, in this transaction and on this day.
    Deed(TxnId, Deed, Day),
    /// The desk is saved.
    Save(Role),
    /// The save of a desk fails.
    SaveFault {
        /// The desk whose save fails.
        who: Role,
        /// True if the new record is committed nevertheless.
        landed: bool,
    },
    /// The desk sends its message with this number, in this transaction.
    Send(Role, TxnId, Number),
    /// This desk takes the message of the other desk with this number, in this transaction.
    Deliver(Role, TxnId, Number),
    /// This desk gets bytes that the other desk has not sent.
    Noise(Role, Bytes),
    /// The sides in memory are replaced by those that are committed.
    Restart(Role),
}

impl DeskEvent {
    /// Returns the role of the desk to which the event happens.
    pub fn who(&self) -> Role
        ensures { result ≡ who_of (plain self.now) }
    {
        match self {
            DeskEvent::Wish(_, _) => Role::Requester,
            DeskEvent::Deed(_, _, _) => Role::Responder,
            DeskEvent::Save(who)
            | DeskEvent::SaveFault { who, .. }
            | DeskEvent::Send(who, _, _)
            | DeskEvent::Deliver(who, _, _)
            | DeskEvent::Noise(who, _)
            | DeskEvent::Restart(who) => *who,
        }
    }
}
