//! The side of a desk of one side.

ghost use Rattle.std.specs.Prelude.{◌≡◌, ◌≤◌, length, IfOk};
ghost use Rattle.ill_record.specs.Side.{issued_of, idle_of, idle_side};
ghost use Rattle.ill_record.specs.Records.{record_encoding, record_at, begins_as_record, Decodes};
ghost use Rattle.ill_record.specs.Ranges.{IsSide};
ghost use Rattle.ill_saved.specs.Holdings.{DeskEntry};
ghost use Rattle.ill_saved.specs.OneSide.{OneBacks, alone, one_side};
ghost use Rattle.ill_saved.specs.CommittedBytes.{HoldsReleased, IsCommittedRecord};

use crate::committed_record::CommittedRecord;
use crate::desk::StoreOk;
use crate::fault::DeskFault;
use crate::held::Held;
use crate::holdings::Holdings;
use crate::shown::Shown;
use ill_core::Taking;
use ill_record::{Action, RecordFault, Role, Side, decode_record, laws};
use ill_values::{Apdu, Number, OutOfMemory, TxnId};
use std::alloc::Global;
use std::marker::Model;

/// One side of a transaction, with the number of its released messages.
///
/// It has a copy of the last record that is known to be committed. Messages are sent from this copy, and the next
/// record copies them from it.
#[derive(Debug, Drop)]
pub struct OneSide {
    side: Side,
    released: u8,
    committed_record: CommittedRecord,
}

/// At most the issued messages are released, and the copy of the committed record has the released ones.
impl Model for OneSide {
    ghost Value = { DeskEntry };

    ghost view = { λ held. record { side = held.side; released = held.released } };

    ghost invariant = { λ held. (held.released ≤ length (issued_of held.side))
        × HoldsReleased held.committed_record held.side held.released };
}

impl OneSide {
    /// Returns `side` with none of its messages released.
    pub(crate) fn alone(alloc: Global, side: Side) -> OneSide
        ensures { result ≡ alone side }
    {
        OneSide {
            side,
            released: 0,
            committed_record: CommittedRecord::none(alloc),
        }
    }

    /// Becomes the idle side of this role and transaction, with none of its messages released. Allocates nothing.
    fn begin_again(&mut self, alloc: Global)
        ensures { self.new ≡ alone (idle_of self.old.side) }
    {
        self.side.become_idle();
        self.released = 0;
        self.committed_record = CommittedRecord::none(alloc);
    }

    /// Returns the side in memory.
    pub(crate) fn side(&self) -> &Side
        ensures value { result.now ≡ self.now.side }
        ensures issued { self.now.released ≤ length (issued_of self.now.side) }
    {
        &self.side
    }

    /// Returns the number of released messages.
    pub(crate) fn released(&self) -> u8
        ensures { result ≡ self.now.released }
    {
        self.released
    }
}

/// The name of the one side.
const ONE: () = ();

/// Each call does as the trait `Held` says.
impl Held for OneSide {
    type Key = ();

    type First = (Role, TxnId);

    type Record = CommittedRecord;

    ghost effects = { one_side };

    ghost backs = { OneBacks };

    ghost in_range = { λ held. IsSide held.side };

    ghost begun = { λ first. alone (idle_side first.0 first.1) };

    ghost encoded = { λ made. made.bytes };

    ghost fits = { λ made held. IsCommittedRecord made held.side };

    fn begin(alloc: Global, first: (Role, TxnId)) -> OneSide {
        let (role, txn) = first;
        OneSide::alone(alloc, Side::idle(alloc, role, txn))
    }

    /// Decodes the side, and keeps `bytes` as the copy of the committed record.
    fn read(alloc: Global, bytes: Vec<u8>, _ok: StoreOk) -> Result<OneSide, DeskFault> {
        let side = read_side(alloc, &bytes)?;
        let committed_record = CommittedRecord::of(alloc, bytes, &side)?;
        let released = side.issued_count();
        Ok(OneSide {
            side,
            released,
            committed_record,
        })
    }

    fn act(&mut self, alloc: Global, _key: &(), action: &Action) -> Result<(), DeskFault> {
        laws::rows_grow();
        laws::rows_keep_request();
        Ok(self.side.act(alloc, action)?)
    }

    fn take(&mut self, alloc: Global, apdu: &Apdu) -> Result<Taking, DeskFault> {
        laws::rows_grow();
        laws::rows_keep_request();
        Ok(self.side.take(alloc, apdu)?)
    }

    /// Copies the bytes of the message from the copy of the committed record.
    fn message(&self, alloc: Global, _key: &(), number: Number) -> Result<Vec<u8>, DeskFault> {
        if self.side.issued(number).is_none() {
            return Err(DeskFault::NoSuchMessage);
        }
        if number.get() > self.released {
            return Err(DeskFault::NotSaved);
        }
        Ok(Vec::from_slice(alloc, self.committed_record.message(number))?)
    }

    /// Makes the next record. It copies the released messages from the committed one.
    fn record(&self, alloc: Global) -> Result<CommittedRecord, OutOfMemory> {
        laws::read_again();
        self.committed_record.next(alloc, &self.side, self.released)
    }

    fn bytes(made: &CommittedRecord) -> &[u8] {
        made.bytes()
    }

    /// Releases all messages. The record `committed` becomes the copy.
    fn release(&mut self, committed: CommittedRecord, _ok: StoreOk) {
        self.released = self.side.issued_count();
        self.committed_record = committed;
    }

    /// If `bytes` are the copy of the committed record, takes the live side back to it. Otherwise decodes them.
    fn go_back(
        &mut self,
        alloc: Global,
        bytes: Option<Vec<u8>>,
        ok: StoreOk,
    ) -> Result<(), DeskFault> {
        laws::read_again();
        let Some(bytes) = bytes else {
            self.begin_again(alloc);
            return Ok(());
        };
        if self
            .committed_record
            .take_back(&bytes, self.released, &mut self.side)
        {
            return Ok(());
        }
        *self = OneSide::read(alloc, bytes, ok)?;
        Ok(())
    }
}

impl Holdings for OneSide {
    fn role(&self) -> Role {
        self.side.role()
    }

    fn key_of(_apdu: &Apdu) -> &() {
        &ONE
    }

    fn first_key(&self) -> Option<&()> {
        Some(&ONE)
    }

    fn shown(&self, _key: &()) -> Shown {
        Shown::of(&self.side, self.released)
    }
}

/// Decodes the side that `bytes` encode. This side is consistent and in range, and `bytes` are its encoding.
fn read_side(alloc: Global, bytes: &[u8]) -> Result<Side, RecordFault>
    ensures decodes { Decodes (record_at bytes.now) (begins_as_record bytes.now) result }
    ensures encoded { IfOk result (λ side. IsSide side × (bytes.now ≡ record_encoding side)) }
{
    laws::encoded();
    decode_record(alloc, bytes)
}
