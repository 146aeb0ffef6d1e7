//! The copy of the committed record that a desk of one side has in memory.

ghost use Rattle.std.specs.Prelude.{◌≡◌, ◌++◌, ◌-◌, ◌≤◌, length, map, drop, Some, IfOk};
ghost use Rattle.std.specs.List.{All, slice_get};
ghost use Rattle.ill_der.specs.ShortForm.{encoding};
ghost use Rattle.ill_record.specs.Layout.{encode_all};
ghost use Rattle.ill_record.specs.Side.{issued_of};
ghost use Rattle.ill_record.specs.Records.{record_encoding};
ghost use Rattle.ill_saved.specs.CommittedBytes.{CommittedBytes, no_committed_record, committed_bytes_of, IsCommittedRecord, HoldsReleased, GoesBackTo, piece_at, IsWithin, EndsWith};

use ill_der::size;
use ill_record::{Side, Standing, encode_after};
use ill_values::{Apdu, Number, OutOfMemory};
use std::alloc::Global;
use std::marker::Model;

/// The place of a message in a record: its offset from the first message, and its length in bytes.
#[derive(Clone, Copy, Debug)]
pub struct Place {
    start: usize,
    size: usize,
}

/// The bytes of a committed record, the place of each message in them, and the standing of its side. The messages are
/// the last part of the record, from offset `first` on.
#[derive(Debug, Drop)]
pub struct CommittedRecord {
    standing: Option<Standing>,
    bytes: Vec<u8>,
    first: usize,
    places: Vec<Place>,
}

/// Each place lies within the messages, which are the bytes from `first` on.
impl Model for CommittedRecord {
    ghost Value = { CommittedBytes };

    ghost view = { λ k. record {
      standing = k.standing;
      bytes = k.bytes.items;
      messages = drop k.first k.bytes.items;
      pieces = map (piece_at (drop k.first k.bytes.items)) k.places.items;
    } };

    ghost invariant = { λ k. (k.first ≤ length k.bytes.items)
        × All (IsWithin (length (drop k.first k.bytes.items))) k.places.items };
}

impl CommittedRecord {
    /// Returns the copy of a desk that knows of no committed record. Allocates nothing.
    pub fn none(alloc: Global) -> CommittedRecord
        ensures { result ≡ no_committed_record }
    {
        CommittedRecord {
            standing: None,
            bytes: Vec::new(alloc),
            first: 0,
            places: Vec::new(alloc),
        }
    }

    /// Returns the copy of the record of `side`. `bytes` must be that record. Allocates the places.
    pub fn of(alloc: Global, bytes: Vec<u8>, side: &Side) -> Result<CommittedRecord, OutOfMemory>
        requires encoded { bytes.items ≡ record_encoding side.now }
        ensures { IfOk result (λ committed_record. committed_record ≡ committed_bytes_of side.now) }
    {
        CommittedRecord::none(alloc).followed_by(alloc, side.standing(), bytes, side.all_issued())
    }

    /// Returns the record of `side`, whose first `released` messages are in this copy. Copies these, and encodes
    /// only the others.
    pub fn next(
        &self,
        alloc: Global,
        side: &Side,
        released: u8,
    ) -> Result<CommittedRecord, OutOfMemory>
        requires keeps { HoldsReleased self.now side.now released }
        ensures { IfOk result (λ committed_record. IsCommittedRecord committed_record side.now) }
    {
        let others = issued_after(side, released);
        let bytes = encode_after(alloc, side, self.messages(), others)?;
        self.followed_by(alloc, side.standing(), bytes, others)
    }

    /// Returns the copy of a record with `standing` and `bytes`. Its messages are those of this copy, and `apdus` after
    /// them. `bytes` must end with the encodings of all these messages.
    fn followed_by(
        &self,
        alloc: Global,
        standing: Standing,
        bytes: Vec<u8>,
        apdus: &[Apdu],
    ) -> Result<CommittedRecord, OutOfMemory>
        requires ends { EndsWith (self.now.messages ++ encode_all encoding apdus.now) bytes.items }
        ensures { IfOk result (λ committed_record. committed_record ≡ record {
          standing = Some standing;
          bytes = bytes.items;
          messages = self.now.messages ++ encode_all encoding apdus.now;
          pieces = self.now.pieces ++ map encoding apdus.now;
        }) }
    {
        let mut places = Vec::from_slice(alloc, &self.places)?;
        let mut end = self.messages().len();
        for apdu in apdus {
            let size = size(apdu);
            places.push(Place { start: end, size })?;
            end += size;
        }
        let first = bytes.len() - end;
        Ok(CommittedRecord {
            standing: Some(standing),
            bytes,
            first,
            places,
        })
    }

    /// If `bytes` are this record, takes `live` back to its side and returns true. Otherwise returns false, and changes
    /// nothing. `released` must be the number of released messages. Allocates nothing.
    pub fn take_back(&self, bytes: &[u8], released: u8, live: &mut Side) -> bool
        requires keeps { HoldsReleased self.now live.old released }
        ensures { GoesBackTo self.now released bytes.now result live.old live.new }
    {
        match &self.standing {
            Some(standing) if *bytes == *self.bytes => live.go_back(standing, released),
            _ => false,
        }
    }

    /// Returns the bytes of the record.
    pub fn bytes(&self) -> &[u8]
        ensures { result.now ≡ self.now.bytes }
    {
        &self.bytes
    }

    /// Returns the last part of the bytes, which has the messages.
    fn messages(&self) -> &[u8]
        ensures { result.now ≡ self.now.messages }
    {
        &self.bytes[self.first..]
    }

    /// Returns the bytes of message `number`, which must be in the record.
    pub fn message(&self, number: Number) -> &[u8]
        requires { number ≤ length self.now.pieces }
        ensures { slice_get self.now.pieces (number - 1) ≡ Some result.now }
    {
        let place = self.places[usize::from(number.get()) - 1];
        piece(self.messages(), place)
    }
}

/// Returns the bytes of `messages` at `place`.
fn piece(messages: &[u8], place: Place) -> &[u8]
    requires { IsWithin (length messages.now) place }
    ensures { result.now ≡ piece_at messages.now place }
{
    &messages[place.start..place.start + place.size]
}

/// Returns the messages of `side` after the first `count`.
fn issued_after(side: &Side, count: u8) -> &[Apdu]
    requires { count ≤ length (issued_of side.now) }
    ensures { result.now ≡ drop count (issued_of side.now) }
{
    &side.all_issued()[usize::from(count)..]
}
