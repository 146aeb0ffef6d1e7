//! The unread rest of a saved record.
//!
//! A method fails with `Short` if the bytes end within a field. It fails with `Bad` at the first byte of a field if the
//! bytes encode no value of that field.
//!
//! In the contracts, `read` names the field of `specs/` that gives the result. `room` bounds the offset before a field
//! is read, and `near` the offset after it.

ghost use Rattle.std.specs.Prelude.{◌≡◌, ◌+◌, ◌*◌, ◌≤◌, length, IfOk, OnOk};
ghost use Rattle.ill_values.specs.Text.{IsQualifier};
ghost use Rattle.ill_der.specs.Contents.{qualifier};
ghost use Rattle.ill_der.specs.Format as model;
ghost use Rattle.ill_der.specs.Format.{cursor_at, Reads};
ghost use Rattle.ill_record.specs.Layout.{ReadsInMemory, bytes_at, sized, constant, count, optional_number, mark, text_size, counted_text, apdu, ill_request, marked, counted, ended};
ghost use Rattle.ill_record.specs.Records.{state_in, requester_states, responder_states, due, role};
ghost use Rattle.ill_record.specs.RecordsV2.{two_octets, side_count};
ghost use Rattle.ill_record.specs.Sides.{most_sides};

use crate::fault::{LayoutFault, RecordFault};
use crate::role::Role;
use crate::sides::SIDES_LIMIT;
use ill_core::State;
use ill_der::{DerFault, decode};
use ill_values::{Apdu, Body, Day, Number, QUALIFIER_LIMIT, TxnId};
use std::alloc::Global;
use std::marker::Model;

/// Holds the bytes of a record that are not read yet, and the offset of the first in the record.
#[derive(Drop)]
pub struct Cursor<'a> {
    at: u32,
    bytes: &'a [u8],
}

impl<'a> Model for Cursor<'a> {
    ghost Value = { model.Cursor };

    ghost view = { λ c. record { at = c.at; bytes = c.bytes.now } };
}

impl<'a> Cursor<'a> {
    /// Returns the cursor at the first byte of a record.
    pub fn new(bytes: &'a [u8]) -> Cursor<'a>
        ensures { result ≡ cursor_at 0 bytes.entry.now }
    {
        Cursor { at: 0, bytes }
    }

    /// Returns the cursor at offset `at` of a record. `bytes` are the rest of the record from there on.
    pub fn after(at: u32, bytes: &'a [u8]) -> Cursor<'a>
        ensures { result ≡ cursor_at at bytes.entry.now }
    {
        Cursor { at, bytes }
    }

    /// Returns the offset of the first unread byte.
    pub fn at(&self) -> u32
        ensures { result ≡ self.now.at }
    {
        self.at
    }

    /// Checks that all bytes were read. Otherwise the fault is `Bad` at the first unread byte.
    pub fn ended(&self) -> Result<(), LayoutFault>
        ensures { result ≡ ended self.now }
    {
        if self.bytes.is_empty() {
            Ok(())
        } else {
            Err(LayoutFault::Bad(self.at))
        }
    }

    /// Reads `size` bytes.
    pub fn bytes(&mut self, size: usize) -> Result<&'a [u8], LayoutFault>
        requires room { self.old.at ≤ 100000000 }
        requires few { size ≤ 65535 }
        ensures read { Reads (λ part. part.now) result self.new (bytes_at size self.old) }
        ensures near { OnOk result (self.new.at ≡ self.old.at + size) }
    {
        if self.bytes.len() < size {
            return Err(LayoutFault::Short);
        }
        let part = &self.bytes[..size];
        self.bytes = &self.bytes[size..];
        self.at += size as u32;
        Ok(part)
    }

    /// Reads an octet of any value.
    pub fn octet(&mut self) -> Result<u8, LayoutFault>
        requires room { self.old.at ≤ 100000000 }
        ensures read { Reads (λ n. n) result self.new (count.read self.old) }
        ensures near { OnOk result (self.new.at ≡ self.old.at + 1) }
    {
        match self.bytes {
            [octet, after @ ..] => {
                self.at += 1;
                self.bytes = after;
                Ok(*octet)
            }
            [] => Err(LayoutFault::Short),
        }
    }

    /// Reads a number of two octets, the high one first.
    pub fn two_octets(&mut self) -> Result<usize, LayoutFault>
        requires room { self.old.at ≤ 100000000 }
        ensures read { Reads (λ n. n) result self.new (two_octets.read self.old) }
        ensures few { IfOk result (λ n. n ≤ 65535) }
        ensures near { OnOk result (self.new.at ≡ self.old.at + 2) }
    {
        let octets = self.bytes(2)?;
        Ok(usize::from(u16::from_be_bytes([octets[0], octets[1]])))
    }

    /// Reads the number of sides, in two octets. A number over 1,000 is a fault.
    pub fn side_count(&mut self) -> Result<u16, LayoutFault>
        requires room { self.old.at ≤ 1000 }
        ensures read { Reads (λ n. n) result self.new (side_count.read self.old) }
        ensures few { IfOk result (λ n. n ≤ most_sides) }
        ensures near { OnOk result (self.new.at ≡ self.old.at + 2) }
    {
        let at = self.at;
        let octets = self.bytes(2)?;
        let count = u16::from_be_bytes([octets[0], octets[1]]);
        if count > SIDES_LIMIT as u16 {
            Err(LayoutFault::Bad(at))
        } else {
            Ok(count)
        }
    }

    /// Reads the octet `value`. Any other octet is a fault.
    pub fn constant(&mut self, value: u8) -> Result<(), LayoutFault>
        requires room { self.old.at ≤ 100000000 }
        ensures read { Reads (λ v. v) result self.new ((constant value).read self.old) }
        ensures near { OnOk result (self.new.at ≡ self.old.at + 1) }
    {
        let at = self.at;
        if self.octet()? == value {
            Ok(())
        } else {
            Err(LayoutFault::Bad(at))
        }
    }

    /// Reads a truth value: 0 is false, and 1 is true.
    pub fn mark(&mut self) -> Result<bool, LayoutFault>
        requires room { self.old.at ≤ 100000000 }
        ensures read { Reads (λ b. b) result self.new (mark.read self.old) }
        ensures near { OnOk result (self.new.at ≡ self.old.at + 1) }
    {
        let at = self.at;
        match self.octet()? {
            0 => Ok(false),
            1 => Ok(true),
            _ => Err(LayoutFault::Bad(at)),
        }
    }

    /// Reads a role: 0 is a requester, and 1 a responder.
    pub fn role(&mut self) -> Result<Role, LayoutFault>
        requires room { self.old.at ≤ 100000000 }
        ensures read { Reads (λ r. r) result self.new (role.read self.old) }
        ensures near { OnOk result (self.new.at ≡ self.old.at + 1) }
    {
        let at = self.at;
        match self.octet()? {
            0 => Ok(Role::Requester),
            1 => Ok(Role::Responder),
            _ => Err(LayoutFault::Bad(at)),
        }
    }

    /// Reads an octet as the number of a message. The octet 0 is no number.
    pub fn optional_number(&mut self) -> Result<Option<Number>, LayoutFault>
        requires room { self.old.at ≤ 100000000 }
        ensures read { Reads (λ n. n) result self.new (optional_number.read self.old) }
        ensures near { OnOk result (self.new.at ≡ self.old.at + 1) }
    {
        Ok(Number::new(self.octet()?))
    }

    /// Reads the state of a requester.
    pub fn requester_state(&mut self) -> Result<State, LayoutFault>
        requires room { self.old.at ≤ 100000000 }
        ensures read { Reads (λ s. s) result self.new ((state_in requester_states).read self.old) }
        ensures near { OnOk result (self.new.at ≡ self.old.at + 1) }
    {
        let at = self.at;
        match self.octet()? {
            0 => Ok(State::Idle),
            1 => Ok(State::Pending),
            2 => Ok(State::Conditional),
            3 => Ok(State::CancelPending),
            4 => Ok(State::Cancelled),
            5 => Ok(State::NotSupplied),
            6 => Ok(State::Shipped),
            7 => Ok(State::Received),
            8 => Ok(State::RenewPending),
            9 => Ok(State::Overdue),
            10 => Ok(State::RenewOverdue),
            11 => Ok(State::NotReceivedOverdue),
            12 => Ok(State::Recall),
            13 => Ok(State::Returned),
            _ => Err(LayoutFault::Bad(at)),
        }
    }

    /// Reads the state of a responder.
    pub fn responder_state(&mut self) -> Result<State, LayoutFault>
        requires room { self.old.at ≤ 100000000 }
        ensures read { Reads (λ s. s) result self.new ((state_in responder_states).read self.old) }
        ensures near { OnOk result (self.new.at ≡ self.old.at + 1) }
    {
        let at = self.at;
        match self.octet()? {
            0 => Ok(State::Idle),
            1 => Ok(State::InProcess),
            2 => Ok(State::Conditional),
            3 => Ok(State::CancelPending),
            4 => Ok(State::Cancelled),
            5 => Ok(State::NotSupplied),
            6 => Ok(State::Shipped),
            8 => Ok(State::RenewPending),
            9 => Ok(State::Overdue),
            10 => Ok(State::RenewOverdue),
            12 => Ok(State::Recall),
            13 => Ok(State::Returned),
            14 => Ok(State::CheckedIn),
            _ => Err(LayoutFault::Bad(at)),
        }
    }

    /// Reads the length of a qualifier, and then the qualifier. An invalid qualifier is a fault at its own first byte.
    pub fn counted_text(&mut self) -> Result<&'a [u8], LayoutFault>
        requires room { self.old.at ≤ 1000000 }
        ensures read { Reads (λ text. text.now) result self.new (counted_text.read self.old) }
        ensures qualifier { IfOk result (λ text. IsQualifier text.now) }
        ensures near { OnOk result (self.new.at ≤ self.old.at + 65) }
    {
        let size = self.text_size()?;
        let at = self.at;
        let text = self.bytes(size)?;
        if TxnId::is_qualifier(text) {
            Ok(text)
        } else {
            Err(LayoutFault::Bad(at))
        }
    }

    /// Reads the length of a qualifier: 1 to 64.
    fn text_size(&mut self) -> Result<usize, LayoutFault>
        requires room { self.old.at ≤ 100000000 }
        ensures read { Reads (λ n. n) result self.new (text_size.read self.old) }
        ensures few { IfOk result (λ size. size ≤ 64) }
        ensures near { OnOk result (self.new.at ≡ self.old.at + 1) }
    {
        let at = self.at;
        let size = usize::from(self.octet()?);
        if size == 0 || size > QUALIFIER_LIMIT {
            Err(LayoutFault::Bad(at))
        } else {
            Ok(size)
        }
    }

    /// Reads eight bytes as a due date. Eight zeros are no due date, and any other text without a date is a fault.
    pub fn due(&mut self) -> Result<Option<Day>, LayoutFault>
        requires room { self.old.at ≤ 100000000 }
        ensures read { Reads (λ d. d) result self.new (due.read self.old) }
        ensures near { OnOk result (self.new.at ≡ self.old.at + 8) }
    {
        let at = self.at;
        let text = self.bytes(8)?;
        if text == b"00000000".as_slice() {
            return Ok(None);
        }
        match Day::read(text) {
            Ok(day) => Ok(Some(day)),
            Err(_) => Err(LayoutFault::Bad(at)),
        }
    }

    /// Reads an APDU in its short form, or fails with the lack of memory.
    pub fn apdu(&mut self, alloc: Global) -> Result<Apdu, RecordFault>
        requires room { self.old.at ≤ 100000000 }
        ensures read { ReadsInMemory (λ a. a) result self.new (apdu.read self.old) }
        ensures near { OnOk result (self.new.at ≤ self.old.at + 359) }
    {
        match decode(alloc, self.bytes) {
            Ok((apdu, size)) => {
                self.at += size as u32;
                self.bytes = &self.bytes[size..];
                Ok(apdu)
            }
            Err(DerFault::Short(_)) => Err(RecordFault::Short),
            Err(DerFault::OutOfMemory) => Err(RecordFault::OutOfMemory),
            Err(_) => Err(RecordFault::Bad(self.at)),
        }
    }

    /// Reads a mark, and then an ILL-Request if the mark is true. Returns `None` if the mark is false.
    pub fn request(&mut self, alloc: Global) -> Result<Option<Apdu>, RecordFault>
        requires room { self.old.at ≤ 1000000 }
        ensures read { ReadsInMemory (λ a. a) result self.new ((marked ill_request).read self.old) }
        ensures near { OnOk result (self.new.at ≤ self.old.at + 360) }
    {
        if self.mark()? {
            Ok(Some(self.ill_request(alloc)?))
        } else {
            Ok(None)
        }
    }

    /// Reads an ILL-Request. Any other APDU is a fault at its first byte.
    fn ill_request(&mut self, alloc: Global) -> Result<Apdu, RecordFault>
        requires room { self.old.at ≤ 100000000 }
        ensures read { ReadsInMemory (λ a. a) result self.new (ill_request.read self.old) }
        ensures near { OnOk result (self.new.at ≤ self.old.at + 359) }
    {
        let at = self.at;
        let apdu = self.apdu(alloc)?;
        match apdu.body {
            Body::IllRequest { .. } => Ok(apdu),
            _ => Err(RecordFault::Bad(at)),
        }
    }
}
