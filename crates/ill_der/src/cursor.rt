//! The bytes that are left to read of an element's contents.

ghost use Rattle.std.specs.Prelude.{◌≡◌, ◌+◌, ◌≤◌, length, IfOk, OnOk, Option};
ghost use Rattle.ill_values.specs.Text.{IsQualifier, IsItem};
ghost use Rattle.ill_der.specs.Contents.{number, number_from, version, qualifier, date, item, answer_result, result_from, yes_no};
ghost use Rattle.ill_der.specs.Format as model;
ghost use Rattle.ill_der.specs.Format.{cursor_at, element_at, begins_with, ended, required, optional, Reads};

use crate::fault::DerFault;
use crate::length::{LengthForm, length_of};
use ill_values::{AnswerResult, Day, Item, Number, TxnId};
use std::marker::Model;

/// Holds the unread bytes of an element's contents, and the offset of the first in the APDU.
#[derive(Debug, Drop)]
pub struct Cursor<'a> {
    at: u16,
    bytes: &'a [u8],
}

/// In proofs a cursor is its offset and its bytes. They end within the 359 bytes of the longest APDU.
impl<'a> Model for Cursor<'a> {
    ghost Value = { model.Cursor };

    ghost view = { λ c. record { at = c.at; bytes = c.bytes.now } };

    ghost invariant = { λ c. c.at + length c.bytes.now ≤ 359 };
}

/// Reads fields, one after another. `identifier` is the identifier octet of the field that is read. By `Reads` a reader
/// gives the value and the cursor, or the fault, that the field's description in `specs/Format.antt` gives.
impl<'a> Cursor<'a> {
    /// Returns a cursor over `bytes`. The first of them has the offset `at` in the APDU.
    pub fn new(at: u16, bytes: &'a [u8]) -> Cursor<'a>
        requires { at + length bytes.now ≤ 359 }
        ensures { result ≡ cursor_at at bytes.entry.now }
    {
        Cursor { at, bytes }
    }

    /// Checks that all bytes were read. Otherwise the fault is `Tag` at the first unread byte.
    pub fn ended(&self) -> Result<(), DerFault>
        ensures { result ≡ ended self.now }
    {
        if self.bytes.is_empty() {
            Ok(())
        } else {
            Err(DerFault::Tag(self.at))
        }
    }

    /// Returns true if the next element has `identifier`.
    fn begins_with(&self, identifier: u8) -> bool
        ensures { result ≡ begins_with identifier self.now.bytes }
    {
        match self.bytes {
            [first, ..] => *first == identifier,
            [] => false,
        }
    }

    /// Takes the next element, which must have `identifier`, and returns its contents.
    #[tactic(auto, unfolding(crate::specs::Format::element_at))]
    pub fn element_at(&mut self, identifier: u8) -> Result<Cursor<'a>, DerFault>
        ensures { Reads (λ inside. inside) result self.new (element_at identifier self.old) }
    {
        if !self.begins_with(identifier) {
            return Err(DerFault::Tag(self.at));
        }
        let at = self.at + 1;
        let bytes = &self.bytes[1..];
        match length_of(bytes) {
            LengthForm::Definite(length, octets) => {
                let (start, end) = (octets as usize, octets as usize + length as usize);
                if bytes.len() < end {
                    return Err(DerFault::Length(at));
                }
                self.at = at + octets + length;
                self.bytes = &bytes[end..];
                Ok(Cursor::new(at + octets, &bytes[start..end]))
            }
            LengthForm::Truncated | LengthForm::Invalid => Err(DerFault::Length(at)),
        }
    }

    /// Reads the version, which is always 1.
    pub fn version(&mut self, identifier: u8) -> Result<(), DerFault>
        ensures { Reads (λ v. v) result self.new ((required identifier version).read self.old) }
    {
        let inside = self.element_at(identifier)?;
        match inside.bytes {
            [1] => Ok(()),
            _ => Err(DerFault::Field(inside.at)),
        }
    }

    /// Reads the number of a message.
    pub fn number(&mut self, identifier: u8) -> Result<Number, DerFault>
        ensures { Reads (λ n. n) result self.new ((required identifier number).read self.old) }
    {
        let inside = self.element_at(identifier)?;
        number_from(inside.bytes).ok_or(DerFault::Field(inside.at))
    }

    /// Reads a qualifier of a transaction id.
    pub fn qualifier(&mut self, identifier: u8) -> Result<&'a [u8], DerFault>
        ensures read { Reads (λ text. text.now) result self.new
            ((required identifier qualifier).read self.old) }
        ensures qualifier { IfOk result (λ text. IsQualifier text.now) }
    {
        let inside = self.element_at(identifier)?;
        if TxnId::is_qualifier(inside.bytes) {
            Ok(inside.bytes)
        } else {
            Err(DerFault::Field(inside.at))
        }
    }

    /// Reads an item.
    pub fn item(&mut self, identifier: u8) -> Result<&'a [u8], DerFault>
        ensures read { Reads (λ text. text.now) result self.new
            ((required identifier item).read self.old) }
        ensures item { IfOk result (λ text. IsItem text.now) }
    {
        let inside = self.element_at(identifier)?;
        if Item::is_item(inside.bytes) {
            Ok(inside.bytes)
        } else {
            Err(DerFault::Field(inside.at))
        }
    }

    /// Reads a date.
    pub fn date(&mut self, identifier: u8) -> Result<Day, DerFault>
        ensures { Reads (λ d. d) result self.new ((required identifier date).read self.old) }
    {
        let inside = self.element_at(identifier)?;
        Day::read(inside.bytes).map_err(|_| DerFault::Field(inside.at))
    }

    /// Reads the result of an ILL-Answer.
    pub fn answer_result(&mut self, identifier: u8) -> Result<AnswerResult, DerFault>
        ensures { Reads (λ r. r) result self.new ((required identifier answer_result).read self.old) }
    {
        let inside = self.element_at(identifier)?;
        result_from(inside.bytes).ok_or(DerFault::Field(inside.at))
    }

    /// Reads a yes or no. Returns true for a yes.
    pub fn yes_no(&mut self, identifier: u8) -> Result<bool, DerFault>
        ensures { Reads (λ b. b) result self.new ((required identifier yes_no).read self.old) }
    {
        let inside = self.element_at(identifier)?;
        match inside.bytes {
            [0x00] => Ok(false),
            [0xFF] => Ok(true),
            _ => Err(DerFault::Field(inside.at)),
        }
    }

    /// Reads a date if the next element has `identifier`, and otherwise returns `None`.
    pub fn optional_date(&mut self, identifier: u8) -> Result<Option<Day>, DerFault>
        ensures { Reads (λ d. d) result self.new ((optional identifier date).read self.old) }
    {
        if self.begins_with(identifier) {
            Ok(Some(self.date(identifier)?))
        } else {
            Ok(None)
        }
    }
}

/// Returns the message number of which `contents` are the minimal INTEGER, if there is one (X.690 8.3).
fn number_from(contents: &[u8]) -> Option<Number>
    ensures { result ≡ number_from contents.now }
{
    match contents {
        [value] if *value < 0x80 => Number::new(*value),
        [0, value] if *value >= 0x80 => Number::new(*value),
        _ => None,
    }
}

/// Returns the result that `contents` encode, if they are one octet that encodes a result.
fn result_from(contents: &[u8]) -> Option<AnswerResult>
    ensures { result ≡ result_from contents.now }
{
    match contents {
        [1] => Some(AnswerResult::Conditional),
        [2] => Some(AnswerResult::Retry),
        [3] => Some(AnswerResult::Unfilled),
        [4] => Some(AnswerResult::LocationsProvided),
        [5] => Some(AnswerResult::WillSupply),
        [6] => Some(AnswerResult::HoldPlaced),
        [7] => Some(AnswerResult::Estimate),
        _ => None,
    }
}
