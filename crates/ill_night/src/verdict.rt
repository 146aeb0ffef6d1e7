//! The verdict of a message file, and its line.

ghost use Rattle.std.specs.Prelude.{◌≡◌, ◌++◌, codes, OnOk};
ghost use Rattle.ill_night.specs.declared.verdict.Unfit.TheVariants as unfits;
ghost use Rattle.ill_night.specs.MessageFiles.{begins_as_record, verdict_of, verdict_unread, verdict_without_message};
ghost use Rattle.ill_night.specs.Lines.{delay_text, der_word, place_text, stays_line, unfit_text, verdict_line};

use ill_core::Refusal;
use ill_der::DerFault;
use ill_saved::Role;
use ill_text::escape::push_escaped;
use ill_text::form::Form;
use ill_values::OutOfMemory;
use ill_words::{DeskOutcome, Outcome};
use itoa::Buffer;
use sha2::{Digest, Sha256};
use std::alloc::Global;

/// A message file: a file in a folder, which should have one message. If a run takes sealed letters, each message in a
/// letter is a message file of its own.
#[derive(Drop)]
pub struct MessageFile {
    /// The name of the file.
    pub name: Vec<u8>,
    /// Its bytes, or the first ones if it has more than a message. None if it cannot be read, or is no sealed letter.
    pub bytes: Option<Vec<u8>>,
    /// The letter that it is in, if the run takes sealed letters.
    pub letter: Option<InLetter>,
}

/// The letter that a message file is in.
#[derive(Clone, Copy, Debug, PartialEq, Eq)]
pub struct InLetter {
    /// The number of the letter in the run. All message files of a letter have it, and no others.
    pub number: usize,
    /// The SHA-256 digest of the bytes that were read of the letter.
    pub digest: [u8; 32],
    /// Set if the other library has sealed the letter with the key of the run.
    pub is_sealed: bool,
}

/// The message files of a run.
#[derive(Clone, Copy)]
pub struct Batch<'a> {
    /// The message files that the run takes, in this order.
    pub message_files: &'a [MessageFile],
    /// The number of further message files, which wait for the next run.
    pub waiting: usize,
    /// The form in which the run is printed.
    pub form: Form,
}

impl MessageFile {
    /// Returns the digest of the bytes that were read of its file, in hexadecimal.
    pub fn digest(&self, alloc: Global) -> Result<String, OutOfMemory> {
        if let Some(letter) = &self.letter {
            return Ok(hex::encode(alloc, letter.digest)?);
        }
        let mut hasher = Sha256::new();
        if let Some(bytes) = &self.bytes {
            hasher.update(bytes.as_slice());
        }
        Ok(hex::encode(alloc, hasher.finalize())?)
    }
}

/// The reason why no desk will ever take a message file.
#[derive(Clone, Copy, Debug, PartialEq, Eq, Hash)]
pub enum Unfit {
    /// The bytes of the message file are no message.
    NoMessage(DerFault),
    /// The message file has more bytes than a message.
    TooLong,
    /// The message file has further bytes after its message.
    Trailing,
    /// The message file is no letter that the other library has sealed with the key of the run.
    NotSealed,
    /// The desk refuses the message of the message file for good.
    Refused(Refusal),
}

/// The reason why a message file waits for the next run.
#[derive(Clone, Copy, Debug, PartialEq, Eq, Hash)]
pub enum Delay {
    /// The message file cannot be read.
    NotRead,
    /// The message file begins as the record of a desk does, and came into the folder by mistake.
    Record,
    /// The desk has not begun the loan of the message file's message.
    NoSuchTransaction,
    /// The desk has no room for the loan of the message file's message.
    DeskFull,
}

/// The verdict of a message file.
#[derive(Clone, Copy, Debug, PartialEq, Eq, Hash)]
pub enum Verdict {
    /// The desk will do nothing more with the message file. Its file may be removed.
    Done(DeskOutcome),
    /// The message file is quarantined, for a person.
    Quarantined(Unfit),
    /// The message file waits in its folder for the next run.
    Deferred(Delay),
}

impl Verdict {
    /// Returns the verdict of a message file, by the role of the desk and the outcome of its message.
    pub fn of(role: Role, outcome: DeskOutcome) -> Verdict
        ensures { result ≡ verdict_of role outcome }
    {
        match outcome {
            DeskOutcome::Plain(Outcome::Refused(refusal)) => {
                Verdict::Quarantined(Unfit::Refused(refusal))
            }
            DeskOutcome::NoSuchTransaction if role == Role::Requester => {
                Verdict::Deferred(Delay::NoSuchTransaction)
            }
            DeskOutcome::DeskFull => Verdict::Deferred(Delay::DeskFull),
            outcome => Verdict::Done(outcome),
        }
    }

    /// Returns the verdict of a message file without bytes, by the letter that it is in.
    pub fn unread(letter: Option<InLetter>) -> Verdict
        ensures { result ≡ verdict_unread letter }
    {
        match letter {
            Some(letter) if !letter.is_sealed => Verdict::Quarantined(Unfit::NotSealed),
            _ => Verdict::Deferred(Delay::NotRead),
        }
    }

    /// Returns the verdict of a message file whose `bytes` have no message, for the reason `unfit`.
    pub fn without_message(bytes: &[u8], unfit: Unfit) -> Verdict
        ensures { result ≡ verdict_without_message bytes.now unfit }
    {
        if is_record(bytes) {
            Verdict::Deferred(Delay::Record)
        } else {
            Verdict::Quarantined(unfit)
        }
    }
}

/// Returns true if `bytes` begin as the record of a desk does.
pub fn is_record(bytes: &[u8]) -> bool
    ensures { result ≡ begins_as_record bytes.now }
{
    bytes.starts_with(b"ILL1") || bytes.starts_with(b"ILL2")
}

/// Appends the line of the message file `name`. A message file that is done has none.
pub fn push_verdict(lines: &mut Vec<u8>, name: &[u8], verdict: Verdict) -> Result<(), OutOfMemory>
    ensures { OnOk result (lines.new.items ≡ lines.old.items ++ verdict_line name.now verdict) }
{
    match verdict {
        Verdict::Done(_) => Ok(()),
        Verdict::Quarantined(unfit) => push_quarantined(lines, name, unfit),
        Verdict::Deferred(delay) => push_left(lines, name, delay),
    }
}

/// Appends the line of the message file `name`, which is quarantined.
fn push_quarantined(lines: &mut Vec<u8>, name: &[u8], unfit: Unfit) -> Result<(), OutOfMemory>
    ensures { OnOk result (lines.new.items ≡ lines.old.items
        ++ stays_line name.now (codes " aside ") (unfit_text unfit)) }
{
    push_escaped(lines, name)?;
    lines.extend_from_slice(b" aside ")?;
    push_unfit(lines, unfit)?;
    lines.push(b'\n')?;
    Ok(())
}

/// Appends the line of the message file `name`, which waits in its folder.
fn push_left(lines: &mut Vec<u8>, name: &[u8], delay: Delay) -> Result<(), OutOfMemory>
    ensures { OnOk result (lines.new.items ≡ lines.old.items
        ++ stays_line name.now (codes " left ") (delay_text delay)) }
{
    push_escaped(lines, name)?;
    lines.extend_from_slice(b" left ")?;
    lines.extend_from_slice(delay_word(delay).as_bytes())?;
    lines.push(b'\n')?;
    Ok(())
}

/// Returns the word of the reason why a message file waits.
pub fn delay_word(delay: Delay) -> &'static str
    ensures { result.now ≡ delay_text delay }
{
    match delay {
        Delay::NotRead => "not-read",
        Delay::Record => "record",
        Delay::NoSuchTransaction => DeskOutcome::NoSuchTransaction.word(),
        Delay::DeskFull => DeskOutcome::DeskFull.word(),
    }
}

/// Appends the reason why no desk will ever take a message file.
pub fn push_unfit(text: &mut Vec<u8>, unfit: Unfit) -> Result<(), OutOfMemory>
    ensures { OnOk result (text.new.items ≡ text.old.items ++ unfit_text unfit) }
{
    match unfit {
        Unfit::NoMessage(fault) => push_der_fault(text, fault),
        Unfit::TooLong => push_word(text, "too-long"),
        Unfit::Trailing => push_word(text, "trailing"),
        Unfit::NotSealed => push_word(text, "not-sealed"),
        Unfit::Refused(refusal) => {
            push_word(text, DeskOutcome::Plain(Outcome::Refused(refusal)).word())
        }
    }
}

/// Appends `word`.
fn push_word(text: &mut Vec<u8>, word: &str) -> Result<(), OutOfMemory>
    ensures { OnOk result (text.new.items ≡ text.old.items ++ word.now) }
{
    text.extend_from_slice(word.as_bytes())?;
    Ok(())
}

/// Appends the word of a fault in the bytes of a message file, and its place.
fn push_der_fault(text: &mut Vec<u8>, fault: DerFault) -> Result<(), OutOfMemory>
    ensures { OnOk result (text.new.items ≡ text.old.items ++ unfit_text (unfits.NoMessage fault)) }
{
    push_word(text, der_word(fault))?;
    push_place(text, fault.at())
}

/// Returns the word of a fault in the bytes of a message file.
fn der_word(fault: DerFault) -> &'static str
    ensures { result.now ≡ der_word fault }
{
    match fault {
        DerFault::Short(_) => "short",
        DerFault::Tag(_) => "tag",
        DerFault::Length(_) => "length",
        DerFault::Field(_) => "field",
        DerFault::OutOfMemory => "memory",
    }
}

/// Appends the place of a fault in the bytes, if it has one.
fn push_place(text: &mut Vec<u8>, place: Option<u16>) -> Result<(), OutOfMemory>
    ensures { OnOk result (text.new.items ≡ text.old.items ++ place_text place) }
{
    let Some(at) = place else {
        return Ok(());
    };
    push_word(text, " at ")?;
    text.extend_from_slice(Buffer::new().format(at).as_bytes())?;
    Ok(())
}
