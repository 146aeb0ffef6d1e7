//! The diary of a desk: a line for each message that it issued or took, with the day and the name of a person. No
//! decision of a command depends on it.

ghost use Rattle.std.specs.Prelude.{◌≡◌, ◌==◌, ◌++◌, false, codes, List, option_map, IfOk, OnOk};
ghost use Rattle.std.specs.List.{list_any};
ghost use Rattle.ill_values.specs.declared.apdu.Apdu.{Apdu};
ghost use Rattle.ill_text.specs.Diary.{begin_text, came_line, came_lines, diary_line, diary_state, is_name, message_key, name_or_dash, Enters, stamp_text, stamped};
ghost use Rattle.ill_text.specs.Input.{AreIn};

use crate::escape::push_escaped;
use crate::input::apdus_in;
use crate::keys::loan_key;
use crate::output::write_and_flush;
use ill_values::{Apdu, Day, Item, OutOfMemory, TxnId};
use itoa::Buffer;
use std::alloc::Global;
use std::io;
use std::io::{Sink, Write, sink};
use std::mem::replace;

/// The day of a command, and the person who gives it.
#[derive(Clone, Copy)]
pub struct Stamp<'a> {
    /// The day.
    pub day: Day,
    /// The name of the person, if one is named.
    pub by: Option<&'a str>,
}

/// Returns true if a diary may name a person by `text`. An item could have this text, it has no space, and it is no
/// dash.
pub fn is_name(text: &str) -> bool
    ensures { result ≡ is_name text.now }
{
    Item::is_item(text.as_bytes()) && !has_space(text.as_bytes()) && text != "-"
}

/// Returns true if a byte of `text` is a space.
fn has_space(text: &[u8]) -> bool
    ensures { result ≡ list_any (λ byte. byte == 0x20) text.now }
{
    text.iter().any(|byte| *byte == b' ')
}

/// Returns the key of a message of the loan `txn`. `what` is the verb of an issued message, and the type of one that
/// came.
pub fn message_key(
    alloc: Global,
    txn: &TxnId,
    what: &str,
    number: u32,
) -> Result<Vec<u8>, OutOfMemory>
    ensures { IfOk result (λ key. key.items ≡ message_key txn.now what.now number) }
{
    let mut key = loan_key(alloc, txn)?;
    key.extend_from_slice(what.as_bytes())?;
    key.push(b' ')?;
    key.extend_from_slice(Buffer::new().format(number).as_bytes())?;
    Ok(key)
}

/// Returns the text before the key of a message in a line: the day, and the name of a person or a dash.
fn stamp_text(alloc: Global, stamp: &Stamp<'_>) -> Result<Vec<u8>, OutOfMemory>
    ensures { IfOk result (λ text. text.items
        ≡ stamp_text stamp.now.day (option_map (λ name. name.now) stamp.now.by)) }
{
    let mut text = Vec::from_slice(alloc, &stamp.day.digits())?;
    text.push(b' ')?;
    push_name(&mut text, stamp.by)?;
    text.push(b' ')?;
    Ok(text)
}

/// Returns the text with which each line of messages that come begins. Without a stamp it is empty.
pub fn begin_text(alloc: Global, stamp: &Option<Stamp<'_>>) -> Result<Vec<u8>, OutOfMemory>
    ensures { IfOk result (λ text. text.items ≡ begin_text (option_map stamped stamp.now)) }
{
    match stamp {
        Some(stamp) => stamp_text(alloc, stamp),
        None => Ok(Vec::new(alloc)),
    }
}

/// Appends the name of a person, or a dash if nobody is named.
fn push_name(line: &mut Vec<u8>, by: Option<&str>) -> Result<(), OutOfMemory>
    ensures { OnOk result (line.new.items ≡ line.old.items ++ name_or_dash (option_map (λ name. name.now) by.entry)) }
{
    match by {
        Some(name) => push_escaped(line, name.as_bytes()),
        None => {
            line.push(b'-')?;
            Ok(())
        }
    }
}

/// Returns the line of a message of the loan `txn`, as `message_key` names it.
pub fn diary_line(
    alloc: Global,
    stamp: &Stamp<'_>,
    txn: &TxnId,
    what: &str,
    number: u32,
) -> Result<Vec<u8>, OutOfMemory>
    ensures { IfOk result (λ line. line.items
        ≡ diary_line stamp.now.day (option_map (λ name. name.now) stamp.now.by) txn.now what.now number) }
{
    let mut line = stamp_text(alloc, stamp)?;
    line.extend_from_slice(&message_key(alloc, txn, what, number)?)?;
    line.push(b'\n')?;
    Ok(line)
}

/// Returns the lines of the messages `apdus`, which came, in their order. Each begins with `begin`.
fn came_lines(alloc: Global, begin: &[u8], apdus: &[Apdu]) -> Result<Vec<u8>, OutOfMemory>
    ensures { IfOk result (λ lines. lines.items ≡ came_lines begin.now apdus.now) }
{
    let mut lines = Vec::new(alloc);
    for apdu in apdus {
        push_came(&mut lines, begin, apdu)?;
    }
    Ok(lines)
}

/// Appends the line of the message `apdu`, which came. It begins with `begin`.
fn push_came(lines: &mut Vec<u8>, begin: &[u8], apdu: &Apdu) -> Result<(), OutOfMemory>
    ensures { OnOk result (lines.new.items ≡ lines.old.items ++ came_line begin.now apdu.now) }
{
    let what = apdu.body.view().type_name();
    let number = u32::from(apdu.number.get());
    let message = message_key(*lines.allocator(), &apdu.txn, what, number)?;
    lines.extend_from_slice(begin)?;
    lines.extend_from_slice(&message)?;
    lines.push(b'\n')?;
    Ok(())
}

/// A diary that is written.
#[derive(Drop)]
pub struct Diary<D> {
    /// The stream to which lines are written.
    stream: D,
    /// Set if a line could not be entered.
    has_failed: bool,
}

impl<D> Diary<D> {
    /// Returns the diary that is written to `stream`.
    pub fn new(stream: D) -> Diary<D>
        ensures stream { result.stream ≡ stream }
        ensures fine { result.has_failed ≡ false }
    {
        Diary {
            stream,
            has_failed: false,
        }
    }

    /// Returns true if a line could not be entered.
    pub fn has_failed(&self) -> bool
        ensures { result ≡ self.now.has_failed }
    {
        self.has_failed
    }
}

impl<D: Write> Diary<D> {
    /// Enters `lines`: they are written and flushed. After a failure nothing more is entered.
    pub fn enter(&mut self, lines: &[u8])
        ensures { Enters lines.now (diary_state (D.contents self.old.stream) self.old.has_failed)
            (diary_state (D.contents self.new.stream) self.new.has_failed) }
    {
        if !self.has_failed && write_and_flush(&mut self.stream, lines).is_err() {
            self.has_failed = true;
        }
    }
}

/// A line that a command enters in a diary, before it saves the message that the line names.
#[derive(Drop)]
pub struct Entry<D> {
    /// The line.
    line: Vec<u8>,
    /// The diary.
    diary: Diary<D>,
}

impl Entry<Sink> {
    /// Returns the entry of a command that has no diary.
    pub fn none(alloc: Global) -> Entry<Sink> {
        Entry {
            line: Vec::new(alloc),
            diary: Diary::new(sink()),
        }
    }
}

impl<D> Entry<D> {
    /// Returns the entry of `line` in a diary that is written to `stream`.
    pub fn new(line: Vec<u8>, stream: D) -> Entry<D>
        ensures line { result.line ≡ line }
        ensures stream { result.diary.stream ≡ stream }
        ensures fine { result.diary.has_failed ≡ false }
    {
        Entry {
            line,
            diary: Diary::new(stream),
        }
    }

    /// Returns true if the line could not be entered.
    pub fn has_failed(&self) -> bool
        ensures { result ≡ self.now.diary.has_failed }
    {
        self.diary.has_failed()
    }
}

impl<D: Write> Entry<D> {
    /// Enters the line.
    pub fn enter(&mut self)
        ensures entered { Enters self.old.line.items
            (diary_state (D.contents self.old.diary.stream) self.old.diary.has_failed)
            (diary_state (D.contents self.new.diary.stream) self.new.diary.has_failed) }
        ensures line { self.new.line ≡ self.old.line }
    {
        self.diary.enter(&self.line);
    }
}

/// A diary of messages that come. Their lines are entered when the messages are flushed.
#[derive(Drop)]
pub struct CameDiary<D> {
    /// The diary.
    diary: Diary<D>,
    /// The text with which each line begins. If it is empty, nothing is entered.
    begin: Vec<u8>,
    /// The bytes of messages since the last flush.
    recent: Vec<u8>,
}

impl<D> CameDiary<D> {
    /// Returns the diary that is written to `stream`. Each line begins with `begin`; if it is empty, nothing is
    /// entered.
    pub fn new(begin: Vec<u8>, stream: D) -> CameDiary<D>
        ensures begin { result.begin ≡ begin }
        ensures stream { result.diary.stream ≡ stream }
        ensures fine { result.diary.has_failed ≡ false }
    {
        let alloc = *begin.allocator();
        CameDiary {
            diary: Diary::new(stream),
            begin,
            recent: Vec::new(alloc),
        }
    }

    /// Returns true if a line could not be entered.
    pub fn has_failed(&self) -> bool
        ensures { result ≡ self.now.diary.has_failed }
    {
        self.diary.has_failed()
    }

    /// Remembers `bytes` of messages for the next flush, if lines are entered. If memory runs out, the diary has
    /// failed.
    fn remember(&mut self, bytes: &[u8]) {
        if !self.begin.is_empty() && self.recent.extend_from_slice(bytes).is_err() {
            self.diary.has_failed = true;
        }
    }
}

impl<D: Write> CameDiary<D> {
    /// Enters the lines of the messages since the last flush, and forgets these. If memory runs out, the diary has
    /// failed.
    fn enter_recent(&mut self) {
        let alloc = *self.recent.allocator();
        let recent = replace(&mut self.recent, Vec::new(alloc));
        match recent_lines(alloc, &self.begin, &recent) {
            Ok(lines) => self.diary.enter(&lines),
            Err(_) => self.diary.has_failed = true,
        }
    }
}

/// Returns the lines of the messages in `bytes`, which came, up to the first part that is no message. Each line begins
/// with `begin`.
fn recent_lines(alloc: Global, begin: &[u8], bytes: &[u8]) -> Result<Vec<u8>, OutOfMemory>
    ensures { IfOk result (λ lines. (apdus : List Apdu) × AreIn bytes.now apdus
        × (lines.items ≡ came_lines begin.now apdus)) }
{
    let apdus = apdus_in(alloc, bytes)?;
    came_lines(alloc, begin, &apdus)
}

/// A stream of messages that come, with their diary.
#[derive(Drop)]
pub struct WithDiary<'a, 'b, C, D> {
    /// The stream.
    pub came: &'a mut C,
    /// The diary.
    pub diary: &'b mut CameDiary<D>,
}

/// The contents are those of the stream alone. The diary is no part of them.
impl<C: Write, D: Write> Write for WithDiary<'_, '_, C, D> {
    ghost contents = { λ stream. C.contents stream.came.now };

    /// Writes to the stream, and remembers for the diary what the stream took.
    fn write(&mut self, bytes: &[u8]) -> io::Result<usize> {
        match self.came.write(bytes) {
            Ok(count) => {
                self.diary.remember(&bytes[..count]);
                Ok(count)
            }
            Err(error) => Err(error),
        }
    }

    /// Flushes the stream, and then enters the lines of the messages since the last flush.
    fn flush(&mut self) -> io::Result<()> {
        match self.came.flush() {
            Ok(()) => {
                self.diary.enter_recent();
                Ok(())
            }
            Err(error) => Err(error),
        }
    }
}
