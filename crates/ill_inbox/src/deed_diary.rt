//! The diary of the deeds that a run does.

ghost use Rattle.std.specs.Prelude.{◌≡◌, ◌++◌, false, map, IfOk, OnOk};
ghost use Rattle.ill_text.specs.Diary.{diary_state};
ghost use Rattle.ill_inbox.specs.DeedDiary.{EntersAny, deed_diary_line, deed_diary_lines, lines_beginning};

use crate::due::Due;
use ill_saved::{AnyDesk, Holdings, Store};
use ill_text::diary::{Diary, message_key};
use ill_values::{OutOfMemory, TxnId};
use std::alloc::Global;
use std::io::{Sink, Write, sink};

/// The diary in which a run enters the deeds that it does.
#[derive(Drop)]
pub struct DeedDiary<D> {
    /// The text with which each line begins. If it is empty, nothing is entered.
    begin: Vec<u8>,
    /// The stream of the diary, and true if a line could not be entered.
    diary: Diary<D>,
}

impl DeedDiary<Sink> {
    /// Returns the diary of a run that enters nothing.
    pub fn none(alloc: Global) -> DeedDiary<Sink> {
        DeedDiary::new(Vec::new(alloc), sink())
    }
}

impl<D> DeedDiary<D> {
    /// Returns the diary that is written to `stream`. Each line begins with `begin`. If that is empty, nothing is
    /// entered.
    pub fn new(begin: Vec<u8>, stream: D) -> DeedDiary<D>
        ensures begin { result.begin ≡ begin }
        ensures stream { result.diary.stream ≡ stream }
        ensures fine { result.diary.has_failed ≡ false }
    {
        DeedDiary {
            begin,
            diary: Diary::new(stream),
        }
    }

    /// Returns true if a line could not be entered.
    pub fn has_failed(&self) -> bool
        ensures { result ≡ self.now.diary.has_failed }
    {
        self.diary.has_failed()
    }

    /// Returns the lines that name the deeds of `done` at `desk`.
    pub(crate) fn lines<H: Holdings<Key = TxnId>, S: Store>(
        &self,
        alloc: Global,
        desk: &AnyDesk<H, S>,
        done: &[&Due],
    ) -> Result<Vec<u8>, OutOfMemory>
        ensures { IfOk result (λ lines. lines.items
            ≡ lines_beginning H.effects self.now.begin.items desk.now.live (map (λ due. due.now) done.now)) }
    {
        if self.begin.is_empty() {
            return Ok(Vec::new(alloc));
        }
        diary_lines(alloc, &self.begin, desk, done)
    }
}

impl<D: Write> DeedDiary<D> {
    /// Enters `lines`, if there are any.
    pub(crate) fn enter(&mut self, lines: &[u8])
        ensures entered { EntersAny lines.now
            (diary_state (D.contents self.old.diary.stream) self.old.diary.has_failed)
            (diary_state (D.contents self.new.diary.stream) self.new.diary.has_failed) }
        ensures begin { self.new.begin ≡ self.old.begin }
    {
        if !lines.is_empty() {
            self.diary.enter(lines);
        }
    }
}

/// Returns a line for each deed of `done` at `desk`. It begins with `begin`.
fn diary_lines<H: Holdings<Key = TxnId>, S: Store>(
    alloc: Global,
    begin: &[u8],
    desk: &AnyDesk<H, S>,
    done: &[&Due],
) -> Result<Vec<u8>, OutOfMemory>
    ensures { IfOk result (λ lines. lines.items
        ≡ deed_diary_lines H.effects begin.now desk.now.live (map (λ due. due.now) done.now)) }
{
    let mut lines = Vec::new(alloc);
    for due in done {
        push_diary_line(&mut lines, begin, desk, due)?;
    }
    Ok(lines)
}

/// Appends the line of the deed `due` at `desk`. It begins with `begin`.
fn push_diary_line<H: Holdings<Key = TxnId>, S: Store>(
    lines: &mut Vec<u8>,
    begin: &[u8],
    desk: &AnyDesk<H, S>,
    due: &Due,
) -> Result<(), OutOfMemory>
    ensures { OnOk result (lines.new.items ≡ lines.old.items
        ++ deed_diary_line H.effects begin.now desk.now.live due.now) }
{
    let number = u32::from(desk.shown(&due.txn).issued);
    let message = message_key(*lines.allocator(), &due.txn, due.deed.verb().name(), number)?;
    lines.extend_from_slice(begin)?;
    lines.extend_from_slice(&message)?;
    lines.push(b'\n')?;
    Ok(())
}
