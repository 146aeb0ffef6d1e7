//! The line that a turn enters in the diary beside its desk.

ghost use Rattle.std.specs.Prelude.{◌≡◌, [], false, option_map, Some, IfOk, OnOk};
ghost use Rattle.std.specs.Io.{WritesAtMost};
ghost use Rattle.std.specs.Io.KnownBytes.{Appends, WriteAppends};
ghost use Rattle.ill_web.specs.Entries.{stamp_on, turn_line, user_named, verb_line};

use crate::house::House;
use ill_files::diary::ReopenedDiary;
use ill_saved::Action;
use ill_text::diary::{Entry, Stamp, diary_line};
use ill_values::{OutOfMemory, TxnId};
use std::alloc::Global;
use std::io;
use std::io::Write;
use std::rt::Files;

/// Returns the line of a diary that names an action of the loan `txn`, as the next message after `issued` messages. It
/// is empty if there is no action.
pub fn turn_line<T>(
    house: &House<'_, T>,
    txn: &TxnId,
    action: &Option<Action>,
    issued: u8,
) -> Result<Vec<u8>, OutOfMemory>
    ensures { IfOk result (λ line. line.items
        ≡ turn_line (stamp_on house.now.operator.now.today house.now.user.now) txn.now action.now issued) }
{
    match action {
        Some(action) => verb_line(house, txn, action, issued),
        None => Ok(Vec::new(house.alloc)),
    }
}

/// Returns the line of a diary that names `action` of the loan `txn`, as the next message after `issued` messages.
fn verb_line<T>(
    house: &House<'_, T>,
    txn: &TxnId,
    action: &Action,
    issued: u8,
) -> Result<Vec<u8>, OutOfMemory>
    ensures { IfOk result (λ line. line.items
        ≡ verb_line (stamp_on house.now.operator.now.today house.now.user.now) txn.now action.now issued) }
{
    let stamp = stamp_of_user(house);
    let verb = action.verb().name();
    diary_line(house.alloc, &stamp, txn, verb, u32::from(issued) + 1)
}

/// Returns the day of the operator, and the name of the user, if there is one.
fn stamp_of_user<'a, T>(house: &House<'a, T>) -> Stamp<'a>
    ensures day { result.day ≡ house.now.operator.now.today }
    ensures by { option_map (λ name. name.now) result.by ≡ user_named house.now.user.now }
{
    Stamp {
        day: house.operator.today,
        by: user_named(house.user),
    }
}

/// Returns the name of the user, if there is one.
fn user_named(user: &str) -> Option<&str>
    ensures { option_map (λ name. name.now) result ≡ user_named user.now }
{
    if user.is_empty() { None } else { Some(user) }
}

/// The diary beside the file of a desk. It knows what was entered through it.
#[derive(Drop)]
pub struct TurnDiary<'a, T> {
    /// The runtime, which has the files.
    rt: &'a T,
    /// The memory.
    alloc: Global,
    /// The path of the desk's file.
    file: &'a str,
    /// The bytes that were entered.
    entered: Vec<u8>,
}

/// Returns the entry of `line` in the diary beside `file`. Nothing is entered yet.
pub fn turn_entry<'a, T>(
    house: &House<'a, T>,
    file: &'a str,
    line: Vec<u8>,
) -> Entry<TurnDiary<'a, T>>
    ensures line { result.line ≡ line }
    ensures beside { result.diary.stream.file.now ≡ file.now }
    ensures none { result.diary.stream.entered.items ≡ [] }
    ensures fine { result.diary.has_failed ≡ false }
{
    let diary = TurnDiary {
        rt: house.rt,
        alloc: house.alloc,
        file,
        entered: Vec::new(house.alloc),
    };
    Entry::new(line, diary)
}

// Each write opens the diary again. What it writes is noted in `entered`.
impl<T: Files> Write for TurnDiary<'_, T> {
    ghost contents = { λ diary. Some diary.entered.items };

    fn write(&mut self, bytes: &[u8]) -> io::Result<usize> {
        let mut diary = ReopenedDiary::beside(self.rt, self.alloc, self.file);
        write_and_note(&mut diary, &mut self.entered, bytes)
    }

    fn flush(&mut self) -> io::Result<()> {
        Ok(())
    }
}

/// Writes all of `bytes` to `diary`, and then appends them to `entered`. If either fails, `entered` keeps its content.
fn write_and_note<D: Write>(diary: &mut D, entered: &mut Vec<u8>, bytes: &[u8]) -> io::Result<usize>
    ensures bound { WritesAtMost result bytes.now }
    ensures noted { WriteAppends (Some entered.old.items) (Some entered.new.items) result bytes.now }
    ensures written { OnOk result (Appends (D.contents diary.old) (D.contents diary.new) bytes.now) }
{
    entered.reserve(bytes.len())?;
    diary.write_all(bytes)?;
    let count = entered.write(bytes)?;
    Ok(count)
}
