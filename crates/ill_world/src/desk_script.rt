//! The lines of a script of two desks say events, each in the transaction in use.

ghost use Rattle.std.specs.Prelude.{◌≡◌, map, IfOk};
ghost use Rattle.ill_world.specs.DeskScript.{desk_meaning, desk_line_of, use_line};

use crate::event::Event;
use crate::script::{read_words, split_words};
use ill_script::script_line::ScriptLine;
use ill_values::{OutOfMemory, TextFault, TxnId};
use ill_words::words::is;
use std::alloc::Global;

/// A line of a script of two desks has one of these meanings.
#[derive(Drop)]
pub(crate) enum DeskLine {
    /// The lines after it are in this transaction.
    Use(TxnId),
    /// The line has this meaning in a script of two sides.
    Plain(ScriptLine<Event>),
}

/// Reads a line of a script of two desks, which ends before its LF.
///
/// It is `use GROUP TRANSACTION`, of which both words are qualifiers, or a line of a script of two
/// sides.
#[tactic(auto, unfolding(crate::specs::DeskScript::desk_meaning))]
pub(crate) fn read_desk_line(alloc: Global, line: &[u8]) -> Result<DeskLine, OutOfMemory>
    ensures { IfOk result (λ read. read ≡ desk_meaning line.now) }
{
    if line.starts_with(b"#") {
        return Ok(DeskLine::Plain(ScriptLine::Skipped));
    }
    let words = split_words(alloc, line)?;
    read_desk_words(alloc, &words)
}

/// Returns the meaning of the words of a line that is no remark.
fn read_desk_words(alloc: Global, words: &[&[u8]]) -> Result<DeskLine, OutOfMemory>
    ensures { IfOk result (λ read. read ≡ desk_line_of (map (λ word. word.now) words.now)) }
{
    match words {
        [first, named @ ..] if is(first, "use") => read_use(alloc, named),
        _ => Ok(DeskLine::Plain(read_words(alloc, words)?)),
    }
}

/// Returns the line that puts a transaction in use. The words after `use` name it.
fn read_use(alloc: Global, words: &[&[u8]]) -> Result<DeskLine, OutOfMemory>
    ensures { IfOk result (λ read. read ≡ use_line (map (λ word. word.now) words.now)) }
{
    match words {
        [group, transaction] => match TxnId::new(alloc, group, transaction) {
            Ok(txn) => Ok(DeskLine::Use(txn)),
            Err(TextFault::OutOfMemory) => Err(OutOfMemory),
            Err(_) => Ok(DeskLine::Plain(ScriptLine::Bad)),
        },
        _ => Ok(DeskLine::Plain(ScriptLine::Bad)),
    }
}
