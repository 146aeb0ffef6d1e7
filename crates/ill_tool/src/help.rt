//! The command line, the exit statuses and the faults as objects of JSON, for the tools of this repository.

ghost use Rattle.ill_tool.specs.Help.{PrintsHelp, WritesHelp};

use crate::exits::exit_status;
use ill_der::DerFault;
use ill_files::machine::Machine;
use ill_files::open::all_succeed;
use ill_help::described::{push_command_line, push_object};
use ill_saved::{DeskFault, LockFiles, RecordFault, StoreFault};
use ill_text::fault::{BadKey, STORE_FAILED, ToolFault};
use ill_text::json::Value;
use ill_text::output::write_whole;
use ill_values::OutOfMemory;
use std::alloc::Global;
use std::io::Write;

/// All faults of commands that the help lists, in its order. A fault with a number has 0.
const FAULTS: [ToolFault; 29] = [
    ToolFault::Desk(DeskFault::Exists),
    ToolFault::Desk(DeskFault::NoRecord),
    ToolFault::Desk(DeskFault::NoSuchTransaction),
    ToolFault::Desk(DeskFault::NoSuchMessage),
    ToolFault::Desk(DeskFault::NotSaved),
    ToolFault::Arguments,
    ToolFault::Der(DerFault::Short(0)),
    ToolFault::Der(DerFault::Tag(0)),
    ToolFault::Der(DerFault::Length(0)),
    ToolFault::Der(DerFault::Field(0)),
    ToolFault::TooMany,
    ToolFault::Script(0),
    ToolFault::Desk(DeskFault::Saved(RecordFault::Short)),
    ToolFault::Desk(DeskFault::Saved(RecordFault::Bad(0))),
    ToolFault::Desk(DeskFault::Saved(RecordFault::Digest)),
    ToolFault::Desk(DeskFault::Saved(RecordFault::Inconsistent)),
    ToolFault::Key(BadKey::Missing),
    ToolFault::Key(BadKey::Unreadable),
    ToolFault::Key(BadKey::Open),
    ToolFault::Key(BadKey::Size),
    ToolFault::Key(BadKey::Digits),
    ToolFault::Key(BadKey::Check),
    ToolFault::NotSealed,
    STORE_FAILED,
    ToolFault::Desk(DeskFault::Store(StoreFault::TooLarge)),
    ToolFault::Deferred,
    ToolFault::Read,
    ToolFault::Write,
    ToolFault::OutOfMemory,
];

/// Writes the command line, and the exit statuses with their faults, as objects of JSON. Returns true.
pub fn print_command_line<T: LockFiles, W: Write, E: Write>(
    machine: &mut Machine<'_, T, W, E>,
) -> Result<bool, ToolFault>
    ensures { PrintsHelp (W.contents machine.old.writer) (W.contents machine.new.writer) result }
{
    all_succeed(write_help(machine.alloc, &mut machine.writer))
}

/// Writes the objects of JSON that `help_text` returns.
fn write_help<W: Write>(alloc: Global, writer: &mut W) -> Result<(), ToolFault>
    ensures { WritesHelp (W.contents writer.old) (W.contents writer.new) result }
{
    match help_text(alloc) {
        Ok(text) => write_whole(writer, &text),
        Err(OutOfMemory) => Err(ToolFault::OutOfMemory),
    }
}

/// Returns the command line, and the ends of commands, as objects of JSON. Each is on a line.
fn help_text(alloc: Global) -> Result<Vec<u8>, OutOfMemory> {
    let mut text = Vec::new(alloc);
    push_command_line(&mut text)?;
    push_end(&mut text, "well", Ok(true))?;
    push_end(&mut text, "refused", Ok(false))?;
    for fault in &FAULTS {
        let line = format!(in alloc; "{fault}")?;
        push_end(&mut text, line.as_str(), Err(*fault))?;
    }
    Ok(text)
}

/// Appends the end of a command with this outcome. `line` is the line of a fault, or else a word for the outcome.
fn push_end(
    text: &mut Vec<u8>,
    line: &str,
    outcome: Result<bool, ToolFault>,
) -> Result<(), OutOfMemory> {
    push_object(
        text,
        &[
            ("kind", Value::Text(b"end")),
            ("end", Value::Text(line.as_bytes())),
            ("fault", Value::Flag(outcome.is_err())),
            ("status", Value::Count(exit_status(outcome).into())),
        ],
    )
}
