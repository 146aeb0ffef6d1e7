//! The line of an outcome and of the side after it. It may have the heading and the fields of a message.

ghost use Rattle.std.specs.Prelude.{◌≡◌, ◌++◌, OnOk};
ghost use Rattle.ill_desk.specs.Telling.{done_line, is_fine, long, side_line, wording, WritesOutcome};

use ill_core::Taking;
use ill_der::ApduView;
use ill_saved::Shown;
use ill_text::fault::ToolFault;
use ill_text::long_lines::{push_heading, push_said};
use ill_text::output::write_whole;
use ill_values::OutOfMemory;
use ill_words::{DeskOutcome, Outcome, push_shown};
use std::alloc::Global;
use std::io::Write;

/// Writes the line of an outcome and of the side after it: `OUTCOME STATE DUE RELEASED/ISSUED`. Returns true if
/// nothing was refused, and no message was in conflict.
pub fn report<W: Write>(
    alloc: Global,
    writer: &mut W,
    outcome: DeskOutcome,
    now: Shown,
) -> Result<bool, ToolFault>
    ensures { WritesOutcome side_line (W.contents writer.old) (W.contents writer.new) outcome now result }
{
    let mut line = Vec::new(alloc);
    push_line(&mut line, outcome, now)?;
    write_whole(writer, &line)?;
    Ok(is_fine(outcome))
}

/// A message whose outcome is printed.
#[derive(Clone, Copy)]
pub struct PrintedMessage<'a, 'b> {
    /// The message.
    pub apdu: &'a ApduView<'b>,
    /// Set if the heading of the message is printed before the outcome, and its fields after it.
    pub is_long: bool,
}

/// Writes the line of the outcome of a message. If `printed` is long, the heading of the message is before it, and the
/// lines of its fields after it. Returns true if nothing was refused, and the message was not in conflict.
pub fn report_message<W: Write>(
    alloc: Global,
    writer: &mut W,
    printed: &PrintedMessage<'_, '_>,
    outcome: DeskOutcome,
    now: Shown,
) -> Result<bool, ToolFault>
    ensures { WritesOutcome (wording printed.now.is_long printed.now.apdu.now) (W.contents writer.old) (W.contents writer.new) outcome now result }
{
    let mut lines = Vec::new(alloc);
    push_words(&mut lines, printed, outcome, now)?;
    write_whole(writer, &lines)?;
    Ok(is_fine(outcome))
}

/// Appends the text of the outcome of a message: the long text if `printed` is long, and else the line alone.
fn push_words(
    lines: &mut Vec<u8>,
    printed: &PrintedMessage<'_, '_>,
    outcome: DeskOutcome,
    now: Shown,
) -> Result<(), OutOfMemory>
    ensures { OnOk result (lines.new.items ≡ lines.old.items ++ wording printed.now.is_long printed.now.apdu.now outcome now) }
{
    if printed.is_long {
        push_long(lines, printed.apdu, outcome, now)
    } else {
        push_line(lines, outcome, now)
    }
}

/// Appends the heading of a message, the line of its outcome, and the lines of its fields.
pub fn push_long(
    lines: &mut Vec<u8>,
    apdu: &ApduView<'_>,
    outcome: DeskOutcome,
    now: Shown,
) -> Result<(), OutOfMemory>
    ensures { OnOk result (lines.new.items ≡ lines.old.items ++ long apdu.now outcome now) }
{
    push_heading(lines, apdu)?;
    push_line(lines, outcome, now)?;
    push_said(lines, apdu)
}

/// Appends the line of the outcome `done`, with the side after it.
pub fn push_done_line(line: &mut Vec<u8>, now: Shown) -> Result<(), OutOfMemory>
    ensures { OnOk result (line.new.items ≡ line.old.items ++ done_line now) }
{
    push_line(line, DeskOutcome::Plain(Outcome::Done), now)
}

/// Appends the line of an outcome and of the side after it.
fn push_line(line: &mut Vec<u8>, outcome: DeskOutcome, now: Shown) -> Result<(), OutOfMemory>
    ensures { OnOk result (line.new.items ≡ line.old.items ++ side_line outcome now) }
{
    line.extend_from_slice(outcome.word().as_bytes())?;
    line.push(b' ')?;
    push_shown(line, now)?;
    line.push(b'\n')?;
    Ok(())
}

/// Returns true if nothing was refused, and no message was in conflict.
fn is_fine(outcome: DeskOutcome) -> bool
    ensures { result ≡ is_fine outcome }
{
    match outcome {
        DeskOutcome::Plain(outcome) => !matches!(
            outcome,
            Outcome::Refused(_) | Outcome::Answered(Taking::Conflict(_))
        ),
        DeskOutcome::NoSuchTransaction | DeskOutcome::DeskFull => false,
    }
}
