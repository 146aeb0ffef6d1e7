//! A trace has a line for each event, with its outcome and both sides after it.

ghost use Rattle.std.specs.Prelude.{◌≡◌, ◌++◌, OnOk};
ghost use Rattle.ill_world.specs.Trace.{line_of, event_text, sides_text};

use ill_saved::Shown;
use ill_values::OutOfMemory;
use ill_words::{push_number, push_shown};

/// Appends the line of event `number`, counted from 1, with an LF after it. It has the number and `word`. For each side
/// it has the state, the due date, and the counts of its released and its issued messages, as in `3 saved requester
/// PENDING - 1/1 responder IDLE - 0/0`.
pub(crate) fn push_line(
    lines: &mut Vec<u8>,
    number: u32,
    word: &str,
    requester: Shown,
    responder: Shown,
) -> Result<(), OutOfMemory>
    ensures { OnOk result (lines.new.items ≡ lines.old.items
        ++ line_of number word.now requester responder) }
{
    push_event(lines, number, word)?;
    push_sides(lines, requester, responder)?;
    lines.push(b'\n')?;
    Ok(())
}

/// Appends the number of an event and the word of its outcome, as `12 saved`.
fn push_event(lines: &mut Vec<u8>, number: u32, word: &str) -> Result<(), OutOfMemory>
    ensures { OnOk result (lines.new.items ≡ lines.old.items ++ event_text number word.now) }
{
    push_number(lines, number)?;
    lines.push(b' ')?;
    lines.extend_from_slice(word.as_bytes())?;
    Ok(())
}

/// Appends the text of both sides, each after its role.
fn push_sides(lines: &mut Vec<u8>, requester: Shown, responder: Shown) -> Result<(), OutOfMemory>
    ensures { OnOk result (lines.new.items ≡ lines.old.items ++ sides_text requester responder) }
{
    lines.extend_from_slice(b" requester ")?;
    push_shown(lines, requester)?;
    lines.extend_from_slice(b" responder ")?;
    push_shown(lines, responder)?;
    Ok(())
}
