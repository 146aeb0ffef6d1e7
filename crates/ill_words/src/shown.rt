//! The text of a side has its state, its due date and the counts of its messages.

ghost use Rattle.std.specs.Prelude.{◌≡◌, ◌++◌, OnOk, OnErr};
ghost use Rattle.ill_der.specs.Adding.{AddsPrefix};
ghost use Rattle.ill_words.specs.Shown.{shown_text, side_text, due_text};

use ill_saved::{Shown, Side};
use ill_values::{Day, OutOfMemory};
use itoa::{Buffer, Integer};

/// Appends the text of a side, as `SHIPPED 20250315 2/3`. It has the state, the due date or a dash, and the counts of
/// released and of issued messages. `released` is the first count. If memory runs out, `lines` keeps its content, and
/// may end with a proper prefix of the text.
pub fn push_side(lines: &mut Vec<u8>, side: &Side, released: u8) -> Result<(), OutOfMemory>
    ensures text { OnOk result (lines.new.items ≡ lines.old.items ++ side_text side.now released) }
    ensures prefix { OnErr result (AddsPrefix lines.old.items lines.new.items
        (side_text side.now released)) }
{
    push_shown(lines, Shown::of(side, released))
}

/// Appends the text of these parts of a side. If memory runs out, `lines` ends as `push_side` leaves it.
#[tactic(auto, unfolding(crate::specs::Shown::shown_text))]
pub fn push_shown(lines: &mut Vec<u8>, shown: Shown) -> Result<(), OutOfMemory>
    ensures text { OnOk result (lines.new.items ≡ lines.old.items ++ shown_text shown) }
    ensures prefix { OnErr result (AddsPrefix lines.old.items lines.new.items (shown_text shown)) }
{
    lines.extend_from_slice(shown.state.name().as_bytes())?;
    lines.push(b' ')?;
    push_due(lines, shown.due)?;
    lines.push(b' ')?;
    push_number(lines, shown.released)?;
    lines.push(b'/')?;
    push_number(lines, shown.issued)
}

/// Appends a due date as eight digits, or a dash if there is none. If memory runs out, a proper prefix may be appended.
fn push_due(lines: &mut Vec<u8>, due: Option<Day>) -> Result<(), OutOfMemory>
    ensures text { OnOk result (lines.new.items ≡ lines.old.items ++ due_text due) }
    ensures prefix { OnErr result (AddsPrefix lines.old.items lines.new.items (due_text due)) }
{
    match due {
        None => lines.push(b'-')?,
        Some(day) => lines.extend_from_slice(&day.digits())?,
    }
    Ok(())
}

/// Appends a number in decimal. If memory runs out, a proper prefix of its digits may be appended.
pub fn push_number<I: Integer>(lines: &mut Vec<u8>, number: I) -> Result<(), OutOfMemory>
    ensures text { OnOk result (lines.new.items ≡ lines.old.items ++ I.text number) }
    ensures prefix { OnErr result (AddsPrefix lines.old.items lines.new.items (I.text number)) }
{
    lines.extend_from_slice(Buffer::new().format(number).as_bytes())?;
    Ok(())
}
