//! The command `status`.

ghost use Rattle.std.specs.Prelude.{◌≡◌, ◌++◌, true, map, codes, slice_get, OnOk};
ghost use Rattle.ill_text.specs.Output.{WritesText};
ghost use Rattle.ill_core.specs.State.{state_name};
ghost use Rattle.ill_record.specs.Side.{state_of, due_date_of};
ghost use Rattle.ill_record.specs.Sides.{are_apart};
ghost use Rattle.ill_saved.specs.ManySides.{sides_held};
ghost use Rattle.ill_words.specs.Shown.{due_text};
ghost use Rattle.ill_text.specs.Lines.{line};
ghost use Rattle.ill_show.specs.Objects.{status_of_desk, status_text, text_of_one};
ghost use Rattle.ill_show.specs.Status.{status_lines, desk_lines, marks_of, counts_text, spaced_or_dash};

use crate::marks::marks;
use crate::objects::push_status_object;
use ill_saved::{Desk, Desk1, Side, Store};
use ill_text::fault::ToolFault;
use ill_text::form::Form;
use ill_text::lines::{push_id, push_line};
use ill_text::output::write_whole;
use ill_values::{Day, OutOfMemory};
use std::alloc::Global;
use std::io::Write;

/// Writes the seven lines of the side of `desk`. They have its role, group, transaction, state and due date. The last
/// two have the numbers of its released and issued messages, and its marks.
pub fn run_status<S: Store, W: Write>(
    alloc: Global,
    desk: &Desk1<S>,
    writer: &mut W,
) -> Result<(), ToolFault>
    ensures { WritesText (W.contents writer.old) (W.contents writer.new)
        (status_lines desk.now.live.side desk.now.live.released) result }
{
    let mut lines = Vec::new(alloc);
    push_status(&mut lines, desk.side(), desk.released())?;
    write_whole(writer, &lines)
}

/// Writes the seven lines of each transaction that `desk` holds, in the order in which they were begun.
pub fn run_desk_status<S: Store, W: Write>(
    alloc: Global,
    desk: &Desk<S>,
    writer: &mut W,
) -> Result<(), ToolFault>
    ensures { WritesText (W.contents writer.old) (W.contents writer.new)
        (desk_lines desk.now.live.held) result }
{
    run_desk_status_as(alloc, desk, Form::Lines, writer)
}

/// Writes the seven lines of each transaction that `desk` holds, or an object of JSON for it, by `form`.
pub fn run_desk_status_as<S: Store, W: Write>(
    alloc: Global,
    desk: &Desk<S>,
    form: Form,
    writer: &mut W,
) -> Result<(), ToolFault>
    ensures { WritesText (W.contents writer.old) (W.contents writer.new)
        (status_of_desk form desk.now.live.held) result }
{
    let mut lines = Vec::new(alloc);
    push_desk(&mut lines, desk, form)?;
    write_whole(writer, &lines)
}

/// Appends the text of each side that `desk` holds, in `form`.
fn push_desk<S: Store>(lines: &mut Vec<u8>, desk: &Desk<S>, form: Form) -> Result<(), OutOfMemory>
    ensures { OnOk result (lines.new.items ≡ lines.old.items ++ status_of_desk form desk.now.live.held) }
{
    for place in 0..desk.sides().len() {
        push_status_at(lines, desk, form, place)?;
    }
    Ok(())
}

/// Appends the text of the side at `place` of `desk` in `form`, if there is one.
fn push_status_at<S: Store>(
    lines: &mut Vec<u8>,
    desk: &Desk<S>,
    form: Form,
    place: usize,
) -> Result<(), OutOfMemory>
    requires apart { are_apart (sides_held desk.now.live).sides ≡ true }
    ensures { OnOk result (lines.new.items ≡ lines.old.items
        ++ text_of_one form (slice_get desk.now.live.held place)) }
{
    match desk.sides().at(place) {
        Some(side) => push_status_as(lines, form, side, desk.released(side.txn())),
        None => Ok(()),
    }
}

/// Appends the text of `side` with `released` released messages, in `form`.
fn push_status_as(
    lines: &mut Vec<u8>,
    form: Form,
    side: &Side,
    released: u8,
) -> Result<(), OutOfMemory>
    ensures { OnOk result (lines.new.items ≡ lines.old.items ++ status_text form side.now released) }
{
    match form {
        Form::Lines => push_status(lines, side, released),
        Form::Json => push_status_object(lines, side, released),
    }
}

/// Appends the seven lines of `side` with `released` released messages.
#[tactic(auto, unfolding(crate::specs::Status::status_lines))]
pub(crate) fn push_status(lines: &mut Vec<u8>, side: &Side, released: u8) -> Result<(), OutOfMemory>
    ensures { OnOk result (lines.new.items ≡ lines.old.items ++ status_lines side.now released) }
{
    push_line(lines, "role", side.role().name().as_bytes())?;
    push_id(lines, side.txn().group(), side.txn().transaction())?;
    push_state_and_due(lines, side)?;
    push_counts(lines, side, released)?;
    push_marks(lines, side)
}

/// Appends the lines of the state and of the due date, or of a dash for it.
fn push_state_and_due(lines: &mut Vec<u8>, side: &Side) -> Result<(), OutOfMemory>
    ensures { OnOk result (lines.new.items ≡ lines.old.items
        ++ (line (codes "state") (state_name (state_of side.now))
        ++ line (codes "due") (due_text (due_date_of side.now)))) }
{
    push_line(lines, "state", side.state().name().as_bytes())?;
    push_day_or_dash(lines, "due", side.due())
}

/// Appends the line of `label` with `day`, or with a dash if there is no day.
pub(crate) fn push_day_or_dash(
    lines: &mut Vec<u8>,
    label: &str,
    day: Option<Day>,
) -> Result<(), OutOfMemory>
    ensures { OnOk result (lines.new.items ≡ lines.old.items ++ line label.now (due_text day)) }
{
    match day {
        None => push_line(lines, label, b"-"),
        Some(day) => push_line(lines, label, &day.digits()),
    }
}

/// Appends the line of the numbers of released and issued messages, such as `1/2`.
fn push_counts(lines: &mut Vec<u8>, side: &Side, released: u8) -> Result<(), OutOfMemory>
    ensures { OnOk result (lines.new.items ≡ lines.old.items
        ++ line (codes "messages") (counts_text side.now released)) }
{
    let issued = side.issued_count();
    let counts = format!(in *lines.allocator(); "{released}/{issued}")?;
    push_line(lines, "messages", counts.as_bytes())
}

/// Appends the line of the marks, or of a dash if there are none.
fn push_marks(lines: &mut Vec<u8>, side: &Side) -> Result<(), OutOfMemory>
    ensures { OnOk result (lines.new.items ≡ lines.old.items
        ++ line (codes "marks") (spaced_or_dash (marks_of side.now))) }
{
    let marks = marks(*lines.allocator(), side)?;
    push_words(lines, "marks", &marks)
}

/// Appends the line of `label` with `words`, or with a dash if there are none.
pub(crate) fn push_words(
    lines: &mut Vec<u8>,
    label: &str,
    words: &[&str],
) -> Result<(), OutOfMemory>
    ensures { OnOk result (lines.new.items ≡ lines.old.items
        ++ line label.now (spaced_or_dash (map (λ word. word.now) words.now))) }
{
    if words.is_empty() {
        return push_line(lines, label, b"-");
    }
    let text = words.join(*lines.allocator(), " ")?;
    push_line(lines, label, text.as_bytes())
}
