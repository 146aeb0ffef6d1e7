//! The command `list`.

ghost use Rattle.std.specs.Prelude.{◌≡◌, ◌++◌, map, count_by, filter, option_map, IfOk, OnOk};
ghost use Rattle.std.specs.List.{flat_map};
ghost use Rattle.ill_saved.specs.ManySides.{sides_held};
ghost use Rattle.ill_text.specs.Output.{WritesText};
ghost use Rattle.ill_list.specs.List.{columns_of, counts_line, counts_of, has_work, is_left_out, lacks_day, left_out};
ghost use Rattle.ill_list.specs.Seeking.{seeking_of};
ghost use Rattle.ill_list.specs.Morning.{is_morning, morning_columns};
ghost use Rattle.ill_beside.specs.Since.{annex_of};
ghost use Rattle.ill_rows.specs.Heading.{between, file_printed, gap, heading};
ghost use Rattle.ill_list.specs.Listing.{chosen_of, counts_text, dated_row, list_lines, list_objects, listed_desk, morning_heading, morning_lines, note_shown, noted_row, ordered_lines, section, sections, since_shown, printed_morning, printed_row, work_heading, work_lines, work_objects, work_text};

use crate::counts::Counts;
use crate::list_objects::{RowObjects, push_counts_object, push_row_object};
use crate::listed_news::push_listed_news;
use crate::morning::{MorningColumns, MorningLines, is_morning, push_morning_row};
use crate::row::{Columns, push_row};
use crate::wanted::{Wanted, has_work, is_of_list, is_wanted, listed_of};
use ill_beside::annex::Annex;
use ill_beside::notes::{Notes, push_listed_note};
use ill_beside::since::{push_since_line, since_of};
use ill_rows::finding::found_of;
use ill_rows::listed::{Listed, heading};
use ill_saved::{Desk, Side, Sides, Store};
use ill_text::fault::ToolFault;
use ill_text::form::Form;
use ill_text::output::write_whole;
use ill_values::OutOfMemory;
use ill_words::sides::all_of;
use ill_words::waiting::{most_urgent_first, waits_by_date};
use ill_work::Work;
use std::alloc::Global;
use std::io::Write;

/// The conditions and the words of a list of the loans of a desk, and the annex of the desk.
#[derive(Clone, Copy)]
pub struct Sought<'a> {
    /// The conditions on the loans.
    pub wanted: &'a Wanted,
    /// The words that are sought in the loans, if there are any.
    pub find: Option<&'a str>,
    /// The annex.
    pub annex: &'a Annex,
}

/// The form of a list.
#[derive(Clone, Copy)]
pub(crate) enum Rows<'a> {
    /// A line for each loan, and those of its note, its day and its news if the list has them.
    Lines(RowLines<'a>),
    /// A line for each loan in the list of a morning, and those of its note and its day if the list has them.
    Morning(MorningLines<'a>),
    /// An object for each loan.
    Objects(RowObjects<'a>),
}

/// The columns of the lines of a list, and the annex of the desk.
#[derive(Clone, Copy)]
pub(crate) struct RowLines<'a> {
    /// The columns.
    pub columns: Columns,
    /// The annex.
    pub annex: &'a Annex,
}

/// Writes a line or an object of JSON for each wanted loan of `desk`, and one that counts all loans. Lines stand
/// after a heading with the path of the desk, if that is written; each object has the path. The most pressing work
/// comes first. In lines each kind of work has a heading. In the list of a morning a kind that wants no hand has
/// none. Within a kind the loans are in the order of their deadlines. A loan is left out if it has not the words that
/// are sought.
pub fn run_desk_list<S: Store, W: Write>(
    alloc: Global,
    desk: &Desk<S>,
    listed: &Listed<'_>,
    sought: &Sought<'_>,
    writer: &mut W,
) -> Result<(), ToolFault>
    ensures { WritesText (W.contents writer.old) (W.contents writer.new)
        (between listed.now.form listed.now.is_first ++ listed_desk listed.now.form listed.now.is_headed sought.now.wanted.now
        (seeking_of sought.now) listed.now.path.now (sides_held desk.now.live).sides) result }
{
    match listed.form {
        Form::Lines => write_lines(alloc, desk.sides(), listed, sought, writer),
        Form::Json => write_objects(alloc, desk.sides(), listed, sought, writer),
    }
}

/// Writes the heading and all lines of a list of `sides`.
fn write_lines<W: Write>(
    alloc: Global,
    sides: &Sides,
    listed: &Listed<'_>,
    sought: &Sought<'_>,
    writer: &mut W,
) -> Result<(), ToolFault>
    ensures { WritesText (W.contents writer.old) (W.contents writer.new)
        (gap listed.now.is_first ++ (heading listed.now.is_headed listed.now.path.now
        ++ list_lines sought.now.wanted.now (seeking_of sought.now) sides.now.sides)) result }
{
    let mut lines = heading(alloc, listed)?;
    push_list(&mut lines, sides, sought)?;
    write_whole(writer, &lines)
}

/// Writes all objects of a list of `sides`.
fn write_objects<W: Write>(
    alloc: Global,
    sides: &Sides,
    listed: &Listed<'_>,
    sought: &Sought<'_>,
    writer: &mut W,
) -> Result<(), ToolFault>
    ensures { WritesText (W.contents writer.old) (W.contents writer.new)
        (list_objects (file_printed listed.now.is_headed listed.now.path.now) sought.now.wanted.now (seeking_of sought.now) sides.now.sides) result }
{
    let mut text = Vec::new(alloc);
    push_list_objects(&mut text, listed.printed(), sides, sought)?;
    write_whole(writer, &text)
}

/// Appends all lines of a list of `sides`.
fn push_list(lines: &mut Vec<u8>, sides: &Sides, sought: &Sought<'_>) -> Result<(), OutOfMemory>
    ensures { OnOk result (lines.new.items ≡ lines.old.items ++ list_lines sought.now.wanted.now (seeking_of sought.now) sides.now.sides) }
{
    let sides = most_urgent_first(*lines.allocator(), sides)?;
    push_ordered(lines, &sides, sought)
}

/// Appends all lines of a list of `sides`, which are in the order of urgency.
fn push_ordered(
    lines: &mut Vec<u8>,
    sides: &[&Side],
    sought: &Sought<'_>,
) -> Result<(), OutOfMemory>
    ensures { OnOk result (lines.new.items ≡ lines.old.items
        ++ ordered_lines sought.now.wanted.now (seeking_of sought.now) (map (λ side. side.now) sides.now)) }
{
    let chosen = chosen_of(*lines.allocator(), sides, sought)?;
    if is_morning(sought.wanted) {
        return push_morning(lines, sides, sought, &chosen);
    }
    push_headed(lines, sides, sought, &chosen)
}

/// Appends the lines of the `chosen` loans below the headings of their work, and the line of the counts of all `sides`.
fn push_headed(
    lines: &mut Vec<u8>,
    sides: &[&Side],
    sought: &Sought<'_>,
    chosen: &[&Side],
) -> Result<(), OutOfMemory>
    ensures { OnOk result (lines.new.items ≡ lines.old.items
        ++ (sections (work_lines (columns_of sought.now.wanted.now (map (λ side. side.now) chosen.now)) (annex_of sought.now.annex.now))
        sought.now.wanted.now (map (λ side. side.now) chosen.now)
        ++ counts_line (counts_of sought.now.wanted.now (map (λ side. side.now) sides.now)))) }
{
    let rows = RowLines {
        columns: Columns::of(*lines.allocator(), chosen, sought.wanted)?,
        annex: sought.annex,
    };
    push_listed(lines, &Rows::Lines(rows), sought.wanted, sides, chosen)
}

/// Appends the lines of the `chosen` loans in a morning's list, and the line of the counts of all `sides`.
fn push_morning(
    lines: &mut Vec<u8>,
    sides: &[&Side],
    sought: &Sought<'_>,
    chosen: &[&Side],
) -> Result<(), OutOfMemory>
    ensures { OnOk result (lines.new.items ≡ lines.old.items
        ++ (sections (morning_lines (morning_columns sought.now.wanted.now (annex_of sought.now.annex.now).news (map (λ side. side.now) chosen.now)) (annex_of sought.now.annex.now))
        sought.now.wanted.now (map (λ side. side.now) chosen.now)
        ++ counts_line (counts_of sought.now.wanted.now (map (λ side. side.now) sides.now)))) }
{
    let rows = MorningLines {
        columns: MorningColumns::of(*lines.allocator(), chosen, sought.wanted, sought.annex)?,
        annex: sought.annex,
    };
    push_listed(lines, &Rows::Morning(rows), sought.wanted, sides, chosen)
}

/// Appends all objects of a list of `sides`, each with the path `file` of the desk, if it is given.
fn push_list_objects(
    text: &mut Vec<u8>,
    file: Option<&str>,
    sides: &Sides,
    sought: &Sought<'_>,
) -> Result<(), OutOfMemory>
    ensures { OnOk result (text.new.items ≡ text.old.items
        ++ list_objects (option_map (λ path. path.now) file.entry) sought.now.wanted.now (seeking_of sought.now) sides.now.sides) }
{
    let alloc = *text.allocator();
    let sides = most_urgent_first(alloc, sides)?;
    let chosen = chosen_of(alloc, &sides, sought)?;
    let rows = RowObjects {
        file,
        annex: sought.annex,
    };
    push_listed(text, &Rows::Objects(rows), sought.wanted, &sides, &chosen)
}

/// Returns the loans of `sides` that are listed, and have the words that are sought.
fn chosen_of<'a>(
    alloc: Global,
    sides: &[&'a Side],
    sought: &Sought<'_>,
) -> Result<Vec<&'a Side>, OutOfMemory>
    ensures { IfOk result (λ chosen. map (λ side. side.now) chosen.items
        ≡ chosen_of sought.now.wanted.now (seeking_of sought.now) (map (λ side. side.now) sides.now)) }
{
    let listed = listed_of(alloc, sides, sought.wanted, sought.annex)?;
    found_of(alloc, &listed, sought.find, &sought.annex.notes)
}

/// Appends the `listed` loans in the form `rows`, kind by kind, and the counts of all `sides`.
fn push_listed(
    text: &mut Vec<u8>,
    rows: &Rows<'_>,
    wanted: &Wanted,
    sides: &[&Side],
    listed: &[&Side],
) -> Result<(), OutOfMemory>
    ensures { OnOk result (text.new.items ≡ text.old.items
        ++ (sections (work_text rows.now) wanted.now (map (λ side. side.now) listed.now)
        ++ counts_text rows.now (counts_of wanted.now (map (λ side. side.now) sides.now)))) }
{
    push_sections(text, rows, wanted, listed)?;
    push_counts(text, rows, &Counts::of(sides, wanted))
}

/// Appends the `listed` loans in the form `rows`, kind by kind, the most pressing work first.
fn push_sections(
    text: &mut Vec<u8>,
    rows: &Rows<'_>,
    wanted: &Wanted,
    listed: &[&Side],
) -> Result<(), OutOfMemory>
    ensures { OnOk result (text.new.items ≡ text.old.items
        ++ sections (work_text rows.now) wanted.now (map (λ side. side.now) listed.now)) }
{
    let works = Work::all();
    for work in works {
        push_section(text, rows, wanted, listed, *work)?;
    }
    Ok(())
}

/// Appends those of the `listed` loans that have this work, in the form `rows` and in their order.
fn push_section(
    text: &mut Vec<u8>,
    rows: &Rows<'_>,
    wanted: &Wanted,
    listed: &[&Side],
    work: Work,
) -> Result<(), OutOfMemory>
    ensures { OnOk result (text.new.items ≡ text.old.items
        ++ section (work_text rows.now) wanted.now (map (λ side. side.now) listed.now) work) }
{
    let sides = with_work(*text.allocator(), listed, wanted, work)?;
    push_work(text, rows, wanted, work, &sides)
}

/// Returns those of the `listed` loans that have this work, in their order. The contract compares the loans
/// themselves.
fn with_work<'a>(
    alloc: Global,
    listed: &[&'a Side],
    wanted: &Wanted,
    work: Work,
) -> Result<Vec<&'a Side>, OutOfMemory>
    ensures { IfOk result (λ sides. map (λ side. side.now) sides.items
        ≡ filter (has_work wanted.now work) (map (λ side. side.now) listed.now)) }
{
    Ok(kept_with_work(alloc, listed, wanted, work)?)
}

/// Returns the references to the loans of `listed` that have the work `work`, in their order. The contract compares
/// the references.
fn kept_with_work<'a>(
    alloc: Global,
    listed: &[&'a Side],
    wanted: &Wanted,
    work: Work,
) -> Result<Vec<&'a Side>, OutOfMemory>
    ensures { IfOk result (λ sides. sides.items ≡ filter (λ side. has_work wanted.now work side.now) listed.now) }
{
    Ok(
        listed
            .iter()
            .copied()
            .filter(|side| has_work(wanted, work, side))
            .collect(alloc)?,
    )
}

/// Appends the loans of `sides`, which have this work, in the form `rows`.
fn push_work(
    text: &mut Vec<u8>,
    rows: &Rows<'_>,
    wanted: &Wanted,
    work: Work,
    sides: &[&Side],
) -> Result<(), OutOfMemory>
    ensures { OnOk result (text.new.items ≡ text.old.items
        ++ work_text rows.now wanted.now work (map (λ side. side.now) sides.now)) }
{
    match rows {
        Rows::Lines(rows) => push_work_lines(text, rows, wanted, work, sides),
        Rows::Morning(rows) => push_morning_lines(text, rows, wanted, work, sides),
        Rows::Objects(rows) => push_work_objects(text, rows, wanted, work, sides),
    }
}

/// Appends a heading of this work, and a line for each loan of `sides`. Without a loan it appends nothing.
fn push_work_lines(
    lines: &mut Vec<u8>,
    rows: &RowLines<'_>,
    wanted: &Wanted,
    work: Work,
    sides: &[&Side],
) -> Result<(), OutOfMemory>
    ensures { OnOk result (lines.new.items ≡ lines.old.items
        ++ work_lines rows.now.columns (annex_of rows.now.annex.now) wanted.now work (map (λ side. side.now) sides.now)) }
{
    if sides.is_empty() {
        return Ok(());
    }
    push_work_heading(lines, work, sides.len())?;
    push_rows(lines, rows, wanted, sides)
}

/// Appends the heading of a kind of work with `count` listed loans.
fn push_work_heading(lines: &mut Vec<u8>, work: Work, count: usize) -> Result<(), OutOfMemory>
    ensures { OnOk result (lines.new.items ≡ lines.old.items ++ work_heading work count) }
{
    let printed = format!(in *lines.allocator(); " ({count}):\n")?;
    lines.extend_from_slice(work.words().as_bytes())?;
    lines.extend_from_slice(printed.as_bytes())?;
    Ok(())
}

/// Appends a line for each loan of `sides`, and those of its note, its day and its news if the list has them.
fn push_rows(
    lines: &mut Vec<u8>,
    rows: &RowLines<'_>,
    wanted: &Wanted,
    sides: &[&Side],
) -> Result<(), OutOfMemory>
    ensures { OnOk result (lines.new.items ≡ lines.old.items
        ++ flat_map (printed_row rows.now.columns (annex_of rows.now.annex.now) wanted.now) (map (λ side. side.now) sides.now)) }
{
    for side in sides {
        push_printed_row(lines, rows, wanted, side)?;
    }
    Ok(())
}

/// Appends the line of the loan of `side`, and those of its note, its day and its news if the list has them.
fn push_printed_row(
    lines: &mut Vec<u8>,
    rows: &RowLines<'_>,
    wanted: &Wanted,
    side: &Side,
) -> Result<(), OutOfMemory>
    ensures { OnOk result (lines.new.items ≡ lines.old.items
        ++ printed_row rows.now.columns (annex_of rows.now.annex.now) wanted.now side.now) }
{
    push_dated_row(lines, rows, wanted, side)?;
    push_listed_news(lines, rows.annex, side)
}

/// Appends the line of the loan of `side`, and those of its note and its day if the list has them.
fn push_dated_row(
    lines: &mut Vec<u8>,
    rows: &RowLines<'_>,
    wanted: &Wanted,
    side: &Side,
) -> Result<(), OutOfMemory>
    ensures { OnOk result (lines.new.items ≡ lines.old.items
        ++ dated_row rows.now.columns (annex_of rows.now.annex.now) wanted.now side.now) }
{
    push_noted_row(lines, &rows.columns, &rows.annex.notes, wanted, side)?;
    push_since_shown(lines, rows.annex, wanted, side)
}

/// Appends the line of the day since which the loan of `side` stands as it does, if the list has such lines and the day
/// is known.
fn push_since_shown(
    lines: &mut Vec<u8>,
    annex: &Annex,
    wanted: &Wanted,
    side: &Side,
) -> Result<(), OutOfMemory>
    ensures { OnOk result (lines.new.items ≡ lines.old.items ++ since_shown (annex_of annex.now) wanted.now side.now) }
{
    if wanted.has_since {
        let since = since_of(*lines.allocator(), annex, side)?;
        return push_since_line(lines, since);
    }
    Ok(())
}

/// Appends the line of the loan of `side`, and that of its note if the list has notes.
fn push_noted_row(
    lines: &mut Vec<u8>,
    columns: &Columns,
    notes: &Notes,
    wanted: &Wanted,
    side: &Side,
) -> Result<(), OutOfMemory>
    ensures { OnOk result (lines.new.items ≡ lines.old.items
        ++ noted_row columns.now notes.now wanted.now side.now) }
{
    push_row(lines, columns, wanted.today, side)?;
    push_note_shown(lines, notes, wanted, side)
}

/// Appends the line of the note of the loan of `side`, if the list has notes and there is one.
fn push_note_shown(
    lines: &mut Vec<u8>,
    notes: &Notes,
    wanted: &Wanted,
    side: &Side,
) -> Result<(), OutOfMemory>
    ensures { OnOk result (lines.new.items ≡ lines.old.items ++ note_shown notes.now wanted.now side.now) }
{
    if wanted.has_notes {
        return push_listed_note(lines, notes.note_of(side.txn())?);
    }
    Ok(())
}

/// Appends a heading of this work, and a line for each loan of `sides` in the list of a morning. Without a loan it
/// appends nothing.
fn push_morning_lines(
    lines: &mut Vec<u8>,
    rows: &MorningLines<'_>,
    wanted: &Wanted,
    work: Work,
    sides: &[&Side],
) -> Result<(), OutOfMemory>
    ensures { OnOk result (lines.new.items ≡ lines.old.items
        ++ morning_lines rows.now.columns (annex_of rows.now.annex.now) wanted.now work (map (λ side. side.now) sides.now)) }
{
    if sides.is_empty() {
        return Ok(());
    }
    push_morning_heading(lines, work, sides.len())?;
    push_morning_rows(lines, rows, wanted, sides)
}

/// Appends the heading of a kind of work with `count` loans in the list of a morning, if that work wants a hand.
fn push_morning_heading(lines: &mut Vec<u8>, work: Work, count: usize) -> Result<(), OutOfMemory>
    ensures { OnOk result (lines.new.items ≡ lines.old.items ++ morning_heading work count) }
{
    if work.wants_a_hand() {
        return push_work_heading(lines, work, count);
    }
    Ok(())
}

/// Appends a line for each loan of `sides` in the list of a morning, and those of its note and its day if the list has
/// them.
fn push_morning_rows(
    lines: &mut Vec<u8>,
    rows: &MorningLines<'_>,
    wanted: &Wanted,
    sides: &[&Side],
) -> Result<(), OutOfMemory>
    ensures { OnOk result (lines.new.items ≡ lines.old.items
        ++ flat_map (printed_morning rows.now.columns (annex_of rows.now.annex.now) wanted.now) (map (λ side. side.now) sides.now)) }
{
    for side in sides {
        push_printed_morning(lines, rows, wanted, side)?;
    }
    Ok(())
}

/// Appends the line of the loan of `side` in the list of a morning, and those of its note and its day if the list has
/// them.
fn push_printed_morning(
    lines: &mut Vec<u8>,
    rows: &MorningLines<'_>,
    wanted: &Wanted,
    side: &Side,
) -> Result<(), OutOfMemory>
    ensures { OnOk result (lines.new.items ≡ lines.old.items
        ++ printed_morning rows.now.columns (annex_of rows.now.annex.now) wanted.now side.now) }
{
    push_morning_row(lines, rows, wanted, side)?;
    push_note_shown(lines, &rows.annex.notes, wanted, side)?;
    push_since_shown(lines, rows.annex, wanted, side)
}

/// Appends an object for each loan of `sides`, with this work.
fn push_work_objects(
    text: &mut Vec<u8>,
    rows: &RowObjects<'_>,
    wanted: &Wanted,
    work: Work,
    sides: &[&Side],
) -> Result<(), OutOfMemory>
    ensures { OnOk result (text.new.items ≡ text.old.items
        ++ work_objects (option_map (λ path. path.now) rows.now.file) (annex_of rows.now.annex.now) wanted.now work (map (λ side. side.now) sides.now)) }
{
    for side in sides {
        push_row_object(text, rows, wanted.today, work, side)?;
    }
    Ok(())
}

/// Returns the number of loans that a list of `sides` leaves out since no day is given. If a day is given, or the
/// list is not of what wants a hand, the number is 0.
pub fn count_left_out(
    alloc: Global,
    sides: &Sides,
    wanted: &Wanted,
    annex: &Annex,
) -> Result<usize, OutOfMemory>
    ensures { IfOk result (λ count. count ≡ left_out wanted.now (annex_of annex.now).news sides.now.sides) }
{
    if !lacks_day(wanted) {
        return Ok(0);
    }
    let all = all_of(alloc, sides)?;
    Ok(count_by_date(&all, wanted, annex))
}

/// Returns the number of loans of `sides` that are not listed, and may want a hand by their dates.
fn count_by_date(sides: &[&Side], wanted: &Wanted, annex: &Annex) -> usize
    ensures { result ≡ count_by (is_left_out wanted.now (annex_of annex.now).news) (map (λ side. side.now) sides.now) }
{
    sides
        .iter()
        .filter(|side| is_left_out(wanted, annex, side))
        .count()
}

/// Returns true if a list is of what wants a hand (`Mine`), and no day is given.
fn lacks_day(wanted: &Wanted) -> bool
    ensures { result ≡ lacks_day wanted.now }
{
    wanted.which.is_mine() && wanted.today.is_none()
}

/// Returns true if the loan of `side` is not listed without a day, but may want a hand by its date. It meets the
/// other conditions.
fn is_left_out(wanted: &Wanted, annex: &Annex, side: &Side) -> bool
    ensures { result ≡ is_left_out wanted.now (annex_of annex.now).news side.now }
{
    !is_of_list(wanted, annex, side) && waits_by_date(side) && is_wanted(wanted, side)
}

/// Appends `counts`, as a line or as an object.
fn push_counts(text: &mut Vec<u8>, rows: &Rows<'_>, counts: &Counts) -> Result<(), OutOfMemory>
    ensures { OnOk result (text.new.items ≡ text.old.items ++ counts_text rows.now counts.now) }
{
    match rows {
        Rows::Lines(_) | Rows::Morning(_) => push_counts_line(text, counts),
        Rows::Objects(rows) => push_counts_object(text, rows.file, counts),
    }
}

/// Appends the line of `counts`.
#[tactic(auto, unfolding(crate::specs::List::counts_line))]
fn push_counts_line(lines: &mut Vec<u8>, counts: &Counts) -> Result<(), OutOfMemory>
    ensures { OnOk result (lines.new.items ≡ lines.old.items ++ counts_line counts.now) }
{
    let Counts {
        loans,
        open_loans,
        to_do,
        room,
    } = *counts;
    let line = format!(in *lines.allocator();
        "loans {loans}, open {open_loans}, to do {to_do}, room for {room}\n"
    )?;
    lines.extend_from_slice(line.as_bytes())?;
    Ok(())
}
