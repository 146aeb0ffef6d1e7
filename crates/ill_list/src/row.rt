//! The line of a loan in a list.

ghost use Rattle.std.specs.Prelude.{◌≡◌, ◌++◌, map, length, string_bytes, codes, IfOk, OnOk};
ghost use Rattle.ill_rows.specs.Cells.{column};
ghost use Rattle.ill_list.specs.List.{columns_of, actions_cell, actions_text, due_cell, name_cells, no_columns, row, standing, verbs_text, widened};

use crate::wanted::Wanted;
use ill_rows::cells::{column, push_cell, push_title};
use ill_saved::Side;
use ill_values::{Day, OutOfMemory};
use ill_words::names::names;
use ill_words::possible::possible_on;
use std::alloc::Global;

/// The width of the column of a day.
const DUE: usize = 8;

/// The columns of a list: the widths of all but that of a day, and true if actions have a column.
#[derive(Clone, Copy)]
pub struct Columns {
    /// Set if actions have a column.
    pub has_actions: bool,
    /// The width of the state.
    pub state: usize,
    /// The width of the group qualifier.
    pub group: usize,
    /// The width of the transaction qualifier.
    pub transaction: usize,
    /// The width of the actions.
    pub actions: usize,
}

impl Columns {
    /// Returns the columns that are wide enough for each of the listed loans.
    pub fn of(alloc: Global, listed: &[&Side], wanted: &Wanted) -> Result<Columns, OutOfMemory>
        ensures { IfOk result (λ columns. columns ≡ columns_of wanted.now (map (λ side. side.now) listed.now)) }
    {
        let mut columns = Columns::empty(wanted.has_actions);
        for side in listed {
            columns = columns.widened(alloc, wanted.today, side)?;
        }
        Ok(columns)
    }

    /// Returns columns of the width 0. They have actions if `has_actions` is true.
    fn empty(has_actions: bool) -> Columns
        ensures { result ≡ no_columns has_actions }
    {
        Columns {
            has_actions,
            state: 0,
            group: 0,
            transaction: 0,
            actions: 0,
        }
    }

    /// Returns these columns, each made as wide as the text of `side` in it at least. Its actions are those of the
    /// day `today`.
    fn widened(self, alloc: Global, today: Option<Day>, side: &Side) -> Result<Columns, OutOfMemory>
        ensures { IfOk result (λ columns. columns ≡ widened today self side.now) }
    {
        let group = column(alloc, side.txn().group())?.len();
        let transaction = column(alloc, side.txn().transaction())?.len();
        let actions = actions_width(alloc, self.has_actions, today, side)?;
        Ok(Columns {
            has_actions: self.has_actions,
            state: self.state.max(side.state().name().len()),
            group: self.group.max(group),
            transaction: self.transaction.max(transaction),
            actions: self.actions.max(actions),
        })
    }
}

/// Returns the width of the actions of `side` on the day `today`. It is 0 if the list has no column of them.
fn actions_width(
    alloc: Global,
    has_actions: bool,
    today: Option<Day>,
    side: &Side,
) -> Result<usize, OutOfMemory>
    ensures { IfOk result (λ width. width ≡ length (actions_text has_actions today side.now)) }
{
    if !has_actions {
        return Ok(0);
    }
    let text = verbs_text(alloc, today, side)?;
    Ok(text.len())
}

/// Appends the line of `side`, with its actions on the day `today` if the list has them.
#[tactic(auto, unfolding(crate::specs::List::row))]
pub fn push_row(
    lines: &mut Vec<u8>,
    columns: &Columns,
    today: Option<Day>,
    side: &Side,
) -> Result<(), OutOfMemory>
    ensures { OnOk result (lines.new.items ≡ lines.old.items ++ row columns.now today side.now) }
{
    lines.extend_from_slice(b"  ")?;
    push_standing(lines, columns, today, side)?;
    push_title(lines, side)?;
    lines.push(b'\n')?;
    Ok(())
}

/// Appends the columns of `side` before its title, with its actions on the day `today` if the list has them.
#[tactic(auto, unfolding(crate::specs::List::standing))]
fn push_standing(
    lines: &mut Vec<u8>,
    columns: &Columns,
    today: Option<Day>,
    side: &Side,
) -> Result<(), OutOfMemory>
    ensures { OnOk result (lines.new.items ≡ lines.old.items ++ standing columns.now today side.now) }
{
    push_cell(lines, columns.state, side.state().name().as_bytes())?;
    push_due(lines, side)?;
    push_name_cells(lines, columns, today, side)
}

/// Appends the columns of the name of `side`, with its actions on the day `today` if the list has them.
#[tactic(auto, unfolding(crate::specs::List::name_cells))]
pub(crate) fn push_name_cells(
    lines: &mut Vec<u8>,
    columns: &Columns,
    today: Option<Day>,
    side: &Side,
) -> Result<(), OutOfMemory>
    ensures { OnOk result (lines.new.items ≡ lines.old.items ++ name_cells columns.now today side.now) }
{
    let alloc = *lines.allocator();
    push_cell(lines, columns.group, &column(alloc, side.txn().group())?)?;
    push_cell(
        lines,
        columns.transaction,
        &column(alloc, side.txn().transaction())?,
    )?;
    push_actions(lines, columns, today, side)
}

/// Appends the column of the due date of `side`, with a dash if there is none.
pub(crate) fn push_due(lines: &mut Vec<u8>, side: &Side) -> Result<(), OutOfMemory>
    ensures { OnOk result (lines.new.items ≡ lines.old.items ++ due_cell side.now) }
{
    match side.due() {
        None => push_cell(lines, DUE, b"-"),
        Some(day) => push_cell(lines, DUE, &day.digits()),
    }
}

/// Appends the column of the actions that the side may do on the day `today`, if the list has this column.
fn push_actions(
    lines: &mut Vec<u8>,
    columns: &Columns,
    today: Option<Day>,
    side: &Side,
) -> Result<(), OutOfMemory>
    ensures { OnOk result (lines.new.items ≡ lines.old.items ++ actions_cell columns.now today side.now) }
{
    if !columns.has_actions {
        return Ok(());
    }
    let verbs = verbs_text(*lines.allocator(), today, side)?;
    push_cell(lines, columns.actions, verbs.as_bytes())
}

/// Returns the actions that the side may do on the day `today`, or on some day if it is `None`. A comma stands
/// between two.
fn verbs_text(alloc: Global, today: Option<Day>, side: &Side) -> Result<String, OutOfMemory>
    ensures { IfOk result (λ text. string_bytes text ≡ verbs_text today side.now) }
{
    let verbs = possible_on(alloc, today, side)?;
    Ok(names(alloc, &verbs)?.join(alloc, ",")?)
}
