//! Performs the lines of the input, one after another.

use crate::events::Event;
use crate::record::Record;
use crate::side::{NO_MEMORY, Side};
use crate::states::{Role, letters_of, role_of, state_of};
use ill_core::State;
use ill_test_kit::marks::TRIES;
use ill_test_kit::{Lines, Page};
use std::alloc::Global;
use std::mem;

/// The bench: the ruler and the side that the lines so far have set up.
pub struct Bench {
    /// The allocator of all values.
    alloc: Global,
    /// The role that the last ruler names.
    role: Role,
    /// The states that the last ruler names.
    columns: Vec<State>,
    /// The side to which events happen. It is absent if `record` is no record of its role.
    side: Option<Side>,
    /// The record that the side must have.
    record: Record,
}

/// The outcome of a row in one state. The first text is the new state if the event was performed or taken, and else the
/// letter of the answer. The second text is the letter of the answer to a second copy of a taken message. It is `!` if
/// the side differs from its record.
type Cell = (&'static str, &'static str);

/// The fields of a row.
#[derive(Clone, Copy)]
struct Row<'a> {
    /// The words of the parts of the side. Three dots stand for the side of the row before.
    past: &'a str,
    /// The event that happens to the side.
    event: &'a Event,
    /// The words of the parts that the event changes.
    effect: &'a str,
}

impl Row<'_> {
    /// Returns true if the event happens to a new side.
    fn is_new(&self) -> bool {
        self.past != "..."
    }
}

/// The body is written out instead of derived, so that each owner of a bench calls it.
impl Drop for Bench {
    fn drop(self) {
        let Bench {
            alloc: _,
            role: _,
            columns: _columns,
            side: _side,
            record: _record,
        } = self;
    }
}

impl Bench {
    /// Returns a bench before the first line.
    pub fn new(alloc: Global) -> Bench {
        Bench {
            alloc,
            role: Role::Requester,
            columns: Vec::new(alloc),
            side: None,
            record: Record::empty(alloc, State::Idle),
        }
    }

    /// Adds the answer to a line: the name of a state, or the cells of a row. Other lines have none.
    fn push_answer(&mut self, page: &mut Page, line: &str) {
        let Some((name, rest)) = line.split_once('|') else {
            return;
        };
        match rest.split_once('|') {
            Some((past, rest)) => self.push_fields(page, name, past.trim(), rest),
            None => {
                page.text(" ");
                page.show(&state_of(name.trim()));
            }
        }
    }

    /// Sets up the ruler, or adds the cells of the row, whose fields after `past` are `rest`. A ruler has one field
    /// more than a row. `name` is its role.
    fn push_fields(&mut self, page: &mut Page, name: &str, past: &str, rest: &str) {
        let (event, rest) = rest.split_once('|').unwrap_or((rest, ""));
        let (effect, columns) = rest.split_once('|').unwrap_or((rest, ""));
        if !columns.is_empty() {
            if self.rule(name, columns).is_none() {
                page.lose();
            }
            return;
        }
        let event = Event::read(self.alloc, event.trim());
        let row = Row {
            past,
            event: &event,
            effect,
        };
        let columns = mem::replace(&mut self.columns, Vec::new(self.alloc));
        self.push_cells(page, &columns, &row);
        self.columns = columns;
    }

    /// Sets the role and the columns of the rows that follow. Returns None if memory runs out.
    fn rule(&mut self, role: &str, columns: &str) -> Option<()> {
        self.role = role_of(role.trim());
        self.columns.clear();
        for letters in columns.split_whitespace() {
            self.columns.push(state_of(letters)).ok()?;
        }
        Some(())
    }

    /// Adds the cell of each column, and the bar that ends the answer.
    fn push_cells(&mut self, page: &mut Page, columns: &[State], row: &Row<'_>) {
        for state in columns {
            let (letters, second) = self.cell(*state, row);
            page.text(" ");
            page.text_to(2, letters);
            page.text_to(1, second);
        }
        page.text("|");
    }

    /// Returns the outcome of a row in `state`.
    fn cell(&mut self, state: State, row: &Row<'_>) -> Cell {
        if row.is_new() {
            self.record = Record::of(self.alloc, self.role, state, row.past);
            self.side = Side::of(self.alloc, self.role, state, row.past);
        }
        match &mut self.side {
            Some(side) => happen(self.alloc, side, &mut self.record, row),
            None if self.record.is_readable => (row.event.absent(), ""),
            None => (row.event.absent(), "!"),
        }
    }
}

impl Lines for Bench {
    /// Adds a line with its answer. An answer that the line already has is dropped.
    fn perform(&mut self, page: &mut Page, line: &str) {
        if line.starts_with('#') {
            return page.line(line);
        }
        let case = without_answer(line);
        page.text(case);
        self.push_answer(page, case);
        page.text("\n");
    }

    /// Adds nothing after the last line.
    fn end(&mut self, _page: &mut Page) -> Option<()> {
        Some(())
    }
}

/// Returns a line without its answer. The answer follows the bar of a name, or the fourth bar of a row. A ruler has
/// only four bars, and no answer.
fn without_answer(line: &str) -> &str {
    let bars = line.matches('|').count();
    let fields = match bars {
        1 => 1,
        5 => 4,
        _ => return line,
    };
    match line.match_indices('|').nth(fields - 1) {
        Some((at, _)) => line.get(..=at).unwrap_or(line),
        None => line,
    }
}

/// Performs the event of a row on `side`, and brings `record` up to date. A new side gets a taken message a second
/// time.
fn happen(alloc: Global, side: &mut Side, record: &mut Record, row: &Row<'_>) -> Cell {
    let (mut letters, mut second) = (answer(alloc, side, record, row.event), "");
    if letters == "T" {
        record.add(alloc, row.effect);
        record.readings.state = side.state();
        letters = letters_of(side.state());
        if row.is_new() && matches!(row.event, Event::Delivery(_)) {
            second = answer(alloc, side, record, row.event);
        }
    }
    if !side.shows(alloc, record) {
        second = "!";
    }
    (letters, second)
}

/// Performs the event on `side`, and repeats it while an allocation is refused. Returns the letter of the answer. A
/// refused event must leave the side with `record`, or else the letter is `!`.
fn answer(alloc: Global, side: &mut Side, record: &Record, event: &Event) -> &'static str {
    for _ in 0..TRIES {
        let letter = side.answer(alloc, event);
        if letter != NO_MEMORY {
            return letter;
        }
        if !side.shows(alloc, record) {
            return "!";
        }
    }
    NO_MEMORY
}
