//! Defines the standing of a requester: the parts of its record that a row of its tables may change.

ghost use Rattle.std.specs.Prelude.{◌≡◌, ◌||◌};
ghost use Rattle.ill_core.specs.Tables.{has_common_bit, next_state};
ghost use Rattle.ill_core.specs.RequesterTables.{held_after, due_after};
ghost use Rattle.ill_core.specs.declared.requester.standing.TheConstants.{MARK};

use crate::state::State;
use crate::table::Row;
use ill_values::{Day, Number};

// The bits of the changes beside the state, when a row is followed for message k with date d.
pub const HOLDS: u16 = 1; // Conditions k become the held ones.

pub const FREES: u16 = 1 << 1; // No conditions are held any longer.

pub const DUE: u16 = 1 << 2; // The due date becomes d.

pub const MARK: u16 = 1 << 3; // The checked-in mark is set.

/// The record of a requester without the transaction and the list of messages.
#[derive(Clone, Copy, Debug)]
pub struct Standing {
    /// The present state.
    pub state: State,
    /// The number of the ILL-Answer whose conditions are held.
    pub held: Option<Number>,
    /// True if the responder has said that the item is back.
    pub checked_in: bool,
    /// The day on which the item is due.
    pub due: Option<Day>,
}

impl Standing {
    /// Returns the standing after `row` is followed for a message with `number` and `date`. `row.3` is the effect of
    /// the row, and `row.4` are its changes.
    pub fn after<K>(self, row: &Row<K>, number: Number, date: Option<Day>) -> Standing
        ensures state { result.state ≡ next_state row.now.3 self.state }
        ensures held { result.held ≡ held_after row.now.4 self.held number }
        ensures checked_in { result.checked_in ≡ (has_common_bit row.now.4 MARK || self.checked_in) }
        ensures due { result.due ≡ due_after row.now.4 self.due date }
    {
        let changes = row.4;
        Standing {
            state: row.3.next_state(self.state),
            held: held_after(changes, self.held, number),
            checked_in: changes & MARK != 0 || self.checked_in,
            due: if changes & DUE != 0 { date } else { self.due },
        }
    }
}

/// Returns the held conditions after a row with `changes` is followed for message `number`.
fn held_after(changes: u16, held: Option<Number>, number: Number) -> Option<Number>
    ensures { result ≡ held_after changes held number }
{
    if changes & HOLDS != 0 {
        return Some(number);
    }
    if changes & FREES != 0 { None } else { held }
}
