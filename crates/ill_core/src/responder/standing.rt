//! Defines the standing of a responder: the parts of its record that a row of either table may change.

ghost use Rattle.std.specs.Prelude.{◌≡◌, ◌||◌};
ghost use Rattle.ill_core.specs.Tables.{has_common_bit, next_state};
ghost use Rattle.ill_core.specs.ResponderTables.{number_after};
ghost use Rattle.ill_core.specs.declared.responder.standing.TheConstants.{ACCEPTS, CANCELS, RENEWS, RECEIVES};

use crate::state::State;
use crate::table::Row;
use ill_values::Number;

// The bits of the changes beside the state, when a row is followed for a message with number k.
pub const ACCEPTS: u16 = 1; // The accepted conditions become k.

pub const CANCELS: u16 = 1 << 1; // The last Cancel becomes k.

pub const RENEWS: u16 = 1 << 2; // The last Renew becomes k.

pub const RECEIVES: u16 = 1 << 3; // The received mark is set.

pub const KEEPS: u16 = 1 << 4; // The ILL-Request is kept.

pub const ENDS: u16 = 1 << 5; // An ILL-Answer unfilled is issued.

/// The record of a responder without the transaction, the request and the list of messages.
#[derive(Clone, Copy, Debug)]
pub struct Standing {
    /// The present state.
    pub state: State,
    /// The number of the conditions that were accepted last.
    pub accepted: Option<Number>,
    /// The number of the last Cancel that was taken.
    pub last_cancel: Option<Number>,
    /// The number of the last Renew that was taken.
    pub last_renew: Option<Number>,
    /// True if a Received was taken.
    pub received: bool,
}

impl Standing {
    /// Returns the standing after `row` is followed for a message with `number`. `row.3` is the effect of the row, and
    /// `row.4` are its changes.
    pub fn after<K>(self, row: &Row<K>, number: Number) -> Standing
        ensures state { result.state ≡ next_state row.now.3 self.state }
        ensures accepted { result.accepted ≡ number_after ACCEPTS row.now.4 self.accepted number }
        ensures cancel { result.last_cancel ≡
            number_after CANCELS row.now.4 self.last_cancel number }
        ensures renew { result.last_renew ≡ number_after RENEWS row.now.4 self.last_renew number }
        ensures received { result.received ≡ (has_common_bit row.now.4 RECEIVES || self.received) }
    {
        let changes = row.4;
        Standing {
            state: row.3.next_state(self.state),
            accepted: number_after(ACCEPTS, changes, self.accepted, number),
            last_cancel: number_after(CANCELS, changes, self.last_cancel, number),
            last_renew: number_after(RENEWS, changes, self.last_renew, number),
            received: changes & RECEIVES != 0 || self.received,
        }
    }
}

/// Returns `number` if `changes` has `bit`, and else `last`.
fn number_after(bit: u16, changes: u16, last: Option<Number>, number: Number) -> Option<Number>
    ensures { result ≡ number_after bit changes last number }
{
    if changes & bit != 0 {
        Some(number)
    } else {
        last
    }
}
