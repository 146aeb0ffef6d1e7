//! The parts of a side that a line of output shows.

ghost use Rattle.std.specs.Prelude.{◌≡◌};
ghost use Rattle.ill_values.specs.TxnId.{Qualifiers};
ghost use Rattle.ill_record.specs.declared.role.Role.{Role};
ghost use Rattle.ill_record.specs.Side.{idle_side};
ghost use Rattle.ill_saved.specs.Shown.{shown_of};

use ill_core::State;
use ill_record::Side;
use ill_values::Day;

/// The parts of a side that a line of output shows: its state, its due date, and how many messages are released and
/// issued.
#[derive(Clone, Copy)]
pub struct Shown {
    /// The state.
    pub state: State,
    /// The due date, if the record of the side has one.
    pub due: Option<Day>,
    /// The number of messages that may be sent.
    pub released: u8,
    /// The number of issued messages.
    pub issued: u8,
}

impl Shown {
    /// Returns the parts of `side`. `released` is the number of its released messages.
    pub fn of(side: &Side, released: u8) -> Shown
        ensures { result ≡ shown_of side.now released }
    {
        Shown {
            state: side.state(),
            due: side.due(),
            released,
            issued: side.issued_count(),
        }
    }

    /// Returns the parts of an idle side, of either role and in any transaction.
    pub(crate) fn idle() -> Shown
        ensures { (role : Role) (txn : Qualifiers) → result ≡ shown_of (idle_side role txn) 0 }
    {
        Shown {
            state: State::Idle,
            due: None,
            released: 0,
            issued: 0,
        }
    }

    /// Returns these parts with all messages released.
    pub fn once_saved(self) -> Shown
        ensures { result ≡ record self { released = self.issued } }
    {
        Shown {
            released: self.issued,
            ..self
        }
    }
}
