//! The sides that a desk holds: one side, or the sides of many transactions.

ghost use Rattle.std.specs.Prelude.{◌≡◌, option_copied};
ghost use Rattle.ill_saved.specs.Shown.{shown_of};

use crate::held::Held;
use crate::shown::Shown;
use ill_record::Role;
use ill_values::Apdu;

/// The sides that a desk holds in memory: one side, or the sides of many transactions, with their released messages.
/// Only a desk changes them.
pub trait Holdings: Held {
    /// Returns the role of all sides.
    fn role(&self) -> Role
        ensures { result ≡ Self.effects.role self.now };

    /// Returns the name of the side that `apdu` is for.
    fn key_of(apdu: &Apdu) -> &Self::Key
        ensures { result.now ≡ Self.effects.key_of apdu.now };

    /// Returns the name of the side that a new desk holds, if there is one.
    fn first_key(&self) -> Option<&Self::Key>
        ensures { option_copied result ≡ Self.effects.first_key };

    /// Returns the parts of the side `key` that a line of output shows. A side that is not held counts as idle.
    fn shown(&self, key: &Self::Key) -> Shown
        ensures { result ≡ shown_of (Self.effects.side_for key.now self.now).side
            (Self.effects.side_for key.now self.now).released };
}
