//! Makes sides that have issued and taken no message.

ghost use Rattle.std.specs.Prelude.{◌≡◌, IfSome};
ghost use Rattle.ill_record.specs.Side.{idle_of};

use ill_desk_kit::idle_side;
use ill_saved::Side;
use ill_saved_kit::{role_of, split_txn};
use std::alloc::Global;

/// Returns the idle side that `ROLE GROUP TRANSACTION` names.
pub fn idle(alloc: Global, words: &str) -> Option<Side>
    ensures { IfSome result (λ side. side ≡ idle_of side) }
{
    let (role, names) = words.split_once(' ')?;
    let role = role_of(role)?;
    let (txn, _) = split_txn(alloc, names)?;
    Some(idle_side(alloc, role, txn))
}
