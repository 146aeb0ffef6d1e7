//! Makes sides that have issued and taken no message.

ghost use Rattle.std.specs.Prelude.{◌≡◌};
ghost use Rattle.ill_record.specs.Side.{idle_of};

use ill_saved::{Role, Side};
use ill_values::TxnId;
use std::alloc::Global;

/// Returns a side of this role and transaction that has issued and taken no message.
pub fn idle_side(alloc: Global, role: Role, txn: TxnId) -> Side
    ensures { result ≡ idle_of result }
{
    Side::idle(alloc, role, txn)
}
