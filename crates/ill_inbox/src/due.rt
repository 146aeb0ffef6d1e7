//! A deed that a day makes due.

use ill_core::Deed;
use ill_values::TxnId;

/// A deed that is due on a day, and the transaction of its loan.
#[derive(Drop)]
pub(crate) struct Due {
    pub txn: TxnId,
    pub deed: Deed,
}
