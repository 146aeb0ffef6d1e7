//! The stamp of a loan. It shows if the loan is still as a page has shown it.

ghost use Rattle.std.specs.Prelude.{◌≡◌, option_map, string_bytes, IfOk};
ghost use Rattle.ill_post.specs.Stamp.{stamp_of, side_stamp};

use ill_saved::{Side, encode_record};
use ill_values::OutOfMemory;
use sha2::{Digest, Sha256};
use std::alloc::Global;

/// Returns the stamp of the loan of `side`: the digest of its record, and the number of its messages. A loan that a
/// desk does not hold has the stamp `new`.
pub fn stamp_of(alloc: Global, side: Option<&Side>) -> Result<String, OutOfMemory>
    ensures { IfOk result (λ stamp. string_bytes stamp ≡ stamp_of (option_map (λ side. side.now) side.entry)) }
{
    match side {
        Some(side) => side_stamp(alloc, side),
        None => String::from_str(alloc, "new"),
    }
}

/// Returns the stamp of the loan of `side`.
#[tactic(auto, unfolding(crate::specs::Stamp::side_stamp))]
fn side_stamp(alloc: Global, side: &Side) -> Result<String, OutOfMemory>
    ensures { IfOk result (λ stamp. string_bytes stamp ≡ side_stamp side.now) }
{
    let record = encode_record(alloc, side)?;
    let mut stamp = hex::encode(alloc, Sha256::digest(&record))?;
    let count = format!(in alloc; "-{}", side.issued_count())?;
    stamp.push_str(count.as_str())?;
    Ok(stamp)
}
