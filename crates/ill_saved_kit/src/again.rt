//! Proves that a side is read back from the bytes of its record. The contracts here hold for all sides, not only for
//! the cases.

ghost use Rattle.std.specs.Prelude.{◌≡◌, MatchResult};
ghost use Rattle.ill_record.specs.declared.fault.RecordFault.TheVariants.{OutOfMemory};

use ill_saved::{
    RecordFault, Side, Sides, decode_record, decode_record2, encode_record, encode_record2,
};
use std::alloc::Global;

/// Writes the record of `side`, and reads it. The result equals `side`; the call fails only if memory runs out.
pub fn written_and_read(alloc: Global, side: &Side) -> Result<Side, RecordFault>
    ensures { MatchResult result (λ again. again ≡ side.now) (λ fault. fault ≡ OutOfMemory) }
{
    ill_saved::laws::read_again();
    let bytes = encode_record(alloc, side)?;
    decode_record(alloc, &bytes)
}

/// Writes the record of `sides`, and reads it. The result has equal sides in equal order; the call fails only if memory
/// runs out.
pub fn all_written_and_read(alloc: Global, sides: &Sides) -> Result<Sides, RecordFault>
    ensures { MatchResult result (λ again. again ≡ sides.now) (λ fault. fault ≡ OutOfMemory) }
{
    ill_saved::laws::sides_read_again();
    let bytes = encode_record2(alloc, sides)?;
    decode_record2(alloc, &bytes)
}
