//! Writing of one APDU to a stream.

ghost use Rattle.std.specs.Prelude.{◌≡◌, ◌+◌, ◌≤◌, length, IfErr};
ghost use Rattle.ill_der.specs.declared.fault.WriteFault.TheVariants as faults;
ghost use Rattle.ill_der.specs.ShortForm.{encoding};
ghost use Rattle.ill_der.specs.Stream.{Writes};

use crate::counted::CountedWrite;
use crate::encoding::encode;
use crate::fault::WriteFault;
use crate::steps::Steps;
use ill_values::Apdu;
use std::alloc::Global;
use std::io::Write;
use std::marker::Brand;
use std::sync::ledger::{Blank, Ledger};

/// Writes one APDU. If the writer fails, a prefix of the encoding may have been written. If memory
/// runs out, nothing was written.
///
/// It makes at most 359 writes. A write that takes no byte counts as a failure.
pub fn write_apdu<W: Write>(alloc: Global, writer: &mut W, apdu: &Apdu) -> Result<(), WriteFault>
    ensures { Writes (W.contents writer.old) (W.contents writer.new) (encoding apdu.now) result }
{
    write_uncounted::<Brand, W>(alloc, writer, apdu, Blank::new(1))
}

/// Writes one APDU as `write_apdu` does. `blank` gives the ledger for the count of writes.
fn write_uncounted<L: Ledger, W: Write>(
    alloc: Global,
    writer: &mut W,
    apdu: &Apdu,
    blank: Blank,
) -> Result<(), WriteFault>
    requires name { blank.name ≡ L.name }
    requires parts { blank.parts ≡ L.parts }
    requires one { blank.parts ≡ 1 }
    ensures { Writes (W.contents writer.old) (W.contents writer.new) (encoding apdu.now) result }
{
    write_apdu_counted(alloc, writer, apdu, &mut Steps::<L>::new(blank))
}

/// Writes one APDU as `write_apdu` does, and counts the writes: at most 359.
pub fn write_apdu_counted<W: Write, L: Ledger>(
    alloc: Global,
    writer: &mut W,
    apdu: &Apdu,
    steps: &mut Steps<L>,
) -> Result<(), WriteFault>
    ensures written { Writes (W.contents writer.old) (W.contents writer.new)
        (encoding apdu.now) result }
    ensures writes { steps.new ≤ steps.old + 359 }
{
    let bytes = encode(alloc, apdu)?;
    write_bytes_counted(writer, &bytes, steps)
}

/// Writes all of `bytes`, in at most as many writes as there are bytes. If the writer fails, a prefix
/// of `bytes` may have been written.
pub fn write_bytes<W: Write>(writer: &mut W, bytes: &[u8]) -> Result<(), WriteFault>
    ensures written { Writes (W.contents writer.old) (W.contents writer.new) bytes.now result }
    ensures fault { IfErr result (λ fault. fault ≡ faults.Write) }
{
    write_bytes_uncounted::<Brand, W>(writer, bytes, Blank::new(1))
}

/// Writes all of `bytes` as `write_bytes` does. `blank` gives the ledger for the count of writes.
fn write_bytes_uncounted<L: Ledger, W: Write>(
    writer: &mut W,
    bytes: &[u8],
    blank: Blank,
) -> Result<(), WriteFault>
    requires name { blank.name ≡ L.name }
    requires parts { blank.parts ≡ L.parts }
    requires one { blank.parts ≡ 1 }
    ensures written { Writes (W.contents writer.old) (W.contents writer.new) bytes.now result }
    ensures fault { IfErr result (λ fault. fault ≡ faults.Write) }
{
    write_bytes_counted(writer, bytes, &mut Steps::<L>::new(blank))
}

/// Writes all of `bytes` to a writer whose writes are all counted. Makes at most one write for each byte.
fn write_bytes_counted<W: CountedWrite, L: Ledger>(
    writer: &mut W,
    bytes: &[u8],
    steps: &mut Steps<L>,
) -> Result<(), WriteFault>
    ensures written { Writes (W.contents writer.old) (W.contents writer.new) bytes.now result }
    ensures fault { IfErr result (λ fault. fault ≡ faults.Write) }
    ensures writes { steps.new ≤ steps.old + length bytes.now }
{
    let mut written = 0;
    for _ in 0..bytes.len() {
        if written == bytes.len() {
            return Ok(());
        }
        match writer.write_once(&bytes[written..], steps) {
            Ok(count) if count > 0 => written += count,
            _ => return Err(WriteFault::Write),
        }
    }
    Ok(())
}
