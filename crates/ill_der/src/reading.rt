//! Reading of one APDU from a stream.

ghost use Rattle.std.specs.Prelude.{◌≡◌, ◌+◌, ◌≤◌};
ghost use Rattle.ill_der.specs.Stream.{AreUnfinished, IsJudged, ReadsApdu, missing_of};

use crate::counted::CountedRead;
use crate::decoding::decode;
use crate::fault::{DerFault, ReadFault};
use crate::header::{APDU_LIMIT, header_at};
use crate::steps::Steps;
use ill_values::Apdu;
use std::alloc::Global;
use std::io::Read;
use std::marker::Brand;
use std::sync::ledger::{Blank, Ledger};

/// The maximum number of reads for an APDU: one for each byte, and one that finds the end of the input.
const READS: usize = APDU_LIMIT + 1;

/// Reads one APDU, or returns `None` at the end of the input.
///
/// It takes no byte after the APDU. If the bytes are no APDU, it takes the shortest prefix that shows
/// the fault. A later call begins a new APDU.
///
/// It calls `read_apdu_counted`, and so makes at most 360 reads. Its own contract does not count reads,
/// since a read that gives no byte leaves no trace in the reader.
pub fn read_apdu<R: Read>(alloc: Global, reader: &mut R) -> Result<Option<Apdu>, ReadFault>
    ensures { ReadsApdu (R.remaining reader.old) (R.remaining reader.new) result }
{
    read_uncounted::<Brand, R>(alloc, reader, Blank::new(1))
}

/// Reads one APDU as `read_apdu` does. `blank` gives the ledger for the count of reads.
fn read_uncounted<L: Ledger, R: Read>(
    alloc: Global,
    reader: &mut R,
    blank: Blank,
) -> Result<Option<Apdu>, ReadFault>
    requires name { blank.name ≡ L.name }
    requires parts { blank.parts ≡ L.parts }
    requires one { blank.parts ≡ 1 }
    ensures { ReadsApdu (R.remaining reader.old) (R.remaining reader.new) result }
{
    read_apdu_counted(alloc, reader, &mut Steps::<L>::new(blank))
}

/// Reads one APDU as `read_apdu` does, and counts the reads: at most 360.
pub fn read_apdu_counted<R: Read, L: Ledger>(
    alloc: Global,
    reader: &mut R,
    steps: &mut Steps<L>,
) -> Result<Option<Apdu>, ReadFault>
    ensures read { ReadsApdu (R.remaining reader.old) (R.remaining reader.new) result }
    ensures reads { steps.new ≤ steps.old + 360 }
{
    read_counted(alloc, reader, steps)
}

/// Reads one APDU from a reader whose reads are all counted: at most 360. Each read but the last gives at least one
/// byte, and 359 bytes never lack one. So the loop always returns.
fn read_counted<R: CountedRead, L: Ledger>(
    alloc: Global,
    reader: &mut R,
    steps: &mut Steps<L>,
) -> Result<Option<Apdu>, ReadFault>
    ensures read { ReadsApdu (R.remaining reader.old) (R.remaining reader.new) result }
    ensures reads { steps.new ≤ steps.old + 360 }
{
    let mut bytes = [0; APDU_LIMIT];
    let mut size = 0;
    for _ in 0..READS {
        let missing = missing(&bytes[..size]);
        if missing == 0 {
            return judge(alloc, &bytes[..size]);
        }
        match reader.read_once(&mut bytes[size..size + missing], steps) {
            Ok(0) if size == 0 => return Ok(None),
            Ok(0) => return Err(ReadFault::Bytes(DerFault::Short(size as u16))),
            Ok(count) => size += count,
            Err(_) => return Err(ReadFault::Read),
        }
    }
    unreachable!()
}

/// Returns the least number of bytes that `bytes` lacks to be an APDU. It is 0 if the APDU has its whole size, or if
/// its header is invalid.
#[tactic(auto, unfolding(crate::specs::Stream::missing_of))]
fn missing(bytes: &[u8]) -> usize
    ensures { result ≡ missing_of bytes.now }
{
    match header_at(bytes) {
        Ok(header) => (header.size as usize).saturating_sub(bytes.len()),
        Err(DerFault::Short(_)) => 1,
        Err(_) => 0,
    }
}

/// Returns the APDU of `bytes`, or their fault, and never `None`. `bytes` must lack no byte, and its proper prefixes
/// must be unfinished.
fn judge(alloc: Global, bytes: &[u8]) -> Result<Option<Apdu>, ReadFault>
    requires unfinished { AreUnfinished bytes.now }
    requires enough { missing_of bytes.now ≡ 0 }
    ensures { IsJudged bytes.now result }
{
    ill_values::laws::date_texts();
    ill_values::laws::text_sizes();
    let (apdu, _) = decode(alloc, bytes)?;
    Ok(Some(apdu))
}
