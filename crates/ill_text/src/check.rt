//! The command `check`.

ghost use Rattle.ill_text.specs.Check.{SkipsApdu, Counts, Checks, WritesCount};

use crate::fault::ToolFault;
use crate::input::{Counted, handle_input};
use crate::lines::push_count;
use crate::output::write_whole;
use ill_der::{ApduView, Handler};
use std::alloc::Global;
use std::io::{Read, Write};

/// Checks the whole input, then writes the number of its APDUs, and returns that number.
///
/// If an APDU is faulty or one too many, or the reader fails, nothing is written. Nothing is written either if memory
/// runs out, which only the line needs. If the writer fails, a prefix of the line is written.
pub fn run_check<R: Read, W: Write>(
    alloc: Global,
    reader: &mut R,
    writer: &mut W,
) -> Result<u32, ToolFault>
    ensures { Checks (R.remaining reader.old) (R.remaining reader.new)
        (W.contents writer.old) (W.contents writer.new) result }
{
    match count_apdus(alloc, reader) {
        Ok(count) => write_count(alloc, writer, count),
        Err(fault) => Err(fault),
    }
}

/// Writes the line of `count` APDUs, and returns `count`.
fn write_count<W: Write>(alloc: Global, writer: &mut W, count: u32) -> Result<u32, ToolFault>
    ensures { WritesCount (W.contents writer.old) (W.contents writer.new) count result }
{
    let mut line = Vec::new(alloc);
    push_count(&mut line, count)?;
    write_whole(writer, &line)?;
    Ok(count)
}

/// Returns the number of APDUs of the input, read up to its end, and keeps none of them. Fails at the first bad APDU,
/// at one too many, or if the reader fails.
fn count_apdus<R: Read>(alloc: Global, reader: &mut R) -> Result<u32, ToolFault>
    ensures { Counts (R.remaining reader.old) (R.remaining reader.new) result }
{
    handle_input(alloc, reader, &mut (), &mut Counted::new(Passing))
}

/// Does nothing with an APDU.
#[derive(Drop)]
struct Passing;

/// Skips each APDU. The states before and after it do not matter.
impl Handler<()> for Passing {
    type Fault = ToolFault;

    ghost handles = { λ _ apdu result _. SkipsApdu tt apdu result tt };

    fn handle(
        &mut self,
        _alloc: Global,
        _context: &mut (),
        _apdu: &ApduView<'_>,
    ) -> Result<(), ToolFault> {
        Ok(())
    }
}
