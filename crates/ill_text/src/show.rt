//! The command `show`.

ghost use Rattle.std.specs.Prelude.{◌≡◌, ◌++◌, OnOk};
ghost use Rattle.ill_text.specs.declared.form.Form.TheVariants.{Lines};
ghost use Rattle.ill_text.specs.ApduObject.{apdu_text};
ghost use Rattle.ill_text.specs.Show.{form_of, ShowsApdu, RunsShow};

use crate::apdu_object::push_apdu_object;
use crate::fault::ToolFault;
use crate::form::Form;
use crate::input::{Counted, handle_input};
use crate::lines::push_apdu;
use crate::output::write_whole;
use ill_der::{ApduView, Handler};
use ill_values::OutOfMemory;
use std::alloc::Global;
use std::io::{Read, Write};

/// Shows each APDU of the input, up to its end, and returns their number.
///
/// After a faulty APDU, one too many, or a failure of the reader, the lines of the APDUs before remain. If memory runs
/// out, the lines of some of the first APDUs are written. If the writer fails, a prefix of this text is written.
pub fn run_show<R: Read, W: Write>(
    alloc: Global,
    reader: &mut R,
    writer: &mut W,
) -> Result<u32, ToolFault>
    ensures { RunsShow Lines (R.remaining reader.old) (R.remaining reader.new)
        (W.contents writer.old) (W.contents writer.new) result }
{
    run_show_as(alloc, Form::Lines, reader, writer)
}

/// Shows each APDU of the input in the form `form`, as `run_show` does.
pub fn run_show_as<R: Read, W: Write>(
    alloc: Global,
    form: Form,
    reader: &mut R,
    writer: &mut W,
) -> Result<u32, ToolFault>
    ensures { RunsShow form (R.remaining reader.old) (R.remaining reader.new)
        (W.contents writer.old) (W.contents writer.new) result }
{
    match form {
        Form::Lines => show::<R, W, false>(alloc, reader, writer),
        Form::Json => show::<R, W, true>(alloc, reader, writer),
    }
}

/// Shows each APDU of the input, as `run_show` does: in objects if `JSON` is true, else in lines.
fn show<R: Read, W: Write, const JSON: bool>(
    alloc: Global,
    reader: &mut R,
    writer: &mut W,
) -> Result<u32, ToolFault>
    ensures { RunsShow (form_of JSON) (R.remaining reader.old) (R.remaining reader.new)
        (W.contents writer.old) (W.contents writer.new) result }
{
    let lines = Vec::new(alloc);
    let mut shown = Counted::new(Showing::<JSON> { lines });
    handle_input(alloc, reader, writer, &mut shown)
}

/// A handler that writes the text of each APDU, through a buffer.
#[derive(Drop)]
struct Showing<const JSON: bool> {
    /// The text of an APDU, before it is written.
    lines: Vec<u8>,
}

/// Writes the text of each APDU to the writer, which is the second part of each state.
impl<W: Write, const JSON: bool> Handler<W> for Showing<JSON> {
    type Fault = ToolFault;

    ghost handles = { λ old apdu result new. ShowsApdu (form_of JSON) (W.contents old.1) apdu result (W.contents new.1) };

    fn handle(
        &mut self,
        _alloc: Global,
        writer: &mut W,
        apdu: &ApduView<'_>,
    ) -> Result<(), ToolFault> {
        self.lines.clear();
        push_text::<JSON>(&mut self.lines, apdu)?;
        write_whole(writer, &self.lines)
    }
}

/// Appends the text of `apdu`: its object if `JSON` is true, else its lines.
fn push_text<const JSON: bool>(text: &mut Vec<u8>, apdu: &ApduView<'_>) -> Result<(), OutOfMemory>
    ensures { OnOk result (text.new.items ≡ text.old.items ++ apdu_text (form_of JSON) apdu.now) }
{
    if JSON {
        push_apdu_object(text, apdu)
    } else {
        push_apdu(text, apdu)
    }
}
