//! The heading of a message in `take --long`, and the lines of its fields.

ghost use Rattle.std.specs.Prelude.{◌≡◌, ◌++◌, OnOk};
ghost use Rattle.ill_text.specs.LongLines.{heading, indent, indented, said, word};

use crate::lines::push_shown_fields;
use ill_der::ApduView;
use ill_values::OutOfMemory;
use itoa::Buffer;

/// Appends `GROUP TRANSACTION TYPE NUMBER` of `apdu`, with a space after each.
pub fn push_heading(lines: &mut Vec<u8>, apdu: &ApduView<'_>) -> Result<(), OutOfMemory>
    ensures { OnOk result (lines.new.items ≡ lines.old.items ++ heading apdu.now) }
{
    push_word(lines, apdu.group())?;
    push_word(lines, apdu.transaction())?;
    push_word(lines, apdu.body().type_name().as_bytes())?;
    push_word(lines, Buffer::new().format(apdu.number().get()).as_bytes())
}

/// Appends the word `text`, and a space.
pub fn push_word(lines: &mut Vec<u8>, text: &[u8]) -> Result<(), OutOfMemory>
    ensures { OnOk result (lines.new.items ≡ lines.old.items ++ word text.now) }
{
    lines.extend_from_slice(text)?;
    lines.push(b' ')?;
    Ok(())
}

/// Appends the lines of the fields that only APDUs of this type have, with two spaces before each. No terminal acts on
/// a byte of them.
pub fn push_said(lines: &mut Vec<u8>, apdu: &ApduView<'_>) -> Result<(), OutOfMemory>
    ensures { OnOk result (lines.new.items ≡ lines.old.items ++ said apdu.now) }
{
    let alloc = *lines.allocator();
    let mut shown = Vec::new(alloc);
    push_shown_fields(&mut shown, apdu.body())?;
    push_indented(lines, &shown)
}

/// Appends `text` with two spaces before each line.
fn push_indented(lines: &mut Vec<u8>, text: &[u8]) -> Result<(), OutOfMemory>
    ensures { OnOk result (lines.new.items ≡ lines.old.items ++ indented text.now) }
{
    let mut begins = true;
    for &byte in text {
        lines.extend_from_slice(indent(begins))?;
        lines.push(byte)?;
        begins = byte == b'\n';
    }
    Ok(())
}

/// Returns two spaces if the next byte begins a line, else nothing.
fn indent(begins: bool) -> &'static [u8]
    ensures { result.now ≡ indent begins }
{
    if begins { b"  " } else { b"" }
}
