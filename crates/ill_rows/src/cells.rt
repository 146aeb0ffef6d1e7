//! The cells of lines of loans: a qualifier, a text of a width, and the item of a loan.

ghost use Rattle.std.specs.Prelude.{◌≡◌, ◌++◌, ◌||◌, codes, IfOk, OnOk};
ghost use Rattle.ill_words.specs.Possible.{request_of, item_asked};
ghost use Rattle.ill_rows.specs.Cells.{title_text, padded, cell, column, column_byte, is_end};

use ill_saved::Side;
use ill_text::escape::push_escaped;
use ill_values::OutOfMemory;
use ill_words::possible::item_asked;
use std::alloc::Global;

/// Appends the item of the loan of `side`, or a dash if there is none.
pub fn push_title(lines: &mut Vec<u8>, side: &Side) -> Result<(), OutOfMemory>
    ensures { OnOk result (lines.new.items ≡ lines.old.items
        ++ title_text (item_asked (request_of side.now))) }
{
    match item_asked(side) {
        None => {
            lines.push(b'-')?;
            Ok(())
        }
        Some(item) => push_escaped(lines, item.text()),
    }
}

/// Returns the qualifier `text` for a column. No two spaces stand side by side in it, since two spaces end a column.
pub fn column(alloc: Global, text: &[u8]) -> Result<Vec<u8>, OutOfMemory>
    ensures { IfOk result (λ shown. shown.items ≡ column text.now) }
{
    let mut shown = Vec::new(alloc);
    let mut is_edge = true;
    let mut rest = text;
    while let Some((byte, after)) = rest.split_first() {
        push_column_byte(&mut shown, is_at_edge(is_edge, after), *byte)?;
        is_edge = *byte == b' ';
        rest = after;
    }
    Ok(shown)
}

/// Returns true if nothing or a space is before a byte, as `is_edge` says, or if no byte is after it.
fn is_at_edge(is_edge: bool, after: &[u8]) -> bool
    ensures { result ≡ (is_edge || is_end after.now) }
{
    is_edge || after.is_empty()
}

/// Appends a byte of a column. A space is an escape if it is at an edge of the text or after another one.
fn push_column_byte(shown: &mut Vec<u8>, is_edge: bool, byte: u8) -> Result<(), OutOfMemory>
    ensures { OnOk result (shown.new.items ≡ shown.old.items ++ column_byte is_edge byte) }
{
    if is_edge && byte == b' ' {
        return shown.extend_from_slice(b"\\u{20}");
    }
    shown.push(byte)?;
    Ok(())
}

/// Appends `text`, spaces up to `width`, and two further spaces.
pub fn push_cell(lines: &mut Vec<u8>, width: usize, text: &[u8]) -> Result<(), OutOfMemory>
    ensures { OnOk result (lines.new.items ≡ lines.old.items ++ cell width text.now) }
{
    push_padded(lines, width, text)?;
    lines.extend_from_slice(b"  ")?;
    Ok(())
}

/// Appends `text`, and spaces up to `width`.
fn push_padded(lines: &mut Vec<u8>, width: usize, text: &[u8]) -> Result<(), OutOfMemory>
    ensures { OnOk result (lines.new.items ≡ lines.old.items ++ padded width text.now) }
{
    lines.extend_from_slice(text)?;
    for _ in text.len()..width {
        lines.push(b' ')?;
    }
    Ok(())
}
