//! The line of the item of a loan, below the line of an outcome.

ghost use Rattle.std.specs.Prelude.{◌≡◌, ◌++◌, option_copied, OnOk};
ghost use Rattle.ill_text.specs.Output.{WritesText};
ghost use Rattle.ill_show.specs.ItemLine.{item_line};
ghost use Rattle.ill_show.specs.ItemLine.{item_of};
ghost use Rattle.ill_words.specs.Possible.{item_asked, request_of};

use ill_saved::Side;
use ill_text::fault::ToolFault;
use ill_text::lines::push_item;
use ill_text::output::write_whole;
use ill_values::OutOfMemory;
use ill_words::possible::item_asked;
use std::alloc::Global;
use std::io::Write;

/// Writes the line of the item of the loan of `side`. Without a loan or an item it writes nothing.
pub fn write_item<W: Write>(
    alloc: Global,
    side: Option<&Side>,
    writer: &mut W,
) -> Result<(), ToolFault>
    ensures { WritesText (W.contents writer.old) (W.contents writer.new) (item_line (item_of (option_copied side.entry))) result }
{
    let mut text = Vec::new(alloc);
    push_item_of(&mut text, side)?;
    write_whole(writer, &text)
}

/// Appends the line of the item of the loan of `side`, if there is one.
fn push_item_of(text: &mut Vec<u8>, side: Option<&Side>) -> Result<(), OutOfMemory>
    ensures { OnOk result (text.new.items ≡ text.old.items ++ item_line (item_of (option_copied side.entry))) }
{
    match side {
        Some(side) => push_item_line(text, side),
        None => Ok(()),
    }
}

/// Appends the line of the item of the loan of `side`, if it has one.
fn push_item_line(text: &mut Vec<u8>, side: &Side) -> Result<(), OutOfMemory>
    ensures { OnOk result (text.new.items ≡ text.old.items ++ item_line (item_asked (request_of side.now))) }
{
    match item_asked(side) {
        Some(item) => {
            text.extend_from_slice(b"  ")?;
            push_item(text, item.text())
        }
        None => Ok(()),
    }
}
