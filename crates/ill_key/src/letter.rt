//! Sealed letters on inputs and outputs. The text of a letter has messages, one after another.

ghost use Rattle.std.specs.Prelude.{◌≡◌, IfOk, IfErr};
ghost use Rattle.ill_key.specs.Letter.{OpensLetter, LeavesSealed};
ghost use Rattle.ill_seal.specs.Letter.{sealed};
ghost use Rattle.ill_text.specs.Output.{WritesText};

use ill_seal::laws::what_opens_was_sealed;
use ill_seal::{Key, Sender, seal, unseal};
use ill_text::fault::ToolFault;
use ill_text::input::read_whole;
use ill_text::output::write_whole;
use std::alloc::Global;
use std::io::{Read, Write};

/// The most bytes of a letter: 1,048,576 of messages, and 37 around them.
pub const LETTER_LIMIT: usize = 1_048_613;

/// Opens the letter on the input `reader`, and returns the bytes of its messages. All of the input must be one letter
/// that `sender` has sealed with `key` (else `NotSealed`).
pub fn open_letter<R: Read>(
    alloc: Global,
    key: &Key,
    sender: Sender,
    reader: &mut R,
) -> Result<Vec<u8>, ToolFault>
    ensures opens { IfOk result (λ text. OpensLetter key.now sender (R.remaining reader.old) (R.remaining reader.new) text.items) }
    ensures fault { IfErr result (LeavesSealed key.now sender (R.remaining reader.old) (R.remaining reader.new)) }
{
    what_opens_was_sealed();
    let letter = read_whole(alloc, reader, LETTER_LIMIT, ToolFault::NotSealed)?;
    match unseal(key, sender, &letter) {
        Ok(text) => Ok(Vec::from_slice(alloc, text)?),
        Err(_) => Err(ToolFault::NotSealed),
    }
}

/// Seals the messages `text` as a letter of `sender` with `key`, and writes it to `writer`.
pub fn write_letter<W: Write>(
    alloc: Global,
    key: &Key,
    sender: Sender,
    text: &[u8],
    writer: &mut W,
) -> Result<(), ToolFault>
    ensures { WritesText (W.contents writer.old) (W.contents writer.new) (sealed key.now sender text.now) result }
{
    let letter = seal(alloc, key, sender, text)?;
    write_whole(writer, &letter)
}
