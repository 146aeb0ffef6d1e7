//! The key of a loan: the text with which lines name it in the files beside a desk.

ghost use Rattle.std.specs.Prelude.{◌≡◌, ◌++◌, IfOk, OnOk};
ghost use Rattle.ill_text.specs.Keys.{key, key_byte, loan_key};

use ill_values::{OutOfMemory, TxnId};
use std::alloc::Global;

/// Returns the key of the loan `txn`: both qualifiers, with a space after each.
pub fn loan_key(alloc: Global, txn: &TxnId) -> Result<Vec<u8>, OutOfMemory>
    ensures { IfOk result (λ begin. begin.items ≡ loan_key txn.now) }
{
    let mut begin = Vec::new(alloc);
    push_key(&mut begin, txn.group())?;
    begin.push(b' ')?;
    push_key(&mut begin, txn.transaction())?;
    begin.push(b' ')?;
    Ok(begin)
}

/// Appends the qualifier `text`, with an escape for each space and each backslash.
fn push_key(line: &mut Vec<u8>, text: &[u8]) -> Result<(), OutOfMemory>
    ensures { OnOk result (line.new.items ≡ line.old.items ++ key text.now) }
{
    for byte in text {
        push_key_byte(line, *byte)?;
    }
    Ok(())
}

/// Appends a byte of a qualifier. A space and a backslash are escapes.
fn push_key_byte(line: &mut Vec<u8>, byte: u8) -> Result<(), OutOfMemory>
    ensures { OnOk result (line.new.items ≡ line.old.items ++ key_byte byte) }
{
    match byte {
        b' ' => line.extend_from_slice(b"\\u{20}"),
        b'\\' => line.extend_from_slice(b"\\u{5c}"),
        _ => {
            line.push(byte)?;
            Ok(())
        }
    }
}
