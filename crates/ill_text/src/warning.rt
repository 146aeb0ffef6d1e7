//! Lines to a person, on standard error: each has a path, a message file or a desk, and its fault.

use crate::escape::push_escaped;
use crate::fault::ToolFault;
use crate::long_lines::push_heading;
use ill_der::ApduView;
use ill_values::OutOfMemory;
use std::alloc::Global;
use std::io::Write;

/// Writes a line to `errors`: the name of the program, `name`, and `text` right after it. If memory runs out, no line
/// is written.
pub fn warn<E: Write>(alloc: Global, name: &[u8], text: &str, errors: &mut E) {
    let mut line = Vec::new(alloc);
    if push_warning(&mut line, name, text).is_ok() {
        let _ = errors.write_all(&line);
    }
}

/// Writes a line to `errors`, of the desk at `path` and of its fault. If memory runs out, no line is written.
pub fn warn_of_fault<E: Write>(alloc: Global, path: &str, fault: ToolFault, errors: &mut E) {
    if let Ok(text) = format!(in alloc; ": {fault}") {
        warn(alloc, path.as_bytes(), text.as_str(), errors);
    }
}

/// Appends the line that `warn` writes.
fn push_warning(line: &mut Vec<u8>, name: &[u8], text: &str) -> Result<(), OutOfMemory> {
    push_name(line, name)?;
    line.extend_from_slice(text.as_bytes())?;
    line.push(b'\n')?;
    Ok(())
}

/// Writes a line to `errors`, of the message file `name`, of the heading of its `message`, and of `text`. If memory
/// runs out, no line is written.
pub fn warn_of_message<E: Write>(
    alloc: Global,
    name: &[u8],
    message: &ApduView<'_>,
    text: &str,
    errors: &mut E,
) {
    let mut line = Vec::new(alloc);
    if push_printed_message(&mut line, name, message, text).is_ok() {
        let _ = errors.write_all(&line);
    }
}

/// Appends the line that `warn_of_message` writes.
fn push_printed_message(
    line: &mut Vec<u8>,
    name: &[u8],
    message: &ApduView<'_>,
    text: &str,
) -> Result<(), OutOfMemory> {
    push_name(line, name)?;
    line.extend_from_slice(b": ")?;
    push_heading(line, message)?;
    line.extend_from_slice(text.as_bytes())?;
    line.push(b'\n')?;
    Ok(())
}

/// Appends the beginning of each line to a person: the name of the program, and `name`, escaped for a screen.
pub fn push_name(line: &mut Vec<u8>, name: &[u8]) -> Result<(), OutOfMemory> {
    line.extend_from_slice(b"ill: ")?;
    push_escaped(line, name)?;
    Ok(())
}
