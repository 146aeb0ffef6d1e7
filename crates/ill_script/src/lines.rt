//! Reads a text line by line.

ghost use Rattle.std.specs.Prelude.{◌≡◌, ◌<◌, ◌≤◌, length, IfSome};
ghost use Rattle.std.specs.Io.KnownBytes.{prepend_known};
ghost use Rattle.ill_script.specs.Simulating.{IsUsedUp, lf_place, TakesPart, ReadsLine};

use crate::ahead::Ahead;
use crate::fault::SimFault;
use ill_values::OutOfMemory;
use std::io::Read;

/// A line has at most `MAX_LINE` bytes, without its LF.
const MAX_LINE: usize = 1024;

/// The byte that closes a line.
const LF: u8 = b'\n';

/// The kind of the bytes that were read for a line.
#[derive(Clone, Copy)]
pub enum Found {
    /// A line, and its LF.
    Line,
    /// The bytes after the last LF, of which there may be none: the text has ended.
    Rest,
    /// More bytes than a line may have.
    TooLong,
}

/// Reads one line into `line`, without its LF, and returns the kind of its bytes. It takes bytes from `ahead`, and asks
/// `reader` only if none are ahead. It takes at most one byte more than a line may have. Fails if the reader fails or
/// memory runs out.
pub fn next_line<R: Read>(
    reader: &mut R,
    ahead: &mut Ahead,
    line: &mut Vec<u8>,
) -> Result<Found, SimFault>
    ensures line { ReadsLine (prepend_known ahead.old (R.remaining reader.old))
        (prepend_known ahead.new (R.remaining reader.new)) line.new.items result }
    ensures used { IsUsedUp ahead.new result }
{
    line.clear();
    while ahead.fill(reader)? {
        if let Some(found) = take_part(ahead, line)? {
            return Ok(found);
        }
    }
    Ok(Found::Rest)
}

/// Appends the bytes of `ahead` to `line` up to an LF, which is dropped, or all of them. Returns `Line` at an LF,
/// `TooLong` if the line would pass its limit, and `None` if it may go on. If memory runs out, no byte is taken.
fn take_part(ahead: &mut Ahead, line: &mut Vec<u8>) -> Result<Option<Found>, OutOfMemory>
    requires { length line.old.items ≤ 1024 }
    ensures { TakesPart ahead.old ahead.new line.old.items line.new.items result }
{
    let room = MAX_LINE - line.len();
    let bytes = ahead.bytes();
    let most = bytes.len().min(room + 1);
    let prefix = &bytes[..most];
    match find_lf(prefix) {
        Some(at) => {
            line.extend_from_slice(&prefix[..at])?;
            ahead.skip(at + 1);
            Ok(Some(Found::Line))
        }
        None if most > room => {
            ahead.skip(most);
            Ok(Some(Found::TooLong))
        }
        None => {
            line.extend_from_slice(prefix)?;
            ahead.skip(most);
            Ok(None)
        }
    }
}

/// Returns the index of the first LF in `bytes`, or `None`.
fn find_lf(bytes: &[u8]) -> Option<usize>
    ensures place { result ≡ lf_place bytes.now }
    ensures within { IfSome result (λ at. at < length bytes.now) }
{
    bytes.iter().position(|byte| *byte == LF)
}
