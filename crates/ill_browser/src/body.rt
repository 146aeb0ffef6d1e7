//! The body of a request: how many bytes it has, and these bytes.

ghost use Rattle.std.specs.Prelude.{◌≡◌, ◌≤◌, length, slice_index, EachIndex, MatchResult};
ghost use Rattle.std.specs.Bool.{OnTrue};
ghost use Rattle.std.specs.Char.{is_ascii_digit};
ghost use Rattle.std.specs.Int.{IsInRange};
ghost use Rattle.std.specs.Io.KnownBytes.{Consumes};
ghost use Rattle.std.specs.List.{list_all};
ghost use Rattle.ill_browser.specs.Visit.{decimal_value, is_numeral, size_said, size_within};
ghost use Rattle.ill_browser.specs.Wanted.{BreaksOff};

use crate::fault::VisitFault;
use std::alloc::Global;
use std::io::Read;

/// The most bytes in the body of a request.
pub const BODY_LIMIT: usize = 4096;

/// The most digits in the length of a body.
const LENGTH_DIGITS: usize = 4;

/// Returns the number of bytes that `text` says. Refuses a text that is no numeral, has more than four digits, or says
/// more than `BODY_LIMIT`.
pub(crate) fn size_said(text: &[u8]) -> Result<usize, VisitFault>
    ensures { result ≡ size_said text.now }
{
    if !is_numeral(text) {
        Err(VisitFault::NoLength)
    } else if text.len() > LENGTH_DIGITS {
        Err(VisitFault::TooLong)
    } else {
        size_within(decimal(text))
    }
}

/// Returns `size`, or the refusal `TooLong` if it is more than `BODY_LIMIT`.
fn size_within(size: usize) -> Result<usize, VisitFault>
    ensures { result ≡ size_within size }
{
    if size > BODY_LIMIT {
        Err(VisitFault::TooLong)
    } else {
        Ok(size)
    }
}

/// Returns true if `text` has bytes, and each is a decimal digit.
fn is_numeral(text: &[u8]) -> bool
    ensures value { result ≡ is_numeral text.now }
    ensures digits { OnTrue result (EachIndex text.now (λ k. IsInRange 48 57 (slice_index text.now k))) }
{
    !text.is_empty() && is_digits(text)
}

/// Returns true if each byte of `text` is a decimal digit.
fn is_digits(text: &[u8]) -> bool
    ensures value { result ≡ list_all is_ascii_digit text.now }
    ensures each { OnTrue result (EachIndex text.now (λ k. IsInRange 48 57 (slice_index text.now k))) }
{
    text.iter().all(|byte| byte.is_ascii_digit())
}

/// Returns the value of `digits`: at most four decimal digits, so that it fits.
fn decimal(digits: &[u8]) -> usize
    requires few { length digits.now ≤ 4 }
    requires digits { EachIndex digits.now (λ k. IsInRange 48 57 (slice_index digits.now k)) }
    ensures { result ≡ decimal_value digits.now }
{
    let mut value = 0;
    for digit in digits {
        value = 10 * value + usize::from(digit - b'0');
    }
    value
}

/// Reads `size` bytes from `reader`. Fails with `Cut` if the body broke off or could not be read. Fails with
/// `OutOfMemory` before a byte was read.
pub(crate) fn read_body<R: Read>(
    alloc: Global,
    size: usize,
    reader: &mut R,
) -> Result<Vec<u8>, VisitFault>
    ensures { MatchResult result
        (λ body. (length body.items ≡ size) × Consumes (R.remaining reader.old) (R.remaining reader.new) body.items)
        (λ refusal. BreaksOff size (R.remaining reader.old) (R.remaining reader.new) result) }
{
    let mut body = vec![in alloc; 0; size]?;
    if size == 0 {
        return Ok(body);
    }
    match reader.read_exact(body.as_mut_slice()) {
        Ok(()) => Ok(body),
        Err(_) => Err(VisitFault::Cut),
    }
}
