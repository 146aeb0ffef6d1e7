//! Tests if bytes are a qualifier or an item, without taking memory.

ghost use Rattle.std.specs.Prelude.{◌≡◌};
ghost use Rattle.std.specs.List.{list_all};
ghost use Rattle.ill_values.specs.Text.{is_printable, is_no_control, is_item_text, qualifier_check, item_check};

use crate::fault::TextFault;
use std::str;

/// The largest number of bytes in a qualifier.
pub const QUALIFIER_LIMIT: usize = 64;

/// The largest number of bytes in an item.
pub const ITEM_LIMIT: usize = 200;

/// Returns `Ok` if `text` is a qualifier, and else its first fault.
pub fn check_qualifier(text: &[u8]) -> Result<(), TextFault>
    ensures { result ≡ qualifier_check text.now }
{
    if text.is_empty() {
        Err(TextFault::Empty)
    } else if text.len() > QUALIFIER_LIMIT {
        Err(TextFault::TooLong)
    } else if is_printable_text(text) {
        Ok(())
    } else {
        Err(TextFault::BadByte)
    }
}

/// Returns `Ok` if `text` is an item, and else its first fault.
pub fn check_item(text: &[u8]) -> Result<(), TextFault>
    ensures { result ≡ item_check text.now }
{
    if text.is_empty() {
        Err(TextFault::Empty)
    } else if text.len() > ITEM_LIMIT {
        Err(TextFault::TooLong)
    } else if is_item(text) {
        Ok(())
    } else {
        Err(TextFault::BadByte)
    }
}

/// Returns true if each byte is a printing character of ASCII or a space. It reads all bytes, so that the compiler can
/// compare many at once.
fn is_printable_text(text: &[u8]) -> bool
    ensures { result ≡ list_all is_printable text.now }
{
    let mut so_far = true;
    for byte in text {
        so_far &= *byte >= 0x20 && *byte <= 0x7E;
    }
    so_far
}

/// Returns true if `text` is UTF-8 without control characters of ASCII.
fn is_item(text: &[u8]) -> bool
    ensures { result ≡ is_item_text text.now }
{
    has_no_control(text) && str::from_utf8(text).is_ok()
}

/// Returns true if no byte is a control character of ASCII. It reads all bytes, so that the compiler can compare many
/// at once.
fn has_no_control(text: &[u8]) -> bool
    ensures { result ≡ list_all is_no_control text.now }
{
    let mut so_far = true;
    for byte in text {
        so_far &= *byte >= 0x20 && *byte != 0x7F;
    }
    so_far
}
