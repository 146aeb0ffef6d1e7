//! Makes values between marks, and prints the answers to a case of one.

use crate::cases::push_bytes;
use crate::words::push_text;
use ill_test_kit::marks::{quietly, tried};
use ill_test_kit::{Page, number_in, octet_in};
use ill_values::{Day, DayFault, Item, Number, OutOfMemory, TextFault, TxnId};
use std::alloc::Global;
use std::fmt::Debug;

/// Returns a copy of the id that `TxnId::new` makes of these qualifiers.
pub fn id_of(alloc: Global, group: &[u8], transaction: &[u8]) -> Result<TxnId, TextFault> {
    let id = tried(alloc, TextFault::OutOfMemory, || {
        TxnId::new(alloc, group, transaction)
    })?;
    Ok(tried(alloc, OutOfMemory, || id.copy(alloc))?)
}

/// Returns a copy of the item that `Item::new` makes of this text.
pub fn item_of(alloc: Global, text: &[u8]) -> Result<Item, TextFault> {
    let item = tried(alloc, TextFault::OutOfMemory, || Item::new(alloc, text))?;
    Ok(tried(alloc, OutOfMemory, || item.copy(alloc))?)
}

/// Adds the qualifiers of the id that `TxnId::new` makes of these words, or its fault.
pub fn push_id(alloc: Global, output: &mut Page, words: &str) {
    let Some((group, transaction)) = words.split_once("|") else {
        return output.line("no case");
    };
    let (mut first, mut second) = (Page::new(alloc), Page::new(alloc));
    push_bytes(alloc, &mut first, group);
    push_bytes(alloc, &mut second, transaction);
    let Some((group, transaction)) = first.bytes().zip(second.bytes()) else {
        return output.line("no case");
    };
    match id_of(alloc, group, transaction) {
        Ok(id) => {
            let (group, transaction) = quietly(alloc, || (id.group(), id.transaction()));
            push_text(output, b"group ", group);
            push_text(output, b", transaction ", transaction);
        }
        Err(fault) => push_refused(output, &fault),
    }
    output.octet(b'\n');
}

/// Adds the text of the item that `Item::new` makes of these bytes, or its fault.
pub fn push_item(alloc: Global, output: &mut Page, bytes: &[u8]) {
    match item_of(alloc, bytes) {
        Ok(item) => push_text(output, b"item ", quietly(alloc, || item.text())),
        Err(fault) => push_refused(output, &fault),
    }
    output.octet(b'\n');
}

/// Adds the words that a value is refused for this fault.
fn push_refused<F: Debug>(output: &mut Page, fault: &F) {
    output.text("refused: ");
    output.show_parts(fault);
}

/// Adds the day that `Day::read` makes of these bytes, or its fault.
pub fn push_read_day(alloc: Global, output: &mut Page, bytes: &[u8]) {
    push_day(alloc, output, quietly(alloc, || Day::read(bytes)));
}

/// Adds the day that is `days` days after the day of these bytes, or the fault.
pub fn push_later_day(alloc: Global, output: &mut Page, days: u32, bytes: &[u8]) {
    push_day(
        alloc,
        output,
        quietly(alloc, || Day::read(bytes)?.after(days)),
    );
}

/// Adds the day that `Day::new` makes of a year, a month and a day, or its fault.
pub fn push_new_day(alloc: Global, output: &mut Page, words: &str) {
    match numbers_in(words) {
        Some((year, month, day)) => {
            push_day(alloc, output, quietly(alloc, || Day::new(year, month, day)));
        }
        None => output.line("no case"),
    }
}

/// Returns the year, month and day that `words` encode.
fn numbers_in(words: &str) -> Option<(u16, u8, u8)> {
    let (year, rest) = words.split_once(" ")?;
    let (month, day) = rest.split_once(" ")?;
    let year = u16::try_from(number_in(year)?).ok()?;
    let month = octet_in(month)?;
    let day = octet_in(day)?;
    Some((year, month, day))
}

/// Adds the digits of a day, or the fault.
fn push_day(alloc: Global, output: &mut Page, day: Result<Day, DayFault>) {
    match day {
        Ok(day) => output.push(&quietly(alloc, || day.digits())),
        Err(fault) => push_refused(output, &fault),
    }
    output.octet(b'\n');
}

/// Adds the number that `Number::new` makes of `words`, or the word `none`.
pub fn push_number(alloc: Global, output: &mut Page, words: &str) {
    let Some(value) = octet_in(words) else {
        return output.line("no case");
    };
    match quietly(alloc, || Number::new(value).map(|number| number.get())) {
        Some(number) => output.show(&number),
        None => output.text("none"),
    }
    output.octet(b'\n');
}
