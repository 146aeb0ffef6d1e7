//! The loans that a list is to find: one of their texts has the words that are sought, in whatever case.

ghost use Rattle.std.specs.Prelude.{◌≡◌, ◌++◌, ◌∷◌, [], filter, map, option_map, IfOk, OnOk};
ghost use Rattle.ill_words.specs.Possible.{item_asked, request_of};
ghost use Rattle.ill_beside.specs.Notes.{note_of};
ghost use Rattle.ill_rows.specs.Finding.{folded, has_part, has_words, is_found, loan_number, tells, tells_any};

use caseless::default_case_fold_str;
use ill_beside::notes::Notes;
use ill_saved::Side;
use ill_values::{OutOfMemory, TxnId};
use ill_words::possible::item_asked;
use std::alloc::Global;

/// Returns the loans of `sides` of which a text has the words `find`, in their order. `notes` has the notes of the
/// loans. If no words are sought, all loans are returned.
pub fn found_of<'a>(
    alloc: Global,
    sides: &[&'a Side],
    find: Option<&str>,
    notes: &Notes,
) -> Result<Vec<&'a Side>, OutOfMemory>
    ensures { IfOk result (λ found. map (λ side. side.now) found.items
        ≡ filter (is_found (option_map (λ words. words.now) find.entry) notes.now) (map (λ side. side.now) sides.now)) }
{
    match find {
        None => Ok(Vec::from_slice(alloc, sides)?),
        Some(words) => {
            let words = folded(alloc, words.as_bytes())?;
            printed_of(alloc, sides, &words, notes)
        }
    }
}

/// Returns the loans of `sides` of which a text has the words `sought`, which are folded, in their order.
fn printed_of<'a>(
    alloc: Global,
    sides: &[&'a Side],
    sought: &[u8],
    notes: &Notes,
) -> Result<Vec<&'a Side>, OutOfMemory>
    ensures { IfOk result (λ found. map (λ side. side.now) found.items
        ≡ filter (has_words sought.now notes.now) (map (λ side. side.now) sides.now)) }
{
    let mut found = Vec::new(alloc);
    for side in sides {
        push_printed(&mut found, side, sought, notes)?;
    }
    Ok(found)
}

/// Appends `side` to `found`, if one of its texts has the words `sought`, which are folded.
fn push_printed<'a>(
    found: &mut Vec<&'a Side>,
    side: &'a Side,
    sought: &[u8],
    notes: &Notes,
) -> Result<(), OutOfMemory>
    ensures { OnOk result (map (λ side. side.now) found.new.items
        ≡ map (λ side. side.now) found.old.items ++ filter (has_words sought.now notes.now) (side.now ∷ [])) }
{
    if has_words(*found.allocator(), side, sought, notes)? {
        found.push(side)?;
    }
    Ok(())
}

/// Returns true if the number of a loan, its item or its note has the words `sought`, which are folded.
fn has_words(alloc: Global, side: &Side, sought: &[u8], notes: &Notes) -> Result<bool, OutOfMemory>
    ensures { IfOk result (λ is. is ≡ has_words sought.now notes.now side.now) }
{
    let number = loan_number(alloc, side.txn())?;
    Ok(
        tells(alloc, sought, &number)?
            || item_tells(alloc, sought, side)?
            || note_tells(alloc, sought, side.txn(), notes)?,
    )
}

/// Returns true if the loan has an item, and it has the words `sought`, which are folded.
fn item_tells(alloc: Global, sought: &[u8], side: &Side) -> Result<bool, OutOfMemory>
    ensures { IfOk result (λ is. is ≡ tells_any sought.now (item_asked (request_of side.now))) }
{
    match item_asked(side) {
        Some(item) => tells(alloc, sought, item.text()),
        None => Ok(false),
    }
}

/// Returns true if `notes` have a note of the loan `txn`, and it has the words `sought`, which are folded.
fn note_tells(alloc: Global, sought: &[u8], txn: &TxnId, notes: &Notes) -> Result<bool, OutOfMemory>
    ensures { IfOk result (λ is. is ≡ tells_any sought.now (note_of notes.now txn.now)) }
{
    match notes.note_of(txn)? {
        Some(words) => tells(alloc, sought, words.as_bytes()),
        None => Ok(false),
    }
}

/// Returns the number of a loan: its qualifiers, with a space between them.
fn loan_number(alloc: Global, txn: &TxnId) -> Result<Vec<u8>, OutOfMemory>
    ensures { IfOk result (λ number. number.items ≡ loan_number txn.now) }
{
    let mut number = Vec::from_slice(alloc, txn.group())?;
    number.push(b' ')?;
    number.extend_from_slice(txn.transaction())?;
    Ok(number)
}

/// Returns true if `text` has the words `sought`, which are folded.
fn tells(alloc: Global, sought: &[u8], text: &[u8]) -> Result<bool, OutOfMemory>
    ensures { IfOk result (λ is. is ≡ tells sought.now text.now) }
{
    let text = folded(alloc, text)?;
    Ok(has_part(sought, &text))
}

/// Returns `text` with the case of its characters folded, if it is UTF-8, else `text` as it is.
fn folded(alloc: Global, text: &[u8]) -> Result<Vec<u8>, OutOfMemory>
    ensures { IfOk result (λ folds. folds.items ≡ folded text.now) }
{
    match str::from_utf8(text) {
        Ok(text) => {
            let folded = default_case_fold_str(alloc, text)?;
            Ok(Vec::from_slice(alloc, folded.as_bytes())?)
        }
        Err(_) => Ok(Vec::from_slice(alloc, text)?),
    }
}

/// Returns true if `part` is within `text`.
fn has_part(part: &[u8], text: &[u8]) -> bool
    ensures { result ≡ has_part part.now text.now }
{
    let mut rest = text;
    while let Some((_, after)) = rest.split_first() {
        if rest.starts_with(part) {
            return true;
        }
        rest = after;
    }
    rest.starts_with(part)
}
