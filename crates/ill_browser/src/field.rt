//! The fields of a form, in the query of a URL or in the body of a request.

ghost use Rattle.std.specs.Prelude.{◌≡◌, map, option_map, option_copied, find, bytes_eq, string_bytes, IfOk};
ghost use Rattle.std.specs.List.{list_any};
ghost use Rattle.ill_browser.specs.Fields.{are_named, count_named, day_word, field_shown, fields_in, first_named, is_named, only_named, text_of, word_in, words_in};

use form_urlencoded::{decode, raw_pairs};
use ill_days::undashed;
use ill_values::OutOfMemory;
use std::alloc::Global;

/// A field of a form.
#[derive(Drop)]
pub struct Field<'a> {
    /// The name, as it is written.
    pub name: &'a [u8],
    /// The value.
    pub value: String,
}

/// Returns the fields of a form (`application/x-www-form-urlencoded`), in their order.
pub(crate) fn read_fields<'a>(alloc: Global, form: &'a [u8]) -> Result<Vec<Field<'a>>, OutOfMemory>
    ensures { IfOk result (λ fields. map field_shown fields.items ≡ fields_in form.now) }
{
    let mut fields = Vec::new(alloc);
    for (name, value) in raw_pairs(form) {
        let value = text(alloc, value)?;
        fields.push(Field { name, value })?;
    }
    Ok(fields)
}

/// Returns the text that a value of a form stands for. Bytes that are no UTF-8 become U+FFFD.
fn text(alloc: Global, value: &[u8]) -> Result<String, OutOfMemory>
    ensures { IfOk result (λ text. string_bytes text ≡ text_of value.now) }
{
    decode(alloc, value)?.into_owned(alloc)
}

/// Returns the value of the only field with this name. If two fields have it, or none has, it returns None.
pub(crate) fn only<'a>(fields: &'a [Field<'_>], name: &str) -> Option<&'a str>
    ensures { option_map (λ value. value.now) result ≡ only_named name.now (map field_shown fields.now) }
{
    if count(fields, name) == 1 {
        first(fields, name)
    } else {
        None
    }
}

/// Returns the number of fields with this name.
fn count(fields: &[Field<'_>], name: &str) -> usize
    ensures { result ≡ count_named name.now (map field_shown fields.now) }
{
    let mut count = 0;
    for field in fields {
        if is_named(field, name) {
            count += 1;
        }
    }
    count
}

/// Returns true if the field has this name.
fn is_named(field: &Field<'_>, name: &str) -> bool
    ensures { result ≡ is_named name.now (field_shown field.now) }
{
    field.name == name.as_bytes()
}

/// Returns the value of the first field with this name.
fn first<'a>(fields: &'a [Field<'_>], name: &str) -> Option<&'a str>
    ensures { option_map (λ value. value.now) result ≡ first_named name.now (map field_shown fields.now) }
{
    match field_named(fields, name.as_bytes()) {
        Some(field) => Some(field.value.as_str()),
        None => None,
    }
}

/// Returns the first field with this name.
fn field_named<'a, 'b>(fields: &'a [Field<'b>], name: &[u8]) -> Option<&'a Field<'b>>
    ensures { option_copied result ≡ find (λ field. bytes_eq field.name.now name.now) fields.now }
{
    fields.iter().find(|field| field.name == name)
}

/// Returns true if each field has one of these names.
pub(crate) fn are_named(fields: &[Field<'_>], names: &[&str]) -> bool
    ensures { result ≡ are_named (map (λ name. name.now) names.now) (map field_shown fields.now) }
{
    let mut so_far = true;
    for field in fields {
        so_far &= has_name_in(field, names);
    }
    so_far
}

/// Returns true if the field has one of these names.
fn has_name_in(field: &Field<'_>, names: &[&str]) -> bool
    ensures { result ≡ list_any (λ name. is_named name (field_shown field.now)) (map (λ name. name.now) names.now) }
{
    let mut so_far = false;
    for name in names {
        so_far |= is_named(field, name);
    }
    so_far
}

/// Returns the words of an action. They are the values of the fields `word` and `day`, in their order.
#[tactic(auto, unfolding(crate::specs::Fields::words_in))]
pub(crate) fn words(alloc: Global, fields: &[Field<'_>]) -> Result<Vec<Vec<u8>>, OutOfMemory>
    ensures { IfOk result (λ words. map (λ word. word.items) words.items
        ≡ words_in (map field_shown fields.now)) }
{
    let mut words = Vec::new(alloc);
    for field in fields {
        if let Some(word) = word(alloc, field)? {
            words.push(word)?;
        }
    }
    Ok(words)
}

/// Returns the word in a field named `word` or `day`. Another field has none.
fn word(alloc: Global, field: &Field<'_>) -> Result<Option<Vec<u8>>, OutOfMemory>
    ensures { IfOk result (λ word. option_map (λ word. word.items) word ≡ word_in (field_shown field.now)) }
{
    if is_named(field, "word") {
        return Ok(Some(Vec::from_slice(alloc, field.value.as_bytes())?));
    }
    if is_named(field, "day") {
        return Ok(Some(day_word(alloc, field.value.as_bytes())?));
    }
    Ok(None)
}

/// Returns the word of a day, as `20250315` of `2025-03-15`. The word of an empty text is `none`. A text of another
/// shape is the word itself.
fn day_word(alloc: Global, text: &[u8]) -> Result<Vec<u8>, OutOfMemory>
    ensures { IfOk result (λ word. word.items ≡ day_word text.now) }
{
    if text.is_empty() {
        return Vec::from_slice(alloc, b"none");
    }
    match undashed(text) {
        Some(digits) => Vec::from_slice(alloc, &digits),
        None => Vec::from_slice(alloc, text),
    }
}
