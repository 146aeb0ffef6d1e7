//! Objects of JSON, whose values are of few kinds.

ghost use Rattle.std.specs.Prelude.{◌≡◌, ℕ, List, ◌++◌, map, codes, OnOk};
ghost use Rattle.std.specs.Fmt.{decimal};
ghost use Rattle.ill_text.specs.Json.{array, day, joined, optional, member, quoted, value_text};

use crate::escape::{Escaping, push_written};
use ill_values::{Day, Number, OutOfMemory};
use itoa::Buffer;

/// The value of a field.
#[derive(Clone, Copy)]
pub enum Value<'a> {
    /// No value, written as `null`.
    Missing,
    /// A string.
    Text(&'a [u8]),
    /// A day, written as a string.
    Date(Day),
    /// A number.
    Count(usize),
    /// `true` or `false`.
    Flag(bool),
    /// An array of strings.
    Words(&'a [&'a str]),
}

impl<'a> Value<'a> {
    /// Returns the value of `date`, which is missing if there is none.
    pub fn day(date: Option<Day>) -> Value<'a>
        ensures { value_text result ≡ optional day date }
    {
        match date {
            Some(date) => Value::Date(date),
            None => Value::Missing,
        }
    }

    /// Returns the value of the number of a message, which is missing if there is none.
    pub fn number(number: Option<Number>) -> Value<'a>
        ensures { value_text result ≡ optional decimal number }
    {
        match number {
            Some(number) => Value::Count(number.get().into()),
            None => Value::Missing,
        }
    }
}

/// A field of an object: its label and its value.
pub(crate) type Field<'a> = (&'a str, Value<'a>);

/// A form in which the items of a list are written.
pub trait ItemForm<T> {
    /// Gives the text of an item.
    ghost text_of: { Self → T → List ℕ };

    /// Appends `item` to `text`.
    fn push(&self, text: &mut Vec<u8>, item: &T) -> Result<(), OutOfMemory>
        ensures { OnOk result (text.new.items ≡ text.old.items ++ text_of self.now item.now) };
}

/// Appends `items` in the given form, with `before` ahead of the first and a comma between two.
fn push_joined<T, F: ItemForm<T>>(
    text: &mut Vec<u8>,
    before: &[u8],
    items: &[T],
    form: &F,
) -> Result<(), OutOfMemory>
    ensures { OnOk result (text.new.items ≡ text.old.items
        ++ joined (F.text_of form.now) before.now items.now) }
{
    let mut before = before;
    for item in items {
        text.extend_from_slice(before)?;
        form.push(text, item)?;
        before = b",";
    }
    Ok(())
}

/// Appends an array of `items` in the given form.
pub fn push_array<T, F: ItemForm<T>>(
    text: &mut Vec<u8>,
    items: &[T],
    form: &F,
) -> Result<(), OutOfMemory>
    ensures { OnOk result (text.new.items ≡ text.old.items ++ array (F.text_of form.now) items.now) }
{
    text.push(b'[')?;
    push_joined(text, b"", items, form)?;
    text.push(b']')?;
    Ok(())
}

/// Appends `fields` to `text`, with `before` ahead of the first and a comma between two.
pub fn push_members(
    text: &mut Vec<u8>,
    before: &[u8],
    fields: &[Field<'_>],
) -> Result<(), OutOfMemory>
    ensures { OnOk result (text.new.items ≡ text.old.items
        ++ joined (λ field. member (field.0.now, value_text field.1)) before.now fields.now) }
{
    push_joined(text, before, fields, &Members)
}

/// Fields as members of an object.
struct Members;

impl<'a> ItemForm<Field<'a>> for Members {
    ghost text_of = { λ _ field. member (field.0.now, value_text field.1) };

    fn push(&self, text: &mut Vec<u8>, field: &Field<'a>) -> Result<(), OutOfMemory> {
        push_label(text, field.0)?;
        push_value(text, &field.1)
    }
}

/// Appends `label` as a string, and a colon.
pub fn push_label(text: &mut Vec<u8>, label: &str) -> Result<(), OutOfMemory>
    ensures { OnOk result (text.new.items ≡ text.old.items ++ (quoted label.now ++ codes ":")) }
{
    push_quoted(text, label.as_bytes())?;
    push_plain(text, ":")
}

/// Appends `value`.
fn push_value(text: &mut Vec<u8>, value: &Value<'_>) -> Result<(), OutOfMemory>
    ensures { OnOk result (text.new.items ≡ text.old.items ++ value_text value.now) }
{
    match value {
        Value::Missing => push_plain(text, "null"),
        Value::Text(value) => push_quoted(text, value),
        Value::Date(value) => push_quoted(text, &value.iso()),
        Value::Count(value) => push_plain(text, Buffer::new().format(*value)),
        Value::Flag(true) => push_plain(text, "true"),
        Value::Flag(false) => push_plain(text, "false"),
        Value::Words(words) => push_words(text, words),
    }
}

/// Appends `plain` as it is.
pub fn push_plain(text: &mut Vec<u8>, plain: &str) -> Result<(), OutOfMemory>
    ensures { OnOk result (text.new.items ≡ text.old.items ++ plain.now) }
{
    text.extend_from_slice(plain.as_bytes())?;
    Ok(())
}

/// Appends `value` as a string.
fn push_quoted(text: &mut Vec<u8>, value: &[u8]) -> Result<(), OutOfMemory>
    ensures { OnOk result (text.new.items ≡ text.old.items ++ quoted value.now) }
{
    text.push(b'"')?;
    push_written(text, Escaping::Json, value)?;
    text.push(b'"')?;
    Ok(())
}

/// Appends `words` as an array of strings.
fn push_words(text: &mut Vec<u8>, words: &[&str]) -> Result<(), OutOfMemory>
    ensures { OnOk result (text.new.items ≡ text.old.items
        ++ array quoted (map (λ word. word.now) words.now)) }
{
    push_array(text, words, &Strings)
}

/// Words as strings.
struct Strings;

impl<'a> ItemForm<&'a str> for Strings {
    ghost text_of = { λ _ word. quoted word.now };

    fn push(&self, text: &mut Vec<u8>, word: &&'a str) -> Result<(), OutOfMemory> {
        push_quoted(text, word.as_bytes())
    }
}
