//! One of the desks that are listed, the text before its loans, and its path in objects.

ghost use Rattle.std.specs.Prelude.{◌≡◌, ◌++◌, option_map, codes, IfOk, OnOk};
ghost use Rattle.ill_text.specs.Json.{joined, member};
ghost use Rattle.ill_rows.specs.Heading.{file_fields, file_printed, gap, heading, left_out_line, left_out_words, room_line};

use ill_text::escape::push_escaped;
use ill_text::form::Form;
use ill_text::json::{Value, push_members};
use ill_values::OutOfMemory;
use std::alloc::Global;

/// One of the desks that are listed.
#[derive(Clone, Copy)]
pub struct Listed<'a> {
    /// The path of its file.
    pub path: &'a str,
    /// Set if the path is written, since several desks are listed.
    pub is_headed: bool,
    /// Set if no desk is listed before it.
    pub is_first: bool,
    /// The form of the list.
    pub form: Form,
}

impl<'a> Listed<'a> {
    /// Returns the path, if it is written.
    pub fn printed(&self) -> Option<&'a str>
        ensures { option_map (λ path. path.now) result ≡ file_printed self.now.is_headed self.now.path.now }
    {
        if self.is_headed {
            Some(self.path)
        } else {
            None
        }
    }
}

/// Returns the lines before the loans of a desk. These are an empty line if another desk is before it, and the line
/// of its path if that is written.
pub fn heading(alloc: Global, listed: &Listed<'_>) -> Result<Vec<u8>, OutOfMemory>
    ensures { IfOk result (λ text. text.items
        ≡ gap listed.now.is_first ++ heading listed.now.is_headed listed.now.path.now) }
{
    let mut text = Vec::new(alloc);
    if !listed.is_first {
        text.push(b'\n')?;
    }
    if listed.is_headed {
        push_escaped(&mut text, listed.path.as_bytes())?;
        text.extend_from_slice(b":\n")?;
    }
    Ok(text)
}

/// Appends the field of the path `file` of a desk, if there is one.
#[tactic(auto, unfolding(ill_text::specs::Json::joined))]
pub fn push_file(text: &mut Vec<u8>, file: Option<&str>) -> Result<(), OutOfMemory>
    ensures { OnOk result (text.new.items ≡ text.old.items
        ++ joined member (codes ",") (file_fields (option_map (λ path. path.now) file.entry))) }
{
    match file {
        None => Ok(()),
        Some(path) => push_members(text, b",", &[("file", Value::Text(path.as_bytes()))]),
    }
}

/// Returns the line that says that a list without a day leaves out `count` loans of the desk in `path`.
pub fn left_out_line(alloc: Global, path: &str, count: usize) -> Result<Vec<u8>, OutOfMemory>
    ensures { IfOk result (λ line. line.items ≡ left_out_line path.now count) }
{
    let mut line = Vec::from_slice(alloc, b"ill: ")?;
    push_escaped(&mut line, path.as_bytes())?;
    let printed = format!(in alloc; ": {count}")?;
    line.extend_from_slice(printed.as_bytes())?;
    line.extend_from_slice(left_out_words(count == 1).as_bytes())?;
    Ok(line)
}

/// Returns the words of the line of `left_out_line` after the number of loans. `is_one` is true if it is one loan.
fn left_out_words(is_one: bool) -> &'static str
    ensures { result.now ≡ left_out_words is_one }
{
    if is_one {
        " more loan may want a hand by its date: give --today DAY\n"
    } else {
        " more loans may want a hand by their dates: give --today DAY\n"
    }
}

/// Returns the line that warns that the desk in `path` has room for `room` more loans.
pub fn warning(alloc: Global, path: &str, room: usize) -> Result<Vec<u8>, OutOfMemory>
    ensures { IfOk result (λ line. line.items ≡ room_line path.now room) }
{
    let mut line = Vec::from_slice(alloc, b"ill: ")?;
    push_escaped(&mut line, path.as_bytes())?;
    let left = format!(in alloc; " has room for {room} more loans\n")?;
    line.extend_from_slice(left.as_bytes())?;
    Ok(line)
}
