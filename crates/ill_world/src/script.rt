//! The lines of a script say the events at two sides.

mod events;

ghost use Rattle.std.specs.Prelude.{◌≡◌, map, IfOk};
ghost use Rattle.ill_world.specs.Script.{meaning, line_of, words_of};

use crate::event::Event;
use crate::script::events::event;
use ill_script::script_line::ScriptLine;
use ill_values::OutOfMemory;
use std::alloc::Global;

/// Reads a line of a script, which ends before its LF.
///
/// The words of a line are its runs of bytes other than spaces. A tab, a CR and a NUL are bytes of words. A line
/// without words says no event. Nor does a remark, whose very first byte is `#`. Any other line says one of these
/// events, or is `Bad`:
///
/// | Words | Event |
/// |---|---|
/// | `requester` and the words of a `wish` | `Wish` |
/// | `responder TODAY` and the words of a `deed` | `Deed` |
/// | `save SIDE` | `Save` |
/// | `save-fault SIDE old` or `new` | `SaveFault`; with `new` the record is committed |
/// | `restart SIDE` | `Restart` |
/// | `send SIDE NUMBER` | `Send` |
/// | `deliver SIDE NUMBER` | `Deliver` |
/// | `noise SIDE HEX` | `Noise` |
///
/// TODAY is a day as eight digits, such as `20250315`. SIDE is `requester` or `responder`. NUMBER is
/// one to three decimal digits for 1 to 255. HEX is two hexadecimal digits, of either case, for each
/// byte, or `none` for no bytes. No due day of a script is counted from another.
#[tactic(auto, unfolding(crate::specs::Script::meaning))]
pub(crate) fn read_line(alloc: Global, line: &[u8]) -> Result<ScriptLine<Event>, OutOfMemory>
    ensures { IfOk result (λ read. read ≡ meaning line.now) }
{
    if line.starts_with(b"#") {
        return Ok(ScriptLine::Skipped);
    }
    let words = split_words(alloc, line)?;
    read_words(alloc, &words)
}

/// Returns the meaning of the words of a line that is no remark.
pub(crate) fn read_words(alloc: Global, words: &[&[u8]]) -> Result<ScriptLine<Event>, OutOfMemory>
    ensures { IfOk result (λ read. read ≡ line_of (map (λ word. word.now) words.now)) }
{
    if words.is_empty() {
        return Ok(ScriptLine::Skipped);
    }
    match event(alloc, words)? {
        Some(event) => Ok(ScriptLine::Event(event)),
        None => Ok(ScriptLine::Bad),
    }
}

/// Returns the words of a line: its runs of bytes other than spaces.
pub(crate) fn split_words(alloc: Global, line: &[u8]) -> Result<Vec<&[u8]>, OutOfMemory>
    ensures { IfOk result (λ words. map (λ word. word.now) words.items ≡ words_of line.now) }
{
    line.split(|byte| *byte == b' ')
        .filter(|word| !word.is_empty())
        .collect(alloc)
}
