//! Since when a loan stands as it does: the day of the last line of a diary that names a message of its record.

ghost use Rattle.std.specs.Prelude.{◌≡◌, ◌++◌, codes, IfOk, OnOk};
ghost use Rattle.ill_text.specs.Json.{joined, member};
ghost use Rattle.ill_beside.specs.Since.{annex_of, since_fields, since_line, since_of};

use crate::annex::Annex;
use crate::diary::messages_of;
use ill_saved::Side;
use ill_text::json::{Value, push_members};
use ill_text::lines::push_line;
use ill_values::{Day, OutOfMemory};
use std::alloc::Global;

/// Returns the day since which the loan of `side` stands as it does, if `annex` tells it.
#[tactic(auto, unfolding(crate::specs::Since::since_of))]
pub fn since_of(alloc: Global, annex: &Annex, side: &Side) -> Result<Option<Day>, OutOfMemory>
    ensures { IfOk result (λ day. day ≡ since_of (annex_of annex.now) side.now) }
{
    let kept = annex.came.kept_of(alloc, side.txn())?;
    let messages = messages_of(alloc, side, &kept)?;
    Ok(annex.diary.last_day(&messages))
}

/// Appends the line of the day `since` below that of its loan in a list, if it is known.
pub fn push_since_line(lines: &mut Vec<u8>, since: Option<Day>) -> Result<(), OutOfMemory>
    ensures { OnOk result (lines.new.items ≡ lines.old.items ++ since_line since) }
{
    match since {
        Some(day) => push_line(lines, "    since", &day.digits()),
        None => Ok(()),
    }
}

/// Appends the field of the day `since`, which is `null` if it is not known.
#[tactic(auto, unfolding(ill_text::specs::Json::joined))]
pub fn push_since_field(text: &mut Vec<u8>, since: Option<Day>) -> Result<(), OutOfMemory>
    ensures { OnOk result (text.new.items ≡ text.old.items ++ joined member (codes ",") (since_fields since)) }
{
    push_members(text, b",", &[("since", Value::day(since))])
}
