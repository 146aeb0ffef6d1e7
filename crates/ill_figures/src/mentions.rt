//! The messages that the lines of a diary name.

ghost use Rattle.std.specs.Prelude.{◌≡◌, ◌++◌, ◌∷◌, [], map, option_to_list, IfOk, OnOk};
ghost use Rattle.ill_figures.specs.LoanFigures.{day_said, mention_in, mentioned, mentions_in};

use ill_beside::diary::{Entry, said_by};
use ill_values::{Day, OutOfMemory};
use std::alloc::Global;

/// A message that a line of a diary names, and the day of the line.
#[derive(Drop)]
pub(crate) struct Mention {
    /// The day.
    day: Day,
    /// The key of the message.
    key: Vec<u8>,
}

/// Returns the mentions in `lines` of a diary. Lines that say nothing are left out.
#[tactic(auto, unfolding(crate::specs::LoanFigures::mentions_in))]
pub(crate) fn mentions_in(alloc: Global, lines: &[Vec<u8>]) -> Result<Vec<Mention>, OutOfMemory>
    ensures { IfOk result (λ mentions. map mentioned mentions.items ≡ mentions_in (map (λ line. line.items) lines.now)) }
{
    let mut mentions = Vec::new(alloc);
    let mut rest = lines;
    while let Some((line, later)) = rest.split_first() {
        push_mention(&mut mentions, line)?;
        rest = later;
    }
    Ok(mentions)
}

/// Appends the mention that `line` makes, if it says something.
fn push_mention(mentions: &mut Vec<Mention>, line: &[u8]) -> Result<(), OutOfMemory>
    ensures { OnOk result (map mentioned mentions.new.items
        ≡ map mentioned mentions.old.items ++ option_to_list (mention_in line.now)) }
{
    match said_by(line) {
        Some(entry) => push_entry(mentions, &entry),
        None => Ok(()),
    }
}

/// Appends the mention of `entry`.
fn push_entry(mentions: &mut Vec<Mention>, entry: &Entry<'_>) -> Result<(), OutOfMemory>
    ensures { OnOk result (map mentioned mentions.new.items
        ≡ map mentioned mentions.old.items ++ (record { day = entry.now.day; key = entry.now.message.now }) ∷ []) }
{
    let key = Vec::from_slice(*mentions.allocator(), entry.message.as_bytes())?;
    let day = entry.day;
    mentions.push(Mention { day, key })?;
    Ok(())
}

/// Returns the day of the message with the key `key`, by the last mention of it. Without a mention it is `None`.
pub(crate) fn day_said(key: &[u8], mentions: &[Mention]) -> Option<Day>
    ensures { result ≡ day_said key.now (map mentioned mentions.now) }
{
    let mut found = None;
    for mention in mentions {
        if mention.key.as_slice() == key {
            found = Some(mention.day);
        }
    }
    found
}
