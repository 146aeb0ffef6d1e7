//! The list of a morning: a line for each loan that wants a hand, or to which something came since a day.

ghost use Rattle.std.specs.Prelude.{◌≡◌, ◌++◌, [], map, fold, IfOk, OnOk};
ghost use Rattle.std.specs.List.{flat_map};
ghost use Rattle.ill_beside.specs.Since.{annex_of};
ghost use Rattle.ill_list.specs.Morning.{break_after, due_or_news, is_morning, morning_columns, morning_row, news_text, text_or_dash, widest, with_words, words_of};

use crate::row::{Columns, push_due, push_name_cells};
use crate::wanted::{Wanted, is_to_do};
use ill_beside::annex::Annex;
use ill_beside::news_words::printed_words;
use ill_rows::cells::{push_cell, push_title};
use ill_saved::Side;
use ill_values::{Apdu, OutOfMemory};
use std::alloc::Global;

/// The width of the column of a day with the two spaces before it.
const BEGINNING: usize = 10;

/// The columns of a morning's list.
#[derive(Clone, Copy)]
pub(crate) struct MorningColumns {
    /// The columns of the loan.
    pub row: Columns,
    /// The width of the news.
    pub news: usize,
}

/// Returns true if a list is one of a morning: of what wants a hand, and of what came since a day.
pub(crate) fn is_morning(wanted: &Wanted) -> bool
    ensures { result ≡ is_morning wanted.now }
{
    wanted.which.is_mine() && wanted.since.is_some()
}

impl MorningColumns {
    /// Returns the columns that are wide enough for each of the listed loans.
    pub(crate) fn of(
        alloc: Global,
        listed: &[&Side],
        wanted: &Wanted,
        annex: &Annex,
    ) -> Result<MorningColumns, OutOfMemory>
        ensures { IfOk result (λ columns. columns
            ≡ morning_columns wanted.now (annex_of annex.now).news (map (λ side. side.now) listed.now)) }
    {
        Ok(MorningColumns {
            row: Columns::of(alloc, listed, wanted)?,
            news: news_width(alloc, listed, annex)?,
        })
    }
}

/// Returns the length of the longest text of the news of one of the listed loans.
fn news_width(alloc: Global, listed: &[&Side], annex: &Annex) -> Result<usize, OutOfMemory>
    ensures { IfOk result (λ width. width
        ≡ widest (λ side. text_or_dash (news_text (annex_of annex.now).news side)) (map (λ side. side.now) listed.now)) }
{
    let mut width = 0;
    for side in listed {
        let text = news_text(alloc, annex, side)?;
        width = width.max(text.len());
    }
    Ok(width)
}

/// Returns the words of the news of the loan of `side`, or a dash if it has none.
fn news_text(alloc: Global, annex: &Annex, side: &Side) -> Result<Vec<u8>, OutOfMemory>
    ensures { IfOk result (λ text. text.items ≡ text_or_dash (news_text (annex_of annex.now).news side.now)) }
{
    let mut text = known_news(alloc, annex, side)?;
    if text.is_empty() {
        text.push(b'-')?;
    }
    Ok(text)
}

/// Returns the words of the news of the loan of `side`. The text is empty if the loan has none or no news are printed.
fn known_news(alloc: Global, annex: &Annex, side: &Side) -> Result<Vec<u8>, OutOfMemory>
    ensures { IfOk result (λ text. text.items ≡ news_text (annex_of annex.now).news side.now) }
{
    match &annex.news {
        Some(news) => words_of(alloc, side, &news.kept_of(alloc, side.txn())?),
        None => Ok(Vec::new(alloc)),
    }
}

/// Returns the words of the messages `kept` in the loan of `side`, one after another.
fn words_of(alloc: Global, side: &Side, kept: &[Apdu]) -> Result<Vec<u8>, OutOfMemory>
    ensures { IfOk result (λ text. text.items ≡ words_of side.now kept.now) }
{
    let mut text = Vec::new(alloc);
    for apdu in kept {
        push_words(&mut text, side, apdu)?;
    }
    Ok(text)
}

/// Appends the words of `apdu` in the loan of `side`.
fn push_words(text: &mut Vec<u8>, side: &Side, apdu: &Apdu) -> Result<(), OutOfMemory>
    ensures { OnOk result (text.new.items ≡ with_words side.now text.old.items apdu.now) }
{
    push_break(text)?;
    let words = printed_words(*text.allocator(), side, &apdu.body)?;
    text.extend_from_slice(&words)?;
    Ok(())
}

/// Appends what stands before further words: nothing if `text` is empty, and else a semicolon and a space.
fn push_break(text: &mut Vec<u8>) -> Result<(), OutOfMemory>
    ensures { OnOk result (text.new.items ≡ text.old.items ++ break_after text.old.items) }
{
    if text.is_empty() {
        return Ok(());
    }
    text.extend_from_slice(b"; ")
}

/// Appends the line of the loan of `side`: its beginning and its name, its news and its title.
#[tactic(auto, unfolding(crate::specs::Morning::morning_row))]
pub(crate) fn push_morning_row(
    lines: &mut Vec<u8>,
    rows: &MorningLines<'_>,
    wanted: &Wanted,
    side: &Side,
) -> Result<(), OutOfMemory>
    ensures { OnOk result (lines.new.items ≡ lines.old.items
        ++ morning_row rows.now.columns (annex_of rows.now.annex.now).news wanted.now side.now) }
{
    let news = news_text(*lines.allocator(), rows.annex, side)?;
    push_due_or_news(lines, wanted, side)?;
    push_name_cells(lines, &rows.columns.row, wanted.today, side)?;
    push_cell(lines, rows.columns.news, &news)?;
    push_title(lines, side)?;
    lines.push(b'\n')?;
    Ok(())
}

/// Appends the beginning of the line of the loan of `side`: its due date if it wants a hand, and else the word that it
/// has news alone.
fn push_due_or_news(lines: &mut Vec<u8>, wanted: &Wanted, side: &Side) -> Result<(), OutOfMemory>
    ensures { OnOk result (lines.new.items ≡ lines.old.items ++ due_or_news wanted.now side.now) }
{
    if is_to_do(wanted, side) {
        lines.extend_from_slice(b"  ")?;
        return push_due(lines, side);
    }
    push_cell(lines, BEGINNING, b"news:")
}

/// The columns of the lines of a morning's list, and the annex of the desk.
#[derive(Clone, Copy)]
pub(crate) struct MorningLines<'a> {
    /// The columns.
    pub columns: MorningColumns,
    /// The annex.
    pub annex: &'a Annex,
}
