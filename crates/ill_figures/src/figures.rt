//! The command `figures`.

ghost use Rattle.std.specs.Prelude.{◌≡◌, ◌≤◌, length, map, IfOk};
ghost use Rattle.ill_saved.specs.ManySides.{sides_held};
ghost use Rattle.ill_beside.specs.FileLines.{lines_of};
ghost use Rattle.ill_rows.specs.Messages.{IsTextOf, WritesNews};
ghost use Rattle.ill_figures.specs.Figures.{asked_in, figures_of, gathered, loans_of};
ghost use Rattle.ill_figures.specs.LoanFigures.{mentioned, mentions_in};
ghost use Rattle.ill_figures.specs.Texts.{figures_record, figures_text, head_text};

use crate::count::{Gathered, undated};
pub use crate::days::Span;
use crate::loan_figures::{Loan, loan_of};
use crate::mentions::{Mention, mentions_in};
use crate::texts::{HEAD, push_lines, push_record};
use ill_beside::file_lines::FileLines;
use ill_beside::keyed_came::KeyedCame;
use ill_rows::listed::{Listed, heading};
use ill_saved::{Desk, Side, Sides, Store};
use ill_text::fault::ToolFault;
use ill_text::output::write_whole;
use ill_values::{Apdu, OutOfMemory};
use ill_words::sides::all_of;
use std::alloc::Global;
use std::io::Write;

/// The span of figures, and their form.
#[derive(Clone, Copy)]
pub struct FiguresView {
    /// The span.
    pub span: Span,
    /// Set if records of CSV are written instead of lines.
    pub is_csv: bool,
}

impl FiguresView {
    /// Returns the text before the first desk: in CSV the names of the fields.
    #[tactic(auto, unfolding(crate::specs::Texts::next_field))]
    pub fn head(&self) -> &'static str
        ensures { result.now ≡ head_text self.now.is_csv }
    {
        if self.is_csv { HEAD } else { "" }
    }
}

/// The view of the figures of a desk, and the content of the files beside the desk.
#[derive(Clone, Copy)]
pub struct FiguresSought<'a> {
    /// The span, and the form.
    pub view: FiguresView,
    /// The diary.
    pub diary: &'a FileLines,
    /// The bytes of the messages that came.
    pub came: &'a [u8],
}

/// Writes the figures of `desk` in the form of `sought`. Of the loans asked in the span, they tell how many ended
/// how, and how long they took. `listed` says if the path of the desk is written before lines.
///
/// The day of a message is that of the last line of the diary which names it. `sought` has the bytes of the messages
/// that `take --keep`, `inbox` and `exchange` have kept. A part that is no message, and all bytes after it, are
/// ignored.
pub fn run_desk_figures<S: Store, W: Write>(
    alloc: Global,
    desk: &Desk<S>,
    listed: &Listed<'_>,
    sought: &FiguresSought<'_>,
    writer: &mut W,
) -> Result<(), ToolFault>
    ensures { WritesNews (λ came. figures_text sought.now.view listed.now.is_headed listed.now.is_first listed.now.path.now
        (figures_of sought.now.view.span (lines_of sought.now.diary.now) (sides_held desk.now.live).sides came))
        sought.now.came.now (W.contents writer.old) (W.contents writer.new) result }
{
    match text_of_figures(alloc, desk.sides(), listed, sought) {
        Ok(text) => write_whole(writer, &text),
        Err(_) => Err(ToolFault::OutOfMemory),
    }
}

/// Returns the text of the figures of `sides`, by the diary and the messages in `sought`.
fn text_of_figures(
    alloc: Global,
    sides: &Sides,
    listed: &Listed<'_>,
    sought: &FiguresSought<'_>,
) -> Result<Vec<u8>, OutOfMemory>
    ensures { IfOk result (λ text. IsTextOf (λ came. figures_text sought.now.view listed.now.is_headed listed.now.is_first
        listed.now.path.now (figures_of sought.now.view.span (lines_of sought.now.diary.now) sides.now.sides came))
        sought.now.came.now text.items) }
{
    let came = KeyedCame::read(alloc, sought.came)?;
    let mentions = mentions_in(alloc, sought.diary.lines())?;
    let loans = loans_of(alloc, &mentions, &came, sides)?;
    let figures = Gathered {
        asked: asked_in(alloc, &sought.view.span, &loans)?,
        undated: undated(&loans),
    };
    desk_text(alloc, listed, &sought.view, &figures)
}

/// Returns the text of `figures` of a desk in the form of `view`.
fn desk_text(
    alloc: Global,
    listed: &Listed<'_>,
    view: &FiguresView,
    figures: &Gathered,
) -> Result<Vec<u8>, OutOfMemory>
    requires { length figures.now.asked.items ≤ 1000 }
    ensures { IfOk result (λ text. text.items ≡ figures_text view.now listed.now.is_headed listed.now.is_first
        listed.now.path.now (gathered figures.now)) }
{
    if view.is_csv {
        return record_text(alloc, listed.path, view, figures);
    }
    let mut text = heading(alloc, listed)?;
    push_lines(&mut text, &view.span, figures)?;
    Ok(text)
}

/// Returns the record of `figures` of the desk at `path`.
fn record_text(
    alloc: Global,
    path: &str,
    view: &FiguresView,
    figures: &Gathered,
) -> Result<Vec<u8>, OutOfMemory>
    requires { length figures.now.asked.items ≤ 1000 }
    ensures { IfOk result (λ text. text.items ≡ figures_record path.now view.now.span (gathered figures.now)) }
{
    let mut text = Vec::new(alloc);
    push_record(&mut text, path, &view.span, figures)?;
    Ok(text)
}

/// Returns the figures of each loan of `sides`. They are at most 1,000.
#[tactic(auto, using(crate::proofs::FewLemmas::few_loans))]
fn loans_of(
    alloc: Global,
    mentions: &[Mention],
    came: &KeyedCame,
    sides: &Sides,
) -> Result<Vec<Loan>, OutOfMemory>
    ensures value { IfOk result (λ loans. loans.items ≡ loans_of (map mentioned mentions.now) came.now sides.now.sides) }
    ensures few { IfOk result (λ loans. length loans.items ≤ 1000) }
{
    let _most = sides.len();
    let all = all_of(alloc, sides)?;
    loans_of_all(alloc, mentions, came, &all)
}

/// Returns the figures of each loan of `sides`.
fn loans_of_all(
    alloc: Global,
    mentions: &[Mention],
    came: &KeyedCame,
    sides: &[&Side],
) -> Result<Vec<Loan>, OutOfMemory>
    ensures { IfOk result (λ loans. loans.items
        ≡ loans_of (map mentioned mentions.now) came.now (map (λ side. side.now) sides.now)) }
{
    let mut loans = Vec::new(alloc);
    for side in sides {
        loans.push(loan_of(alloc, mentions, came, side)?)?;
    }
    Ok(loans)
}

/// Returns those of `loans` that were asked in `span`.
#[tactic(auto, using(crate::proofs::FewLemmas::few_asked))]
fn asked_in(alloc: Global, span: &Span, loans: &[Loan]) -> Result<Vec<Loan>, OutOfMemory>
    requires { length loans.now ≤ 1000 }
    ensures few { IfOk result (λ asked. length asked.items ≤ 1000) }
    ensures value { IfOk result (λ asked. asked.items ≡ asked_in span.now loans.now) }
{
    Ok(
        loans
            .iter()
            .copied()
            .filter(|loan| span.has(loan.asked))
            .collect(alloc)?,
    )
}
