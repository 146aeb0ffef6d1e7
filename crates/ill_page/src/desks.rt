//! The page of all desks: their loans by the kind of work, the search, the form of a new loan, and the way to the
//! figures.

ghost use Rattle.std.specs.Prelude.{◌≡◌, ◌++◌, option_map, IfOk, OnOk};
ghost use Rattle.ill_text.specs.Html.{html_escaped, html_text};
ghost use Rattle.ill_beside.specs.Since.{annex_of};
ghost use Rattle.ill_page.specs.Desks.{begin_form, begin_text, desk_part, desk_seen, desks_begin, desks_end, known_group, new_text, next_number, proposed_text, search_text, sought_text};

use crate::forms::{push_act, push_hidden};
use crate::parts::{BEGUN, END, FORM, STYLE};
use crate::words::{
    BEGIN, BEGIN_END, FIGURES, FOUND, FOUND_END, GROUP, NUMBER, SEARCH, SEARCH_END,
};
use ill_beside::annex::Annex;
use ill_core::Verb;
use ill_report::report::{PageView, push_desk, push_head_with};
use ill_saved::{Role, Sides};
use ill_text::html::{push_html, push_text};
use ill_text::json::push_plain;
use ill_values::{Day, OutOfMemory};
use itoa::Buffer;
use std::alloc::Global;

/// A desk that is shown among others.
#[derive(Clone, Copy)]
pub struct DeskShown<'a> {
    /// The day of the page.
    pub today: Day,
    /// The words that are sought, if there are any.
    pub find: Option<&'a str>,
    /// The text for the desk: the path of its file.
    pub file: &'a str,
    /// The sides that the desk holds.
    pub sides: &'a Sides,
    /// The annex of the desk.
    pub annex: &'a Annex,
}

/// Returns the beginning of the page of all desks: its day, and the search. If words are sought, a line says so.
#[tactic(auto, unfolding(crate::specs::Desks::desks_begin))]
pub fn begin_desks(alloc: Global, today: Day, find: Option<&str>) -> Result<Vec<u8>, OutOfMemory>
    ensures { IfOk result (λ page. page.items ≡ desks_begin today (option_map (λ words. words.now) find.entry)) }
{
    let mut page = Vec::new(alloc);
    push_head_with(&mut page, STYLE, today)?;
    push_search(&mut page, find.unwrap_or(""))?;
    push_sought(&mut page, find)?;
    Ok(page)
}

/// Appends the form of the search, with the words `find`.
#[tactic(auto, unfolding(crate::specs::Desks::search_text))]
fn push_search(page: &mut Vec<u8>, find: &str) -> Result<(), OutOfMemory>
    ensures { OnOk result (page.new.items ≡ page.old.items ++ search_text find.now) }
{
    push_plain(page, SEARCH)?;
    push_html(page, find.as_bytes())?;
    push_plain(page, SEARCH_END)?;
    Ok(())
}

/// Appends the line that says which words are sought, if there are any.
fn push_sought(page: &mut Vec<u8>, find: Option<&str>) -> Result<(), OutOfMemory>
    ensures { OnOk result (page.new.items
        ≡ page.old.items ++ sought_text (option_map (λ words. words.now) find.entry)) }
{
    let Some(words) = find else {
        return Ok(());
    };
    push_plain(page, FOUND)?;
    push_text(page, words.as_bytes())?;
    push_plain(page, FOUND_END)
}

/// Appends the part of a desk: its loans, each with a link to its page. At the desk of a requester a form begins a
/// loan.
#[tactic(auto, unfolding(crate::specs::Desks::desk_part))]
pub fn push_desk_part(page: &mut Vec<u8>, shown: &DeskShown<'_>) -> Result<(), OutOfMemory>
    ensures { OnOk result (page.new.items ≡ page.old.items ++ desk_part (desk_seen shown.now)) }
{
    let view = PageView {
        today: shown.today,
        find: shown.find,
        linked: Some(shown.file),
    };
    push_desk(page, &view, shown.file, shown.sides, shown.annex)?;
    push_new(page, shown)
}

/// Appends the form of a new loan, if the desk is a requester's.
fn push_new(page: &mut Vec<u8>, shown: &DeskShown<'_>) -> Result<(), OutOfMemory>
    ensures { OnOk result (page.new.items ≡ page.old.items
        ++ new_text shown.now.today shown.now.file.now shown.now.sides.now.role shown.now.sides.now.sides) }
{
    match shown.sides.role() {
        Role::Requester => push_begin(page, shown),
        Role::Responder => Ok(()),
    }
}

/// Appends the form that begins a loan, below the name of its desk.
#[tactic(auto, unfolding(crate::specs::Desks::begin_text))]
fn push_begin(page: &mut Vec<u8>, shown: &DeskShown<'_>) -> Result<(), OutOfMemory>
    ensures { OnOk result (page.new.items ≡ page.old.items
        ++ begin_text shown.now.today shown.now.file.now shown.now.sides.now.sides) }
{
    push_plain(page, BEGIN)?;
    push_text(page, shown.file.as_bytes())?;
    push_plain(page, BEGUN)?;
    push_begin_form(page, shown)?;
    Ok(())
}

/// Appends the form that begins a loan: its desk, the stamp `new`, the verb, and the inputs.
#[tactic(auto, unfolding(crate::specs::Desks::begin_form))]
fn push_begin_form(page: &mut Vec<u8>, shown: &DeskShown<'_>) -> Result<(), OutOfMemory>
    ensures { OnOk result (page.new.items ≡ page.old.items
        ++ begin_form shown.now.today shown.now.file.now shown.now.sides.now.sides) }
{
    push_plain(page, FORM)?;
    push_hidden(page, "desk", shown.file.as_bytes())?;
    push_act(page, "new", Verb::Request)?;
    push_proposed(page, shown)
}

/// Appends the inputs that name a new loan, with what is proposed for them, and all that follows.
#[tactic(auto, unfolding(crate::specs::Desks::proposed_text))]
fn push_proposed(page: &mut Vec<u8>, shown: &DeskShown<'_>) -> Result<(), OutOfMemory>
    ensures { OnOk result (page.new.items ≡ page.old.items ++ proposed_text shown.now.today shown.now.sides.now.sides) }
{
    push_plain(page, GROUP)?;
    push_group(page, shown.sides)?;
    push_plain(page, NUMBER)?;
    push_next_number(page, shown.today, shown.sides)?;
    push_plain(page, BEGIN_END)
}

/// Appends the group of the last loan, if there is a loan.
fn push_group(page: &mut Vec<u8>, sides: &Sides) -> Result<(), OutOfMemory>
    ensures { OnOk result (page.new.items ≡ page.old.items ++ known_group sides.now.sides) }
{
    match sides.at(sides.len().saturating_sub(1)) {
        Some(side) => push_html(page, side.txn().group()),
        None => Ok(()),
    }
}

/// Appends the number that is proposed for a new loan: the day, and the count of all loans with the new one.
#[tactic(auto, unfolding(crate::specs::Desks::next_number))]
fn push_next_number(page: &mut Vec<u8>, today: Day, sides: &Sides) -> Result<(), OutOfMemory>
    ensures { OnOk result (page.new.items ≡ page.old.items ++ next_number today sides.now.sides) }
{
    let next = sides.len() + 1;
    page.extend_from_slice(&today.digits())?;
    push_plain(page, "-")?;
    page.extend_from_slice(Buffer::new().format(next).as_bytes())
}

/// Appends the end of the page of all desks: the form that asks for figures.
#[tactic(auto, unfolding(crate::specs::Desks::desks_end))]
pub fn end_desks(page: &mut Vec<u8>) -> Result<(), OutOfMemory>
    ensures { OnOk result (page.new.items ≡ page.old.items ++ desks_end) }
{
    push_plain(page, FIGURES)?;
    push_plain(page, END)
}
