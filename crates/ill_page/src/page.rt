//! The page of a loan, with a form for each action that may be done now, the page of figures, and a page with a notice.

ghost use Rattle.std.specs.Prelude.{◌≡◌, ◌++◌, IfOk, OnOk};
ghost use Rattle.ill_text.specs.Html.{html_escaped};
ghost use Rattle.ill_words.specs.Possible.{item_asked, request_of};
ghost use Rattle.ill_report.specs.Link.{place_shown, place_text};
ghost use Rattle.ill_page.specs.Page.{begun_text, figures_page, known_text, lines_text, loan_page, loan_seen, notice_page, notice_text, place_of, possible_text, slip_text, title_text, ways_text};

use crate::forms::{FormView, push_forms, push_note};
use crate::parts::{ALERT, ALERT_END, COUNTED_END, END, KNOWN_END, LOAN, SLIP, STATE, STYLE};
use crate::words::{ALL, COUNTED, KNOWN, POSSIBLE, SLIP_END};
use ill_beside::state_words::words_of;
use ill_report::link::{Place, push_place};
use ill_report::report::push_head_with;
use ill_saved::Side;
use ill_text::html::{push_html, push_text};
use ill_text::json::push_plain;
use ill_values::{Day, OutOfMemory};
use ill_words::possible::{item_asked, possible_on};
use std::alloc::Global;

/// A loan that is shown.
#[derive(Clone, Copy)]
pub struct LoanShown<'a> {
    /// The day of the page.
    pub today: Day,
    /// The text for the desk of the loan.
    pub desk: &'a str,
    /// The side of this library.
    pub side: &'a Side,
    /// The stamp of the loan.
    pub stamp: &'a str,
    /// The lines of all that is known of the loan.
    pub lines: &'a [u8],
}

/// Appends the title of the loan of `side`, or a dash if it has none.
fn push_title(page: &mut Vec<u8>, side: &Side) -> Result<(), OutOfMemory>
    ensures { OnOk result (page.new.items ≡ page.old.items ++ title_text (item_asked (request_of side.now))) }
{
    match item_asked(side) {
        Some(item) => push_text(page, item.text()),
        None => push_plain(page, "-"),
    }
}

/// Returns the page of the loan in `shown`, with `notice` for the reader, if that is not empty.
#[tactic(auto, unfolding(crate::specs::Page::loan_page))]
pub fn loan_page(alloc: Global, shown: &LoanShown<'_>, notice: &str) -> Result<Vec<u8>, OutOfMemory>
    ensures { IfOk result (λ page. page.items ≡ loan_page (loan_seen shown.now) notice.now) }
{
    let mut page = begun(alloc, shown.today, notice)?;
    push_plain(&mut page, LOAN)?;
    push_title(&mut page, shown.side)?;
    push_known(&mut page, shown)?;
    push_plain(&mut page, END)?;
    Ok(page)
}

impl LoanShown<'_> {
    /// Returns the loan, and the text for its desk.
    fn place(&self) -> Place<'_>
        ensures { place_shown result ≡ place_of (loan_seen self.now) }
    {
        Place {
            desk: self.desk,
            txn: self.side.txn(),
        }
    }
}

/// Appends what the page of a loan has below its title: its state, the forms, the way to its slip, and all that is
/// known of it.
#[tactic(auto, unfolding(crate::specs::Page::known_text))]
fn push_known(page: &mut Vec<u8>, shown: &LoanShown<'_>) -> Result<(), OutOfMemory>
    ensures { OnOk result (page.new.items ≡ page.old.items ++ known_text (loan_seen shown.now)) }
{
    push_plain(page, STATE)?;
    push_plain(page, words_of(shown.side))?;
    push_plain(page, POSSIBLE)?;
    push_ways(page, shown)?;
    push_lines(page, shown.lines)
}

/// Appends all that may be done now: the forms of actions and of a note, and the way to the slip.
#[tactic(auto, unfolding(crate::specs::Page::ways_text))]
fn push_ways(page: &mut Vec<u8>, shown: &LoanShown<'_>) -> Result<(), OutOfMemory>
    ensures { OnOk result (page.new.items ≡ page.old.items ++ ways_text (loan_seen shown.now)) }
{
    push_possible(page, shown)?;
    push_note(page, &shown.place())?;
    push_slip(page, &shown.place())
}

/// Appends the lines of all that is known of a loan.
#[tactic(auto, unfolding(crate::specs::Page::lines_text))]
fn push_lines(page: &mut Vec<u8>, lines: &[u8]) -> Result<(), OutOfMemory>
    ensures { OnOk result (page.new.items ≡ page.old.items ++ lines_text lines.now) }
{
    push_plain(page, KNOWN)?;
    push_html(page, lines)?;
    push_plain(page, KNOWN_END)
}

/// Appends a form for each action that may be done on the day of the page.
fn push_possible(page: &mut Vec<u8>, shown: &LoanShown<'_>) -> Result<(), OutOfMemory>
    ensures { OnOk result (page.new.items ≡ page.old.items ++ possible_text (loan_seen shown.now)) }
{
    let verbs = possible_on(*page.allocator(), Some(shown.today), shown.side)?;
    let view = FormView {
        place: shown.place(),
        stamp: shown.stamp,
        today: shown.today,
    };
    push_forms(page, &view, &verbs)
}

/// Appends the link to the slip of the loan at `place`.
#[tactic(auto, unfolding(crate::specs::Page::slip_text))]
fn push_slip(page: &mut Vec<u8>, place: &Place<'_>) -> Result<(), OutOfMemory>
    ensures { OnOk result (page.new.items ≡ page.old.items ++ slip_text (place_shown place.now)) }
{
    let mut url = Vec::new(*page.allocator());
    push_place(&mut url, place)?;
    push_plain(page, SLIP)?;
    push_html(page, &url)?;
    push_plain(page, SLIP_END)
}

/// Returns the page with the lines of figures, and `notice` before them. If `notice` is empty, the page has no notice.
#[tactic(auto, unfolding(crate::specs::Page::figures_page))]
pub fn figures_page(
    alloc: Global,
    today: Day,
    notice: &str,
    lines: &[u8],
) -> Result<Vec<u8>, OutOfMemory>
    ensures { IfOk result (λ page. page.items ≡ figures_page today notice.now lines.now) }
{
    let mut page = begun(alloc, today, notice)?;
    push_plain(&mut page, COUNTED)?;
    push_html(&mut page, lines)?;
    push_plain(&mut page, COUNTED_END)?;
    push_plain(&mut page, END)?;
    Ok(page)
}

/// Returns a page with a notice alone.
#[tactic(auto, unfolding(crate::specs::Page::notice_page))]
pub fn notice_page(alloc: Global, today: Day, notice: &str) -> Result<Vec<u8>, OutOfMemory>
    ensures { IfOk result (λ page. page.items ≡ notice_page today notice.now) }
{
    let mut page = begun(alloc, today, notice)?;
    push_plain(&mut page, END)?;
    Ok(page)
}

/// Returns the beginning of a page: its head, the link to the page of all loans, and `notice`.
#[tactic(auto, unfolding(crate::specs::Page::begun_text))]
fn begun(alloc: Global, today: Day, notice: &str) -> Result<Vec<u8>, OutOfMemory>
    ensures { IfOk result (λ page. page.items ≡ begun_text today notice.now) }
{
    let mut page = Vec::new(alloc);
    push_head_with(&mut page, STYLE, today)?;
    push_plain(&mut page, ALL)?;
    push_notice(&mut page, notice)?;
    Ok(page)
}

/// Appends a notice, if it is not empty.
fn push_notice(page: &mut Vec<u8>, notice: &str) -> Result<(), OutOfMemory>
    ensures { OnOk result (page.new.items ≡ page.old.items ++ notice_text notice.now) }
{
    if notice.is_empty() {
        return Ok(());
    }
    push_plain(page, ALERT)?;
    push_text(page, notice.as_bytes())?;
    push_plain(page, ALERT_END)
}
