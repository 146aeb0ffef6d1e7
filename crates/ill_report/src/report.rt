//! The command `report`: a page of HTML of the loans of desks.

ghost use Rattle.std.specs.Prelude.{◌≡◌, ◌++◌, ℕ, List, [], ◌∷◌, Some, map, count_by, option_copied, filter, option_map, IfOk, OnOk};
ghost use Rattle.std.specs.List.{flat_map};
ghost use Rattle.ill_values.specs.Day.{iso_text};
ghost use Rattle.ill_text.specs.Output.{WritesText};
ghost use Rattle.ill_record.specs.Side.{txn_of};
ghost use Rattle.ill_text.specs.Html.{html_escaped};
ghost use Rattle.ill_words.specs.Possible.{possible_on, request_of, item_asked};
ghost use Rattle.ill_work.specs.Order.{has_work};
ghost use Rattle.ill_report.specs.declared.report_parts.TheConstants.{NOTE_END, SINCE, TIME_END};
ghost use Rattle.ill_rows.specs.Cells.{title_text};
ghost use Rattle.ill_rows.specs.Finding.{is_found};
ghost use Rattle.ill_report.specs.Link.{linked_text};
ghost use Rattle.ill_beside.specs.Notes.{note_of};
ghost use Rattle.ill_beside.specs.Since.{annex_of, since_of};
ghost use Rattle.ill_beside.specs.StateWords.{state_words};
ghost use Rattle.ill_report.specs.Report.{action_text, counted, counts_text, deadline_text, desk_text, field_text, is_to_do, loans_text, news_mark, news_marks, noted_text, page_end, page_head, page_head_with, page_shown, report_of, row_text, rows_text, since_text, table_head, table_text, unread_text, value_text, work_text, works_text};

use crate::link::push_linked;
use crate::report_parts::{
    COUNT, COUNTS_END, DESK, DESK_END, DESKS, END, Field, LOANS, NEWS, NEWS_END, NOTE, NOTE_END,
    OPEN, PAGE, ROOM, ROW, SINCE, STYLE_END, TABLE, TABLE_END, TIME_END, TO_DO, UNREAD, UNREAD_END,
    heading,
};
use ill_beside::annex::Annex;
use ill_beside::news_words::printed_words;
use ill_beside::notes::Notes;
use ill_beside::since::since_of;
use ill_beside::state_words::words_of;
use ill_core::Verb;
use ill_rows::cells::push_title;
use ill_rows::finding::found_of;
use ill_rows::soon::SOON;
use ill_saved::{SIDES_LIMIT, Side, Sides};
use ill_text::fault::ToolFault;
use ill_text::html::{push_html, push_text};
use ill_text::json::push_plain;
use ill_text::output::write_whole;
use ill_values::{Apdu, Day, OutOfMemory};
use ill_words::possible::{expiry, possible_on};
use ill_words::waiting::most_urgent_first;
use ill_work::{Work, count};
use itoa::Buffer;
use std::alloc::Global;
use std::io::Write;

/// The day of a page, the words that are sought in its loans, and the desk in its links.
#[derive(Clone, Copy)]
pub struct PageView<'a> {
    /// The day of the page.
    pub today: Day,
    /// The words that are sought, if there are any. Only loans that have them have a row.
    pub find: Option<&'a str>,
    /// The text that names the desk in the links of its rows, if they have links.
    pub linked: Option<&'a str>,
}

impl PageView<'_> {
    /// Returns the view of a report on the day `today`: no words are sought, and no row has a link.
    pub fn of_report<'a>(today: Day) -> PageView<'a>
        ensures { page_shown result ≡ report_of today }
    {
        PageView {
            today,
            find: None,
            linked: None,
        }
    }
}

/// Appends the text before the desks of a report on the day `today`.
pub fn push_head(page: &mut Vec<u8>, today: Day) -> Result<(), OutOfMemory>
    ensures { OnOk result (page.new.items ≡ page.old.items ++ page_head today) }
{
    push_head_with(page, "", today)
}

/// Appends the text before the desks of a page on the day `today`. `style` has further rules of its style.
#[tactic(auto, unfolding(crate::specs::Report::page_head_with))]
pub fn push_head_with(page: &mut Vec<u8>, style: &str, today: Day) -> Result<(), OutOfMemory>
    ensures { OnOk result (page.new.items ≡ page.old.items ++ page_head_with style.now today) }
{
    push_plain(page, PAGE)?;
    push_plain(page, style)?;
    push_plain(page, STYLE_END)?;
    page.extend_from_slice(&today.iso())?;
    push_plain(page, DESKS)
}

/// Appends the end of `page`, which has all its desks, and writes the page.
pub fn end_page<W: Write>(mut page: Vec<u8>, writer: &mut W) -> Result<(), ToolFault>
    ensures { WritesText (W.contents writer.old) (W.contents writer.new) (page.items ++ page_end) result }
{
    page.extend_from_slice(END.as_bytes())?;
    write_whole(writer, &page)
}

/// Appends the part of the desk in `file`, which has the sides `sides`, with what its annex tells of its loans.
#[tactic(auto, unfolding(crate::specs::Report::desk_text))]
pub fn push_desk(
    page: &mut Vec<u8>,
    view: &PageView<'_>,
    file: &str,
    sides: &Sides,
    annex: &Annex,
) -> Result<(), OutOfMemory>
    ensures { OnOk result (page.new.items ≡ page.old.items
        ++ desk_text (page_shown view.now) file.now sides.now.sides (annex_of annex.now)) }
{
    let sides = most_urgent_first(*page.allocator(), sides)?;
    page.extend_from_slice(DESK.as_bytes())?;
    push_text(page, file.as_bytes())?;
    push_loans(page, view, &sides, annex)?;
    page.extend_from_slice(DESK_END.as_bytes())?;
    Ok(())
}

/// Appends the part of the desk in `file`, which cannot be read: the file and the text of `fault`.
pub fn push_fault(page: &mut Vec<u8>, file: &str, fault: ToolFault) -> Result<(), OutOfMemory>
    ensures { OnOk result ((words : List ℕ) × (page.new.items ≡ page.old.items ++ unread_text file.now words)) }
{
    let words = format!(in *page.allocator(); "{fault}")?;
    push_unread(page, file, words.as_str())?;
    Ok(())
}

/// Appends the part of the desk in `file`, which cannot be read. The text of its fault is `words`.
#[tactic(auto, unfolding(crate::specs::Report::unread_text))]
fn push_unread(page: &mut Vec<u8>, file: &str, words: &str) -> Result<(), OutOfMemory>
    ensures { OnOk result (page.new.items ≡ page.old.items ++ unread_text file.now words.now) }
{
    page.extend_from_slice(DESK.as_bytes())?;
    push_text(page, file.as_bytes())?;
    page.extend_from_slice(UNREAD.as_bytes())?;
    push_text(page, words.as_bytes())?;
    page.extend_from_slice(UNREAD_END.as_bytes())?;
    Ok(())
}

/// Appends the loans of a desk: the counts of all, and tables of those that have the words that are sought.
#[tactic(auto, unfolding(crate::specs::Report::loans_text))]
fn push_loans(
    page: &mut Vec<u8>,
    view: &PageView<'_>,
    sides: &[&Side],
    annex: &Annex,
) -> Result<(), OutOfMemory>
    ensures { OnOk result (page.new.items ≡ page.old.items
        ++ loans_text (page_shown view.now) (annex_of annex.now) (map (λ side. side.now) sides.now)) }
{
    push_counts(page, view.today, sides)?;
    push_found(page, view, sides, annex)
}

/// Appends tables of those loans that have the words that are sought: one for each kind of work.
fn push_found(
    page: &mut Vec<u8>,
    view: &PageView<'_>,
    sides: &[&Side],
    annex: &Annex,
) -> Result<(), OutOfMemory>
    ensures { OnOk result (page.new.items ≡ page.old.items ++ works_text (page_shown view.now) (annex_of annex.now)
        (filter (is_found (page_shown view.now).find annex.now.notes) (map (λ side. side.now) sides.now))) }
{
    let found = found_of(*page.allocator(), sides, view.find, &annex.notes)?;
    push_works(page, view, &found, annex, Work::all())
}

/// Appends the counts of a desk: loans that want a hand, open loans, all loans, and the room for further ones.
#[tactic(auto, unfolding(crate::specs::Report::counts_text))]
fn push_counts(page: &mut Vec<u8>, today: Day, sides: &[&Side]) -> Result<(), OutOfMemory>
    ensures { OnOk result (page.new.items ≡ page.old.items
        ++ counts_text today (map (λ side. side.now) sides.now)) }
{
    let loans = sides.len();
    let over = count(sides, Work::Over, today, SOON);
    push_counted(page, TO_DO, count_to_do(today, sides))?;
    push_counted(page, OPEN, loans.saturating_sub(over))?;
    push_counted(page, LOANS, loans)?;
    push_counted(page, ROOM, SIDES_LIMIT.saturating_sub(loans))?;
    page.extend_from_slice(COUNTS_END.as_bytes())
}

/// Appends `words`, and then `count`.
#[tactic(auto, unfolding(crate::specs::Report::counted))]
fn push_counted(page: &mut Vec<u8>, words: &str, count: usize) -> Result<(), OutOfMemory>
    ensures { OnOk result (page.new.items ≡ page.old.items ++ counted words.now count) }
{
    page.extend_from_slice(words.as_bytes())?;
    page.extend_from_slice(Buffer::new().format(count).as_bytes())
}

/// Returns the number of loans that want a hand on the day `today`.
fn count_to_do(today: Day, sides: &[&Side]) -> usize
    ensures { result ≡ count_by (is_to_do today) (map (λ side. side.now) sides.now) }
{
    sides.iter().filter(|side| is_to_do(today, side)).count()
}

/// Returns true if the work with `side` wants a hand on the day `today`.
fn is_to_do(today: Day, side: &Side) -> bool
    ensures { result ≡ is_to_do today side.now }
{
    Work::of(side, today, SOON).wants_a_hand()
}

/// Appends a table for each kind of work in `works` that one of the loans of `sides` has.
fn push_works(
    page: &mut Vec<u8>,
    view: &PageView<'_>,
    sides: &[&Side],
    annex: &Annex,
    works: &[Work],
) -> Result<(), OutOfMemory>
    ensures { OnOk result (page.new.items ≡ page.old.items
        ++ flat_map (work_text (page_shown view.now) (annex_of annex.now) (map (λ side. side.now) sides.now)) works.now) }
{
    for work in works {
        push_work(page, view, sides, annex, *work)?;
    }
    Ok(())
}

/// Appends the table of the loans with the work `work`, if there is such a loan.
fn push_work(
    page: &mut Vec<u8>,
    view: &PageView<'_>,
    sides: &[&Side],
    annex: &Annex,
    work: Work,
) -> Result<(), OutOfMemory>
    ensures { OnOk result (page.new.items ≡ page.old.items
        ++ work_text (page_shown view.now) (annex_of annex.now) (map (λ side. side.now) sides.now) work) }
{
    if count(sides, work, view.today, SOON) == 0 {
        return Ok(());
    }
    push_table(page, view, sides, annex, work)
}

/// Appends the table of the loans with the work `work`: the words for it, their number, and a row for each.
#[tactic(auto, unfolding(crate::specs::Report::table_text))]
fn push_table(
    page: &mut Vec<u8>,
    view: &PageView<'_>,
    sides: &[&Side],
    annex: &Annex,
    work: Work,
) -> Result<(), OutOfMemory>
    ensures { OnOk result (page.new.items ≡ page.old.items
        ++ table_text (page_shown view.now) (annex_of annex.now) (map (λ side. side.now) sides.now) work) }
{
    push_table_head(page, work, count(sides, work, view.today, SOON))?;
    push_rows(page, view, sides, annex, work)?;
    push_plain(page, TABLE_END)
}

/// Appends the words for the work `work`, with the number of its loans, and the head of their table.
#[tactic(auto, unfolding(crate::specs::Report::table_head))]
fn push_table_head(page: &mut Vec<u8>, work: Work, count: usize) -> Result<(), OutOfMemory>
    ensures { OnOk result (page.new.items ≡ page.old.items ++ table_head work count) }
{
    push_plain(page, heading(work))?;
    push_plain(page, work.words())?;
    push_counted(page, COUNT, count)?;
    push_plain(page, TABLE)
}

/// Appends the rows of the loans with the work `work`.
fn push_rows(
    page: &mut Vec<u8>,
    view: &PageView<'_>,
    sides: &[&Side],
    annex: &Annex,
    work: Work,
) -> Result<(), OutOfMemory>
    ensures { OnOk result (page.new.items ≡ page.old.items
        ++ rows_text (page_shown view.now) (annex_of annex.now) work (map (λ side. side.now) sides.now)) }
{
    for side in sides {
        push_row_of(page, view, side, annex, work)?;
    }
    Ok(())
}

/// Appends the row of the loan of `side`, if it has the work `work`.
fn push_row_of(
    page: &mut Vec<u8>,
    view: &PageView<'_>,
    side: &Side,
    annex: &Annex,
    work: Work,
) -> Result<(), OutOfMemory>
    ensures { OnOk result (page.new.items ≡ page.old.items
        ++ rows_text (page_shown view.now) (annex_of annex.now) work (side.now ∷ [])) }
{
    if has_work(view.today, side, work) {
        return push_row(page, view, side, annex);
    }
    Ok(())
}

/// Returns true if `work` is the work with `side` on the day `today`.
fn has_work(today: Day, side: &Side, work: Work) -> bool
    ensures { result ≡ has_work today SOON work side.now }
{
    Work::of(side, today, SOON) == work
}

/// Appends the row of the loan of `side`.
fn push_row(
    page: &mut Vec<u8>,
    view: &PageView<'_>,
    side: &Side,
    annex: &Annex,
) -> Result<(), OutOfMemory>
    ensures { OnOk result (page.new.items ≡ page.old.items ++ row_text (page_shown view.now) (annex_of annex.now) side.now) }
{
    push_fields(page, view, side, annex, &ROW)
}

/// Appends `fields` of the loan of `side`, one after another.
fn push_fields(
    page: &mut Vec<u8>,
    view: &PageView<'_>,
    side: &Side,
    annex: &Annex,
    fields: &[Field],
) -> Result<(), OutOfMemory>
    ensures { OnOk result (page.new.items ≡ page.old.items
        ++ flat_map (field_text (page_shown view.now) (annex_of annex.now) side.now) fields.now) }
{
    for field in fields {
        push_field(page, view, side, annex, *field)?;
    }
    Ok(())
}

/// Appends `field` of the loan of `side`, between the texts before and after it.
fn push_field(
    page: &mut Vec<u8>,
    view: &PageView<'_>,
    side: &Side,
    annex: &Annex,
    field: Field,
) -> Result<(), OutOfMemory>
    ensures { OnOk result (page.new.items ≡ page.old.items ++ field_text (page_shown view.now) (annex_of annex.now) side.now field) }
{
    page.extend_from_slice(field.before().as_bytes())?;
    push_value(page, view, side, annex, field)?;
    page.extend_from_slice(field.after().as_bytes())
}

/// Appends the value of `field` of the loan of `side`.
fn push_value(
    page: &mut Vec<u8>,
    view: &PageView<'_>,
    side: &Side,
    annex: &Annex,
    field: Field,
) -> Result<(), OutOfMemory>
    ensures { OnOk result (page.new.items ≡ page.old.items ++ value_text (page_shown view.now) (annex_of annex.now) side.now field) }
{
    match field {
        Field::Title => push_noted_title(page, view, side, &annex.notes),
        Field::Group => push_text(page, side.txn().group()),
        Field::Transaction => push_text(page, side.txn().transaction()),
        Field::State => push_state(page, side, annex),
        Field::Deadline => push_deadline(page, side.due(), expiry(side)),
        Field::Actions => push_possible(page, view.today, side),
    }
}

/// Appends the title of the loan of `side`, and the note on it.
fn push_noted_title(
    page: &mut Vec<u8>,
    view: &PageView<'_>,
    side: &Side,
    notes: &Notes,
) -> Result<(), OutOfMemory>
    ensures { OnOk result (page.new.items ≡ page.old.items
        ++ (linked_text (page_shown view.now).linked (txn_of side.now) (html_escaped (title_text (item_asked (request_of side.now))))
        ++ noted_text (note_of notes.now (txn_of side.now)))) }
{
    let title = html_title(*page.allocator(), side)?;
    push_linked(page, view.linked, side.txn(), &title)?;
    push_html_note(page, notes.note_of(side.txn())?)
}

/// Appends a note on a loan, if there is one.
fn push_html_note(page: &mut Vec<u8>, note: Option<&str>) -> Result<(), OutOfMemory>
    ensures { OnOk result (page.new.items ≡ page.old.items ++ noted_text (option_copied note.entry)) }
{
    let Some(words) = note else {
        return Ok(());
    };
    page.extend_from_slice(NOTE.as_bytes())?;
    push_text(page, words.as_bytes())?;
    page.extend_from_slice(NOTE_END.as_bytes())?;
    Ok(())
}

/// Returns the title of the loan of `side`, as a text of HTML.
fn html_title(alloc: Global, side: &Side) -> Result<Vec<u8>, OutOfMemory>
    ensures { IfOk result (λ text. text.items ≡ html_escaped (title_text (item_asked (request_of side.now)))) }
{
    let mut title = Vec::new(alloc);
    push_title(&mut title, side)?;
    let mut text = Vec::new(alloc);
    push_html(&mut text, &title)?;
    Ok(text)
}

/// Appends the state of the loan of `side`, in words. The day since which the loan has it, if `annex` tells the day,
/// and the news follow.
fn push_state(page: &mut Vec<u8>, side: &Side, annex: &Annex) -> Result<(), OutOfMemory>
    ensures { OnOk result (page.new.items ≡ page.old.items ++ (state_words side.now
        ++ (since_text (since_of (annex_of annex.now) side.now) ++ news_marks (annex_of annex.now).news side.now))) }
{
    let since = since_of(*page.allocator(), annex, side)?;
    page.extend_from_slice(words_of(side).as_bytes())?;
    push_since(page, since)?;
    push_news(page, side, annex)?;
    Ok(())
}

/// Appends the news of the loan of `side`, if `annex` has news.
fn push_news(page: &mut Vec<u8>, side: &Side, annex: &Annex) -> Result<(), OutOfMemory>
    ensures { OnOk result (page.new.items ≡ page.old.items ++ news_marks (annex_of annex.now).news side.now) }
{
    match &annex.news {
        Some(news) => {
            let kept = news.kept_of(*page.allocator(), side.txn())?;
            push_marks(page, side, &kept)
        }
        None => Ok(()),
    }
}

/// Appends the messages `kept`, in the loan of `side`.
fn push_marks(page: &mut Vec<u8>, side: &Side, kept: &[Apdu]) -> Result<(), OutOfMemory>
    ensures { OnOk result (page.new.items ≡ page.old.items ++ flat_map (news_mark side.now) kept.now) }
{
    for apdu in kept {
        push_mark(page, side, apdu)?;
    }
    Ok(())
}

/// Appends the message `apdu`, in the loan of `side`.
#[tactic(auto, unfolding(crate::specs::Report::news_mark))]
fn push_mark(page: &mut Vec<u8>, side: &Side, apdu: &Apdu) -> Result<(), OutOfMemory>
    ensures { OnOk result (page.new.items ≡ page.old.items ++ news_mark side.now apdu.now) }
{
    let words = printed_words(*page.allocator(), side, &apdu.body)?;
    push_plain(page, NEWS)?;
    push_text(page, &words)?;
    push_plain(page, NEWS_END)
}

/// Appends the day `since` which a loan stands as it does, if it is known.
fn push_since(page: &mut Vec<u8>, since: Option<Day>) -> Result<(), OutOfMemory>
    ensures { OnOk result (page.new.items ≡ page.old.items ++ since_text since) }
{
    match since {
        Some(day) => push_since_day(page, day),
        None => Ok(()),
    }
}

/// Appends the day since which a loan stands as it does.
fn push_since_day(page: &mut Vec<u8>, day: Day) -> Result<(), OutOfMemory>
    ensures { OnOk result (page.new.items ≡ page.old.items
        ++ ((SINCE.now ++ (iso_text day ++ TIME_END.now)) ++ NOTE_END.now)) }
{
    push_day(page, SINCE, day)?;
    page.extend_from_slice(NOTE_END.as_bytes())
}

/// Appends the words of a deadline: the due date, or else the expiry date of the request, if there is one.
fn push_deadline(
    page: &mut Vec<u8>,
    due: Option<Day>,
    expiry: Option<Day>,
) -> Result<(), OutOfMemory>
    ensures { OnOk result (page.new.items ≡ page.old.items ++ deadline_text due expiry) }
{
    match (due, expiry) {
        (Some(due), _) => push_day(page, "due <time>", due),
        (None, Some(expiry)) => push_day(page, "expires <time>", expiry),
        (None, None) => Ok(()),
    }
}

/// Appends `words`, and then `day` and the end of the element of `day`.
fn push_day(page: &mut Vec<u8>, words: &str, day: Day) -> Result<(), OutOfMemory>
    ensures { OnOk result (page.new.items ≡ page.old.items ++ (words.now ++ (iso_text day ++ TIME_END.now))) }
{
    page.extend_from_slice(words.as_bytes())?;
    page.extend_from_slice(&day.iso())?;
    page.extend_from_slice(TIME_END.as_bytes())?;
    Ok(())
}

/// Appends the actions that this library may do with the loan of `side` on the day `today`.
fn push_possible(page: &mut Vec<u8>, today: Day, side: &Side) -> Result<(), OutOfMemory>
    ensures { OnOk result (page.new.items ≡ page.old.items
        ++ flat_map action_text (possible_on (Some today) side.now)) }
{
    let verbs = possible_on(*page.allocator(), Some(today), side)?;
    push_actions(page, &verbs)
}

/// Appends the actions `verbs`.
fn push_actions(page: &mut Vec<u8>, verbs: &[Verb]) -> Result<(), OutOfMemory>
    ensures { OnOk result (page.new.items ≡ page.old.items ++ flat_map action_text verbs.now) }
{
    for verb in verbs {
        push_action(page, *verb)?;
    }
    Ok(())
}

/// Appends an action that this library may do.
fn push_action(page: &mut Vec<u8>, verb: Verb) -> Result<(), OutOfMemory>
    ensures { OnOk result (page.new.items ≡ page.old.items ++ action_text verb) }
{
    page.extend_from_slice(b"<code>")?;
    page.extend_from_slice(verb.name().as_bytes())?;
    page.extend_from_slice(b"</code> ")
}
