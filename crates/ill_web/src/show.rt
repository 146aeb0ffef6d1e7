//! The pages of the desks, of a loan, of a slip and of figures.

ghost use Rattle.std.specs.Prelude.{◌≡◌, ◌++◌, ◌==◌, [], length, map, option_map, string_bytes, Some, IfOk, OnOk, MatchResult};
ghost use Rattle.ill_browser.specs.Wanted.{loan_asked};
ghost use Rattle.ill_beside.specs.Since.{annex_of};
ghost use Rattle.ill_page.specs.declared.reply.Status.TheVariants.{Good};
ghost use Rattle.ill_web.specs.Pages.{AddsDesk, AddsDesks, AreLines, AtDesk, IsUnread, ShowsDesks, ShowsFigures, ShowsHeld, ShowsLoan, ShowsSlip, ShowsSpan, TellsNone, asked_at, said, sides_part, uncounted, with_news};
ghost use Rattle.ill_web.specs.Replies.{house_shown};
ghost use Rattle.ill_web.specs.Troubles.{telling, tells};

use crate::house::House;
use crate::told::Told;
use crate::trouble::Trouble;
use ill_annex::open_with_annex;
use ill_beside::annex::Annex;
use ill_beside::file_lines::FileLines;
use ill_beside::notes::Notes;
use ill_browser::LoanName;
use ill_commands::commands::slip;
use ill_figures::figures::{FiguresView, Span};
use ill_files::came::came_bytes;
use ill_files::diary::diary_bytes;
use ill_files::notes::notes_bytes;
use ill_files::open::open;
use ill_news::news::news_since;
use ill_page::words::UNCOUNTED;
use ill_page::{
    DeskShown, LoanShown, Status, begin_desks, end_desks, figures_page, loan_page, notice_page,
    page_reply, push_desk_part,
};
use ill_place::place::{DeskPlace, HostFiles};
use ill_post::stamp_of;
use ill_report::link::Place;
use ill_report::report::push_fault;
use ill_saved::{Desk, DeskFault, LockFiles, Sides, Store};
use ill_show::loan::{Beside, LoanForm, LoanView, run_desk_loan};
use ill_text::fault::ToolFault;
use ill_values::{Day, OutOfMemory};
use ill_visits::visits::figures;
use std::alloc::Global;
use std::io::sink;
use std::rt::Files;

/// Returns the reply with the page of all desks, or of their loans that have the words `find`.
pub fn show_desks<T: Files>(house: &House<'_, T>, find: Option<&str>) -> Result<Vec<u8>, Trouble>
    ensures { ShowsDesks house.now.operator.now.today (house_shown house.now).files
        (option_map (λ words. words.now) find.entry) (said result) }
{
    let mut page = begin_desks(house.alloc, house.operator.today, find)?;
    push_files(house, &mut page, find)?;
    end_desks(&mut page)?;
    Ok(page_reply(house.alloc, Status::Good, &page)?)
}

/// Appends the part of each desk of `house` to `page`. A desk that cannot be read has a part with its fault.
fn push_files<T: Files>(
    house: &House<'_, T>,
    page: &mut Vec<u8>,
    find: Option<&str>,
) -> Result<(), OutOfMemory>
    ensures { OnOk result (AddsDesks house.now.operator.now.today (option_map (λ words. words.now) find.entry)
        (house_shown house.now).files page.old.items page.new.items) }
{
    let files = house.files;
    for place in 0..files.len() {
        push_file(house, page, files[place].as_str(), find)?;
    }
    Ok(())
}

/// Appends the part of the desk in `file` to `page`. If the desk cannot be read, the part has its fault.
fn push_file<T: Files>(
    house: &House<'_, T>,
    page: &mut Vec<u8>,
    file: &str,
    find: Option<&str>,
) -> Result<(), OutOfMemory>
    ensures { OnOk result (AddsDesk house.now.operator.now.today (option_map (λ words. words.now) find.entry) file.now
        page.old.items page.new.items) }
{
    match open_with_annex(house.rt, house.alloc, file, &mut sink()) {
        Ok((desk, annex)) => {
            let opened = Opened {
                file,
                find,
                sides: desk.sides(),
            };
            let told = push_opened(house, page, &opened, annex);
            drop(desk);
            told
        }
        Err(fault) => push_fault(page, file, fault),
    }
}

/// A desk that was opened: its file, the words that are sought, if there are any, and its sides.
#[derive(Clone, Copy)]
struct Opened<'a> {
    file: &'a str,
    find: Option<&'a str>,
    sides: &'a Sides,
}

/// Appends the part of the desk in `opened`, with `annex` and the news of the day.
fn push_opened<T>(
    house: &House<'_, T>,
    page: &mut Vec<u8>,
    opened: &Opened<'_>,
    annex: Annex,
) -> Result<(), OutOfMemory>
    ensures { OnOk result (page.new.items ≡ page.old.items ++ sides_part house.now.operator.now.today
        (option_map (λ words. words.now) opened.now.find) opened.now.file.now opened.now.sides.now.role
        opened.now.sides.now.sides
        (with_news house.now.operator.now.today opened.now.sides.now.sides (annex_of annex))) }
{
    let told = with_news(house, opened.sides, annex)?;
    let shown = DeskShown {
        today: house.operator.today,
        find: opened.find,
        file: opened.file,
        sides: opened.sides,
        annex: &told,
    };
    push_desk_part(page, &shown)
}

/// Returns `annex` with the news of the day: what came today, by the diary.
fn with_news<T>(house: &House<'_, T>, sides: &Sides, annex: Annex) -> Result<Annex, OutOfMemory>
    ensures { IfOk result (λ told. annex_of told
        ≡ with_news house.now.operator.now.today sides.now.sides (annex_of annex)) }
{
    let mut told = annex;
    let news = news_since(house.alloc, sides, &told, Some(house.operator.today))?;
    told.news = news;
    Ok(told)
}

/// Returns the reply with the page of a loan.
pub fn show_loan<T: Files>(house: &House<'_, T>, loan: &LoanName) -> Result<Vec<u8>, Trouble>
    ensures { AtDesk (house_shown house.now).files loan.now.desk.items
        (ShowsLoan house.now.operator.now.today (tells Good []) (loan_asked loan.now)) (said result) }
{
    let place = house.place(loan)?;
    loan_reply(house, &place, Told::nothing())
}

/// Opens the desk of `place`, and returns the reply with the page of the loan. The reply has the status and the notice
/// of `told`.
pub fn loan_reply<T: Files>(
    house: &House<'_, T>,
    place: &Place<'_>,
    told: Told<'_>,
) -> Result<Vec<u8>, Trouble>
    ensures { ShowsLoan house.now.operator.now.today (telling told.entry) (asked_at place.now) (said result) }
{
    let desk = open(house.rt, house.alloc, place.desk)?;
    let reply = reply_of(house, place, &desk, told);
    drop(desk);
    reply
}

/// Returns the reply with the page of the loan at `place`, as `desk` holds it. The reply has the status and the notice
/// of `told`.
fn reply_of<T: Files, S: Store>(
    house: &House<'_, T>,
    place: &Place<'_>,
    desk: &Desk<S>,
    told: Told<'_>,
) -> Result<Vec<u8>, Trouble>
    ensures { ShowsHeld house.now.operator.now.today (telling told.entry) (asked_at place.now) desk.now.live (said result) }
{
    let Some(side) = desk.sides().get(place.txn) else {
        return no_loan(house, told);
    };
    let stamp = stamp_of(house.alloc, Some(side))?;
    let lines = lines_of(house, place, desk)?;
    let shown = LoanShown {
        today: house.operator.today,
        desk: place.desk,
        side,
        stamp: stamp.as_str(),
        lines: &lines,
    };
    let page = loan_page(house.alloc, &shown, told.notice)?;
    Ok(page_reply(house.alloc, told.status, &page)?)
}

/// Returns the reply about a loan that a desk does not hold: a page with the notice of `told` alone. If the notice is
/// empty, it fails with `NoSuchTransaction`.
fn no_loan<T>(house: &House<'_, T>, told: Told<'_>) -> Result<Vec<u8>, Trouble>
    ensures { TellsNone (length told.entry.notice.now == 0) house.now.operator.now.today (telling told.entry) (said result) }
{
    if told.notice.is_empty() {
        return Err(Trouble::Desk(ToolFault::Desk(DeskFault::NoSuchTransaction)));
    }
    let page = notice_page(house.alloc, house.operator.today, told.notice)?;
    Ok(page_reply(house.alloc, told.status, &page)?)
}

/// Reads the files beside `desk`, and returns all that is known of the loan at `place`, as `ill loan` writes it.
fn lines_of<T: Files, S: Store>(
    house: &House<'_, T>,
    place: &Place<'_>,
    desk: &Desk<S>,
) -> Result<Vec<u8>, Trouble>
    ensures { MatchResult result (λ lines. AreLines place.now.txn.now desk.now.live lines.items) IsUnread }
{
    let diary = diary_bytes(house.rt, house.alloc, place.desk, &mut sink())?;
    let diary = FileLines::read(house.alloc, &diary)?;
    let notes = notes_bytes(house.rt, house.alloc, place.desk)?;
    let notes = Notes::read(house.alloc, &notes)?;
    let came = came_bytes(house.rt, house.alloc, place.desk)?;
    let beside = Beside {
        notes: &notes,
        diary: &diary,
        came: &came,
    };
    written_lines(house.alloc, desk, place, &beside)
}

/// Returns the lines of all that is known of the loan at `place`. `beside` has what the files beside its desk have.
fn written_lines<S: Store>(
    alloc: Global,
    desk: &Desk<S>,
    place: &Place<'_>,
    beside: &Beside<'_>,
) -> Result<Vec<u8>, Trouble>
    ensures { MatchResult result (λ lines. AreLines place.now.txn.now desk.now.live lines.items) IsUnread }
{
    let view = LoanView {
        txn: place.txn,
        form: LoanForm::Lines,
    };
    let mut lines = Vec::new(alloc);
    match run_desk_loan(alloc, desk, &view, beside, &mut lines) {
        Ok(()) => Ok(lines),
        Err(_) => Err(Trouble::Desk(ToolFault::OutOfMemory)),
    }
}

/// Returns the reply with the slip of a loan.
pub fn show_slip<T: LockFiles>(house: &House<'_, T>, loan: &LoanName) -> Result<Vec<u8>, Trouble>
    ensures { AtDesk (house_shown house.now).files loan.now.desk.items (ShowsSlip (loan_asked loan.now)) (said result) }
{
    let place = house.place(loan)?;
    slip_reply(house, &place)
}

/// Returns the reply with the slip of the loan at `place`.
fn slip_reply<T: LockFiles>(house: &House<'_, T>, place: &Place<'_>) -> Result<Vec<u8>, Trouble>
    ensures { ShowsSlip (asked_at place.now) (said result) }
{
    let mut machine = house.machine();
    let files = HostFiles::of(house.rt);
    let desk = DeskPlace {
        files: &files,
        path: place.desk,
    };
    slip(&mut machine, &desk, place.txn)?;
    Ok(page_reply(house.alloc, Status::Good, &machine.writer)?)
}

/// Returns the reply with the figures of all desks from the day `from` to the day `to`. A desk that cannot be read has
/// no figures, and a notice says so. If `to` is before `from`, the trouble is `NoSpan`.
pub fn show_figures<T: Files>(house: &House<'_, T>, from: Day, to: Day) -> Result<Vec<u8>, Trouble>
    ensures { ShowsFigures house.now.operator.now.today (house_shown house.now).files from to (said result) }
{
    match Span::new(from, to) {
        Some(span) => show_span(house, span),
        None => Err(Trouble::NoSpan),
    }
}

/// Returns the reply with the figures of all desks in `span`.
fn show_span<T: Files>(house: &House<'_, T>, span: Span) -> Result<Vec<u8>, Trouble>
    ensures { ShowsSpan house.now.operator.now.today (house_shown house.now).files (Some span) (said result) }
{
    let view = FiguresView {
        span,
        is_csv: false,
    };
    let mut machine = house.machine();
    let paths = paths_of(house.alloc, house.files)?;
    let answer = figures(&mut machine, &paths, &view);
    if let Err(ToolFault::OutOfMemory) = answer {
        return Err(Trouble::Desk(ToolFault::OutOfMemory));
    }
    let notice = uncounted(answer);
    let page = figures_page(house.alloc, house.operator.today, notice, &machine.writer)?;
    Ok(page_reply(house.alloc, Status::Good, &page)?)
}

/// Returns the paths in `files`, in their order.
fn paths_of<'a>(alloc: Global, files: &'a [String]) -> Result<Vec<&'a str>, OutOfMemory>
    ensures { IfOk result (λ paths. map (λ path. path.now) paths.items ≡ map (λ file. string_bytes file) files.now) }
{
    let mut paths = Vec::new(alloc);
    for file in files {
        paths.push(file.as_str())?;
    }
    Ok(paths)
}

/// Returns what is told beside figures whose command ended with `answer`. It is nothing if each desk was read.
fn uncounted(answer: Result<bool, ToolFault>) -> &'static str
    ensures { result.now ≡ uncounted answer }
{
    match answer {
        Ok(_) => "",
        Err(_) => UNCOUNTED,
    }
}
