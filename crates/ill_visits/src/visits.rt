//! The commands on the desks at some paths. They take no lock, as no command does that only reads.

ghost use Rattle.std.specs.Prelude.{◌≡◌, map, option_map, string_bytes, IfErr, IfOk};
ghost use Rattle.ill_files.specs.Opening.{after_writing};
ghost use Rattle.ill_text.specs.Fault.{IsOpenFault};
ghost use Rattle.ill_visits.specs.Parts.{AddsPart, AddsParts};
ghost use Rattle.ill_visits.specs.Visits.{CountsPaths, ListsDesk, ReportsPaths, PrintsDesk, VisitsPaths};

use crate::visit::{Visit, visit_paths};
use ill_annex::open_with_annex;
use ill_figures::figures::FiguresView;
use ill_files::folder::{desk_paths, warn_of_names};
use ill_files::machine::Machine;
use ill_files::open::after_writing;
use ill_list::wanted::Wanted;
use ill_news::news::news_since;
use ill_report::report::{PageView, end_page, push_desk, push_fault, push_head};
use ill_text::fault::{ToolFault, graver};
use ill_text::form::Form;
use ill_text::output::write_whole;
use ill_values::{Day, Number, OutOfMemory};
use std::io::Write;
use std::rt::Files;

/// `ill list`: lists the wanted loans of the desks at `paths`, or those of them that have the words `find`. After a
/// failure at one desk, the others are still listed. Returns true, or the gravest fault.
pub fn list<T: Files, W: Write, E: Write>(
    machine: &mut Machine<'_, T, W, E>,
    paths: &[&str],
    wanted: &Wanted,
    find: Option<&str>,
    form: Form,
) -> Result<bool, ToolFault>
    ensures { VisitsPaths (ListsDesk form wanted.now (option_map (λ words. words.now) find.entry))
        (map (λ path. path.now) paths.now) (W.contents machine.old.writer) (W.contents machine.new.writer) result }
{
    visit_paths(machine, paths, &Visit::List(wanted, find), form)
}

/// `ill news`: prints what came to the desks at `paths`. If `since` is given, it prints the open answers and what came
/// on that day or later. If `last` is given, only so many of the last messages of each desk are printed. After a
/// failure at one desk, the others are still printed. Returns true, or the gravest fault.
pub fn news<T: Files, W: Write, E: Write>(
    machine: &mut Machine<'_, T, W, E>,
    paths: &[&str],
    last: Option<Number>,
    since: Option<Day>,
    form: Form,
) -> Result<bool, ToolFault>
    ensures { VisitsPaths (PrintsDesk form last since) (map (λ path. path.now) paths.now) (W.contents machine.old.writer)
        (W.contents machine.new.writer) result }
{
    visit_paths(machine, paths, &Visit::News(last, since), form)
}

/// `ill figures`: writes the figures of the desks at `paths`. After a failure at one desk, the others are still
/// written. Returns true, or the gravest fault.
pub fn figures<T: Files, W: Write, E: Write>(
    machine: &mut Machine<'_, T, W, E>,
    paths: &[&str],
    view: &FiguresView,
) -> Result<bool, ToolFault>
    ensures { CountsPaths view.now (map (λ path. path.now) paths.now) (W.contents machine.old.writer)
        (W.contents machine.new.writer) result }
{
    match write_whole(&mut machine.writer, view.head().as_bytes()) {
        Ok(()) => visit_paths(machine, paths, &Visit::Figures(view), Form::Lines),
        Err(fault) => Err(fault),
    }
}

/// `ill report`: writes the page of the day `today` of the desks at `paths`. If a day `since` is given, each loan has
/// its news since that day. A desk that cannot be read has a part with its fault. Returns true, or the gravest fault.
pub fn report<T: Files, W: Write, E: Write>(
    machine: &mut Machine<'_, T, W, E>,
    paths: &[&str],
    today: Day,
    since: Option<Day>,
) -> Result<bool, ToolFault>
    ensures { ReportsPaths today since (map (λ path. path.now) paths.now) (W.contents machine.old.writer)
        (W.contents machine.new.writer) result }
{
    let found = desk_paths(machine.rt, machine.alloc, paths)?;
    let mut page = Vec::new(machine.alloc);
    push_head(&mut page, today)?;
    let days = ReportDays { today, since };
    let answer = push_files(machine, &mut page, &days, &found.files)?;
    let answer = graver(
        answer,
        warn_of_names(machine.alloc, &found.unnamed, &mut machine.errors),
    );
    after_writing(end_page(page, &mut machine.writer), answer)
}

/// The days of a page.
#[derive(Clone, Copy)]
struct ReportDays {
    /// The day of the page.
    today: Day,
    /// The day since which news are printed, or `None` if no news are printed.
    since: Option<Day>,
}

/// Appends to `page` the part of each desk in `files`, and returns the gravest of their faults, or true. Fails if
/// memory runs out for the page.
fn push_files<T: Files, W: Write, E: Write>(
    machine: &mut Machine<'_, T, W, E>,
    page: &mut Vec<u8>,
    days: &ReportDays,
    files: &[String],
) -> Result<Result<bool, ToolFault>, OutOfMemory>
    ensures printed { IfOk result (λ answer.
        AddsParts days.now.today days.now.since (map (λ file. string_bytes file) files.now) page.old.items page.new.items answer) }
    ensures fault { IfOk result (λ answer. IfErr answer IsOpenFault) }
    ensures silent { machine.new.writer ≡ machine.old.writer }
{
    let mut answer = Ok(true);
    for place in 0..files.len() {
        let next = push_file(machine, page, days, files[place].as_str())?;
        answer = graver(answer, next);
    }
    Ok(answer)
}

/// Appends to `page` the part of the desk in `file`. Returns true, or the fault with which the desk cannot be read.
/// Fails if memory runs out for the page.
fn push_file<T: Files, W: Write, E: Write>(
    machine: &mut Machine<'_, T, W, E>,
    page: &mut Vec<u8>,
    days: &ReportDays,
    file: &str,
) -> Result<Result<bool, ToolFault>, OutOfMemory>
    ensures printed { IfOk result (λ answer. AddsPart days.now.today days.now.since file.now page.old.items page.new.items answer) }
    ensures fault { IfOk result (λ answer. IfErr answer IsOpenFault) }
    ensures silent { machine.new.writer ≡ machine.old.writer }
{
    match open_with_annex(machine.rt, machine.alloc, file, &mut machine.errors) {
        Ok((desk, mut annex)) => {
            let sides = desk.sides();
            let news = news_since(machine.alloc, sides, &annex, days.since)?;
            annex.news = news;
            let view = PageView::of_report(days.today);
            let printed = push_desk(page, &view, file, sides, &annex);
            drop(desk);
            printed?;
            Ok(Ok(true))
        }
        Err(fault) => {
            machine.warn_of_fault(file, fault);
            push_fault(page, file, fault)?;
            Ok(Err(fault))
        }
    }
}
