//! The visits of a command to desks in files, one after another. They take no lock, as no command does that only reads.
//! After a failure at one desk, the others are still visited.

ghost use Rattle.std.specs.Prelude.{map, string_bytes};
ghost use Rattle.ill_visits.specs.Visits.{RunsVisit, VisitsFiles, VisitsPaths};

use crate::counting::count_file;
use crate::listing::list_file;
use crate::telling::print_file;
use ill_figures::figures::FiguresView;
use ill_files::folder::{desk_paths, warn_of_names};
use ill_files::machine::Machine;
use ill_list::wanted::Wanted;
use ill_rows::listed::Listed;
use ill_text::fault::{ToolFault, graver};
use ill_text::form::Form;
use ill_values::{Day, Number};
use std::io::Write;
use std::rt::Files;

/// A visit of a command to a desk in a file.
#[derive(Clone, Copy)]
pub(crate) enum Visit<'a> {
    /// Its wanted loans are listed. If there are words, only the wanted loans that have them are listed.
    List(&'a Wanted, Option<&'a str>),
    /// The messages that came to it are printed: as many of the last ones as the number says, or all. With a day, these
    /// are the open answers and what came on that day or later.
    News(Option<Number>, Option<Day>),
    /// Its figures are written.
    Figures(&'a FiguresView),
}

/// Visits the desks at `paths`, and returns the gravest of their answers. A name in a folder that is no text is a fault
/// too.
pub(crate) fn visit_paths<T: Files, W: Write, E: Write>(
    machine: &mut Machine<'_, T, W, E>,
    paths: &[&str],
    visit: &Visit<'_>,
    form: Form,
) -> Result<bool, ToolFault>
    ensures { VisitsPaths (RunsVisit visit.now form) (map (λ path. path.now) paths.now) (W.contents machine.old.writer)
        (W.contents machine.new.writer) result }
{
    let Ok(found) = desk_paths(machine.rt, machine.alloc, paths) else {
        return Err(ToolFault::OutOfMemory);
    };
    let answer = visit_files(machine, &found.files, visit, form);
    graver(
        answer,
        warn_of_names(machine.alloc, &found.unnamed, &mut machine.errors),
    )
}

/// Visits the desks in `files`, and returns the gravest of their answers.
fn visit_files<T: Files, W: Write, E: Write>(
    machine: &mut Machine<'_, T, W, E>,
    files: &[String],
    visit: &Visit<'_>,
    form: Form,
) -> Result<bool, ToolFault>
    ensures { VisitsFiles (RunsVisit visit.now form) (map (λ file. string_bytes file) files.now)
        (W.contents machine.old.writer) (W.contents machine.new.writer) result }
{
    let mut answer = Ok(true);
    let mut next = Ok(true);
    for place in 0..files.len() {
        let listed = Listed {
            path: files[place].as_str(),
            is_headed: files.len() > 1,
            is_first: place == 0,
            form,
        };
        next = visit_next(machine, next, &listed, visit);
        answer = graver(answer, next);
    }
    answer
}

/// Visits the desk of `listed`, and writes a line to the errors if it cannot be read. `before` is the answer of the
/// desk before. If it says that the writer failed, nothing more is written, and the answer is `before`.
fn visit_next<T: Files, W: Write, E: Write>(
    machine: &mut Machine<'_, T, W, E>,
    before: Result<bool, ToolFault>,
    listed: &Listed<'_>,
    visit: &Visit<'_>,
) -> Result<bool, ToolFault>
    ensures { RunsVisit visit.now listed.now.form listed.now.is_headed listed.now.is_first (record {
      path = listed.now.path.now;
      before = W.contents machine.old.writer;
      after = W.contents machine.new.writer;
      answer = result;
    }) }
{
    if let Err(ToolFault::Write) = before {
        return before;
    }
    let answer = visit_file(machine, listed, visit);
    if let Err(fault) = answer
        && fault != ToolFault::Write
    {
        machine.warn_of_fault(listed.path, fault);
    }
    answer
}

/// Runs the command of `visit` at the desk of `listed`. Returns true, or the fault.
fn visit_file<T: Files, W: Write, E: Write>(
    machine: &mut Machine<'_, T, W, E>,
    listed: &Listed<'_>,
    visit: &Visit<'_>,
) -> Result<bool, ToolFault>
    ensures { RunsVisit visit.now listed.now.form listed.now.is_headed listed.now.is_first (record {
      path = listed.now.path.now;
      before = W.contents machine.old.writer;
      after = W.contents machine.new.writer;
      answer = result;
    }) }
{
    match visit {
        Visit::List(wanted, find) => list_file(machine, listed, wanted, *find),
        Visit::News(last, since) => print_file(machine, listed, *last, *since),
        Visit::Figures(view) => count_file(machine, listed, view),
    }
}
