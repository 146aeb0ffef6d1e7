//! The visits of a command to the desks of a shelf, one after another. After a failure at one desk, the others are
//! still visited.

ghost use Rattle.std.specs.Prelude.{◌≡◌, map, string_bytes};
ghost use Rattle.ill_rows.specs.Heading.{heading};
ghost use Rattle.ill_place.specs.Place.{place_of};
ghost use Rattle.ill_text.specs.Output.{WritesText};
ghost use Rattle.ill_shelf.specs.Shelf.{Headed, RunsVisit, VisitsAll, is_headed, is_lines};
ghost use Rattle.ill_text.specs.Visits.{graver};

use ill_commands::commands::status;
use ill_exchange::exchange::{exchange, inbox, outbox};
use ill_exchange::outlet::Outlet;
use ill_files::machine::Machine;
use ill_folders::message_file::Incoming;
use ill_key::Key;
use ill_night::night::Night;
use ill_place::place::{DeskFiles, DeskPlace};
use ill_rows::listed::{Listed, heading};
use ill_text::fault::{ToolFault, graver};
use ill_text::form::Form;
use ill_text::output::write_whole;
use std::io::Write;
use std::rt::Files;

/// A visit of a command to a desk of a shelf.
#[derive(Clone, Copy)]
pub(crate) enum Visit<'a, 'b, 'c> {
    /// Its loans are shown.
    Status(Form),
    /// The message files that were sorted to it are taken. Message files that wait are given back to the folder of this
    /// `Incoming`.
    Inbox(Incoming<'a, 'b, 'c>),
    /// Its messages are put into the folder of this outlet, or written to the output.
    Outbox(Option<Outlet<'a>>),
    /// It exchanges its message files. With a key, its messages leave in sealed letters.
    Exchange(Night<'a>, Option<&'a Key>),
}

/// Visits the desks at `paths`, and returns the gravest of their answers.
pub(crate) fn visit_all<T: Files, D: DeskFiles, W: Write, E: Write>(
    machine: &mut Machine<'_, T, W, E>,
    files: &D,
    paths: &[String],
    visit: &Visit<'_, '_, '_>,
) -> Result<bool, ToolFault>
    ensures { VisitsAll (Headed D.DeskStore.state (is_headed visit.now) (RunsVisit visit.now))
        (map (λ path. string_bytes path) paths.now) (W.contents machine.old.writer) (W.contents machine.new.writer) result }
{
    let mut answer = Ok(true);
    for place in 0..paths.len() {
        let desk = DeskPlace {
            files,
            path: paths[place].as_str(),
        };
        let next = visit_desk(machine, &desk, visit);
        answer = graver(answer, next);
    }
    answer
}

/// Visits a desk, after the line of its path if `visit` writes one.
fn visit_desk<T: Files, D: DeskFiles, W: Write, E: Write>(
    machine: &mut Machine<'_, T, W, E>,
    place: &DeskPlace<'_, D>,
    visit: &Visit<'_, '_, '_>,
) -> Result<bool, ToolFault>
    ensures { Headed D.DeskStore.state (is_headed visit.now) (RunsVisit visit.now) (record {
      path = place.now.path.now;
      before = W.contents machine.old.writer;
      after = W.contents machine.new.writer;
      answer = result;
    }) }
{
    match head(machine, place.path, is_headed(visit)) {
        Ok(()) => visit_printed(machine, place, visit),
        Err(fault) => Err(fault),
    }
}

/// Writes the line of `path`, the path of a desk, if `is_headed` is set.
fn head<T: Files, W: Write, E: Write>(
    machine: &mut Machine<'_, T, W, E>,
    path: &str,
    is_headed: bool,
) -> Result<(), ToolFault>
    ensures { WritesText (W.contents machine.old.writer) (W.contents machine.new.writer) (heading is_headed path.now) result }
{
    let listed = Listed {
        path,
        is_headed,
        is_first: true,
        form: Form::Lines,
    };
    let line = heading(machine.alloc, &listed)?;
    write_whole(&mut machine.writer, &line)
}

/// Returns true if the line of its path is written before each desk.
fn is_headed(visit: &Visit<'_, '_, '_>) -> bool
    ensures { result ≡ is_headed visit.now }
{
    match visit {
        Visit::Status(form) => is_lines(*form),
        Visit::Outbox(outlet) => outlet.is_some(),
        Visit::Exchange(night, _) => is_lines(night.form),
        Visit::Inbox(_) => true,
    }
}

/// Returns true if `form` is that of lines.
fn is_lines(form: Form) -> bool
    ensures { result ≡ is_lines form }
{
    match form {
        Form::Lines => true,
        Form::Json => false,
    }
}

/// Runs the command of `visit` at a desk. A line to the errors tells of a fault, unless the fault is `Deferred`.
fn visit_printed<T: Files, D: DeskFiles, W: Write, E: Write>(
    machine: &mut Machine<'_, T, W, E>,
    place: &DeskPlace<'_, D>,
    visit: &Visit<'_, '_, '_>,
) -> Result<bool, ToolFault>
    ensures { RunsVisit visit.now (place_of D.DeskStore.state place.now.path.now) (W.contents machine.old.writer)
        (W.contents machine.new.writer) result }
{
    let answer = run_visit(machine, place, visit);
    if let Err(fault) = answer
        && fault != ToolFault::Deferred
    {
        machine.warn_of_fault(place.path, fault);
    }
    answer
}

/// Runs the command of `visit` at a desk.
fn run_visit<T: Files, D: DeskFiles, W: Write, E: Write>(
    machine: &mut Machine<'_, T, W, E>,
    place: &DeskPlace<'_, D>,
    visit: &Visit<'_, '_, '_>,
) -> Result<bool, ToolFault>
    ensures { RunsVisit visit.now (place_of D.DeskStore.state place.now.path.now) (W.contents machine.old.writer)
        (W.contents machine.new.writer) result }
{
    match visit {
        Visit::Status(form) => status(machine, place, *form),
        Visit::Inbox(incoming) => inbox(machine, place, *incoming),
        Visit::Outbox(outlet) => outbox(machine, place, *outlet),
        Visit::Exchange(night, key) => exchange(machine, place, night, *key),
    }
}
