//! The figures of one desk in a file. It takes no lock, since it only reads.

ghost use Rattle.ill_visits.specs.Visits.{CountsDesk};

use ill_annex::read_diary;
use ill_figures::figures::{FiguresSought, FiguresView, run_desk_figures};
use ill_files::came::came_bytes;
use ill_files::machine::Machine;
use ill_files::open::{all_succeed, open};
use ill_rows::listed::Listed;
use ill_text::fault::ToolFault;
use std::io::Write;
use std::rt::Files;

/// Writes the figures of the desk at the path of `listed`, as `view` asks. Returns true, or the fault.
pub(crate) fn count_file<T: Files, W: Write, E: Write>(
    machine: &mut Machine<'_, T, W, E>,
    listed: &Listed<'_>,
    view: &FiguresView,
) -> Result<bool, ToolFault>
    ensures { CountsDesk view.now listed.now.is_headed listed.now.is_first (record {
      path = listed.now.path.now;
      before = W.contents machine.old.writer;
      after = W.contents machine.new.writer;
      answer = result;
    }) }
{
    let diary = read_diary(machine.rt, machine.alloc, listed.path, &mut machine.errors)?;
    let desk = open(machine.rt, machine.alloc, listed.path)?;
    let came = came_bytes(machine.rt, machine.alloc, listed.path)?;
    let sought = FiguresSought {
        view: *view,
        diary: &diary,
        came: &came,
    };
    let counted = run_desk_figures(machine.alloc, &desk, listed, &sought, &mut machine.writer);
    drop(desk);
    all_succeed(counted)
}
