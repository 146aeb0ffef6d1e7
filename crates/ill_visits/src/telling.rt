//! What came to one desk in a file. It takes no lock, since it only reads.

ghost use Rattle.std.specs.Prelude.{IfErr};
ghost use Rattle.ill_text.specs.Fault.{IsOpenFault};
ghost use Rattle.ill_visits.specs.Visits.{PrintsDesk};

use ill_annex::{read_diary, read_notes};
use ill_beside::keyed_diary::KeyedDiary;
use ill_beside::notes::Notes;
use ill_files::came::came_bytes;
use ill_files::machine::Machine;
use ill_files::open::{all_succeed, open};
use ill_news::came_since::Came;
use ill_news::news::run_desk_news;
use ill_rows::listed::Listed;
use ill_text::fault::ToolFault;
use ill_values::{Day, Number};
use std::alloc::Global;
use std::io::Write;
use std::rt::Files;

/// Prints what came to the desk of `listed`: the last `last` messages, or all. With `since` it prints the open answers
/// and what came on that day or later. Returns true, or the fault.
pub(crate) fn print_file<T: Files, W: Write, E: Write>(
    machine: &mut Machine<'_, T, W, E>,
    listed: &Listed<'_>,
    last: Option<Number>,
    since: Option<Day>,
) -> Result<bool, ToolFault>
    ensures { PrintsDesk listed.now.form last since listed.now.is_headed listed.now.is_first (record {
      path = listed.now.path.now;
      before = W.contents machine.old.writer;
      after = W.contents machine.new.writer;
      answer = result;
    }) }
{
    let diary = diary_if(
        machine.rt,
        machine.alloc,
        listed.path,
        since.is_some(),
        &mut machine.errors,
    )?;
    let notes = notes_if(machine.rt, machine.alloc, listed.path, since.is_some())?;
    let desk = open(machine.rt, machine.alloc, listed.path)?;
    let bytes = came_bytes(machine.rt, machine.alloc, listed.path)?;
    let came = Came {
        bytes: &bytes,
        notes: &notes,
        diary: &diary,
        since,
        last,
    };
    let printed = run_desk_news(machine.alloc, &desk, listed, &came, &mut machine.writer);
    drop(desk);
    all_succeed(printed)
}

/// Reads the diary of the desk in `file` if it is `wanted`. Else it returns a diary without lines.
fn diary_if<T: Files, E: Write>(
    rt: &T,
    alloc: Global,
    file: &str,
    wanted: bool,
    errors: &mut E,
) -> Result<KeyedDiary, ToolFault>
    ensures { IfErr result IsOpenFault }
{
    if wanted {
        let lines = read_diary(rt, alloc, file, errors)?;
        Ok(KeyedDiary::of(alloc, lines)?)
    } else {
        Ok(KeyedDiary::none(alloc))
    }
}

/// Reads the notes beside the desk in `file` if they are `wanted`. Else it returns no notes.
fn notes_if<T: Files>(rt: &T, alloc: Global, file: &str, wanted: bool) -> Result<Notes, ToolFault>
    ensures { IfErr result IsOpenFault }
{
    if wanted {
        read_notes(rt, alloc, file)
    } else {
        Ok(Notes::none(alloc))
    }
}
