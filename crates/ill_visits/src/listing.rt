//! The list of one desk in a file, and the lines that warn of it. It takes no lock, since it only reads.

ghost use Rattle.std.specs.Prelude.{option_map, IfErr};
ghost use Rattle.ill_files.specs.Opening.{all_succeed};
ghost use Rattle.ill_text.specs.Fault.{IsOpenFault};
ghost use Rattle.ill_visits.specs.Visits.{ListsDesk};

use ill_annex::{read_annex, read_notes};
use ill_beside::annex::Annex;
use ill_files::machine::Machine;
use ill_files::open::{all_succeed, open};
use ill_list::list::{Sought, count_left_out, run_desk_list};
use ill_list::wanted::Wanted;
use ill_news::news::news_since;
use ill_rows::listed::{Listed, left_out_line, warning};
use ill_saved::{SIDES_LIMIT, Sides};
use ill_show::numbers::numbers_lines;
use ill_text::fault::ToolFault;
use ill_text::form::Form;
use std::alloc::Global;
use std::io::Write;
use std::rt::Files;

/// The number of loans from which on `list` warns of the room left.
const MANY: usize = 900;

/// Lists the `wanted` loans of the desk of `listed`, or those of them that have the words `find`. Lines to the errors
/// tell which loans have few numbers left, how much room the desk has, and what is left out. Returns true, or the
/// fault.
pub(crate) fn list_file<T: Files, W: Write, E: Write>(
    machine: &mut Machine<'_, T, W, E>,
    listed: &Listed<'_>,
    wanted: &Wanted,
    find: Option<&str>,
) -> Result<bool, ToolFault>
    ensures { ListsDesk listed.now.form wanted.now (option_map (λ words. words.now) find.entry) listed.now.is_headed listed.now.is_first (record {
      path = listed.now.path.now;
      before = W.contents machine.old.writer;
      after = W.contents machine.new.writer;
      answer = result;
    }) }
{
    let mut annex = listed_annex(
        machine.rt,
        machine.alloc,
        listed,
        wanted,
        &mut machine.errors,
    )?;
    let desk = open(machine.rt, machine.alloc, listed.path)?;
    let news = news_since(machine.alloc, desk.sides(), &annex, wanted.since)?;
    annex.news = news;
    let sought = Sought {
        wanted,
        find,
        annex: &annex,
    };
    let answer = run_desk_list(machine.alloc, &desk, listed, &sought, &mut machine.writer);
    print_numbers(
        machine.alloc,
        listed.path,
        desk.sides(),
        &mut machine.errors,
    );
    warn(
        machine.alloc,
        listed.path,
        desk.sides().len(),
        &mut machine.errors,
    );
    print_left_out(
        machine.alloc,
        listed.path,
        desk.sides(),
        &sought,
        &mut machine.errors,
    );
    drop(desk);
    all_succeed(answer)
}

/// Reads what a list shows of the annex of the desk in `listed`. A list in lines reads the notes alone, if it shows no
/// days and no news.
fn listed_annex<T: Files, E: Write>(
    rt: &T,
    alloc: Global,
    listed: &Listed<'_>,
    wanted: &Wanted,
    errors: &mut E,
) -> Result<Annex, ToolFault>
    ensures { IfErr result IsOpenFault }
{
    match listed.form {
        Form::Lines if !wanted.has_since && wanted.since.is_none() => {
            let notes = read_notes(rt, alloc, listed.path)?;
            Ok(Annex::of_notes(alloc, notes))
        }
        _ => read_annex(rt, alloc, listed.path, errors),
    }
}

/// Writes to `errors` a line for each loan in `sides` that has few numbers left, with their count. `file` is the path
/// of the desk.
fn print_numbers<E: Write>(alloc: Global, file: &str, sides: &Sides, errors: &mut E) {
    if let Ok(lines) = numbers_lines(alloc, file, sides) {
        let _ = errors.write_all(&lines);
    }
}

/// Writes a warning of the room left at the desk in `file`, if it has 900 `loans` or more.
fn warn<E: Write>(alloc: Global, file: &str, loans: usize, errors: &mut E) {
    if loans < MANY {
        return;
    }
    if let Ok(line) = warning(alloc, file, SIDES_LIMIT.saturating_sub(loans)) {
        let _ = errors.write_all(&line);
    }
}

/// Writes to `errors` how many loans the list of the desk in `file` leaves out because no day is given. If there are
/// none, it writes nothing.
fn print_left_out<E: Write>(
    alloc: Global,
    file: &str,
    sides: &Sides,
    sought: &Sought<'_>,
    errors: &mut E,
) {
    let count = count_left_out(alloc, sides, sought.wanted, sought.annex).unwrap_or(0);
    if count == 0 {
        return;
    }
    if let Ok(line) = left_out_line(alloc, file, count) {
        let _ = errors.write_all(&line);
    }
}
