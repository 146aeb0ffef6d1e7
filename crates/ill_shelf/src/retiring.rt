//! The command `retire`: it replaces the desk of a group by the mark of the group.

ghost use Rattle.std.specs.Prelude.{◌≡◌, true, is_some, IfErr, IfOk};
ghost use Rattle.ill_night.specs.Retire.{Retires};
ghost use Rattle.ill_place.specs.Place.{IsAt, place_of, shelf_of};
ghost use Rattle.ill_saved.specs.ManySides.{sides_held};
ghost use Rattle.ill_shelf.specs.Retiring.{MarksDesk, MarksGroup, RetiresAtHome, mark_place, retired_line, printed_with};
ghost use Rattle.ill_text.specs.Fault.{IsOpenFault};
ghost use Rattle.ill_text.specs.Known.{known};

use crate::on_shelf::{save_file, save_mark};
use ill_files::machine::Machine;
use ill_files::open::lock;
use ill_files::paths::{KEPT, MAIL_FOLDER, is_there, path_of};
use ill_files::shelf::{Shelf, retired_path};
use ill_folders::claiming_folder::remove_if_there;
use ill_folders::message_file::names_in;
use ill_night::retire::run_desk_retire;
use ill_place::place::{DeskFiles, DeskPlace, ShelfPlace};
use ill_saved::{Desk, DeskFault, LockFiles, Store};
use ill_sorting::last_words::load_mark;
use ill_text::fault::ToolFault;
use ill_text::output::write_whole;
use std::alloc::Global;
use std::io::Write;
use std::rt::Files;
use std::{fs, io};

/// `ill shelf retire`: replaces the desk of `group` by the mark of the group, if all its loans are over. Meanwhile no
/// mail is sorted. Returns true if the group is retired, and false if a loan is not over.
pub fn retire<T: LockFiles, D: DeskFiles, W: Write, E: Write>(
    machine: &mut Machine<'_, T, W, E>,
    place: &ShelfPlace<'_, D>,
    group: &str,
) -> Result<bool, ToolFault>
    ensures { RetiresAtHome (shelf_of D.DeskStore.state place.now.folder.now) group.now (W.contents machine.old.writer)
        (W.contents machine.new.writer) result }
{
    let shelf = Shelf::open(machine.rt, machine.alloc, place.folder)?;
    let own = shelf.own_desk(machine.alloc)?;
    let sorting = lock(machine.rt, machine.alloc, own.as_str())?;
    let file = shelf.desk_of(machine.alloc, group.as_bytes())?;
    let desk = DeskPlace {
        files: place.files,
        path: file.as_str(),
    };
    let held = desk.lock(machine.alloc)?;
    let is_marked = mark_and_clear(machine.rt, machine.alloc, &desk)?;
    let printed = write_whole(&mut machine.writer, retired_line(is_marked));
    drop(held);
    drop(sorting);
    print_with(is_marked, printed)
}

/// Returns the line of the command: `done` if the group is retired, `not-now` if a loan is not over.
fn retired_line(is_retired: bool) -> &'static [u8]
    ensures { result.now ≡ retired_line is_retired }
{
    if is_retired { b"done\n" } else { b"not-now\n" }
}

/// Returns `is_success`, the answer of a command, if its line was written. Else it returns the fault of the writing.
fn print_with(is_success: bool, printed: Result<(), ToolFault>) -> Result<bool, ToolFault>
    ensures { result ≡ printed_with is_success printed }
{
    match printed {
        Ok(()) => Ok(is_success),
        Err(fault) => Err(fault),
    }
}

/// Marks the group of the desk at `place` as retired, if all its loans are over, and then removes the desk. Returns
/// true if the group is marked.
fn mark_and_clear<T: Files, D: DeskFiles>(
    rt: &T,
    alloc: Global,
    place: &DeskPlace<'_, D>,
) -> Result<bool, ToolFault>
    ensures marks { IfOk result (MarksGroup (place_of D.DeskStore.state place.now.path.now)) }
    ensures faults { IfErr result IsOpenFault }
{
    let is_marked = mark_group(alloc, place)?;
    if is_marked {
        clear(rt, alloc, place.path)?;
    }
    Ok(is_marked)
}

/// Marks the group of the desk at `place` as retired, if all its loans are over. Returns true if the group is marked,
/// now or before. A group with a mark needs no desk.
#[tactic(auto, using(crate::proofs::RetiringLemmas::marks_now, crate::proofs::RetiringLemmas::marked_before))]
fn mark_group<D: DeskFiles>(alloc: Global, place: &DeskPlace<'_, D>) -> Result<bool, ToolFault>
    ensures marks { IfOk result (MarksGroup (place_of D.DeskStore.state place.now.path.now)) }
    ensures faults { IfErr result IsOpenFault }
{
    let path = retired_path(alloc, place.path)?;
    let mut mark = place.files.store(alloc, path.as_str())?;
    if has_record(alloc, &mut mark)? {
        return Ok(true);
    }
    mark_desk(alloc, place, &mut mark)
}

/// Returns true if `store` has a record.
fn has_record<S: Store>(alloc: Global, store: &mut S) -> Result<bool, ToolFault>
    ensures has { IfOk result (λ has. (S.state store.old).is_correct ≡ true → has ≡ is_some (S.state store.old).committed) }
    ensures path { (S.state store.new).path ≡ (S.state store.old).path }
    ensures faults { IfErr result IsOpenFault }
{
    match store.load(alloc) {
        Ok(found) => Ok(found.is_some()),
        Err(fault) => Err(DeskFault::from(fault).into()),
    }
}

/// Marks the desk at `place` as retired in `mark`, the store of its mark, as `run_desk_retire` does. Returns false if a
/// loan is not over.
fn mark_desk<D: DeskFiles>(
    alloc: Global,
    place: &DeskPlace<'_, D>,
    mark: &mut D::DeskStore,
) -> Result<bool, ToolFault>
    ensures marks { IsAt (mark_place (place_of D.DeskStore.state place.now.path.now)) mark.old →
        IfOk result (MarksDesk (place_of D.DeskStore.state place.now.path.now)) }
    ensures faults { IfErr result IsOpenFault }
{
    let desk = place.open(alloc)?;
    retire_desk(alloc, &desk, mark)
}

/// Marks the group of `desk` as retired in the store `mark`, as `run_desk_retire` does. Returns false if a loan is not
/// over.
#[tactic(auto, using(crate::proofs::RetiringLemmas::retire_faults))]
fn retire_desk<S: Store, C: Store>(
    alloc: Global,
    desk: &Desk<S>,
    mark: &mut C,
) -> Result<bool, ToolFault>
    ensures retires { Retires (sides_held desk.now.live).sides (known (C.state mark.old)) result (known (C.state mark.new)) }
    ensures faults { IfErr result IsOpenFault }
{
    run_desk_retire(alloc, desk, mark)
}

/// Removes the file of a desk and the files beside it, and makes that durable. Message files that were quarantined stay
/// in their folder.
fn clear<T: Files>(rt: &T, alloc: Global, file: &str) -> io::Result<()> {
    for ending in KEPT {
        let kept = format!(in alloc; "{file}{ending}")?;
        remove_if_there(rt, kept.as_str())?;
    }
    let message_file = format!(in alloc; "{file}{MAIL_FOLDER}")?;
    clear_message_file(rt, alloc, message_file.as_str())?;
    remove_if_there(rt, file)?;
    save_mark(rt, alloc, file, load_mark(rt, alloc, file)?)
}

/// Removes the message files that were claimed for a desk, the messages that ask, and their folder. If message files
/// were quarantined, the folder stays, and an empty file of the messages that ask is made durable.
fn clear_message_file<T: Files>(rt: &T, alloc: Global, message_file: &str) -> io::Result<()> {
    let claimed = format!(in alloc; "{message_file}/in")?;
    let asked = format!(in alloc; "{message_file}/asked")?;
    let quarantined = format!(in alloc; "{message_file}/aside")?;
    if is_there(rt, claimed.as_str())? {
        clear_claimed(rt, alloc, claimed.as_str())?;
        let _ = fs::remove_dir(rt, claimed.as_str());
    }
    if is_there(rt, quarantined.as_str())? {
        return save_file(rt, alloc, asked.as_str(), b"");
    }
    remove_if_there(rt, asked.as_str())?;
    let _ = fs::remove_dir(rt, message_file);
    Ok(())
}

/// Removes the message files that were claimed for a desk.
fn clear_claimed<T: Files>(rt: &T, alloc: Global, claimed: &str) -> io::Result<()> {
    for run in names_in(rt, alloc, claimed)? {
        let Some(run) = path_of(alloc, claimed, &run)? else {
            continue;
        };
        clear_run(rt, alloc, run.as_str())?;
        let _ = fs::remove_dir(rt, run.as_str());
    }
    Ok(())
}

/// Removes the message files that a run has claimed.
fn clear_run<T: Files>(rt: &T, alloc: Global, run: &str) -> io::Result<()> {
    for name in names_in(rt, alloc, run)? {
        if let Some(path) = path_of(alloc, run, &name)? {
            remove_if_there(rt, path.as_str())?;
        }
    }
    Ok(())
}
