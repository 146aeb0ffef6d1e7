//! The command `new`.

ghost use Rattle.std.specs.Prelude.{◌≡◌, codes, IfOk};
ghost use Rattle.ill_record.specs.RecordsV2.{sides_encoding};
ghost use Rattle.ill_saved.specs.ManySides.{sides_held, no_sides, whole_of};
ghost use Rattle.ill_saved.specs.Desk.{answer_of, store_of};
ghost use Rattle.ill_desk.specs.New.{RunsNew, SavesFirst, BeginsIn};

use ill_saved::{Desk, Role, Store};
use ill_text::fault::ToolFault;
use ill_text::output::write_whole;
use std::alloc::Global;
use std::io::Write;

/// Begins a desk of the role `role` that holds no side, over a store that has no record (else `Exists`). It saves the
/// desk, and writes the line `done`. A fault gives the store back.
///
/// If the writer fails, the record stays saved.
#[tactic(auto, using(crate::proofs::NewLemmas::still_spent, crate::proofs::NewLemmas::begun_over))]
pub fn run_desk_new<S: Store, W: Write>(
    alloc: Global,
    store: S,
    role: Role,
    writer: &mut W,
) -> Result<Desk<S>, (ToolFault, S)>
    ensures runs { RunsNew (codes "done\n") (W.contents writer.old) (W.contents writer.new)
        (answer_of result) }
    ensures begins { IfOk result (λ desk. desk.live ≡ no_sides role) }
    ensures store { BeginsIn (sides_encoding (sides_held (no_sides role))) (S.state store) (answer_of result)
        (S.state (store_of result)) }
{
    match Desk::create(alloc, store, role) {
        Ok(mut desk) => match save_first(alloc, &mut desk, writer) {
            Ok(()) => Ok(desk),
            Err(fault) => Err((fault, desk.close())),
        },
        Err((fault, store)) => Err((fault.into(), store)),
    }
}

/// Saves a desk that was just begun, and writes the line `done`.
fn save_first<S: Store, W: Write>(
    alloc: Global,
    desk: &mut Desk<S>,
    writer: &mut W,
) -> Result<(), ToolFault>
    ensures runs { RunsNew (codes "done\n") (W.contents writer.old) (W.contents writer.new) result }
    ensures live { IfOk result (λ _. desk.new.live ≡ whole_of (sides_held desk.old.live)) }
    ensures store { SavesFirst (sides_encoding (sides_held desk.old.live)) (S.state desk.old.store) result
        (S.state desk.new.store) }
{
    match desk.save(alloc) {
        Ok(()) => write_whole(writer, b"done\n"),
        Err(fault) => Err(fault.into()),
    }
}
