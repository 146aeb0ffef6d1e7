//! The marks of a side: what its status tells beside its state.

ghost use Rattle.std.specs.Prelude.{◌≡◌, ◌++◌, map, IfOk, OnOk};
ghost use Rattle.ill_show.specs.Status.{marks_of, mark};

use ill_saved::Side;
use ill_values::OutOfMemory;
use std::alloc::Global;

/// Returns the marks that `side` has.
pub(crate) fn marks<'a>(alloc: Global, side: &Side) -> Result<Vec<&'a str>, OutOfMemory>
    ensures { IfOk result (λ marks. map (λ mark. mark.now) marks.items ≡ marks_of side.now) }
{
    let mut marks = Vec::new(alloc);
    match side {
        Side::Requester(requester) => {
            push_mark(&mut marks, requester.is_received(), "received")?;
            push_mark(&mut marks, requester.is_checked_in(), "checked-in")?;
            push_mark(&mut marks, requester.is_declined(), "declined")?;
        }
        Side::Responder(responder) => {
            push_mark(&mut marks, responder.is_received(), "received")?;
        }
    }
    Ok(marks)
}

/// Appends the mark `word`, if `holds` is true.
fn push_mark<'a>(marks: &mut Vec<&'a str>, holds: bool, word: &'a str) -> Result<(), OutOfMemory>
    ensures { OnOk result (map (λ mark. mark.now) marks.new.items
        ≡ map (λ mark. mark.now) marks.old.items ++ mark holds word.now) }
{
    if holds {
        marks.push(word)?;
    }
    Ok(())
}
