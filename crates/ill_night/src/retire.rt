//! The command `retire`: it replaces a desk whose loans are all over by a mark of its group.

ghost use Rattle.std.specs.Prelude.{◌≡◌, ◌++◌, map, option_map, IfOk, OnOk};
ghost use Rattle.std.specs.List.{list_all};
ghost use Rattle.ill_saved.specs.ManySides.{sides_held};
ghost use Rattle.ill_words.specs.Sending.{is_over};
ghost use Rattle.ill_text.specs.Fault.{CountsToolFailure};
ghost use Rattle.ill_text.specs.Known.{known};
ghost use Rattle.ill_night.specs.Retire.{Retires, are_all_over, last_word, last_words, retired_mark, word_bytes};

use ill_der::encode;
use ill_saved::{Desk, DeskFault, Side, Store};
use ill_text::fault::ToolFault;
use ill_values::{Apdu, Number, OutOfMemory};
use ill_words::is_over;
use ill_words::sides::all_of;
use std::alloc::Global;

/// The line at the beginning of the file that marks a retired group.
pub(crate) const MARK: &[u8] = b"retired\n";

/// Marks the group of `desk` as retired in the store `mark`, if all loans of the desk are over. It returns true if they
/// are. The mark has a responder's last message of each loan, which says how the loan ended.
pub fn run_desk_retire<S: Store, C: Store>(
    alloc: Global,
    desk: &Desk<S>,
    mark: &mut C,
) -> Result<bool, ToolFault>
    ensures retires { Retires (sides_held desk.now.live).sides (known (C.state mark.old)) result
        (known (C.state mark.new)) }
    ensures counted { CountsToolFailure result (C.state mark.old).failures (C.state mark.new).failures }
{
    let all = all_of(alloc, desk.sides())?;
    if !are_over(&all) {
        return Ok(false);
    }
    let bytes = mark_of(alloc, &all)?;
    match mark.save(alloc, &bytes) {
        Ok(()) => Ok(true),
        Err(fault) => Err(DeskFault::from(fault).into()),
    }
}

/// Returns true if the loans of `sides` are all over. The contract tests the sides themselves.
fn are_over(sides: &[&Side]) -> bool
    ensures { result ≡ are_all_over (map (λ side. side.now) sides.now) }
{
    are_each_over(sides)
}

/// Returns true if the loans of `sides` are all over. The contract tests the references to the sides.
fn are_each_over(sides: &[&Side]) -> bool
    ensures { result ≡ list_all (λ side. is_over side.now) sides.now }
{
    sides.iter().all(|side| is_over(side))
}

/// Returns the bytes of the mark of a group with the loans of `sides`.
fn mark_of(alloc: Global, sides: &[&Side]) -> Result<Vec<u8>, OutOfMemory>
    ensures { IfOk result (λ mark. mark.items ≡ retired_mark (map (λ side. side.now) sides.now)) }
{
    let mut mark = Vec::from_slice(alloc, MARK)?;
    push_last_words(&mut mark, sides)?;
    Ok(mark)
}

/// Appends the last word of each of `sides`.
fn push_last_words(mark: &mut Vec<u8>, sides: &[&Side]) -> Result<(), OutOfMemory>
    ensures { OnOk result (mark.new.items ≡ mark.old.items ++ last_words (map (λ side. side.now) sides.now)) }
{
    for side in sides {
        push_last_word(mark, side)?;
    }
    Ok(())
}

/// Appends the last word of `side`, if it has one.
fn push_last_word(mark: &mut Vec<u8>, side: &Side) -> Result<(), OutOfMemory>
    ensures { OnOk result (mark.new.items ≡ mark.old.items ++ word_bytes (last_word side.now)) }
{
    if let Some(apdu) = last_word(side) {
        let bytes = encode(*mark.allocator(), apdu)?;
        mark.extend_from_slice(&bytes)?;
    }
    Ok(())
}

/// Returns the last message of `side`, if it is a responder's and has issued one.
fn last_word(side: &Side) -> Option<&Apdu>
    ensures { option_map (λ apdu. apdu.now) result ≡ last_word side.now }
{
    match side {
        Side::Requester(_) => None,
        Side::Responder(responder) => match Number::new(responder.issued_count()) {
            Some(number) => responder.issued(number),
            None => None,
        },
    }
}

/// Returns the last words in the bytes of a mark, one after another. There are none if it is no mark.
pub fn words_in(mark: &[u8]) -> &[u8] {
    mark.strip_prefix(MARK).unwrap_or_default()
}
