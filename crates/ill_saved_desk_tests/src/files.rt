//! Tests desks over files of a folder.

use crate::desk_kind::DeskKind;
use crate::longest;
use crate::restarts::{Damage, Restarts};
use ill_saved::{ManySides, OneSide};
use ill_saved_kit::{FileCall, Folder, Line, Names};
use ill_test_kit::number_in;

/// Performs a call on a file, and writes its answer.
pub fn call(folder: Folder<'_>, line: &mut Line, names: &Names, words: &str) -> Option<()> {
    let call = folder.call(words)?;
    let path = call.path();
    match call.word {
        "desk" => desk::<OneSide>(folder, line, path),
        "desk-many" => desk::<ManySides>(folder, line, path),
        "damaged" => damaged::<OneSide>(folder, line, names, &call),
        "damaged-many" => damaged::<ManySides>(folder, line, names, &call),
        "longest" => longest::write(folder.rt, folder.alloc, line, path),
        "shows" => folder.show(line, path),
        _ => None,
    }
}

/// Performs `desk NAME`: a requester asks and is saved in the file, and a new desk starts from its record. In
/// `desk-many` both desks are of many transactions.
fn desk<H: DeskKind>(folder: Folder<'_>, line: &mut Line, path: &str) -> Option<()> {
    Restarts::new(folder.rt, folder.alloc, path, 1000).write_started::<H>(line)
}

/// Performs `damaged NAME LIMIT DAMAGE`: damages the record of a running desk, and writes its answers. In
/// `damaged-many` the desk is of many transactions.
fn damaged<H: DeskKind>(
    folder: Folder<'_>,
    line: &mut Line,
    names: &Names,
    call: &FileCall<'_>,
) -> Option<()> {
    let (limit, words) = call.words.split_once(' ').unwrap_or((call.words, ""));
    let limit = number_in(limit)?;
    let damage = damage_of(names, words)?;
    let restarts = Restarts::new(folder.rt, folder.alloc, call.path(), limit);
    restarts.write_damaged::<H>(line, &damage)
}

/// Returns the damage that `words` encode.
fn damage_of(names: &Names, words: &str) -> Option<Damage> {
    match words {
        "folder" => Some(Damage::Folder),
        "nothing" => Some(Damage::Nothing),
        bytes => Some(Damage::Bytes(names.bytes(bytes, 0)?)),
    }
}
