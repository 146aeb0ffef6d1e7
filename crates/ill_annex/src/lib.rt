//! The annex of a desk in a file, as it is shown: the notes, the diary, and the messages that came, in files beside
//! it.
#![tactic(auto)]

ghost use Rattle.std.specs.Prelude.{IfErr};
ghost use Rattle.ill_text.specs.Fault.{IsOpenFault};

use ill_beside::annex::Annex;
use ill_beside::file_lines::FileLines;
use ill_beside::keyed_came::KeyedCame;
use ill_beside::keyed_diary::KeyedDiary;
use ill_beside::notes::Notes;
use ill_files::came::came_bytes;
use ill_files::diary::diary_bytes;
use ill_files::notes::notes_bytes;
use ill_files::open::open;
use ill_saved::{Desk, FileStore};
use ill_text::fault::ToolFault;
use std::alloc::Global;
use std::io::Write;
use std::rt::Files;

/// Opens the desk in `file`, and reads the annex beside it. If the diary cannot be read, a line to `errors` says so.
pub fn open_with_annex<'a, T: Files, E: Write>(
    rt: &'a T,
    alloc: Global,
    file: &str,
    errors: &mut E,
) -> Result<(Desk<FileStore<'a, T>>, Annex), ToolFault>
    ensures { IfErr result IsOpenFault }
{
    let annex = read_annex(rt, alloc, file, errors)?;
    let desk = open(rt, alloc, file)?;
    Ok((desk, annex))
}

/// Reads the annex of the desk in `file`: its notes, its diary, and the messages that came. Its news are `None`. If the
/// diary cannot be read, it counts as empty, and a line to `errors` says so.
pub fn read_annex<T: Files, E: Write>(
    rt: &T,
    alloc: Global,
    file: &str,
    errors: &mut E,
) -> Result<Annex, ToolFault>
    ensures { IfErr result IsOpenFault }
{
    let diary = read_diary(rt, alloc, file, errors)?;
    let came = came_bytes(rt, alloc, file)?;
    Ok(Annex {
        notes: read_notes(rt, alloc, file)?,
        diary: KeyedDiary::of(alloc, diary)?,
        came: KeyedCame::read(alloc, &came)?,
        news: None,
    })
}

/// Reads the notes beside the desk in `file`.
pub fn read_notes<T: Files>(rt: &T, alloc: Global, file: &str) -> Result<Notes, ToolFault>
    ensures { IfErr result IsOpenFault }
{
    let bytes = notes_bytes(rt, alloc, file)?;
    Ok(Notes::read(alloc, &bytes)?)
}

/// Reads the diary of the desk in `file`. If it cannot be read, it counts as empty, and a line to `errors` says so.
pub fn read_diary<T: Files, E: Write>(
    rt: &T,
    alloc: Global,
    file: &str,
    errors: &mut E,
) -> Result<FileLines, ToolFault>
    ensures { IfErr result IsOpenFault }
{
    let bytes = diary_bytes(rt, alloc, file, errors)?;
    Ok(FileLines::read(alloc, &bytes)?)
}
