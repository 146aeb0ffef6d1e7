//! The file that keeps the diary of a desk. It lies beside the desk's file, and has a line a message. A command goes on
//! without it if it fails.

ghost use Rattle.std.specs.Prelude.{IfErr};
ghost use Rattle.ill_text.specs.Fault.{IsOpenFault};

use crate::kept::{Kept, KeptFile, kept_bytes, open_kept};
use ill_text::diary::{CameDiary, Entry};
use ill_text::fault::ToolFault;
use ill_text::warning::warn;
use ill_values::OutOfMemory;
use std::alloc::Global;
use std::fs::OpenFile;
use std::io;
use std::io::{ErrorKind, Write};
use std::rt::Files;

/// The text that follows the path of a desk whose diary fails.
const FAILED: &str = ".diary cannot be read or written";

/// The text that follows the path of a desk whose diary ended within a line.
const TORN: &str = ".diary ended within a line, which is cut off";

/// The open file of a diary. Without a file, bytes that are written go nowhere.
#[derive(Drop)]
pub struct DiaryFile<F> {
    file: Option<KeptFile<F>>,
}

impl<F> DiaryFile<F> {
    /// Returns a diary without a file.
    pub fn none() -> DiaryFile<F> {
        DiaryFile { file: None }
    }

    /// Returns true if there is a file.
    fn is_open(&self) -> bool {
        self.file.is_some()
    }
}

impl<F: Write + OpenFile> Write for DiaryFile<F> {
    fn write(&mut self, bytes: &[u8]) -> io::Result<usize> {
        match &mut self.file {
            Some(file) => file.write(bytes),
            None => Ok(bytes.len()),
        }
    }

    fn flush(&mut self) -> io::Result<()> {
        match &mut self.file {
            Some(file) => file.flush(),
            None => Ok(()),
        }
    }
}

/// Opens the diary beside the file of `desk` for the messages that come. Their lines begin with `begin`. If that is
/// empty, the file is not opened.
pub fn open_came_diary<T: Files, E: Write>(
    rt: &T,
    alloc: Global,
    desk: &str,
    begin: Result<Vec<u8>, OutOfMemory>,
    errors: &mut E,
) -> CameDiary<DiaryFile<T::File>> {
    let begin = text_or_warn(alloc, desk, begin, errors);
    let file = open_for(rt, alloc, desk, &begin, errors);
    CameDiary::new(begin, file)
}

/// The diary of a run: the file for the lines of the messages that come, and the text for further lines.
#[derive(Drop)]
pub struct RunDiary<F> {
    /// The diary of the messages that come.
    pub came: CameDiary<DiaryFile<F>>,
    /// The text with which the line of an action of the run itself begins. It is empty if no such line may be entered.
    pub begin: Vec<u8>,
}

/// Opens the diary beside the file of `desk` for a run. Its lines begin with `begin`. If that is empty, the file is not
/// opened. Without a file, the text for further lines is empty.
pub fn open_run_diary<T: Files, E: Write>(
    rt: &T,
    alloc: Global,
    desk: &str,
    begin: Result<Vec<u8>, OutOfMemory>,
    errors: &mut E,
) -> RunDiary<T::File> {
    let begin = text_or_warn(alloc, desk, begin, errors);
    let file = open_for(rt, alloc, desk, &begin, errors);
    let further = if file.is_open() {
        text_or_warn(alloc, desk, copy_of(alloc, &begin), errors)
    } else {
        Vec::new(alloc)
    };
    RunDiary {
        came: CameDiary::new(begin, file),
        begin: further,
    }
}

/// Returns a copy of `text`.
fn copy_of(alloc: Global, text: &[u8]) -> Result<Vec<u8>, OutOfMemory> {
    Ok(Vec::from_slice(alloc, text)?)
}

/// The diary beside the file of a desk. It is opened for each text that is written, which is durable then.
#[derive(Drop)]
pub struct ReopenedDiary<'r, 'a, T> {
    rt: &'r T,
    alloc: Global,
    /// The path of the desk's file.
    desk: &'a str,
}

impl<'r, 'a, T> ReopenedDiary<'r, 'a, T> {
    /// Returns the diary beside the file of `desk`.
    pub fn beside(rt: &'r T, alloc: Global, desk: &'a str) -> ReopenedDiary<'r, 'a, T> {
        ReopenedDiary { rt, alloc, desk }
    }
}

impl<T: Files> Write for ReopenedDiary<'_, '_, T> {
    fn write(&mut self, bytes: &[u8]) -> io::Result<usize> {
        match open_kept(self.rt, self.alloc, self.desk, Kept::Diary) {
            Ok(mut file) => {
                file.write_all(bytes)?;
                file.flush()?;
                Ok(bytes.len())
            }
            Err(_) => Err(io::Error::from(ErrorKind::Other)),
        }
    }

    fn flush(&mut self) -> io::Result<()> {
        Ok(())
    }
}

/// Opens the diary beside the file of `desk` for `line`. If that is empty, the file is not opened.
pub fn open_entry<T: Files, E: Write>(
    rt: &T,
    alloc: Global,
    desk: &str,
    line: Result<Vec<u8>, OutOfMemory>,
    errors: &mut E,
) -> Entry<DiaryFile<T::File>> {
    let line = text_or_warn(alloc, desk, line, errors);
    let file = open_for(rt, alloc, desk, &line, errors);
    Entry::new(line, file)
}

/// Returns `text`, which is for the diary of `desk`. If there was no memory for it, this writes a line to the errors,
/// and returns an empty text.
fn text_or_warn<E: Write>(
    alloc: Global,
    desk: &str,
    text: Result<Vec<u8>, OutOfMemory>,
    errors: &mut E,
) -> Vec<u8> {
    match text {
        Ok(text) => text,
        Err(_) => {
            warn(alloc, desk.as_bytes(), FAILED, errors);
            Vec::new(alloc)
        }
    }
}

/// Opens the diary beside the file of `desk`. If `text` is empty, there is nothing to enter, and the diary has no file.
fn open_for<T: Files, E: Write>(
    rt: &T,
    alloc: Global,
    desk: &str,
    text: &[u8],
    errors: &mut E,
) -> DiaryFile<T::File> {
    if text.is_empty() {
        DiaryFile::none()
    } else {
        open_diary(rt, alloc, desk, errors)
    }
}

/// Opens the diary beside the file of `desk`, as `open_kept` does. If that fails, it writes a line to the errors, and
/// returns a diary without a file. If the file ended within a line, the part is cut off, and a line says so.
fn open_diary<T: Files, E: Write>(
    rt: &T,
    alloc: Global,
    desk: &str,
    errors: &mut E,
) -> DiaryFile<T::File> {
    match open_kept(rt, alloc, desk, Kept::Diary) {
        Ok(file) => {
            if file.torn() > 0 {
                warn(alloc, desk.as_bytes(), TORN, errors);
            }
            DiaryFile { file: Some(file) }
        }
        Err(_) => {
            warn(alloc, desk.as_bytes(), FAILED, errors);
            DiaryFile::none()
        }
    }
}

/// Writes a line to the errors if the diary beside the file of `desk` `has_failed`.
pub fn warn_of_diary<E: Write>(alloc: Global, desk: &str, has_failed: bool, errors: &mut E) {
    if has_failed {
        warn(alloc, desk.as_bytes(), FAILED, errors);
    }
}

/// Returns the bytes of the diary beside the file of `desk`. There are none without a file. If it cannot be read, a
/// line to the errors says so, and there are none either.
pub fn diary_bytes<T: Files, E: Write>(
    rt: &T,
    alloc: Global,
    desk: &str,
    errors: &mut E,
) -> Result<Vec<u8>, ToolFault>
    ensures { IfErr result IsOpenFault }
{
    match kept_bytes(rt, alloc, desk, Kept::Diary) {
        Ok(bytes) => Ok(bytes),
        Err(ToolFault::OutOfMemory) => Err(ToolFault::OutOfMemory),
        Err(_) => {
            warn(alloc, desk.as_bytes(), FAILED, errors);
            Ok(Vec::new(alloc))
        }
    }
}
