//! The lines about a fault of a desk's file.

use crate::shown::Shown;
use clap::ArgMatches;
use ill_files::folder::desk_paths;
use ill_files::open::open;
use ill_files::paths::{BESIDE, CAME, NOTES, folder_of};
use ill_line::command_line::Argument;
use ill_saved::{DeskFault, LockFiles, RECORD_LIMIT, RecordFault, StoreFault};
use ill_values::OutOfMemory;
use std::alloc::Global;
use std::fs;
use std::fs::Metadata;
use std::io::ErrorKind;

/// The ending of the name of the file that is locked instead of a desk's.
const LOCK: &str = ".lck";

/// The number of bytes at the beginning of each record, which give its version.
const MARK: u32 = 4;

/// Appends the cause of `fault`, a fault of a desk. The desk is the first one at the command's PATHs that cannot be
/// opened, or else its FILE. Without both it appends that a name is no UTF-8.
pub fn explain_desk_fault<T: LockFiles>(
    rt: &T,
    alloc: Global,
    text: &mut String,
    matches: &ArgMatches<'_>,
    fault: DeskFault,
) -> Result<(), OutOfMemory> {
    let failed = failed_path(rt, alloc, matches);
    let path = match &failed {
        Some(path) => Some(path.as_str()),
        None => matches.get_str(Argument::File.id()),
    };
    match path {
        Some(path) => explain_fault_at(rt, text, path, has_message_files(matches), fault),
        None => writeln!(
            text,
            "  A line before has a name that is no UTF-8: no file of that name is opened."
        ),
    }
}

/// Appends the cause of `fault`, a fault of the desk in the file at `path`. `has_message_files` is true if the command
/// has a folder of message files. Appends nothing for a fault whose own line says enough.
pub fn explain_fault_at<T: LockFiles>(
    rt: &T,
    text: &mut String,
    path: &str,
    has_message_files: bool,
    fault: DeskFault,
) -> Result<(), OutOfMemory> {
    let alloc = *text.allocator();
    let shown = Shown::of(path);
    match fault {
        DeskFault::Exists => writeln!(
            text,
            "  {shown} is there already: a new desk wants a new file."
        ),
        DeskFault::NoRecord => explain_absent(rt, text, path),
        DeskFault::Store(StoreFault::Failed)
            if has_message_files
                && !is_at_work(rt, alloc, path)
                && can_be_opened(rt, alloc, path) => { explain_printed_before(text, path) }
        DeskFault::Store(StoreFault::Failed) => explain_failed(rt, alloc, text, path),
        DeskFault::Store(StoreFault::TooLarge) => explain_too_large(rt, alloc, text, path),
        DeskFault::Saved(fault) => explain_no_record(text, path, fault),
        DeskFault::NoSuchTransaction => {
            writeln!(
                text,
                "  {shown} has no such loan: `ill status` shows those that it has."
            )
        }
        DeskFault::NoSuchMessage => {
            writeln!(
                text,
                "  `ill status` shows how many messages the loan has issued."
            )
        }
        _ => Ok(()),
    }
}

/// Appends that a line before tells what failed, or that the desk in the file at `path` is not saved.
fn explain_printed_before(text: &mut String, path: &str) -> Result<(), OutOfMemory> {
    let shown = Shown::of(path);
    writeln!(
        text,
        "  The line before names the file or folder. If there is none, {shown} is not saved: look at"
    )?;
    writeln!(
        text,
        "  the permissions of its folder, and at the room on the disk."
    )
}

/// Returns true if a command has a folder of message files. Such a command itself names a folder that fails.
fn has_message_files(matches: &ArgMatches<'_>) -> bool {
    matches.get_str(Argument::Folder.id()).is_some() || matches.get_str(Argument::In.id()).is_some()
}

/// Returns true if another command is working on the file at `path`.
fn is_at_work<T: LockFiles>(rt: &T, alloc: Global, path: &str) -> bool {
    match format!(in alloc; "{path}{LOCK}") {
        Ok(lock) => is_held(rt, lock.as_str()),
        Err(_) => false,
    }
}

/// Returns true if the desk in the file at `path` can be opened.
fn can_be_opened<T: LockFiles>(rt: &T, alloc: Global, path: &str) -> bool {
    open(rt, alloc, path).is_ok()
}

/// Returns the first path of a command that fails. It is a desk that cannot be opened, or a folder that cannot be read.
fn failed_path<T: LockFiles>(rt: &T, alloc: Global, matches: &ArgMatches<'_>) -> Option<String> {
    for path in matches.get_strs(Argument::Paths.id())? {
        if let Some(failed) = failed_at(rt, alloc, path) {
            return Some(failed);
        }
    }
    None
}

/// Returns the path of the first desk at `path` that cannot be opened, or `path` if it is a folder that cannot be read.
fn failed_at<T: LockFiles>(rt: &T, alloc: Global, path: &str) -> Option<String> {
    let found = desk_paths(rt, alloc, &[path]).ok()?;
    found
        .files
        .into_iter()
        .find(|file| open(rt, alloc, file.as_str()).is_err())
}

/// Appends the file that has too many bytes: the file of the desk, of the messages that came, or of the notes.
fn explain_too_large<T: LockFiles>(
    rt: &T,
    alloc: Global,
    text: &mut String,
    path: &str,
) -> Result<(), OutOfMemory> {
    for ending in [CAME, NOTES] {
        let kept = format!(in alloc; "{path}{ending}")?;
        if is_too_large(rt, kept.as_str()) {
            let shown = Shown::of(kept.as_str());
            return writeln!(text, "  {shown} has grown too long: put it away.");
        }
    }
    let shown = Shown::of(path);
    writeln!(text, "  {shown} has more bytes than the record of a desk.")
}

/// Returns true if the file at `path` has more bytes than the record of a desk may have.
fn is_too_large<T: LockFiles>(rt: &T, path: &str) -> bool {
    match fs::symlink_metadata(rt, path) {
        Ok(found) => found.len() > u64::from(RECORD_LIMIT),
        Err(_) => false,
    }
}

/// Appends that there is no file at `path`. If its folder does not exist, it appends that too.
fn explain_absent<T: LockFiles>(rt: &T, text: &mut String, path: &str) -> Result<(), OutOfMemory> {
    let shown = Shown::of(path);
    writeln!(text, "  {shown} is not there: `ill new` begins a desk.")?;
    explain_no_folder(rt, text, path)?;
    Ok(())
}

/// If the folder of the file at `path` does not exist, appends that and returns true. Else it returns false.
fn explain_no_folder<T: LockFiles>(
    rt: &T,
    text: &mut String,
    path: &str,
) -> Result<bool, OutOfMemory> {
    let folder = folder_of(path);
    let shown = Shown::of(folder);
    let is_folder = match fs::metadata(rt, folder) {
        Ok(found) => found.is_dir(),
        Err(_) => false,
    };
    if !is_folder {
        writeln!(text, "  There is no folder {shown}.")?;
    }
    Ok(!is_folder)
}

/// Appends the reason why the file at `path` was not read, locked or written.
fn explain_failed<T: LockFiles>(
    rt: &T,
    alloc: Global,
    text: &mut String,
    path: &str,
) -> Result<(), OutOfMemory> {
    let shown = Shown::of(path);
    if path.is_empty() {
        return writeln!(text, "  The name of the file is empty.");
    }
    if explain_reserved(text, path)? {
        return Ok(());
    }
    match fs::symlink_metadata(rt, path) {
        Ok(found) if !found.is_file() => explain_kind(rt, text, path, &found),
        Ok(_) => explain_closed(rt, alloc, text, path),
        Err(error) => explain_not_found(rt, alloc, text, path, error.kind()),
    }
}

/// If `path` ends as the files beside a desk do, appends that and returns true. Else it returns false.
pub fn explain_reserved(text: &mut String, path: &str) -> Result<bool, OutOfMemory> {
    let shown = Shown::of(path);
    for ending in &BESIDE {
        if path.ends_with(*ending) {
            writeln!(
                text,
                "  {shown} ends in {ending}: such files are the program's own."
            )?;
            return Ok(true);
        }
    }
    Ok(false)
}

/// Appends the kind of thing that is at `path` instead of a file. `found` is the system's answer about it.
fn explain_kind<T: LockFiles>(
    rt: &T,
    text: &mut String,
    path: &str,
    found: &Metadata,
) -> Result<(), OutOfMemory> {
    let shown = Shown::of(path);
    if found.is_dir() && rt.open_dir(path).is_err() {
        return writeln!(text, "  {shown} is a folder that this user may not read.");
    }
    if found.is_dir() {
        return writeln!(text, "  {shown} is a folder, and a desk is a file.");
    }
    if found.is_symlink() {
        return writeln!(
            text,
            "  {shown} is a link: name the file to which it leads."
        );
    }
    writeln!(text, "  {shown} is no regular file.")
}

/// Appends the reason why the regular file at `path` was not read or saved. If it can be opened now, `explain_unsaved`
/// finds the reason.
fn explain_closed<T: LockFiles>(
    rt: &T,
    alloc: Global,
    text: &mut String,
    path: &str,
) -> Result<(), OutOfMemory> {
    let shown = Shown::of(path);
    match fs::open(rt, path) {
        Err(error) if error.kind() == ErrorKind::PermissionDenied => {
            writeln!(text, "  {shown} may not be read by this user.")
        }
        Err(_) => writeln!(text, "  {shown} cannot be opened."),
        Ok(_) => explain_unsaved(rt, alloc, text, path),
    }
}

/// Appends the reason why no file was found at `path`: the system's error was of this `kind`. If the folder is there
/// and may be entered, `explain_unsaved` finds the reason.
fn explain_not_found<T: LockFiles>(
    rt: &T,
    alloc: Global,
    text: &mut String,
    path: &str,
    kind: ErrorKind,
) -> Result<(), OutOfMemory> {
    let shown = Shown::of(path);
    if kind == ErrorKind::PermissionDenied {
        return writeln!(
            text,
            "  {shown} is in a folder that this user may not enter."
        );
    }
    if explain_no_folder(rt, text, path)? {
        return Ok(());
    }
    explain_unsaved(rt, alloc, text, path)
}

/// Appends that another command holds the file at `path`. If none does, it appends that the file, or one beside it,
/// cannot be read or written.
fn explain_unsaved<T: LockFiles>(
    rt: &T,
    alloc: Global,
    text: &mut String,
    path: &str,
) -> Result<(), OutOfMemory> {
    let shown = Shown::of(path);
    let lock = format!(in alloc; "{path}{LOCK}")?;
    if is_held(rt, lock.as_str()) {
        return writeln!(
            text,
            "  Another command is at work on {shown}: try again later."
        );
    }
    let folder = Shown::of(folder_of(path));
    writeln!(
        text,
        "  {shown} in the folder {folder} cannot be read to its end, or not be written."
    )?;
    writeln!(
        text,
        "  Look at the permissions of both, and at the room on the disk."
    )?;
    let came = format!(in alloc; "{path}{CAME}")?;
    explain_kept(rt, text, came.as_str(), ", or has more than messages")?;
    let notes = format!(in alloc; "{path}{NOTES}")?;
    explain_kept(rt, text, notes.as_str(), "")
}

/// Appends that the file at `kept` may be the cause, if it exists. `more` is the end of the sentence, or empty.
fn explain_kept<T: LockFiles>(
    rt: &T,
    text: &mut String,
    kept: &str,
    more: &str,
) -> Result<(), OutOfMemory> {
    if fs::symlink_metadata(rt, kept).is_err() {
        return Ok(());
    }
    let shown = Shown::of(kept);
    writeln!(text, "  Or {shown} cannot be read or written{more}.")
}

/// Returns true if another command holds the lock at the path `lock`.
fn is_held<T: LockFiles>(rt: &T, lock: &str) -> bool {
    if !is_file(rt, lock) {
        return false;
    }
    match fs::open(rt, lock) {
        Ok(file) => !rt.try_lock(&file).unwrap_or(true),
        Err(_) => false,
    }
}

/// Returns true if there is a regular file at `path`. To open a pipe would be to wait on it.
fn is_file<T: LockFiles>(rt: &T, path: &str) -> bool {
    match fs::symlink_metadata(rt, path) {
        Ok(found) => found.is_file(),
        Err(_) => false,
    }
}

/// Appends the reason `fault` why the bytes of the file at `path` are no record.
fn explain_no_record(text: &mut String, path: &str, fault: RecordFault) -> Result<(), OutOfMemory> {
    let shown = Shown::of(path);
    writeln!(text, "  {shown} holds no record of a desk.")?;
    match fault {
        RecordFault::Short => writeln!(text, "  It ends within a record."),
        RecordFault::Bad(at) if at < MARK => writeln!(
            text,
            "  It does not begin as a desk does: is it the right file?"
        ),
        RecordFault::Bad(at) => writeln!(text, "  Its byte {at}, counted from 0, is wrong."),
        RecordFault::Inconsistent => writeln!(text, "  No desk can have what it says."),
        RecordFault::Digest => writeln!(
            text,
            "  It was damaged: its digest is not that of its bytes."
        ),
        RecordFault::OutOfMemory => Ok(()),
    }
}
