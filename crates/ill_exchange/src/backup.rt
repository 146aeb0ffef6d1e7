//! The files that a night writes beside its message files: the copy of each desk, and a sign of life.

ghost use Rattle.std.specs.Prelude.{◌≡◌, IfErr};
ghost use Rattle.ill_exchange.specs.HostBackup.{host_backup};
ghost use Rattle.ill_text.specs.Fault.{IsFileFault};

use crate::sending::SentAll;
use ill_files::durable::Owner;
use ill_files::machine::Machine;
use ill_files::paths::is_there;
use ill_night::copy::{Copied, run_desk_copy_over};
use ill_night::night::Night;
use ill_room::backup::Backup;
use ill_saved::{Desk, FileStore, RECORD_LIMIT, Store};
use ill_text::fault::{STORE_FAILED, ToolFault};
use ill_text::warning::warn;
use ill_values::OutOfMemory;
use std::alloc::Global;
use std::fs::OpenOptions;
use std::io::{ErrorKind, Write};
use std::path::Path;
use std::rt::Files;
use std::{fs, io};

/// The text after the path of a copy that cannot be written.
const NO_COPY: &str = " is not written, so nothing is sent";

/// The text after the path of a copy that the desk does not extend.
const HAS_MORE: &str = " holds what this desk has not: nothing is sent";

/// The text after the path of a copy, if something else than a record is there.
const NO_RECORD: &str = " is no record of a desk, and is not replaced: nothing is sent";

/// The text after the path of a sign of life that cannot be written.
const NO_HEARTBEAT: &str = " is not made anew";

/// The copy of a desk in a file, and a sign of life.
///
/// No contract says what a file of the host's has, so it is not correct.
#[derive(Drop)]
pub(crate) struct HostBackup<'r, 'a, T: Files> {
    rt: &'r T,
    alloc: Global,
    /// The path of the desk's file.
    file: &'a str,
    night: &'a Night<'a>,
}

impl<'r, 'a, T: Files> HostBackup<'r, 'a, T> {
    /// Returns the copy and the sign of life that `night` wants of the desk in `file`.
    pub(crate) fn at(
        rt: &'r T,
        alloc: Global,
        file: &'a str,
        night: &'a Night<'a>,
    ) -> HostBackup<'r, 'a, T> {
        HostBackup {
            rt,
            alloc,
            file,
            night,
        }
    }
}

impl<'r, 'a, T: Files> Backup for HostBackup<'r, 'a, T> {
    ghost state = { λ backup. host_backup };

    fn copy<S: Store, E: Write>(
        &mut self,
        desk: &Desk<S>,
        errors: &mut E,
    ) -> Result<(), ToolFault> {
        let Some(path) = copy_path(self.alloc, self.file, self.night)? else {
            return Ok(());
        };
        let path = path.as_str();
        let is_new = matches!(is_there(self.rt, path), Ok(false));
        let copied = copy_to(self.rt, self.alloc, path, desk);
        if is_new {
            give_to_owner(self.rt, path, self.file);
        }
        print_copied(self.alloc, path, copied, errors)
    }

    fn sign<E: Write>(&mut self, errors: &mut E) -> Result<(), ToolFault> {
        match self.night.heartbeat {
            Some(path) => sign_at(self.rt, self.alloc, path, self.file, errors),
            None => Ok(()),
        }
    }
}

/// Succeeds if the copy to `path` was made. Else nothing may be sent, and a line to `errors` tells the reason. If
/// memory ran out, there is no line.
fn print_copied<E: Write>(
    alloc: Global,
    path: &str,
    copied: Result<Copied, ToolFault>,
    errors: &mut E,
) -> Result<(), ToolFault>
    ensures { IfErr result IsFileFault }
{
    let text = match copied {
        Ok(Copied::Done) => return Ok(()),
        Ok(Copied::HasMore) => HAS_MORE,
        Ok(Copied::NoRecord) => NO_RECORD,
        Err(ToolFault::OutOfMemory) => return Err(ToolFault::OutOfMemory),
        Err(_) => NO_COPY,
    };
    warn(alloc, path.as_bytes(), text, errors);
    Err(STORE_FAILED)
}

/// Copies `desk` to the file at `path`. The result also says if that file has more than the desk, or is no record.
fn copy_to<T: Files, S: Store>(
    rt: &T,
    alloc: Global,
    path: &str,
    desk: &Desk<S>,
) -> Result<Copied, ToolFault>
    ensures { IfErr result IsFileFault }
{
    let mut copy = FileStore::at(rt, alloc, path, RECORD_LIMIT)?;
    run_desk_copy_over(alloc, desk, &mut copy)
}

/// Returns the path of the copy of the desk in `file`, if `night` wants one.
fn copy_path(alloc: Global, file: &str, night: &Night<'_>) -> Result<Option<String>, OutOfMemory> {
    let Some(copy) = night.copy else {
        return Ok(None);
    };
    if !night.is_on_shelf {
        return Ok(Some(String::from_str(alloc, copy)?));
    }
    let name = Path::new(file).file_name().unwrap_or(file);
    Ok(Some(format!(in alloc; "{copy}/{name}")?))
}

/// Gives the file at `path` the owner of the file `desk`, if the system allows it.
fn give_to_owner<T: Files>(rt: &T, path: &str, desk: &str) {
    if let Ok(found) = fs::symlink_metadata(rt, desk) {
        Owner::of(&found).take(rt, path);
    }
}

/// Writes the file at `path` anew, if there is a path. `_sent` shows that the run has sent all. The file then has the
/// time of the run, and the owner of the file `desk`.
pub fn heartbeat<T: Files, W: Write, E: Write>(
    machine: &mut Machine<'_, T, W, E>,
    path: Option<&str>,
    desk: &str,
    _sent: SentAll,
) -> Result<(), ToolFault>
    ensures faults { IfErr result IsFileFault }
    ensures silent { machine.new.writer ≡ machine.old.writer }
{
    match path {
        Some(path) => sign_at(machine.rt, machine.alloc, path, desk, &mut machine.errors),
        None => Ok(()),
    }
}

/// Writes the file at `path` anew, as the owner of the file `desk`. If that fails, a line to `errors` tells it.
fn sign_at<T: Files, E: Write>(
    rt: &T,
    alloc: Global,
    path: &str,
    desk: &str,
    errors: &mut E,
) -> Result<(), ToolFault>
    ensures { IfErr result IsFileFault }
{
    match make_anew(rt, path) {
        Ok(()) => {
            give_to_owner(rt, path, desk);
            Ok(())
        }
        Err(_) => {
            warn(alloc, path.as_bytes(), NO_HEARTBEAT, errors);
            Err(STORE_FAILED)
        }
    }
}

/// Writes a file at `path` that has only the end of a line. It replaces a regular file of at most one byte. It fails if
/// anything else is there.
fn make_anew<T: Files>(rt: &T, path: &str) -> io::Result<()> {
    match fs::symlink_metadata(rt, path) {
        Ok(found) if found.is_file() && found.len() <= 1 => fs::remove_file(rt, path)?,
        Ok(_) => return Err(ErrorKind::AlreadyExists.into()),
        Err(error) if error.kind() == ErrorKind::NotFound => {}
        Err(error) => return Err(error),
    }
    let mut options = OpenOptions::new();
    options.write(true);
    options.create_new(true);
    options.open(rt, path)?.write_all(b"\n")
}
