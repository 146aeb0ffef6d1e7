//! The folder of a desk's message files, beside its file. Only the user of the desk may write there, so nobody else
//! changes a file there.

ghost use Rattle.std.specs.Prelude.{Ok, IfErr};
ghost use Rattle.ill_text.specs.Fault.{IsOpenFault};

use crate::folders::{flush_folders, make_folder, make_new_folder, make_own_folder};
use crate::host_message_files::{HostMessageFiles, error_of};
use crate::reserved::{is_reserved, is_within};
use ill_disk::DiskFault;
use ill_files::durable::{Owner, error_of_store};
use ill_files::paths::{MAIL_FOLDER, folder_of, path_of};
use ill_message_disk::{
    MessageDisk, Paths, Spot, clear, give_message_file_back, quarantine_message_file, write_anew,
};
use ill_saved::{FileStore, RECORD_LIMIT, Store};
use ill_text::fault::ToolFault;
use std::alloc::Global;
use std::io::ErrorKind;
use std::os::unix::fs::MetadataExt;
use std::rt::Files;
use std::{fs, io};

/// The ending of the name of the file with the reason why a message file was quarantined.
const WHY: &str = ".why";

/// The seconds of a month of thirty days.
const MONTH: i64 = 30 * 24 * 60 * 60;

/// Opens the folder of the message files of the desk in `file`. What is made in it belongs to the owner of the file
/// `original`.
pub fn open_box<T: Files>(
    rt: &T,
    alloc: Global,
    file: &str,
    original: &str,
) -> Result<ClaimingFolder, ToolFault>
    ensures { IfErr result IsOpenFault }
{
    Ok(ClaimingFolder::open(rt, alloc, file, original)?)
}

/// The folder of a desk's message files.
#[derive(Drop)]
pub struct ClaimingFolder {
    /// Its path.
    path: String,
    /// The path of the folder of the claimed message files in it.
    claimed: String,
    /// The owner of all that is made in it.
    owner: Owner,
}

/// The file of a desk, the folder from which its message files come, and the folder of its message files.
#[derive(Clone, Copy)]
pub struct MessageFilePaths<'a> {
    /// The path of the desk's file.
    pub file: &'a str,
    /// The path of the folder from which the message files come.
    pub folder: &'a str,
    /// Set if a shelf has sorted the message files of the folder.
    pub is_sorted: bool,
    /// The folder of the desk's message files.
    pub claiming_folder: &'a ClaimingFolder,
}

/// A message file that was claimed.
#[derive(Clone, Copy)]
pub struct ClaimedMessageFile<'a> {
    /// The path of its file.
    pub file: &'a str,
    /// The folder from which it was claimed.
    pub folder: &'a str,
    /// Its name there.
    pub name: &'a [u8],
}

/// The path of a message file that is quarantined, and that of the reason.
#[derive(Clone, Copy)]
struct QuarantinedPaths<'a> {
    message_file: &'a [u8],
    reason: &'a [u8],
}

impl ClaimedMessageFile<'_> {
    /// Returns the paths of the message file and its file. `quarantined` has the paths to which it may be quarantined.
    /// Returns `None` if the file is gone, or the name is no UTF-8.
    fn spot<T: Files>(
        self,
        alloc: Global,
        disk: &mut HostMessageFiles<'_, T>,
        quarantined: QuarantinedPaths<'_>,
    ) -> io::Result<Option<Spot>> {
        let Some(waiting) = path_of(alloc, self.folder, self.name)? else {
            return Ok(None);
        };
        let paths = Paths {
            claimed: self.file.as_bytes(),
            waiting: waiting.as_bytes(),
            quarantined: quarantined.message_file,
            reason: quarantined.reason,
        };
        match disk.find(paths.claimed) {
            Ok(Some(found)) => Ok(Spot::at(alloc, paths, found.file)?),
            Ok(None) => Ok(None),
            Err(fault) => Err(error_of(fault)),
        }
    }
}

/// Returns `moved`, the answer of a move on the disk, with its fault as an error of the host.
fn done(moved: Result<(), DiskFault>) -> io::Result<()> {
    match moved {
        Ok(()) => Ok(()),
        Err(fault) => Err(error_of(fault)),
    }
}

impl ClaimingFolder {
    /// Opens the folder of the message files of the desk in the file `desk`. If it does not exist, it is made for its
    /// owner alone. All that is made in it belongs to the owner of the file `original`.
    pub fn open<T: Files>(
        rt: &T,
        alloc: Global,
        desk: &str,
        original: &str,
    ) -> io::Result<ClaimingFolder> {
        let owner = Owner::of(&fs::symlink_metadata(rt, original)?);
        let path = format!(in alloc; "{desk}{MAIL_FOLDER}")?;
        make_own_folder(rt, path.as_str(), owner)?;
        let claimed = format!(in alloc; "{path}/in")?;
        make_folder(rt, claimed.as_str(), owner)?;
        Ok(ClaimingFolder {
            path,
            claimed,
            owner,
        })
    }

    /// Returns the folder of the message files that were claimed. Each run has a folder of its own in it.
    pub fn claimed(&self) -> &str {
        self.claimed.as_str()
    }

    /// Returns true if `folder` leads to the folder of these message files or into it, or is reserved (`is_reserved`).
    /// No message file may come from there.
    pub fn is_at<T: Files>(&self, rt: &T, alloc: Global, folder: &str) -> io::Result<bool> {
        Ok(
            is_within(rt, alloc, folder, self.path.as_str())?
                || is_reserved(rt, alloc, self.path.as_str(), folder)?,
        )
    }

    /// Makes the folder of a run at `path`, among the claimed message files. If something is at `path`, that is a
    /// fault.
    pub fn make_run<T: Files>(&self, rt: &T, path: &str) -> io::Result<()> {
        make_new_folder(rt, path, self.owner)
    }

    /// Returns the path of the file of the messages that ask.
    pub fn asked(&self, alloc: Global) -> io::Result<String> {
        asked_at(alloc, self.path.as_str())
    }

    /// Quarantines `message_file` under the name `digest`, with the line `why` in another file beside it. A file of its
    /// size beside it has that line already, since equal message files have equal names and reasons.
    pub fn quarantine<T: Files>(
        &self,
        rt: &T,
        message_file: ClaimedMessageFile<'_>,
        digest: &str,
        why: &[u8],
    ) -> io::Result<()> {
        let alloc = *self.path.allocator();
        let folder = format!(in alloc; "{}/aside", self.path)?;
        make_folder(rt, folder.as_str(), self.owner)?;
        let place = format!(in alloc; "{folder}/{digest}")?;
        let reason = format!(in alloc; "{place}{WHY}")?;
        let mut disk = HostMessageFiles::at(rt, alloc, Some(self.owner));
        let quarantined = QuarantinedPaths {
            message_file: place.as_bytes(),
            reason: reason.as_bytes(),
        };
        match message_file.spot(alloc, &mut disk, quarantined)? {
            Some(spot) => {
                done(quarantine_message_file(&mut disk, &spot, why))?;
                end_if_quarantined(&mut disk, &spot)
            }
            None => Ok(()),
        }
    }

    /// Flushes the folders of these message files, so that a crash leaves what was quarantined and what was claimed
    /// into `runs`.
    ///
    /// A folder that has lost a name to another is flushed after that. So the message files that were quarantined come
    /// first.
    pub fn flush<T: Files>(&self, rt: &T, runs: &[String]) -> io::Result<()> {
        let alloc = *self.path.allocator();
        let quarantined = format!(in alloc; "{}/aside", self.path)?;
        flush_folders(rt, &[quarantined.as_str()])?;
        for run in runs {
            flush_folders(rt, &[run.as_str()])?;
        }
        let path = self.path.as_str();
        flush_folders(rt, &[self.claimed(), path, folder_of(path)])
    }

    /// Returns false if it returned true for `name` in the thirty days before the folder `run` was made. Else it makes
    /// the file `told/NAME` anew, whose time says when, and returns true.
    pub fn is_to_print<T: Files>(
        &self,
        rt: &T,
        alloc: Global,
        name: &str,
        run: &str,
    ) -> io::Result<bool> {
        let printed = format!(in alloc; "{}/told", self.path)?;
        make_folder(rt, printed.as_str(), self.owner)?;
        let path = format!(in alloc; "{printed}/{name}")?;
        let now = fs::symlink_metadata(rt, run)?.mtime();
        match fs::symlink_metadata(rt, path.as_str()) {
            Ok(found) if found.mtime() <= now && now < found.mtime().saturating_add(MONTH) => {
                Ok(false)
            }
            Err(error) if error.kind() != ErrorKind::NotFound => Err(error),
            _ => {
                let mut disk = HostMessageFiles::at(rt, alloc, Some(self.owner));
                done(write_anew(&mut disk, path.as_bytes(), b""))?;
                Ok(true)
            }
        }
    }

    /// Keeps `asked`, the messages that ask, in a file. They replace the messages of the night before. If there are
    /// none, the file is removed.
    pub fn keep_asked<T: Files>(&self, rt: &T, alloc: Global, asked: &[u8]) -> io::Result<()> {
        let path = self.asked(alloc)?;
        if asked.is_empty() {
            return remove_if_there(rt, path.as_str());
        }
        let mut store = FileStore::at(rt, alloc, path.as_str(), RECORD_LIMIT)?;
        match store.save(alloc, asked) {
            Ok(()) => {
                self.owner.take(rt, path.as_str());
                Ok(())
            }
            Err(fault) => Err(error_of_store(fault)),
        }
    }
}

/// Returns the path of the file of the messages that ask, in the folder `path` of a desk's message files.
fn asked_at(alloc: Global, path: &str) -> io::Result<String> {
    Ok(format!(in alloc; "{path}/asked")?)
}

/// Returns the messages that ask at the desk in the file `desk`, one after another. There are none without a file of
/// them.
pub fn asked_bytes<T: Files>(rt: &T, alloc: Global, desk: &str) -> io::Result<Vec<u8>> {
    let path = format!(in alloc; "{desk}{MAIL_FOLDER}")?;
    let asked = asked_at(alloc, path.as_str())?;
    let mut store = FileStore::at(rt, alloc, asked.as_str(), RECORD_LIMIT)?;
    match store.load(alloc) {
        Ok(bytes) => Ok(bytes.unwrap_or(Vec::new(alloc))),
        Err(fault) => Err(error_of_store(fault)),
    }
}

/// Removes the file at `path`, if it exists.
pub fn remove_if_there<T: Files>(rt: &T, path: &str) -> io::Result<()> {
    match fs::remove_file(rt, path) {
        Err(error) if error.kind() != ErrorKind::NotFound => Err(error),
        _ => Ok(()),
    }
}

/// The paths of a message file that is given back, and not quarantined: no file has an empty path.
const NOT_QUARANTINED: QuarantinedPaths<'static> = QuarantinedPaths {
    message_file: b"",
    reason: b".why",
};

/// Gives `message_file` back to the folder from which it was claimed. If another message file with its name has come
/// there, it remains claimed, and the next run takes it first.
///
/// That folder is not flushed. Other message files have left it for folders that may not be flushed either. For a
/// moment the message file has two names. It is trusted that a system does not lose the second name alone.
pub fn give_back<T: Files>(
    rt: &T,
    alloc: Global,
    message_file: ClaimedMessageFile<'_>,
) -> io::Result<()> {
    give_back_on(
        &mut HostMessageFiles::unflushed(rt, alloc),
        alloc,
        message_file,
    )
}

/// Removes the claimed name of the message file of `spot`, if its file stands in quarantine too. A crash may have left
/// both names, and then a rename from one to the other does nothing.
fn end_if_quarantined<T: Files>(disk: &mut HostMessageFiles<'_, T>, spot: &Spot) -> io::Result<()> {
    match disk.find(spot.quarantined()) {
        Ok(Some(found)) if found.file == spot.file() => done(clear(disk, spot.claimed())),
        Ok(_) => Ok(()),
        Err(fault) => Err(error_of(fault)),
    }
}

/// Gives `message_file` back on `disk`, if its file is there. The disk decides if the folder is flushed.
fn give_back_on<T: Files>(
    disk: &mut HostMessageFiles<'_, T>,
    alloc: Global,
    message_file: ClaimedMessageFile<'_>,
) -> io::Result<()> {
    match message_file.spot(alloc, disk, NOT_QUARANTINED)? {
        Some(spot) => done(give_message_file_back(disk, &spot)),
        None => Ok(()),
    }
}

/// Gives `message_file` back as `give_back` does, and flushes the folder from which it was claimed before its claimed
/// name goes. All message files that have left that folder are durable elsewhere.
pub fn give_back_durably<T: Files>(
    rt: &T,
    alloc: Global,
    message_file: ClaimedMessageFile<'_>,
) -> io::Result<()> {
    give_back_on(
        &mut HostMessageFiles::at(rt, alloc, None),
        alloc,
        message_file,
    )
}

/// Removes `message_file`, if its file is there.
pub fn remove<T: Files>(
    rt: &T,
    alloc: Global,
    message_file: ClaimedMessageFile<'_>,
) -> io::Result<()> {
    let mut disk = HostMessageFiles::at(rt, alloc, None);
    done(clear(&mut disk, message_file.file.as_bytes()))
}
