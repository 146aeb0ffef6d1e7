//! The message files of a run: it claims some from a folder, and earlier runs have left others. Whoever brings message
//! files may put anything into the folder at any moment.
//!
//! A run claims a message file by a rename into the folder of the desk's message files, where nobody else may write. It
//! looks at the message file only there, and reads it once. It gives back anything that is no regular file. If the
//! folder of message files may have folders in it, the run looks at each entry before the claim. So it moves no folder,
//! except one that was put there at that moment.
//!
//! With a key, the message files of a run are the messages in sealed letters. A file that is no letter gives no bytes.

ghost use Rattle.std.specs.Prelude.{◌≡◌, IfErr};
ghost use Rattle.ill_night.specs.MessageFiles.{is_line_end, without_line_end};
ghost use Rattle.ill_text.specs.Fault.{IsOpenFault};

use crate::claiming_folder::{ClaimedMessageFile, ClaimingFolder, MessageFilePaths, give_back};
use ill_der::{APDU_LIMIT, view};
use ill_files::paths::{joined, path_of, raw_names};
use ill_files::shelf::is_for_desk;
use ill_key::letter::LETTER_LIMIT;
use ill_key::{Key, Sender};
use ill_night::message::message_in;
use ill_night::verdict::{InLetter, MessageFile, is_record};
use ill_room::letters::messages_in;
use ill_saved::Role;
use ill_text::diary::Stamp;
use ill_text::fault::ToolFault;
use ill_values::OutOfMemory;
use sha2::{Digest, Sha256};
use std::alloc::Global;
use std::fs::Metadata;
use std::io::{ErrorKind, Read};
use std::os::unix::fs::MetadataExt;
use std::rt::Files;
use std::{fs, io};

/// The greatest number of message files in one run. Further ones wait for the next run.
const MESSAGE_FILES: usize = 10_000;

/// The number of names that are tried for the folder of a run, if other runs take them.
const TRIES: u32 = 100;

/// The greatest number of bytes in a line end.
const LINE_END: usize = 2;

/// The greatest number of bytes read from a message file: one more than a message and a line end have.
const MOST: usize = APDU_LIMIT + LINE_END + 1;

/// The message files of a run.
#[derive(Drop)]
pub struct MessageFiles {
    /// The message files that were read. Those without a message come first, and then the others in the order of their
    /// loans. The message files of a loan have the order of their numbers.
    pub message_files: Vec<MessageFile>,
    /// The path of the file of each message file, in the order of `message_files`. A message file that could not be
    /// claimed has none.
    pub files: Vec<Option<String>>,
    /// The number of further message files, which wait for the next run.
    pub waiting: usize,
    /// The folders of the runs that have claimed message files. The folder of this run is the last.
    pub runs: Vec<String>,
    /// The number of letters among the files.
    letters: usize,
}

/// The key and the sender of the letters that come.
#[derive(Clone, Copy)]
pub struct Opening<'k> {
    /// The key, which the other library holds too.
    pub key: &'k Key,
    /// The other library, which has sealed them.
    pub sender: Sender,
}

/// The folder from which message files come, and how they are opened.
#[derive(Clone, Copy)]
pub struct Source<'a> {
    /// The path of the folder.
    pub folder: &'a str,
    /// The key and the sender of the letters, if sealed letters alone are taken.
    pub opening: Option<Opening<'a>>,
}

impl MessageFiles {
    /// Returns true if a run has no room for a further message file.
    fn is_full(&self) -> bool {
        self.message_files.len() >= MESSAGE_FILES
    }

    /// Adds `message_file`, with the path of its file.
    fn add(&mut self, message_file: MessageFile, file: Option<String>) -> io::Result<()> {
        self.message_files.push(message_file)?;
        self.files.push(file)?;
        Ok(())
    }

    /// Adds the messages of the letter in `file`, whose first bytes are `bytes`. Each message is a message file of its
    /// own, with the `name` of the letter. If `opening` opens no letter there, the file is one message file without
    /// bytes. The record of a desk, which came by mistake, is one message file with its first bytes.
    fn add_letter(
        &mut self,
        opening: Opening<'_>,
        name: Vec<u8>,
        bytes: &[u8],
        file: String,
    ) -> io::Result<()> {
        let alloc = *name.allocator();
        if is_record(bytes) {
            let bytes = Vec::from_slice(alloc, &bytes[..bytes.len().min(MOST)])?;
            return self.add(whole_message_file(name, Some(bytes)), Some(file));
        }
        let opened = if bytes.len() > LETTER_LIMIT {
            None
        } else {
            messages_in(alloc, opening.key, opening.sender, bytes)?
        };
        let letter = InLetter {
            number: self.letters,
            digest: Sha256::digest(bytes),
            is_sealed: opened.is_some(),
        };
        self.letters = self.letters.saturating_add(1);
        match opened {
            Some(messages) => self.add_messages(&name, messages, file.as_str(), letter),
            None => self.add_part(&name, None, file.as_str(), letter),
        }
    }

    /// Adds `messages`, which are those of `letter`, each as a message file. A letter without messages is one message
    /// file with empty bytes.
    fn add_messages(
        &mut self,
        name: &[u8],
        messages: Vec<Vec<u8>>,
        file: &str,
        letter: InLetter,
    ) -> io::Result<()> {
        if messages.is_empty() {
            let nothing = Vec::new(*messages.allocator());
            return self.add_part(name, Some(nothing), file, letter);
        }
        for message in messages {
            self.add_part(name, Some(message), file, letter)?;
        }
        Ok(())
    }

    /// Adds a message file of `letter` with one message, `bytes`. It has no bytes if the letter was not opened.
    fn add_part(
        &mut self,
        name: &[u8],
        bytes: Option<Vec<u8>>,
        file: &str,
        letter: InLetter,
    ) -> io::Result<()> {
        let alloc = *self.message_files.allocator();
        let message_file = MessageFile {
            name: Vec::from_slice(alloc, name)?,
            bytes,
            letter: Some(letter),
        };
        self.add(message_file, Some(String::from_str(alloc, file)?))
    }

    /// Puts the message files into the order of their loans and numbers. Message files without a message come first.
    fn by_loan(self) -> io::Result<MessageFiles> {
        let MessageFiles {
            message_files,
            files,
            waiting,
            runs,
            letters,
        } = self;
        let alloc = *message_files.allocator();
        let mut placed = Vec::new(alloc);
        for (message_file, file) in message_files.into_iter().zip(files) {
            let place = place_of(alloc, &message_file)?;
            placed.push(Placed {
                place,
                message_file,
                file,
            })?;
        }
        placed.sort_by(|one, other| one.place.cmp(&other.place))?;
        let mut ordered = MessageFiles {
            message_files: Vec::new(alloc),
            files: Vec::new(alloc),
            waiting,
            runs,
            letters,
        };
        for placed in placed {
            ordered.message_files.push(placed.message_file)?;
            ordered.files.push(placed.file)?;
        }
        Ok(ordered)
    }

    /// Adds the message file `name`, which cannot be claimed, without bytes and without a file. If the run is full, it
    /// counts it as waiting.
    fn add_or_count(&mut self, name: Vec<u8>) -> io::Result<()> {
        if self.is_full() {
            self.waiting = self.waiting.saturating_add(1);
            return Ok(());
        }
        self.add(whole_message_file(name, None), None)
    }

    /// Adds the claimed message file in `file`, or gives it back to its folder if it is no regular file.
    fn add_claimed<T: Files>(
        &mut self,
        rt: &T,
        source: Source<'_>,
        name: Vec<u8>,
        file: String,
    ) -> io::Result<()> {
        let alloc = *name.allocator();
        let read = match lookup(rt, file.as_str()) {
            Ok(None) => return give_back_other(rt, alloc, source, &name, file.as_str()),
            Ok(Some(found)) if source.opening.is_none() => {
                first_bytes(rt, alloc, file.as_str(), found.len())
            }
            Ok(Some(_)) => letter_bytes(rt, alloc, file.as_str()),
            Err(error) => Err(error),
        };
        match (bytes_if_read(read)?, source.opening) {
            (Some(bytes), Some(opening)) => self.add_letter(opening, name, &bytes, file),
            (bytes, _) => self.add(whole_message_file(name, bytes), Some(file)),
        }
    }
}

/// Returns the message file that is all of a file.
fn whole_message_file(name: Vec<u8>, bytes: Option<Vec<u8>>) -> MessageFile {
    MessageFile {
        name,
        bytes,
        letter: None,
    }
}

/// Returns the first bytes of the file at `path`, at most one more than the longest letter has.
fn letter_bytes<T: Files>(rt: &T, alloc: Global, path: &str) -> io::Result<Vec<u8>> {
    let mut bytes = Vec::new(alloc);
    fs::open(rt, path)?
        .take(LETTER_LIMIT as u64 + 1)
        .read_to_end(&mut bytes)?;
    Ok(bytes)
}

/// A message file, the path of its file, and its place in the order of the message files of a run.
#[derive(Drop)]
struct Placed {
    place: Vec<u8>,
    message_file: MessageFile,
    file: Option<String>,
}

/// Returns the place of a message file in the order of the message files of a run: the group, the transaction and the
/// number of its message, with a zero after each qualifier. It is empty for a message file without a message.
fn place_of(alloc: Global, message_file: &MessageFile) -> Result<Vec<u8>, OutOfMemory> {
    let mut place = Vec::new(alloc);
    let Some(bytes) = &message_file.bytes else {
        return Ok(place);
    };
    if let Ok(message) = message_in(bytes) {
        place.extend_from_slice(message.group())?;
        place.push(0)?;
        place.extend_from_slice(message.transaction())?;
        place.push(0)?;
        place.push(message.number().get())?;
    }
    Ok(place)
}

/// The folder from which the message files of a desk come.
#[derive(Clone, Copy)]
pub struct Incoming<'a, 'b, 'c> {
    /// Its path.
    pub folder: &'a str,
    /// Set if a shelf sorts the folder. The message files of the desk were then claimed for it before.
    pub is_sorted: bool,
    /// The stamp of the lines of the diary, if a day is given.
    pub stamp: &'b Option<Stamp<'c>>,
    /// The key of the letters, if sealed letters alone are taken. A shelf has opened them, and gives none.
    pub key: Option<&'a Key>,
}

/// Makes the folder of a run, as `new_run` does, and returns its path. An error is the fault of a command.
pub fn begin_run<T: Files>(
    rt: &T,
    alloc: Global,
    claiming_folder: &ClaimingFolder,
) -> Result<String, ToolFault>
    ensures { IfErr result IsOpenFault }
{
    Ok(new_run(rt, alloc, claiming_folder)?)
}

/// Reads the message files that earlier runs have claimed. Then it claims the message files of `source` into the folder
/// `run`, and reads these.
pub fn claim_message_files<T: Files>(
    rt: &T,
    alloc: Global,
    claiming_folder: &ClaimingFolder,
    source: Source<'_>,
    run: &str,
) -> Result<MessageFiles, ToolFault>
    ensures { IfErr result IsOpenFault }
{
    Ok(all_message_files(rt, alloc, claiming_folder, source, Some(run))?)
}

/// Reads the message files that a shelf has sorted from the folder of `place` to the desk there, a desk of `role`. A
/// carrier that opened a message file before the claim may still write to it. If its message is then for another desk,
/// the bytes of the message file are hidden.
pub fn sorted_message_files<T: Files>(
    rt: &T,
    alloc: Global,
    place: &MessageFilePaths<'_>,
    role: Role,
) -> Result<MessageFiles, ToolFault>
    ensures { IfErr result IsOpenFault }
{
    let source = Source {
        folder: place.folder,
        opening: None,
    };
    let mut message_files = all_message_files(rt, alloc, place.claiming_folder, source, None)?;
    hide_others(alloc, place.file, role, &mut message_files)?;
    Ok(message_files)
}

/// Hides the bytes of the message files whose message is not for the desk in `file`.
fn hide_others(
    alloc: Global,
    file: &str,
    role: Role,
    message_files: &mut MessageFiles,
) -> Result<(), OutOfMemory> {
    for message_file in &mut message_files.message_files {
        if !may_be_own(alloc, file, role, message_file)? {
            message_file.bytes = None;
        }
    }
    Ok(())
}

/// Returns true if the desk of `role` in `file` may take `message_file`. The message file has no message, or one for
/// this desk.
fn may_be_own(
    alloc: Global,
    file: &str,
    role: Role,
    message_file: &MessageFile,
) -> Result<bool, OutOfMemory> {
    let Some(bytes) = &message_file.bytes else {
        return Ok(true);
    };
    match message_in(bytes) {
        Ok(message) => is_for_desk(alloc, file, role, &message),
        Err(_) => Ok(true),
    }
}

/// Reads the message files of a desk, as many as one run takes. First come the message files that earlier runs have
/// claimed. Then it claims message files from `source` into the folder `run`, if there is one.
fn all_message_files<T: Files>(
    rt: &T,
    alloc: Global,
    claiming_folder: &ClaimingFolder,
    source: Source<'_>,
    run: Option<&str>,
) -> io::Result<MessageFiles> {
    let mut message_files = MessageFiles {
        message_files: Vec::new(alloc),
        files: Vec::new(alloc),
        waiting: 0,
        runs: Vec::new(alloc),
        letters: 0,
    };
    for earlier in names_in(rt, alloc, claiming_folder.claimed())? {
        add_run(
            rt,
            claiming_folder.claimed(),
            &earlier,
            source,
            &mut message_files,
        )?;
    }
    if let Some(run) = run {
        claim_from(rt, claiming_folder, source, run, &mut message_files)?;
    }
    message_files.by_loan()
}

/// Claims the message files of `source` into the folder `run`, up to the room of a run, and reads them.
fn claim_from<T: Files>(
    rt: &T,
    claiming_folder: &ClaimingFolder,
    source: Source<'_>,
    run: &str,
    message_files: &mut MessageFiles,
) -> io::Result<()> {
    let alloc = *message_files.message_files.allocator();
    if claiming_folder.is_at(rt, alloc, source.folder)? {
        return Err(ErrorKind::InvalidInput.into());
    }
    let claiming = Claiming {
        source,
        run,
        looks_first: may_have_folders(rt, source.folder)?,
    };
    for name in names_in(rt, alloc, source.folder)? {
        add_message_file(rt, &claiming, name, message_files)?;
    }
    Ok(())
}

/// A folder of message files, and the folder of the run that claims them.
#[derive(Clone, Copy)]
struct Claiming<'a> {
    source: Source<'a>,
    run: &'a str,
    /// Set if each entry of the folder is looked at before it is claimed.
    looks_first: bool,
}

/// Returns true if `folder` may have folders in it. If a system counts the links of a folder, one without folders has
/// two.
fn may_have_folders<T: Files>(rt: &T, folder: &str) -> io::Result<bool> {
    Ok(fs::metadata(rt, folder)?.nlink() != 2)
}

/// Makes the folder of a run among the claimed message files, and returns its path. Its number is greater than the
/// number of each folder there. The folder is new, so no other run has it.
pub fn new_run<T: Files>(
    rt: &T,
    alloc: Global,
    claiming_folder: &ClaimingFolder,
) -> io::Result<String> {
    let mut last = 0;
    for run in names_in(rt, alloc, claiming_folder.claimed())? {
        last = number_of(&run).unwrap_or_default().max(last);
    }
    for number in last.saturating_add(1)..=last.saturating_add(TRIES) {
        let run = format!(in alloc; "{}/{number:010}", claiming_folder.claimed())?;
        match claiming_folder.make_run(rt, run.as_str()) {
            Ok(()) => return Ok(run),
            Err(error) if error.kind() == ErrorKind::AlreadyExists => {}
            Err(error) => return Err(error),
        }
    }
    Err(ErrorKind::AlreadyExists.into())
}

/// Returns the names in `folder` that do not begin with a dot, in the order of their bytes.
pub fn names_in<T: Files>(rt: &T, alloc: Global, folder: &str) -> io::Result<Vec<Vec<u8>>> {
    let mut names = raw_names(rt, alloc, folder)?;
    names.retain(|name| !name.starts_with(b"."));
    names.sort()?;
    Ok(names)
}

/// Adds the message files that an earlier run has claimed into its folder `run`. If `run` is no folder, it adds none.
fn add_run<T: Files>(
    rt: &T,
    claimed: &str,
    run: &[u8],
    source: Source<'_>,
    message_files: &mut MessageFiles,
) -> io::Result<()> {
    let alloc = *message_files.message_files.allocator();
    let Some(number) = number_of(run) else {
        return Ok(());
    };
    let run = format!(in alloc; "{claimed}/{number:010}")?;
    if !is_folder(rt, run.as_str()) {
        return Ok(());
    }
    for name in names_in(rt, alloc, run.as_str())? {
        add_again(rt, source, run.as_str(), name, message_files)?;
    }
    message_files.runs.push(run)?;
    Ok(())
}

/// Returns true if there is a folder at `path`.
fn is_folder<T: Files>(rt: &T, path: &str) -> bool {
    match fs::symlink_metadata(rt, path) {
        Ok(found) => found.is_dir(),
        Err(_) => false,
    }
}

/// Returns the number of a run, which is the name of its folder. Returns `None` if the name is no number.
fn number_of(run: &[u8]) -> Option<u32> {
    str::from_utf8(run).ok()?.parse::<u32>().ok()
}

/// Adds a message file in the folder `run` of an earlier run, or counts it if this run is full.
fn add_again<T: Files>(
    rt: &T,
    source: Source<'_>,
    run: &str,
    name: Vec<u8>,
    message_files: &mut MessageFiles,
) -> io::Result<()> {
    if message_files.is_full() {
        message_files.waiting = message_files.waiting.saturating_add(1);
        return Ok(());
    }
    match path_of(*name.allocator(), run, &name)? {
        Some(file) => message_files.add_claimed(rt, source, name, file),
        None => Ok(()),
    }
}

/// Claims the entry `name` of the folder and adds it, if it is a regular file. If the run is full, it counts it as
/// waiting.
fn add_message_file<T: Files>(
    rt: &T,
    claiming: &Claiming<'_>,
    name: Vec<u8>,
    message_files: &mut MessageFiles,
) -> io::Result<()> {
    let alloc = *name.allocator();
    let Some(path) = path_of(alloc, claiming.source.folder, &name)? else {
        return message_files.add_or_count(as_text(alloc, &name)?);
    };
    if !claiming.looks_first && !message_files.is_full() {
        return add_claimed(rt, path.as_str(), claiming, name, message_files);
    }
    match lookup(rt, path.as_str()) {
        Ok(None) => Ok(()),
        Ok(Some(_)) if !message_files.is_full() => add_claimed(
            rt,
            path.as_str(),
            claiming,
            name,
            message_files,
        ),
        Err(error) if error.kind() == ErrorKind::OutOfMemory => Err(error),
        _ => message_files.add_or_count(name),
    }
}

/// Claims the message file at `path`, and adds it. A message file that cannot be claimed is added unread.
fn add_claimed<T: Files>(
    rt: &T,
    path: &str,
    claiming: &Claiming<'_>,
    name: Vec<u8>,
    message_files: &mut MessageFiles,
) -> io::Result<()> {
    match claim(rt, *name.allocator(), path, claiming.run, &name) {
        Ok(file) => message_files.add_claimed(rt, claiming.source, name, file),
        Err(error) if error.kind() == ErrorKind::OutOfMemory => Err(error),
        Err(_) => match lookup(rt, path) {
            Ok(None) => Ok(()),
            _ => message_files.add_or_count(name),
        },
    }
}

/// Returns the text for a name that is not UTF-8. An escape such as `\x9b` replaces each byte beyond ASCII.
fn as_text(alloc: Global, name: &[u8]) -> io::Result<Vec<u8>> {
    let mut text = String::new(alloc);
    for byte in name {
        if byte.is_ascii() {
            text.push(char::from(*byte))?;
        } else {
            write!(text, "\\x{byte:02x}")?;
        }
    }
    Ok(text.into_bytes())
}

/// Renames the file at `path` into the folder `run`, and returns its path there. It replaces no file, since names in
/// one folder differ.
fn claim<T: Files>(
    rt: &T,
    alloc: Global,
    path: &str,
    run: &str,
    name: &[u8],
) -> io::Result<String> {
    let file = joined(alloc, run, str::from_utf8(name).unwrap_or_default())?;
    fs::rename(rt, path, file.as_str())?;
    Ok(file)
}

/// Returns the metadata of the regular file at `path`. Returns `None` if anything else or nothing is there.
fn lookup<T: Files>(rt: &T, path: &str) -> io::Result<Option<Metadata>> {
    match fs::symlink_metadata(rt, path) {
        Ok(found) if found.is_file() => Ok(Some(found)),
        Ok(_) => Ok(None),
        Err(error) if error.kind() == ErrorKind::NotFound => Ok(None),
        Err(error) => Err(error),
    }
}

/// Returns the bytes of a claimed message file, or none if it could not be read. Only a lack of memory is a failure.
fn bytes_if_read(read: io::Result<Vec<u8>>) -> io::Result<Option<Vec<u8>>> {
    match read {
        Ok(bytes) => Ok(Some(bytes)),
        Err(error) if error.kind() == ErrorKind::OutOfMemory => Err(error),
        Err(_) => Ok(None),
    }
}

/// Gives back what was claimed into `file` and is no regular file. Only a lack of memory is a failure. If another call
/// fails, `file` remains among the claimed message files, for the next run.
fn give_back_other<T: Files>(
    rt: &T,
    alloc: Global,
    source: Source<'_>,
    name: &[u8],
    file: &str,
) -> io::Result<()> {
    let claimed = ClaimedMessageFile {
        file,
        folder: source.folder,
        name,
    };
    match give_back(rt, alloc, claimed) {
        Err(error) if error.kind() == ErrorKind::OutOfMemory => Err(error),
        _ => Ok(()),
    }
}

/// Returns the first bytes of the file at `path`, without a line end after a message. If the file still has the size
/// `size`, one call reads them.
fn first_bytes<T: Files>(rt: &T, alloc: Global, path: &str, size: u64) -> io::Result<Vec<u8>> {
    let mut file = fs::open(rt, path)?;
    let mut first = [0; MOST];
    let count = file.read(&mut first)?;
    let mut bytes = Vec::from_slice(alloc, &first[..count])?;
    if count as u64 != size {
        file.take(MOST.saturating_sub(count) as u64)
            .read_to_end(&mut bytes)?;
    }
    bytes.truncate(without_line_end(&bytes).len());
    Ok(bytes)
}

/// Returns the message at the start of `bytes`, if only a line end follows it. Else it returns `bytes`.
fn without_line_end(bytes: &[u8]) -> &[u8]
    ensures { result.now ≡ without_line_end bytes.now }
{
    match view(bytes) {
        Ok((_, size)) => {
            if is_line_end(&bytes[size..]) {
                &bytes[..size]
            } else {
                bytes
            }
        }
        Err(_) => bytes,
    }
}

/// Returns true if `bytes` are a line end: a line feed, perhaps after a carriage return.
fn is_line_end(bytes: &[u8]) -> bool
    ensures { result ≡ is_line_end bytes.now }
{
    bytes == b"\n".as_slice() || bytes == b"\r\n".as_slice()
}
