//! Performs command lines of a program on the files of a folder.

use crate::watched::{Rival, Seen, Watched};
use ill_saved::LockFiles;
use ill_session_kit::telling::{begin, print_bytes, print_compared, print_line, print_value};
use ill_session_kit::words::Word;
use ill_session_kit::{Call, Names, Phrase};
use ill_test_kit::{Page, TestWriter, make_folder, named, number_in};
use std::alloc::Global;
use std::env::Env;
use std::io::ErrorKind;
use std::{fs, io};

/// A program that performs command lines.
pub trait Program {
    /// Performs a command line on the streams of `call`, and returns the exit status. The first word is the name of the
    /// program.
    fn run<T: LockFiles>(&self, rt: &T, alloc: Global, words: &[&str], call: &mut Call<'_>) -> u8;
}

/// A folder in the system's folder for temporary files.
#[derive(Drop)]
pub struct Folder<'a, R: LockFiles> {
    /// The system.
    rt: &'a R,
    /// The allocator of all values.
    alloc: Global,
    /// The path of the folder.
    path: String,
}

/// This word replaces the path of the folder in what is printed.
const SHOWN: &str = "FOLDER";

/// A call on a file of the folder.
#[derive(Clone, Copy)]
pub enum FileCall {
    /// Writes a file.
    Put,
    /// Prints the bytes of a file.
    Show,
    /// Makes a folder.
    Folder,
    /// Removes a file.
    Remove,
}

impl<'a, R: LockFiles> Folder<'a, R> {
    /// Makes a new and empty folder. Its path ends with `name`, a full stop and a number.
    pub fn new(rt: &'a R, alloc: Global, name: &str) -> io::Result<Folder<'a, R>>
    where
        R: Env + AllocGlobal,
    {
        let path = make_folder(rt, alloc, name)?;
        Ok(Folder { rt, alloc, path })
    }

    /// Removes all files of the folder. Returns `None` if that fails.
    pub fn clear(&self) -> Option<()> {
        self.remove()?;
        fs::create_dir(self.rt, self.path.as_str()).ok()
    }

    /// Removes the folder with all its files. Returns `None` if that fails.
    pub fn remove(&self) -> Option<()> {
        fs::remove_dir_all(&(self.rt, self.alloc), self.path.as_str()).ok()
    }

    /// Returns the path of the file `name` of the folder, or `None` if memory runs out.
    fn path_of(&self, name: &str) -> Option<String> {
        format!(in self.alloc; "{}/{name}", self.path).ok()
    }

    /// Performs the call `kind` on the file that the first word of `phrase` names. Prints the bytes of the file for
    /// `Show`. Returns `None` if the call fails or the words are no call.
    pub fn perform(&self, page: &mut Page, kind: FileCall, phrase: Phrase<'_>) -> Option<()> {
        let (name, others) = phrase.words.split_first()?;
        let path = self.path_of(name.text.as_str())?;
        let path = path.as_str();
        match kind {
            FileCall::Put => {
                fs::write(self.rt, path, phrase.names.bytes(others)?.as_slice()).ok()
            }
            FileCall::Show => self.show(page, phrase.names, path, others),
            FileCall::Folder => fs::create_dir(self.rt, path).ok(),
            FileCall::Remove => fs::remove_file(self.rt, path).ok(),
        }
    }

    /// Prints the bytes of the file at `path`, as `print_file` does with `words`, or that there is no file. Returns
    /// `None` if the file cannot be read.
    fn show(&self, page: &mut Page, names: &Names, path: &str, words: &[Word]) -> Option<()> {
        match fs::read(&(self.rt, self.alloc), path) {
            Ok(bytes) => print_file(page, names, &bytes, words),
            Err(error) if error.kind() == ErrorKind::NotFound => {
                print_line(page, "=", "no file");
                Some(())
            }
            Err(_) => None,
        }
    }

    /// Performs a command line of `program`, and prints its output. Prints the exit status, too, unless it is 0 and
    /// something was written. Returns `None` if memory runs out.
    pub fn command<P: Program>(
        &self,
        page: &mut Page,
        program: &P,
        call: &mut Call<'_>,
    ) -> Option<()> {
        let line = self.command_line(call.words)?;
        let status = run(program, self.rt, self.alloc, &line, call)?;
        self.hide_path(call);
        call.tell(page);
        if status != 0 || call.has_written_nothing() {
            print_value(page, &status);
        }
        Some(())
    }

    /// Performs a command line of `program`. The first word says what a rival does to the lock, and the others are the
    /// command line. The files observe the record that its second word names. Prints the output, the exit status and
    /// the observations. Returns `None` if the words are no such call.
    pub fn watched_command<P: Program>(
        &self,
        page: &mut Page,
        program: &P,
        call: &mut Call<'_>,
    ) -> Option<()> {
        let (rival, words) = call.words.split_first()?;
        let rival = rival_of(rival.text.as_str())?;
        let line = self.command_line(words)?;
        let record = line.get(2)?.as_str();
        let lock = format!(in self.alloc; "{record}.lck").ok()?;
        let watched = Watched::new(self.rt, record, lock.as_str(), rival);
        let status = run(program, &watched, self.alloc, &line, call)?;
        self.hide_path(call);
        call.print_answer(page, &status);
        print_seen(page, &watched.seen());
        Some(())
    }

    /// Replaces the path of the folder in all that was written, since each run has a new path.
    fn hide_path(&self, call: &mut Call<'_>) {
        self.hide_path_in(&mut call.output);
        self.hide_path_in(&mut call.errors);
    }

    /// Replaces the path of the folder in the bytes that one writer took.
    fn hide_path_in(&self, sink: &mut TestWriter) {
        if let Some(hidden) = self.hidden(&sink.taken) {
            drop(std::mem::replace(&mut sink.taken, hidden));
        }
    }

    /// Returns the text `bytes`, in which `SHOWN` replaces the path of the folder. Returns `None` if `bytes` are no
    /// text or memory runs out.
    fn hidden(&self, bytes: &[u8]) -> Option<Vec<u8>> {
        let text = str::from_utf8(bytes).ok()?;
        let mut hidden = Vec::new(self.alloc);
        let mut before: &[u8] = b"";
        for piece in text.split(self.path.as_str()) {
            hidden.extend_from_slice(before).ok()?;
            hidden.extend_from_slice(piece.as_bytes()).ok()?;
            before = SHOWN.as_bytes();
        }
        Some(hidden)
    }

    /// Returns a command line: the name of the program, and the words with the paths of files. Returns `None` if memory
    /// runs out.
    fn command_line(&self, words: &[Word]) -> Option<Vec<String>> {
        let mut line = Vec::new(self.alloc);
        line.push(String::from_str(self.alloc, "ill").ok()?).ok()?;
        for word in words {
            line.push(self.word(word)?).ok()?;
        }
        Some(line)
    }

    /// Returns the text of a word, or the path of the file that a bare word names after `@`. Returns `None` if memory
    /// runs out.
    fn word(&self, word: &Word) -> Option<String> {
        let text = word.text.as_str();
        match text.strip_prefix('@') {
            Some(name) if !word.is_quoted => self.path_of(name),
            _ => String::from_str(self.alloc, text).ok(),
        }
    }
}

/// The rivals that have a word.
const RIVALS: [(&str, Rival); 3] = [
    ("removed", Rival::Removes),
    ("replaced", Rival::Replaces),
    ("replaced-held", Rival::ReplacesHeld),
];

/// Returns the rival that `word` names. A number is the count of the first tries, at which the rival holds the lock.
fn rival_of(word: &str) -> Option<Rival> {
    match named(&RIVALS, word) {
        Some(rival) => Some(rival),
        None => Some(Rival::Holds(number_in(word)?)),
    }
}

/// Performs a command line of `program`, and returns the exit status, or `None` if memory runs out.
fn run<P: Program, T: LockFiles>(
    program: &P,
    rt: &T,
    alloc: Global,
    line: &[String],
    call: &mut Call<'_>,
) -> Option<u8> {
    let words: Vec<&str> = line.iter().map(|word| word.as_str()).collect(alloc).ok()?;
    Some(program.run(rt, alloc, &words, call))
}

/// Prints the counts of openings and replacements of the record, of those with a free lock, and of pauses.
fn print_seen(page: &mut Page, seen: &Seen) {
    begin(page, "=");
    page.text("opened ");
    page.show_parts(&seen.openings);
    page.text(", replaced ");
    page.show_parts(&seen.replacements);
    page.text(", unlocked ");
    page.show_parts(&seen.unlocked);
    page.text(", pauses ");
    page.show_parts(&seen.pauses);
    page.text("\n");
}

/// Prints the bytes of a file. If `words` are `is BYTES` and the file has exactly these bytes, prints `just these`
/// instead. Returns `None` if BYTES encode none.
fn print_file(page: &mut Page, names: &Names, bytes: &[u8], words: &[Word]) -> Option<()> {
    match words {
        [word, wanted @ ..] if word.is("is") => {
            print_compared(page, names, "=", bytes, &names.bytes(wanted)?);
        }
        _ => print_bytes(page, names, "=", bytes),
    }
    Some(())
}
