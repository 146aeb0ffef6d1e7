//! The bench has a folder for files, on which command lines are performed.

use crate::engines::Simulation;
use crate::texts::print_texts;
use ill_desk_kit::{FileCall, Folder, Program};
use ill_saved::LockFiles;
use ill_session_kit::{Call, Performs, Phrase, engine};
use ill_test_kit::{Page, named};
use ill_tool::run_words;
use std::alloc::Global;

/// A folder for files.
#[derive(Drop)]
pub struct Bench<'a, R: LockFiles> {
    /// The allocator of all values.
    alloc: Global,
    /// The folder for files.
    folder: Folder<'a, R>,
}

/// The program `ill`.
struct Ill;

impl Program for Ill {
    /// Performs a command line on the streams of `call`, and returns its exit status.
    fn run<T: LockFiles>(&self, rt: &T, alloc: Global, words: &[&str], call: &mut Call<'_>) -> u8 {
        run_words(
            rt,
            alloc,
            words,
            &mut call.source,
            &mut call.output,
            &mut call.errors,
        )
    }
}

/// The kind of call that the first word of a line names.
#[derive(Clone, Copy)]
enum Kind {
    /// A command line.
    Ill,
    /// A command line, on files that observe its lock.
    Watched,
    /// The engine of `simulate` or of `simulate-desks`, on streams.
    Engine(Simulation),
    /// A call on a file of the folder.
    File(FileCall),
    /// The faults are printed with their texts.
    Texts,
}

/// The first words of lines, and the calls that they name.
const KINDS: [(&str, Kind); 9] = [
    ("ill", Kind::Ill),
    ("watched", Kind::Watched),
    ("simulate", Kind::Engine(Simulation::Sides)),
    ("simulate-desks", Kind::Engine(Simulation::Desks)),
    ("put", Kind::File(FileCall::Put)),
    ("file", Kind::File(FileCall::Show)),
    ("folder", Kind::File(FileCall::Folder)),
    ("remove", Kind::File(FileCall::Remove)),
    ("texts", Kind::Texts),
];

impl<'a, R: LockFiles> Bench<'a, R> {
    /// Returns a bench that has `folder`.
    pub fn new(alloc: Global, folder: Folder<'a, R>) -> Bench<'a, R> {
        Bench { alloc, folder }
    }

    /// Performs a command line of `ill`, on files that observe its lock if `kind` is `Watched`. Returns None if `kind`
    /// is no command line.
    fn command(&mut self, page: &mut Page, kind: Kind, phrase: Phrase<'_>) -> Option<()> {
        let mut call = Call::of(self.alloc, phrase)?;
        match kind {
            Kind::Ill => self.folder.command(page, &Ill, &mut call),
            Kind::Watched => self.folder.watched_command(page, &Ill, &mut call),
            _ => None,
        }
    }
}

impl<'a, R: LockFiles> Performs for Bench<'a, R> {
    /// Begins a case with an empty folder.
    fn begin(&mut self) -> Option<()> {
        self.folder.clear()
    }

    /// Performs the call that `word` names, on the words of `phrase`. Returns None if `KINDS` has no such word.
    fn perform(&mut self, page: &mut Page, word: &str, phrase: Phrase<'_>) -> Option<()> {
        match named(&KINDS, word)? {
            Kind::File(kind) => self.folder.perform(page, kind, phrase),
            Kind::Engine(called) => engine::perform(self.alloc, page, &called, phrase),
            Kind::Texts => {
                print_texts(page);
                Some(())
            }
            kind => self.command(page, kind, phrase),
        }
    }

    /// Removes the folder.
    fn end(&mut self) -> Option<()> {
        self.folder.remove()
    }
}
