//! Reads the calls on files of the folder of a test program, and looks at a file.

use crate::line::Line;
use std::alloc::Global;
use std::fs;
use std::fs::Metadata;
use std::io::ErrorKind;
use std::rt::Files;

/// The folder of the files of a test program.
#[derive(Clone, Copy)]
pub struct Folder<'a> {
    /// The files of the system.
    pub rt: &'a HostRuntime,
    /// The allocator of all values.
    pub alloc: Global,
    /// The path of the folder.
    path: &'a str,
}

/// A call on a file.
#[derive(Drop)]
pub struct FileCall<'a> {
    /// The word that names the call.
    pub word: &'a str,
    /// The path of the file.
    path: String,
    /// The words after the name of the file.
    pub words: &'a str,
}

impl FileCall<'_> {
    /// Returns the path of the file.
    pub fn path(&self) -> &str {
        self.path.as_str()
    }
}

impl<'a> Folder<'a> {
    /// Returns the folder at `path`.
    pub fn new(rt: &'a HostRuntime, alloc: Global, path: &'a str) -> Folder<'a> {
        Folder { rt, alloc, path }
    }

    /// Returns the call that `words` encode: its word, the name of a file, and other words. Returns `None` if memory
    /// runs out.
    pub fn call<'w>(&self, words: &'w str) -> Option<FileCall<'w>> {
        let (word, words) = words.split_once(' ').unwrap_or((words, ""));
        let (name, words) = words.split_once(' ').unwrap_or((words, ""));
        let path = self.path_of(name)?;
        Some(FileCall { word, path, words })
    }

    /// Returns the path of the file `name`. A name that begins with `/` is a path itself.
    fn path_of(&self, name: &str) -> Option<String> {
        if name.starts_with('/') {
            return String::from_str(self.alloc, name).ok();
        }
        format!(in self.alloc; "{}/{name}", self.path).ok()
    }

    /// Performs `shows NAME`: tells what the path names, without following a link. Returns `None` if the file cannot be
    /// read.
    pub fn show(&self, line: &mut Line, path: &str) -> Option<()> {
        match self.rt.symlink_metadata(path) {
            Ok(found) => self.show_found(line, path, &found),
            Err(error) => write_absent(line, error.kind()),
        }
    }

    /// Writes the kind of a file, and the bytes of an ordinary one. Returns `None` if these cannot be read.
    fn show_found(&self, line: &mut Line, path: &str, found: &Metadata) -> Option<()> {
        if found.is_symlink() {
            line.text("a link");
        } else if found.is_dir() {
            line.text("a folder");
        } else {
            line.text("a file of ");
            line.octets(&fs::read(&(self.rt, self.alloc), path).ok()?);
        }
        Some(())
    }
}

/// Writes `nothing` if the fault is that the path names no file. Returns `None` for any other fault.
fn write_absent(line: &mut Line, fault: ErrorKind) -> Option<()> {
    if fault != ErrorKind::NotFound {
        return None;
    }
    line.text("nothing");
    Some(())
}
