//! What the operator says: the words of the script that runs the program.

use ill_days::read_day;
use ill_values::{Day, OutOfMemory};
use std::alloc::Global;

/// What the operator says of all requests.
#[derive(Drop)]
pub struct Operator<'a> {
    /// The origin of the pages, as browsers see it.
    pub origin: &'a str,
    /// The day.
    pub today: Day,
    /// Set if a form is taken though nobody is named who sent it.
    pub is_open: bool,
    /// The paths of desks and of folders of desks.
    pub paths: Vec<&'a str>,
}

/// The options that were read so far.
#[derive(Drop)]
struct Options<'a> {
    origin: Option<&'a str>,
    today: Option<Day>,
    is_open: bool,
}

impl<'a> Operator<'a> {
    /// Reads the words of a command line, the program's name first. Returns `None` if they lack an origin, a day or a
    /// path, or the day is none.
    pub fn read(alloc: Global, words: &[&'a str]) -> Result<Option<Operator<'a>>, OutOfMemory> {
        let mut options = Options {
            origin: None,
            today: None,
            is_open: false,
        };
        let Some(paths) = options.take(words.get(1..).unwrap_or(&[])) else {
            return Ok(None);
        };
        let (Some(origin), Some(today), false) = (options.origin, options.today, paths.is_empty())
        else {
            return Ok(None);
        };
        Ok(Some(Operator {
            origin,
            today,
            is_open: options.is_open,
            paths: Vec::from_slice(alloc, paths)?,
        }))
    }
}

impl<'a> Options<'a> {
    /// Takes the options at the front of `words`, and returns the words after them. Returns `None` if the word after
    /// `--today` is no day.
    fn take<'b>(&mut self, words: &'b [&'a str]) -> Option<&'b [&'a str]> {
        match words {
            ["--open", rest @ ..] => {
                self.is_open = true;
                self.take(rest)
            }
            ["--origin", origin, rest @ ..] => {
                self.origin = Some(origin);
                self.take(rest)
            }
            ["--today", day, rest @ ..] => {
                self.today = Some(read_day(day.as_bytes()).ok()?);
                self.take(rest)
            }
            rest => Some(rest),
        }
    }
}
