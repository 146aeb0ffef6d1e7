//! The last words of retired groups, which their marks have. A partner who missed how a loan ended asks for them each
//! night.

use ill_der::ApduView;
use ill_files::durable::error_of_store;
use ill_files::shelf::retired_path;
use ill_night::retire::words_in;
use ill_saved::{FileStore, RECORD_LIMIT, Store};
use ill_text::input::apdus_in;
use ill_values::Apdu;
use std::alloc::Global;
use std::io;
use std::rt::Files;

/// Returns the bytes of the mark of the group whose desk has the path `desk`. Returns `None` if the group is not
/// retired.
pub fn load_mark<T: Files>(rt: &T, alloc: Global, desk: &str) -> io::Result<Option<Vec<u8>>> {
    let path = retired_path(alloc, desk)?;
    let mut store = FileStore::at(rt, alloc, path.as_str(), RECORD_LIMIT)?;
    match store.load(alloc) {
        Ok(mark) => Ok(mark),
        Err(fault) => Err(error_of_store(fault)),
    }
}

/// The last words in the mark of a retired group.
#[derive(Drop)]
pub struct LastWords {
    /// The path of the desk that the mark has replaced.
    desk: String,
    words: Vec<Apdu>,
}

impl LastWords {
    /// Reads the last words in the mark of the group of `desk`. If the group is not retired, there are none.
    pub fn read<T: Files>(rt: &T, alloc: Global, desk: &str) -> io::Result<LastWords> {
        let words = match load_mark(rt, alloc, desk)? {
            Some(mark) => apdus_in(alloc, words_in(&mark))?,
            None => Vec::new(alloc),
        };
        let desk = String::from_str(alloc, desk)?;
        Ok(LastWords { desk, words })
    }

    /// Returns true if these are the last words of the group of `desk`.
    pub fn is_of(&self, desk: &str) -> bool {
        self.desk.as_str() == desk
    }

    /// Returns the last word of the loan of `message`, if there is one.
    pub fn find(&self, alloc: Global, message: &ApduView<'_>) -> io::Result<Option<Apdu>> {
        for word in &self.words {
            let txn = &word.txn;
            if txn.group() == message.group() && txn.transaction() == message.transaction() {
                return Ok(Some(word.copy(alloc)?));
            }
        }
        Ok(None)
    }
}
