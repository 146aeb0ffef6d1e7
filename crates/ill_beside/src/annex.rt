//! The annex of a desk: the notes of staff, the diary, the messages that came, and the news that are told.

ghost use Rattle.std.specs.Prelude.{◌≡◌};

use crate::keyed_came::KeyedCame;
use crate::keyed_diary::KeyedDiary;
use crate::notes::Notes;
use std::alloc::Global;

/// The annex of a desk, as it was read.
#[derive(Drop)]
pub struct Annex {
    /// The notes of staff.
    pub notes: Notes,
    /// The diary.
    pub diary: KeyedDiary,
    /// The messages that came.
    pub came: KeyedCame,
    /// Those of the messages that came that are told as news. `None` if no news are told.
    pub news: Option<KeyedCame>,
}

impl Annex {
    /// Returns the annex that has `notes` alone: an empty diary, no messages that came, and no news.
    pub fn of_notes(alloc: Global, notes: Notes) -> Annex
        ensures { result.notes ≡ notes }
    {
        Annex {
            notes,
            diary: KeyedDiary::none(alloc),
            came: KeyedCame::none(alloc),
            news: None,
        }
    }
}
