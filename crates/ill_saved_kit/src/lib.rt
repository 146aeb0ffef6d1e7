//! The test programs of saved records and of desks share this kit. It reads a transcript, performs its lines and
//! writes their answers. It writes sides, their records and faults, and calls a store in memory.
#![tactic(auto)]

mod again;
mod coding;
mod files;
mod line;
mod longest;
mod names;
mod records;
mod runs;
mod session;
mod sides;
mod stores;
mod tries;
mod words;

pub use again::{all_written_and_read, written_and_read};
pub use coding::{all_decoded, all_encoded, decoded, encoded};
pub use files::{FileCall, Folder};
pub use line::Line;
pub use longest::longest_side;
pub use names::Names;
pub use records::{write_day, write_head, write_side};
pub use session::{CaseWords, Cases, Session};
pub use sides::{numbered, role_of, split_txn, write_count_and_role, write_sides};
pub use stores::{StoreBench, is_as_seen, seen};
pub use tries::Tries;
pub use words::{store_words, write_loaded, write_record_fault, write_saved};
