//! The state and the news of a loan in words, its notes, its diary, and the messages that came. No file and no lock is
//! known here.
#![tactic(auto)]

pub mod annex;
pub mod diary;
pub mod file_lines;
pub mod heard;
pub mod kept;
pub mod keyed_came;
pub mod keyed_diary;
pub mod laws;
pub mod news_words;
pub mod notes;
mod places;
pub mod since;
pub mod state_words;
