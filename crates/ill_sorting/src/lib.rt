//! The message files that come to a shelf: letters are opened, and each file is sorted to the desk of its
//! group.
#![tactic(auto)]

pub mod last_words;
pub mod opened;
pub mod sorting;
