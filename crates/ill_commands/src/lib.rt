//! The commands on the desk at a place: the desk is locked, opened, and shown or changed.
#![tactic(auto)]

pub mod commands;
pub mod late_diary;
pub mod laws;
pub mod letters;
pub mod note;
