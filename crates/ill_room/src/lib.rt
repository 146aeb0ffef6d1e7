//! The rooms of a night's message files: what a run does with the message files that it has claimed, with the copy of
//! its desk and with its sign of life. A room is a trait. No file is known here.
#![tactic(auto)]

pub mod backup;
pub mod laws;
pub mod letters;
pub mod memory_room;
pub mod room;
pub mod sealed;
pub mod settle;
