//! The engines of commands that change a desk in a night: inbox and dates. Each saves once, and prints what it did.
//! They run over any store and any stream. No file and no lock is known here.
#![tactic(auto)]

pub mod dates;
pub mod deed_diary;
mod due;
pub mod inbox;
pub mod objects;
pub mod tally;
