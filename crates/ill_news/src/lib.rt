//! The news of the loans of a desk, over a desk that is read. No file and no lock is known here.
#![tactic(auto)]

pub mod came_since;
mod deeds;
pub mod laws;
pub mod news;
mod open_answers;
mod printed;
