//! The commands on all desks of a shelf: message files are sorted, desks are made, visited and retired.
#![tactic(auto)]

pub mod keyed;
mod last_words;
pub mod laws;
pub mod on_shelf;
pub mod retiring;
pub mod take_home;
mod visit;
