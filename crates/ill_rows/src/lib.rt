//! The parts that the texts of many loans share: the heading of a desk, cells, and the words that are sought. No file
//! and no lock is known here.
#![tactic(auto)]

pub mod cells;
pub mod finding;
pub mod listed;
pub mod soon;
