//! Lists of loans, over a desk that is read. No file and no lock is known here.
#![tactic(auto)]

mod counts;
pub mod laws;
pub mod list;
mod list_objects;
mod listed_news;
mod morning;
mod row;
pub mod wanted;
