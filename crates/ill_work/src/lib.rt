//! Defines the kinds of work: what staff do next with a loan on a day, and how soon.
//!
//! `Work::of` gives the work with one side, and `Work::on` also without a day. `most_pressing_first` puts the loans of
//! a desk in the order of their work. `count` counts the loans with one kind of work.
#![tactic(auto)]

mod dates;
pub mod laws;
mod order;
mod table;
mod work;

pub use order::{count, most_pressing_first};
pub use work::Work;
