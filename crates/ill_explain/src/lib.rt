//! The lines that `--explain` adds after the line of a fault.
//!
//! They are found after the command has ended, from its words and from the file at the path. No program may depend on
//! these texts. Faults in finding them are ignored.
#![tactic(auto)]

mod action;
mod arguments;
mod day;
mod file;
mod input;
mod key;
mod reasons;
mod refused;
mod shelf;
mod shown;
mod verbs;

pub use input::{Passed, Watched};
pub use reasons::{explain, is_asked};
