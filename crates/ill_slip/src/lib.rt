//! The slip of a loan: a page to print and to lay in the item. No file and no lock is known here.
#![tactic(auto)]

mod code128;
pub mod laws;
pub mod slip;
mod slip_parts;
