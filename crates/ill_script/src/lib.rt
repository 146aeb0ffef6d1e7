//! Performs a script line by line, whatever its lines say. Lines are read ahead in pieces, a performer performs each,
//! and the text that it shows is written.
#![tactic(auto)]

pub mod ahead;
mod fault;
pub mod laws;
pub mod lines;
pub mod performer;
pub mod script_line;
pub mod simulation;
pub mod trace_line;

pub use fault::SimFault;
