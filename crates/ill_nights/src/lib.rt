//! Laws of nights by commands: a good night brings both sides of a loan to convergence, in the files of two libraries.
#![tactic(auto)]

pub mod laws;
