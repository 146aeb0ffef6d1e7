//! Laws on the output of `--json`: each line of it is an object of JSON.
#![tactic(auto)]

pub mod laws;
