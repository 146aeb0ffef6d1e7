//! Laws that join the program and the model: each command is a run of the model of two desks.
#![tactic(auto)]

pub mod laws;
pub mod power_laws;
pub mod shelf_laws;
