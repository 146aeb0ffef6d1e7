//! Laws of what two libraries get done: nights with people in them, loans that end, and groups that retire.
#![tactic(auto)]

pub mod end_laws;
pub mod night_laws;
pub mod retire_laws;
