//! The place of a desk: a command loads the desk there, and has no other.
#![tactic(auto)]

pub mod place;
