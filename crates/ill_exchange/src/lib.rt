//! The commands on the message files of a desk: they are claimed, taken, settled and sent.
#![tactic(auto)]

pub mod backup;
pub mod exchange;
pub mod keyed;
pub mod laws;
pub mod outlet;
pub mod rooms;
pub mod sending;
