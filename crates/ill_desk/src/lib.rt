//! The engines of commands that a person gives a desk: new, act, take and send, over any store and any stream. No file
//! and no lock is known here.
#![tactic(auto)]

pub mod act;
pub mod act_as;
mod action;
pub mod laws;
pub mod new;
pub mod refusal;
pub mod send;
pub mod side_line;
pub mod take;
