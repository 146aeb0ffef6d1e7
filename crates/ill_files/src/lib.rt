//! The files of desks: a desk in a file is locked and opened. A folder may hold many desks, and a shelf names one for
//! each group.
#![tactic(auto)]

pub mod came;
pub mod diary;
pub mod durable;
pub mod folder;
pub mod home;
mod kept;
pub mod machine;
pub mod notes;
pub mod open;
pub mod paths;
pub mod shelf;
