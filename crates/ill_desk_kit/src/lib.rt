//! The test programs that call desks share this kit. It makes idle sides, names the plans of a store, and performs
//! command lines on the files of a folder.
#![tactic(auto)]

mod folder;
mod idle;
mod plans;
mod watched;

pub use folder::{FileCall, Folder, Program};
pub use idle::idle_side;
pub use plans::plan_of;
