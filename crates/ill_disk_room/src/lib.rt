//! The room of a desk's message files on a disk that may lose its power.
#![tactic(auto)]

mod calls;
mod disk_room;

pub use disk_room::DiskRoom;
