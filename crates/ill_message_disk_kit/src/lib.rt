//! A disk in memory that has message files, for tests. It shows that each clause of `MessageDisk` can be met.
#![tactic(auto)]

mod memory_message_disk;

pub use memory_message_disk::MemoryMessageDisk;
