//! Stores of one record: in memory, on a disk that may lose its power, and in a file.
#![tactic(auto)]

mod disk_store;
mod file_store;
mod fuse_store;
mod lasting;
pub mod laws;
mod memory_store;
mod store;

pub use disk_store::DiskStore;
pub use file_store::FileStore;
pub use fuse_store::FuseStore;
pub use memory_store::MemoryStore;
pub use store::{NextCall, Store, StoreFault};
