//! The model of a disk that may lose its power, the laws of what it leaves, and the trait of its calls.
#![tactic(auto)]

mod disk;
mod disk_with_past;
mod host_disk;
pub mod laws;
mod memory_disk;
pub mod regular_file;

pub use disk::{Disk, DiskFault};
pub use disk_with_past::DiskWithPast;
pub use host_disk::{HostDisk, path_of};
pub use memory_disk::MemoryDisk;
