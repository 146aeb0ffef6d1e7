//! The folders of a desk's message files: what comes is claimed and read there, and what leaves is put there.
#![tactic(auto)]

pub mod claiming_folder;
pub mod fault_lines;
pub mod folders;
pub mod host_message_files;
pub mod host_room;
pub mod message_file;
pub mod message_folder;
pub mod places;
pub mod reserved;
