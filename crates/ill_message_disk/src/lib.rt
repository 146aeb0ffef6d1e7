//! The message files of a desk as files of a disk that may lose its power: the trait of the calls that they need, and
//! what each move of a message file leaves, whenever the power goes.
#![tactic(auto)]

mod keeper;
pub mod laws;
mod message_disk;
mod moves;
mod path_set;
mod run;
mod spot;
mod taken_paths;
mod whole;

pub use keeper::Keeper;
pub use message_disk::{Found, MessageDisk};
pub use moves::{
    clear, give_message_file_back, quarantine_message_file, remove_message_file, write_anew,
};
pub use run::MessageRun;
pub use spot::{Paths, Spot};
pub use whole::put_whole;
