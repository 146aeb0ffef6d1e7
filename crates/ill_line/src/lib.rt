//! The command line: its words become a request. It has the commands and their arguments.
#![tactic(auto)]

pub mod command_line;
pub mod entry;
pub mod grammar;
pub mod guard;
pub mod request;
pub mod shape;
