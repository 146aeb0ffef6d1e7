//! The help of the command line, as `clap` prints it and as objects of JSON. Words are read without it, so a change of
//! the help changes no other crate but `ill_tool`.
#![tactic(auto)]

pub mod described;
pub mod help;
mod lines;
mod texts;
