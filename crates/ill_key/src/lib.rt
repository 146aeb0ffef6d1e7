//! Keys in files, and sealed letters on inputs and outputs. A key file has the bytes of one key, and nobody but its
//! owner may read or write it.
#![tactic(auto)]

pub mod key;
pub mod key_file;
pub mod laws;
pub mod letter;
pub mod role;

pub use ill_seal::{Key, Sender};
