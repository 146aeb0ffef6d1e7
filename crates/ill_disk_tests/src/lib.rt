//! Tests of what a crash leaves of a record and of message files, and of a store in a folder of the host's.
#![tactic(auto)]

#[cfg(test)]
mod host;
#[cfg(test)]
mod message_files;
#[cfg(test)]
mod records;
