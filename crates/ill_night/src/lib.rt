//! The message files of a night with their verdicts, and the engines of commands that read a desk in a night: outbox,
//! copy, and the retirement of a group. They run over any store and any stream. No file and no lock is known here.
#![tactic(auto)]

pub mod asked;
pub mod copy;
pub mod message;
pub mod night;
pub mod outbox;
pub mod outgoing;
pub mod person;
pub mod retire;
pub mod verdict;
