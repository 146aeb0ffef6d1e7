//! The page of the loans of desks, over desks that are read, and links to the pages of loans. No file and no lock is
//! known here.
#![tactic(auto)]

pub mod link;
pub mod report;
mod report_parts;
