//! The texts of a loan, over a desk that is read: in lines, in JSON and as a picture. No file and no lock is known
//! here.
#![tactic(auto)]

pub mod item_line;
pub mod laws;
pub mod loan;
mod loan_lines;
mod marks;
pub mod numbers;
pub mod objects;
mod picture;
pub mod status;
pub mod verify;
