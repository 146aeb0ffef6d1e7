//! The words of a loan: of its actions, of outcomes, and of what a side shows; and what can be told of a side. The
//! model of two sides stands on this crate, and so does the program.
#![tactic(auto)]

mod bytes;
pub mod laws;
pub mod names;
mod outcome;
pub mod possible;
mod sending;
mod shown;
pub mod sides;
pub mod waiting;
pub mod words;

pub use bytes::Bytes;
pub use outcome::{DeskOutcome, Outcome};
pub use sending::{is_over, wants_sending};
pub use shown::{push_number, push_shown, push_side};
