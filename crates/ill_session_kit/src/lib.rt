//! The test programs whose calls have words and streams share this kit. It reads cases with their names and blocks, and
//! makes the words and streams of their calls.
#![tactic(auto)]

mod block;
mod call;
pub mod engine;
mod names;
mod session;
mod streams;
pub mod telling;
pub mod words;

pub use call::{Call, is_short};
pub use names::{Names, Phrase};
pub use session::{Performs, answer_cases};
