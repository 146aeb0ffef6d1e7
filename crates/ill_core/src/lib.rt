//! Implements both sides of an interlibrary loan, as records that act and take messages by tables.
//!
//! Each side is a value of its own: `act` performs a decision of its library, and `take` takes a message of the other
//! side.
#![tactic(auto)]

mod date;
mod issued;
mod kind;
pub mod laws;
mod number;
mod refusal;
mod requester;
mod responder;
mod state;
mod table;
mod taking;
mod turn;
mod verb;

pub use refusal::Refusal;
pub use requester::standing::Standing as RequesterStanding;
pub use requester::{Requester, Wish};
pub use responder::standing::Standing as ResponderStanding;
pub use responder::{Deed, Responder};
pub use state::{STATES, State};
pub use taking::Taking;
pub use turn::Turn;
pub use verb::Verb;
