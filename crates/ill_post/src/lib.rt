//! A form that was sent from the page of a loan: one action, on the loan that the page showed, once.
#![tactic(auto)]

mod answer;
pub mod laws;
mod stamp;

pub use answer::{Form, Posted, post};
pub use stamp::stamp_of;
