//! Defines the values of an interlibrary loan: days, message numbers, transaction ids, items and APDUs.
//!
//! Each type holds exactly the values that its constructor accepts. Two values of a type are equal if, and only if, all
//! their parts are.
#![tactic(auto)]

mod apdu;
mod apdu_type;
mod body;
mod day;
mod fault;
mod item;
pub mod laws;
mod number;
mod text;
mod txn_id;

pub use apdu::{AnswerResult, Apdu, Body, BodyView, BodyWith};
pub use apdu_type::ApduType;
pub use day::Day;
pub use fault::{DayFault, NotANumber, TextFault, UnknownName};
pub use item::Item;
pub use number::Number;
pub use std::alloc::AllocError as OutOfMemory;
pub use text::{ITEM_LIMIT, QUALIFIER_LIMIT};
pub use txn_id::TxnId;
