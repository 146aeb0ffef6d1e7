//! The short form of interlibrary loan messages: DER (X.690) with this profile's application tags.
#![tactic(auto)]

mod apdu_view;
mod counted;
mod cursor;
mod decoding;
mod encoding;
mod fault;
mod feed;
mod handling;
mod header;
mod identifier;
pub mod laws;
mod length;
mod reading;
mod sizing;
mod steps;
mod tags;
mod writing;

pub use apdu_view::ApduView;
pub use decoding::{decode, view};
pub use encoding::{encode, encode_onto};
pub use fault::{DerFault, ReadFault, WriteFault};
pub use feed::{Feed, Pushed};
pub use handling::Handler;
pub use header::APDU_LIMIT;
pub use ill_values::BodyView;
pub use reading::{read_apdu, read_apdu_counted};
pub use sizing::size;
pub use steps::Steps;
pub use writing::{write_apdu, write_apdu_counted, write_bytes};
