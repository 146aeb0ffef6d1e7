//! Saved records of the sides of an interlibrary loan: one side, or the many sides of one library.
#![tactic(auto)]

mod cursor;
mod decoding;
mod decoding_v2;
mod encoding;
mod encoding_v2;
mod fault;
pub mod laws;
mod role;
mod side;
mod sides;

pub use decoding::decode_record;
pub use decoding_v2::decode_record2;
pub use encoding::{encode_after, encode_record};
pub use encoding_v2::encode_record2;
pub use fault::{RecordFault, SidesFault};
pub use role::Role;
pub use side::{Action, Side, Standing};
pub use sides::{RECORD_LIMIT, SIDES_LIMIT, Sides};
