//! Sealed letters: messages that one library sends to another, closed by a seal under the key that both hold. A seal is
//! an HMAC-SHA256 (RFC 2104).
#![tactic(auto)]

mod fault;
mod key;
mod keyed_digest;
pub mod laws;
mod letter;
mod sender;

pub use fault::{KeyFault, SealFault};
pub use key::Key;
pub use keyed_digest::hmac;
pub use letter::{seal, unseal};
pub use sender::Sender;
