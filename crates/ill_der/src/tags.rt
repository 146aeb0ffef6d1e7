//! The identifier octets of the fields: context-specific tags. Only that of the transaction id has the
//! constructed form (X.690 8.1.2).

/// The version of the protocol.
pub const VERSION: u8 = 0x80;
/// The transaction id.
pub const TRANSACTION_ID: u8 = 0xA1;
/// The transaction group qualifier, inside the transaction id.
pub const GROUP_QUALIFIER: u8 = 0x81;
/// The transaction qualifier, inside the transaction id.
pub const TRANSACTION_QUALIFIER: u8 = 0x82;
/// The number of the message.
pub const NUMBER: u8 = 0x82;
/// The number of the message that is answered.
pub const ANSWERS: u8 = 0x83;
/// The result of an ILL-Answer.
pub const RESULT: u8 = 0x84;
/// The yes or no of a Conditional-Reply, a Cancel-Reply or a Renew-Answer.
pub const YES_NO: u8 = 0x84;
/// An expiry date or a due date.
pub const DATE: u8 = 0x85;
/// The item that is asked for.
pub const ITEM: u8 = 0x86;
