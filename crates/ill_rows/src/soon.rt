//! The days ahead of which a due date is soon.

/// A due date is soon if it is at most this number of days away.
pub const SOON: u32 = 7;
