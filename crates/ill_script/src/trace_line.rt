//! Defines a line of a trace.

/// A line of a trace, which shows an event. A performer appends to `text`.
#[derive(Drop)]
pub struct TraceLine {
    /// The number of the event, counted from 1.
    pub number: u32,
    /// The text so far.
    pub text: Vec<u8>,
}
