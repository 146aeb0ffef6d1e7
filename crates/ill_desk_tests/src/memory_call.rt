//! The calls on the memory.

/// A call on the memory.
#[derive(Clone, Copy)]
pub enum MemoryCall {
    /// All sides are saved.
    Save,
    /// All sides are restarted from the committed record.
    Restart,
    /// An action is performed.
    Act,
    /// The messages of the input are taken.
    Take,
    /// Message files are taken.
    Inbox,
    /// Messages are sent as message files.
    Outbox,
    /// Messages are sent on a stream.
    Stream,
    /// The deeds that are due on a day are performed.
    Dates,
    /// All sides are copied to another store.
    Copy,
    /// One message is written.
    Send,
    /// All sides are shown.
    Status,
    /// One loan is shown.
    Loan,
}
