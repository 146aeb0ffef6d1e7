//! Reads the first word of a line.

use ill_test_kit::named;

/// The call of a case, or of a family of cases.
#[derive(Clone, Copy)]
pub enum Call {
    /// Bytes are read as a record.
    Record(RecordCall),
    /// A call of a store in memory.
    Store(StoreCall),
    /// A call of the sides of one library.
    Sides(SidesCall),
    /// A call on files.
    File,
}

/// The way in which bytes are read as a record.
#[derive(Clone, Copy)]
pub enum RecordCall {
    /// The bytes are read as the record of one side.
    Record,
    /// As before, and `#` stands for the number of the case.
    Octets,
    /// Each prefix of the bytes is read as the record of one side.
    Prefixes,
    /// The bytes are read as the record of many sides.
    Records,
    /// Each prefix of the bytes is read as the record of many sides.
    RecordsPrefixes,
    /// The bytes with their SHA-256 after them are read as the record of many sides.
    Sealed,
}

/// A call of a store in memory.
#[derive(Clone, Copy)]
pub enum StoreCall {
    /// Makes a new store.
    Make,
    /// Loads the store.
    Load,
    /// Plans the next call of the store.
    Next,
    /// Saves the bytes in the store.
    Save,
}

/// A call of the sides of one library.
#[derive(Clone, Copy)]
pub enum SidesCall {
    /// Makes an empty `Sides`.
    Lay,
    /// Puts requesters that have asked.
    Fill,
    /// Finds a side by its transaction.
    Get,
    /// Finds a side by its place.
    At,
    /// Puts the side whose record the bytes are.
    Put,
    /// Puts a side with the longest record.
    PutLongest,
    /// Encodes the sides, and decodes them again.
    Again,
}

/// The first words of lines, and the calls that they name.
static CALLS: [(&str, Call); 18] = [
    ("record", Call::Record(RecordCall::Record)),
    ("octets", Call::Record(RecordCall::Octets)),
    ("fronts", Call::Record(RecordCall::Prefixes)),
    ("records", Call::Record(RecordCall::Records)),
    ("records-fronts", Call::Record(RecordCall::RecordsPrefixes)),
    ("sealed", Call::Record(RecordCall::Sealed)),
    ("store", Call::Store(StoreCall::Make)),
    ("load", Call::Store(StoreCall::Load)),
    ("next", Call::Store(StoreCall::Next)),
    ("save", Call::Store(StoreCall::Save)),
    ("sides", Call::Sides(SidesCall::Lay)),
    ("fill", Call::Sides(SidesCall::Fill)),
    ("get", Call::Sides(SidesCall::Get)),
    ("at", Call::Sides(SidesCall::At)),
    ("put", Call::Sides(SidesCall::Put)),
    ("put-longest", Call::Sides(SidesCall::PutLongest)),
    ("again", Call::Sides(SidesCall::Again)),
    ("file", Call::File),
];

/// Returns the call that `word` names.
pub fn call_of(word: &str) -> Option<Call> {
    named(&CALLS, word)
}
