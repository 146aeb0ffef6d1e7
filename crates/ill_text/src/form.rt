//! The form of a command's output.

/// The form of a command's output.
#[derive(Clone, Copy, Debug, PartialEq, Eq, Hash)]
pub enum Form {
    /// Lines, of a label and a value each.
    Lines,
    /// Objects of JSON, one on each line.
    Json,
}
