//! Defines the meaning of a line of a script.

/// The meaning of a line of a script.
#[derive(Drop)]
pub enum ScriptLine<E> {
    /// The line says no event.
    Skipped,
    /// The line says this event.
    Event(E),
    /// The line says something that no script may say.
    Bad,
}
