//! The files, the memory and the outputs that every command has at hand.

ghost use Rattle.std.specs.Prelude.{◌≡◌};

use ill_text::fault::ToolFault;
use ill_text::warning::{warn, warn_of_fault};
use std::alloc::Global;
use std::io::Write;

/// The machine of a command: its files, its memory and its outputs.
#[derive(Drop)]
pub struct Machine<'a, T, W, E> {
    /// The runtime, which has the files.
    pub rt: &'a T,
    /// The memory.
    pub alloc: Global,
    /// The output, for what the command tells.
    pub writer: W,
    /// The output for lines about what could not be done.
    pub errors: E,
}

impl<T, W, E: Write> Machine<'_, T, W, E> {
    /// Writes a line of `path` and `text` to the errors.
    pub fn warn(&mut self, path: &str, text: &str)
        ensures silent { self.new.writer ≡ self.old.writer }
    {
        warn(self.alloc, path.as_bytes(), text, &mut self.errors);
    }

    /// Writes a line about the fault of the desk in the file at `path` to the errors.
    pub fn warn_of_fault(&mut self, path: &str, fault: ToolFault)
        ensures silent { self.new.writer ≡ self.old.writer }
    {
        warn_of_fault(self.alloc, path, fault, &mut self.errors);
    }

    /// Returns `answer`. If it is the fault `Desk`, of a desk or its store, a line of `path` and `text` goes to the
    /// errors.
    pub fn report_fault_at<X: Drop>(
        &mut self,
        answer: Result<X, ToolFault>,
        path: &str,
        text: &str,
    ) -> Result<X, ToolFault>
        ensures answer { result ≡ answer }
        ensures silent { self.new.writer ≡ self.old.writer }
    {
        if let Err(ToolFault::Desk(_)) = answer {
            self.warn(path, text);
        }
        answer
    }
}
