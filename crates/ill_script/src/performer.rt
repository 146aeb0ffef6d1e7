//! Defines a performer of the lines of a script, for any language of lines.

ghost use Rattle.ill_script.specs.Replay.{Replay};
ghost use Rattle.ill_script.specs.Simulating.{PrintsLine};

use crate::trace_line::TraceLine;
use ill_values::OutOfMemory;
use std::alloc::Global;

/// The effect of a line of a script.
#[derive(Clone, Copy)]
pub enum LineEffect {
    /// Nothing has happened.
    Nothing,
    /// The event of the line has happened.
    Event,
    /// The line says something that no script may say.
    BadLine,
}

/// A performer performs the lines of a script, one after another.
pub trait Performer: Drop {
    /// The value that is carried from line to line.
    type Carried: Drop;

    /// The type of the events.
    ghost Event: { Type 0 };

    /// The replay: the meaning of lines, the worlds to which events lead, and the texts that show them.
    ghost replay: { Replay Self Self.Event Self.Carried };

    /// Performs `line`, and returns its effect. If the line says an event, the event has the number in `shown`, and its
    /// text is appended to `shown`. `carried` becomes the value for the next line. Fails if memory runs out.
    fn perform_line(
        &mut self,
        alloc: Global,
        carried: &mut Self::Carried,
        line: &[u8],
        shown: &mut TraceLine,
    ) -> Result<LineEffect, OutOfMemory>
        ensures { PrintsLine Self.replay line.now shown.old.number
            (record { world = self.old; carried = carried.old; shown = shown.old.text.items }) result
            (record { world = self.new; carried = carried.new; shown = shown.new.text.items }) };
}
