//! What a night keeps beside its message files.

ghost use Rattle.std.specs.Prelude.{IfErr};
ghost use Rattle.ill_saved.specs.ManySides.{sides_held};
ghost use Rattle.ill_room.specs.Backup.{BackupState, CopiesDesk, Signs, is_correct_backup};
ghost use Rattle.ill_room.specs.Room.{Answers};
ghost use Rattle.ill_text.specs.Fault.{IsFileFault};

use ill_saved::{Desk, Store};
use ill_text::fault::ToolFault;
use std::io::Write;

/// A copy of a desk, and a sign of life, if they are wanted.
///
/// The clauses `copies` and `signs` say what a correct backup does, and nothing of another one. A fault is
/// `STORE_FAILED`, or memory ran out. A line to `errors` tells the reason.
pub trait Backup {
    /// Returns the state: the copy, the number of signs of life, and which of them are wanted. Its part `is_correct` is
    /// true if the backup does as it answers.
    ghost state: { Self → BackupState };

    /// Copies `desk`, if a copy is wanted. A copy that the desk does not extend is not replaced, which is a failure.
    fn copy<S: Store, E: Write>(&mut self, desk: &Desk<S>, errors: &mut E) -> Result<(), ToolFault>
        ensures copies { Answers is_correct_backup (CopiesDesk (sides_held desk.now.live)) (state self.old) result
            (state self.new) }
        ensures faults { IfErr result IsFileFault };

    /// Gives one sign of life, if signs are wanted.
    fn sign<E: Write>(&mut self, errors: &mut E) -> Result<(), ToolFault>
        ensures signs { Answers is_correct_backup Signs (state self.old) result (state self.new) }
        ensures faults { IfErr result IsFileFault };
}
