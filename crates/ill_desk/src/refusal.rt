//! The refusals of a desk, which are outcomes of a command.

ghost use Rattle.std.specs.Prelude.{◌≡◌, true, is_ok};
ghost use Rattle.ill_saved.specs.Holdings.{is_refusal};
ghost use Rattle.ill_desk.specs.Refusals.{refused};

use ill_saved::DeskFault;
use ill_text::fault::ToolFault;
use ill_words::{DeskOutcome, Outcome};

/// Returns the outcome of a desk's refusal. Any other fault of a desk ends the command.
pub fn refused(fault: DeskFault) -> Result<DeskOutcome, ToolFault>
    ensures value { result ≡ refused fault }
    ensures outcome { is_refusal fault ≡ true → is_ok result ≡ true }
{
    match fault {
        DeskFault::Core(refusal) => Ok(DeskOutcome::Plain(Outcome::Refused(refusal))),
        DeskFault::NoSuchTransaction => Ok(DeskOutcome::NoSuchTransaction),
        DeskFault::DeskFull => Ok(DeskOutcome::DeskFull),
        fault => Err(fault.into()),
    }
}
