//! The troubles for which a request does not get what it asks for, and what a reader is told of each.

ghost use Rattle.std.specs.Prelude.{◌≡◌};
ghost use Rattle.ill_web.specs.Troubles.{failed, no_memory, refused, telling, tells, trouble_told};
ghost use Rattle.ill_web.specs.declared.trouble.Trouble.TheVariants as troubles;

use crate::told::Told;
use ill_browser::VisitFault;
use ill_page::Status;
use ill_page::words::{
    BUSY, CUT, FIELDS, FOREIGN, METHOD, NO_DESK, NO_DESK_FILE, NO_FORM, NO_LENGTH, NO_LOAN,
    NO_NAME, NO_NOTE, NO_PAGE, NO_SPAN, NO_USER, OTHER_GROUP, OUT_OF_MEMORY, TOO_LONG,
};
use ill_saved::DeskFault;
use ill_text::fault::ToolFault;
use ill_values::OutOfMemory;

/// The trouble for which a request does not get what it asks for.
#[derive(Clone, Copy)]
pub enum Trouble {
    /// The request was refused.
    Refused(VisitFault),
    /// A command at a desk failed: the desk could not be opened or saved, or has no such loan. Or memory ran out.
    Desk(ToolFault),
    /// The text for the desk is no path of a desk of the operator.
    NoDesk,
    /// A diary cannot name the user.
    NoName,
    /// The last day of the figures is before the first one.
    NoSpan,
    /// A note is too long, or has a control character.
    NoNote,
    /// The desk is one of a shelf, and takes loans of another group.
    OtherGroup,
}

/// The refusal of a request is the trouble `Refused`.
impl From<VisitFault> for Trouble {
    ghost from_gives = { λ fault trouble. trouble ≡ troubles.Refused fault };

    fn from(fault: VisitFault) -> Trouble {
        Trouble::Refused(fault)
    }
}

/// The fault of a desk is the trouble `Desk`.
impl From<ToolFault> for Trouble {
    ghost from_gives = { λ fault trouble. trouble ≡ troubles.Desk fault };

    fn from(fault: ToolFault) -> Trouble {
        Trouble::Desk(fault)
    }
}

/// If memory runs out, the trouble is that of a desk: `no_memory`.
impl From<OutOfMemory> for Trouble {
    ghost from_gives = { λ _ trouble. trouble ≡ no_memory };

    fn from(_error: OutOfMemory) -> Trouble {
        Trouble::Desk(ToolFault::OutOfMemory)
    }
}

impl Trouble {
    /// Returns what a reader is told of this trouble.
    pub fn told(self) -> Told<'static>
        ensures { telling result ≡ trouble_told self }
    {
        match self {
            Trouble::Refused(fault) => refused(fault),
            Trouble::Desk(fault) => failed(fault),
            Trouble::NoDesk => tells(Status::NoPage, NO_DESK),
            Trouble::NoName => tells(Status::Foreign, NO_NAME),
            Trouble::NoSpan => tells(Status::Bad, NO_SPAN),
            Trouble::NoNote => tells(Status::Bad, NO_NOTE),
            Trouble::OtherGroup => tells(Status::Bad, OTHER_GROUP),
        }
    }
}

/// Returns what is told with this status and this notice.
fn tells(status: Status, notice: &'static str) -> Told<'static>
    ensures { telling result ≡ tells status notice.now }
{
    Told { status, notice }
}

/// Returns what is told of a request that was refused with `fault`.
fn refused(fault: VisitFault) -> Told<'static>
    ensures { telling result ≡ refused fault }
{
    match fault {
        VisitFault::NoPage => tells(Status::NoPage, NO_PAGE),
        VisitFault::Method => tells(Status::Method, METHOD),
        VisitFault::Foreign => tells(Status::Foreign, FOREIGN),
        VisitFault::NoUser => tells(Status::Foreign, NO_USER),
        VisitFault::NoForm => tells(Status::NoForm, NO_FORM),
        VisitFault::NoLength => tells(Status::NoLength, NO_LENGTH),
        VisitFault::TooLong => tells(Status::TooLong, TOO_LONG),
        VisitFault::Cut => tells(Status::Bad, CUT),
        VisitFault::Fields => tells(Status::Bad, FIELDS),
        VisitFault::OutOfMemory => tells(Status::Failed, OUT_OF_MEMORY),
    }
}

/// Returns what is told if a command at a desk failed with `fault`.
fn failed(fault: ToolFault) -> Told<'static>
    ensures { telling result ≡ failed fault }
{
    match fault {
        ToolFault::Desk(DeskFault::NoSuchTransaction) => tells(Status::NoPage, NO_LOAN),
        ToolFault::Desk(DeskFault::Store(_)) => tells(Status::Busy, BUSY),
        ToolFault::OutOfMemory => tells(Status::Failed, OUT_OF_MEMORY),
        _ => tells(Status::Failed, NO_DESK_FILE),
    }
}
