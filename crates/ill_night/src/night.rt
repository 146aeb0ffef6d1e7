//! The arguments of a night.

use ill_text::diary::Stamp;
use ill_text::form::Form;
use ill_values::Day;

/// The kinds of deeds that a day may make due: each is set if it is wanted.
#[derive(Clone, Copy, Debug, PartialEq, Eq, Hash)]
pub struct Dates {
    /// An Overdue for each overdue loan.
    pub overdue: bool,
    /// An Expire for each request whose expiry date is past.
    pub expire: bool,
}

/// The arguments of a run of `ill exchange`.
#[derive(Clone, Copy)]
pub struct Night<'a> {
    /// The folder of the message files that have come.
    pub incoming: &'a str,
    /// The folder of the message files to send.
    pub outgoing: &'a str,
    /// The day of the run, and the deeds that it makes a responder do.
    pub dates: Option<(Day, Dates)>,
    /// The day and the person in the lines of the diary, if a day is given.
    pub stamp: Option<Stamp<'a>>,
    /// The path of the file of the copy. On a shelf it is the path of a folder, in which each copy has the name of its
    /// desk.
    pub copy: Option<&'a str>,
    /// The path of the file that is written anew at the end, as a sign of life.
    pub heartbeat: Option<&'a str>,
    /// The form in which the night is printed.
    pub form: Form,
    /// Set if the desk is on a shelf, which has sorted the message files.
    pub is_on_shelf: bool,
}
