//! The texts of the commands and of their arguments in the help.

use crate::texts;
use ill_line::command_line::{Argument, Name};
use ill_line::entry::Entry;

/// The line of the purpose of `ill`.
pub(crate) const ABOUT: &str = "Interlibrary loan by store-and-forward messages";

/// Returns the line of the purpose of a command.
pub(crate) fn about<'a>(entry: Entry) -> &'a str {
    match entry {
        Entry::Plain(name) => about_command(name),
        Entry::Shelf => "Keep a folder of desks, one for each group of loans",
        Entry::OnShelf(name) => about_on_shelf(name),
    }
}

/// Returns the text of the help of a command.
pub(crate) fn help<'a>(entry: Entry) -> &'a str {
    match entry {
        Entry::Plain(name) => help_of_command(name),
        Entry::Shelf => texts::SHELF,
        Entry::OnShelf(name) => help_on_shelf(name),
    }
}

/// Returns the example below the help of a command, if there is one.
pub(crate) fn example<'a>(entry: Entry) -> Option<&'a str> {
    match entry {
        Entry::Plain(name) => Some(example_of_command(name)),
        Entry::Shelf => Some(texts::SHELF_EXAMPLE),
        Entry::OnShelf(name) => example_on_shelf(name),
    }
}

/// Returns the line of an argument in the help of a command. `is_on_shelf` is true of a command on a shelf.
pub(crate) fn line<'a>(argument: Argument, is_on_shelf: bool) -> &'a str {
    match argument {
        Argument::NewFile if is_on_shelf => {
            "The folder of the shelf, which is made if it is missing"
        }
        Argument::File if is_on_shelf => "The folder of the shelf",
        Argument::Copy if is_on_shelf => "Copy each desk into this folder before it sends",
        _ => line_of_argument(argument),
    }
}

/// Returns the line of the purpose of a command for one desk, or for none.
fn about_command<'a>(name: Name) -> &'a str {
    match name {
        Name::New => "Begin a desk of one role, in a file",
        Name::Act => "Perform one action in a loan, and save it",
        Name::Take => "Take the APDUs on standard input, and save what they change",
        Name::Inbox => "Take the message files of a folder, and save the desk once",
        Name::Outbox => "Put the messages that want sending into a folder",
        Name::Exchange => "Take the message files of a folder, and send into another",
        Name::Key => "Make, show or read a key, which two libraries hold",
        Name::Send => "Write the bytes of one message of a loan",
        Name::List => "List the loans of desks by the work of the day",
        Name::News => "Show what came to desks, in the order in which it came",
        Name::Figures => "Count the loans of desks that were asked in a span of days",
        Name::Status => "Show how each loan in a file stands",
        Name::Loan => "Show all of one loan: request, messages, what may be done",
        Name::Note => "Keep a note on one loan, for staff alone",
        Name::Slip => "Write a slip of one loan, to print and to lay in its item",
        Name::Report => "Write a page for a browser of the loans of desks",
        Name::Retire => "Replace a desk whose loans are over by a mark of its group",
        Name::Verify => "Read a desk, and show what it has or what is wrong with it",
        Name::Show => "Show each APDU on standard input",
        Name::Check => "Check the APDUs on standard input and count them",
        Name::Simulate => "Perform a script of both sides of a loan, from standard input",
        Name::SimulateDesks => "Perform a script of two desks, from standard input",
    }
}

/// Returns the line of the purpose of a command on a shelf.
fn about_on_shelf<'a>(name: Name) -> &'a str {
    match name {
        Name::New => "Begin a shelf of one role, in a folder",
        Name::Act => "Perform one action in a loan, at the desk of its group",
        Name::Note => "Keep a note on one loan, beside the desk of its group",
        Name::Take => "Take the APDUs on standard input, each at the desk of its group",
        Name::Status => "Show how each loan stands, desk by desk",
        Name::Inbox => "Take the message files of a folder, each at the desk of its group",
        Name::Outbox => "Put the messages of all desks that want sending into a folder",
        Name::Exchange => "Take the message files of a folder, and send into another",
        other => about_command(other),
    }
}

/// Returns the text of the help of a command for one desk, or for none.
fn help_of_command<'a>(name: Name) -> &'a str {
    match name {
        Name::New => texts::NEW,
        Name::Act => texts::ACT,
        Name::Take => texts::TAKE,
        Name::Inbox => texts::INBOX,
        Name::Outbox => texts::OUTBOX,
        Name::Exchange => texts::EXCHANGE,
        Name::Key => texts::KEY,
        Name::Send => texts::SEND,
        Name::List => texts::LIST,
        Name::News => texts::NEWS,
        Name::Figures => texts::FIGURES,
        Name::Status => texts::STATUS,
        Name::Loan => texts::LOAN,
        Name::Note => texts::NOTE,
        Name::Slip => texts::SLIP,
        Name::Report => texts::REPORT,
        Name::Retire => texts::RETIRE,
        Name::Verify => texts::VERIFY,
        Name::Show => texts::SHOW,
        Name::Check => texts::CHECK,
        Name::Simulate => texts::SIMULATE,
        Name::SimulateDesks => texts::SIMULATE_DESKS,
    }
}

/// Returns the text of the help of a command on a shelf.
fn help_on_shelf<'a>(name: Name) -> &'a str {
    match name {
        Name::New => texts::SHELF_NEW,
        Name::Act => texts::SHELF_ACT,
        Name::Loan => texts::SHELF_LOAN,
        Name::Note => texts::SHELF_NOTE,
        Name::Slip => texts::SHELF_SLIP,
        Name::Status => texts::SHELF_STATUS,
        Name::Take => texts::SHELF_TAKE,
        Name::Send => texts::SHELF_SEND,
        Name::Inbox => texts::SHELF_INBOX,
        Name::Outbox => texts::SHELF_OUTBOX,
        Name::Exchange => texts::SHELF_EXCHANGE,
        other => help_of_command(other),
    }
}

/// Returns the example below the help of a command for one desk, or for none.
fn example_of_command<'a>(name: Name) -> &'a str {
    match name {
        Name::New => texts::NEW_EXAMPLE,
        Name::Act => texts::ACT_EXAMPLE,
        Name::Take => texts::TAKE_EXAMPLE,
        Name::Inbox => texts::INBOX_EXAMPLE,
        Name::Outbox => texts::OUTBOX_EXAMPLE,
        Name::Exchange => texts::EXCHANGE_EXAMPLE,
        Name::Key => texts::KEY_EXAMPLE,
        Name::Send => texts::SEND_EXAMPLE,
        Name::List => texts::LIST_EXAMPLE,
        Name::News => texts::NEWS_EXAMPLE,
        Name::Figures => texts::FIGURES_EXAMPLE,
        Name::Status => texts::STATUS_EXAMPLE,
        Name::Loan => texts::LOAN_EXAMPLE,
        Name::Note => texts::NOTE_EXAMPLE,
        Name::Slip => texts::SLIP_EXAMPLE,
        Name::Report => texts::REPORT_EXAMPLE,
        Name::Retire => texts::RETIRE_EXAMPLE,
        Name::Verify => texts::VERIFY_EXAMPLE,
        Name::Show => texts::SHOW_EXAMPLE,
        Name::Check => texts::CHECK_EXAMPLE,
        Name::Simulate => texts::SIMULATE_EXAMPLE,
        Name::SimulateDesks => texts::SIMULATE_DESKS_EXAMPLE,
    }
}

/// Returns the example below the help of a command on a shelf, if there is one.
fn example_on_shelf<'a>(name: Name) -> Option<&'a str> {
    match name {
        Name::Retire => Some(texts::RETIRE_EXAMPLE),
        _ => None,
    }
}

/// Returns the line of an argument in the help of a command for one desk.
fn line_of_argument<'a>(argument: Argument) -> &'a str {
    match argument {
        Argument::NewFile => "The file of the desk, which must not be there yet",
        Argument::File => "The file of the desk",
        Argument::Folder | Argument::OutFolder => "The folder of the message files",
        Argument::Stream => "Write the messages to standard output",
        Argument::In => "The folder of the message files that have come",
        Argument::Out => "The folder of the message files that are to go",
        Argument::NightDay => "The day of the run, as 20250301",
        Argument::Overdue => "Issue an Overdue for each loan past its due date",
        Argument::Expire => "End each request that is past its last day",
        Argument::Copy => "Copy the desk to this file before anything is sent",
        Argument::Heartbeat => "Make this heartbeat anew when the run has ended",
        Argument::Role => "requester or responder",
        Argument::Group => "The group qualifier of the loan",
        Argument::Transaction => "The transaction qualifier of the loan",
        Argument::Today => "The day of the action, as 20250301; a responder needs it",
        Argument::By => "The name of who gives the command, for FILE.diary",
        Argument::Seen => "Act only if this is what was shown of the loan",
        Argument::DryRun => "Show what would come, and save nothing",
        Argument::Title => "Write the item of the loan below the line",
        Argument::Words => "The words of the action",
        Argument::NoteWords => "The words of the note; '' removes it",
        Argument::Number => "The number of the message, 1 to 255",
        Argument::Long => "Show which message each was, and what it said",
        Argument::Keep => "Keep each message that is taken, in FILE.came",
        Argument::Picture => "Draw the messages of the loan, for Mermaid",
        Argument::Open => "Leave out the loans that are over",
        Argument::Mine => "List only the loans that want a hand",
        Argument::Find => "List only the loans with these words in a text",
        Argument::Actions => "Show the actions that are possible in each loan",
        Argument::Notes => "Show the note on each loan below it",
        Argument::SinceWhen => "Show below each loan the day of its last message, by the diary",
        Argument::Json => "Write objects of JSON, one on a line",
        Argument::Paths => "The file of a desk, or a folder of desks (see `ill --help`)",
        Argument::OnDay => "The day of the work, as 20250301",
        Argument::Ahead => "Days within which a due date is soon, or 7",
        Argument::DueBefore => "List only the loans that are due before this day",
        Argument::InState => "List only the loans in this state, as SHIPPED",
        Argument::ReportDay => "The day of the report, as 20250301",
        Argument::From => "The first day of the span, as 20250301",
        Argument::To => "The last day of the span, which is in it, too",
        Argument::Csv => "Write records of CSV, one for each desk",
        Argument::Since => "Show what came on this day or later, as 20250301",
        Argument::Last => "Show only the last N messages, 1 to 255",
        Argument::NewGroup => "Begin the group of the loan, if the shelf has none",
        Argument::Key => "Open or seal a letter with the key in this file",
        Argument::NightKey => "Carry all messages in letters sealed with the key in this file",
        Argument::KeyFile => "The file of the key",
        Argument::ShowKey => "Write the key in groups, for the other library",
        Argument::ReadKey => "Read the key in groups on standard input",
        Argument::Explain => "Say more of what is wrong",
    }
}
