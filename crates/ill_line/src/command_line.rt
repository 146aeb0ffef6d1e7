//! The command line of `ill`: its commands and their arguments, as `clap` has them.

ghost use Rattle.std.specs.Prelude.{◌≡◌, bytes_eq};
ghost use Rattle.std.specs.List.{list_any};
ghost use Rattle.ill_line.specs.CommandLine.{word_of, name_read, id_of, is_option, name_in};

use crate::shape::Shape;
use clap::Arg;
use std::alloc::Global;

/// A command of `ill`. `word` returns its word.
#[derive(Clone, Copy)]
pub enum Name {
    New,
    Act,
    Take,
    Inbox,
    Outbox,
    Exchange,
    Key,
    Send,
    List,
    News,
    Figures,
    Status,
    Loan,
    Note,
    Slip,
    Report,
    Retire,
    Verify,
    Show,
    Check,
    Simulate,
    SimulateDesks,
}

/// The word before the commands on a shelf.
pub const SHELF: &str = "shelf";

/// All commands, in the order of the help. First come the commands for staff, then the commands for the exchange with
/// other libraries. The last are for looking inside, and one is for shelves alone. `clap` has these and no others.
pub const NAMES: [Name; 22] = [
    Name::New,
    Name::Act,
    Name::List,
    Name::News,
    Name::Loan,
    Name::Note,
    Name::Slip,
    Name::Status,
    Name::Report,
    Name::Figures,
    Name::Take,
    Name::Send,
    Name::Inbox,
    Name::Outbox,
    Name::Exchange,
    Name::Key,
    Name::Verify,
    Name::Show,
    Name::Check,
    Name::Simulate,
    Name::SimulateDesks,
    Name::Retire,
];

/// The commands on a shelf, in the order of the help.
pub const SHELF_NAMES: [Name; 12] = [
    Name::New,
    Name::Act,
    Name::Loan,
    Name::Note,
    Name::Slip,
    Name::Status,
    Name::Take,
    Name::Send,
    Name::Inbox,
    Name::Outbox,
    Name::Exchange,
    Name::Retire,
];

impl Name {
    /// Returns the word of the command.
    pub fn word<'a>(self) -> &'a str
        ensures { result.now ≡ word_of self }
    {
        match self {
            Name::New => "new",
            Name::Act => "act",
            Name::Take => "take",
            Name::Inbox => "inbox",
            Name::Outbox => "outbox",
            Name::Exchange => "exchange",
            Name::Key => "key",
            Name::Send => "send",
            Name::List => "list",
            Name::News => "news",
            Name::Figures => "figures",
            Name::Status => "status",
            Name::Loan => "loan",
            Name::Note => "note",
            Name::Slip => "slip",
            Name::Report => "report",
            Name::Retire => "retire",
            Name::Verify => "verify",
            Name::Show => "show",
            Name::Check => "check",
            Name::Simulate => "simulate",
            Name::SimulateDesks => "simulate-desks",
        }
    }

    /// Returns its arguments, in their order.
    pub fn arguments<'a>(self) -> &'a [Argument] {
        match self {
            Name::New => &[Argument::NewFile, Argument::Role],
            Name::Act => &[
                Argument::File,
                Argument::Group,
                Argument::Transaction,
                Argument::Today,
                Argument::By,
                Argument::Seen,
                Argument::DryRun,
                Argument::Title,
                Argument::Words,
            ],
            Name::Take => &[
                Argument::File,
                Argument::Long,
                Argument::Keep,
                Argument::NightDay,
                Argument::By,
                Argument::Key,
            ],
            Name::Inbox => &[
                Argument::File,
                Argument::Folder,
                Argument::NightDay,
                Argument::By,
                Argument::NightKey,
            ],
            Name::Outbox => &[
                Argument::File,
                Argument::OutFolder,
                Argument::Stream,
                Argument::NightKey,
            ],
            Name::Exchange => &[
                Argument::File,
                Argument::In,
                Argument::Out,
                Argument::NightDay,
                Argument::By,
                Argument::Overdue,
                Argument::Expire,
                Argument::Copy,
                Argument::Heartbeat,
                Argument::NightKey,
                Argument::Json,
            ],
            Name::Key => &[Argument::KeyFile, Argument::ShowKey, Argument::ReadKey],
            Name::Status => &[Argument::File, Argument::Json],
            Name::Retire => &[Argument::File, Argument::Group],
            Name::Verify => &[Argument::File, Argument::Json],
            Name::Send => &[
                Argument::File,
                Argument::Group,
                Argument::Transaction,
                Argument::Number,
                Argument::Key,
            ],
            Name::Loan => &[
                Argument::File,
                Argument::Group,
                Argument::Transaction,
                Argument::Picture,
                Argument::Json,
            ],
            Name::Note => &[
                Argument::File,
                Argument::Group,
                Argument::Transaction,
                Argument::NoteWords,
            ],
            Name::Slip => &[Argument::File, Argument::Group, Argument::Transaction],
            Name::Report => &[Argument::Paths, Argument::ReportDay, Argument::Since],
            Name::List => &[
                Argument::Paths,
                Argument::Open,
                Argument::Mine,
                Argument::OnDay,
                Argument::Ahead,
                Argument::DueBefore,
                Argument::InState,
                Argument::Find,
                Argument::Since,
                Argument::Actions,
                Argument::Notes,
                Argument::SinceWhen,
                Argument::Json,
            ],
            Name::News => &[
                Argument::Paths,
                Argument::Since,
                Argument::Last,
                Argument::Json,
            ],
            Name::Figures => &[Argument::Paths, Argument::From, Argument::To, Argument::Csv],
            Name::Simulate => &[Argument::Group, Argument::Transaction],
            Name::Show => &[Argument::Json],
            Name::Check | Name::SimulateDesks => &[],
        }
    }

    /// Returns true if the command is only for shelves.
    pub fn is_of_shelves(self) -> bool {
        matches!(self, Name::Retire)
    }

    /// Returns the arguments that it has on a shelf alone.
    pub(crate) fn arguments_on_shelf<'a>(self) -> &'a [Argument] {
        match self {
            Name::Act => &[Argument::NewGroup],
            _ => &[],
        }
    }

    /// Returns the command that has the word `word`.
    pub fn read(word: &str) -> Option<Name>
        ensures { result ≡ name_read word.now }
    {
        NAMES.iter().copied().find(|name| name.word() == word)
    }
}

/// An argument of a command.
#[derive(Clone, Copy)]
pub enum Argument {
    /// The file of a desk that begins.
    NewFile,
    /// The file of a desk.
    File,
    /// A folder of message files.
    Folder,
    /// A folder into which message files are put, which may be left out.
    OutFolder,
    /// Set if messages are written to the output instead of a folder.
    Stream,
    /// The folder of the message files that have come.
    In,
    /// The folder of the message files that are to go.
    Out,
    /// The day on which message files or APDUs are taken.
    NightDay,
    /// Set if a responder says of each overdue loan that it is overdue.
    Overdue,
    /// Set if a responder ends each request whose expiry date is past.
    Expire,
    /// The file to which a night copies its desk before it sends. On a shelf it is a folder of copies.
    Copy,
    /// The file that is written anew at the end of a run, as a sign of life.
    Heartbeat,
    /// The role of a desk that begins.
    Role,
    /// The group qualifier of a loan, or the group of a shelf.
    Group,
    /// The transaction qualifier of a loan.
    Transaction,
    /// The day of an action.
    Today,
    /// The name of the person who gives a command.
    By,
    /// The text with which the loan was shown. The action is done only if the loan still stands so.
    Seen,
    /// Set if an action is only tried.
    DryRun,
    /// Set if `act` writes the item of the loan too.
    Title,
    /// The words of an action.
    Words,
    /// The words of a note.
    NoteWords,
    /// The number of a message.
    Number,
    /// Set if `take` writes the fields of each message too.
    Long,
    /// Set if `take` keeps each message that was taken.
    Keep,
    /// Set if `loan` draws a loan.
    Picture,
    /// Set if the loans that are over are left out.
    Open,
    /// Set if the loans that want no hand are left out too.
    Mine,
    /// The words that the listed loans have.
    Find,
    /// Set if a list has the actions of each loan.
    Actions,
    /// Set if a list has the notes on loans.
    Notes,
    /// Set if a list has the days since which loans stand as they do.
    SinceWhen,
    /// Set if objects of JSON are written.
    Json,
    /// The paths of desks, or of folders of them.
    Paths,
    /// The day of a list.
    OnDay,
    /// The number of days within which a due date is soon.
    Ahead,
    /// The day before which the listed loans are due.
    DueBefore,
    /// The state of the listed loans.
    InState,
    /// The day of a report.
    ReportDay,
    /// The first day of figures.
    From,
    /// The last day of figures.
    To,
    /// Set if figures are records of CSV.
    Csv,
    /// The day from which on news are shown.
    Since,
    /// The number of messages that are shown: the last ones.
    Last,
    /// Set if a shelf may begin a desk for the group of a loan.
    NewGroup,
    /// The file of the key of sealed letters.
    Key,
    /// The file of the key of a night's letters.
    NightKey,
    /// The file of a key that is made, shown or read.
    KeyFile,
    /// Set if a key is shown.
    ShowKey,
    /// Set if a key is read from the input.
    ReadKey,
    /// Set if more is said of a fault. Each command has it, and it is no global option of `clap`: of matches with one
    /// the contracts of `clap` say nothing.
    Explain,
}

impl Argument {
    /// Returns its name for `clap`.
    pub fn id<'a>(self) -> &'a str
        ensures { result.now ≡ id_of self }
    {
        match self {
            Argument::NewFile | Argument::File => "FILE",
            Argument::Folder | Argument::OutFolder => "FOLDER",
            Argument::In => "IN",
            Argument::Out => "OUT",
            Argument::Stream => "stream",
            Argument::Overdue => "overdue",
            Argument::Expire => "expire",
            Argument::Copy => "copy",
            Argument::Heartbeat => "beat",
            Argument::Role => "ROLE",
            Argument::Group => "GROUP",
            Argument::Transaction => "TRANSACTION",
            Argument::Today | Argument::OnDay | Argument::ReportDay | Argument::NightDay => "today",
            Argument::By => "by",
            Argument::Seen => "seen",
            Argument::DryRun => "dry-run",
            Argument::Words | Argument::NoteWords => "WORDS",
            Argument::Number => "NUMBER",
            Argument::Long | Argument::Title => "long",
            Argument::Keep => "keep",
            Argument::Picture => "picture",
            Argument::Open => "open",
            Argument::Mine => "mine",
            Argument::Find => "find",
            Argument::Actions => "actions",
            Argument::Notes => "notes",
            Argument::SinceWhen => "since-when",
            Argument::Json => "json",
            Argument::Paths => "PATH",
            Argument::Ahead => "ahead",
            Argument::DueBefore => "due-before",
            Argument::InState => "state",
            Argument::From => "from",
            Argument::To => "to",
            Argument::Csv => "csv",
            Argument::NewGroup => "new-group",
            Argument::Since => "since",
            Argument::Last => "last",
            Argument::Key | Argument::NightKey => "key",
            Argument::KeyFile => "KEYFILE",
            Argument::ShowKey => "show",
            Argument::ReadKey => "read",
            Argument::Explain => "explain",
        }
    }

    /// Returns its shape on the command line.
    pub fn shape<'a>(self) -> Shape<'a> {
        match self {
            Argument::NewFile
            | Argument::File
            | Argument::Folder
            | Argument::In
            | Argument::Out
            | Argument::Role
            | Argument::Group
            | Argument::Transaction
            | Argument::KeyFile => Shape::Word,
            Argument::OutFolder => Shape::OptionalWord,
            Argument::Number => Shape::AnyWord,
            Argument::Paths => Shape::Words,
            Argument::Words | Argument::NoteWords => Shape::Rest,
            Argument::Today
            | Argument::OnDay
            | Argument::NightDay
            | Argument::DueBefore
            | Argument::Since => Shape::Valued("DAY"),
            Argument::ReportDay | Argument::From | Argument::To => Shape::RequiredValue("DAY"),
            Argument::By => Shape::Valued("NAME"),
            Argument::Seen => Shape::Valued("TEXT"),
            Argument::Find => Shape::Valued("WORDS"),
            Argument::Ahead => Shape::Valued("DAYS"),
            Argument::InState => Shape::Valued("STATE"),
            Argument::Last => Shape::Valued("N"),
            Argument::Copy | Argument::Heartbeat => Shape::Path("FILE"),
            Argument::Key | Argument::NightKey => Shape::Path("KEYFILE"),
            Argument::Stream
            | Argument::Overdue
            | Argument::Expire
            | Argument::DryRun
            | Argument::Title
            | Argument::Long
            | Argument::Keep
            | Argument::Picture
            | Argument::Open
            | Argument::Mine
            | Argument::Actions
            | Argument::Notes
            | Argument::SinceWhen
            | Argument::Json
            | Argument::Csv
            | Argument::NewGroup
            | Argument::ShowKey
            | Argument::ReadKey
            | Argument::Explain => Shape::Flag,
        }
    }

    /// Returns the word that stands for it, or for its value, in a command on a shelf. Returns none if that is the word
    /// for one desk.
    fn value_on_shelf<'a>(self) -> Option<&'a str> {
        match self {
            Argument::NewFile | Argument::File => Some("DIR"),
            Argument::Copy => Some("FOLDER"),
            _ => None,
        }
    }

    /// Returns the word that stands for it, or for its value, if it has one. `is_on_shelf` is true of a command on a
    /// shelf.
    pub fn value<'a>(self, is_on_shelf: bool) -> Option<&'a str> {
        match self.value_on_shelf() {
            Some(value) if is_on_shelf => Some(value),
            _ => self.shape().value(self.id()),
        }
    }

    /// Returns the argument for `clap`, without a text. `is_on_shelf` is true of a command on a shelf.
    pub(crate) fn arg<'a>(self, alloc: Global, is_on_shelf: bool) -> Arg<'a> {
        let arg = Arg::new(alloc, self.id());
        let arg = match self.value(is_on_shelf) {
            Some(value) => arg.value_name(value),
            None => arg,
        };
        self.shape().shaped(arg, self.id())
    }
}

/// All options of the program, also those that `clap` adds.
pub const OPTIONS: [&str; 36] = [
    "--today",
    "--by",
    "--seen",
    "--dry-run",
    "--ahead",
    "--due-before",
    "--state",
    "--find",
    "--copy",
    "--beat",
    "--stream",
    "--overdue",
    "--expire",
    "--long",
    "--keep",
    "--picture",
    "--open",
    "--mine",
    "--actions",
    "--notes",
    "--since-when",
    "--json",
    "--new-group",
    "--since",
    "--last",
    "--from",
    "--to",
    "--csv",
    "--key",
    "--show",
    "--read",
    "--explain",
    "--help",
    "--version",
    "-h",
    "-V",
];

/// Returns true if `word` is an option of the program, also with a value after `=`.
pub fn is_option(word: &str) -> bool
    ensures { result ≡ is_option word.now }
{
    is_among(name_in(word), &OPTIONS)
}

/// Returns `word` before its first `=`.
fn name_in(word: &str) -> &str
    ensures { result.now ≡ name_in word.now }
{
    match word.split_once('=') {
        Some((name, _)) => name,
        None => word,
    }
}

/// Returns true if `name` is one of `names`.
fn is_among(name: &str, names: &[&str]) -> bool
    ensures { result ≡ list_any (λ other. bytes_eq other.now name.now) names.now }
{
    names.iter().any(|other| *other == name)
}
