//! The requests of command lines, which are read before any file is opened.

ghost use Rattle.std.specs.Prelude.{◌≡◌, true, Ok, is_none, map, option_map};
ghost use Rattle.std.specs.List.{list_any};
ghost use Rattle.ill_values.specs.TxnId.{txn_id_of};
ghost use Rattle.clap.specs.Words.{found_of, rows_of, subcommand_rows_of};
ghost use Rattle.ill_line.specs.CommandLine.{is_option};
ghost use Rattle.ill_line.specs.declared.request.Call.TheVariants.{Help};
ghost use Rattle.ill_line.specs.declared.request.Refusal.TheVariants.{Usage, Fault};
ghost use Rattle.ill_text.specs.declared.fault.ToolFault.TheVariants.{OutOfMemory};
ghost use Rattle.ill_line.specs.declared.command_line.Name.TheVariants as names;
ghost use Rattle.ill_text.specs.Diary.{stamped};
ghost use Rattle.ill_line.specs.Asked.{asks_for_help, dates_and_stamp_of, day_and_name_of, name_in, stamp_if, stamp_of, GivesId, ReadsValue, IsRefusal, asked_by, asked_in, asked_of, text_of, texts_of, role_of, loan_of, group_of, new_file_of, day_in, last_in, state_in, number_of_message, dates_of, outlet_of, is_set, which_of, form_of, wanted_of, wanted_on, ahead_in, due_in, day_or_days, days_on, day_given, span_of, asked, desk_at_stake, end_with_dashes, has_option, note_words_of, said_free, unless_option, deed_by, key_of_outlet};

use crate::command_line::{Argument, Name, SHELF, is_option};
use crate::grammar::{NoTexts, command};
use clap::error::ErrorKind;
use clap::{ArgMatches, Command, Error};
use ill_beside::notes::{is_note, note_text};
use ill_core::State;
use ill_days::read_day;
use ill_desk::take::TakeForm;
use ill_figures::figures::{FiguresView, Span};
use ill_files::paths::is_beside;
use ill_key::key::KeyDeed;
use ill_list::wanted::{Wanted, Which};
use ill_night::night::{Dates, Night};
use ill_rows::soon::SOON;
use ill_saved::Role;
use ill_show::loan::LoanForm;
use ill_text::diary::{Stamp, is_name};
use ill_text::fault::ToolFault;
use ill_text::form::Form;
use ill_values::{Day, Number, TextFault, TxnId};
use ill_words::words::{number, who};
use std::alloc::{AllocError, Global};

/// The request of a command line, for one desk or for a shelf. On a shelf `file` is the path of its folder.
#[derive(Drop)]
pub enum Request<'a> {
    /// Show each APDU of the input: `ill show`.
    Show {
        /// The form of the APDUs that are shown.
        form: Form,
    },
    /// Check the input and count its APDUs: `ill check`.
    Check,
    /// Perform a script of both sides of a transaction: `ill simulate`.
    Simulate {
        /// The group qualifier, not validated yet.
        group: &'a str,
        /// The transaction qualifier, not validated yet.
        transaction: &'a str,
    },
    /// Perform a script of two desks: `ill simulate-desks`.
    SimulateDesks,
    /// Begin a desk in a file: `ill new`.
    New {
        /// The path of the file.
        file: &'a str,
        /// The role of the desk.
        role: Role,
    },
    /// Perform one action in a transaction: `ill act`.
    Act {
        /// The path of the file.
        file: &'a str,
        /// The transaction.
        txn: TxnId,
        /// The day of the action, if it is given.
        today: Option<Day>,
        /// The name of the person who acts, if one is named.
        by: Option<&'a str>,
        /// The text that the loan was shown with, if the action is to be done on that alone.
        seen: Option<&'a str>,
        /// Set if the action is only tried.
        is_trial: bool,
        /// Set if the item of the loan is written too.
        is_long: bool,
        /// Set if a shelf may begin a desk for the group of the transaction.
        is_new_group: bool,
        /// The words of the action.
        words: Vec<&'a str>,
    },
    /// Take the APDUs of the input: `ill take`.
    Take {
        /// The path of the file.
        file: &'a str,
        /// The form of the command.
        form: TakeForm,
        /// The stamp of the lines of the diary, if a day is given.
        stamp: Option<Stamp<'a>>,
        /// The path of the key, if the input is a sealed letter.
        key: Option<&'a str>,
    },
    /// Take the message files of a folder: `ill inbox`.
    Inbox {
        /// The path of the file.
        file: &'a str,
        /// The path of the folder.
        folder: &'a str,
        /// The stamp of the lines of the diary, if a day is given.
        stamp: Option<Stamp<'a>>,
        /// The path of the key, if the message files are sealed letters.
        key: Option<&'a str>,
    },
    /// Send the messages of the loans that want sending: `ill outbox`.
    Outbox {
        /// The path of the file.
        file: &'a str,
        /// The path of the folder, or none for the output.
        folder: Option<&'a str>,
        /// The path of the key, if the message files are sealed letters. Then there is a folder.
        key: Option<&'a str>,
    },
    /// Exchange the message files of a desk: `ill exchange`.
    Exchange {
        /// The path of the file.
        file: &'a str,
        /// The arguments of the night.
        night: Night<'a>,
        /// The path of the key, if the message files are sealed letters.
        key: Option<&'a str>,
    },
    /// Make, show or read a key: `ill key`.
    Key {
        /// The path of the file of the key.
        file: &'a str,
        /// The deed: the key is made, shown or read.
        deed: KeyDeed,
    },
    /// Give the bytes of a message: `ill send`.
    Send {
        /// The path of the file.
        file: &'a str,
        /// The transaction.
        txn: TxnId,
        /// The number of the message.
        number: Number,
        /// The path of the key, if the message is sealed.
        key: Option<&'a str>,
    },
    /// List the loans of desks: `ill list`.
    List {
        /// The paths of the desks, or of folders of them.
        paths: Vec<&'a str>,
        /// The loans that are listed.
        wanted: Wanted,
        /// The words that these loans have, if any are sought.
        find: Option<&'a str>,
        /// The form of the list.
        form: Form,
    },
    /// Tell what came to desks: `ill news`.
    News {
        /// The paths of the desks, or of folders of them.
        paths: Vec<&'a str>,
        /// The number of messages that are shown, if it is given.
        last: Option<Number>,
        /// The day from which on messages are told, if it is given.
        since: Option<Day>,
        /// The form of the messages that are shown.
        form: Form,
    },
    /// Count the loans of desks: `ill figures`.
    Figures {
        /// The paths of the desks, or of folders of them.
        paths: Vec<&'a str>,
        /// The span of the figures, and their form.
        view: FiguresView,
    },
    /// Show the sides in a file: `ill status`.
    Status {
        /// The path of the file.
        file: &'a str,
        /// The form of the sides that are shown.
        form: Form,
    },
    /// Show all that is known of a transaction: `ill loan`.
    Loan {
        /// The path of the file.
        file: &'a str,
        /// The transaction.
        txn: TxnId,
        /// The form of the loan that is shown.
        form: LoanForm,
    },
    /// Keep a note on a loan: `ill note`.
    Note {
        /// The path of the file.
        file: &'a str,
        /// The transaction.
        txn: TxnId,
        /// The words of the note, which a note may have.
        words: Vec<&'a str>,
    },
    /// Write a slip of a loan: `ill slip`.
    Slip {
        /// The path of the file.
        file: &'a str,
        /// The transaction.
        txn: TxnId,
    },
    /// Retire a group of a shelf: `ill shelf retire`.
    Retire {
        /// The path of the shelf's folder.
        file: &'a str,
        /// The group.
        group: &'a str,
    },
    /// Check the record in a file: `ill verify`.
    Verify {
        /// The path of the file.
        file: &'a str,
        /// The form of what is told of the record.
        form: Form,
    },
    /// Write a page of the loans of desks: `ill report`.
    Report {
        /// The paths of the desks, or of folders of them.
        paths: Vec<&'a str>,
        /// The day of the report.
        today: Day,
        /// The day, if it is given, from which on news are told.
        since: Option<Day>,
    },
}

impl<'a> Request<'a> {
    /// Returns the file of the desk that the request may change or from which it sends. `Note` keeps a note beside this
    /// file. Of `Key` it returns the file of the key, and of each other request None.
    pub fn desk_at_stake(&self) -> Option<&'a str>
        ensures { option_map (λ file. file.now) result ≡ desk_at_stake (asked self.now) }
    {
        match self {
            Request::New { file, .. }
            | Request::Act { file, .. }
            | Request::Take { file, .. }
            | Request::Inbox { file, .. }
            | Request::Outbox { file, .. }
            | Request::Exchange { file, .. }
            | Request::Key { file, .. }
            | Request::Send { file, .. }
            | Request::Note { file, .. } => Some(*file),
            _ => None,
        }
    }
}

/// The reason why words are not read as a request.
#[derive(Drop)]
pub enum Refusal {
    /// The words are no command, or ask for help. `clap` has the text.
    Usage(Error),
    /// An argument is invalid, or memory ran out.
    Fault(ToolFault),
}

/// An error of `clap` is a refusal of the words.
impl From<Error> for Refusal {
    ghost from_gives = { λ error refusal. refusal ≡ Usage error };

    fn from(error: Error) -> Refusal {
        Refusal::Usage(error)
    }
}

/// A fault of an argument, or of memory, is a refusal.
impl From<ToolFault> for Refusal {
    ghost from_gives = { λ fault refusal. refusal ≡ Fault fault };

    fn from(fault: ToolFault) -> Refusal {
        Refusal::Fault(fault)
    }
}

/// A refused allocation is the refusal that memory ran out.
impl From<AllocError> for Refusal {
    ghost from_gives = { λ _ refusal. refusal ≡ Fault OutOfMemory };

    fn from(_error: AllocError) -> Refusal {
        Refusal::Fault(ToolFault::OutOfMemory)
    }
}

/// The request of a command line, for one desk, for a shelf or for the help.
#[derive(Drop)]
pub enum Call<'a> {
    /// A request to one desk, or to none.
    Desk(Request<'a>),
    /// A request to a shelf: `ill shelf`. Its `file` is the path of the shelf's folder.
    Shelf(Request<'a>),
    /// A request for the command line itself, as objects of JSON: `ill help --json`.
    Help,
}

/// The word after which no word is an option.
pub const DASHES: &str = "--";

/// Returns the call that the words of a command line ask for. The first word is the name of the program.
pub fn read_words<'a>(alloc: Global, words: &'a [&'a str]) -> Result<Call<'a>, Refusal>
    ensures { asks_for_help (map (λ word. word.now) words.now) ≡ true → result ≡ Ok Help }
{
    if asks_for_help(words) {
        return Ok(Call::Help);
    }
    parsed(alloc, words)
}

/// Returns true if `words` ask for the command line itself. No help tells of them: only the tools of this repository
/// ask for it.
fn asks_for_help(words: &[&str]) -> bool
    ensures { result ≡ asks_for_help (map (λ word. word.now) words.now) }
{
    match words {
        [_, command, form] => *command == "help" && *form == "--json",
        _ => false,
    }
}

/// Returns the request of the command that `clap` finds in the words of a command line. After the word `shelf` it is a
/// request to a shelf.
fn parsed<'a>(alloc: Global, words: &'a [&'a str]) -> Result<Call<'a>, Refusal> {
    let matches = command(alloc, &NoTexts)?.try_get_matches_from(words)?;
    match matches.subcommand() {
        Some((word, matches)) if word == SHELF => Ok(Call::Shelf(read(alloc, words, matches)?)),
        _ => Ok(Call::Desk(read(alloc, words, &matches)?)),
    }
}

/// Returns the request of the command in `matches`. `words` are the whole command line. An action and a note may have
/// no option of the program among their words.
fn read<'a>(alloc: Global, words: &[&str], matches: &ArgMatches<'a>) -> Result<Request<'a>, Refusal>
    ensures { ReadsValue asked (said_free (map (λ word. word.now) words.now) (asked_in (subcommand_rows_of matches.now))) result }
{
    let request = match found(alloc, matches) {
        Ok(request) => request,
        Err(refusal) => return Err(refusal),
    };
    if has_option_of(words, &request) {
        return Err(Refusal::Fault(ToolFault::Arguments));
    }
    Ok(request)
}

/// Returns true if an option of the program is among the words of an action or of a note, with which `words` end.
fn has_option_of(words: &[&str], request: &Request<'_>) -> bool
    ensures { result ≡ is_none (unless_option (map (λ word. word.now) words.now) (asked request.now)) }
{
    match request {
        Request::Act { words: action, .. } => has_option(words, action),
        Request::Note { words: note, .. } => has_option(words, note),
        _ => false,
    }
}

/// Returns true if an option of the program is in `action`, with which `words` end. If `--` stands right before
/// `action`, none is an option.
pub fn has_option(words: &[&str], action: &[&str]) -> bool
    ensures { result ≡ has_option (map (λ word. word.now) words.now) (map (λ word. word.now) action.now) }
{
    let first = words.len().saturating_sub(action.len());
    !end_with_dashes(&words[..first]) && is_any_option(action)
}

/// Returns true if an option of the program is one of `words`.
fn is_any_option(words: &[&str]) -> bool
    ensures { result ≡ list_any (λ word. is_option word.now) words.now }
{
    words.iter().any(|word| is_option(word))
}

/// Returns true if the last of `words` is `--`.
fn end_with_dashes(words: &[&str]) -> bool
    ensures { result ≡ end_with_dashes (map (λ word. word.now) words.now) }
{
    match words.last() {
        Some(word) => *word == DASHES,
        None => false,
    }
}

/// Returns the request of the command in `matches`, whatever words an action or a note has.
fn found<'a>(alloc: Global, matches: &ArgMatches<'a>) -> Result<Request<'a>, Refusal>
    ensures { ReadsValue asked (asked_in (subcommand_rows_of matches.now)) result }
{
    match matches.subcommand() {
        Some((word, matches)) => named(alloc, word, matches),
        None => Err(unknown(alloc)),
    }
}

/// Returns the request of the command with the word `word`, by the matches of the words after it.
fn named<'a>(alloc: Global, word: &str, matches: &ArgMatches<'a>) -> Result<Request<'a>, Refusal>
    ensures { ReadsValue asked (asked_by word.now (rows_of (found_of matches.now))) result }
{
    match Name::read(word) {
        Some(name) => requested(alloc, name, matches),
        None => Err(unknown(alloc)),
    }
}

/// Returns the request of the command `name`, by its matches.
fn requested<'a>(
    alloc: Global,
    name: Name,
    matches: &ArgMatches<'a>,
) -> Result<Request<'a>, Refusal>
    ensures { ReadsValue asked (asked_of name (rows_of (found_of matches.now))) result }
{
    match name {
        Name::New => new_request(alloc, matches),
        Name::Act => act_request(alloc, matches),
        Name::Take => take_request(alloc, matches),
        Name::Inbox => inbox_request(alloc, matches),
        Name::Outbox => outbox_request(alloc, matches),
        Name::Exchange => exchange_request(alloc, matches),
        Name::Key => key_request(alloc, matches),
        Name::Send => send_request(alloc, matches),
        Name::List => list_request(alloc, matches),
        Name::News => news_request(alloc, matches),
        Name::Figures => figures_request(alloc, matches),
        Name::Status => status_request(alloc, matches),
        Name::Loan => loan_request(alloc, matches),
        Name::Note => note_request(alloc, matches),
        Name::Slip => slip_request(alloc, matches),
        Name::Retire => retire_request(alloc, matches),
        Name::Verify => verify_request(alloc, matches),
        Name::Report => report_request(alloc, matches),
        Name::Show => Ok(Request::Show {
            form: form(matches),
        }),
        Name::Check => Ok(Request::Check),
        Name::Simulate => simulate_request(alloc, matches),
        Name::SimulateDesks => Ok(Request::SimulateDesks),
    }
}

/// Returns the request of `ill new`.
fn new_request<'a>(alloc: Global, matches: &ArgMatches<'a>) -> Result<Request<'a>, Refusal>
    ensures { ReadsValue asked (asked_of names.New (rows_of (found_of matches.now))) result }
{
    let file = new_file(alloc, matches, Argument::NewFile)?;
    let role = role(alloc, matches)?;
    Ok(Request::New { file, role })
}

/// Returns the path of a new desk or shelf, or of a key, in `argument`. Refuses a path with the ending of a file beside
/// a desk.
fn new_file<'a>(
    alloc: Global,
    matches: &ArgMatches<'a>,
    argument: Argument,
) -> Result<&'a str, Refusal>
    ensures { ReadsValue (λ file. file.now) (new_file_of argument (rows_of (found_of matches.now))) result }
{
    let file = text(alloc, matches, argument)?;
    if is_beside(file) {
        return Err(Refusal::Fault(ToolFault::Arguments));
    }
    Ok(file)
}

/// Returns the request of `ill act`.
fn act_request<'a>(alloc: Global, matches: &ArgMatches<'a>) -> Result<Request<'a>, Refusal>
    ensures { ReadsValue asked (asked_of names.Act (rows_of (found_of matches.now))) result }
{
    let file = text(alloc, matches, Argument::File)?;
    let (today, by) = match day_and_name(matches, Argument::Today) {
        Ok(both) => both,
        Err(refusal) => return Err(refusal),
    };
    let txn = loan(alloc, matches)?;
    let seen = said(matches, Argument::Seen);
    let is_trial = is_set(matches, Argument::DryRun);
    let is_long = is_set(matches, Argument::Title);
    let is_new_group = is_set(matches, Argument::NewGroup);
    let words = texts(alloc, matches, Argument::Words)?;
    Ok(Request::Act {
        file,
        txn,
        today,
        by,
        seen,
        is_trial,
        is_long,
        is_new_group,
        words,
    })
}

/// Returns the request of `ill take`.
fn take_request<'a>(alloc: Global, matches: &ArgMatches<'a>) -> Result<Request<'a>, Refusal>
    ensures { ReadsValue asked (asked_of names.Take (rows_of (found_of matches.now))) result }
{
    let file = text(alloc, matches, Argument::File)?;
    let form = TakeForm {
        is_long: is_set(matches, Argument::Long),
        is_kept: is_set(matches, Argument::Keep),
    };
    let stamp = match stamp_if(form.is_kept, matches) {
        Ok(stamp) => stamp,
        Err(refusal) => return Err(refusal),
    };
    let key = said(matches, Argument::Key);
    Ok(Request::Take {
        file,
        form,
        stamp,
        key,
    })
}

/// Returns the stamp of the lines of the diary, if a day is given. Only a command that keeps the messages, as `is_kept`
/// says, may have a day.
fn stamp_if<'a>(is_kept: bool, matches: &ArgMatches<'a>) -> Result<Option<Stamp<'a>>, Refusal>
    ensures { ReadsValue (option_map stamped) (stamp_if is_kept (rows_of (found_of matches.now))) result }
{
    match stamp(matches) {
        Ok(Some(_)) if !is_kept => Err(Refusal::Fault(ToolFault::Arguments)),
        Ok(stamp) => Ok(stamp),
        Err(refusal) => Err(refusal),
    }
}

/// Returns the stamp of the lines of the diary, if a day is given.
fn stamp<'a>(matches: &ArgMatches<'a>) -> Result<Option<Stamp<'a>>, Refusal>
    ensures { ReadsValue (option_map stamped) (stamp_of (rows_of (found_of matches.now))) result }
{
    match day_and_name(matches, Argument::NightDay) {
        Ok((Some(day), by)) => Ok(Some(Stamp { day, by })),
        Ok((None, _)) => Ok(None),
        Err(refusal) => Err(refusal),
    }
}

/// Returns the day in `argument`, and the name of the person who gives the command, if they are given.
fn day_and_name<'a>(
    matches: &ArgMatches<'a>,
    argument: Argument,
) -> Result<(Option<Day>, Option<&'a str>), Refusal>
    ensures { ReadsValue (λ both. (both.0, option_map (λ name. name.now) both.1))
        (day_and_name_of argument (rows_of (found_of matches.now))) result }
{
    let today = day(matches, argument)?;
    let by = name(matches, today.is_some())?;
    Ok((today, by))
}

/// Returns the name of the person who gives the command, if one is given. Then a day must be given, as `has_day` says.
fn name<'a>(matches: &ArgMatches<'a>, has_day: bool) -> Result<Option<&'a str>, Refusal>
    ensures { ReadsValue (λ name. option_map (λ text. text.now) name) (name_in has_day (rows_of (found_of matches.now))) result }
{
    match said(matches, Argument::By) {
        None => Ok(None),
        Some(name) if has_day && is_name(name) => Ok(Some(name)),
        Some(_) => Err(Refusal::Fault(ToolFault::Arguments)),
    }
}

/// Returns the request of `ill inbox`.
fn inbox_request<'a>(alloc: Global, matches: &ArgMatches<'a>) -> Result<Request<'a>, Refusal>
    ensures { ReadsValue asked (asked_of names.Inbox (rows_of (found_of matches.now))) result }
{
    let file = text(alloc, matches, Argument::File)?;
    let folder = text(alloc, matches, Argument::Folder)?;
    let stamp = match stamp(matches) {
        Ok(stamp) => stamp,
        Err(refusal) => return Err(refusal),
    };
    let key = said(matches, Argument::NightKey);
    Ok(Request::Inbox {
        file,
        folder,
        stamp,
        key,
    })
}

/// Returns the request of `ill outbox`.
fn outbox_request<'a>(alloc: Global, matches: &ArgMatches<'a>) -> Result<Request<'a>, Refusal>
    ensures { ReadsValue asked (asked_of names.Outbox (rows_of (found_of matches.now))) result }
{
    let file = text(alloc, matches, Argument::File)?;
    let folder = outlet(matches)?;
    let key = key_of_outlet(matches)?;
    Ok(Request::Outbox { file, folder, key })
}

/// Returns the path of the key of the letters that leave, if one is given. None may be given for messages that go to
/// the output.
fn key_of_outlet<'a>(matches: &ArgMatches<'a>) -> Result<Option<&'a str>, Refusal>
    ensures { ReadsValue (λ key. option_map (λ text. text.now) key) (key_of_outlet (rows_of (found_of matches.now))) result }
{
    let key = said(matches, Argument::NightKey);
    match (is_set(matches, Argument::Stream), key) {
        (true, Some(_)) => Err(Refusal::Fault(ToolFault::Arguments)),
        (true, None) => Ok(None),
        (false, key) => Ok(key),
    }
}

/// Returns the folder into which an outbox sends, or none for the output. Exactly one of the flag and the folder must
/// be given.
fn outlet<'a>(matches: &ArgMatches<'a>) -> Result<Option<&'a str>, Refusal>
    ensures { ReadsValue (λ folder. option_map (λ text. text.now) folder) (outlet_of (rows_of (found_of matches.now))) result }
{
    let folder = said(matches, Argument::OutFolder);
    match (is_set(matches, Argument::Stream), folder) {
        (false, Some(folder)) => Ok(Some(folder)),
        (true, None) => Ok(None),
        (false, None) | (true, Some(_)) => Err(Refusal::Fault(ToolFault::Arguments)),
    }
}

/// Returns the text of an optional argument.
fn said<'a>(matches: &ArgMatches<'a>, argument: Argument) -> Option<&'a str>
    ensures { option_map (λ text. text.now) result ≡ text_of argument (rows_of (found_of matches.now)) }
{
    match matches.get_str(argument.id()) {
        Some(text) => Some(text),
        None => None,
    }
}

/// Returns the request of `ill exchange`.
fn exchange_request<'a>(alloc: Global, matches: &ArgMatches<'a>) -> Result<Request<'a>, Refusal>
    ensures { ReadsValue asked (asked_of names.Exchange (rows_of (found_of matches.now))) result }
{
    let file = text(alloc, matches, Argument::File)?;
    let incoming = text(alloc, matches, Argument::In)?;
    let outgoing = text(alloc, matches, Argument::Out)?;
    let (dates, stamp) = match dates_and_stamp(matches) {
        Ok(both) => both,
        Err(refusal) => return Err(refusal),
    };
    let copy = said(matches, Argument::Copy);
    let heartbeat = said(matches, Argument::Heartbeat);
    let key = said(matches, Argument::NightKey);
    Ok(Request::Exchange {
        file,
        night: Night {
            incoming,
            outgoing,
            dates,
            stamp,
            copy,
            heartbeat,
            form: form(matches),
            is_on_shelf: false,
        },
        key,
    })
}

/// The deeds of a night with their day, and the stamp of the lines of the diary.
type DatesAndStamp<'a> = (Option<(Day, Dates)>, Option<Stamp<'a>>);

/// Returns the deeds of a night with their day, and the stamp of the lines of the diary.
fn dates_and_stamp<'a>(matches: &ArgMatches<'a>) -> Result<DatesAndStamp<'a>, Refusal>
    ensures { ReadsValue (λ both. (both.0, option_map stamped both.1)) (dates_and_stamp_of (rows_of (found_of matches.now))) result }
{
    let dates = dates(matches)?;
    match stamp(matches) {
        Ok(stamp) => Ok((dates, stamp)),
        Err(refusal) => Err(refusal),
    }
}

/// Returns the day of a night and the wanted deeds, if any deed is wanted. Then the day must be given.
fn dates(matches: &ArgMatches<'_>) -> Result<Option<(Day, Dates)>, Refusal>
    ensures { ReadsValue (λ dates. dates) (dates_of (rows_of (found_of matches.now))) result }
{
    let today = day(matches, Argument::NightDay)?;
    let overdue = is_set(matches, Argument::Overdue);
    let expire = is_set(matches, Argument::Expire);
    if !overdue && !expire {
        return Ok(None);
    }
    match today {
        Some(today) => Ok(Some((today, Dates { overdue, expire }))),
        None => Err(Refusal::Fault(ToolFault::Arguments)),
    }
}

/// Returns the request of `ill key`.
fn key_request<'a>(alloc: Global, matches: &ArgMatches<'a>) -> Result<Request<'a>, Refusal>
    ensures { ReadsValue asked (asked_of names.Key (rows_of (found_of matches.now))) result }
{
    let file = new_file(alloc, matches, Argument::KeyFile)?;
    match key_deed(
        is_set(matches, Argument::ShowKey),
        is_set(matches, Argument::ReadKey),
    ) {
        Some(deed) => Ok(Request::Key { file, deed }),
        None => Err(Refusal::Fault(ToolFault::Arguments)),
    }
}

/// Returns what `ill key` does, by its flags. Returns None if both are set.
fn key_deed(is_shown: bool, is_read: bool) -> Option<KeyDeed>
    ensures { result ≡ deed_by is_shown is_read }
{
    match (is_shown, is_read) {
        (true, true) => None,
        (true, false) => Some(KeyDeed::Show),
        (false, true) => Some(KeyDeed::Read),
        (false, false) => Some(KeyDeed::Make),
    }
}

/// Returns the request of `ill send`.
fn send_request<'a>(alloc: Global, matches: &ArgMatches<'a>) -> Result<Request<'a>, Refusal>
    ensures { ReadsValue asked (asked_of names.Send (rows_of (found_of matches.now))) result }
{
    let file = text(alloc, matches, Argument::File)?;
    let txn = loan(alloc, matches)?;
    let number = message_number(alloc, matches)?;
    let key = said(matches, Argument::Key);
    Ok(Request::Send {
        file,
        txn,
        number,
        key,
    })
}

/// Returns the request of `ill list`.
fn list_request<'a>(alloc: Global, matches: &ArgMatches<'a>) -> Result<Request<'a>, Refusal>
    ensures { ReadsValue asked (asked_of names.List (rows_of (found_of matches.now))) result }
{
    let paths = texts(alloc, matches, Argument::Paths)?;
    let wanted = wanted(matches)?;
    Ok(Request::List {
        paths,
        wanted,
        find: said(matches, Argument::Find),
        form: form(matches),
    })
}

/// Returns the request of `ill news`.
fn news_request<'a>(alloc: Global, matches: &ArgMatches<'a>) -> Result<Request<'a>, Refusal>
    ensures { ReadsValue asked (asked_of names.News (rows_of (found_of matches.now))) result }
{
    let paths = texts(alloc, matches, Argument::Paths)?;
    let last = last(matches)?;
    let since = day(matches, Argument::Since)?;
    Ok(Request::News {
        paths,
        last,
        since,
        form: form(matches),
    })
}

/// Returns the request of `ill figures`.
fn figures_request<'a>(alloc: Global, matches: &ArgMatches<'a>) -> Result<Request<'a>, Refusal>
    ensures { ReadsValue asked (asked_of names.Figures (rows_of (found_of matches.now))) result }
{
    let paths = texts(alloc, matches, Argument::Paths)?;
    let span = span(alloc, matches)?;
    let view = FiguresView {
        span,
        is_csv: is_set(matches, Argument::Csv),
    };
    Ok(Request::Figures { paths, view })
}

/// Returns the span of figures. The last day may not be before the first.
fn span(alloc: Global, matches: &ArgMatches<'_>) -> Result<Span, Refusal>
    ensures { ReadsValue (λ span. span) (span_of (rows_of (found_of matches.now))) result }
{
    let first = day_given(alloc, matches, Argument::From)?;
    let last = day_given(alloc, matches, Argument::To)?;
    match Span::new(first, last) {
        Some(span) => Ok(span),
        None => Err(Refusal::Fault(ToolFault::Arguments)),
    }
}

/// Returns the request of `ill status`.
fn status_request<'a>(alloc: Global, matches: &ArgMatches<'a>) -> Result<Request<'a>, Refusal>
    ensures { ReadsValue asked (asked_of names.Status (rows_of (found_of matches.now))) result }
{
    let file = text(alloc, matches, Argument::File)?;
    let form = form(matches);
    Ok(Request::Status { file, form })
}

/// Returns the request of `ill loan`.
fn loan_request<'a>(alloc: Global, matches: &ArgMatches<'a>) -> Result<Request<'a>, Refusal>
    ensures { ReadsValue asked (asked_of names.Loan (rows_of (found_of matches.now))) result }
{
    let file = text(alloc, matches, Argument::File)?;
    let txn = loan(alloc, matches)?;
    let form = LoanForm::of(form(matches), is_set(matches, Argument::Picture));
    Ok(Request::Loan { file, txn, form })
}

/// Returns the request of `ill note`.
fn note_request<'a>(alloc: Global, matches: &ArgMatches<'a>) -> Result<Request<'a>, Refusal>
    ensures { ReadsValue asked (asked_of names.Note (rows_of (found_of matches.now))) result }
{
    let file = text(alloc, matches, Argument::File)?;
    let txn = loan(alloc, matches)?;
    let words = note_words(alloc, matches)?;
    Ok(Request::Note { file, txn, words })
}

/// Returns the words of a note in the arguments, if a note may have them.
fn note_words<'a>(alloc: Global, matches: &ArgMatches<'a>) -> Result<Vec<&'a str>, Refusal>
    ensures { ReadsValue (λ texts. map (λ text. text.now) texts.items) (note_words_of (rows_of (found_of matches.now))) result }
{
    let words = texts(alloc, matches, Argument::NoteWords)?;
    let note = note_text(alloc, &words)?;
    if is_note(note.as_str()) {
        Ok(words)
    } else {
        Err(Refusal::Fault(ToolFault::Arguments))
    }
}

/// Returns the request of `ill slip`.
fn slip_request<'a>(alloc: Global, matches: &ArgMatches<'a>) -> Result<Request<'a>, Refusal>
    ensures { ReadsValue asked (asked_of names.Slip (rows_of (found_of matches.now))) result }
{
    let file = text(alloc, matches, Argument::File)?;
    let txn = loan(alloc, matches)?;
    Ok(Request::Slip { file, txn })
}

/// Returns the request of `ill shelf retire`.
fn retire_request<'a>(alloc: Global, matches: &ArgMatches<'a>) -> Result<Request<'a>, Refusal>
    ensures { ReadsValue asked (asked_of names.Retire (rows_of (found_of matches.now))) result }
{
    let file = text(alloc, matches, Argument::File)?;
    let group = group(alloc, matches)?;
    Ok(Request::Retire { file, group })
}

/// Returns the group in the arguments.
fn group<'a>(alloc: Global, matches: &ArgMatches<'a>) -> Result<&'a str, Refusal>
    ensures { ReadsValue (λ group. group.now) (group_of (rows_of (found_of matches.now))) result }
{
    let group = text(alloc, matches, Argument::Group)?;
    if TxnId::is_qualifier(group.as_bytes()) {
        Ok(group)
    } else {
        Err(Refusal::Fault(ToolFault::Arguments))
    }
}

/// Returns the request of `ill verify`.
fn verify_request<'a>(alloc: Global, matches: &ArgMatches<'a>) -> Result<Request<'a>, Refusal>
    ensures { ReadsValue asked (asked_of names.Verify (rows_of (found_of matches.now))) result }
{
    let file = text(alloc, matches, Argument::File)?;
    let form = form(matches);
    Ok(Request::Verify { file, form })
}

/// Returns the request of `ill report`.
fn report_request<'a>(alloc: Global, matches: &ArgMatches<'a>) -> Result<Request<'a>, Refusal>
    ensures { ReadsValue asked (asked_of names.Report (rows_of (found_of matches.now))) result }
{
    let paths = texts(alloc, matches, Argument::Paths)?;
    let since = day(matches, Argument::Since)?;
    let today = day_given(alloc, matches, Argument::ReportDay)?;
    Ok(Request::Report {
        paths,
        today,
        since,
    })
}

/// Returns the request of `ill simulate`.
fn simulate_request<'a>(alloc: Global, matches: &ArgMatches<'a>) -> Result<Request<'a>, Refusal>
    ensures { ReadsValue asked (asked_of names.Simulate (rows_of (found_of matches.now))) result }
{
    let group = text(alloc, matches, Argument::Group)?;
    let transaction = text(alloc, matches, Argument::Transaction)?;
    Ok(Request::Simulate { group, transaction })
}

/// Returns the role in the arguments.
fn role(alloc: Global, matches: &ArgMatches<'_>) -> Result<Role, Refusal>
    ensures { ReadsValue (λ role. role) (role_of (rows_of (found_of matches.now))) result }
{
    let word = text(alloc, matches, Argument::Role)?;
    match who(word.as_bytes()) {
        Some(role) => Ok(role),
        None => Err(Refusal::Fault(ToolFault::Arguments)),
    }
}

/// Returns the transaction in the arguments.
fn loan(alloc: Global, matches: &ArgMatches<'_>) -> Result<TxnId, Refusal>
    ensures { ReadsValue (λ txn. txn) (loan_of (rows_of (found_of matches.now))) result }
{
    let group = text(alloc, matches, Argument::Group)?;
    let transaction = text(alloc, matches, Argument::Transaction)?;
    match id(alloc, group, transaction) {
        Ok(txn) => Ok(txn),
        Err(fault) => Err(Refusal::Fault(fault)),
    }
}

/// Returns the conditions on the loans to list, with the days of the options `--today` and `--since`.
fn wanted(matches: &ArgMatches<'_>) -> Result<Wanted, Refusal>
    ensures { ReadsValue (λ wanted. wanted) (wanted_of (rows_of (found_of matches.now))) result }
{
    let today = day(matches, Argument::OnDay)?;
    let since = day(matches, Argument::Since)?;
    wanted_on(matches, &today, &since)
}

/// Returns the conditions on the loans to list on the day `today`, if it is given. News are told from the day `since`
/// on.
fn wanted_on(
    matches: &ArgMatches<'_>,
    today: &Option<Day>,
    since: &Option<Day>,
) -> Result<Wanted, Refusal>
    ensures { ReadsValue (λ wanted. wanted) (wanted_on today.now since.now (rows_of (found_of matches.now))) result }
{
    let which = which(matches);
    let ahead = ahead(matches)?;
    let due_before = due_before(matches, *today)?;
    let state = state(matches)?;
    Ok(Wanted {
        which,
        today: *today,
        ahead,
        due_before,
        state,
        has_actions: is_set(matches, Argument::Actions),
        has_notes: is_set(matches, Argument::Notes),
        has_since: is_set(matches, Argument::SinceWhen),
        since: *since,
    })
}

/// Returns the number of days of the option `--ahead`, or 7 if it is not given.
fn ahead(matches: &ArgMatches<'_>) -> Result<u32, Refusal>
    ensures { ReadsValue (λ days. days) (ahead_in (rows_of (found_of matches.now))) result }
{
    match matches.get_str(Argument::Ahead.id()) {
        Some(word) => match number(word.as_bytes()) {
            Some(days) => Ok(days.get().into()),
            None => Err(Refusal::Fault(ToolFault::Arguments)),
        },
        None => Ok(SOON),
    }
}

/// Returns the number of the option `--last`, if it is given.
fn last(matches: &ArgMatches<'_>) -> Result<Option<Number>, Refusal>
    ensures { ReadsValue (λ last. last) (last_in (rows_of (found_of matches.now))) result }
{
    match matches.get_str(Argument::Last.id()) {
        Some(word) => match number(word.as_bytes()) {
            Some(last) => Ok(Some(last)),
            None => Err(Refusal::Fault(ToolFault::Arguments)),
        },
        None => Ok(None),
    }
}

/// Returns the day of the option `--due-before`, if it is given. It may be a number of days after `today`.
fn due_before(matches: &ArgMatches<'_>, today: Option<Day>) -> Result<Option<Day>, Refusal>
    ensures { ReadsValue (λ day. day) (due_in today (rows_of (found_of matches.now))) result }
{
    match matches.get_str(Argument::DueBefore.id()) {
        Some(word) => match day_or_days(word.as_bytes(), today) {
            Some(day) => Ok(Some(day)),
            None => Err(Refusal::Fault(ToolFault::Arguments)),
        },
        None => Ok(None),
    }
}

/// Returns the day that `word` says. It is a day or, if `today` is given, `+` and a number of days after it.
fn day_or_days(word: &[u8], today: Option<Day>) -> Option<Day>
    ensures { result ≡ day_or_days today word.now }
{
    match (today, word) {
        (Some(today), [b'+', digits @ ..]) => days_on(today, digits),
        _ => read_day(word).ok(),
    }
}

/// Returns the day that lies as many days after `today` as `digits` say. Returns None if they are no number from 1 to
/// 255, or the calendar has no such day.
fn days_on(today: Day, digits: &[u8]) -> Option<Day>
    ensures { result ≡ days_on today digits.now }
{
    today.after(number(digits)?.get().into()).ok()
}

/// Returns the state of the option `--state`, if it is given.
fn state(matches: &ArgMatches<'_>) -> Result<Option<State>, Refusal>
    ensures { ReadsValue (λ state. state) (state_in (rows_of (found_of matches.now))) result }
{
    match matches.get_str(Argument::InState.id()) {
        Some(word) => match State::read(word.as_bytes()) {
            Some(state) => Ok(Some(state)),
            None => Err(Refusal::Fault(ToolFault::Arguments)),
        },
        None => Ok(None),
    }
}

/// Returns the day of an option, if it is given.
fn day(matches: &ArgMatches<'_>, argument: Argument) -> Result<Option<Day>, Refusal>
    ensures { ReadsValue (λ day. day) (day_in argument (rows_of (found_of matches.now))) result }
{
    match matches.get_str(argument.id()) {
        Some(word) => match read_day(word.as_bytes()) {
            Ok(day) => Ok(Some(day)),
            Err(_) => Err(Refusal::Fault(ToolFault::Arguments)),
        },
        None => Ok(None),
    }
}

/// Returns the day of an argument that must be given.
fn day_given(alloc: Global, matches: &ArgMatches<'_>, argument: Argument) -> Result<Day, Refusal>
    ensures { ReadsValue (λ day. day) (day_given argument (rows_of (found_of matches.now))) result }
{
    let word = text(alloc, matches, argument)?;
    match read_day(word.as_bytes()) {
        Ok(day) => Ok(day),
        Err(_) => Err(Refusal::Fault(ToolFault::Arguments)),
    }
}

/// Returns the loans to list, by their work.
fn which(matches: &ArgMatches<'_>) -> Which
    ensures { result ≡ which_of (rows_of (found_of matches.now)) }
{
    if is_set(matches, Argument::Mine) {
        return Which::Mine;
    }
    if is_set(matches, Argument::Open) {
        return Which::Open;
    }
    Which::All
}

/// Returns the form of the output.
fn form(matches: &ArgMatches<'_>) -> Form
    ensures { result ≡ form_of (rows_of (found_of matches.now)) }
{
    if is_set(matches, Argument::Json) {
        Form::Json
    } else {
        Form::Lines
    }
}

/// Returns true if `flag` is in the command line. `clap` then gives it the text `true`.
fn is_set(matches: &ArgMatches<'_>, flag: Argument) -> bool
    ensures { result ≡ is_set flag (rows_of (found_of matches.now)) }
{
    match matches.get_str(flag.id()) {
        Some(text) => text == "true",
        None => false,
    }
}

/// Returns the number of the message in the arguments. Refuses a number that is not from 1 to 255.
fn message_number(alloc: Global, matches: &ArgMatches<'_>) -> Result<Number, Refusal>
    ensures { ReadsValue (λ number. number) (number_of_message (rows_of (found_of matches.now))) result }
{
    let word = text(alloc, matches, Argument::Number)?;
    match number(word.as_bytes()) {
        Some(number) => Ok(number),
        None => Err(Refusal::Fault(ToolFault::Arguments)),
    }
}

/// Returns the texts of an argument that may have several.
fn texts<'a>(
    alloc: Global,
    matches: &ArgMatches<'a>,
    argument: Argument,
) -> Result<Vec<&'a str>, Refusal>
    ensures { ReadsValue (λ texts. map (λ text. text.now) texts.items)
        (texts_of argument (rows_of (found_of matches.now))) result }
{
    match matches.get_strs(argument.id()) {
        Some(texts) => match Vec::from_slice(alloc, texts) {
            Ok(texts) => Ok(texts),
            Err(_) => Err(Refusal::Fault(ToolFault::OutOfMemory)),
        },
        None => Err(unknown(alloc)),
    }
}

/// Returns the text of a required argument.
fn text<'a>(alloc: Global, matches: &ArgMatches<'a>, argument: Argument) -> Result<&'a str, Refusal>
    ensures { ReadsValue (λ text. text.now) (text_of argument (rows_of (found_of matches.now))) result }
{
    match matches.get_str(argument.id()) {
        Some(text) => Ok(text),
        None => Err(unknown(alloc)),
    }
}

/// Returns the refusal of matches that lack a command or a required argument. `clap` lets no such matches through. The
/// refusal is out of memory if memory for its text is refused.
fn unknown(alloc: Global) -> Refusal
    ensures { IsRefusal true result }
{
    let error = Command::new(alloc, "ill").error(
        ErrorKind::MissingRequiredArgument,
        "the words are no command",
    );
    match error {
        Ok(error) => Refusal::Usage(error),
        Err(_) => Refusal::Fault(ToolFault::OutOfMemory),
    }
}

/// Returns the transaction id with these qualifiers. Fails with `Arguments` if a qualifier is invalid.
pub fn id(alloc: Global, group: &str, transaction: &str) -> Result<TxnId, ToolFault>
    ensures { GivesId (txn_id_of group.now transaction.now) result }
{
    match TxnId::new(alloc, group.as_bytes(), transaction.as_bytes()) {
        Ok(id) => Ok(id),
        Err(TextFault::OutOfMemory) => Err(ToolFault::OutOfMemory),
        Err(TextFault::Empty | TextFault::TooLong | TextFault::BadByte) => {
            Err(ToolFault::Arguments)
        }
    }
}
