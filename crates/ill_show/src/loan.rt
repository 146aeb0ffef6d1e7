//! The command `loan`.

ghost use Rattle.std.specs.Prelude.{◌≡◌, [], ◌++◌, codes, map, option_map, IfOk, OnOk};
ghost use Rattle.ill_record.specs.Side.{txn_of};
ghost use Rattle.ill_saved.specs.ManySides.{found_by, txn_held};
ghost use Rattle.ill_text.specs.Json.{joined, member};
ghost use Rattle.ill_beside.specs.Diary.{history_fields, history_of, messages_of, printed};
ghost use Rattle.ill_show.specs.Loan.{IsTextOf, RunsLoan, beside_of, fields_with_history, lines_with_history, loan_form, loan_text};
ghost use Rattle.ill_beside.specs.FileLines.{lines_of};
ghost use Rattle.ill_show.specs.declared.loan.LoanForm.TheVariants.{Object};
ghost use Rattle.ill_beside.specs.Notes.{note_of};

use crate::loan_lines::push_kept_lines;
use crate::objects::push_kept_and_note;
use crate::picture::picture_of;
use ill_beside::diary::{Part, history_of, messages_of, push_history, push_history_field};
use ill_beside::file_lines::FileLines;
use ill_beside::keyed_came::KeyedCame;
use ill_beside::notes::Notes;
use ill_saved::{Desk, DeskFault, Side, Store};
use ill_text::fault::ToolFault;
use ill_text::form::Form;
use ill_text::json::push_plain;
use ill_text::output::write_whole;
use ill_values::{Apdu, OutOfMemory, TxnId};
use std::alloc::Global;
use std::io::Write;

/// The form in which a loan is shown.
#[derive(Clone, Copy)]
pub enum LoanForm {
    /// Lines of text.
    Lines,
    /// An object of JSON.
    Object,
    /// A sequence chart of its messages, in the language of Mermaid.
    Picture,
}

impl LoanForm {
    /// Returns the form in which a loan is shown, by the form of the command. If `is_picture` is true, a picture
    /// takes the place of lines, but not of an object.
    pub fn of(form: Form, is_picture: bool) -> LoanForm
        ensures { result ≡ loan_form form is_picture }
    {
        match (form, is_picture) {
            (Form::Json, _) => LoanForm::Object,
            (Form::Lines, true) => LoanForm::Picture,
            (Form::Lines, false) => LoanForm::Lines,
        }
    }
}

/// The transaction of a loan to show, and the form in which it is shown.
#[derive(Clone, Copy)]
pub struct LoanView<'a> {
    /// The transaction.
    pub txn: &'a TxnId,
    /// The form.
    pub form: LoanForm,
}

/// The content of the files beside a desk.
#[derive(Clone, Copy)]
pub struct Beside<'a> {
    /// The notes of staff.
    pub notes: &'a Notes,
    /// The diary.
    pub diary: &'a FileLines,
    /// The bytes of the messages that came.
    pub came: &'a [u8],
}

/// Writes all that is known of the loan in `view` at `desk`, with its note, to `writer`. Then it writes each message
/// of the transaction that came, once, and the history of the loan by the diary. A picture has the messages alone. If
/// the desk does not hold the loan, the fault is `NoSuchTransaction`.
///
/// The lines are the seven of `status`, the library that acts next, and the actions that this side may do now. After
/// them come the request, the numbers of messages that were taken, the note, and each message that the side has
/// issued. `beside` has the bytes that `take --keep` has kept. A part of these bytes that is no message, and all
/// bytes after it, are ignored.
pub fn run_desk_loan<S: Store, W: Write>(
    alloc: Global,
    desk: &Desk<S>,
    view: &LoanView<'_>,
    beside: &Beside<'_>,
    writer: &mut W,
) -> Result<(), ToolFault>
    ensures { RunsLoan view.now.form (beside_of beside.now) (found_by txn_held view.now.txn.now desk.now.live.held)
        (W.contents writer.old) (W.contents writer.new) result }
{
    match desk.sides().get(view.txn) {
        Some(side) => {
            match text_of_loan(alloc, view.form, side, desk.released(view.txn), beside) {
                Ok(text) => write_whole(writer, &text),
                Err(_) => Err(ToolFault::OutOfMemory),
            }
        }
        None => Err(ToolFault::Desk(DeskFault::NoSuchTransaction)),
    }
}

/// Returns the text in `form` of all that is known of `side`, by the files `beside` its desk. `released` of its
/// messages are released.
fn text_of_loan(
    alloc: Global,
    form: LoanForm,
    side: &Side,
    released: u8,
    beside: &Beside<'_>,
) -> Result<Vec<u8>, OutOfMemory>
    ensures { IfOk result (λ text. IsTextOf
        (loan_text form (note_of beside.now.notes.now (txn_of side.now)) (lines_of beside.now.diary.now)
        (record { side = side.now; released = released })) (txn_of side.now) beside.now.came.now text.items) }
{
    let came = KeyedCame::read(alloc, beside.came)?;
    let kept = came.kept_of(alloc, side.txn())?;
    let shown = ShownLoan {
        side,
        released,
        note: beside.notes.note_of(side.txn())?,
        diary: beside.diary.lines(),
    };
    loan_text(alloc, form, &shown, kept)
}

/// A side that is shown.
#[derive(Clone, Copy)]
struct ShownLoan<'a> {
    /// The side.
    side: &'a Side,
    /// The number of its released messages.
    released: u8,
    /// Its note, if it has one.
    note: Option<&'a str>,
    /// The lines of the diary.
    diary: &'a [Vec<u8>],
}

/// Returns the text in `form` of the side in `shown`, and of the messages `kept` that came to it.
fn loan_text(
    alloc: Global,
    form: LoanForm,
    shown: &ShownLoan<'_>,
    kept: Vec<Apdu>,
) -> Result<Vec<u8>, OutOfMemory>
    ensures { IfOk result (λ text. text.items ≡ loan_text form (option_map (λ words. words.now) shown.now.note)
        (map (λ line. line.items) shown.now.diary.now)
        (record { side = shown.now.side.now; released = shown.now.released }) kept.items) }
{
    match form {
        LoanForm::Lines => lines_of_loan(alloc, shown, &kept),
        LoanForm::Object => object_of_loan(alloc, shown, &kept),
        LoanForm::Picture => picture_of(alloc, shown.side, kept),
    }
}

/// Returns the lines of the side in `shown`, of the messages `kept` that came to it, and of its history.
fn lines_of_loan(
    alloc: Global,
    shown: &ShownLoan<'_>,
    kept: &[Apdu],
) -> Result<Vec<u8>, OutOfMemory>
    ensures { IfOk result (λ text. text.items ≡ lines_with_history (option_map (λ words. words.now) shown.now.note)
        (map (λ line. line.items) shown.now.diary.now)
        (record { side = shown.now.side.now; released = shown.now.released }) kept.now) }
{
    let mut text = Vec::new(alloc);
    push_kept_lines(&mut text, shown.note, shown.side, shown.released, kept)?;
    push_history(&mut text, &history(alloc, shown, kept)?)?;
    Ok(text)
}

/// Returns the object of the side in `shown`, of the messages `kept` that came to it, and of its history.
fn object_of_loan(
    alloc: Global,
    shown: &ShownLoan<'_>,
    kept: &[Apdu],
) -> Result<Vec<u8>, OutOfMemory>
    ensures { IfOk result (λ text. text.items ≡ loan_text Object (option_map (λ words. words.now) shown.now.note)
        (map (λ line. line.items) shown.now.diary.now)
        (record { side = shown.now.side.now; released = shown.now.released }) kept.now) }
{
    let mut text = Vec::new(alloc);
    push_plain(&mut text, "{")?;
    push_fields(&mut text, shown, kept)?;
    push_plain(&mut text, "}\n")?;
    Ok(text)
}

/// Appends the fields of the side in `shown`, of the messages `kept` that came to it, and of its history.
fn push_fields(text: &mut Vec<u8>, shown: &ShownLoan<'_>, kept: &[Apdu]) -> Result<(), OutOfMemory>
    ensures { OnOk result (text.new.items ≡ text.old.items ++ joined member []
        (fields_with_history (option_map (λ words. words.now) shown.now.note) (map (λ line. line.items) shown.now.diary.now)
        (record { side = shown.now.side.now; released = shown.now.released }) kept.now)) }
{
    push_kept_and_note(text, shown.note, shown.side, shown.released, kept)?;
    push_printed_history(text, shown, kept)
}

/// Appends the field of the history of the side in `shown`, to which the messages `kept` came.
fn push_printed_history(
    text: &mut Vec<u8>,
    shown: &ShownLoan<'_>,
    kept: &[Apdu],
) -> Result<(), OutOfMemory>
    ensures { OnOk result (text.new.items ≡ text.old.items ++ joined member (codes ",")
        (history_fields (history_of (messages_of shown.now.side.now kept.now)
        (map (λ line. line.items) shown.now.diary.now)))) }
{
    let history = history(*text.allocator(), shown, kept)?;
    push_history_field(text, &history)
}

/// Returns the history of the side in `shown`, to which the messages `kept` came.
fn history<'a>(
    alloc: Global,
    shown: &ShownLoan<'a>,
    kept: &[Apdu],
) -> Result<Vec<Part<'a>>, OutOfMemory>
    ensures { IfOk result (λ parts. map printed parts.items
        ≡ history_of (messages_of shown.now.side.now kept.now) (map (λ line. line.items) shown.now.diary.now)) }
{
    let messages = messages_of(alloc, shown.side, kept)?;
    history_of(alloc, &messages, shown.diary)
}
