//! A side and a desk of many transactions are called and viewed by one trait.

use crate::letters::Letters;
use crate::view::{View, print_side};
use ill_beside::file_lines::FileLines;
use ill_beside::notes::Notes;
use ill_desk::act::{run_act, run_desk_act};
use ill_desk::send::{run_desk_send, run_send};
use ill_desk::take::{TakeForm, run_desk_take, run_desk_take_as, run_take};
use ill_inbox::dates::run_desk_dates;
use ill_inbox::inbox::run_desk_inbox;
use ill_night::copy::run_desk_copy;
use ill_night::night::Dates;
use ill_night::outbox::{run_desk_outbox, run_desk_outbox_stream};
use ill_night::verdict::{Batch, MessageFile, Verdict};
use ill_saved::{Desk, Desk1, DeskFault, MemoryStore, Store};
use ill_session_kit::Call;
use ill_session_kit::words::{Word, texts};
use ill_show::loan::{Beside, LoanForm, LoanView, run_desk_loan};
use ill_show::status::{run_desk_status, run_status};
use ill_test_kit::{Page, octet_in};
use ill_text::fault::ToolFault;
use ill_text::form::Form;
use ill_values::{Day, Number, TxnId};
use std::alloc::Global;

/// The number of message files that wait after those that a call takes.
const WAITING: usize = 2;

/// Sides that are kept in a store. A function returns `None` if its words are no call, or its engine is only for desks.
pub trait Kept {
    /// Performs the action that the words encode, by its engine. The result is true if the action was done.
    fn act(&mut self, alloc: Global, call: &mut Call<'_>) -> Option<Result<bool, ToolFault>>;

    /// Takes the APDUs of the input, by the engine. The result is true if none was refused or in conflict. At a desk it
    /// prints long lines with `--long`, and keeps each message that came with `--keep`.
    fn take(&mut self, alloc: Global, call: &mut Call<'_>) -> Result<bool, ToolFault>;

    /// Takes message files, by the engine, which only a desk has. After them `WAITING` others wait. The result has the
    /// verdict on each message file.
    fn inbox(
        &mut self,
        alloc: Global,
        call: &mut Call<'_>,
        message_files: &[MessageFile],
    ) -> Option<Result<Vec<Verdict>, ToolFault>>;

    /// Sends all messages that are due to be sent, by the engine, which only a desk has. The result is their number.
    /// `asking` has the messages that came for loans that are over. The messages of such a loan are sent only if
    /// `asking` has one of the loan.
    fn outbox(
        &self,
        alloc: Global,
        call: &mut Call<'_>,
        asking: &[u8],
        letters: &mut Letters,
    ) -> Option<Result<usize, ToolFault>>;

    /// Writes the messages that `outbox` sends to the output, one after another, by the engine, which only a desk has.
    fn stream(
        &self,
        alloc: Global,
        call: &mut Call<'_>,
        asking: &[u8],
    ) -> Option<Result<(), ToolFault>>;

    /// Performs the deeds that are due on a day, by the engine, which only a desk has.
    fn dates(&mut self, alloc: Global, call: &mut Call<'_>) -> Option<Result<(), ToolFault>>;

    /// Copies all sides to another store, by the engine, which only a desk has.
    fn copy(
        &self,
        alloc: Global,
        call: &mut Call<'_>,
        copy: &mut MemoryStore,
    ) -> Option<Result<(), ToolFault>>;

    /// Writes the message that the words name, by the engine.
    fn send(&self, alloc: Global, call: &mut Call<'_>) -> Option<Result<(), ToolFault>>;

    /// Shows all sides, by the engine.
    fn status(&self, alloc: Global, call: &mut Call<'_>) -> Result<(), ToolFault>;

    /// Shows all of the loan that the words name, by the engine, which only a desk has.
    fn loan(&self, alloc: Global, call: &mut Call<'_>) -> Option<Result<(), ToolFault>>;

    /// Saves all sides.
    fn save(&mut self, alloc: Global, call: &mut Call<'_>) -> Result<(), DeskFault>;

    /// Restarts from the committed record.
    fn restart(&mut self, alloc: Global, call: &mut Call<'_>) -> Result<(), DeskFault>;

    /// Returns the view of all sides.
    fn view(&self, alloc: Global) -> Option<View>;

    /// Prints the state of each side.
    fn tell(&self, page: &mut Page);
}

/// One side is kept. The words of an action are `[--today DAY] WORDS`. The words of a message are its number.
impl<S: Store> Kept for Desk1<S> {
    /// Performs `[--today DAY] WORDS` by `run_act`.
    fn act(&mut self, alloc: Global, call: &mut Call<'_>) -> Option<Result<bool, ToolFault>> {
        let today = day(call.words)?;
        let words: Vec<&str> = texts(alloc, words_after(call.words))?;
        call.begin(alloc);
        let answer = run_act(alloc, self, today, &words, &mut call.output);
        Some(call.end_engine(alloc, answer, &ToolFault::OutOfMemory))
    }

    /// Takes the APDUs of the input by `run_take`.
    fn take(&mut self, alloc: Global, call: &mut Call<'_>) -> Result<bool, ToolFault> {
        call.begin(alloc);
        let answer = run_take(alloc, self, &mut call.source, &mut call.output);
        call.end_engine(alloc, answer, &ToolFault::OutOfMemory)
    }

    /// Returns None: one side takes no message files.
    fn inbox(
        &mut self,
        _alloc: Global,
        _call: &mut Call<'_>,
        _message_files: &[MessageFile],
    ) -> Option<Result<Vec<Verdict>, ToolFault>> {
        None
    }

    /// Returns None: one side sends no message files.
    fn outbox(
        &self,
        _alloc: Global,
        _call: &mut Call<'_>,
        _asking: &[u8],
        _letters: &mut Letters,
    ) -> Option<Result<usize, ToolFault>> {
        None
    }

    /// Returns None: one side has no outbox.
    fn stream(
        &self,
        _alloc: Global,
        _call: &mut Call<'_>,
        _asking: &[u8],
    ) -> Option<Result<(), ToolFault>> {
        None
    }

    /// Returns None: one side has no engine for the deeds of a day.
    fn dates(&mut self, _alloc: Global, _call: &mut Call<'_>) -> Option<Result<(), ToolFault>> {
        None
    }

    /// Returns None: one side is not copied.
    fn copy(
        &self,
        _alloc: Global,
        _call: &mut Call<'_>,
        _copy: &mut MemoryStore,
    ) -> Option<Result<(), ToolFault>> {
        None
    }

    /// Writes the message with the number in the words, by `run_send`.
    fn send(&self, alloc: Global, call: &mut Call<'_>) -> Option<Result<(), ToolFault>> {
        let number = number(call.words)?;
        call.begin(alloc);
        let answer = run_send(alloc, self, number, &mut call.output);
        Some(call.end_engine(alloc, answer, &ToolFault::OutOfMemory))
    }

    /// Shows the side by `run_status`.
    fn status(&self, alloc: Global, call: &mut Call<'_>) -> Result<(), ToolFault> {
        call.begin(alloc);
        let answer = run_status(alloc, self, &mut call.output);
        call.end_engine(alloc, answer, &ToolFault::OutOfMemory)
    }

    /// Returns None: one side has no engine that shows a loan.
    fn loan(&self, _alloc: Global, _call: &mut Call<'_>) -> Option<Result<(), ToolFault>> {
        None
    }

    /// Saves the side.
    fn save(&mut self, alloc: Global, call: &mut Call<'_>) -> Result<(), DeskFault> {
        call.begin(alloc);
        let answer = Desk1::save(self, alloc);
        call.end(alloc, answer, &DeskFault::OutOfMemory)
    }

    /// Restarts the side from the committed record.
    fn restart(&mut self, alloc: Global, call: &mut Call<'_>) -> Result<(), DeskFault> {
        call.begin(alloc);
        let answer = Desk1::restart(self, alloc);
        call.end(alloc, answer, &DeskFault::OutOfMemory)
    }

    /// Returns the view of the side.
    fn view(&self, alloc: Global) -> Option<View> {
        View::of_side(alloc, self)
    }

    /// Prints the state of the side.
    fn tell(&self, page: &mut Page) {
        print_side(page, self.side(), self.released());
        page.text("\n");
    }
}

/// A desk is kept. GROUP and TRANSACTION precede the words of an action, a message or a loan.
impl<S: Store> Kept for Desk<S> {
    /// Performs `GROUP TRANSACTION [--today DAY] WORDS` by `run_desk_act`.
    fn act(&mut self, alloc: Global, call: &mut Call<'_>) -> Option<Result<bool, ToolFault>> {
        let (txn, words) = txn_at_beginning(alloc, call.words)?;
        let today = day(words)?;
        let words: Vec<&str> = texts(alloc, words_after(words))?;
        call.begin(alloc);
        let answer = run_desk_act(alloc, self, &txn, today, &words, &mut call.output);
        Some(call.end_engine(alloc, answer, &ToolFault::OutOfMemory))
    }

    /// Takes the APDUs of the input by `run_desk_take`, or by `run_desk_take_as` if an option is given.
    fn take(&mut self, alloc: Global, call: &mut Call<'_>) -> Result<bool, ToolFault> {
        let form = TakeForm {
            is_long: has(call.words, "--long"),
            is_kept: has(call.words, "--keep"),
        };
        call.begin(alloc);
        let (source, output) = (&mut call.source, &mut call.output);
        let answer = if form.is_long || form.is_kept {
            run_desk_take_as(alloc, self, form, &mut call.errors, source, output)
        } else {
            run_desk_take(alloc, self, source, output)
        };
        call.end_engine(alloc, answer, &ToolFault::OutOfMemory)
    }

    /// Takes `message_files` by `run_desk_inbox`. The messages that are kept go to the errors of the call.
    fn inbox(
        &mut self,
        alloc: Global,
        call: &mut Call<'_>,
        message_files: &[MessageFile],
    ) -> Option<Result<Vec<Verdict>, ToolFault>> {
        call.begin(alloc);
        let (came, output) = (&mut call.errors, &mut call.output);
        let batch = Batch {
            message_files,
            waiting: WAITING,
            form: Form::Lines,
        };
        let answer = run_desk_inbox(alloc, self, &batch, came, output);
        Some(call.end_engine(alloc, answer, &ToolFault::OutOfMemory))
    }

    /// Sends into `letters` by `run_desk_outbox`.
    fn outbox(
        &self,
        alloc: Global,
        call: &mut Call<'_>,
        asking: &[u8],
        letters: &mut Letters,
    ) -> Option<Result<usize, ToolFault>> {
        call.begin(alloc);
        let answer = run_desk_outbox(alloc, self, asking, letters);
        Some(call.end_engine(alloc, answer, &ToolFault::OutOfMemory))
    }

    /// Writes to the output by `run_desk_outbox_stream`.
    fn stream(
        &self,
        alloc: Global,
        call: &mut Call<'_>,
        asking: &[u8],
    ) -> Option<Result<(), ToolFault>> {
        call.begin(alloc);
        let answer = run_desk_outbox_stream(alloc, self, asking, &mut call.output);
        Some(call.end_engine(alloc, answer, &ToolFault::OutOfMemory))
    }

    /// Performs `DAY [overdue] [expire]`.
    fn dates(&mut self, alloc: Global, call: &mut Call<'_>) -> Option<Result<(), ToolFault>> {
        let (day, wanted) = call.words.split_first()?;
        let today = Day::read(day.text.as_bytes()).ok()?;
        let which = Dates {
            overdue: has(wanted, "overdue"),
            expire: has(wanted, "expire"),
        };
        call.begin(alloc);
        let answer = run_desk_dates(alloc, self, today, which, &mut call.output);
        Some(call.end_engine(alloc, answer, &ToolFault::OutOfMemory))
    }

    /// Copies the desk to `copy` by `run_desk_copy`.
    fn copy(
        &self,
        alloc: Global,
        call: &mut Call<'_>,
        copy: &mut MemoryStore,
    ) -> Option<Result<(), ToolFault>> {
        call.begin(alloc);
        let answer = run_desk_copy(alloc, self, copy);
        Some(call.end_engine(alloc, answer, &ToolFault::OutOfMemory))
    }

    /// Writes the message `GROUP TRANSACTION NUMBER` by `run_desk_send`.
    fn send(&self, alloc: Global, call: &mut Call<'_>) -> Option<Result<(), ToolFault>> {
        let (txn, words) = txn_at_beginning(alloc, call.words)?;
        let number = number(words)?;
        call.begin(alloc);
        let answer = run_desk_send(alloc, self, &txn, number, &mut call.output);
        Some(call.end_engine(alloc, answer, &ToolFault::OutOfMemory))
    }

    /// Shows the sides by `run_desk_status`.
    fn status(&self, alloc: Global, call: &mut Call<'_>) -> Result<(), ToolFault> {
        call.begin(alloc);
        let answer = run_desk_status(alloc, self, &mut call.output);
        call.end_engine(alloc, answer, &ToolFault::OutOfMemory)
    }

    /// Shows the loan `GROUP TRANSACTION` by `run_desk_loan`, without notes and diary.
    fn loan(&self, alloc: Global, call: &mut Call<'_>) -> Option<Result<(), ToolFault>> {
        let (txn, _) = txn_at_beginning(alloc, call.words)?;
        call.begin(alloc);
        let view = LoanView {
            txn: &txn,
            form: LoanForm::Lines,
        };
        let notes = Notes::none(alloc);
        let diary = FileLines::none(alloc);
        let beside = Beside {
            notes: &notes,
            diary: &diary,
            came: b"",
        };
        let answer = run_desk_loan(alloc, self, &view, &beside, &mut call.output);
        Some(call.end_engine(alloc, answer, &ToolFault::OutOfMemory))
    }

    /// Saves the desk.
    fn save(&mut self, alloc: Global, call: &mut Call<'_>) -> Result<(), DeskFault> {
        call.begin(alloc);
        let answer = Desk::save(self, alloc);
        call.end(alloc, answer, &DeskFault::OutOfMemory)
    }

    /// Restarts the desk from the committed record.
    fn restart(&mut self, alloc: Global, call: &mut Call<'_>) -> Result<(), DeskFault> {
        call.begin(alloc);
        let answer = Desk::restart(self, alloc);
        call.end(alloc, answer, &DeskFault::OutOfMemory)
    }

    /// Returns the view of the desk.
    fn view(&self, alloc: Global) -> Option<View> {
        View::of_desk(alloc, self)
    }

    /// Prints the transaction and the state of each side, or `empty`.
    fn tell(&self, page: &mut Page) {
        let mut before = "";
        for place in 0..self.sides().len() {
            if let Some(side) = self.sides().at(place) {
                page.text(before);
                page.push(side.txn().group());
                page.text(" ");
                page.push(side.txn().transaction());
                page.text(" ");
                print_side(page, side, self.released(side.txn()));
                before = ", ";
            }
        }
        page.line(if before.is_empty() { "empty" } else { "" });
    }
}

/// Returns the transaction that the words begin with, and the words after it.
fn txn_at_beginning(alloc: Global, words: &[Word]) -> Option<(TxnId, &[Word])> {
    match words {
        [group, transaction, others @ ..] => {
            let group = group.text.as_bytes();
            let txn = TxnId::new(alloc, group, transaction.text.as_bytes()).ok()?;
            Some((txn, others))
        }
        _ => None,
    }
}

/// Returns the day that precedes the words of an action, if there is one. Returns `None` if its digits are no day.
fn day(words: &[Word]) -> Option<Option<Day>> {
    match words {
        [option, day, ..] if option.is("--today") => {
            Some(Some(Day::read(day.text.as_bytes()).ok()?))
        }
        _ => Some(None),
    }
}

/// Returns the words of an action, without the day.
fn words_after(words: &[Word]) -> &[Word] {
    match words {
        [option, _, words @ ..] if option.is("--today") => words,
        _ => words,
    }
}

/// Returns true if an option is among the words.
fn has(words: &[Word], option: &str) -> bool {
    words.iter().any(|word| word.is(option))
}

/// Returns the number of a message, which the first word encodes.
fn number(words: &[Word]) -> Option<Number> {
    Number::new(octet_in(words.first()?.text.as_str())?)
}
