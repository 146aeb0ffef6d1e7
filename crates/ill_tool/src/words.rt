//! One command line, from its words to its exit status.

ghost use Rattle.std.specs.Prelude.{◌≡◌, ◌⊎◌, ◌≤◌, true, is_some, option_map, Ok};
ghost use Rattle.ill_text.specs.declared.fault.ToolFault.TheVariants.{Write};
ghost use Rattle.clap.specs.Values.{kind_of};
ghost use Rattle.ill_line.specs.Asked.{asked};
ghost use Rattle.ill_commands.specs.Streams.{streams_of};
ghost use Rattle.ill_tool.specs.Runs.{EndsCall, EndsLine, EndsReading, PerformsCall, Runs, RunsCall, RunsGuarded, RunsShelf};
ghost use Rattle.ill_tool.specs.ExitStatus.{IsFlushed, PrintsKind, exit_status, status_of};

use crate::exits::{BAD, exit_status};
use crate::help::print_command_line;
use crate::simulate::{run_simulate, run_simulate_desks};
use clap::Error;
use clap::error::ErrorKind;
use ill_commands::commands::{TakeView, act, loan, new, slip, status, verify};
use ill_commands::letters::{send_with, take_with};
use ill_commands::note::{NoteView, note};
use ill_desk::act_as::ActionView;
use ill_desk::take::TakeForm;
use ill_exchange::keyed::{exchange_with, inbox_with, outbox_with};
use ill_explain::{Passed, Watched, explain, is_asked};
use ill_files::machine::Machine;
use ill_files::open::all_succeed;
use ill_folders::message_file::Incoming;
use ill_help::help::help_for;
use ill_key::key::key;
use ill_line::guard::refuse_desk_of_shelf;
use ill_line::request::{Call, Refusal, Request, read_words};
use ill_night::night::Night;
use ill_place::place::{DeskFiles, DeskPlace, HostFiles, ShelfPlace};
use ill_saved::LockFiles;
use ill_shelf::keyed::{exchange_of_shelf_with, inbox_of_shelf_with, outbox_of_shelf_with};
use ill_shelf::on_shelf::{
    act_on_shelf, loan_on_shelf, new_shelf, note_on_shelf, send_on_shelf_with, slip_on_shelf,
    status_of_shelf,
};
use ill_shelf::retiring::retire;
use ill_shelf::take_home::take_on_shelf_with;
use ill_show::loan::LoanView;
use ill_text::check::run_check;
use ill_text::diary::Stamp;
use ill_text::fault::ToolFault;
use ill_text::show::run_show_as;
use ill_visits::visits::{figures, list, news, report};
use std::alloc::Global;
use std::io::{BufWriter, Cursor, Read, Write};

/// Performs one command line, and returns the exit status. The first word is the name of the program.
///
/// The line of a fault is written to `errors`, and with `--explain` further lines after it. Failures of `errors` are
/// ignored. Bytes that went to `writer` before the fault are flushed before its line.
pub fn run_words<T: LockFiles, R: Read, W: Write, E: Write>(
    rt: &T,
    alloc: Global,
    words: &[&str],
    reader: &mut R,
    writer: &mut W,
    errors: &mut E,
) -> u8
    ensures ends { EndsLine (W.contents writer.old) (W.contents writer.new) result }
    ensures most { result ≤ 3 }
{
    let line = Line {
        words,
        reading: read_words(alloc, words),
    };
    run_line(rt, alloc, &line, reader, writer, errors)
}

/// A command line that was read.
#[derive(Drop)]
pub struct Line<'a> {
    /// The words of the line.
    pub words: &'a [&'a str],
    /// The reading of these words: the call that they ask for, or its refusal.
    pub reading: Result<Call<'a>, Refusal>,
}

/// Performs what was read of a command line, and returns the exit status, as `run_words` does.
pub fn run_line<T: LockFiles, R: Read, W: Write, E: Write>(
    rt: &T,
    alloc: Global,
    line: &Line<'_>,
    reader: &mut R,
    writer: &mut W,
    errors: &mut E,
) -> u8
    ensures ends { EndsReading line.now.reading (W.contents writer.old) (W.contents writer.new) result }
    ensures most { result ≤ 3 }
{
    match &line.reading {
        Ok(call) => {
            let mut machine = Machine {
                rt,
                alloc,
                writer,
                errors,
            };
            answer_call(&mut machine, line.words, call, reader)
        }
        Err(Refusal::Usage(error)) => tell(alloc, line.words, error, writer, errors),
        Err(Refusal::Fault(fault)) => {
            let mut machine = Machine {
                rt,
                alloc,
                writer,
                errors,
            };
            refuse(&mut machine, line.words, *fault)
        }
    }
}

/// Flushes the writer, writes the line of `fault`, which `words` have, and returns the exit status. If the writer
/// fails, the line and the status are those of the fault `Write`.
fn refuse<T: LockFiles, W: Write, E: Write>(
    machine: &mut Machine<'_, T, W, E>,
    words: &[&str],
    fault: ToolFault,
) -> u8
    ensures status { (result ≡ status_of fault) ⊎ (result ≡ status_of Write) }
    ensures most { result ≤ 3 }
{
    let done = flush(&mut machine.writer, Err(fault));
    end_with_status(machine, words, done, None)
}

/// Performs the call that the words ask for, and returns the exit status.
fn answer_call<T: LockFiles, R: Read, W: Write, E: Write>(
    machine: &mut Machine<'_, T, W, E>,
    words: &[&str],
    call: &Call<'_>,
    reader: &mut R,
) -> u8
    ensures ends { EndsCall call.now (W.contents machine.old.writer) result }
    ensures most { result ≤ 3 }
{
    let mut reader = Watched::new(machine.alloc, reader, is_asked(words));
    let files = HostFiles::of(machine.rt);
    let done = perform(machine, &files, call, &mut reader);
    end_with_status(machine, words, done, reader.passed())
}

/// Writes the line of a fault, if `done` is one. The reason comes after it, if the words ask for that. `passed` are the
/// good messages of the input, if they were counted. Returns the exit status of `done`.
fn end_with_status<T: LockFiles, W: Write, E: Write>(
    machine: &mut Machine<'_, T, W, E>,
    words: &[&str],
    done: Result<bool, ToolFault>,
    passed: Option<Passed>,
) -> u8
    ensures status { result ≡ exit_status done }
    ensures most { result ≤ 3 }
{
    let status = finish(done, &mut machine.errors);
    if let Err(fault) = done {
        explain(machine, words, fault, passed);
    }
    status
}

/// The number of bytes in the buffer between a command and its output.
const BUFFER: usize = 65_536;

/// Performs a command, with a buffer before the writer. Returns true if all went well, and false if something was
/// refused or in conflict. The commands themselves read in pieces.
fn perform<T: LockFiles, D: DeskFiles, R: Read, W: Write, E: Write>(
    machine: &mut Machine<'_, T, W, E>,
    files: &D,
    call: &Call<'_>,
    reader: &mut R,
) -> Result<bool, ToolFault>
    ensures { PerformsCall D.DeskStore.state call.now
        (streams_of (R.remaining reader.old) (W.contents machine.old.writer)) (R.remaining reader.new) result }
{
    let Ok(buffer) = BufWriter::with_capacity(machine.alloc, BUFFER, &mut machine.writer) else {
        return Err(ToolFault::OutOfMemory);
    };
    let mut buffered = Machine {
        rt: machine.rt,
        alloc: machine.alloc,
        writer: buffer,
        errors: &mut machine.errors,
    };
    let done = run_call(&mut buffered, files, call, reader);
    finish_writing(buffered.writer, done)
}

/// Runs the command of a call: for one desk, on a shelf, or for the command line itself. Returns true if all went well.
fn run_call<T: LockFiles, D: DeskFiles, R: Read, W: Write, E: Write>(
    machine: &mut Machine<'_, T, W, E>,
    files: &D,
    call: &Call<'_>,
    reader: &mut R,
) -> Result<bool, ToolFault>
    ensures { RunsCall D.DeskStore.state call.now
        (streams_of (R.remaining reader.old) (W.contents machine.old.writer)) result
        (streams_of (R.remaining reader.new) (W.contents machine.new.writer)) }
{
    match call {
        Call::Desk(request) => run_guarded(machine, files, request, reader),
        Call::Shelf(request) => run_on_shelf(machine, files, request, reader),
        Call::Help => print_command_line(machine),
    }
}

/// Writes the rest of the buffer, and returns `done`, or the fault of the writer. A writer that has failed is not
/// called again, and the rest of the buffer is dropped.
fn finish_writing<W: Write>(
    mut writer: BufWriter<&mut W>,
    done: Result<bool, ToolFault>,
) -> Result<bool, ToolFault>
    ensures { IsFlushed done result }
{
    let flushed = flush(&mut writer, done);
    let _ = writer.into_parts();
    flushed
}

/// Flushes the writer, unless `done` says that it has failed. Returns `done`, or the fault `Write` if the flush fails.
fn flush<W: Write>(writer: &mut W, done: Result<bool, ToolFault>) -> Result<bool, ToolFault>
    ensures { IsFlushed done result }
{
    if let Err(ToolFault::Write) = done {
        return done;
    }
    match writer.flush() {
        Ok(()) => done,
        Err(_) => Err(ToolFault::Write),
    }
}

/// Runs the engine of a command for one desk, unless the guard refuses it: it would change a desk of a shelf, send from
/// it or keep a note beside it. Returns true if all went well.
fn run_guarded<T: LockFiles, D: DeskFiles, R: Read, W: Write, E: Write>(
    machine: &mut Machine<'_, T, W, E>,
    files: &D,
    request: &Request<'_>,
    reader: &mut R,
) -> Result<bool, ToolFault>
    ensures { RunsGuarded D.DeskStore.state (asked request.now)
        (streams_of (R.remaining reader.old) (W.contents machine.old.writer)) result
        (streams_of (R.remaining reader.new) (W.contents machine.new.writer)) }
{
    if let Err(fault) = refuse_desk_of_shelf(machine.rt, machine.alloc, request) {
        return Err(fault);
    }
    run(machine, files, request, reader)
}

/// Runs the engine of a command for one desk, or for none. Returns true if all went well. Lines about what could not be
/// done go to `errors`. The line of the returned fault is not among them.
fn run<T: LockFiles, D: DeskFiles, R: Read, W: Write, E: Write>(
    machine: &mut Machine<'_, T, W, E>,
    files: &D,
    request: &Request<'_>,
    reader: &mut R,
) -> Result<bool, ToolFault>
    ensures { Runs D.DeskStore.state (asked request.now)
        (streams_of (R.remaining reader.old) (W.contents machine.old.writer)) result
        (streams_of (R.remaining reader.new) (W.contents machine.new.writer)) }
{
    match request {
        Request::Show { form } => all_succeed(run_show_as(
            machine.alloc,
            *form,
            reader,
            &mut machine.writer,
        )),
        Request::Check => all_succeed(run_check(machine.alloc, reader, &mut machine.writer)),
        Request::Simulate { group, transaction } => {
            all_succeed(run_simulate(
                machine.alloc,
                group,
                transaction,
                reader,
                &mut machine.writer,
            ))
        }
        Request::SimulateDesks => all_succeed(run_simulate_desks(
            machine.alloc,
            reader,
            &mut machine.writer,
        )),
        Request::New { file, role } => new(machine, &DeskPlace { files, path: file }, *role),
        Request::Act {
            file,
            txn,
            today,
            by,
            seen,
            is_trial,
            is_long,
            words,
            ..
        } => act(
            machine,
            &DeskPlace { files, path: file },
            &ActionView {
                txn,
                today: *today,
                by: *by,
                words,
                seen: *seen,
                is_trial: *is_trial,
            },
            *is_long,
        ),
        Request::Take {
            file,
            form,
            stamp,
            key,
        } => take_with(
            machine,
            &DeskPlace { files, path: file },
            *key,
            &take_view(*form, stamp),
            reader,
        ),
        Request::Inbox {
            file,
            folder,
            stamp,
            key,
        } => inbox_with(
            machine,
            &DeskPlace { files, path: file },
            *key,
            &message_files_in(folder, false, stamp),
        ),
        Request::Outbox { file, folder, key } => outbox_with(
            machine,
            &DeskPlace { files, path: file },
            *key,
            *folder,
        ),
        Request::Exchange { file, night, key } => exchange_with(
            machine,
            &DeskPlace { files, path: file },
            *key,
            night,
        ),
        Request::Key { file, deed } => key(machine, file, *deed, reader),
        Request::Send {
            file,
            txn,
            number,
            key,
        } => send_with(
            machine,
            &DeskPlace { files, path: file },
            *key,
            txn,
            *number,
        ),
        Request::List {
            paths,
            wanted,
            find,
            form,
        } => list(machine, paths, wanted, *find, *form),
        Request::News {
            paths,
            last,
            since,
            form,
        } => news(machine, paths, *last, *since, *form),
        Request::Figures { paths, view } => figures(machine, paths, view),
        Request::Status { file, form } => status(machine, &DeskPlace { files, path: file }, *form),
        Request::Loan { file, txn, form } => loan(
            machine,
            &DeskPlace { files, path: file },
            &LoanView { txn, form: *form },
        ),
        Request::Note { file, txn, words } => note(
            machine,
            &DeskPlace { files, path: file },
            &NoteView { txn, words },
        ),
        Request::Slip { file, txn } => slip(machine, &DeskPlace { files, path: file }, txn),
        Request::Retire { .. } => Err(ToolFault::Arguments),
        Request::Verify { file, form } => verify(machine, &DeskPlace { files, path: file }, *form),
        Request::Report {
            paths,
            today,
            since,
        } => report(machine, paths, *today, *since),
    }
}

/// Returns the form in which messages are taken, with the stamp of the lines of the diary.
fn take_view<'a, 'b>(form: TakeForm, stamp: &'a Option<Stamp<'b>>) -> TakeView<'a, 'b>
    ensures { result.form ≡ form }
{
    TakeView { form, stamp }
}

/// Returns the message files of `folder`, with the stamp of the lines of the diary. `is_sorted` is true if a shelf
/// sorts them to its desks.
fn message_files_in<'a, 'b, 'c>(
    folder: &'a str,
    is_sorted: bool,
    stamp: &'b Option<Stamp<'c>>,
) -> Incoming<'a, 'b, 'c> {
    Incoming {
        folder,
        is_sorted,
        stamp,
        key: None,
    }
}

/// Runs the engine of a command on a shelf. Any command that a shelf lacks is refused. Returns true if all went well.
fn run_on_shelf<T: LockFiles, D: DeskFiles, R: Read, W: Write, E: Write>(
    machine: &mut Machine<'_, T, W, E>,
    files: &D,
    request: &Request<'_>,
    reader: &mut R,
) -> Result<bool, ToolFault>
    ensures { RunsShelf D.DeskStore.state (asked request.now)
        (streams_of (R.remaining reader.old) (W.contents machine.old.writer)) result
        (streams_of (R.remaining reader.new) (W.contents machine.new.writer)) }
{
    match request {
        Request::New { file, role } => new_shelf(
            machine,
            &ShelfPlace {
                files,
                folder: file,
            },
            *role,
        ),
        Request::Act {
            file,
            txn,
            today,
            by,
            seen,
            is_trial,
            is_long,
            is_new_group,
            words,
        } => act_on_shelf(
            machine,
            &ShelfPlace {
                files,
                folder: file,
            },
            &ActionView {
                txn,
                today: *today,
                by: *by,
                words,
                seen: *seen,
                is_trial: *is_trial,
            },
            *is_long,
            *is_new_group,
        ),
        Request::Take {
            file,
            form,
            stamp,
            key,
        } => take_on_shelf_with(
            machine,
            &ShelfPlace {
                files,
                folder: file,
            },
            *key,
            &take_view(*form, stamp),
            reader,
        ),
        Request::Send {
            file,
            txn,
            number,
            key,
        } => send_on_shelf_with(
            machine,
            &ShelfPlace {
                files,
                folder: file,
            },
            *key,
            txn,
            *number,
        ),
        Request::Loan { file, txn, form } => {
            loan_on_shelf(
                machine,
                &ShelfPlace {
                    files,
                    folder: file,
                },
                &LoanView { txn, form: *form },
            )
        }
        Request::Note { file, txn, words } => {
            note_on_shelf(
                machine,
                &ShelfPlace {
                    files,
                    folder: file,
                },
                &NoteView { txn, words },
            )
        }
        Request::Slip { file, txn } => slip_on_shelf(
            machine,
            &ShelfPlace {
                files,
                folder: file,
            },
            txn,
        ),
        Request::Status { file, form } => status_of_shelf(
            machine,
            &ShelfPlace {
                files,
                folder: file,
            },
            *form,
        ),
        Request::Inbox {
            file,
            folder,
            stamp,
            key,
        } => inbox_of_shelf_with(
            machine,
            &ShelfPlace {
                files,
                folder: file,
            },
            *key,
            &message_files_in(folder, true, stamp),
        ),
        Request::Outbox { file, folder, key } => {
            outbox_of_shelf_with(
                machine,
                &ShelfPlace {
                    files,
                    folder: file,
                },
                *key,
                *folder,
            )
        }
        Request::Exchange { file, night, key } => {
            exchange_of_shelf_with(
                machine,
                &ShelfPlace {
                    files,
                    folder: file,
                },
                *key,
                night,
            )
        }
        Request::Retire { file, group } => retire(
            machine,
            &ShelfPlace {
                files,
                folder: file,
            },
            group,
        ),
        _ => Err(ToolFault::Arguments),
    }
}

/// Writes the text of `error`, the answer of `clap` to `words`, and returns the exit status. A help goes to `writer`,
/// and a refusal to `errors`.
fn tell<W: Write, E: Write>(
    alloc: Global,
    words: &[&str],
    error: &Error,
    writer: &mut W,
    errors: &mut E,
) -> u8
    ensures printed { PrintsKind (kind_of error.now) (W.contents writer.old) (W.contents writer.new) result }
    ensures most { result ≤ 3 }
{
    if error.kind() == ErrorKind::OutOfMemory {
        return finish(Err(ToolFault::OutOfMemory), errors);
    }
    if error.use_stderr() {
        let _ = write!(errors, "{error}");
        return BAD;
    }
    finish(print_help(alloc, words, error, writer), errors)
}

/// Writes the help, or the version, that `words` ask for, and returns true. `error` is the answer of `clap` without the
/// texts of the help.
fn print_help<W: Write>(
    alloc: Global,
    words: &[&str],
    error: &Error,
    writer: &mut W,
) -> Result<bool, ToolFault>
    ensures { (exit_status result ≡ 0) ⊎ (exit_status result ≡ 3) }
{
    match help_for(alloc, words) {
        Some(help) if help.kind() == ErrorKind::OutOfMemory => Err(ToolFault::OutOfMemory),
        Some(help) => write_text(&help, writer),
        None => write_text(error, writer),
    }
}

/// Writes the text of `error`, and flushes it. Returns true.
fn write_text<W: Write>(error: &Error, writer: &mut W) -> Result<bool, ToolFault>
    ensures { IsFlushed (Ok true) result }
{
    write!(writer, "{error}").map_err(|_| ToolFault::Write)?;
    writer.flush().map_err(|_| ToolFault::Write)?;
    Ok(true)
}

/// Writes the line of a fault, if there is one, and returns the exit status.
fn finish<E: Write>(outcome: Result<bool, ToolFault>, errors: &mut E) -> u8
    ensures status { result ≡ exit_status outcome }
    ensures most { result ≤ 3 }
{
    if let Err(fault) = outcome {
        write_fault(fault, errors);
    }
    exit_status(outcome)
}

/// The greatest number of bytes in the line of a fault.
const FAULT_LINE: usize = 64;

/// Writes the line of a fault in one piece, so that no line of another program comes between. It allocates nothing,
/// since there may be no memory.
fn write_fault<E: Write>(fault: ToolFault, errors: &mut E) {
    let mut line = Cursor::new([0; FAULT_LINE]);
    let _ = writeln!(line, "ill: {fault}");
    let size = usize::try_from(line.position()).unwrap_or(FAULT_LINE);
    let _ = errors.write_all(line.get_ref().get(..size).unwrap_or_default());
}
