//! Calls that have no memory: reading and writing APDUs, and the engines of the commands `show` and `check`.

use ill_der::{ReadFault, decode, encode, read_apdu, write_apdu};
use ill_session_kit::engine::Engine;
use ill_session_kit::telling::{print_bytes, print_line, print_reader, print_value};
use ill_session_kit::{Call, Names};
use ill_test_kit::{Page, number_in};
use ill_text::check::run_check;
use ill_text::fault::ToolFault;
use ill_text::show::run_show;
use ill_values::Apdu;
use std::alloc::Global;

/// The function that is called.
#[derive(Clone, Copy)]
pub enum ApduEngine {
    /// The engine of `show`.
    Show,
    /// The engine of `check`.
    Check,
    /// The function `read_apdu`, called several times.
    Read,
    /// The function `write_apdu`.
    Write,
}

impl Engine for ApduEngine {
    /// Calls the function on the streams of `call`, and prints its answer. Returns None if the words are no call.
    fn answer(&self, alloc: Global, page: &mut Page, call: &mut Call<'_>) -> Option<()> {
        match self {
            ApduEngine::Show => {
                call.begin(alloc);
                let answer = run_show(alloc, &mut call.source, &mut call.output);
                let answer = call.end_engine(alloc, answer, &ToolFault::OutOfMemory);
                call.print_answer(page, &answer);
                Some(())
            }
            ApduEngine::Check => {
                call.begin(alloc);
                let answer = run_check(alloc, &mut call.source, &mut call.output);
                let answer = call.end_engine(alloc, answer, &ToolFault::OutOfMemory);
                call.print_answer(page, &answer);
                Some(())
            }
            ApduEngine::Read => read(alloc, page, call),
            ApduEngine::Write => write(alloc, page, call),
        }
    }
}

/// Performs `read TIMES`: reads one APDU after another, each in its own call.
fn read(alloc: Global, page: &mut Page, call: &mut Call<'_>) -> Option<()> {
    let times = number_in(call.words.first()?.text.as_str())?;
    for _ in 0..times {
        call.source.forgive();
        let answer = read_apdu(alloc, &mut call.source);
        print_read(alloc, page, call.names, answer)?;
    }
    print_reader(page, call.names, &call.source);
    Some(())
}

/// Prints the bytes of the APDU that was read, or the end or the fault.
fn print_read(
    alloc: Global,
    page: &mut Page,
    names: &Names,
    answer: Result<Option<Apdu>, ReadFault>,
) -> Option<()> {
    match answer {
        Ok(Some(apdu)) => print_bytes(page, names, "=", &encode(alloc, &apdu).ok()?),
        Ok(None) => print_line(page, "=", "the end"),
        Err(fault) => print_value(page, &fault),
    }
    Some(())
}

/// Performs `write BYTES`: writes the APDU that the bytes encode.
fn write(alloc: Global, page: &mut Page, call: &mut Call<'_>) -> Option<()> {
    let bytes = call.names.bytes(call.words)?;
    let (apdu, _) = decode(alloc, &bytes).ok()?;
    let answer = write_apdu(alloc, &mut call.output, &apdu);
    call.print_answer(page, &answer);
    Some(())
}
