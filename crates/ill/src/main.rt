//! The program `ill`, whose commands handle interlibrary loans.
#![tactic(auto)]

use ill_tool::run_words;
use std::fs::File;
use std::io::ErrorKind;
use std::process::ExitCode;
use std::{env, fs, io};

/// Performs the command line of this process, and exits with its status. Until then the standard streams are held.
fn main(rt: HostRuntime) -> ExitCode {
    let held = hold_streams(&rt);
    let status = match perform(&rt) {
        Ok(status) => status,
        Err(error) => refuse(&rt, &error),
    };
    drop(held);
    ExitCode::from(status)
}

/// Takes the descriptors of the standard streams that are closed, before any file can get one of them. A stream that
/// was closed is then empty, and nothing can be written to it. If there is no `/dev/null`, closed streams stay closed.
fn hold_streams(rt: &HostRuntime) -> [Option<File>; 3] {
    [nothing(rt), nothing(rt), nothing(rt)]
}

/// Opens `/dev/null` for reading. The system gives the file the lowest descriptor that is free.
fn nothing(rt: &HostRuntime) -> Option<File> {
    fs::open(rt, "/dev/null").ok()
}

/// Performs the command line of this process, and returns the exit status. Fails if its words cannot be collected.
fn perform(rt: &HostRuntime) -> io::Result<u8> {
    let alloc = rt.alloc();
    let arguments: Vec<String> = env::args(rt)?.collect(alloc)?;
    let words: Vec<&str> = arguments
        .iter()
        .map(|argument| argument.as_str())
        .collect(alloc)?;
    Ok(run_words(
        rt,
        alloc,
        words.as_slice(),
        &mut rt.stdin(),
        &mut rt.stdout(),
        &mut rt.stderr(),
    ))
}

/// Writes a line about the error of a command line that could not be collected, and returns the exit status.
fn refuse(rt: &HostRuntime, error: &io::Error) -> u8 {
    let (text, status) = if error.kind() == ErrorKind::OutOfMemory {
        ("memory", 3)
    } else {
        ("arguments", 2)
    };
    let _ = eprintln!(rt; "ill: {text}");
    status
}
