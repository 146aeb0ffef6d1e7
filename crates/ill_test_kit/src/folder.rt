//! Makes a temporary folder for the files of a test program.

use std::alloc::Global;
use std::env::Env;
use std::io::ErrorKind;
use std::rt::Files;
use std::{env, fs, io};

/// Makes a new folder in the system's folder for temporary files. Its path ends with `name`, a full stop and a number.
pub fn make_folder<R: Files + Env + AllocGlobal>(
    rt: &R,
    alloc: Global,
    name: &str,
) -> io::Result<String> {
    let below = env::temp_dir(rt)?;
    for number in 0..u16::MAX {
        let path = format!(in alloc; "{}/{name}.{number}", below.as_str())?;
        if is_made(fs::create_dir(rt, path.as_str()))? {
            return Ok(path);
        }
    }
    Err(io::Error::from(ErrorKind::AlreadyExists))
}

/// Returns true if `answer` says that the folder was made, and false if it was there before.
fn is_made(answer: io::Result<()>) -> io::Result<bool> {
    match answer {
        Err(error) if error.kind() == ErrorKind::AlreadyExists => Ok(false),
        answer => answer.and(Ok(true)),
    }
}
