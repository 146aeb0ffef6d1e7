//! The program `ill-web`: the desks of a library in a browser. A web server runs it for each request (CGI, RFC 3875).
//!
//! A script of the operator runs it, with the origin of the pages, the day and the desks. Nothing of a request becomes
//! an argument.
#![tactic(auto)]

mod act;
mod entry;
mod house;
mod laws;
mod note;
mod operator;
mod serve;
mod show;
mod told;
mod trial;
mod trouble;

use ill_browser::Visit;
use operator::Operator;
use serve::{Request, serve};
use std::env::VarError;
use std::io::Write;
use std::process::ExitCode;
use std::{env, io};
use trial::tried;

fn main(rt: HostRuntime) -> ExitCode {
    ExitCode::from(perform(&rt).unwrap_or(3))
}

/// How the program is called.
const USAGE: &str = "\
usage: ill-web --origin ORIGIN --today DAY [--open] PATH..
       ill-web --try FILE
";

/// Answers the request that the environment of this process describes, and returns the exit status. With `--try` it
/// writes how to look at a desk instead. If the arguments are no such line, it writes the usage, and returns 2.
fn perform(rt: &HostRuntime) -> io::Result<u8> {
    let alloc = rt.alloc();
    let arguments: Vec<String> = env::args(rt)?.collect(alloc)?;
    let words: Vec<&str> = arguments
        .iter()
        .map(|argument| argument.as_str())
        .collect(alloc)?;
    if let [_, "--try", file] = words.as_slice() {
        rt.stdout().write_all(tried(alloc, file)?.as_bytes())?;
        return Ok(0);
    }
    match Operator::read(alloc, &words)? {
        Some(operator) => visit(rt, &operator),
        None => {
            rt.stderr().write_all(USAGE.as_bytes())?;
            Ok(2)
        }
    }
}

/// Answers the request that the environment describes, by the rules of `operator`, and returns the exit status.
fn visit(rt: &HostRuntime, operator: &Operator<'_>) -> io::Result<u8> {
    let method = variable(rt, "REQUEST_METHOD")?;
    let path = variable(rt, "PATH_INFO")?;
    let query = variable(rt, "QUERY_STRING")?;
    let site = variable(rt, "HTTP_SEC_FETCH_SITE")?;
    let origin = variable(rt, "HTTP_ORIGIN")?;
    let user = variable(rt, "REMOTE_USER")?;
    let content_type = variable(rt, "CONTENT_TYPE")?;
    let content_length = variable(rt, "CONTENT_LENGTH")?;
    let visit = Visit {
        method: method.as_str(),
        path: path.as_str(),
        query: query.as_str(),
        site: site.as_str(),
        origin: origin.as_str(),
        user: user.as_str(),
        content_type: content_type.as_str(),
        content_length: content_length.as_str(),
    };
    let request = Request {
        operator,
        visit: &visit,
    };
    Ok(serve(rt, rt.alloc(), request, &mut rt.stdin(), &mut rt.stdout()))
}

/// Returns the text of the variable `name`. It is empty if the variable is not there. It is `-` if the variable is no
/// UTF-8, since no variable may have this text.
fn variable(rt: &HostRuntime, name: &str) -> io::Result<String> {
    match env::var(rt, name) {
        Ok(text) => Ok(text),
        Err(VarError::NotPresent) => Ok(String::new(rt.alloc())),
        Err(VarError::NotUnicode) => Ok(String::from_str(rt.alloc(), "-")?),
        Err(VarError::OutOfMemory) => Err(io::Error::from(io::ErrorKind::OutOfMemory)),
    }
}
