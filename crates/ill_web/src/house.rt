//! The files, the memory and the rules with which a request is answered, and the desk that it names.

ghost use Rattle.std.specs.Prelude.{◌≡◌, [], Some, None, bytes_eq, find, map, option_copied, option_map, string_bytes, MatchResult};
ghost use Rattle.ill_browser.specs.Wanted.{loan_asked};
ghost use Rattle.ill_web.specs.declared.trouble.Trouble.TheVariants.{NoDesk};
ghost use Rattle.ill_web.specs.Pages.{asked_at, file_named};
ghost use Rattle.ill_web.specs.Replies.{house_shown};

use crate::operator::Operator;
use crate::trouble::Trouble;
use ill_browser::LoanName;
use ill_files::machine::Machine;
use ill_report::link::Place;
use std::alloc::Global;
use std::io::{Sink, sink};

/// What a request is answered with: files and memory, and what the operator says.
#[derive(Clone, Copy)]
pub struct House<'a, T> {
    /// The runtime, which has the files.
    pub rt: &'a T,
    /// The memory.
    pub alloc: Global,
    /// What the operator says.
    pub operator: &'a Operator<'a>,
    /// The paths of the desks.
    pub files: &'a [String],
    /// The name of the user. It is empty if nobody is named.
    pub user: &'a str,
}

impl<'a, T> House<'a, T> {
    /// Returns the loan, with the path of its desk. The text for the desk is compared with the paths of the operator's
    /// desks, and opens no file. If it is none of them, the trouble is `NoDesk`.
    pub fn place<'b>(&'b self, loan: &'b LoanName) -> Result<Place<'b>, Trouble>
        ensures { MatchResult result
            (λ place. (file_named (house_shown self.now).files loan.now.desk.items ≡ Some loan.now.desk.items)
            × (asked_at place ≡ loan_asked loan.now))
            (λ trouble. (file_named (house_shown self.now).files loan.now.desk.items ≡ None) × (trouble ≡ NoDesk)) }
    {
        match file_named(self.files, &loan.desk) {
            Some(file) => Ok(Place {
                desk: file.as_str(),
                txn: &loan.txn,
            }),
            None => Err(Trouble::NoDesk),
        }
    }

    /// Returns a machine whose output is in memory. Lines about what could not be done go nowhere.
    pub fn machine(&self) -> Machine<'a, T, Vec<u8>, Sink>
        ensures { result.writer.items ≡ [] }
    {
        Machine {
            rt: self.rt,
            alloc: self.alloc,
            writer: Vec::new(self.alloc),
            errors: sink(),
        }
    }
}

/// Returns the first of `files` with the text `desk`.
fn file_named<'a>(files: &'a [String], desk: &[u8]) -> Option<&'a String>
    ensures { option_map (λ file. string_bytes file) (option_copied result)
        ≡ file_named (map (λ file. string_bytes file) files.now) desk.now }
{
    file_with(files, desk)
}

/// Returns the first of `files` with these bytes.
fn file_with<'a>(files: &'a [String], bytes: &[u8]) -> Option<&'a String>
    ensures { option_copied result ≡ find (λ file. bytes_eq (string_bytes file) bytes.now) files.now }
{
    files.iter().find(|file| file.as_bytes() == bytes)
}
