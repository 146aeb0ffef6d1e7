//! The verbs of each role, and the parts after each.

use ill_core::Verb;
use ill_saved::Role;
use ill_values::OutOfMemory;
use std::alloc::Global;
use std::fmt;
use strsim::osa_distance;

/// The parts of an action after its verb.
#[derive(Clone, Copy)]
pub enum Parts {
    /// No part.
    Nothing,
    /// A day or the word `none`, and the words of an item.
    Item,
    /// Yes or no.
    YesOrNo,
    /// A day, until which the borrower wishes to keep the item, or the word `none`.
    Wished,
    /// A result of an ILL-Answer.
    Result,
    /// A day, or a number of days after today.
    Due,
    /// Yes and a day, or no.
    Grant,
}

impl Parts {
    /// Returns the parts as the help writes them, after a space.
    fn form(self) -> &'static str {
        match self {
            Parts::Nothing => "",
            Parts::Item => " DAY|none ITEM..",
            Parts::YesOrNo => " yes|no",
            Parts::Wished => " DAY|none",
            Parts::Result => " RESULT",
            Parts::Due => " DUE",
            Parts::Grant => " yes DUE|no",
        }
    }

    /// Returns the least and the greatest number of words in the parts.
    pub fn counts(self) -> (usize, usize) {
        match self {
            Parts::Nothing => (0, 0),
            Parts::Item => (2, usize::MAX),
            Parts::Grant => (1, 2),
            Parts::YesOrNo | Parts::Wished | Parts::Result | Parts::Due => (1, 1),
        }
    }
}

/// The form of an action. It is displayed as a user types it.
#[derive(Clone, Copy)]
pub struct Form {
    /// The verb, which is the first word.
    pub verb: Verb,
    /// The role that has the verb.
    pub role: Role,
    /// The parts after the verb.
    pub parts: Parts,
}

/// Writes the verb and its parts between backquotes.
impl fmt::Display for Form {
    fn fmt<W: fmt::Write>(&self, f: &mut fmt::Formatter<W>) -> fmt::Result {
        let verb = self.verb.name();
        let parts = self.parts.form();
        write!(f, "`{verb}{parts}`")
    }
}

/// The role and the parts of each verb.
const FORMS: [(Verb, Role, Parts); 14] = [
    (Verb::Request, Role::Requester, Parts::Item),
    (Verb::Cancel, Role::Requester, Parts::Nothing),
    (Verb::Reply, Role::Requester, Parts::YesOrNo),
    (Verb::Receive, Role::Requester, Parts::Nothing),
    (Verb::Renew, Role::Requester, Parts::Wished),
    (Verb::Return, Role::Requester, Parts::Nothing),
    (Verb::Answer, Role::Responder, Parts::Result),
    (Verb::CancelReply, Role::Responder, Parts::YesOrNo),
    (Verb::Ship, Role::Responder, Parts::Due),
    (Verb::RenewAnswer, Role::Responder, Parts::Grant),
    (Verb::Overdue, Role::Responder, Parts::Nothing),
    (Verb::Recall, Role::Responder, Parts::Nothing),
    (Verb::CheckIn, Role::Responder, Parts::Nothing),
    (Verb::Expire, Role::Responder, Parts::Nothing),
];

/// Returns the form of the verb `name`, if `name` is a verb.
pub fn form_of(name: &str) -> Option<Form> {
    for (verb, role, parts) in FORMS {
        if verb.name() == name {
            return Some(Form { verb, role, parts });
        }
    }
    None
}

/// Returns the names of the verbs of `role`.
pub fn names_of(alloc: Global, role: Role) -> Result<Vec<&'static str>, OutOfMemory> {
    Ok(
        FORMS
            .iter()
            .filter(|(_, of, _)| *of == role)
            .map(|(verb, _, _)| verb.name())
            .collect(alloc)?,
    )
}

/// The greatest number of wrong, missing, extra or swapped letters in a word that is near a name.
const NEAR: usize = 2;

/// Returns the name that is nearest to `word`, if one is near. Of equally near names it returns the first.
pub fn nearest<'a>(
    alloc: Global,
    names: &[&'a str],
    word: &str,
) -> Result<Option<&'a str>, OutOfMemory> {
    let mut found = None;
    let mut least = NEAR + 1;
    for name in names {
        let far = osa_distance(alloc, word, name)?;
        if far < least {
            least = far;
            found = Some(*name);
        }
    }
    Ok(found)
}
