//! The message files of a night that want a person, and the lines about them.

ghost use Rattle.std.specs.Prelude.{◌≡◌, option_map};
ghost use Rattle.std.specs.List.{zip};
ghost use Rattle.ill_values.specs.Body.{body_in};
ghost use Rattle.ill_night.specs.MessageFiles.{message_in};
ghost use Rattle.ill_night.specs.Person.{conflict_in, conflict_of, delay_matter, is_never_in_conflict, matter_of, wants_person};

use crate::message::message_in;
use crate::verdict::{Delay, MessageFile, Unfit, Verdict, push_unfit};
use ill_core::Taking;
use ill_der::BodyView;
use ill_saved::Role;
use ill_text::long_lines::push_heading;
use ill_text::warning::push_name;
use ill_values::OutOfMemory;
use ill_words::{DeskOutcome, Outcome};
use std::alloc::Global;
use std::io::Write;

/// The reason why a message file wants a person.
#[derive(Clone, Copy, Debug, PartialEq, Eq, Hash)]
pub(crate) enum Matter {
    /// The message file was quarantined.
    Quarantined,
    /// The message file cannot be read.
    NotRead,
    /// The message file is the record of a desk.
    Record,
    /// A requester's desk has no such loan.
    NoSuchTransaction,
    /// The desk has no room for the loan of the message file.
    DeskFull,
    /// The message of the message file is in conflict, which no loss, delay or repeat of message files explains.
    Conflict,
}

impl Matter {
    /// Returns the matter of `message_file`, by its verdict at the role `role`, if it wants a person.
    fn of(role: Role, message_file: &MessageFile, verdict: Verdict) -> Option<Matter>
        ensures { result ≡ matter_of role message_file.now verdict }
    {
        match verdict {
            Verdict::Quarantined(_) => Some(Matter::Quarantined),
            Verdict::Deferred(delay) => Some(Matter::of_delay(delay)),
            Verdict::Done(DeskOutcome::Plain(Outcome::Answered(Taking::Conflict(_)))) => {
                Matter::of_conflict(role, message_file)
            }
            Verdict::Done(_) => None,
        }
    }

    /// Returns the matter of a message file that waits.
    fn of_delay(delay: Delay) -> Matter
        ensures { result ≡ delay_matter delay }
    {
        match delay {
            Delay::NotRead => Matter::NotRead,
            Delay::Record => Matter::Record,
            Delay::NoSuchTransaction => Matter::NoSuchTransaction,
            Delay::DeskFull => Matter::DeskFull,
        }
    }

    /// Returns the matter of a message file whose message was in conflict, if it should never be in conflict.
    fn of_conflict(role: Role, message_file: &MessageFile) -> Option<Matter>
        ensures { result ≡ conflict_in role (option_map (λ bytes. bytes.items) message_file.now.bytes) }
    {
        match &message_file.bytes {
            Some(bytes) => Matter::of_conflicting(role, bytes),
            None => None,
        }
    }

    /// Returns the matter of a message in conflict, with these bytes, if it should never be in conflict.
    fn of_conflicting(role: Role, bytes: &[u8]) -> Option<Matter>
        ensures { result ≡ conflict_of role (message_in bytes.now) }
    {
        match message_in(bytes) {
            Ok(apdu) if is_never_in_conflict(role, apdu.body()) => Some(Matter::Conflict),
            _ => None,
        }
    }

    /// Returns the text for a person.
    fn text(self) -> &'static str {
        match self {
            Matter::Quarantined => "put aside",
            Matter::NotRead => "stays: not read; look at its name, its permissions and its disk",
            Matter::Record => "stays: it is the record of a desk; look if IN is the right folder",
            Matter::NoSuchTransaction => {
                "stays: this desk has no such loan; ask the partner which loan that is"
            }
            Matter::DeskFull => "stays: the desk is full; begin another one for new loans",
            Matter::Conflict => "does not fit the loan here; ask the partner how it stands there",
        }
    }
}

/// Returns true for a message that only a fault brings into conflict at a side of the role `role`.
fn is_never_in_conflict(role: Role, body: &BodyView<'_>) -> bool
    ensures { result ≡ is_never_in_conflict role (body_in body.now) }
{
    match role {
        Role::Requester => matches!(
            body,
            BodyView::Shipped { .. }
                | BodyView::CancelReply { .. }
                | BodyView::RenewAnswer { .. }
                | BodyView::Expired
                | BodyView::CheckedIn
        ),
        Role::Responder => matches!(body, BodyView::Received | BodyView::Returned),
    }
}

/// Returns true if one of `message_files` wants a person, by its verdict at the role `role`.
pub fn wants_person(role: Role, message_files: &[MessageFile], verdicts: &[Verdict]) -> bool
    ensures { result ≡ wants_person role (zip message_files.now verdicts.now) }
{
    message_files.iter().zip(verdicts).any(|(message_file, verdict)| Matter::of(
        role,
        message_file,
        *verdict,
    ).is_some())
}

/// Writes a line to `errors` for each of `message_files` that wants a person. It has the message file, the matter, and
/// what the person may do. A line that cannot be written is left out.
pub fn print_for_person<E: Write>(
    alloc: Global,
    role: Role,
    message_files: &[MessageFile],
    verdicts: &[Verdict],
    errors: &mut E,
) {
    for (message_file, verdict) in message_files.iter().zip(verdicts) {
        if let Some(matter) = Matter::of(role, message_file, *verdict) {
            let mut line = Vec::new(alloc);
            if push_matter(&mut line, message_file, *verdict, matter).is_ok() {
                let _ = errors.write_all(&line);
            }
        }
    }
}

/// Appends the line of a message file that wants a person.
fn push_matter(
    line: &mut Vec<u8>,
    message_file: &MessageFile,
    verdict: Verdict,
    matter: Matter,
) -> Result<(), OutOfMemory> {
    push_name(line, &message_file.name)?;
    line.extend_from_slice(b": ")?;
    push_what(line, message_file)?;
    line.extend_from_slice(matter.text().as_bytes())?;
    if let Verdict::Quarantined(unfit) = verdict {
        push_place(line, message_file, unfit)?;
    }
    line.push(b'\n')?;
    Ok(())
}

/// Appends the heading of the message of a message file, if it has a message.
fn push_what(line: &mut Vec<u8>, message_file: &MessageFile) -> Result<(), OutOfMemory> {
    let Some(bytes) = &message_file.bytes else {
        return Ok(());
    };
    match message_in(bytes) {
        Ok(apdu) => push_heading(line, &apdu),
        Err(_) => Ok(()),
    }
}

/// Appends the digest that names a message file that was quarantined, and the reason.
fn push_place(
    line: &mut Vec<u8>,
    message_file: &MessageFile,
    unfit: Unfit,
) -> Result<(), OutOfMemory> {
    let digest = message_file.digest(*line.allocator())?;
    line.extend_from_slice(b" as ")?;
    line.extend_from_slice(digest.as_bytes())?;
    line.extend_from_slice(b": ")?;
    push_unfit(line, unfit)
}
