//! The lines of a night, or its objects of JSON.

ghost use Rattle.std.specs.Prelude.{◌≡◌, [], ◌++◌, codes, IfOk, OnOk};
ghost use Rattle.ill_text.specs.Json.{joined, member};
ghost use Rattle.ill_text.specs.ApduObject.{apdu_fields, object_line};
ghost use Rattle.ill_inbox.specs.Lines.{sent_line};
ghost use Rattle.ill_night.specs.Lines.{unfit_text};
ghost use Rattle.ill_inbox.specs.Objects.{deed_fields, message_fields, outcome_fields, sent_fields, stays_fields, tally_fields, printed_message, printed_sent, printed_tally, printed_verdict, verdict_object};

use crate::due::Due;
use crate::tally::{Tally, push_tally};
use ill_der::ApduView;
use ill_desk::side_line::push_long;
use ill_night::verdict::{Unfit, Verdict, delay_word, push_unfit, push_verdict};
use ill_saved::Shown;
use ill_text::apdu_object::push_apdu_after;
use ill_text::form::Form;
use ill_text::json::{Value, push_members, push_plain};
use ill_values::OutOfMemory;
use ill_words::DeskOutcome;
use std::alloc::Global;

/// Appends the lines or the object of a message with this outcome. Its side is shown as `now`.
pub(crate) fn print_message(
    printed: &mut Vec<u8>,
    form: Form,
    apdu: &ApduView<'_>,
    outcome: DeskOutcome,
    now: Shown,
) -> Result<(), OutOfMemory>
    ensures { OnOk result (printed.new.items ≡ printed.old.items ++ printed_message form apdu.now outcome now) }
{
    match form {
        Form::Lines => push_long(printed, apdu, outcome, now),
        Form::Json => push_message_object(printed, apdu, outcome, now),
    }
}

/// Appends the line or the object of the message file `name`, if it stays.
pub(crate) fn print_verdict(
    printed: &mut Vec<u8>,
    form: Form,
    name: &[u8],
    verdict: Verdict,
) -> Result<(), OutOfMemory>
    ensures { OnOk result (printed.new.items ≡ printed.old.items ++ printed_verdict form name.now verdict) }
{
    match form {
        Form::Lines => push_verdict(printed, name, verdict),
        Form::Json => push_verdict_object(printed, name, verdict),
    }
}

/// Appends the line or the object of the counts of message files. `waiting` message files had no room in the run.
pub(crate) fn print_tally(
    printed: &mut Vec<u8>,
    form: Form,
    tally: &Tally,
    waiting: usize,
) -> Result<(), OutOfMemory>
    ensures { OnOk result (printed.new.items ≡ printed.old.items ++ printed_tally form tally.now waiting) }
{
    match form {
        Form::Lines => push_tally(printed, tally, waiting),
        Form::Json => push_tally_object(printed, tally, waiting),
    }
}

/// Returns the line or the object of the number of messages that were sent.
pub fn sent_text(alloc: Global, form: Form, count: usize) -> Result<Vec<u8>, OutOfMemory>
    ensures { IfOk result (λ text. text.items ≡ printed_sent form count) }
{
    match form {
        Form::Lines => sent_line(alloc, count),
        Form::Json => sent_object(alloc, count),
    }
}

/// Returns the line of the number of messages that were sent.
fn sent_line(alloc: Global, count: usize) -> Result<Vec<u8>, OutOfMemory>
    ensures { IfOk result (λ text. text.items ≡ sent_line count) }
{
    Ok(format!(in alloc; "sent {count}\n")?.into_bytes())
}

/// Returns the object of the number of messages that were sent.
#[tactic(auto, unfolding(ill_text::specs::Json::joined))]
fn sent_object(alloc: Global, count: usize) -> Result<Vec<u8>, OutOfMemory>
    ensures { IfOk result (λ text. text.items ≡ object_line (sent_fields count)) }
{
    let mut text = Vec::new(alloc);
    push_plain(&mut text, "{")?;
    push_members(
        &mut text,
        b"",
        &[
            ("kind", Value::Text(b"sent")),
            ("messages", Value::Count(count)),
        ],
    )?;
    push_plain(&mut text, "}\n")?;
    Ok(text)
}

/// Appends the object of a message with this outcome. Its side is shown as `now`.
fn push_message_object(
    text: &mut Vec<u8>,
    apdu: &ApduView<'_>,
    outcome: DeskOutcome,
    now: Shown,
) -> Result<(), OutOfMemory>
    ensures { OnOk result (text.new.items ≡ text.old.items ++ object_line (message_fields apdu.now outcome now)) }
{
    push_plain(text, "{")?;
    push_message(text, apdu, outcome, now)?;
    push_plain(text, "}\n")
}

/// Appends the fields of a message with this outcome, and of its side.
fn push_message(
    text: &mut Vec<u8>,
    apdu: &ApduView<'_>,
    outcome: DeskOutcome,
    now: Shown,
) -> Result<(), OutOfMemory>
    ensures { OnOk result (text.new.items ≡ text.old.items ++ joined member [] (message_fields apdu.now outcome now)) }
{
    push_outcome(text, outcome, now)?;
    push_apdu_after(text, apdu)
}

/// Appends the fields of an outcome, and of the side after it.
#[tactic(auto, unfolding(ill_text::specs::Json::joined))]
fn push_outcome(text: &mut Vec<u8>, outcome: DeskOutcome, now: Shown) -> Result<(), OutOfMemory>
    ensures { OnOk result (text.new.items ≡ text.old.items ++ joined member [] (outcome_fields outcome now)) }
{
    push_members(
        text,
        b"",
        &[
            ("kind", Value::Text(b"message")),
            ("outcome", Value::Text(outcome.word().as_bytes())),
            ("state", Value::Text(now.state.name().as_bytes())),
            ("due", Value::day(now.due)),
            ("released", Value::Count(now.released.into())),
            ("issued", Value::Count(now.issued.into())),
        ],
    )
}

/// Appends the object of the message file `name`. A message file that is done has none.
fn push_verdict_object(text: &mut Vec<u8>, name: &[u8], verdict: Verdict) -> Result<(), OutOfMemory>
    ensures { OnOk result (text.new.items ≡ text.old.items ++ verdict_object name.now verdict) }
{
    match verdict {
        Verdict::Done(_) => Ok(()),
        Verdict::Quarantined(unfit) => push_quarantined_object(text, name, unfit),
        Verdict::Deferred(delay) => push_stays(text, name, b"left", delay_word(delay).as_bytes()),
    }
}

/// Appends the object of the message file `name`, which is quarantined.
fn push_quarantined_object(text: &mut Vec<u8>, name: &[u8], unfit: Unfit) -> Result<(), OutOfMemory>
    ensures { OnOk result (text.new.items ≡ text.old.items
        ++ object_line (stays_fields name.now (codes "aside") (unfit_text unfit))) }
{
    let mut reason = Vec::new(*text.allocator());
    push_unfit(&mut reason, unfit)?;
    push_stays(text, name, b"aside", &reason)
}

/// Appends the object of the message file `name`, which is quarantined or waits. `word` says which, and `reason` why.
fn push_stays(
    text: &mut Vec<u8>,
    name: &[u8],
    word: &[u8],
    reason: &[u8],
) -> Result<(), OutOfMemory>
    ensures { OnOk result (text.new.items ≡ text.old.items
        ++ object_line (stays_fields name.now word.now reason.now)) }
{
    push_plain(text, "{")?;
    push_message_file(text, name, word, reason)?;
    push_plain(text, "}\n")
}

/// Appends the fields of the message file `name`, which is quarantined or waits. `word` says which, and `reason` why.
#[tactic(auto, unfolding(ill_text::specs::Json::joined))]
fn push_message_file<'a>(
    text: &mut Vec<u8>,
    name: &'a [u8],
    word: &'a [u8],
    reason: &'a [u8],
) -> Result<(), OutOfMemory>
    ensures { OnOk result (text.new.items ≡ text.old.items
        ++ joined member [] (stays_fields name.now word.now reason.now)) }
{
    push_members(
        text,
        b"",
        &[
            ("kind", Value::Text(b"mail")),
            ("name", Value::Text(name)),
            ("verdict", Value::Text(word)),
            ("reason", Value::Text(reason)),
        ],
    )
}

/// Appends the object of the counts of message files. `waiting` message files had no room in the run.
fn push_tally_object(text: &mut Vec<u8>, tally: &Tally, waiting: usize) -> Result<(), OutOfMemory>
    ensures { OnOk result (text.new.items ≡ text.old.items ++ object_line (tally_fields tally.now waiting)) }
{
    push_plain(text, "{")?;
    push_counts(text, tally, waiting)?;
    push_plain(text, "}\n")
}

/// Appends the fields of the counts of message files. `waiting` message files had no room in the run.
#[tactic(auto, unfolding(ill_text::specs::Json::joined))]
fn push_counts(text: &mut Vec<u8>, tally: &Tally, waiting: usize) -> Result<(), OutOfMemory>
    ensures { OnOk result (text.new.items ≡ text.old.items ++ joined member [] (tally_fields tally.now waiting)) }
{
    push_members(
        text,
        b"",
        &[
            ("kind", Value::Text(b"mails")),
            ("taken", Value::Count(tally.taken)),
            ("repeat", Value::Count(tally.repeat)),
            ("stale", Value::Count(tally.stale)),
            ("conflict", Value::Count(tally.conflict)),
            ("unknown", Value::Count(tally.unknown)),
            ("aside", Value::Count(tally.quarantined)),
            ("left", Value::Count(tally.left)),
            ("waiting", Value::Count(waiting)),
        ],
    )
}

/// Appends the object of the deed `due`. Its loan is shown as `now`.
pub(crate) fn push_deed_object(text: &mut Vec<u8>, due: &Due, now: Shown) -> Result<(), OutOfMemory>
    ensures { OnOk result (text.new.items ≡ text.old.items ++ object_line (deed_fields due.now now)) }
{
    push_plain(text, "{")?;
    push_deed(text, due, now)?;
    push_plain(text, "}\n")
}

/// Appends the fields of the deed `due`, and of its loan.
#[tactic(auto, unfolding(ill_text::specs::Json::joined))]
fn push_deed(text: &mut Vec<u8>, due: &Due, now: Shown) -> Result<(), OutOfMemory>
    ensures { OnOk result (text.new.items ≡ text.old.items ++ joined member [] (deed_fields due.now now)) }
{
    push_members(
        text,
        b"",
        &[
            ("kind", Value::Text(b"deed")),
            ("verb", Value::Text(due.deed.verb().name().as_bytes())),
            ("group", Value::Text(due.txn.group())),
            ("transaction", Value::Text(due.txn.transaction())),
            ("state", Value::Text(now.state.name().as_bytes())),
            ("due", Value::day(now.due)),
            ("released", Value::Count(now.released.into())),
            ("issued", Value::Count(now.issued.into())),
        ],
    )
}
