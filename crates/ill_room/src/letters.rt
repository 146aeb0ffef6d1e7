//! The message files that came in sealed letters, and the verdicts by which their files are settled.

ghost use Rattle.std.specs.Prelude.{◌≡◌, ◌≤◌, ◌++◌, length, map, option_map, slice_get, IfOk, OnOk};
ghost use Rattle.std.specs.List.{zip, concat, fold};
ghost use Rattle.ill_room.specs.Letters.{OpensTo, file_verdict, file_verdicts, is_in, pair_at, verdict_at, worse, worse_if_in};

use ill_der::view;
use ill_night::verdict::{InLetter, MessageFile, Verdict};
use ill_seal::{Key, Sender, unseal};
use ill_values::OutOfMemory;
use std::alloc::Global;

/// Returns the messages in `letter`, one after another, or `None` if `sender` has not sealed it with `key`. Bytes after
/// the messages that are no message are returned as the last element.
pub fn messages_in(
    alloc: Global,
    key: &Key,
    sender: Sender,
    letter: &[u8],
) -> Result<Option<Vec<Vec<u8>>>, OutOfMemory>
    ensures { IfOk result (λ messages. OpensTo key.now sender letter.now
        (option_map (λ messages. map (λ message. message.items) messages.items) messages)) }
{
    match unseal(key, sender, letter) {
        Ok(text) => Ok(Some(parted(alloc, text)?)),
        Err(_) => Ok(None),
    }
}

/// Returns the messages in `text`, one after another. Bytes after the messages that are no message are returned as the
/// last element.
fn parted(alloc: Global, text: &[u8]) -> Result<Vec<Vec<u8>>, OutOfMemory>
    ensures { IfOk result (λ messages. concat (map (λ message. message.items) messages.items) ≡ text.now) }
{
    let mut messages = Vec::new(alloc);
    let mut rest = text;
    while !rest.is_empty() {
        let (message, others) = rest.split_at(first_size(rest));
        messages.push(Vec::from_slice(alloc, message)?)?;
        rest = others;
    }
    Ok(messages)
}

/// Returns the size of the message with which `text` begins. If `text` begins with no message, returns the size of
/// `text`.
fn first_size(text: &[u8]) -> usize
    requires { 1 ≤ length text.now }
    ensures least { 1 ≤ result }
    ensures most { result ≤ length text.now }
{
    match view(text) {
        Ok((_, size)) => size.clamp(1, text.len()),
        Err(_) => text.len(),
    }
}

/// Returns the verdicts by which the files of `message_files` are settled. A message file in a letter shares its file,
/// which has the worst verdict of the message files in it.
pub fn file_verdicts(
    alloc: Global,
    message_files: &[MessageFile],
    verdicts: &[Verdict],
) -> Result<Vec<Verdict>, OutOfMemory>
    ensures { IfOk result (λ settled. settled.items ≡ file_verdicts (zip message_files.now verdicts.now)) }
{
    let mut settled = Vec::new(alloc);
    for place in 0..message_files.len() {
        push_file_verdict(&mut settled, message_files, verdicts, place)?;
    }
    Ok(settled)
}

/// Appends the verdict by which the file of the message file at `place` is settled, if there are a message file and a
/// verdict.
fn push_file_verdict(
    settled: &mut Vec<Verdict>,
    message_files: &[MessageFile],
    verdicts: &[Verdict],
    place: usize,
) -> Result<(), OutOfMemory>
    ensures { OnOk result (settled.new.items ≡ settled.old.items
        ++ verdict_at (zip message_files.now verdicts.now) (slice_get message_files.now place) (slice_get verdicts.now place)) }
{
    match (message_files.get(place), verdicts.get(place)) {
        (Some(message_file), Some(verdict)) => {
            settled.push(file_verdict(message_file.letter, *verdict, message_files, verdicts))?;
            Ok(())
        }
        _ => Ok(()),
    }
}

/// Returns the verdict by which the file of a message file with `verdict` is settled. `letter` is the letter that the
/// message file is in, if there is one. `message_files` and `verdicts` are those of the run.
fn file_verdict(
    letter: Option<InLetter>,
    verdict: Verdict,
    message_files: &[MessageFile],
    verdicts: &[Verdict],
) -> Verdict
    ensures { result ≡ file_verdict (zip message_files.now verdicts.now) letter verdict }
{
    match letter {
        Some(letter) => worst_in(letter.number, verdict, message_files, verdicts),
        None => verdict,
    }
}

/// Returns the worst of `verdict` and the verdicts of the message files in the letter `number`.
fn worst_in(
    number: usize,
    verdict: Verdict,
    message_files: &[MessageFile],
    verdicts: &[Verdict],
) -> Verdict
    ensures { result ≡ fold (worse_if_in number) verdict (zip message_files.now verdicts.now) }
{
    let mut worst = verdict;
    for place in 0..message_files.len() {
        worst = worse_at(number, worst, message_files.get(place), verdicts.get(place));
    }
    worst
}

/// Returns the worse of `worst` and `verdict`, if there are a message file and a verdict and the message file is in the
/// letter `number`. Else returns `worst`.
fn worse_at(
    number: usize,
    worst: Verdict,
    message_file: Option<&MessageFile>,
    verdict: Option<&Verdict>,
) -> Verdict
    ensures { result ≡ fold (worse_if_in number) worst (pair_at (option_map (λ message_file. message_file.now) message_file.entry)
        (option_map (λ verdict. verdict.now) verdict.entry)) }
{
    match (message_file, verdict) {
        (Some(message_file), Some(verdict)) => worse_if_in(number, worst, message_file, *verdict),
        _ => worst,
    }
}

/// Returns the worse of `worst` and `verdict`, if `message_file`, whose verdict that is, is in the letter `number`.
/// Else returns `worst`.
fn worse_if_in(
    number: usize,
    worst: Verdict,
    message_file: &MessageFile,
    verdict: Verdict,
) -> Verdict
    ensures { result ≡ worse_if_in number worst (message_file.now, verdict) }
{
    if is_in(number, message_file.letter) {
        worse(worst, verdict)
    } else {
        worst
    }
}

/// Returns true if a message file is in the letter `number`. `letter` is the letter that the message file is in, if
/// there is one.
fn is_in(number: usize, letter: Option<InLetter>) -> bool
    ensures { result ≡ is_in number letter }
{
    match letter {
        Some(letter) => letter.number == number,
        None => false,
    }
}

/// Returns the worse of two verdicts of message files in one file: `Deferred` is worse than `Quarantined`, and
/// `Quarantined` is worse than `Done`.
fn worse(worst: Verdict, other: Verdict) -> Verdict
    ensures { result ≡ worse worst other }
{
    match (worst, other) {
        (Verdict::Deferred(delay), _) | (Verdict::Quarantined(_), Verdict::Deferred(delay)) => {
            Verdict::Deferred(delay)
        }
        (Verdict::Quarantined(unfit), _) => Verdict::Quarantined(unfit),
        (Verdict::Done(_), other) => other,
    }
}
