//! Prints the answers to a case.

use crate::agreement::{differing_at_apdu, differing_at_fault};
use crate::cases::push_bytes;
use crate::feeding::{push_halves, push_pieces, push_random, push_singly};
use crate::reading::{Reading, decoded};
use crate::values::{push_id, push_item, push_later_day, push_new_day, push_number, push_read_day};
use crate::words::push_apdu;
use ill_der::DerFault;
use ill_test_kit::{AnswersCases, Page, number_in, octet_in};
use std::alloc::Global;

/// Answers the cases of encodings and values.
#[derive(Drop)]
pub struct Encodings;

impl AnswersCases for Encodings {
    /// Adds the answers to the case `line`. If it is no case, they are `no case`.
    fn answer(&mut self, alloc: Global, page: &mut Page, line: &str) -> Option<()> {
        push_answers(alloc, page, line);
        Some(())
    }
}

/// Adds the answers to a case.
fn push_answers(alloc: Global, output: &mut Page, line: &str) {
    let (form, words) = line.split_once(": ").unwrap_or(("", line));
    match form {
        "in pieces" => push_pieces(alloc, output, words),
        "id" => push_id(alloc, output, words),
        "day of" => push_new_day(alloc, output, words),
        "number" => push_number(alloc, output, words),
        _ => push_answers_to_bytes(alloc, output, form, words),
    }
}

/// Adds the answers to a case that consists of one sequence of bytes.
fn push_answers_to_bytes(alloc: Global, output: &mut Page, form: &str, words: &str) {
    let mut bytes = Page::new(alloc);
    push_bytes(alloc, &mut bytes, words);
    match bytes.bytes() {
        Some(bytes) => push_form(alloc, output, form, bytes),
        None => output.line("no case"),
    }
}

/// Adds the answers to `bytes` in the form that `form` names.
fn push_form(alloc: Global, output: &mut Page, form: &str, bytes: &[u8]) {
    match form {
        "" => push_line(output, &answer_to(alloc, bytes)),
        "each proper front" => push_prefixes(alloc, output, bytes),
        "one after another" => push_stream(alloc, output, bytes),
        "byte by byte" => push_singly(alloc, output, bytes),
        "cut in two at each place" => push_halves(alloc, output, bytes),
        "item" => push_item(alloc, output, bytes),
        "day" => push_read_day(alloc, output, bytes),
        _ => push_numbered_form(alloc, output, form, bytes),
    }
}

/// Adds the answers to `bytes` in a form that contains a number.
fn push_numbered_form(alloc: Global, output: &mut Page, form: &str, bytes: &[u8]) {
    if let Some(place) = place_in(form) {
        push_octets(alloc, output, place, bytes);
    } else if let Some((count, seed)) = draws_in(form) {
        push_random(alloc, output, count, seed, bytes);
    } else if let Some(days) = days_in(form) {
        push_later_day(alloc, output, days, bytes);
    } else {
        output.line("no case");
    }
}

/// Returns the place that the form `each octet at N` names.
fn place_in(form: &str) -> Option<usize> {
    let digits = form.strip_prefix("each octet at ")?;
    Some(usize::from(octet_in(digits)?))
}

/// Returns the count of cuts and the seed in the form `cut at random, N times from seed N`.
fn draws_in(form: &str) -> Option<(u32, u32)> {
    let numbers = form.strip_prefix("cut at random, ")?;
    let (count, seed) = numbers.split_once(" times from seed ")?;
    Some((number_in(count)?, number_in(seed)?))
}

/// Returns the count of days in the form `N days after`.
fn days_in(form: &str) -> Option<u32> {
    let digits = form.strip_suffix(" days after")?;
    number_in(digits)
}

/// Returns the answer of `decode` as text, with the first call that contradicts it.
fn answer_to(alloc: Global, bytes: &[u8]) -> Page {
    let mut answer = Page::new(alloc);
    let differing = match decoded(alloc, bytes) {
        Ok((apdu, size)) => {
            push_apdu(&mut answer, &apdu);
            answer.push(b", size ");
            answer.show(&size);
            differing_at_apdu(alloc, bytes, &apdu, size)
        }
        Err(fault) => {
            answer.show(&fault);
            differing_at_fault(alloc, bytes, fault)
        }
    };
    if let Some(call) = differing {
        answer.push(b", DIFFERS: ");
        answer.push(call);
    }
    answer
}

/// Adds the answers to the proper prefixes that are not short at their ends, and the count of all prefixes.
fn push_prefixes(alloc: Global, output: &mut Page, bytes: &[u8]) {
    for size in 0..bytes.len() {
        let prefix = &bytes[..size];
        if !is_short(alloc, prefix) {
            push_line(output, &answer_to(alloc, prefix));
        }
    }
    output.push(b"fronts, short at their ends but for those above: ");
    output.show(&bytes.len());
    output.octet(b'\n');
}

/// Returns true if all calls answer that `bytes` are short at their end.
fn is_short(alloc: Global, bytes: &[u8]) -> bool {
    match decoded(alloc, bytes) {
        Err(DerFault::Short(size)) => {
            usize::from(size) == bytes.len()
                && differing_at_fault(alloc, bytes, DerFault::Short(size)).is_none()
        }
        _ => false,
    }
}

/// Adds the answers to `bytes` with each octet in turn at `place`. Equal answers to octets in a row are printed once,
/// after the first of these octets.
fn push_octets(alloc: Global, output: &mut Page, place: usize, bytes: &[u8]) {
    let Some((before, [_, after @ ..])) = bytes.split_at_checked(place) else {
        return output.line("no case");
    };
    let mut last = Page::new(alloc);
    for octet in 0..=u8::MAX {
        let answer = answer_between(alloc, before, octet, after);
        if answer.so_far() != last.so_far() {
            push_from(output, octet);
            push_line(output, &answer);
            last = answer;
        }
    }
}

/// Returns the answer to the bytes `before`, `octet` and `after`.
fn answer_between(alloc: Global, before: &[u8], octet: u8, after: &[u8]) -> Page {
    let mut bytes = Page::new(alloc);
    bytes.push(before);
    bytes.octet(octet);
    bytes.push(after);
    answer_to(alloc, bytes.so_far())
}

/// Adds the words that announce an answer from `octet` on.
fn push_from(output: &mut Page, octet: u8) {
    output.push(b"from ");
    output.hex(&[octet]);
    output.push(b": ");
}

/// Adds an answer, and the end of its line.
fn push_line(output: &mut Page, answer: &Page) {
    output.page(answer);
    output.octet(b'\n');
}

/// Adds each answer of `read_apdu` up to the end, with the count of bytes that it took. The end is read twice.
fn push_stream(alloc: Global, output: &mut Page, bytes: &[u8]) {
    let mut reader = bytes;
    for _ in 0..bytes.len() {
        if reader.is_empty() {
            break;
        }
        reader = push_read(alloc, output, reader);
    }
    reader = push_read(alloc, output, reader);
    push_read(alloc, output, reader);
}

/// Adds the answer of one `read_apdu`, with the count of bytes that it took. Returns the bytes that it left.
fn push_read<'a>(alloc: Global, output: &mut Page, bytes: &'a [u8]) -> &'a [u8] {
    let reading = Reading::of(alloc, bytes);
    match &reading.answer {
        Ok(None) => output.push(b"the end"),
        Ok(Some(apdu)) => push_apdu(output, apdu),
        Err(fault) => output.show(fault),
    }
    output.push(b", took ");
    output.show(&bytes.len().saturating_sub(reading.left.len()));
    if !reading.is_steady {
        output.push(b", DIFFERS: read_apdu");
    }
    output.octet(b'\n');
    reading.left
}
