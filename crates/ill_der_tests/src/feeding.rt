//! Prints the answers to a case of a `Feed`.

use crate::cases::push_bytes;
use crate::cuts::{Draws, cut};
use crate::fed::{PushOutcome, TestedFeeds};
use ill_test_kit::Page;
use std::alloc::Global;

/// Adds the outcome of each piece, and the answer of `end` after the last.
pub fn push_pieces(alloc: Global, output: &mut Page, words: &str) {
    let mut fed = TestedFeeds::new(alloc);
    for (index, words) in words.split("|").enumerate() {
        let mut piece = Page::new(alloc);
        push_bytes(alloc, &mut piece, words);
        let Some(piece) = piece.bytes() else {
            return output.line("no case");
        };
        push_given(alloc, output, index, &fed.push(piece));
    }
    fed.push_end(output);
}

/// Adds the outcome of each byte as a piece, and the answer of `end` after the last.
pub fn push_singly(alloc: Global, output: &mut Page, bytes: &[u8]) {
    let mut fed = TestedFeeds::new(alloc);
    for (index, byte) in bytes.iter().enumerate() {
        push_given(alloc, output, index, &fed.push(&[*byte]));
    }
    fed.push_end(output);
}

/// Adds the outcome of a push: a line for each APDU, and one for the fault. The first push has the index 0.
fn push_given(alloc: Global, output: &mut Page, index: usize, given: &PushOutcome) {
    let mut prefix = Page::new(alloc);
    prefix.push(b"push ");
    prefix.show(&index.saturating_add(1));
    prefix.push(b": ");
    output.page_after(prefix.so_far(), &given.apdus);
    if let Some(fault) = given.fault {
        output.push(prefix.so_far());
        output.show(&fault);
        output.octet(b'\n');
    }
}

/// Adds the outcome of one push of all bytes. Then adds each place at which a cut in two changes the outcome, and the
/// count of the others.
pub fn push_halves(alloc: Global, output: &mut Page, bytes: &[u8]) {
    let whole = TestedFeeds::of(alloc, &[bytes]);
    push_whole(output, &whole);
    let mut same = 0_usize;
    for place in 0..=bytes.len() {
        let (prefix, after) = bytes.split_at(place);
        if TestedFeeds::of(alloc, &[prefix, after]).agrees_with(&whole) {
            same = same.saturating_add(1);
        } else {
            push_number(output, b"DIFFERS with a cut at ", place);
        }
    }
    push_number(output, b"the same with a cut, at so many places: ", same);
}

/// Adds the outcome of one push of all bytes, and the count of random cuts that do not change it.
pub fn push_random(alloc: Global, output: &mut Page, count: u32, seed: u32, bytes: &[u8]) {
    let whole = TestedFeeds::of(alloc, &[bytes]);
    push_whole(output, &whole);
    let mut same = 0_usize;
    let mut draws = Draws::new(seed);
    for _ in 0..count {
        if let Ok(pieces) = cut(alloc, &mut draws, bytes)
            && TestedFeeds::of(alloc, &pieces).agrees_with(&whole)
        {
            same = same.saturating_add(1);
        }
    }
    push_number(output, b"the same with cuts at random, so often: ", same);
}

/// Adds the count of APDUs that the push gave, and the answer of `end`.
fn push_whole(output: &mut Page, whole: &TestedFeeds) {
    whole.push_count(output);
    output.push(b", ");
    whole.push_end(output);
}

/// Adds a line of `words` that ends with `number`.
fn push_number(output: &mut Page, words: &[u8], number: usize) {
    output.push(words);
    output.show(&number);
    output.octet(b'\n');
}
